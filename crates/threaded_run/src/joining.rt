//! One join, through the pass of the sequence that asks for it.

ghost use Rattle.std.specs.Prelude.{◌≡◌, ◌<◌, [], ◌∷◌, Err, IfOk, List, OnErr, length};
ghost use Rattle.bind_hub.specs.Hubs.{schema_in, seqs_in};
ghost use Rattle.bind_model.specs.Plain.{command_of, told_of};
ghost use Rattle.bind_model.specs.declared.commands.Command.TheVariants as commands;
ghost use Rattle.bind_model.specs.declared.event.Event.{Event as event_of};
ghost use Rattle.bind_model.specs.declared.told.Told.TheVariants.{Made};
ghost use Rattle.handle_table.specs.declared.thing.Thing.{Thing as thing_of};
ghost use Rattle.mj_base.specs.declared.ids.SeqId.{SeqId as seq_id};
ghost use Rattle.threaded_run.specs.steps.Joins.{HaveJoined, IsCutBy, IsFull};
ghost use Rattle.threaded_run.specs.steps.Passes.{ArePasses, HaveAll};

use crate::sharing::share;
use bind_hub::{Hub, Pass};
use bind_model::{Command, Refused, Reply};
use script_run::{Cut, Joint};
use std::alloc::Global;
use std::sync::Wait;

/// Why a join that came back wasn't done.
fn cut_of(refused: Refused) -> Cut
    requires joins { (other : seq_id) × (command_of refused ≡ commands.Join other) }
    ensures { IsCutBy refused result }
{
    match refused {
        Refused::Memory(Command::Join(_)) => Cut::Memory,
        Refused::Spent(Command::Join(_)) => Cut::Spent,
        // Nothing else came back.
        _other => unreachable!(),
    }
}

/// A sequence joins with another, and then all passes have seen it. Where they had seen some events, and each of its own just those, they
/// have then seen these and the join; where it is cut off, these still.
pub fn join_one<W: Wait>(
    rt: &W,
    alloc: Global,
    hub: &Hub,
    passes: &mut [Pass],
    joint: Joint,
) -> Result<Reply, Cut>
    requires within { joint.seq.0 < length passes.old }
    requires other { joint.other.0 < seqs_in hub.now }
    requires count { length passes.old ≡ seqs_in hub.now }
    requires passes { ArePasses hub.now.turn.board.shared.table_id (schema_in hub.now) (seqs_in hub.now) passes.old }
    ensures len { length passes.new ≡ length passes.old }
    ensures passes { ArePasses hub.now.turn.board.shared.table_id (schema_in hub.now) (seqs_in hub.now) passes.new }
    ensures made { IfOk result (λ reply. (x : thing_of) × (y : thing_of) × (told_of reply ≡ Made (x ∷ y ∷ []))) }
    ensures joined { (joins : List event_of) → HaveAll hub.now.turn.board.shared.table_id (schema_in hub.now) (seqs_in hub.now) joins passes.old
        → IfOk result (λ reply. (x : thing_of) × (y : thing_of) × (told_of reply ≡ Made (x ∷ y ∷ []))
        × HaveJoined hub.now.turn.board.shared.table_id (schema_in hub.now) (seqs_in hub.now) joint joins passes.new x y) }
    ensures stands { (joins : List event_of) → HaveAll hub.now.turn.board.shared.table_id (schema_in hub.now) (seqs_in hub.now) joins passes.old
        → OnErr result (HaveAll hub.now.turn.board.shared.table_id (schema_in hub.now) (seqs_in hub.now) joins passes.new) }
    ensures full { result ≡ Err Cut.Spent → IsFull passes.new }
{
    match hub.step(
        rt,
        alloc,
        &mut passes[joint.seq.0 as usize],
        Command::Join(joint.other),
    ) {
        Ok(reply) => {
            share(hub, passes, joint.seq.0 as usize);
            Ok(reply)
        }
        Err(refused) => Err(cut_of(refused)),
    }
}
