//! The drain of a run.

ghost use Rattle.std.specs.Prelude.{◌≡◌, ◌+◌, ◌<◌, ◌≤◌, ◌++◌, ◌∷◌, List, length, OnOk};
ghost use Rattle.mj_base.specs.declared.ids.SeqId.{SeqId as seq_id};
ghost use Rattle.mj_base.specs.declared.limits.TheConstants.{MAX_EVENTS, MAX_FILE_BYTES};
ghost use Rattle.bind_model.specs.Seen.{own_of};
ghost use Rattle.bind_model.specs.WireOf.{wire_of};
ghost use Rattle.bind_model.specs.declared.event.Event.{Event as event};
ghost use Rattle.call_script.specs.Sound.{IsScript};
ghost use Rattle.script_names.specs.Autos.{due};
ghost use Rattle.script_run.specs.OfScript.{AsksNext, GoesOn, next_join, next_of};
ghost use Rattle.event_tables.specs.AsCore.{past_by};
ghost use Rattle.event_follow.specs.steps.Draining.{DrainedAll, HasDrained, TookTurn};
ghost use Rattle.event_follow.specs.steps.Places.{IsOf, due_in};

use crate::places::DueReply;
use crate::settling::due_reply;
use crate::turns::send_reply;
use call_script::Script;
use event_steps::{Machine, last_event};
use mj_base::{EndId, SeqId};
use mj_schema::Schema;
use plain_names::{PlainCommand, responder_of};
use std::alloc::{AllocError, Global};

/// The automatic reply that is due behind the last event, which is of this sequence.
fn due_now<'s>(
    machine: &Machine,
    schema: &Schema,
    script: &'s Script,
    seq: SeqId,
) -> Option<DueReply<'s>>
    ensures { (e : event) (past : List event) → past_by machine.now.tables ≡ e ∷ past → e.seq ≡ seq
        → due_in result ≡ due (wire_of schema.now) script.now.autos (e ∷ past) }
{
    match last_event(&machine.tables.log) {
        Some(event) => due_reply(script.autos.as_slice(), seq, responder_of(schema, event)),
        None => None,
    }
}

/// Lets a sequence take at an end, with the automatic reply that is due then.
fn turn(
    machine: &mut Machine,
    alloc: Global,
    schema: &Schema,
    script: &Script,
    seq: SeqId,
    end: EndId,
) -> Result<(), AllocError>
    requires script { IsScript schema.now script.now }
    requires is { IsOf schema.now script.now machine.old }
    requires seq { seq.0 < script.now.seqs }
    requires few { length machine.old.tables.log.events + 1 < MAX_EVENTS }
    ensures { OnOk result (TookTurn schema.now script.now seq end machine.old machine.new) }
{
    machine.step(alloc, seq, PlainCommand::Take(end))?;
    match due_now(machine, schema, script, seq) {
        Some(due) => send_reply(machine, alloc, seq, due),
        None => Ok(()),
    }
}

/// Takes wherever a message is ready, until none is, with automatic replies.
pub(crate) fn drain(
    machine: &mut Machine,
    alloc: Global,
    schema: &Schema,
    script: &Script,
) -> Result<(), AllocError>
    requires script { IsScript schema.now script.now }
    requires short { script.now.bytes ≤ MAX_FILE_BYTES }
    requires drained { HasDrained schema.now script.now (past_by machine.old.tables) machine.old }
    requires lines { (after_joins : List event) × (middle : List event) × (past_by machine.old.tables ≡ middle ++ after_joins)
        × GoesOn (next_join script.now) after_joins
        × ((s : seq_id) → s.0 < script.now.seqs → AsksNext (next_of (wire_of schema.now) script.now after_joins s) (own_of s middle)) }
    ensures { OnOk result (DrainedAll schema.now script.now (past_by machine.old.tables) machine.new) }
{
    while let Some((seq, end)) = machine.ready() {
        turn(machine, alloc, schema, script, seq, end)?;
    }
    Ok(())
}
