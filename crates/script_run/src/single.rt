//! A sequence that does one event at a time.

ghost use Rattle.std.specs.Prelude.{◌≡◌, ◌<◌, ◌≤◌, ℕ, List, length, None, true, IfErr, IfOk, OnOk};
ghost use Rattle.std.specs.Option.{option_copied};
ghost use Rattle.mj_base.specs.declared.limits.TheConstants.{MAX_EVENTS};
ghost use Rattle.bind_model.specs.declared.endpoint.ResponderId.{ResponderId as responder_id};
ghost use Rattle.bind_model.specs.declared.event.Event.{Event as event};
ghost use Rattle.call_script.specs.Sound.{IsLine, IsReply, IsScript};
ghost use Rattle.script_names.specs.Held.{HaveNames, names_in};
ghost use Rattle.script_names.specs.Settling.{EndsWith};
ghost use Rattle.script_run.specs.Draining.{HaveRested, IsCoreOf};
ghost use Rattle.script_run.specs.OfScript.{replied};
ghost use Rattle.script_run.specs.steps.Desks.{IfSpent};
ghost use Rattle.script_run.specs.steps.Following.{DidAlone, DidAny, DidOne, HasCome};

use crate::agenda::Agenda;
use crate::cut::Cut;
use crate::desks::{leave, put_to_rest, wake};
use crate::plain::Plain;
use crate::worker::{answer, do_command};
use bind_core::Core;
use call_script::{AutoReply, Line, Script};
use mj_base::SeqId;
use mj_schema::Schema;
use remote_receiver::Rest;
use script_names::Rooms;
use std::alloc::Global;

/// Lets a sequence send the automatic reply that is due, with the last responder without a name.
fn send_reply(
    core: Core,
    rests: &mut [Rest<Plain>],
    room: &mut Rooms,
    alloc: Global,
    schema: &Schema,
    seq: SeqId,
    reply: &AutoReply,
) -> (Core, Result<bool, Cut>)
    requires schema { core.schema ≡ schema.now }
    requires rested { HaveRested core rests.old }
    requires seq { seq.0 < core.seqs }
    requires reply { IsReply core.schema core.seqs reply.now }
    requires last { (r : responder_id) × EndsWith r room.old.responders.others.items }
    ensures did { OnOk result.1 ((r : responder_id) → EndsWith r room.old.responders.others.items
        → DidOne seq (replied (r, reply.now)) core result.0 rests.new) }
    ensures names { OnOk result.1 (names_in room.new ≡ names_in room.old) }
    ensures have { OnOk result.1 ((count : ℕ) → HaveNames count room.old → HaveNames count room.new) }
    ensures goes { IfOk result.1 (λ goes. goes ≡ true) }
    ensures cut { IfErr result.1 (λ cut. IfSpent cut (MAX_EVENTS ≤ length core.events)) }
{
    let mut desk = wake(rests, alloc, core, seq);
    match answer(&mut desk, room, alloc, schema, reply) {
        Ok(()) => {
            let core = put_to_rest(rests, desk);
            // Its events are legal.
            let _history = core.history();
            (core, Ok(true))
        }
        Err(cut) => (leave(desk), Err(cut)),
    }
}

/// Lets a sequence do a line, and not yet the automatic reply that is due then.
fn do_alone<'s>(
    core: Core,
    rests: &mut [Rest<Plain>],
    room: &mut Rooms,
    agenda: &mut Agenda<'s>,
    alloc: Global,
    schema: &Schema,
    autos: &'s [AutoReply],
    line: &Line,
) -> (Core, Result<bool, Cut>)
    requires schema { core.schema ≡ schema.now }
    requires rested { HaveRested core rests.old }
    requires seq { line.now.seq.0 < core.seqs }
    requires line { IsLine core.schema core.seqs (length room.old.stands.things.items) line.now }
    requires names { HaveNames (length room.old.stands.things.items) room.old }
    ensures did { OnOk result.1 (DidAlone autos.now line.now (option_copied agenda.new.due) core result.0 rests.new
        (names_in room.old) (names_in room.new) room.new.responders.others.items) }
    ensures have { OnOk result.1 (HaveNames (length room.old.stands.things.items) room.new) }
    ensures lines { OnOk result.1 (agenda.new.lines ≡ agenda.old.lines) }
    ensures done { OnOk result.1 (agenda.new.done ≡ agenda.old.done) }
    ensures goes { IfOk result.1 (λ goes. goes ≡ true) }
    ensures cut { IfErr result.1 (λ cut. IfSpent cut (MAX_EVENTS ≤ length core.events)) }
{
    let mut desk = wake(rests, alloc, core, line.seq);
    match do_command(&mut desk, room, alloc, schema, autos, line) {
        Ok(due) => {
            agenda.due = due;
            let core = put_to_rest(rests, desk);
            // Its events are legal.
            let _history = core.history();
            (core, Ok(true))
        }
        Err(cut) => (leave(desk), Err(cut)),
    }
}

/// Lets a sequence do its next line: whether there is one.
fn do_own<'s>(
    core: Core,
    rests: &mut [Rest<Plain>],
    room: &mut Rooms,
    agenda: &mut Agenda<'s>,
    alloc: Global,
    schema: &Schema,
    script: &'s Script,
    seq: SeqId,
) -> (Core, Result<bool, Cut>)
    requires script { IsScript schema.now script.now }
    requires core { IsCoreOf schema.now script.now core }
    requires rested { HaveRested core rests.old }
    requires seq { seq.0 < script.now.seqs }
    requires none { agenda.old.due ≡ None }
    requires come { (after_joins : List event) × (own : List event) × HasCome schema.now script.now after_joins seq own room.old agenda.old }
    ensures did { IfOk result.1 (λ goes. (after_joins own : List event) → HasCome schema.now script.now after_joins seq own room.old agenda.old
        → DidAny schema.now script.now after_joins seq own core result.0 rests.new room.new agenda.new goes) }
    ensures cut { IfErr result.1 (λ cut. IfSpent cut (MAX_EVENTS ≤ length core.events)) }
{
    let autos = script.autos.as_slice();
    match agenda.next_line() {
        None => (core, Ok(false)),
        Some(line) => do_alone(core, rests, room, agenda, alloc, schema, autos, line),
    }
}

/// Lets a sequence do what is next for it, the automatic reply that is due or else its next line: whether
/// anything is.
pub fn do_next<'s>(
    core: Core,
    rests: &mut [Rest<Plain>],
    room: &mut Rooms,
    agenda: &mut Agenda<'s>,
    alloc: Global,
    schema: &Schema,
    script: &'s Script,
    seq: SeqId,
) -> (Core, Result<bool, Cut>)
    requires script { IsScript schema.now script.now }
    requires core { IsCoreOf schema.now script.now core }
    requires rested { HaveRested core rests.old }
    requires seq { seq.0 < script.now.seqs }
    requires come { (after_joins : List event) × (own : List event) × HasCome schema.now script.now after_joins seq own room.old agenda.old }
    ensures did { IfOk result.1 (λ goes. (after_joins own : List event) → HasCome schema.now script.now after_joins seq own room.old agenda.old
        → DidAny schema.now script.now after_joins seq own core result.0 rests.new room.new agenda.new goes) }
    ensures cut { IfErr result.1 (λ cut. IfSpent cut (MAX_EVENTS ≤ length core.events)) }
{
    match agenda.due {
        Some(reply) => {
            agenda.due = None;
            send_reply(core, rests, room, alloc, schema, seq, reply)
        }
        None => do_own(core, rests, room, agenda, alloc, schema, script, seq),
    }
}
