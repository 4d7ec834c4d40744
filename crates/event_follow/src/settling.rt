//! What a sequence has after an event of a line.

ghost use Rattle.std.specs.Prelude.{◌≡◌, ◌∷◌, [], List, is_some, length, OnOk};
ghost use Rattle.bind_model.specs.declared.event.Event.{Event as event_of};
ghost use Rattle.call_script.specs.Sound.{AreWithin, sets};
ghost use Rattle.script_names.specs.Asking.{asked_by};
ghost use Rattle.script_names.specs.Autos.{due_for};
ghost use Rattle.script_names.specs.Held.{held_at};
ghost use Rattle.script_names.specs.Names.{responders_named};
ghost use Rattle.script_names.specs.Needs.{AreNames};
ghost use Rattle.script_names.specs.Settling.{list_of};
ghost use Rattle.event_tables.specs.AsCore.{past_by};
ghost use Rattle.plain_names.specs.Held.{HasNames, named_in};
ghost use Rattle.event_follow.specs.steps.Places.{due_in};
ghost use Rattle.event_follow.specs.steps.Turning.{SettledAs};

use crate::places::{DueReply, Place};
use bind_model::{Event, ResponderId};
use call_script::{AutoReply, Line};
use event_steps::{Machine, last_event};
use mj_base::SeqId;
use mj_schema::Schema;
use plain_names::{responder_of, settle};
use script_names::Names;
use script_run::reply_to;
use std::alloc::{AllocError, Global};

/// The last event of a machine that has one.
pub(crate) fn came(machine: &Machine) -> &Event
    requires { (e : event_of) × (past : List event_of) × (past_by machine.now.tables ≡ e ∷ past) }
    ensures { (e : event_of) (past : List event_of) → past_by machine.now.tables ≡ e ∷ past → result.now ≡ e }
{
    match last_event(&machine.tables.log) {
        Some(event) => event,
        // There is one.
        None => unreachable!(),
    }
}

/// The automatic reply of a sequence that is for this right to answer.
fn due_to<'s>(autos: &'s [AutoReply], seq: SeqId, responder: ResponderId) -> Option<DueReply<'s>>
    ensures { due_in result ≡ due_for autos.now seq (responder ∷ []) }
{
    match reply_to(autos, seq, responder) {
        Some(reply) => Some(DueReply { responder, reply }),
        None => None,
    }
}

/// The automatic reply of a sequence that is due where this right to answer came.
pub(crate) fn due_reply<'s>(
    autos: &'s [AutoReply],
    seq: SeqId,
    responder: Option<ResponderId>,
) -> Option<DueReply<'s>>
    ensures { due_in result ≡ due_for autos.now seq (list_of responder) }
{
    match responder {
        Some(responder) => due_to(autos, seq, responder),
        None => None,
    }
}

/// The right to answer that comes under a name: none where it is answered at once.
fn named_right(due: Option<DueReply<'_>>, responder: Option<ResponderId>) -> Option<ResponderId>
    ensures { list_of result ≡ responders_named (due_in due.entry) (list_of responder) }
{
    match due {
        Some(_) => None,
        None => responder,
    }
}

/// What a sequence has after an event of its line: its names hold what came, and the automatic reply that is
/// due then is noted.
pub(crate) fn settle_event<'s>(
    place: &mut Place<'s>,
    alloc: Global,
    schema: &Schema,
    autos: &'s [AutoReply],
    lists: &Names,
    line: &Line,
    event: &Event,
) -> Result<(), AllocError>
    requires lists { AreNames (λ n. is_some (held_at place.old.names.stands.things.items n)) line.now.command lists.now }
    requires asked { event.now.asked ≡ asked_by (named_in place.old.names) line.now }
    requires have { HasNames (length place.old.names.stands.things.items) place.old.names }
    requires within { AreWithin (length place.old.names.stands.things.items) (sets line.now.command) }
    ensures { OnOk result (SettledAs schema.now autos.now line.now event.now place.old place.new) }
{
    let responder = responder_of(schema, event);
    let due = due_reply(autos, event.seq, responder);
    place.due = due;
    let right = named_right(due, responder);
    settle(&mut place.names, alloc, lists, line, event, right)
}
