//! Takes: the oldest unread message at an end.

ghost use Rattle.std.specs.Prelude.{◌≡◌, Ok, Err, Some, IfOk, IfErr, OnOk};
ghost use Rattle.message_pipe.specs.Ends.{carried_in, end_of, peer_of, spread, unread_at};
ghost use Rattle.message_pipe.specs.Mail.{front_of};
ghost use Rattle.bind_model.specs.declared.asked.Asked.TheVariants as asks;
ghost use Rattle.bind_model.specs.Notices.{first_unmet, waits};
ghost use Rattle.bind_model.specs.Replies.{bad};
ghost use Rattle.core_taking.specs.Founds.{Tells, things_in};
ghost use Rattle.core_taking.specs.Taking.{front_in, nothing_at};
ghost use Rattle.core_state.specs.Agreement.{Holds};
ghost use Rattle.core_state.specs.Doing.{HasRoom, told_to};
ghost use Rattle.core_state.specs.steps.Paused.{is_met_by, unmet_in};
ghost use Rattle.event_tables.specs.AsCore.{Steps, past_by, state_of, wire_by};

use crate::dropping::discard;
use crate::obeying::obey;
use crate::reading::read;
use crate::receiving::receive;
use bind_model::{Asked, BadWhy, Event, Told, Why};
use core_taking::reading::Found;
use end_notices::{NoticeTable, Wait};
use event_tables::{EventTables, goes_with, refuse};
use handle_table::Thing;
use message_pipe::{Message, ThingPipes};
use mj_base::{EndId, Items, SeqId};
use std::alloc::{AllocError, Global};

/// Takes the oldest unread message at an end. A request or a response is got, with what its parameters name;
/// a message whose endpoint isn't there or is closed is dropped; a control is obeyed; a bad one closes the
/// end. Nothing is taken while the end waits for another.
pub fn take(
    tables: &mut EventTables,
    alloc: Global,
    seq: SeqId,
    end: EndId,
) -> Result<(), AllocError>
    requires { HasRoom (state_of tables.old) seq }
    ensures { OnOk result (Steps tables.old tables.new seq (asks.Take end)) }
{
    let found = look(tables, alloc, seq, end)?;
    match found {
        Found::Nothing(why) => {
            refuse(tables, seq, Asked::Take(end), why);
            Ok(())
        }
        Found::Bad(why) => spoil(tables, alloc, seq, end, why),
        Found::Dropped(id, admitted) => discard(tables, alloc, seq, end, id, admitted),
        Found::Control(noted) => obey(tables, alloc, seq, end, noted),
        Found::Value(arrived) => receive(tables, alloc, seq, end, arrived),
    }
}

/// Finds what a take at an end is told.
fn look(tables: &EventTables, alloc: Global, seq: SeqId, end: EndId) -> Result<Found, AllocError>
    requires { Holds (state_of tables.now) }
    ensures { IfOk result (λ found. Tells (wire_by tables.now) (past_by tables.now) end found (told_to (state_of tables.now) seq (asks.Take end))) }
{
    match front(tables, end) {
        Ok(message) => read(tables, alloc, seq, end, message),
        Err(why) => Ok(Found::Nothing(why)),
    }
}

/// Whether a wait is met.
pub(crate) fn is_met(pipes: &ThingPipes, notices: &NoticeTable, wait: Wait) -> bool
    ensures { result ≡ is_met_by pipes.now notices.now wait }
{
    pipes.is_closed(wait.end) || notices.has_met(wait.end, wait.flush)
}

/// The end that the first of these waits that isn't met is for.
fn unmet(tables: &EventTables, waits: &[Wait]) -> Option<EndId>
    ensures { result ≡ unmet_in (state_of tables.now) waits.now }
{
    for wait in waits {
        if !is_met(&tables.pipes, &tables.tables.notices, *wait) {
            return Some(wait.end);
        }
    }
    None
}

/// The end that an end waits for: that of its first wait that isn't met. None where it takes.
pub fn paused_by(tables: &EventTables, end: EndId) -> Option<EndId>
    requires { Holds (state_of tables.now) }
    ensures { result ≡ first_unmet (past_by tables.now) (waits (past_by tables.now) end) }
{
    match tables.tables.notices.get(end) {
        Some(notices) => unmet(tables, notices.waits()),
        None => None,
    }
}

/// The oldest unread message at a bound end that is open and takes, or why nothing is taken there.
fn front(tables: &EventTables, end: EndId) -> Result<&Message, Why>
    requires { Holds (state_of tables.now) }
    ensures ok { IfOk result (λ message. front_in (state_of tables.now) end ≡ Ok message.now) }
    ensures err { IfErr result (λ why. front_in (state_of tables.now) end ≡ Err why) }
{
    if tables.endpoints.find(end, 0).is_none() {
        return Err(Why::NoName);
    }
    if tables.pipes.is_closed(end) {
        return Err(Why::Disconnected);
    }
    if let Some(other) = paused_by(tables, end) {
        return Err(Why::Paused(other));
    }
    match tables.pipes.front(end) {
        Some(message) => Ok(message),
        None => Err(nothing(tables, end)),
    }
}

/// Why nothing is taken at an open end where nothing is unread.
fn nothing(tables: &EventTables, end: EndId) -> Why
    ensures { result ≡ nothing_at tables.now.pipes (peer_of (end_of tables.now.pipes.ends end)) }
{
    match tables.pipes.peer(end) {
        Some(peer) if tables.pipes.is_closed(peer) => Why::PeerClosed,
        _ => Why::Empty,
    }
}

/// Closes an end whose oldest message is bad, with all that goes with it.
fn spoil(
    tables: &mut EventTables,
    alloc: Global,
    seq: SeqId,
    end: EndId,
    why: BadWhy,
) -> Result<(), AllocError>
    requires able { HasRoom (state_of tables.old) seq }
    requires told { told_to (state_of tables.old) seq (asks.Take end) ≡ bad (wire_by tables.old) (past_by tables.old) end why }
    ensures { OnOk result (Steps tables.old tables.new seq (asks.Take end)) }
{
    let goes = goes_with(&tables.pipes, alloc, Thing::End(end))?;
    tables.pipes.close(goes.as_slice());
    tables.log.push_reserved(Event {
        seq,
        asked: Asked::Take(end),
        told: Told::Bad(why, goes),
    });
    Ok(())
}

/// What goes with things of the message that is taken at an end. Nothing is closed yet.
pub(crate) fn goes_behind(
    pipes: &ThingPipes,
    end: EndId,
    things: Vec<Thing>,
) -> Result<Items<Thing>, AllocError>
    ensures { IfOk result (λ goes. goes ≡ spread (carried_in pipes.now.ends (Some end)) pipes.now.made things.items) }
{
    Ok(Items::from_vec(pipes.goes_with(things, Some(end))?))
}

/// The things of the oldest unread message at an end.
fn front_things(pipes: &ThingPipes, alloc: Global, end: EndId) -> Result<Vec<Thing>, AllocError>
    ensures { IfOk result (λ things. things.items ≡ things_in (front_of (unread_at pipes.now.ends end))) }
{
    match pipes.front(end) {
        Some(message) => Ok(message.handles.copy(alloc)?.into_vec()),
        None => Ok(Vec::new(alloc)),
    }
}

/// What goes with the things of the oldest unread message at an end. Nothing is closed yet.
pub(crate) fn goes_with_front(
    pipes: &ThingPipes,
    alloc: Global,
    end: EndId,
) -> Result<Items<Thing>, AllocError>
    ensures { IfOk result (λ goes. goes ≡
        spread (carried_in pipes.now.ends (Some end)) pipes.now.made (things_in (front_of (unread_at pipes.now.ends end)))) }
{
    let things = front_things(pipes, alloc, end)?;
    goes_behind(pipes, end, things)
}
