//! Taking: the oldest unread message at an end.

ghost use Rattle.std.specs.Prelude.{◌≡◌, Ok, Err, Some, IfOk, IfErr};
ghost use Rattle.message_pipe.specs.Ends.{carried_in, end_of, peer_of, spread, unread_at};
ghost use Rattle.message_pipe.specs.Mail.{front_of};
ghost use Rattle.bind_model.specs.declared.asked.Asked.TheVariants as asks;
ghost use Rattle.bind_model.specs.Replies.{bad};
ghost use Rattle.core_taking.specs.Founds.{Tells, things_in};
ghost use Rattle.core_state.specs.Agreement.{Holds, past_of, wire_in};
ghost use Rattle.core_state.specs.Doing.{CanDo, Done, HasRoom, Undone, told_to};
ghost use Rattle.core_taking.specs.Taking.{front_in, nothing_at};

use crate::dropping::discard;
use crate::obey::obey;
use crate::reading::{Found, read};
use crate::receive::receive;
use bind_model::{Asked, BadWhy, Command, Event, Refused, Reply, Told, Why};
use core_state::{Goes, State, goes_with, paused_by, refuse};
use handle_table::Thing;
use message_pipe::{Message, Pipes};
use mj_base::{EndId, Items, SeqId};
use std::alloc::{AllocError, Global};

/// Takes the oldest unread message at an end. A request or a response is got, with the handles that its
/// parameters name, and a request with the right to answer it where its method has a response; a message
/// whose endpoint isn't there or is closed is dropped; a control is obeyed; a bad one closes the end. Nothing is
/// taken while the end waits for another. Without memory nothing happens.
pub fn take(state: &mut State, alloc: Global, seq: SeqId, end: EndId) -> Result<Reply, Refused>
    requires { CanDo state.old seq (Command.Take end) }
    ensures done { IfOk result (λ reply. Done state.old state.new seq (Command.Take end) reply) }
    ensures undone { IfErr result (λ refused. Undone state.old state.new (Command.Take end) refused) }
{
    match look(state, alloc, seq, end) {
        Ok(Found::Nothing(why)) => refuse(state, seq, Asked::Take(end), why, Command::Take(end)),
        Ok(Found::Bad(why)) => spoil(state, alloc, seq, end, why),
        Ok(Found::Dropped(id, admitted)) => discard(state, alloc, seq, end, id, admitted),
        Ok(Found::Control(noted)) => obey(state, alloc, seq, end, noted),
        Ok(Found::Value(arrived)) => receive(state, alloc, seq, end, arrived),
        Err(_) => Err(Refused::Memory(Command::Take(end))),
    }
}

/// Finds what a take at an end is told.
fn look(state: &State, alloc: Global, seq: SeqId, end: EndId) -> Result<Found, AllocError>
    requires { Holds state.now }
    ensures { IfOk result (λ found. Tells (wire_in state.now) (past_of state.now) end found (told_to state.now seq (asks.Take end))) }
{
    match front(state, end) {
        Ok(message) => read(state, alloc, seq, end, message),
        Err(why) => Ok(Found::Nothing(why)),
    }
}

/// The oldest unread message at a bound end that is open and takes, or why nothing is taken there.
fn front(state: &State, end: EndId) -> Result<&Message, Why>
    requires { Holds state.now }
    ensures ok { IfOk result (λ message. front_in state.now end ≡ Ok message.now) }
    ensures err { IfErr result (λ why. front_in state.now end ≡ Err why) }
{
    if state.endpoints.find(end, 0).is_none() {
        return Err(Why::NoName);
    }
    if state.pipes.is_closed(end) {
        return Err(Why::Disconnected);
    }
    if let Some(other) = paused_by(state, end) {
        return Err(Why::Paused(other));
    }
    match state.pipes.front(end) {
        Some(message) => Ok(message),
        None => Err(nothing(state, end)),
    }
}

/// Why nothing is taken at an open end where nothing is unread.
fn nothing(state: &State, end: EndId) -> Why
    ensures { result ≡ nothing_at state.now.pipes (peer_of (end_of state.now.pipes.ends end)) }
{
    match state.pipes.peer(end) {
        Some(peer) if state.pipes.is_closed(peer) => Why::PeerClosed,
        _ => Why::Empty,
    }
}

/// Closes an end whose oldest message is bad, with all that goes with it.
fn spoil(
    state: &mut State,
    alloc: Global,
    seq: SeqId,
    end: EndId,
    why: BadWhy,
) -> Result<Reply, Refused>
    requires able { HasRoom state.old seq }
    requires told { told_to state.old seq (asks.Take end) ≡ bad (wire_in state.old) (past_of state.old) end why }
    ensures done { IfOk result (λ reply. Done state.old state.new seq (Command.Take end) reply) }
    ensures undone { IfErr result (λ refused. Undone state.old state.new (Command.Take end) refused) }
{
    let Ok(goes) = goes_with(&state.pipes, alloc, Thing::End(end)) else {
        return Err(Refused::Memory(Command::Take(end)));
    };
    state.pipes.close(goes.noted.as_slice());
    state.log.push_reserved(Event {
        seq,
        asked: Asked::Take(end),
        told: Told::Bad(why, goes.noted),
    });
    Ok(Reply::Bad(why, goes.told))
}

/// What goes with things of the message that is taken at an end. Nothing is closed yet.
pub(crate) fn goes_behind(
    pipes: &Pipes,
    alloc: Global,
    end: EndId,
    things: Vec<Thing>,
) -> Result<Goes, AllocError>
    ensures noted { IfOk result (λ goes. goes.noted ≡ spread (carried_in pipes.now.ends (Some end)) pipes.now.made things.items) }
    ensures told { IfOk result (λ goes. goes.told ≡ goes.noted) }
{
    let noted = Items::from_vec(pipes.goes_with(things, Some(end))?);
    let told = noted.copy(alloc)?;
    Ok(Goes { noted, told })
}

/// The handles of the oldest unread message at an end.
fn front_handles(pipes: &Pipes, alloc: Global, end: EndId) -> Result<Vec<Thing>, AllocError>
    ensures { IfOk result (λ things. things.items ≡ things_in (front_of (unread_at pipes.now.ends end))) }
{
    match pipes.front(end) {
        Some(message) => Ok(message.handles.copy(alloc)?.into_vec()),
        None => Ok(Vec::new(alloc)),
    }
}

/// What goes with the handles of the oldest unread message at an end. Nothing is closed yet.
pub(crate) fn goes_with_front(pipes: &Pipes, alloc: Global, end: EndId) -> Result<Goes, AllocError>
    ensures noted { IfOk result (λ goes. goes.noted ≡
        spread (carried_in pipes.now.ends (Some end)) pipes.now.made (things_in (front_of (unread_at pipes.now.ends end)))) }
    ensures told { IfOk result (λ goes. goes.told ≡ goes.noted) }
{
    let things = front_handles(pipes, alloc, end)?;
    goes_behind(pipes, alloc, end, things)
}
