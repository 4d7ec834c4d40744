//! Controls that an end writes to the other: it asks for a version, requires one, or flushes.

ghost use Rattle.std.specs.Prelude.{◌≡◌, ◌+◌, ◌<◌, [], false, length, Ok, IfOk, IfErr};
ghost use Rattle.mj_base.specs.declared.limits.TheConstants.{MAX_EVENTS};
ghost use Rattle.control_bytes.specs.Controls.{HasNumber, written_control};
ghost use Rattle.bind_model.specs.Machine as machine;
ghost use Rattle.bind_model.specs.Replies as replies;
ghost use Rattle.end_notices.specs.Table.{notices_at};
ghost use Rattle.core_sending.specs.steps.Notifying.{notice_way};
ghost use Rattle.core_state.specs.Agreement.{Holds, past_of};
ghost use Rattle.core_state.specs.Doing.{CanDo, Done, Undone};

use crate::call::is_receiver;
use crate::writing::{put_message, way_to};
use bind_model::{Asked, Command, Event, Notice, Notified, Refused, Reply, Told, Why};
use control_bytes::{Control, write_control};
use core_state::{State, open_at, refuse};
use message_pipe::Message;
use mj_base::{EndId, Items, SeqId};
use std::alloc::{AllocError, Global};

/// Writes a notice from an end, or notes why it isn't written: an end asks of versions from an endpoint that
/// is a remote, and flushes as a whole.
pub fn notify(
    state: &mut State,
    alloc: Global,
    seq: SeqId,
    end: EndId,
    notice: Notice,
) -> Result<Reply, Refused>
    requires { CanDo state.old seq (Command.Notify end notice) }
    ensures done { IfOk result (λ reply. Done state.old state.new seq (Command.Notify end notice) reply) }
    ensures undone { IfErr result (λ refused. Undone state.old state.new (Command.Notify end notice) refused) }
{
    match way(state, seq, end, notice) {
        Ok(peer) => write(state, alloc, seq, end, notice, peer),
        Err(why) => {
            let asked = Asked::Notify(end, notice);
            refuse(state, seq, asked, why, Command::Notify(end, notice))
        }
    }
}

/// The endpoint that a notice is written from.
pub fn from_id(notice: Notice) -> u32
    ensures { result ≡ replies.from_id notice }
{
    match notice {
        Notice::Query(id) => id,
        Notice::Require(id, _) => id,
        Notice::Flush => 0,
    }
}

/// Whether a notice is a flush.
pub fn is_flush(notice: Notice) -> bool
    ensures { result ≡ replies.is_flush notice }
{
    match notice {
        Notice::Query(_) | Notice::Require(_, _) => false,
        Notice::Flush => true,
    }
}

/// The end that a notice goes to, or why it isn't written.
fn way(state: &State, seq: SeqId, end: EndId, notice: Notice) -> Result<EndId, Why>
    ensures { result ≡ notice_way seq end notice state.now.pipes state.now.tables.flows state.now.endpoints }
{
    let endpoint = open_at(state, seq, end, from_id(notice))?;
    let flush = is_flush(notice);
    if !flush && is_receiver(endpoint.side) {
        return Err(Why::WrongSide);
    }
    let peer_closed = !flush && endpoint.peer_closed;
    way_to(&state.pipes, &state.tables.flows, end, peer_closed, &[])
}

/// The number of the next flush of an end.
fn next_flush(state: &State, end: EndId) -> u32
    requires { (notices_at state.now.tables.notices end).flushes < MAX_EVENTS }
    ensures { result ≡ (notices_at state.now.tables.notices end).flushes + 1 }
{
    state.tables.notices.flushes(end) + 1
}

/// What is told of a notice that an end writes.
fn told_of(state: &State, end: EndId, notice: Notice) -> Notified
    requires holds { Holds state.now }
    requires few { length state.now.log.events < MAX_EVENTS }
    ensures { result ≡ replies.told_of (past_of state.now) end notice }
{
    match notice {
        Notice::Query(_) => Notified::Asking,
        Notice::Require(_, _) => Notified::Requiring,
        Notice::Flush => Notified::Flushing(next_flush(state, end)),
    }
}

/// The control that a notice is written as, by what is told of it.
pub fn control_of(notice: Notice, told: Notified) -> Control
    ensures { result ≡ machine.control_of notice told }
{
    match notice {
        Notice::Query(id) => Control::Query(id),
        Notice::Require(id, version) => Control::Require(id, version),
        Notice::Flush => match told {
            Notified::Flushing(flush) => Control::Flush(flush),
            Notified::Asking | Notified::Requiring => Control::Flush(0),
        },
    }
}

/// The message of a control that an end writes. It counts among the unread ones as any other.
pub fn message_of(alloc: Global, control: Control) -> Result<Message, AllocError>
    requires { HasNumber control }
    ensures { IfOk result (λ message. message ≡ record { bytes = written_control control; handles = []; emitted = false }) }
{
    let bytes = Items::from_vec(write_control(alloc, control)?);
    Ok(Message {
        bytes,
        handles: Items::new(alloc),
        emitted: false,
    })
}

/// Writes a notice that nothing refuses. Without memory nothing happens.
fn write(
    state: &mut State,
    alloc: Global,
    seq: SeqId,
    end: EndId,
    notice: Notice,
    peer: EndId,
) -> Result<Reply, Refused>
    requires can { CanDo state.old seq (Command.Notify end notice) }
    requires free { notice_way seq end notice state.old.pipes state.old.tables.flows state.old.endpoints ≡ Ok peer }
    ensures done { IfOk result (λ reply. Done state.old state.new seq (Command.Notify end notice) reply) }
    ensures undone { IfErr result (λ refused. Undone state.old state.new (Command.Notify end notice) refused) }
{
    let told = told_of(state, end, notice);
    let Ok(message) = message_of(alloc, control_of(notice, told)) else {
        return Err(Refused::Memory(Command::Notify(end, notice)));
    };
    let Ok(()) = state.tables.notices.reserve(alloc, end, notice) else {
        return Err(Refused::Memory(Command::Notify(end, notice)));
    };
    let Ok(()) = put_message(&mut state.pipes, peer, message) else {
        return Err(Refused::Memory(Command::Notify(end, notice)));
    };
    state.tables.notices.note(end, notice);
    state.log.push_reserved(Event {
        seq,
        asked: Asked::Notify(end, notice),
        told: Told::Notified(told),
    });
    Ok(Reply::Notified(told))
}
