//! Controls that an end writes to the other: it asks for a version, requires one, or flushes.

ghost use Rattle.std.specs.Prelude.{◌≡◌, ◌+◌, ◌<◌, [], length, Ok, OnOk};
ghost use Rattle.mj_base.specs.declared.limits.TheConstants.{MAX_EVENTS};
ghost use Rattle.bind_model.specs.Replies as replies;
ghost use Rattle.bind_model.specs.declared.asked.Asked.TheVariants as asks;
ghost use Rattle.end_notices.specs.Table.{notices_at};
ghost use Rattle.core_sending.specs.steps.Notifying.{notice_way};
ghost use Rattle.core_state.specs.Agreement.{Holds};
ghost use Rattle.core_state.specs.Doing.{HasRoom};
ghost use Rattle.event_tables.specs.AsCore.{Steps, past_by, state_of};

use crate::looks::open_at;
use crate::tables::{EventTables, refuse};
use crate::ways::{put_message, way_to};
use bind_model::{Asked, Event, Notice, Notified, Told, Why};
use core_sending::call::is_receiver;
use core_sending::notify::{control_of, from_id, is_flush, message_of};
use mj_base::{EndId, SeqId};
use std::alloc::{AllocError, Global};

/// The end that a notice goes to, or why it isn't written.
fn way(tables: &EventTables, seq: SeqId, end: EndId, notice: Notice) -> Result<EndId, Why>
    ensures { result ≡ notice_way seq end notice tables.now.pipes tables.now.tables.flows tables.now.endpoints }
{
    let endpoint = open_at(tables, seq, end, from_id(notice))?;
    let flush = is_flush(notice);
    if !flush && is_receiver(endpoint.side) {
        return Err(Why::WrongSide);
    }
    let peer_closed = !flush && endpoint.peer_closed;
    way_to(&tables.pipes, &tables.tables.flows, end, peer_closed, &[])
}

/// The number of the next flush of an end.
fn next_flush(tables: &EventTables, end: EndId) -> u32
    requires { (notices_at tables.now.tables.notices end).flushes < MAX_EVENTS }
    ensures { result ≡ (notices_at tables.now.tables.notices end).flushes + 1 }
{
    tables.tables.notices.flushes(end) + 1
}

/// What is told of a notice that an end writes.
fn told_of(tables: &EventTables, end: EndId, notice: Notice) -> Notified
    requires holds { Holds (state_of tables.now) }
    requires few { length tables.now.log.events < MAX_EVENTS }
    ensures { result ≡ replies.told_of (past_by tables.now) end notice }
{
    match notice {
        Notice::Query(_) => Notified::Asking,
        Notice::Require(_, _) => Notified::Requiring,
        Notice::Flush => Notified::Flushing(next_flush(tables, end)),
    }
}

/// Writes a notice from an end, or notes why it isn't written.
pub fn notify(
    tables: &mut EventTables,
    alloc: Global,
    seq: SeqId,
    end: EndId,
    notice: Notice,
) -> Result<(), AllocError>
    requires { HasRoom (state_of tables.old) seq }
    ensures { OnOk result (Steps tables.old tables.new seq (asks.Notify end notice)) }
{
    match way(tables, seq, end, notice) {
        Ok(peer) => write(tables, alloc, seq, end, notice, peer),
        Err(why) => {
            refuse(tables, seq, Asked::Notify(end, notice), why);
            Ok(())
        }
    }
}

/// Writes a notice that nothing refuses.
fn write(
    tables: &mut EventTables,
    alloc: Global,
    seq: SeqId,
    end: EndId,
    notice: Notice,
    peer: EndId,
) -> Result<(), AllocError>
    requires able { HasRoom (state_of tables.old) seq }
    requires free { notice_way seq end notice tables.old.pipes tables.old.tables.flows tables.old.endpoints ≡ Ok peer }
    ensures { OnOk result (Steps tables.old tables.new seq (asks.Notify end notice)) }
{
    let told = told_of(tables, end, notice);
    let message = message_of(alloc, control_of(notice, told))?;
    tables.tables.notices.reserve(alloc, end, notice)?;
    put_message(&mut tables.pipes, peer, message)?;
    tables.tables.notices.note(end, notice);
    tables.log.push_reserved(Event {
        seq,
        asked: Asked::Notify(end, notice),
        told: Told::Notified(told),
    });
    Ok(())
}
