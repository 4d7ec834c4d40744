//! Ends and endpoints that are bound.

ghost use Rattle.std.specs.Prelude.{◌≡◌, ◌<◌, ◌&&◌, true, nat_lt, length, None, OnOk};
ghost use Rattle.handle_table.specs.Places.{place_of};
ghost use Rattle.handle_table.specs.Things.{has};
ghost use Rattle.handle_table.specs.declared.thing.Thing.TheVariants.{End};
ghost use Rattle.message_pipe.specs.Ends.{end_of, is_closed};
ghost use Rattle.bind_model.specs.Machine.{out};
ghost use Rattle.bind_model.specs.Pendings.{is_out as is_pending};
ghost use Rattle.bind_model.specs.Replies.{next_id};
ghost use Rattle.bind_model.specs.declared.asked.Asked.TheVariants as asks;
ghost use Rattle.bind_model.specs.declared.told.Told.TheVariants as tells;
ghost use Rattle.core_state.specs.Agreement.{is_out, schema_of};
ghost use Rattle.core_state.specs.Doing.{HasRoom, told_to};
ghost use Rattle.core_state.specs.Routers.{found_at};
ghost use Rattle.core_ends.specs.steps.Associating as associating;
ghost use Rattle.core_ends.specs.steps.Attaching as attaching;
ghost use Rattle.event_tables.specs.AsCore.{Steps, past_by, state_of, wire_by};

use crate::looks::is_out;
use crate::tables::{EventTables, refuse};
use bind_model::{Asked, Endpoint, Event, PendingId, State as EndpointState, Told, Why};
use core_state::Turn;
use handle_table::{Place, Thing};
use mj_base::{EndId, SeqId};
use std::alloc::{AllocError, Global};
use wire_encoder::EndpointSide;

/// Whether somebody has a thing, and an interface is there.
fn may_bind(tables: &EventTables, thing: Thing, interface: u32) -> bool
    ensures { result ≡ (is_out (place_of tables.now.pipes.table thing)
        && nat_lt interface (length (schema_of (state_of tables.now)).interfaces)) }
{
    is_out(&tables.pipes, thing) && (interface as usize) < tables.schema.interfaces.len()
}

/// Binds an end on the sequence that asks.
pub fn bind(
    tables: &mut EventTables,
    alloc: Global,
    seq: SeqId,
    thing: Thing,
    side: EndpointSide,
    interface: u32,
) -> Result<(), AllocError>
    requires { HasRoom (state_of tables.old) seq }
    ensures { OnOk result (Steps tables.old tables.new seq (asks.Bind thing side interface)) }
{
    let asked = Asked::Bind(thing, side, interface);
    if !may_bind(tables, thing, interface) {
        refuse(tables, seq, asked, Why::NoName);
        return Ok(());
    }
    match thing {
        Thing::End(end) => bind_end(tables, alloc, seq, thing, side, interface, end),
        Thing::Token(_) => {
            refuse(tables, seq, asked, Why::NotPipe);
            Ok(())
        }
    }
}

/// Binds an end that somebody has.
fn bind_end(
    tables: &mut EventTables,
    alloc: Global,
    seq: SeqId,
    thing: Thing,
    side: EndpointSide,
    interface: u32,
    end: EndId,
) -> Result<(), AllocError>
    requires able { HasRoom (state_of tables.old) seq }
    requires end { thing ≡ End end }
    requires held { has (out (past_by tables.old)) (End end) ≡ true }
    requires there { interface < length (schema_of (state_of tables.old)).interfaces }
    ensures { OnOk result (Steps tables.old tables.new seq (asks.Bind thing side interface)) }
{
    let endpoint = Endpoint {
        side,
        interface,
        state: EndpointState::Bound(seq),
        peer_closed: false,
    };
    tables.endpoints.enter(alloc, end, 0, endpoint)?;
    tables.pipes.put(thing, Place::Bound);
    tables.log.push_reserved(Event {
        seq,
        asked: Asked::Bind(Thing::End(end), side, interface),
        told: Told::Bound(end),
    });
    Ok(())
}

/// Why no endpoint of an interface is made at an end: it isn't bound, there is no such interface, or it is
/// closed.
fn not_associated(tables: &EventTables, end: EndId, interface: u32) -> Option<Why>
    ensures { result ≡ associating.why_not (length (schema_of (state_of tables.now)).interfaces) tables.now.pipes tables.now.endpoints end interface }
{
    let there = tables.endpoints.find(end, 0).is_some()
        && (interface as usize) < tables.schema.interfaces.len();
    if !there {
        return Some(Why::NoName);
    }
    if tables.pipes.is_closed(end) {
        return Some(Why::Disconnected);
    }
    None
}

/// Makes an endpoint of an end, bound on the sequence that asks.
pub fn associate(
    tables: &mut EventTables,
    alloc: Global,
    seq: SeqId,
    end: EndId,
    side: EndpointSide,
    interface: u32,
) -> Result<(), AllocError>
    requires { HasRoom (state_of tables.old) seq }
    ensures { OnOk result (Steps tables.old tables.new seq (asks.Associate end side interface)) }
{
    match not_associated(tables, end, interface) {
        Some(why) => {
            refuse(tables, seq, Asked::Associate(end, side, interface), why);
            Ok(())
        }
        None => make(tables, alloc, seq, end, side, interface),
    }
}

/// Makes an endpoint of an open end under the next of its own ids.
fn make(
    tables: &mut EventTables,
    alloc: Global,
    seq: SeqId,
    end: EndId,
    side: EndpointSide,
    interface: u32,
) -> Result<(), AllocError>
    requires able { HasRoom (state_of tables.old) seq }
    requires told { told_to (state_of tables.old) seq (asks.Associate end side interface)
        ≡ tells.Associated (record { end = end; id = next_id (wire_by tables.old) (past_by tables.old) end }) }
    ensures { OnOk result (Steps tables.old tables.new seq (asks.Associate end side interface)) }
{
    let number = tables.endpoints.next_id(end);
    let id = PendingId { end, id: number };
    tables.endpoints.reserve(end, number)?;
    tables.pendings.reserve(id)?;
    let endpoint = Endpoint {
        side,
        interface,
        state: EndpointState::Bound(seq),
        peer_closed: false,
    };
    tables.endpoints.associate(alloc, end, endpoint);
    tables.pendings.add(id);
    tables.log.push_reserved(Event {
        seq,
        asked: Asked::Associate(end, side, interface),
        told: Told::Associated(id),
    });
    Ok(())
}

/// Why the endpoint of a pending isn't bound on a sequence: nobody has it, or there is no such sequence; it
/// or its end is closed; or it was made here.
fn not_attached(tables: &EventTables, id: PendingId, on: SeqId) -> Option<Why>
    ensures { result ≡ attaching.why_not (is_pending tables.now.pendings id && nat_lt on.0 tables.now.seqs)
        (is_closed (end_of tables.now.pipes.ends id.end)) id.id (found_at tables.now.endpoints id.end id.id) }
{
    let there = tables.pendings.is_out(id) && on.0 < tables.seqs;
    if !there {
        return Some(Why::NoName);
    }
    if tables.pipes.is_closed(id.end) {
        return Some(Why::Disconnected);
    }
    let Some(endpoint) = tables.endpoints.find(id.end, id.id) else {
        return Some(Why::NoName);
    };
    match endpoint.state {
        EndpointState::Closed => Some(Why::Disconnected),
        EndpointState::Bound(_) => Some(Why::WrongPipe(id.id)),
        EndpointState::Pending => None,
    }
}

/// Binds an endpoint that was received on a sequence. Takes no memory.
pub fn attach(tables: &mut EventTables, seq: SeqId, id: PendingId, on: SeqId)
    requires { HasRoom (state_of tables.old) seq }
    ensures { Steps tables.old tables.new seq (asks.Attach id on) }
{
    match not_attached(tables, id, on) {
        Some(why) => refuse(tables, seq, Asked::Attach(id, on), why),
        None => attach_free(tables, seq, id, on),
    }
}

/// Binds the endpoint of a pending that somebody has, which was received.
fn attach_free(tables: &mut EventTables, seq: SeqId, id: PendingId, on: SeqId)
    requires able { HasRoom (state_of tables.old) seq }
    requires free { attaching.why_not (is_pending tables.old.pendings id && nat_lt on.0 tables.old.seqs)
        (is_closed (end_of tables.old.pipes.ends id.end)) id.id (found_at tables.old.endpoints id.end id.id) ≡ None }
    ensures { Steps tables.old tables.new seq (asks.Attach id on) }
{
    tables.endpoints.turn(id.end, id.id, Turn::Attached(on));
    tables.pendings.remove(id);
    tables.log.push_reserved(Event {
        seq,
        asked: Asked::Attach(id, on),
        told: Told::Attached(id.id),
    });
}
