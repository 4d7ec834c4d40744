//! Pendings that are closed: endpoints that aren't sent, or aren't attached.

ghost use Rattle.std.specs.Prelude.{◌≡◌, [], ◌∷◌, true, false, OnOk};
ghost use Rattle.message_pipe.specs.Ends.{end_of, is_closed, peer_of};
ghost use Rattle.bind_model.specs.Pendings.{is_out};
ghost use Rattle.bind_model.specs.declared.asked.Asked.TheVariants as asks;
ghost use Rattle.bind_model.specs.declared.asked.Closing.TheVariants as closings;
ghost use Rattle.core_state.specs.Doing.{HasRoom};
ghost use Rattle.core_state.specs.Emitting.{HasPeer, IsNamed, controls_at};
ghost use Rattle.core_state.specs.Routers.{found_at};
ghost use Rattle.core_state.specs.steps.Posted.{EmitsUnless};
ghost use Rattle.core_state.specs.Unsent.{is_received};
ghost use Rattle.event_tables.specs.AsCore.{Steps, state_of};

use crate::controls::emit_closed;
use crate::tables::{EventTables, refuse};
use bind_model::{Asked, Closing, Event, PendingId, State as EndpointState, Told, Why};
use core_state::{Routers, Turn};
use message_pipe::ThingPipes;
use mj_base::{Items, SeqId};
use std::alloc::{AllocError, Global};

/// Closes a pending: its other half is told of it.
pub fn close_pending(
    tables: &mut EventTables,
    alloc: Global,
    seq: SeqId,
    id: PendingId,
) -> Result<(), AllocError>
    requires { HasRoom (state_of tables.old) seq }
    ensures { OnOk result (Steps tables.old tables.new seq (asks.Close (closings.Pending id))) }
{
    if !tables.pendings.is_out(id) {
        refuse(tables, seq, Asked::Close(Closing::Pending(id)), Why::NoName);
        return Ok(());
    }
    if is_received(tables, id) {
        return close_received(tables, alloc, seq, id);
    }
    close_made(tables, alloc, seq, id);
    Ok(())
}

/// Whether a pending was received: its endpoint isn't bound yet.
fn is_received(tables: &EventTables, id: PendingId) -> bool
    ensures { result ≡ is_received (found_at tables.now.endpoints id.end id.id) }
{
    match tables.endpoints.find(id.end, id.id) {
        Some(endpoint) => match endpoint.state {
            EndpointState::Pending => true,
            EndpointState::Bound(_) | EndpointState::Closed => false,
        },
        None => false,
    }
}

/// Closes a pending that was made here. Its half here knows then that its peer is closed. Takes no memory.
fn close_made(tables: &mut EventTables, alloc: Global, seq: SeqId, id: PendingId)
    requires able { HasRoom (state_of tables.old) seq }
    requires held { is_out tables.old.pendings id ≡ true }
    requires made { is_received (found_at tables.old.endpoints id.end id.id) ≡ false }
    ensures { Steps tables.old tables.new seq (asks.Close (closings.Pending id)) }
{
    tables.endpoints.turn(id.end, id.id, Turn::PeerClosed);
    tables.pendings.remove(id);
    tables.log.push_reserved(Event {
        seq,
        asked: Asked::Close(Closing::Pending(id)),
        told: Told::Closed(Items::new(alloc)),
    });
}

/// Tells the peer of a pending's endpoint that this is closed, unless its end is closed.
fn tell_peer(
    pipes: &mut ThingPipes,
    endpoints: &Routers,
    alloc: Global,
    id: PendingId,
) -> Result<(), AllocError>
    requires named { IsNamed id.id }
    requires peer { HasPeer pipes.old id.end }
    ensures { OnOk result (EmitsUnless (is_closed (end_of pipes.old.ends id.end)) (peer_of (end_of pipes.old.ends id.end))
        (controls_at endpoints.now id.end (id.id ∷ [])) pipes.old pipes.new) }
{
    if pipes.is_closed(id.end) {
        return Ok(());
    }
    emit_closed(pipes, endpoints, alloc, id.end, id.id)
}

/// Closes a pending that was received, with its endpoint, and tells the peer of this.
fn close_received(
    tables: &mut EventTables,
    alloc: Global,
    seq: SeqId,
    id: PendingId,
) -> Result<(), AllocError>
    requires able { HasRoom (state_of tables.old) seq }
    requires held { is_out tables.old.pendings id ≡ true }
    requires received { is_received (found_at tables.old.endpoints id.end id.id) ≡ true }
    ensures { OnOk result (Steps tables.old tables.new seq (asks.Close (closings.Pending id))) }
{
    tell_peer(&mut tables.pipes, &tables.endpoints, alloc, id)?;
    tables.endpoints.turn(id.end, id.id, Turn::Closed);
    tables.pendings.remove(id);
    tables.log.push_reserved(Event {
        seq,
        asked: Asked::Close(Closing::Pending(id)),
        told: Told::Closed(Items::new(alloc)),
    });
    Ok(())
}
