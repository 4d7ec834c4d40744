//! Closing pendings.

ghost use Rattle.std.specs.Prelude.{◌≡◌, [], ◌∷◌, true, false, IfOk, IfErr, OnOk, OnErr};
ghost use Rattle.message_pipe.specs.Ends.{end_of, is_closed, peer_of};
ghost use Rattle.bind_model.specs.Pendings.{is_out};
ghost use Rattle.core_state.specs.Routers.{found_at};
ghost use Rattle.core_state.specs.Doing.{CanDo, Done, HasRoom, Undone};
ghost use Rattle.core_state.specs.steps.Posted.{EmitsUnless};
ghost use Rattle.core_state.specs.Emitting.{HasPeer, IsNamed, controls_at};
ghost use Rattle.core_state.specs.Unsent.{is_received};

use bind_model::{
    Asked, Closing, Command, Event, Pending, PendingId, Refused, Reply, State as EndpointState,
    ToClose, Told, Why,
};
use core_state::emit::emit_one;
use core_state::{Routers, State, Turn, refuse};
use message_pipe::Pipes;
use mj_base::{Items, SeqId};
use std::alloc::{AllocError, Global};

/// Closes a pending: its other half is told of it. One that isn't out here comes back.
pub fn close_pending(
    state: &mut State,
    alloc: Global,
    seq: SeqId,
    pending: Pending,
) -> Result<Reply, Refused>
    requires { CanDo state.old seq (Command.Close (ToClose.Pending pending)) }
    ensures done { IfOk result (λ reply. Done state.old state.new seq (Command.Close (ToClose.Pending pending)) reply) }
    ensures undone { IfErr result (λ refused. Undone state.old state.new (Command.Close (ToClose.Pending pending)) refused) }
{
    let id = pending.id();
    if !state.rights.pendings.is_out(id) {
        let command = Command::Close(ToClose::Pending(pending));
        return refuse(
            state,
            seq,
            Asked::Close(Closing::Pending(id)),
            Why::NoName,
            command,
        );
    }
    if is_received(state, id) {
        return close_received(state, alloc, seq, pending);
    }
    Ok(close_made(state, alloc, seq, pending))
}

/// Whether a pending was received: its endpoint isn't bound yet.
fn is_received(state: &State, id: PendingId) -> bool
    ensures { result ≡ is_received (found_at state.now.endpoints id.end id.id) }
{
    match state.endpoints.find(id.end, id.id) {
        Some(endpoint) => match endpoint.state {
            EndpointState::Pending => true,
            EndpointState::Bound(_) | EndpointState::Closed => false,
        },
        None => false,
    }
}

/// Closes a pending that was made here. Its half here knows then that its peer is closed. Takes no memory.
fn close_made(state: &mut State, alloc: Global, seq: SeqId, pending: Pending) -> Reply
    requires able { HasRoom state.old seq }
    requires held { is_out state.old.rights.pendings pending.name ≡ true }
    requires made { is_received (found_at state.old.endpoints pending.name.end pending.name.id) ≡ false }
    ensures { Done state.old state.new seq (Command.Close (ToClose.Pending pending)) result }
{
    let id = pending.id();
    state.endpoints.turn(id.end, id.id, Turn::PeerClosed);
    state.rights.pendings.spend(pending);
    state.log.push_reserved(Event {
        seq,
        asked: Asked::Close(Closing::Pending(id)),
        told: Told::Closed(Items::new(alloc)),
    });
    Reply::Closed(Items::new(alloc))
}

/// Tells the peer of a pending's endpoint that this is closed, unless its end is closed. Without memory
/// nothing changes.
fn tell_peer(
    pipes: &mut Pipes,
    endpoints: &Routers,
    alloc: Global,
    id: PendingId,
) -> Result<(), AllocError>
    requires named { IsNamed id.id }
    requires peer { HasPeer pipes.old id.end }
    ensures ok { OnOk result (EmitsUnless (is_closed (end_of pipes.old.ends id.end)) (peer_of (end_of pipes.old.ends id.end))
        (controls_at endpoints.now id.end (id.id ∷ [])) pipes.old pipes.new) }
    ensures err { OnErr result (pipes.new ≡ pipes.old) }
{
    if pipes.is_closed(id.end) {
        return Ok(());
    }
    emit_one(pipes, endpoints, alloc, id.end, id.id)
}

/// Closes a pending that was received, with its endpoint, and tells the peer of this.
fn close_received(
    state: &mut State,
    alloc: Global,
    seq: SeqId,
    pending: Pending,
) -> Result<Reply, Refused>
    requires able { HasRoom state.old seq }
    requires held { is_out state.old.rights.pendings pending.name ≡ true }
    requires received { is_received (found_at state.old.endpoints pending.name.end pending.name.id) ≡ true }
    ensures done { IfOk result (λ reply. Done state.old state.new seq (Command.Close (ToClose.Pending pending)) reply) }
    ensures undone { IfErr result (λ refused. Undone state.old state.new (Command.Close (ToClose.Pending pending)) refused) }
{
    let id = pending.id();
    let Ok(()) = tell_peer(&mut state.pipes, &state.endpoints, alloc, id) else {
        return Err(Refused::Memory(Command::Close(ToClose::Pending(pending))));
    };
    state.endpoints.turn(id.end, id.id, Turn::Closed);
    state.rights.pendings.spend(pending);
    state.log.push_reserved(Event {
        seq,
        asked: Asked::Close(Closing::Pending(id)),
        told: Told::Closed(Items::new(alloc)),
    });
    Ok(Reply::Closed(Items::new(alloc)))
}
