//! Binding endpoints that were received.

ghost use Rattle.std.specs.Prelude.{◌≡◌, ◌&&◌, nat_lt, None, IfOk, IfErr};
ghost use Rattle.message_pipe.specs.Ends.{end_of, is_closed};
ghost use Rattle.bind_model.specs.Pendings.{is_out};
ghost use Rattle.core_state.specs.Routers.{found_at};
ghost use Rattle.core_ends.specs.steps.Attaching.{why_not};
ghost use Rattle.core_state.specs.Doing.{CanDo, Done, HasRoom, Undone};

use bind_model::{
    Asked, Command, Event, Pending, PendingId, Refused, Reply, State as EndpointState, Told, Why,
};
use core_state::{State, Turn, refuse};
use mj_base::SeqId;

/// Binds an endpoint that was received on a sequence. Takes no memory.
pub fn attach(state: &mut State, seq: SeqId, pending: Pending, on: SeqId) -> Result<Reply, Refused>
    requires { CanDo state.old seq (Command.Attach pending on) }
    ensures done { IfOk result (λ reply. Done state.old state.new seq (Command.Attach pending on) reply) }
    ensures undone { IfErr result (λ refused. Undone state.old state.new (Command.Attach pending on) refused) }
{
    let id = pending.id();
    match why_not(state, id, on) {
        Some(why) => {
            let asked = Asked::Attach(id, on);
            refuse(state, seq, asked, why, Command::Attach(pending, on))
        }
        None => Ok(bind(state, seq, pending, on)),
    }
}

/// Binds the endpoint of a pending that is with a caller, which was received.
fn bind(state: &mut State, seq: SeqId, pending: Pending, on: SeqId) -> Reply
    requires able { HasRoom state.old seq }
    requires free { why_not (is_out state.old.rights.pendings pending.name && nat_lt on.0 state.old.seqs)
        (is_closed (end_of state.old.pipes.ends pending.name.end)) pending.name.id
        (found_at state.old.endpoints pending.name.end pending.name.id) ≡ None }
    ensures { Done state.old state.new seq (Command.Attach pending on) result }
{
    let id = pending.id();
    state.endpoints.turn(id.end, id.id, Turn::Attached(on));
    state.rights.pendings.spend(pending);
    state.log.push_reserved(Event {
        seq,
        asked: Asked::Attach(id, on),
        told: Told::Attached(id.id),
    });
    Reply::Attached(id.id)
}

/// Why the endpoint of a pending isn't bound on a sequence: it isn't with a caller, or there is no such
/// sequence; it or its end is closed; or it was made here.
fn why_not(state: &State, id: PendingId, on: SeqId) -> Option<Why>
    ensures { result ≡ why_not (is_out state.now.rights.pendings id && nat_lt on.0 state.now.seqs)
        (is_closed (end_of state.now.pipes.ends id.end)) id.id (found_at state.now.endpoints id.end id.id) }
{
    let there = state.rights.pendings.is_out(id) && on.0 < state.seqs;
    if !there {
        return Some(Why::NoName);
    }
    if state.pipes.is_closed(id.end) {
        return Some(Why::Disconnected);
    }
    let Some(endpoint) = state.endpoints.find(id.end, id.id) else {
        return Some(Why::NoName);
    };
    match endpoint.state {
        EndpointState::Closed => Some(Why::Disconnected),
        EndpointState::Bound(_) => Some(Why::WrongPipe(id.id)),
        EndpointState::Pending => None,
    }
}
