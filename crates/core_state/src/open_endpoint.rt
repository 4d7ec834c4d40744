//! Endpoints that are open to a sequence.

ghost use Rattle.std.specs.Prelude.{◌≡◌};
ghost use Rattle.message_pipe.specs.Ends.{is_closed, end_of};
ghost use Rattle.core_state.specs.Routers.{found_at};
ghost use Rattle.core_state.specs.Opens.{opened};

use crate::state::State;
use bind_model::{Endpoint, State as EndpointState, Why};
use mj_base::{EndId, SeqId};

/// The endpoint of an id at an end, or why it isn't closed: it isn't there, or is closed, unbound or on
/// another sequence.
pub fn open_at(state: &State, seq: SeqId, end: EndId, id: u32) -> Result<Endpoint, Why>
    ensures { result ≡ opened seq (is_closed (end_of state.now.pipes.ends end)) id (found_at state.now.endpoints end id) }
{
    let Some(endpoint) = state.endpoints.find(end, id) else {
        return Err(Why::NoName);
    };
    if state.pipes.is_closed(end) {
        return Err(Why::Disconnected);
    }
    match endpoint.state {
        EndpointState::Closed => Err(Why::Disconnected),
        EndpointState::Pending => Err(Why::Unbound(id)),
        EndpointState::Bound(other) if other.0 == seq.0 => Ok(endpoint),
        EndpointState::Bound(other) => Err(Why::Elsewhere(other)),
    }
}
