//! What a control says to the end that it is taken at.

ghost use Rattle.std.specs.Prelude.{◌≡◌};
ghost use Rattle.bind_model.specs.Machine.{endpoint_at};
ghost use Rattle.bind_model.specs.Notices.{query_pends};
ghost use Rattle.bind_model.specs.Replies.{heard, is_older, version_of};
ghost use Rattle.bind_model.specs.WireOf.{version_in, wire_of};
ghost use Rattle.core_state.specs.Agreement.{Holds, past_of, wire_in};
ghost use Rattle.end_notices.specs.Agreement.{is_awaited};
ghost use Rattle.core_taking.specs.Founds.{Tells};

use crate::reading::Found;
use bind_model::{BadWhy, Endpoint, Noted, State as EndpointState};
use control_bytes::Control;
use core_state::State;
use mj_base::EndId;
use mj_schema::Schema;
use wire_encoder::EndpointSide;

/// The version of an interface, 0 where there is none of this number.
fn version_in(schema: &Schema, interface: u32) -> u32
    ensures { result ≡ version_in schema.now interface }
{
    match schema.interfaces.as_slice().get(interface as usize) {
        Some(row) => row.version,
        None => 0,
    }
}

/// The version of an endpoint that is a receiver and isn't closed.
#[tactic(auto, unfolding(bind_model::specs::WireOf::wire_of))]
pub fn version_of(schema: &Schema, endpoint: Option<Endpoint>) -> Option<u32>
    ensures { result ≡ version_of (wire_of schema.now) endpoint }
{
    let Some(found) = endpoint else {
        return None;
    };
    match found.side {
        EndpointSide::Remote => None,
        EndpointSide::Receiver => match found.state {
            EndpointState::Closed => None,
            EndpointState::Pending | EndpointState::Bound(_) => {
                Some(version_in(schema, found.interface))
            }
        },
    }
}

/// The version of the endpoint of an id at an end, where it is a receiver and isn't closed.
fn version_at(state: &State, end: EndId, id: u32) -> Option<u32>
    requires { Holds state.now }
    ensures { result ≡ version_of (wire_in state.now) (endpoint_at (wire_in state.now) (past_of state.now) end id) }
{
    version_of(&state.schema, state.endpoints.find(end, id))
}

/// Whether a receiver is older than a version.
pub fn is_older(version: Option<u32>, least: u32) -> bool
    ensures { result ≡ is_older version least }
{
    match version {
        Some(version) => version < least,
        None => false,
    }
}

/// Whether a version is awaited at an endpoint where so many queries wait: none is once it is closed, or
/// knows that its peer is.
pub fn is_awaited(queries: u32, endpoint: Option<Endpoint>) -> bool
    ensures { result ≡ is_awaited queries endpoint }
{
    let Some(found) = endpoint else {
        return false;
    };
    if found.peer_closed {
        return false;
    }
    match found.state {
        EndpointState::Closed => false,
        EndpointState::Pending | EndpointState::Bound(_) => queries > 0,
    }
}

/// Whether a version is awaited at the endpoint of an id at an end.
fn awaits(state: &State, end: EndId, id: u32) -> bool
    requires { Holds state.now }
    ensures { result ≡ query_pends (past_of state.now) end id (endpoint_at (wire_in state.now) (past_of state.now) end id) }
{
    is_awaited(
        state.tables.notices.queries(end, id),
        state.endpoints.find(end, id),
    )
}

/// What a control says at an end, and when it is bad there.
pub(crate) fn hear(state: &State, end: EndId, control: Control) -> Found
    requires { Holds state.now }
    ensures { Tells (wire_in state.now) (past_of state.now) end result (heard (wire_in state.now) (past_of state.now) end control) }
{
    match control {
        Control::Closed(id) => Found::Control(Noted::Closed(id)),
        Control::Query(id) => Found::Control(Noted::Queried(id, version_at(state, end, id))),
        Control::Version(id, version) => {
            if awaits(state, end, id) {
                Found::Control(Noted::Version(id, version))
            } else {
                Found::Bad(BadWhy::Unasked(0))
            }
        }
        Control::Require(id, least) => {
            if is_older(version_at(state, end, id), least) {
                Found::Bad(BadWhy::TooOld(least))
            } else {
                Found::Control(Noted::Required(id, least))
            }
        }
        Control::Flush(flush) => Found::Control(Noted::Flushed(flush)),
    }
}
