//! Who takes at an end when nobody asks.

ghost use Rattle.std.specs.Prelude.{◌≡◌, Some};
ghost use Rattle.bind_model.specs.Ready.{on_of};
ghost use Rattle.bind_core.specs.Takers.{id_meant, ready_taker, taker_for, taker_of};
ghost use Rattle.bind_core.specs.steps.UnreadTakers.{taker_unread};
ghost use Rattle.core_state.specs.Agreement.{Holds};
ghost use Rattle.core_state.specs.Routers.{found_at};

use bind_model::{Endpoint, State as EndpointState};
use core_state::{State, paused_by};
use message_header::{CONTROL_ID, read_header};
use mj_base::{EndId, SeqId};

/// The sequence that an endpoint is bound on.
pub fn bound_on(endpoint: Endpoint) -> Option<SeqId>
    ensures { result ≡ on_of (Some endpoint) }
{
    match endpoint.state {
        EndpointState::Bound(seq) => Some(seq),
        EndpointState::Pending | EndpointState::Closed => None,
    }
}

/// Who takes a message for this endpoint, where endpoint 0 is bound on that sequence.
pub fn taker_for(main: Option<SeqId>, endpoint: Option<Endpoint>) -> Option<SeqId>
    ensures { result ≡ taker_for main endpoint }
{
    let Some(found) = endpoint else {
        return main;
    };
    match found.state {
        EndpointState::Pending => None,
        EndpointState::Bound(seq) => Some(seq),
        EndpointState::Closed => main,
    }
}

/// The id of the endpoint that a message is for; none where it has no header, or is a control.
pub fn id_meant(bytes: &[u8]) -> Option<u32>
    ensures { result ≡ id_meant bytes.now }
{
    match read_header(bytes) {
        Ok(header) if header.interface_id != CONTROL_ID => Some(header.interface_id),
        _ => None,
    }
}

/// The endpoint of an id at an end whose endpoint 0 is this, which isn't sought again.
fn endpoint_beside(state: &State, end: EndId, main: Endpoint, id: u32) -> Option<Endpoint>
    requires { found_at state.now.endpoints end 0 ≡ Some main }
    ensures { result ≡ found_at state.now.endpoints end id }
{
    if id == 0 {
        Some(main)
    } else {
        state.endpoints.find(end, id)
    }
}

/// The sequence whose take would consume a message of these bytes, the oldest at an end, or find it bad.
fn taker_unread(state: &State, end: EndId, bytes: &[u8]) -> Option<SeqId>
    ensures { result ≡ taker_unread state.now end bytes.now }
{
    let main = state.endpoints.find(end, 0)?;
    if state.pipes.is_closed(end) {
        return None;
    }
    match id_meant(bytes) {
        Some(id) => taker_for(bound_on(main), endpoint_beside(state, end, main, id)),
        None => bound_on(main),
    }
}

/// The sequence whose take at an end would consume a message or find it bad, whatever the end waits for. Of an end
/// where nothing is unread no endpoint is sought: most ends that are looked at are such.
fn taker(state: &State, end: EndId) -> Option<SeqId>
    ensures { result ≡ taker_of state.now end }
{
    match state.pipes.front(end) {
        Some(message) => taker_unread(state, end, message.bytes.as_slice()),
        None => None,
    }
}

/// The sequence whose take at an end is ready: none while the end waits for another.
pub(crate) fn ready_taker(state: &State, end: EndId) -> Option<SeqId>
    requires { Holds state.now }
    ensures { result ≡ ready_taker state.now end }
{
    match paused_by(state, end) {
        Some(_) => None,
        None => taker(state, end),
    }
}
