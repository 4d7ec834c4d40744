//! Which pendings go with a message: those that its parameters want, made at the end that it goes from.

ghost use Rattle.std.specs.Prelude.{◌≡◌};
ghost use Rattle.handle_table.specs.Things as things;
ghost use Rattle.bind_model.specs.Replies.{same_side};
ghost use Rattle.core_state.specs.Unsent.{is_received};
ghost use Rattle.core_sending.specs.Carrying.{all_fit, fits, is_made_at, side_of, wrong_pipe};

use bind_model::{Endpoint, PendingId, State as EndpointState, Why};
use core_state::{Routers, other_side};
use mj_base::EndId;
use wire_encoder::{EndpointSide, WantedEndpoint};

/// Whether an endpoint was received, and nobody has bound it.
fn is_received(endpoint: Option<Endpoint>) -> bool
    ensures { result ≡ is_received endpoint }
{
    match endpoint {
        Some(found) => match found.state {
            EndpointState::Pending => true,
            EndpointState::Bound(_) | EndpointState::Closed => false,
        },
        None => false,
    }
}

/// The side that a pending is to be, by its endpoint here: of one that was made here, the other than that
/// has.
fn side_of(endpoint: Endpoint) -> EndpointSide
    ensures { result ≡ side_of endpoint }
{
    if is_received(Some(endpoint)) {
        endpoint.side
    } else {
        other_side(endpoint.side)
    }
}

/// Whether two sides are the same.
fn same_side(a: EndpointSide, b: EndpointSide) -> bool
    ensures { result ≡ same_side a b }
{
    match a {
        EndpointSide::Remote => match b {
            EndpointSide::Remote => true,
            EndpointSide::Receiver => false,
        },
        EndpointSide::Receiver => match b {
            EndpointSide::Remote => false,
            EndpointSide::Receiver => true,
        },
    }
}

/// Whether two names are of one end.
fn same_end(a: EndId, b: EndId) -> bool
    ensures { result ≡ things.same_end a b }
{
    a == b
}

/// Whether the pending of an endpoint here is of the wanted side and interface.
fn fits(endpoint: Option<Endpoint>, wanted: WantedEndpoint) -> bool
    ensures { result ≡ fits endpoint wanted }
{
    match endpoint {
        Some(found) => {
            same_side(side_of(found), wanted.side) && found.interface == wanted.interface
        }
        None => false,
    }
}

/// Whether there are as many pendings as are wanted, and each fits.
pub(crate) fn all_fit(endpoints: &Routers, pendings: &[PendingId], wants: &[WantedEndpoint]) -> bool
    ensures { result ≡ all_fit endpoints.now pendings.now wants.now }
{
    if pendings.len() != wants.len() {
        return false;
    }
    for at in 0..pendings.len() {
        let pending = pendings[at];
        if !fits(endpoints.find(pending.end, pending.id), wants[at]) {
            return false;
        }
    }
    true
}

/// Whether a pending was made at this end.
fn is_made_at(endpoints: &Routers, end: EndId, pending: PendingId) -> bool
    ensures { result ≡ is_made_at endpoints.now end pending }
{
    same_end(pending.end, end) && !is_received(endpoints.find(pending.end, pending.id))
}

/// Why these pendings don't go with a message from an end: the first is told that was not made there.
pub fn wrong_pipe(endpoints: &Routers, end: EndId, pendings: &[PendingId]) -> Option<Why>
    ensures { result ≡ wrong_pipe endpoints.now end pendings.now }
{
    for pending in pendings {
        if !is_made_at(endpoints, end, *pending) {
            return Some(Why::WrongPipe(pending.id));
        }
    }
    None
}
