//! Places for rows, each with its row or without one.

ghost use Rattle.std.specs.Prelude.{◌≡◌, ◌≤◌, Some, OnOk, IsTrue, IsSome};
ghost use Rattle.std.specs.Option.{option_map};
ghost use Rattle.mj_base.specs.declared.limits.TheConstants.{MAX_EVENTS};
ghost use Rattle.bind_model.specs.declared.endpoint.State.TheVariants.{Closed};
ghost use Rattle.endpoint_router.specs.Changes.{in_state, marked, with_request, without_request};
ghost use Rattle.endpoint_router.specs.Rows.{has_room, next_number, row_seen, seen_in};
ghost use Rattle.endpoint_router.specs.Turns.{turn_of};
ghost use Rattle.endpoint_router.specs.steps.SlotChanges.{MayTurn};

use crate::row::Row;
use crate::turns::Turn;
use bind_model::State;
use std::alloc::AllocError;

/// Has the endpoint in another state.
pub(crate) fn set_state(place: &mut Option<Row>, state: State)
    ensures { seen_in place.new ≡ option_map (in_state state) (seen_in place.old) }
{
    if let Some(row) = place {
        row.endpoint.state = state;
    }
}

/// Notes that the peer endpoint is closed.
pub(crate) fn mark(place: &mut Option<Row>)
    ensures { seen_in place.new ≡ option_map marked (seen_in place.old) }
{
    if let Some(row) = place {
        row.endpoint.peer_closed = true;
    }
}

/// Makes a place for the next request.
pub(crate) fn reserve(place: &mut Option<Row>) -> Result<(), AllocError>
    requires there { IsSome place.old }
    ensures same { seen_in place.new ≡ seen_in place.old }
    ensures room { OnOk result (IsTrue (has_room place.new)) }
{
    match place {
        Some(row) => row.requests.reserve(row.next_request),
        None => Ok(()),
    }
}

/// One request more of this method, for which there is a place: its number.
pub(crate) fn draw(place: &mut Option<Row>, method: u32) -> u64
    requires room { IsTrue (has_room place.old) }
    requires few { next_number (seen_in place.old) ≤ MAX_EVENTS }
    ensures number { result ≡ next_number (seen_in place.old) }
    ensures row { seen_in place.new ≡ option_map (with_request method) (seen_in place.old) }
{
    match place {
        Some(row) => {
            let request = row.next_request;
            row.requests.add(request, method);
            row.next_request = request + 1;
            request
        }
        None => 0,
    }
}

/// Ends the request of a number.
pub(crate) fn finish(place: &mut Option<Row>, request: u64)
    ensures { seen_in place.new ≡ option_map (without_request request) (seen_in place.old) }
{
    if let Some(row) = place {
        row.requests.remove(request);
    }
}

/// Has the endpoint closed.
fn close(place: &mut Option<Row>)
    ensures { seen_in place.new ≡ option_map (in_state Closed) (seen_in place.old) }
{
    set_state(place, State::Closed);
}

/// Puts a row in its place.
pub(crate) fn put(place: &mut Option<Row>, row: Row)
    ensures { seen_in place.new ≡ Some (row_seen row) }
{
    *place = Some(row);
}

/// Has the endpoint turn so.
pub(crate) fn turn(place: &mut Option<Row>, turn: Turn)
    requires { MayTurn place.old turn }
    ensures { seen_in place.new ≡ option_map (turn_of turn) (seen_in place.old) }
{
    match turn {
        Turn::Attached(seq) => set_state(place, State::Bound(seq)),
        Turn::Closed => close(place),
        Turn::PeerClosed => mark(place),
        Turn::Sent(method) => {
            let _request = draw(place, method);
        }
        Turn::Answered(request) => finish(place, request),
    }
}
