//! What is looked up of things and endpoints.

ghost use Rattle.std.specs.Prelude.{◌≡◌, [], ◌∷◌, None, IfOk};
ghost use Rattle.std.specs.List.{list_all};
ghost use Rattle.handle_table.specs.Places.{place_of};
ghost use Rattle.handle_table.specs.declared.thing.Thing.{Thing as thing};
ghost use Rattle.message_pipe.specs.Ends.{carried_in, end_of, is_closed, spread};
ghost use Rattle.core_state.specs.Agreement.{is_out};
ghost use Rattle.core_state.specs.Opens.{opened};
ghost use Rattle.core_state.specs.Placing.{all_out};
ghost use Rattle.core_state.specs.Routers.{found_at};

use crate::tables::EventTables;
use bind_model::{Endpoint, State as EndpointState, Why};
use core_state::is_distinct;
use handle_table::{Place, Thing};
use message_pipe::ThingPipes;
use mj_base::{EndId, Items, SeqId};
use std::alloc::{AllocError, Global};

/// Whether somebody has a thing.
pub(crate) fn is_out(pipes: &ThingPipes, thing: Thing) -> bool
    ensures { result ≡ is_out (place_of pipes.now.table thing) }
{
    match pipes.place(thing) {
        Some(Place::Out) => true,
        _ => false,
    }
}

/// Whether somebody has each of these.
fn are_out(pipes: &ThingPipes, things: &[Thing]) -> bool
    ensures { result ≡ list_all (λ (z : thing). is_out (place_of pipes.now.table z)) things.now }
{
    for thing in things {
        if !is_out(pipes, *thing) {
            return false;
        }
    }
    true
}

/// Whether somebody has each of these, and none stands twice.
pub(crate) fn all_out(
    alloc: Global,
    pipes: &ThingPipes,
    things: &[Thing],
) -> Result<bool, AllocError>
    ensures { IfOk result (λ own. own ≡ all_out pipes.now things.now) }
{
    if !are_out(pipes, things) {
        return Ok(false);
    }
    is_distinct(alloc, things)
}

/// What goes with a thing. Nothing is closed yet.
pub fn goes_with(
    pipes: &ThingPipes,
    alloc: Global,
    thing: Thing,
) -> Result<Items<Thing>, AllocError>
    ensures { IfOk result (λ goes. goes ≡ spread (carried_in pipes.now.ends None) pipes.now.made (thing ∷ [])) }
{
    let mut start = Vec::new(alloc);
    start.push(thing)?;
    Ok(Items::from_vec(pipes.goes_with(start, None)?))
}

/// The endpoint of an id at an end, or why it isn't used: it isn't there, or is closed, unbound or on
/// another sequence.
pub(crate) fn open_at(
    tables: &EventTables,
    seq: SeqId,
    end: EndId,
    id: u32,
) -> Result<Endpoint, Why>
    ensures { result ≡ opened seq (is_closed (end_of tables.now.pipes.ends end)) id (found_at tables.now.endpoints end id) }
{
    let Some(endpoint) = tables.endpoints.find(end, id) else {
        return Err(Why::NoName);
    };
    if tables.pipes.is_closed(end) {
        return Err(Why::Disconnected);
    }
    match endpoint.state {
        EndpointState::Closed => Err(Why::Disconnected),
        EndpointState::Pending => Err(Why::Unbound(id)),
        EndpointState::Bound(other) if other.0 == seq.0 => Ok(endpoint),
        EndpointState::Bound(other) => Err(Why::Elsewhere(other)),
    }
}
