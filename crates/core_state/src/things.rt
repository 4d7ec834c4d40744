//! Lists of things, and handles that come to a place.

ghost use Rattle.std.specs.Prelude.{◌≡◌, IfOk};
ghost use Rattle.std.specs.List.{list_all};
ghost use Rattle.handle_table.specs.Places.{place_of};
ghost use Rattle.handle_table.specs.Things.{has, same};
ghost use Rattle.handle_table.specs.declared.thing.Thing.{Thing as thing};
ghost use Rattle.core_state.specs.Placing.{PutsAll, all_out};
ghost use Rattle.core_state.specs.Agreement.{is_out};

use crate::distinct::is_distinct;
use handle_table::{Handles, Place, Thing};
use message_pipe::Pipes;
use std::alloc::{AllocError, Global};

/// Whether two names are of one thing.
fn is_same(a: Thing, b: Thing) -> bool
    ensures { result ≡ same a b }
{
    a == b
}

/// Whether a thing stands in a list.
pub fn contains(things: &[Thing], thing: Thing) -> bool
    ensures { result ≡ has things.now thing }
{
    for other in things {
        if is_same(*other, thing) {
            return true;
        }
    }
    false
}

/// Whether a thing's handle is with a caller.
pub fn is_out(pipes: &Pipes, thing: Thing) -> bool
    ensures { result ≡ is_out (place_of pipes.now.table thing) }
{
    match pipes.place(thing) {
        Some(Place::Out) => true,
        _ => false,
    }
}

/// Whether the handles of all are with callers.
fn are_out(pipes: &Pipes, things: &[Thing]) -> bool
    ensures { result ≡ list_all (λ (z : thing). is_out (place_of pipes.now.table z)) things.now }
{
    for thing in things {
        if !is_out(pipes, *thing) {
            return false;
        }
    }
    true
}

/// Whether the handles of all are with callers, and none stands twice.
pub fn all_out(alloc: Global, pipes: &Pipes, things: &[Thing]) -> Result<bool, AllocError>
    ensures { IfOk result (λ own. own ≡ all_out pipes.now things.now) }
{
    if !are_out(pipes, things) {
        return Ok(false);
    }
    is_distinct(alloc, things)
}

/// Takes handles in, all to one place.
pub fn put_all(pipes: &mut Pipes, handles: Handles, place: Place)
    ensures { PutsAll handles place pipes.old pipes.new }
{
    let mut left = handles.into_vec();
    while let Some(handle) = left.pop() {
        pipes.put(handle, place);
    }
    left.destroy_empty();
}
