//! What goes with a message: things, and pendings.

ghost use Rattle.std.specs.Prelude.{◌≡◌, IfOk};
ghost use Rattle.std.specs.List.{list_all};
ghost use Rattle.bind_model.specs.Pendings.{is_out};
ghost use Rattle.bind_model.specs.declared.endpoint.PendingId.{PendingId as pending_id};
ghost use Rattle.core_state.specs.Placing.{PutsAll};
ghost use Rattle.core_state.specs.steps.Spends.{SpendsAll};
ghost use Rattle.core_sending.specs.Carrying.{all_own, all_pending};

use crate::looks::all_out;
use bind_model::{PendingId, PendingNames};
use core_sending::carried::{CarriedNames, is_distinct};
use handle_table::{Place, Thing};
use message_pipe::ThingPipes;
use std::alloc::{AllocError, Global};

/// Whether somebody has each of these pendings.
fn are_pending(table: &PendingNames, pendings: &[PendingId]) -> bool
    ensures { result ≡ list_all (λ (p : pending_id). is_out table.now p) pendings.now }
{
    for pending in pendings {
        if !table.is_out(*pending) {
            return false;
        }
    }
    true
}

/// Whether somebody has each of these pendings, and none stands twice.
fn all_pending(
    alloc: Global,
    table: &PendingNames,
    pendings: &[PendingId],
) -> Result<bool, AllocError>
    ensures { IfOk result (λ own. own ≡ all_pending table.now pendings.now) }
{
    if !are_pending(table, pendings) {
        return Ok(false);
    }
    is_distinct(alloc, pendings)
}

/// Whether somebody has all that goes with a message, and nothing stands twice.
pub(crate) fn all_own(
    alloc: Global,
    pipes: &ThingPipes,
    table: &PendingNames,
    names: &CarriedNames,
) -> Result<bool, AllocError>
    ensures { IfOk result (λ own. own ≡ all_own pipes.now table.now names.now) }
{
    if !all_out(alloc, pipes, names.things.as_slice())? {
        return Ok(false);
    }
    all_pending(alloc, table, names.pendings.as_slice())
}

/// Moves all of these to one place.
pub fn put_all(pipes: &mut ThingPipes, things: &[Thing], place: Place)
    ensures { PutsAll things.now place pipes.old pipes.new }
{
    for thing in things {
        pipes.put(*thing, place);
    }
}

/// Nobody has these pendings any more.
pub(crate) fn remove_all(table: &mut PendingNames, pendings: &[PendingId])
    ensures { SpendsAll pendings.now table.old table.new }
{
    for pending in pendings {
        table.remove(*pending);
    }
}
