//! What goes with a message: handles, and pendings.

ghost use Rattle.std.specs.Prelude.{◌≡◌, IfOk};
ghost use Rattle.std.specs.List.{list_all};
ghost use Rattle.bind_model.specs.Pendings.{is_out, names_of};
ghost use Rattle.bind_model.specs.Replies.{distinct_pendings};
ghost use Rattle.bind_model.specs.declared.endpoint.PendingId.{PendingId as pending_id};
ghost use Rattle.core_state.specs.steps.Spends.{SpendsAll, endpoint_names};
ghost use Rattle.core_sending.specs.Carrying.{all_own, all_pending, names_in};

use bind_model::{EndpointName, PendingId, PendingList, Pendings};
use core_state::{all_differ, all_out};
use handle_table::{Handles, Thing};
use message_pipe::Pipes;
use mj_base::Items;
use std::alloc::{AllocError, Global};

/// The handles and the pendings that go with a message.
pub struct Carried {
    pub handles: Handles,
    pub pendings: PendingList,
}

/// What they are of: things, and the names of endpoints.
#[derive(Drop)]
pub struct CarriedNames {
    pub things: Items<Thing>,
    pub pendings: Items<PendingId>,
}

impl Carried {
    ghost use Rattle.core_sending.specs.Carrying.{names_in};

    /// What all are of.
    pub(crate) fn names(&self, alloc: Global) -> Result<CarriedNames, AllocError>
        ensures { IfOk result (λ names. names ≡ names_in self.now) }
    {
        let things = Items::from_vec(self.handles.things(alloc)?);
        let pendings = Items::from_vec(self.pendings.names(alloc)?);
        Ok(CarriedNames { things, pendings })
    }
}

/// Whether all pendings are with callers.
fn are_pending(table: &Pendings, pendings: &[PendingId]) -> bool
    ensures { result ≡ list_all (λ (p : pending_id). is_out table.now p) pendings.now }
{
    for pending in pendings {
        if !table.is_out(*pending) {
            return false;
        }
    }
    true
}

/// The names of endpoints, in order.
fn endpoint_names(alloc: Global, pendings: &[PendingId]) -> Result<Vec<EndpointName>, AllocError>
    ensures { IfOk result (λ names. names.items ≡ endpoint_names pendings.now) }
{
    let mut names = Vec::new(alloc);
    for pending in pendings {
        names.push(EndpointName::new(pending.end, pending.id))?;
    }
    Ok(names)
}

/// Whether no pending stands twice. It takes time for sorting them, since a caller may send thousands.
pub fn is_distinct(alloc: Global, pendings: &[PendingId]) -> Result<bool, AllocError>
    ensures { IfOk result (λ distinct. distinct ≡ distinct_pendings pendings.now) }
{
    let names = endpoint_names(alloc, pendings)?;
    Ok(all_differ(names))
}

/// Whether all pendings are with callers, and none stands twice.
fn all_pending(alloc: Global, table: &Pendings, pendings: &[PendingId]) -> Result<bool, AllocError>
    ensures { IfOk result (λ own. own ≡ all_pending table.now pendings.now) }
{
    if !are_pending(table, pendings) {
        return Ok(false);
    }
    is_distinct(alloc, pendings)
}

/// Whether all that goes with a message is with callers, and nothing stands twice.
pub(crate) fn all_own(
    alloc: Global,
    pipes: &Pipes,
    table: &Pendings,
    names: &CarriedNames,
) -> Result<bool, AllocError>
    ensures { IfOk result (λ own. own ≡ all_own pipes.now table.now names.now) }
{
    if !all_out(alloc, pipes, names.things.as_slice())? {
        return Ok(false);
    }
    all_pending(alloc, table, names.pendings.as_slice())
}

/// Spends all pendings: they are with their caller no longer.
pub(crate) fn spend_all(table: &mut Pendings, pendings: PendingList)
    ensures { SpendsAll (names_of pendings) table.old table.new }
{
    let mut left = pendings.into_vec();
    while let Some(pending) = left.pop() {
        table.spend(pending);
    }
    left.destroy_empty();
}
