//! The pendings of endpoints that enter with a message.

ghost use Rattle.std.specs.Prelude.{◌≡◌, ◌≤◌, ◌<◌, ◌||◌, ◌++◌, ◌∷◌, [], true, length, vec_len, vec_capacity, IfOk, OnOk};
ghost use Rattle.bind_model.specs.Pendings.{has_place, is_out};
ghost use Rattle.bind_model.specs.Replies.{has_pending, pendings_at};
ghost use Rattle.bind_model.specs.declared.endpoint.PendingId.{PendingId as pending_id};
ghost use Rattle.core_taking.specs.Founds.{is_pending, pending_ids};
ghost use Rattle.core_taking.specs.steps.Pending.{HavePlaces, halves_from, pending_at};

use bind_model::{Endpoint, Pending, PendingId, PendingList, Pendings, State as EndpointState};
use core_state::Entering;
use mj_base::EndId;
use std::alloc::{AllocError, Global};

/// Whether an endpoint waits to be bound.
pub fn is_pending(endpoint: Endpoint) -> bool
    ensures { result ≡ is_pending endpoint }
{
    match endpoint.state {
        EndpointState::Pending => true,
        EndpointState::Bound(_) | EndpointState::Closed => false,
    }
}

/// Makes a place for an endpoint that enters, among the rights that are with callers, where it is pending.
fn reserve_one(pendings: &mut Pendings, end: EndId, entry: &Entering) -> Result<(), AllocError>
    ensures same { (p : pending_id) → is_out pendings.new p ≡ is_out pendings.old p }
    ensures there { OnOk result (is_pending entry.now.endpoint ≡ true → has_place pendings.new (pending_at end entry.now.id) ≡ true) }
    ensures keeps { (p : pending_id) → has_place pendings.old p ≡ true → has_place pendings.new p ≡ true }
{
    if is_pending(entry.endpoint()) {
        let id = entry.id();
        pendings.reserve(PendingId { end, id })?;
    }
    Ok(())
}

/// Makes a place for each endpoint that enters as pending, among the rights that are with callers.
pub(crate) fn reserve_pending(
    pendings: &mut Pendings,
    end: EndId,
    entries: &[Entering],
) -> Result<(), AllocError>
    ensures same { (p : pending_id) → is_out pendings.new p ≡ is_out pendings.old p }
    ensures places { OnOk result (HavePlaces pendings.new end entries.now) }
{
    for entry in entries {
        reserve_one(pendings, end, entry)?;
    }
    Ok(())
}

/// Room for the pendings of all that enter as pending.
pub(crate) fn room_for(alloc: Global, entries: &[Entering]) -> Result<Vec<Pending>, AllocError>
    ensures { IfOk result (λ room. (room.items ≡ []) × (length (pending_ids entries.now) ≤ vec_capacity room)) }
{
    let room = Vec::with_capacity(alloc, entries.len())?;
    Ok(room)
}

/// Makes the pending of an endpoint that enters, where it is pending, into a list with room for it.
fn make_one(pendings: &mut Pendings, end: EndId, entry: &Entering, out: &mut Vec<Pending>)
    requires place { is_pending entry.now.endpoint ≡ true → has_place pendings.old (pending_at end entry.now.id) ≡ true }
    requires room { is_pending entry.now.endpoint ≡ true → vec_len out.old < vec_capacity out.old }
    ensures made { out.new.items ≡ out.old.items ++ halves_from end (entry.now ∷ []) }
    ensures capacity { vec_capacity out.new ≡ vec_capacity out.old }
    ensures outs { (p : pending_id) → is_out pendings.new p ≡ (has_pending (pendings_at end (pending_ids (entry.now ∷ []))) p || is_out pendings.old p) }
    ensures keeps { (p : pending_id) → has_place pendings.old p ≡ true → has_place pendings.new p ≡ true }
{
    let endpoint = entry.endpoint();
    if is_pending(endpoint) {
        let id = entry.id();
        let pending = pendings.make(PendingId { end, id }, endpoint.side, endpoint.interface);
        out.push_reserved(pending);
    }
}

/// Makes the pendings of all that enter as pending, in order.
pub(crate) fn make_pending(
    pendings: &mut Pendings,
    end: EndId,
    entries: &[Entering],
    room: Vec<Pending>,
) -> PendingList
    requires empty { room.items ≡ [] }
    requires room { length (pending_ids entries.now) ≤ vec_capacity room }
    requires places { HavePlaces pendings.old end entries.now }
    ensures made { result ≡ halves_from end entries.now }
    ensures outs { (p : pending_id) → is_out pendings.new p ≡ (has_pending (pendings_at end (pending_ids entries.now)) p || is_out pendings.old p) }
{
    let mut out = room;
    for entry in entries {
        make_one(pendings, end, entry, &mut out);
    }
    PendingList::from_vec(out)
}
