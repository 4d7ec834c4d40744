//! The ids that come with a message: which are strange, and what enters under the others.

ghost use Rattle.std.specs.Prelude.{ℕ, List, ◌≡◌, ◌+◌, ◌≤◌, ◌*◌, ◌||◌, ◌++◌, ◌∷◌, [], if◌then◌else◌, length, is_some, slice_get, IfOk, OnOk};
ghost use Rattle.message_header.specs.Said.{ids_span};
ghost use Rattle.wire_model.specs.Message.{ids_read};
ghost use Rattle.endpoint_router.specs.Rows.{endpoints_of};
ghost use Rattle.bind_model.specs.Machine.{endpoint_named, is_closed, is_own};
ghost use Rattle.bind_model.specs.Wire.{Named};
ghost use Rattle.core_state.specs.Routers.{found_at};
ghost use Rattle.core_taking.specs.Admits.{Admits, AreSlots, Gains, IsAdmitted, by_slot, first_or};

use bind_model::limits::REMOTE_IDS;
use bind_model::{Endpoint, State as EndpointState};
use core_state::{Entering, Routers, enter_one};
use endpoint_router::Router;
use mj_base::{EndId, Span, le32};
use std::alloc::{AllocError, Global};
use wire_encoder::{EndpointSide, WantedEndpoint};

/// What the ids of a message are to the table of an end: the first strange one, the endpoints that enter
/// under the others, and the ids of those that enter as closed.
#[derive(Drop)]
pub struct Admitted {
    pub strange: Option<u32>,
    pub entries: Vec<Entering>,
    pub closed: Vec<u32>,
}

/// The ids that a message carries, by where its header says that they lie.
pub fn carried_ids(alloc: Global, bytes: &[u8], span: Span) -> Result<Vec<u32>, AllocError>
    requires said { span ≡ ids_span bytes.now }
    requires within { span.start + span.len ≤ length bytes.now }
    requires counted { span.len ≡ 4 * length (ids_read bytes.now) }
    ensures { IfOk result (λ ids. ids.items ≡ ids_read bytes.now) }
{
    let mut ids = Vec::new(alloc);
    for k in 0..span.len / 4 {
        ids.push(le32(bytes, span.start + 4 * k))?;
    }
    Ok(ids)
}

/// Whether an id is one that an end makes itself: those of a remote have their highest bit set.
fn is_own(endpoints: &Routers, end: EndId, id: u32) -> bool
    ensures { result ≡ is_own (found_at endpoints.now end) id }
{
    let remote = match endpoints.find(end, 0) {
        Some(main) => match main.side {
            EndpointSide::Remote => true,
            EndpointSide::Receiver => false,
        },
        None => false,
    };
    if remote {
        id >= REMOTE_IDS
    } else {
        id < REMOTE_IDS
    }
}

/// Whether an id is there, came before, or is one that the end makes itself.
fn is_strange(endpoints: &Routers, seen: &Router, end: EndId, id: u32) -> bool
    ensures { result ≡ (is_some (found_at endpoints.now end id) || is_some (endpoints_of seen.now id) || is_own (found_at endpoints.now end) id) }
{
    endpoints.find(end, id).is_some() || seen.endpoint(id).is_some() || is_own(endpoints, end, id)
}

/// The endpoint that enters under an id: one that waits to be bound where the value names the id, else one
/// that is closed.
fn endpoint_for(slots: &[Option<WantedEndpoint>], at: usize) -> Endpoint
    ensures { result ≡ by_slot (slice_get slots.now at) }
{
    match slots.get(at) {
        Some(Some(wanted)) => Endpoint {
            side: wanted.side,
            interface: wanted.interface,
            state: EndpointState::Pending,
            peer_closed: false,
        },
        _ => Endpoint {
            side: EndpointSide::Remote,
            interface: 0,
            state: EndpointState::Closed,
            peer_closed: false,
        },
    }
}

/// Whether an endpoint is closed.
fn is_closed(endpoint: Endpoint) -> bool
    ensures { result ≡ is_closed endpoint }
{
    match endpoint.state {
        EndpointState::Closed => true,
        EndpointState::Pending | EndpointState::Bound(_) => false,
    }
}

/// Notes a strange id, unless one was noted before.
fn note_strange(id: u32, admitted: &mut Admitted)
    ensures strange { admitted.new.strange ≡ first_or admitted.old.strange id }
    ensures entries { admitted.new.entries ≡ admitted.old.entries }
    ensures closed { admitted.new.closed ≡ admitted.old.closed }
{
    match admitted.strange {
        None => admitted.strange = Some(id),
        Some(_) => {}
    }
}

/// Notes an id whose endpoint enters as closed.
fn note_closed(id: u32, closes: bool, closed: &mut Vec<u32>) -> Result<(), AllocError>
    ensures { OnOk result (closed.new.items ≡ closed.old.items ++ (if closes then id ∷ [] else [])) }
{
    if closes {
        closed.push(id)?;
    }
    Ok(())
}

/// Notes an endpoint that enters.
fn note_entry(id: u32, endpoint: Endpoint, admitted: &mut Admitted) -> Result<(), AllocError>
    ensures { OnOk result (Gains id endpoint admitted.old admitted.new) }
{
    admitted.entries.push(Entering::new(id, endpoint))?;
    note_closed(id, is_closed(endpoint), &mut admitted.closed)
}

/// Adds one id: it enters unless it is strange.
fn admit_one(
    endpoints: &Routers,
    alloc: Global,
    end: EndId,
    id: u32,
    endpoint: Endpoint,
    seen: &mut Router,
    admitted: &mut Admitted,
) -> Result<(), AllocError>
    ensures { OnOk result ((named : List Named) (done : List ℕ) → endpoint ≡ endpoint_named named (length done)
        → IsAdmitted (found_at endpoints.now end) named done seen.old admitted.old
        → IsAdmitted (found_at endpoints.now end) named (done ++ id ∷ []) seen.new admitted.new) }
{
    if is_strange(endpoints, seen, end, id) {
        note_strange(id, admitted);
        return Ok(());
    }
    enter_one(alloc, seen, id, endpoint)?;
    note_entry(id, endpoint, admitted)
}

/// What the ids of a message are to the table of an end, by the endpoints that its value names.
pub fn admit(
    endpoints: &Routers,
    alloc: Global,
    end: EndId,
    ids: &[u32],
    slots: &[Option<WantedEndpoint>],
) -> Result<Admitted, AllocError>
    ensures { IfOk result (λ admitted. (named : List Named) → AreSlots named (length ids.now) slots.now
        → Admits (found_at endpoints.now end) named ids.now admitted) }
{
    let mut admitted = Admitted {
        strange: None,
        entries: Vec::new(alloc),
        closed: Vec::new(alloc),
    };
    let mut seen = Router::new(alloc);
    for at in 0..ids.len() {
        let endpoint = endpoint_for(slots, at);
        admit_one(
            endpoints,
            alloc,
            end,
            ids[at],
            endpoint,
            &mut seen,
            &mut admitted,
        )?;
    }
    Ok(admitted)
}
