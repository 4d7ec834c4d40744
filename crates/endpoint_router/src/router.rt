//! All endpoints of one end.

ghost use Rattle.std.specs.Prelude.{ℕ, ◌≡◌, ◌+◌, ◌<◌, ◌≤◌, ◌==◌, ◌||◌, true, None, Some, if◌then◌else◌, OnOk, OnErr, IsTrue, IsSome};
ghost use Rattle.std.specs.Option.{option_copied, option_map};
ghost use Rattle.mj_base.specs.declared.limits.TheConstants.{MAX_EVENTS};
ghost use Rattle.bind_model.specs.Machine.{is_remote};
ghost use Rattle.bind_model.specs.declared.endpoint.State.TheVariants.{Bound, Closed};
ghost use Rattle.endpoint_router.specs.Changes.{IsBound, IsPending, Stays, in_state, marked, with_request, without_request};
ghost use Rattle.endpoint_router.specs.Rows.{can_draw, endpoints_of, has_place, is_pending, next_number, no_endpoints, own_id, row_at, row_seen};
ghost use Rattle.endpoint_router.specs.Turns.{AssociatesIf, CanAssociate, EntersIf};

use crate::place;
use crate::row::Row;
use bind_model::limits::REMOTE_IDS;
use bind_model::{Endpoint, State};
use mj_base::SeqId;
use std::alloc::{AllocError, Global};
use std::collections::BTreeMap;
use std::marker::Model;
use wire_encoder::EndpointSide;

/// The endpoints of one end by their ids, and how many ids it made itself. Contracts see both; a row
/// that isn't there may have a place.
#[derive(Drop)]
pub struct Router {
    rows: BTreeMap<u32, Option<Row>>,
    drawn: u32,
}

impl Model for Router {
    ghost use Rattle.endpoint_router.specs.Rows.{Contents};

    ghost Value = { Contents };

    ghost view = { λ router. record { rows = router.rows.entries; drawn = router.drawn } };
}

impl Router {
    /// No endpoints, and no ids drawn. Takes no memory.
    pub fn new(alloc: Global) -> Router
        ensures { result ≡ no_endpoints }
    {
        Router {
            rows: BTreeMap::new(alloc),
            drawn: 0,
        }
    }

    /// The row of an id; none exactly where the id isn't there.
    pub fn row(&self, id: u32) -> Option<&Row>
        ensures { option_map row_seen (option_copied result) ≡ row_at self.now id }
    {
        match self.rows.get(&id) {
            Some(Some(row)) => Some(row),
            _ => None,
        }
    }

    /// The endpoint of an id; none exactly where the id isn't there.
    pub fn endpoint(&self, id: u32) -> Option<Endpoint>
        ensures { result ≡ endpoints_of self.now id }
    {
        let row = self.row(id)?;
        Some(row.endpoint())
    }

    /// The number that the next request of the endpoint of an id gets; 0 where the id isn't there.
    pub fn next_request(&self, id: u32) -> u64
        ensures { result ≡ next_number (row_at self.now id) }
    {
        match self.row(id) {
            Some(row) => row.next_request(),
            None => 0,
        }
    }

    /// Whether the end is a remote: the side of its endpoint 0.
    fn is_remote(&self) -> bool
        ensures { result ≡ is_remote (endpoints_of self.now 0) }
    {
        match self.endpoint(0) {
            Some(main) => match main.side {
                EndpointSide::Remote => true,
                EndpointSide::Receiver => false,
            },
            None => false,
        }
    }

    /// The id that `new_id` would give.
    pub fn next_id(&self) -> u32
        requires { self.now.drawn < MAX_EVENTS }
        ensures { result ≡ own_id self.now }
    {
        let own = self.drawn + 1;
        if self.is_remote() {
            own + REMOTE_IDS
        } else {
            own
        }
    }

    /// Draws an id that the end makes itself: 1, 2, 3 and so on, with the highest bit set where its
    /// endpoint 0 is a remote.
    pub fn new_id(&mut self) -> u32
        requires { self.old.drawn < MAX_EVENTS }
        ensures id { result ≡ own_id self.old }
        ensures drawn { self.new.drawn ≡ self.old.drawn + 1 }
        ensures rows { self.new.rows ≡ self.old.rows }
    {
        let id = self.next_id();
        self.drawn += 1;
        id
    }

    /// Makes a place for the row of an id. Without memory nothing changes.
    pub fn reserve(&mut self, id: u32) -> Result<(), AllocError>
        ensures rows { (n : ℕ) → row_at self.new n ≡ row_at self.old n }
        ensures drawn { self.new.drawn ≡ self.old.drawn }
        ensures ok { OnOk result ((n : ℕ) → has_place self.new n ≡ ((id == n) || has_place self.old n)) }
        ensures err { OnErr result (self.new ≡ self.old) }
    {
        self.rows.entry(id)?.or_insert(None);
        Ok(())
    }

    /// Enters a row under an id that isn't there, and for which there is a place.
    pub fn enter(&mut self, id: u32, row: Row)
        requires absent { row_at self.old id ≡ None }
        requires place { IsTrue (has_place self.old id) }
        ensures rows { (n : ℕ) → row_at self.new n ≡ (if id == n then Some (row_seen row) else row_at self.old n) }
        ensures rest { Stays self.old self.new }
    {
        if let Some(place) = self.rows.get_mut(&id) {
            *place = Some(row);
        }
    }

    /// Has the endpoint of an id in another state.
    fn set_state(&mut self, id: u32, state: State)
        ensures rows { (n : ℕ) → row_at self.new n ≡ (if id == n then option_map (in_state state) (row_at self.old n) else row_at self.old n) }
        ensures rest { Stays self.old self.new }
    {
        if let Some(place) = self.rows.get_mut(&id) {
            place::set_state(place, state);
        }
    }

    /// Binds the endpoint of an id, which was pending, on a sequence.
    pub fn attach(&mut self, id: u32, seq: SeqId)
        requires { IsPending (row_at self.old id) }
        ensures rows { (n : ℕ) → row_at self.new n ≡ (if id == n then option_map (in_state (Bound seq)) (row_at self.old n) else row_at self.old n) }
        ensures rest { Stays self.old self.new }
    {
        self.set_state(id, State::Bound(seq));
    }

    /// Closes the endpoint of an id. Its requests have ended.
    pub fn detach(&mut self, id: u32)
        requires { IsSome (row_at self.old id) }
        ensures rows { (n : ℕ) → row_at self.new n ≡ (if id == n then option_map (in_state Closed) (row_at self.old n) else row_at self.old n) }
        ensures rest { Stays self.old self.new }
    {
        self.set_state(id, State::Closed);
    }

    /// Notes that the peer endpoint of that of an id is closed. Its requests have ended.
    pub fn peer_closed(&mut self, id: u32)
        requires { IsSome (row_at self.old id) }
        ensures rows { (n : ℕ) → row_at self.new n ≡ (if id == n then option_map marked (row_at self.old n) else row_at self.old n) }
        ensures rest { Stays self.old self.new }
    {
        if let Some(place) = self.rows.get_mut(&id) {
            place::mark(place);
        }
    }

    /// Makes a place for the next request of the endpoint of an id.
    pub fn reserve_draw(&mut self, id: u32) -> Result<(), AllocError>
        requires { IsSome (row_at self.old id) }
        ensures rows { (n : ℕ) → row_at self.new n ≡ row_at self.old n }
        ensures rest { Stays self.old self.new }
        ensures ok { OnOk result (IsTrue (can_draw self.new id)) }
    {
        match self.rows.get_mut(&id) {
            Some(place) => place::reserve(place),
            None => Ok(()),
        }
    }

    /// Draws the number of a request of this method, for which there is a place, at a bound endpoint:
    /// 1, 2, 3 and so on. The request waits for its response from now on.
    pub fn draw(&mut self, id: u32, method: u32) -> u64
        requires bound { IsBound (row_at self.old id) }
        requires few { next_number (row_at self.old id) ≤ MAX_EVENTS }
        requires room { IsTrue (can_draw self.old id) }
        ensures number { result ≡ next_number (row_at self.old id) }
        ensures rows { (n : ℕ) → row_at self.new n ≡ (if id == n then option_map (with_request method) (row_at self.old n) else row_at self.old n) }
        ensures rest { Stays self.old self.new }
    {
        match self.rows.get_mut(&id) {
            Some(place) => place::draw(place, method),
            None => 0,
        }
    }

    /// Whether a request of this method waits at the endpoint of an id. None does where the peer endpoint
    /// is known to be closed, or the endpoint itself is.
    pub fn answered(&self, id: u32, request: u64, method: u32) -> bool
        ensures { result ≡ is_pending (row_at self.now id) request method }
    {
        match self.row(id) {
            Some(row) => row.is_pending(request, method),
            None => false,
        }
    }

    /// Ends a request of the endpoint of an id, whose response came.
    pub fn end_request(&mut self, id: u32, request: u64)
        ensures rows { (n : ℕ) → row_at self.new n ≡ (if id == n then option_map (without_request request) (row_at self.old n) else row_at self.old n) }
        ensures rest { Stays self.old self.new }
    {
        if let Some(place) = self.rows.get_mut(&id) {
            place::finish(place, request);
        }
    }
}

/// Enters an endpoint under an id that isn't there. Without memory nothing changes.
pub fn enter_one(
    alloc: Global,
    router: &mut Router,
    id: u32,
    endpoint: Endpoint,
) -> Result<(), AllocError>
    requires { row_at router.old id ≡ None }
    ensures ok { OnOk result (EntersIf endpoint id true router.old router.new) }
    ensures err { OnErr result (router.new ≡ router.old) }
{
    router.reserve(id)?;
    router.enter(id, Row::new(alloc, endpoint));
    Ok(())
}

/// Enters an endpoint under the next id that the end makes.
pub(crate) fn associate_one(alloc: Global, router: &mut Router, endpoint: Endpoint)
    requires { CanAssociate router.old }
    ensures { AssociatesIf endpoint true router.old router.new }
{
    let id = router.new_id();
    router.enter(id, Row::new(alloc, endpoint));
}
