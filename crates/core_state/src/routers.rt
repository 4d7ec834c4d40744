//! The routers of all ends: their endpoints, and the requests that were sent from these.

ghost use Rattle.std.specs.Prelude.{◌≡◌, ◌<◌, None, IsTrue, IsSome, OnOk, OnErr};
ghost use Rattle.mj_base.specs.declared.ids.EndId.{EndId as end_id};
ghost use Rattle.mj_base.specs.declared.limits.TheConstants.{MAX_EVENTS};
ghost use Rattle.endpoint_router.specs.Rows.{can_draw, has_place, is_pending, next_number, own_id, row_at};
ghost use Rattle.endpoint_router.specs.Table.{no_ends};
ghost use Rattle.core_state.specs.Routers.{found_at, router_at};
ghost use Rattle.core_state.specs.Entries.{AllEnterAt, AreNew, ArePlaced};
ghost use Rattle.endpoint_router.specs.Turns.{CanAssociate, CanTurn, IsSame, turn_of};
ghost use Rattle.core_state.specs.Turns.{AssociatesAt, EntersAt, TurnsAt};

use crate::entries::{Entering, enter_all, place_all};
use bind_model::Endpoint;
use endpoint_router::{EndpointTable, Endpoints, Turn};
use mj_base::EndId;
use std::alloc::{AllocError, Global};
use std::marker::Model;

/// For each end its router, all in one table.
#[derive(Drop)]
pub struct Routers {
    table: EndpointTable,
}

impl Model for Routers {
    ghost use Rattle.endpoint_router.specs.Table.{Table};

    ghost Value = { Table };

    ghost view = { λ routers. routers.table };
}

impl Routers {
    /// No endpoints. Takes no memory.
    pub fn new(alloc: Global) -> Routers
        ensures { result ≡ no_ends }
    {
        Routers {
            table: EndpointTable::new(alloc),
        }
    }

    /// The endpoint of an id at an end.
    pub fn find(&self, end: EndId, id: u32) -> Option<Endpoint>
        ensures { result ≡ found_at self.now end id }
    {
        self.table.find(end, id)
    }

    /// Whether a request of this method waits at the endpoint of an id at an end. None does where the peer
    /// endpoint is known to be closed, or the endpoint itself is.
    pub fn is_asked(&self, end: EndId, id: u32, request: u64, method: u32) -> bool
        ensures { result ≡ is_pending (row_at (router_at self.now end) id) request method }
    {
        self.table.is_asked(end, id, request, method)
    }

    /// The number that the next request of the endpoint of an id at an end gets.
    pub fn next_request(&self, end: EndId, id: u32) -> u64
        ensures { result ≡ next_number (row_at (router_at self.now end) id) }
    {
        self.table.next_request(end, id)
    }

    /// Enters an endpoint under an id that the end has none of. Without memory nothing changes.
    pub fn enter(
        &mut self,
        alloc: Global,
        end: EndId,
        id: u32,
        endpoint: Endpoint,
    ) -> Result<(), AllocError>
        requires { row_at (router_at self.old end) id ≡ None }
        ensures ok { OnOk result (EntersAt endpoint end id self.old self.new) }
        ensures err { OnErr result ((x : end_id) → router_at self.new x ≡ router_at self.old x) }
    {
        self.table.enter(alloc, end, id, endpoint)
    }

    /// Makes a place for the next request of the endpoint of an id at an end.
    pub fn reserve_draw(&mut self, end: EndId, id: u32) -> Result<(), AllocError>
        requires { IsSome (row_at (router_at self.old end) id) }
        ensures same { (x : end_id) → IsSame (router_at self.old x) (router_at self.new x) }
        ensures room { OnOk result (IsTrue (can_draw (router_at self.new end) id)) }
    {
        self.table.reserve_draw(end, id)
    }

    /// The id that an end makes next.
    pub fn next_id(&self, end: EndId) -> u32
        requires { (router_at self.now end).drawn < MAX_EVENTS }
        ensures { result ≡ own_id (router_at self.now end) }
    {
        self.table.next_id(end)
    }

    /// Makes a place for the row of an id at an end, which has an endpoint 0.
    pub fn reserve(&mut self, end: EndId, id: u32) -> Result<(), AllocError>
        requires { IsSome (row_at (router_at self.old end) 0) }
        ensures same { (x : end_id) → IsSame (router_at self.old x) (router_at self.new x) }
        ensures room { OnOk result (IsTrue (has_place (router_at self.new end) id)) }
    {
        self.table.reserve(end, id)
    }

    /// Enters an endpoint under the next id that an end makes.
    pub fn associate(&mut self, alloc: Global, end: EndId, endpoint: Endpoint)
        requires { CanAssociate (router_at self.old end) }
        ensures { AssociatesAt endpoint end self.old self.new }
    {
        self.table.associate(alloc, end, endpoint);
    }

    /// Has the endpoint of an id at an end turn so.
    pub fn turn(&mut self, end: EndId, id: u32, turn: Turn)
        requires { CanTurn (router_at self.old end) id turn }
        ensures { TurnsAt (turn_of turn) end id self.old self.new }
    {
        self.table.turn(end, id, turn);
    }

    /// Makes a place for each of these at an end, which has an endpoint 0.
    pub fn place_all(&mut self, end: EndId, entries: &[Entering]) -> Result<(), AllocError>
        requires { IsSome (row_at (router_at self.old end) 0) }
        ensures same { (x : end_id) → IsSame (router_at self.old x) (router_at self.new x) }
        ensures places { OnOk result (ArePlaced (router_at self.new end) entries.now) }
    {
        place_all(&mut self.table, end, entries)
    }

    /// Enters these at an end, where there are places for them.
    pub fn enter_all(&mut self, alloc: Global, end: EndId, entries: &[Entering])
        requires { AreNew (router_at self.old end) entries.now }
        ensures { AllEnterAt entries.now end self.old self.new }
    {
        enter_all(alloc, &mut self.table, end, entries);
    }
}
