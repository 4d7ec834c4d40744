//! The endpoints of all ends in their plain form: for each end a router of its own.

ghost use Rattle.std.specs.Prelude.{◌≡◌, [], true, None, OnOk, OnErr};
ghost use Rattle.std.specs.Option.{option_copied};
ghost use Rattle.std.specs.Map.{lookup};
ghost use Rattle.mj_base.specs.declared.ids.EndId.{EndId as end_id};
ghost use Rattle.handle_table.specs.Things.{same_end};
ghost use Rattle.endpoint_router.specs.Plain.{has_router, router_in};
ghost use Rattle.endpoint_router.specs.Rows.{row_at};
ghost use Rattle.endpoint_router.specs.Turns.{EntersIf};

use crate::endpoints::Endpoints;
use crate::router::{Router, associate_one, enter_one};
use crate::row::Row;
use crate::turns::{Turn, turn_one};
use bind_model::Endpoint;
use mj_base::EndId;
use std::alloc::{AllocError, Global};
use std::collections::BTreeMap;
use std::marker::Model;

/// For each end its router; one without endpoints may have none.
#[derive(Drop)]
pub struct Routers {
    routers: BTreeMap<EndId, Router>,
}

impl Model for Routers {
    ghost use Rattle.std.specs.Prelude.{List};
    ghost use Rattle.mj_base.specs.declared.ids.EndId.{EndId};
    ghost use Rattle.endpoint_router.specs.Rows.{Contents};

    ghost Value = { List (EndId × Contents) };

    ghost view = { λ all. all.routers.entries };
}

impl Routers {
    /// No endpoints. Takes no memory.
    pub fn new(alloc: Global) -> Routers
        ensures { result ≡ [] }
    {
        Routers {
            routers: BTreeMap::new(alloc),
        }
    }

    /// The router of an end, where it has one.
    fn router(&self, end: EndId) -> Option<&Router>
        ensures { option_copied result ≡ lookup (same_end end) self.now }
    {
        self.routers.get(&end)
    }

    /// Whether an end has a router.
    fn has_router(&self, end: EndId) -> bool
        ensures { result ≡ has_router self.now end }
    {
        self.router(end).is_some()
    }

    /// Makes a router for an end.
    fn place(&mut self, alloc: Global, end: EndId) -> Result<(), AllocError>
        ensures same { (x : end_id) → router_in self.new x ≡ router_in self.old x }
        ensures there { OnOk result (has_router self.new end ≡ true) }
    {
        if self.has_router(end) {
            return Ok(());
        }
        self.routers.insert(end, Router::new(alloc))?;
        Ok(())
    }

    /// Enters an endpoint at an end that has a router. Without memory nothing changes.
    fn enter_in(
        &mut self,
        alloc: Global,
        end: EndId,
        id: u32,
        endpoint: Endpoint,
    ) -> Result<(), AllocError>
        requires there { has_router self.old end ≡ true }
        requires absent { row_at (router_in self.old end) id ≡ None }
        ensures ok { OnOk result ((x : end_id) → EntersIf endpoint id (same_end end x) (router_in self.old x) (router_in self.new x)) }
        ensures err { OnErr result ((x : end_id) → router_in self.new x ≡ router_in self.old x) }
    {
        match self.routers.get_mut(&end) {
            Some(router) => enter_one(alloc, router, id, endpoint),
            None => Ok(()),
        }
    }
}

impl Endpoints for Routers {
    ghost router = { router_in };

    fn find(&self, end: EndId, id: u32) -> Option<Endpoint> {
        match self.router(end) {
            Some(router) => router.endpoint(id),
            None => None,
        }
    }

    fn is_asked(&self, end: EndId, id: u32, request: u64, method: u32) -> bool {
        match self.router(end) {
            Some(router) => router.answered(id, request, method),
            None => false,
        }
    }

    fn next_request(&self, end: EndId, id: u32) -> u64 {
        match self.router(end) {
            Some(router) => router.next_request(id),
            None => 0,
        }
    }

    fn next_id(&self, end: EndId) -> u32 {
        match self.router(end) {
            Some(router) => router.next_id(),
            None => 1,
        }
    }

    fn enter(
        &mut self,
        alloc: Global,
        end: EndId,
        id: u32,
        endpoint: Endpoint,
    ) -> Result<(), AllocError> {
        self.place(alloc, end)?;
        self.enter_in(alloc, end, id, endpoint)
    }

    fn reserve(&mut self, end: EndId, id: u32) -> Result<(), AllocError> {
        match self.routers.get_mut(&end) {
            Some(router) => router.reserve(id),
            None => Ok(()),
        }
    }

    fn put(&mut self, alloc: Global, end: EndId, id: u32, endpoint: Endpoint) {
        if let Some(router) = self.routers.get_mut(&end) {
            router.enter(id, Row::new(alloc, endpoint));
        }
    }

    fn associate(&mut self, alloc: Global, end: EndId, endpoint: Endpoint) {
        if let Some(router) = self.routers.get_mut(&end) {
            associate_one(alloc, router, endpoint);
        }
    }

    fn reserve_draw(&mut self, end: EndId, id: u32) -> Result<(), AllocError> {
        match self.routers.get_mut(&end) {
            Some(router) => router.reserve_draw(id),
            None => Ok(()),
        }
    }

    fn turn(&mut self, end: EndId, id: u32, turn: Turn) {
        if let Some(router) = self.routers.get_mut(&end) {
            turn_one(router, id, turn);
        }
    }
}
