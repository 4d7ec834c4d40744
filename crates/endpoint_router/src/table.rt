//! The endpoints of all ends in one slab.

ghost use Rattle.std.specs.Prelude.{◌≡◌};
ghost use Rattle.endpoint_router.specs.Table.{no_ends, router_of};

use crate::draws::Draws;
use crate::endpoints::Endpoints;
use crate::index::Index;
use crate::row::Row;
use crate::slot::Placed;
use crate::slots;
use crate::turns::Turn;
use bind_model::Endpoint;
use mj_base::EndId;
use slab::Slab;
use std::alloc::{AllocError, Global};
use std::marker::Model;

/// The endpoints of all ends in one slab, with an index of their names in order, and how many ids each end drew.
/// Contracts see the rows by their names; a name without a row may have a place.
#[derive(Drop)]
pub struct EndpointTable {
    // No slot is ever emptied: a closed endpoint keeps its row, and with it its key.
    rows: Slab<Placed>,
    index: Index,
    drawn: Draws,
}

impl Model for EndpointTable {
    ghost use Rattle.endpoint_router.specs.Table.{Table};

    ghost Value = { Table };

    ghost use Rattle.endpoint_router.specs.Slots.{IsIndexed, table_in};

    ghost view = { λ table. table_in table.index table.rows.slots table.drawn };

    ghost invariant = { λ table. IsIndexed table.index table.rows.slots table.drawn };
}

impl EndpointTable {
    /// No endpoints, and no ids drawn. Takes no memory.
    pub fn new(alloc: Global) -> EndpointTable
        ensures { result ≡ no_ends }
    {
        let rows: Slab<Placed> = Slab::new(alloc);
        let index = Index::new(alloc);
        let drawn = Draws::new(alloc);
        EndpointTable { rows, index, drawn }
    }
}

impl Endpoints for EndpointTable {
    ghost router = { router_of };

    fn find(&self, end: EndId, id: u32) -> Option<Endpoint> {
        slots::find(&self.index, &self.rows, end, id)
    }

    fn is_asked(&self, end: EndId, id: u32, request: u64, method: u32) -> bool {
        slots::is_asked(&self.index, &self.rows, end, id, request, method)
    }

    fn next_request(&self, end: EndId, id: u32) -> u64 {
        slots::next_request(&self.index, &self.rows, end, id)
    }

    fn next_id(&self, end: EndId) -> u32 {
        slots::next_id(&self.index, &self.rows, &self.drawn, end)
    }

    fn enter(
        &mut self,
        alloc: Global,
        end: EndId,
        id: u32,
        endpoint: Endpoint,
    ) -> Result<(), AllocError> {
        let row = Row::new(alloc, endpoint);
        slots::enter(
            &mut self.index,
            &mut self.rows,
            &mut self.drawn,
            end,
            id,
            row,
        )
    }

    fn reserve(&mut self, end: EndId, id: u32) -> Result<(), AllocError> {
        slots::reserve(&mut self.index, &mut self.rows, &mut self.drawn, end, id)
    }

    fn put(&mut self, alloc: Global, end: EndId, id: u32, endpoint: Endpoint) {
        let row = Row::new(alloc, endpoint);
        slots::put(&self.index, &mut self.rows, end, id, row);
    }

    fn associate(&mut self, alloc: Global, end: EndId, endpoint: Endpoint) {
        let row = Row::new(alloc, endpoint);
        slots::associate(&self.index, &mut self.rows, &mut self.drawn, end, row);
    }

    fn reserve_draw(&mut self, end: EndId, id: u32) -> Result<(), AllocError> {
        slots::reserve_draw(&self.index, &mut self.rows, end, id)
    }

    fn turn(&mut self, end: EndId, id: u32, turn: Turn) {
        slots::turn(&self.index, &mut self.rows, end, id, turn);
    }
}
