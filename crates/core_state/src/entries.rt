//! Endpoints that enter the table of an end with a message.

ghost use Rattle.std.specs.Prelude.{◌≡◌, IsSome, OnOk};
ghost use Rattle.endpoint_router.specs.Rows.{row_at};
ghost use Rattle.core_state.specs.Entries.{AllEnterAt, AreNew, ArePlaced};
ghost use Rattle.core_state.specs.Routers.{router_at};
ghost use Rattle.core_state.specs.steps.Same.{AllSame};

use bind_model::Endpoint;
use endpoint_router::{EndpointTable, Endpoints};
use mj_base::EndId;
use std::alloc::{AllocError, Global};
use std::marker::Model;

/// An id, and the endpoint that enters under it. Contracts see it as the machine's rules have it.
#[derive(Drop)]
pub struct Entering {
    id: u32,
    endpoint: Endpoint,
}

impl Model for Entering {
    ghost use Rattle.bind_model.specs.Machine.{Entry};

    ghost Value = { Entry };

    ghost view = { λ entering. record { id = entering.id; endpoint = entering.endpoint } };
}

impl Entering {
    /// The endpoint that enters under an id.
    pub fn new(id: u32, endpoint: Endpoint) -> Entering
        ensures { result ≡ record { id = id; endpoint = endpoint } }
    {
        Entering { id, endpoint }
    }

    /// Its id.
    pub fn id(&self) -> u32
        ensures { result ≡ self.now.id }
    {
        self.id
    }

    /// The endpoint.
    pub fn endpoint(&self) -> Endpoint
        ensures { result ≡ self.now.endpoint }
    {
        self.endpoint
    }
}

/// Makes a place for each of these at an end, which has an endpoint 0.
pub(crate) fn place_all(
    table: &mut EndpointTable,
    end: EndId,
    entries: &[Entering],
) -> Result<(), AllocError>
    requires { IsSome (row_at (router_at table.old end) 0) }
    ensures same { AllSame table.old table.new }
    ensures places { OnOk result (ArePlaced (router_at table.new end) entries.now) }
{
    for entry in entries {
        table.reserve(end, entry.id())?;
    }
    Ok(())
}

/// Enters these at an end, where there are places for them.
pub(crate) fn enter_all(alloc: Global, table: &mut EndpointTable, end: EndId, entries: &[Entering])
    requires { AreNew (router_at table.old end) entries.now }
    ensures { AllEnterAt entries.now end table.old table.new }
{
    for entry in entries {
        table.put(alloc, end, entry.id(), entry.endpoint());
    }
}
