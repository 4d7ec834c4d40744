//! What keeps the endpoints of all ends.

ghost use Rattle.std.specs.Prelude.{◌≡◌, ◌<◌, None, IsSome, IsTrue, OnOk, OnErr};
ghost use Rattle.mj_base.specs.declared.ids.EndId.{EndId as end_id};
ghost use Rattle.mj_base.specs.declared.limits.TheConstants.{MAX_EVENTS};
ghost use Rattle.handle_table.specs.Things.{same_end};
ghost use Rattle.endpoint_router.specs.Rows.{Contents, can_draw, endpoints_of, has_place, is_pending, next_number, own_id, row_at};
ghost use Rattle.endpoint_router.specs.Turns.{AssociatesIf, CanAssociate, CanTurn, EntersIf, IsSame, PlacesStay, TurnsIf, turn_of};

use crate::turns::Turn;
use bind_model::Endpoint;
use mj_base::EndId;
use std::alloc::{AllocError, Global};

/// Keeps the endpoints of all ends, and the requests that were sent from these. Contracts see for each end what its
/// router says.
pub trait Endpoints {
    ghost router: { Self → end_id → Contents };

    /// The endpoint of an id at an end; none exactly where the id isn't there.
    fn find(&self, end: EndId, id: u32) -> Option<Endpoint>
        ensures { result ≡ endpoints_of (router self.now end) id };

    /// Whether a request of this method waits at the endpoint of an id at an end. None does where the peer
    /// endpoint is known to be closed, or the endpoint itself is.
    fn is_asked(&self, end: EndId, id: u32, request: u64, method: u32) -> bool
        ensures { result ≡ is_pending (row_at (router self.now end) id) request method };

    /// The number that the next request of the endpoint of an id at an end gets.
    fn next_request(&self, end: EndId, id: u32) -> u64
        ensures { result ≡ next_number (row_at (router self.now end) id) };

    /// The id that an end makes next.
    fn next_id(&self, end: EndId) -> u32
        requires { (router self.now end).drawn < MAX_EVENTS }
        ensures { result ≡ own_id (router self.now end) };

    /// Enters an endpoint under an id that the end has none of. Without memory nothing changes.
    fn enter(
        &mut self,
        alloc: Global,
        end: EndId,
        id: u32,
        endpoint: Endpoint,
    ) -> Result<(), AllocError>
        requires { row_at (router self.old end) id ≡ None }
        ensures ok { OnOk result ((x : end_id) → EntersIf endpoint id (same_end end x) (router self.old x) (router self.new x)) }
        ensures err { OnErr result ((x : end_id) → router self.new x ≡ router self.old x) };

    /// Makes a place for the row of an id at an end, which has an endpoint 0.
    fn reserve(&mut self, end: EndId, id: u32) -> Result<(), AllocError>
        requires { IsSome (row_at (router self.old end) 0) }
        ensures same { (x : end_id) → IsSame (router self.old x) (router self.new x) }
        ensures stay { PlacesStay (router self.old end) (router self.new end) }
        ensures there { OnOk result (IsTrue (has_place (router self.new end) id)) };

    /// Puts an endpoint in the place of an id at an end, which has no row yet.
    fn put(&mut self, alloc: Global, end: EndId, id: u32, endpoint: Endpoint)
        requires absent { row_at (router self.old end) id ≡ None }
        requires place { IsTrue (has_place (router self.old end) id) }
        ensures enters { (x : end_id) → EntersIf endpoint id (same_end end x) (router self.old x) (router self.new x) }
        ensures stay { PlacesStay (router self.old end) (router self.new end) };

    /// Enters an endpoint under the next id that an end makes.
    fn associate(&mut self, alloc: Global, end: EndId, endpoint: Endpoint)
        requires { CanAssociate (router self.old end) }
        ensures { (x : end_id) → AssociatesIf endpoint (same_end end x) (router self.old x) (router self.new x) };

    /// Makes a place for the next request of the endpoint of an id at an end.
    fn reserve_draw(&mut self, end: EndId, id: u32) -> Result<(), AllocError>
        requires { IsSome (row_at (router self.old end) id) }
        ensures same { (x : end_id) → IsSame (router self.old x) (router self.new x) }
        ensures room { OnOk result (IsTrue (can_draw (router self.new end) id)) };

    /// Has the endpoint of an id at an end turn so.
    fn turn(&mut self, end: EndId, id: u32, turn: Turn)
        requires { CanTurn (router self.old end) id turn }
        ensures { (x : end_id) → TurnsIf (turn_of turn) id (same_end end x) (router self.old x) (router self.new x) };
}
