//! The ids that ends make, requests until they end, and endpoints until they are bound; and both forms of what keeps them for all ends.

ghost use Rattle.std.specs.Prelude.{◌≡◌, Some, IfOk};
ghost use Rattle.mj_base.specs.declared.ids.EndId.{EndId as end_id};
ghost use Rattle.endpoint_router.specs.Rows.{no_endpoints, row_at, row_of};

use bind_model::{Endpoint, State};
use endpoint_router::{EndpointTable, Endpoints, Router, Row, Turn, plain};
use mj_base::{EndId, SeqId};
use std::alloc::Global;
use std::process::Abort;
use std::test::Fail;
use wire_encoder::EndpointSide;

const ONLY: SeqId = SeqId(0);

/// A remote that is bound.
const REMOTE: Endpoint = Endpoint {
    side: EndpointSide::Remote,
    interface: 0,
    state: State::Bound(ONLY),
    peer_closed: false,
};

/// A receiver that is bound.
const RECEIVER: Endpoint = Endpoint {
    side: EndpointSide::Receiver,
    interface: 0,
    state: State::Bound(ONLY),
    peer_closed: false,
};

/// A receiver that nobody has bound yet.
const PENDING: Endpoint = Endpoint {
    side: EndpointSide::Receiver,
    interface: 0,
    state: State::Pending,
    peer_closed: false,
};

/// Requests by endpoint, number and method, and whether they wait where the first two were sent.
const WANTS: [(u32, u64, u32, bool); 5] = [
    (0, 1, 7, true),
    (0, 2, 8, true),
    (0, 1, 8, false),
    (0, 3, 7, false),
    (1, 1, 7, false),
];

/// An end with this endpoint 0.
fn end_with(alloc: Global, endpoint: Endpoint) -> Result<Router, Fail>
    ensures row { IfOk result (λ router. row_at router 0 ≡ Some (row_of endpoint)) }
    ensures drawn { IfOk result (λ router. router.drawn ≡ 0) }
{
    let mut router = Router::new(alloc);
    router.reserve(0)?;
    router.enter(0, Row::new(alloc, endpoint));
    Ok(router)
}

/// The first ids that an end makes by itself, with this endpoint 0.
fn first_ids(alloc: Global, endpoint: Endpoint) -> Result<(u32, u32, u32), Fail> {
    let mut router = end_with(alloc, endpoint)?;
    let first = router.new_id();
    let second = router.new_id();
    Ok((first, second, router.next_id()))
}

#[test]
fn own_ids_are_numbered_by_side(rt: HostRuntime) -> Result<(), Fail> {
    let alloc = rt.alloc();
    assert_eq!(rt; first_ids(alloc, RECEIVER)?, (1, 2, 3));
    assert_eq!(rt;
        first_ids(alloc, REMOTE)?,
        (2_147_483_649, 2_147_483_650, 2_147_483_651)
    );
    Ok(())
}

/// What is said of endpoint 0, from which two requests were sent.
fn is_said(rt: &impl Abort, router: &Router) -> Result<(), Fail> {
    for (id, request, method, waits) in WANTS.as_slice() {
        assert_eq!(rt;
            router.answered(*id, *request, *method),
            *waits,
            "{id} {request} {method}"
        );
    }
    let Some(row) = router.row(0) else {
        return Err(Fail::new("no row"));
    };
    assert!(rt; row.endpoint() == REMOTE && row.next_request() == 3);
    assert!(rt; row.is_pending(1, 7) && !row.is_pending(1, 8));
    assert!(rt; router.endpoint(0) == Some(REMOTE) && router.endpoint(1).is_none());
    Ok(())
}

#[test]
fn a_request_waits_until_it_ends(rt: HostRuntime) -> Result<(), Fail> {
    let mut router = end_with(rt.alloc(), REMOTE)?;
    router.reserve_draw(0)?;
    assert_eq!(rt; router.draw(0, 7), 1);
    router.reserve_draw(0)?;
    assert_eq!(rt; router.draw(0, 8), 2);
    is_said(&rt, &router)?;
    router.end_request(0, 1);
    assert!(rt; !router.answered(0, 1, 7) && router.answered(0, 2, 8));
    router.peer_closed(0);
    assert!(rt; !router.answered(0, 2, 8));
    Ok(())
}

#[test]
fn an_endpoint_waits_until_it_is_attached(rt: HostRuntime) -> Result<(), Fail> {
    let alloc = rt.alloc();
    let mut router = Router::new(alloc);
    router.reserve(1)?;
    router.enter(1, Row::new(alloc, PENDING));
    router.attach(1, ONLY);
    assert!(rt; router.endpoint(1) == Some(RECEIVER));
    router.detach(1);
    Ok(())
}

/// The end whose endpoint 0 is entered.
const NEAR: EndId = EndId { seq: 0, serial: 1 };

/// Ends and ids at which two forms are compared.
const ASKED: [(EndId, u32); 4] = [
    (NEAR, 0),
    (NEAR, 1),
    (EndId { seq: 0, serial: 0 }, 0),
    (EndId { seq: 1, serial: 1 }, 0),
];

/// Whether the endpoint is there where it is asked for, and whether two forms say the same.
fn say_the_same<A: Endpoints, B: Endpoints>(
    rt: &impl Abort,
    first: &A,
    second: &B,
) -> Result<(), Fail> {
    for (end, id) in ASKED.as_slice() {
        assert!(rt; first.find(*end, *id) == second.find(*end, *id));
        assert_eq!(rt;
            first.next_request(*end, *id),
            second.next_request(*end, *id)
        );
        assert!(rt; first.is_asked(*end, *id, 1, 7) == second.is_asked(*end, *id, 1, 7));
    }
    assert!(rt; first.find(NEAR, 0) == Some(REMOTE) && first.find(NEAR, 1).is_none());
    Ok(())
}

#[test]
fn the_table_says_what_its_plain_form_says(rt: HostRuntime) -> Result<(), Fail> {
    let alloc = rt.alloc();
    let mut table = EndpointTable::new(alloc);
    let mut routers = plain::Routers::new(alloc);
    table.enter(alloc, NEAR, 0, REMOTE)?;
    routers.enter(alloc, NEAR, 0, REMOTE)?;
    say_the_same(&rt, &table, &routers)?;
    table.turn(NEAR, 1, Turn::Answered(1));
    routers.turn(NEAR, 1, Turn::Answered(1));
    say_the_same(&rt, &table, &routers)
}

/// Has an end without endpoints get endpoint 0, then another in a place that was made for it, and a place for the
/// first request of this.
fn put_one<T: Endpoints>(alloc: Global, table: &mut T, end: EndId) -> Result<(), Fail>
    requires { (x : end_id) → T.router table.old x ≡ no_endpoints }
{
    table.enter(alloc, end, 0, REMOTE)?;
    table.reserve(end, 1)?;
    table.put(alloc, end, 1, RECEIVER);
    table.reserve_draw(end, 1)?;
    Ok(())
}

/// Has an end without endpoints get endpoint 0, then another under the next id that the end makes, which it tells.
fn associate_one<T: Endpoints>(alloc: Global, table: &mut T, end: EndId) -> Result<u32, Fail>
    requires { (x : end_id) → T.router table.old x ≡ no_endpoints }
{
    table.enter(alloc, end, 0, REMOTE)?;
    let id = table.next_id(end);
    table.reserve(end, id)?;
    table.associate(alloc, end, RECEIVER);
    Ok(id)
}

#[test]
fn the_table_has_places(rt: HostRuntime) -> Result<(), Fail> {
    let alloc = rt.alloc();
    let mut first = EndpointTable::new(alloc);
    put_one(alloc, &mut first, NEAR)?;
    assert!(rt; first.find(NEAR, 1) == Some(RECEIVER));
    assert_eq!(rt; first.next_request(NEAR, 1), 1);
    let mut second = EndpointTable::new(alloc);
    let id = associate_one(alloc, &mut second, NEAR)?;
    assert_eq!(rt; id, 2_147_483_649);
    assert!(rt; second.find(NEAR, id) == Some(RECEIVER));
    Ok(())
}

#[test]
fn the_plain_form_has_places(rt: HostRuntime) -> Result<(), Fail> {
    let alloc = rt.alloc();
    let mut first = plain::Routers::new(alloc);
    put_one(alloc, &mut first, NEAR)?;
    assert!(rt; first.find(NEAR, 1) == Some(RECEIVER));
    assert_eq!(rt; first.next_request(NEAR, 1), 1);
    let mut second = plain::Routers::new(alloc);
    let id = associate_one(alloc, &mut second, NEAR)?;
    assert_eq!(rt; id, 2_147_483_649);
    assert!(rt; second.find(NEAR, id) == Some(RECEIVER));
    Ok(())
}
