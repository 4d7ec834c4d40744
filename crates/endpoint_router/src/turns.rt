//! What becomes of one endpoint of an end.

ghost use Rattle.std.specs.Prelude.{true};
ghost use Rattle.endpoint_router.specs.Turns.{CanTurn, TurnsIf, turn_of};

use crate::router::Router;
use mj_base::SeqId;

/// What becomes of an endpoint.
#[derive(Clone, Copy)]
pub enum Turn {
    /// It is bound on a sequence.
    Attached(SeqId),
    /// It is closed.
    Closed,
    /// Its peer endpoint is closed.
    PeerClosed,
    /// A request of this method was sent from it, whose response it waits for.
    Sent(u32),
    /// The response to its request of this number came.
    Answered(u64),
}

/// Has the endpoint of an id turn so.
pub(crate) fn turn_one(router: &mut Router, id: u32, turn: Turn)
    requires { CanTurn router.old id turn }
    ensures { TurnsIf (turn_of turn) id true router.old router.new }
{
    match turn {
        Turn::Attached(seq) => router.attach(id, seq),
        Turn::Closed => router.detach(id),
        Turn::PeerClosed => router.peer_closed(id),
        Turn::Sent(method) => {
            let _request = router.draw(id, method);
        }
        Turn::Answered(request) => router.end_request(id, request),
    }
}
