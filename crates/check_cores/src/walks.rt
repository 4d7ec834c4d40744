//! The walks.

use crate::moves::{Method, Move, Turn, Walk};
use bind_model::Notice::{Flush, Query, Require};
use bind_model::PendingId;
use handle_table::{Thing, TokenId};
use mj_base::EndId;
use wire_encoder::EndpointSide::{Receiver, Remote};

/// The definitions that all are over.
pub const DEFINITIONS: &str = "module t;
interface P {
  Note(uint32 n);
  Ask(uint32 n) => (uint32 m);
  Lend(pending_associated_remote<P> r);
  Host(pending_associated_receiver<P> r);
  Open(uint32 n) => (pending_associated_remote<P> r);
  Give(handle h, pending_associated_remote<P> r);
};
interface Q { Tell(uint32 n); };
interface R { Ring(uint32 n, [MinVersion=2] string? t); };
";

/// The two ends of the first pipe, and those of the second.
const A: EndId = EndId { seq: 0, serial: 0 };

const B: EndId = EndId { seq: 1, serial: 0 };

const X: EndId = EndId { seq: 0, serial: 1 };

const Y: EndId = EndId { seq: 0, serial: 2 };

/// The first two ids that A makes, where its endpoint 0 is a remote.
const A1: u32 = 2_147_483_649;

const A2: u32 = 2_147_483_650;

/// The other halves of endpoints that A and B made, and the same as they come to the peer.
const FIRST_OF_A: PendingId = PendingId { end: A, id: A1 };

const SECOND_OF_A: PendingId = PendingId { end: A, id: A2 };

const FIRST_OF_B: PendingId = PendingId { end: B, id: 1 };

const FIRST_AT_A: PendingId = PendingId { end: A, id: 1 };

const FIRST_AT_B: PendingId = PendingId { end: B, id: A1 };

const SECOND_AT_B: PendingId = PendingId { end: B, id: A2 };

/// The methods.
const NOTE: Method = Method(0, 0);

const ASK: Method = Method(0, 1);

const LEND: Method = Method(0, 2);

const HOST: Method = Method(0, 3);

const OPEN: Method = Method(0, 4);

const GIVE: Method = Method(0, 5);

const TELL: Method = Method(1, 0);

/// Endpoints of either end are made, sent, attached and closed.
const MADE: Walk = Walk {
    name: "endpoints are made",
    opening: &[
        Turn(0, Move::Join(1)),
        Turn(0, Move::Bind(Thing::End(A), Remote, 0)),
        Turn(1, Move::Bind(Thing::End(B), Receiver, 0)),
    ],
    alphabet: &[
        Turn(0, Move::Associate(A, Receiver, 0)),
        Turn(0, Move::Associate(A, Remote, 0)),
        Turn(1, Move::Associate(B, Remote, 0)),
        Turn(0, Move::Call(A, 0, LEND, &[], &[FIRST_OF_A])),
        Turn(0, Move::Call(A, 0, LEND, &[], &[SECOND_OF_A])),
        Turn(0, Move::Call(A, 0, HOST, &[], &[FIRST_OF_A])),
        Turn(0, Move::Call(A, A1, NOTE, &[], &[])),
        Turn(1, Move::Take(B)),
        Turn(0, Move::Take(A)),
        Turn(1, Move::Attach(FIRST_AT_B, 1)),
        Turn(0, Move::Attach(FIRST_OF_A, 0)),
        Turn(0, Move::ClosePending(FIRST_OF_A)),
        Turn(0, Move::CloseEndpoint(A, A1)),
        Turn(1, Move::CloseEndpoint(B, 0)),
    ],
    length: 4,
};

/// An endpoint was made by A and came to B, where it is a remote.
const LENT: Walk = Walk {
    name: "an endpoint was lent",
    opening: &[
        Turn(0, Move::Join(1)),
        Turn(0, Move::Bind(Thing::End(A), Remote, 0)),
        Turn(1, Move::Bind(Thing::End(B), Receiver, 0)),
        Turn(0, Move::Associate(A, Receiver, 0)),
        Turn(0, Move::Call(A, 0, LEND, &[], &[FIRST_OF_A])),
        Turn(1, Move::Take(B)),
    ],
    alphabet: &[
        Turn(1, Move::Attach(FIRST_AT_B, 1)),
        Turn(1, Move::Call(B, A1, NOTE, &[], &[])),
        Turn(1, Move::Call(B, A1, ASK, &[], &[])),
        Turn(0, Move::Take(A)),
        Turn(1, Move::Take(B)),
        Turn(0, Move::Answer(A, A1, 1, ASK, &[])),
        Turn(0, Move::CloseResponder(A, A1, 1)),
        Turn(1, Move::ClosePending(FIRST_AT_B)),
        Turn(0, Move::CloseEndpoint(A, A1)),
        Turn(1, Move::CloseEndpoint(B, A1)),
        Turn(0, Move::CloseEndpoint(A, 0)),
    ],
    length: 4,
};

/// Two sequences share the ends, and each asks for what may be the other's.
const SHARED: Walk = Walk {
    name: "two sequences",
    opening: &[
        Turn(0, Move::Join(1)),
        Turn(0, Move::Bind(Thing::End(A), Remote, 0)),
        Turn(1, Move::Bind(Thing::End(B), Receiver, 0)),
        Turn(0, Move::Associate(A, Remote, 0)),
        Turn(0, Move::Call(A, 0, HOST, &[], &[FIRST_OF_A])),
        Turn(0, Move::Call(A, A1, NOTE, &[], &[])),
        Turn(1, Move::Take(B)),
    ],
    alphabet: &[
        Turn(0, Move::Attach(FIRST_AT_B, 0)),
        Turn(1, Move::Attach(FIRST_AT_B, 1)),
        Turn(1, Move::Attach(FIRST_AT_B, 2)),
        Turn(0, Move::Take(B)),
        Turn(1, Move::Take(B)),
        Turn(1, Move::Take(A)),
        Turn(0, Move::Call(A, A1, ASK, &[], &[])),
        Turn(1, Move::Call(A, A1, NOTE, &[], &[])),
        Turn(1, Move::Answer(B, A1, 1, ASK, &[])),
        Turn(0, Move::CloseEndpoint(B, A1)),
        Turn(1, Move::CloseEndpoint(B, A1)),
        Turn(0, Move::CloseEndpoint(A, A1)),
    ],
    length: 4,
};

/// A request is answered with an endpoint.
const ANSWERED: Walk = Walk {
    name: "answers with endpoints",
    opening: &[
        Turn(0, Move::Join(1)),
        Turn(0, Move::Bind(Thing::End(A), Remote, 0)),
        Turn(1, Move::Bind(Thing::End(B), Receiver, 0)),
        Turn(0, Move::Call(A, 0, OPEN, &[], &[])),
        Turn(1, Move::Take(B)),
    ],
    alphabet: &[
        Turn(1, Move::Associate(B, Receiver, 0)),
        Turn(1, Move::Associate(B, Receiver, 1)),
        Turn(0, Move::Associate(A, Receiver, 0)),
        Turn(1, Move::Answer(B, 0, 1, OPEN, &[FIRST_OF_B])),
        Turn(1, Move::Answer(B, 0, 1, OPEN, &[FIRST_OF_A])),
        Turn(1, Move::Answer(B, 0, 1, OPEN, &[])),
        Turn(1, Move::Answer(B, 0, 1, ASK, &[])),
        Turn(0, Move::Take(A)),
        Turn(0, Move::Attach(FIRST_AT_A, 0)),
        Turn(0, Move::Call(A, 1, ASK, &[], &[])),
        Turn(0, Move::ClosePending(FIRST_AT_A)),
        Turn(1, Move::CloseEndpoint(B, 1)),
        Turn(1, Move::Take(B)),
    ],
    length: 4,
};

/// Messages of Note to endpoint 0 and to an associated one.
const RAW_NOTE: &[u32] = &[24, 0, 0, 0, 0, 0, 16, 0, 7, 0];

const RAW_NOTE_TO_FIRST: &[u32] = &[24, 0, A1, 0, 0, 0, 16, 0, 7, 0];

/// A response to request 1 of Ask.
const RAW_ASKED: &[u32] = &[32, 1, 0, 1, 2, 0, 1, 0, 16, 0, 7, 0];

/// A response to request 1 of Ask from an associated endpoint.
const RAW_ASKED_FIRST: &[u32] = &[32, 1, A1, 1, 2, 0, 1, 0, 16, 0, 7, 0];

/// A message whose header is too short.
const RAW_SHORT: &[u32] = &[8, 0];

/// A message of Note that isn't all there.
const RAW_CUT: &[u32] = &[24, 0, 0, 0, 0, 0, 16, 0];

/// The control of the first endpoint of A, and one that asks for its version.
const RAW_CONTROL: &[u32] = &[24, 0, u32::MAX, 0, 0, 0, 16, 0, 1, A1];

const RAW_ASKING: &[u32] = &[24, 0, u32::MAX, 0, 0, 0, 16, 0, 2, A1];

/// A message of Lend with an id, with two of which it names the second, with one id twice, and with one that the
/// reader would make.
const RAW_LEND: &[u32] = &[
    48, 2, 0, 2, 0, 0, 0, 0, 16, 0, 24, 0, 16, 0, 0, 0, 12, 1, A1, 0,
];

const RAW_LEND_SECOND: &[u32] = &[
    48, 2, 0, 2, 0, 0, 0, 0, 16, 0, 24, 0, 16, 0, 1, 0, 16, 2, A1, A2,
];

const RAW_LEND_TWICE: &[u32] = &[
    48, 2, 0, 2, 0, 0, 0, 0, 16, 0, 24, 0, 16, 0, 1, 0, 16, 2, A1, A1,
];

const RAW_LEND_OWN: &[u32] = &[
    48, 2, 0, 2, 0, 0, 0, 0, 16, 0, 24, 0, 16, 0, 0, 0, 12, 1, 1, 0,
];

/// A message of Note to an endpoint that isn't there, with four ids of which two are strange.
const RAW_LOST: &[u32] = &[
    48, 2, 9, 0, 0, 0, 0, 0, 16, 0, 24, 0, 16, 0, 7, 0, 24, 4, A1, 1, A1, A2,
];

/// All messages are written raw by A. B is a receiver.
const RAW: Walk = Walk {
    name: "raw messages",
    opening: &[
        Turn(0, Move::Join(1)),
        Turn(0, Move::Join(0)),
        Turn(1, Move::Bind(Thing::End(B), Receiver, 0)),
    ],
    alphabet: &[
        Turn(0, Move::Raw(Thing::End(A), RAW_NOTE, &[])),
        Turn(
            0,
            Move::Raw(Thing::End(A), RAW_NOTE_TO_FIRST, &[Thing::End(X)]),
        ),
        Turn(0, Move::Raw(Thing::End(A), RAW_SHORT, &[Thing::End(Y)])),
        Turn(0, Move::Raw(Thing::End(A), RAW_CUT, &[])),
        Turn(0, Move::Raw(Thing::End(A), RAW_CONTROL, &[])),
        Turn(0, Move::Raw(Thing::End(A), RAW_CONTROL, &[Thing::End(X)])),
        Turn(0, Move::Raw(Thing::End(A), RAW_ASKING, &[])),
        Turn(0, Move::Raw(Thing::End(A), RAW_LEND, &[])),
        Turn(
            0,
            Move::Raw(Thing::End(A), RAW_LEND_SECOND, &[Thing::End(Y)]),
        ),
        Turn(0, Move::Raw(Thing::End(A), RAW_LEND_TWICE, &[])),
        Turn(0, Move::Raw(Thing::End(A), RAW_LEND_OWN, &[])),
        Turn(0, Move::Raw(Thing::End(A), RAW_LOST, &[Thing::End(X)])),
        Turn(0, Move::Raw(Thing::End(X), RAW_NOTE, &[Thing::End(Y)])),
        Turn(1, Move::Take(B)),
        Turn(1, Move::Attach(FIRST_AT_B, 1)),
        Turn(1, Move::ClosePending(FIRST_AT_B)),
        Turn(1, Move::CloseEndpoint(B, A1)),
    ],
    length: 3,
};

/// What ids that came raw leave, and what controls do.
const CLOSED: Walk = Walk {
    name: "ids that came raw",
    opening: &[
        Turn(0, Move::Join(1)),
        Turn(0, Move::Join(0)),
        Turn(1, Move::Bind(Thing::End(B), Receiver, 0)),
        Turn(
            0,
            Move::Raw(Thing::End(A), RAW_LEND_SECOND, &[Thing::End(Y)]),
        ),
        Turn(1, Move::Take(B)),
    ],
    alphabet: &[
        Turn(
            0,
            Move::Raw(Thing::End(A), RAW_NOTE_TO_FIRST, &[Thing::End(X)]),
        ),
        Turn(0, Move::Raw(Thing::End(A), RAW_CONTROL, &[])),
        Turn(0, Move::Raw(Thing::End(A), RAW_LEND, &[])),
        Turn(1, Move::Take(B)),
        Turn(1, Move::Attach(SECOND_AT_B, 1)),
        Turn(1, Move::ClosePending(SECOND_AT_B)),
        Turn(1, Move::Call(B, A2, ASK, &[], &[])),
        Turn(1, Move::Associate(B, Remote, 0)),
        Turn(0, Move::Bind(Thing::End(A), Remote, 0)),
        Turn(0, Move::Take(A)),
        Turn(1, Move::CloseEndpoint(B, A2)),
        Turn(0, Move::CloseEndpoint(A, 0)),
        Turn(0, Move::CloseHandle(Thing::End(A))),
    ],
    length: 4,
};

/// A is a remote whose peer writes raw: responses and controls.
const WAITED: Walk = Walk {
    name: "raw responses",
    opening: &[
        Turn(0, Move::Join(1)),
        Turn(0, Move::Join(0)),
        Turn(0, Move::Bind(Thing::End(A), Remote, 0)),
        Turn(0, Move::Associate(A, Remote, 0)),
    ],
    alphabet: &[
        Turn(0, Move::Call(A, 0, ASK, &[], &[])),
        Turn(0, Move::Call(A, A1, ASK, &[], &[])),
        Turn(0, Move::Call(A, 0, GIVE, &[Thing::End(X)], &[FIRST_OF_A])),
        Turn(0, Move::Call(A, 0, TELL, &[], &[])),
        Turn(1, Move::Raw(Thing::End(B), RAW_ASKED, &[])),
        Turn(1, Move::Raw(Thing::End(B), RAW_ASKED_FIRST, &[])),
        Turn(1, Move::Raw(Thing::End(B), RAW_CONTROL, &[])),
        Turn(0, Move::Take(A)),
        Turn(0, Move::ClosePending(FIRST_OF_A)),
        Turn(0, Move::CloseEndpoint(A, A1)),
        Turn(1, Move::CloseHandle(Thing::End(B))),
    ],
    length: 4,
};

/// The version at endpoint 0 is asked for, told, required; and the first flush.
const RAW_QUERY: &[u32] = &[24, 0, u32::MAX, 0, 0, 0, 16, 0, 2, 0];

const RAW_VERSION: &[u32] = &[24, 0, u32::MAX, 0, 0, 0, 24, 0, 3, 0, 5, 0];

const RAW_REQUIRE: &[u32] = &[24, 0, u32::MAX, 0, 0, 0, 24, 0, 4, 0, 3, 0];

const RAW_FLUSH: &[u32] = &[24, 0, u32::MAX, 0, 0, 0, 16, 0, 5, 1];

/// Versions of the receiver at endpoint 0, and flushes of both ends.
const NOTED: Walk = Walk {
    name: "versions and flushes",
    opening: &[
        Turn(0, Move::Join(1)),
        Turn(0, Move::Bind(Thing::End(A), Remote, 2)),
        Turn(1, Move::Bind(Thing::End(B), Receiver, 2)),
    ],
    alphabet: &[
        Turn(0, Move::Notify(A, Query(0))),
        Turn(0, Move::Notify(A, Query(A1))),
        Turn(0, Move::Notify(A, Require(0, 2))),
        Turn(0, Move::Notify(A, Require(0, 3))),
        Turn(0, Move::Notify(A, Flush)),
        Turn(1, Move::Notify(A, Flush)),
        Turn(1, Move::Notify(B, Query(0))),
        Turn(1, Move::Notify(B, Flush)),
        Turn(1, Move::Take(B)),
        Turn(0, Move::Take(A)),
        Turn(0, Move::CloseEndpoint(A, 0)),
        Turn(1, Move::CloseEndpoint(B, 0)),
    ],
    length: 4,
};

/// Versions of an endpoint that was lent, whose ends are closed, and calls with a moment.
const ASKED: Walk = Walk {
    name: "versions of what was lent",
    opening: &[
        Turn(0, Move::Join(1)),
        Turn(0, Move::Bind(Thing::End(A), Remote, 0)),
        Turn(1, Move::Bind(Thing::End(B), Receiver, 0)),
        Turn(0, Move::Associate(A, Receiver, 0)),
        Turn(0, Move::Call(A, 0, LEND, &[], &[FIRST_OF_A])),
        Turn(1, Move::Take(B)),
    ],
    alphabet: &[
        Turn(1, Move::Attach(FIRST_AT_B, 1)),
        Turn(1, Move::Notify(B, Query(A1))),
        Turn(1, Move::Notify(B, Require(A1, 1))),
        Turn(1, Move::Notify(B, Flush)),
        Turn(0, Move::Notify(A, Query(A1))),
        Turn(1, Move::CallAt(B, A1, ASK, -1)),
        Turn(0, Move::CallAt(A, 0, NOTE, 7)),
        Turn(0, Move::Take(A)),
        Turn(1, Move::Take(B)),
        Turn(0, Move::CloseEndpoint(A, A1)),
        Turn(1, Move::CloseEndpoint(B, A1)),
    ],
    length: 4,
};

/// What B asks is answered raw by A.
const TOLD: Walk = Walk {
    name: "raw versions",
    opening: &[
        Turn(0, Move::Join(1)),
        Turn(1, Move::Bind(Thing::End(B), Remote, 2)),
    ],
    alphabet: &[
        Turn(1, Move::Notify(B, Query(0))),
        Turn(1, Move::Notify(B, Flush)),
        Turn(0, Move::Raw(Thing::End(A), RAW_QUERY, &[])),
        Turn(0, Move::Raw(Thing::End(A), RAW_VERSION, &[])),
        Turn(0, Move::Raw(Thing::End(A), RAW_REQUIRE, &[])),
        Turn(0, Move::Raw(Thing::End(A), RAW_FLUSH, &[])),
        Turn(0, Move::Bind(Thing::End(A), Receiver, 2)),
        Turn(1, Move::Pause(B, A, 1)),
        Turn(1, Move::Take(B)),
        Turn(0, Move::Take(A)),
        Turn(0, Move::CloseHandle(Thing::End(A))),
    ],
    length: 4,
};

/// Ends of two pipes wait for flushes at each other.
const PAUSED: Walk = Walk {
    name: "ends that wait",
    opening: &[
        Turn(0, Move::Join(1)),
        Turn(0, Move::Join(0)),
        Turn(0, Move::Bind(Thing::End(A), Remote, 0)),
        Turn(1, Move::Bind(Thing::End(B), Receiver, 0)),
        Turn(0, Move::Bind(Thing::End(X), Remote, 0)),
        Turn(0, Move::Bind(Thing::End(Y), Receiver, 0)),
        Turn(0, Move::Call(X, 0, NOTE, &[], &[])),
    ],
    alphabet: &[
        Turn(0, Move::Pause(Y, A, 1)),
        Turn(0, Move::Pause(Y, A, 2)),
        Turn(0, Move::Pause(Y, B, 1)),
        Turn(0, Move::Pause(Y, Y, 1)),
        Turn(0, Move::Pause(A, Y, 1)),
        Turn(1, Move::Notify(B, Flush)),
        Turn(0, Move::Notify(X, Flush)),
        Turn(0, Move::Take(A)),
        Turn(0, Move::Take(Y)),
        Turn(0, Move::CloseEndpoint(A, 0)),
        Turn(1, Move::CloseEndpoint(B, 0)),
        Turn(0, Move::CloseEndpoint(Y, 0)),
    ],
    length: 4,
};

/// The tokens of the first data pipe.
const P: Thing = Thing::Token(TokenId { seq: 0, serial: 0 });

const C: Thing = Thing::Token(TokenId { seq: 0, serial: 1 });

/// A data pipe of three bytes is filled and drained.
const FILLED: Walk = Walk {
    name: "a data pipe",
    opening: &[Turn(0, Move::Data(3))],
    alphabet: &[
        Turn(0, Move::Put(P, &[1, 2], false)),
        Turn(0, Move::Put(P, &[3, 4], true)),
        Turn(0, Move::Put(C, &[], false)),
        Turn(0, Move::Get(C, 2, false)),
        Turn(0, Move::Get(C, 1, true)),
        Turn(0, Move::BeginPut(P)),
        Turn(0, Move::EndPut(P, &[5])),
        Turn(0, Move::EndPut(P, &[6, 7, 8])),
        Turn(0, Move::BeginGet(C)),
        Turn(0, Move::EndGet(C, 1)),
        Turn(0, Move::CloseHandle(P)),
        Turn(0, Move::CloseHandle(C)),
    ],
    length: 4,
};

/// The tokens of a data pipe go to B.
const CARRIED: Walk = Walk {
    name: "a data pipe that is sent",
    opening: &[
        Turn(0, Move::Join(1)),
        Turn(0, Move::Bind(Thing::End(A), Remote, 0)),
        Turn(1, Move::Bind(Thing::End(B), Receiver, 0)),
        Turn(0, Move::Associate(A, Receiver, 0)),
        Turn(0, Move::Data(2)),
        Turn(0, Move::Put(P, &[1], false)),
    ],
    alphabet: &[
        Turn(0, Move::Call(A, 0, GIVE, &[P], &[FIRST_OF_A])),
        Turn(0, Move::Call(A, 0, GIVE, &[C], &[FIRST_OF_A])),
        Turn(0, Move::BeginPut(P)),
        Turn(1, Move::EndPut(P, &[2])),
        Turn(0, Move::BeginGet(C)),
        Turn(1, Move::EndGet(C, 1)),
        Turn(1, Move::Get(C, 2, false)),
        Turn(1, Move::Data(65_537)),
        Turn(1, Move::Data(65_536)),
        Turn(1, Move::Take(B)),
        Turn(0, Move::CloseEndpoint(A, 0)),
        Turn(1, Move::CloseEndpoint(B, 0)),
    ],
    length: 4,
};

/// All walks.
pub const WALKS: [Walk; 13] = [
    MADE, LENT, SHARED, ANSWERED, RAW, CLOSED, WAITED, NOTED, ASKED, TOLD, PAUSED, FILLED, CARRIED,
];
