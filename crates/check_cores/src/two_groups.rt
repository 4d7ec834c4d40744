//! What two groups of two sequences do.

use crate::moves::{Method, Move, Turn};
use bind_model::Notice::{Flush, Query};
use bind_model::PendingId;
use handle_table::{Thing, TokenId};
use mj_base::{EndId, FaultKind};
use wire_encoder::EndpointSide::{Receiver, Remote};

/// The definitions that both groups are over.
pub const GROUP_DEFINITIONS: &str = "module t;
interface J { Hi(uint32 n); };
interface G { Get(pending_associated_receiver<J> j); };
interface P {
  Ping(uint32 n);
  Ask(uint32 n) => (uint32 m);
  Give(handle<message_pipe> h);
  Lend(pending_associated_remote<P> r);
};
";

/// The interface of what the first group writes, and that of what the second one calls.
pub const G: u32 = 1;

const P: u32 = 2;

const PING: Method = Method(P, 0);

const ASK: Method = Method(P, 1);

const GIVE: Method = Method(P, 2);

const LEND: Method = Method(P, 3);

/// The first id that an end makes where its endpoint 0 is a remote.
const A1: u32 = 2_147_483_649;

/// The index of no endpoint.
const NO_ID: u32 = 4_294_967_295;

/// What a take finds at a message.
#[derive(Clone, Copy, PartialEq, Eq)]
pub enum Finding {
    /// It is bad, by this fault at this byte.
    Bad(FaultKind, u64),
    /// It is got.
    Got,
}

/// A message of Get with an endpoint, of which one number of 32 bits or two are changed, and what a take finds at it.
#[derive(Clone, Copy)]
pub struct Edit {
    pub message: &'static [u32],
    pub finding: Finding,
}

/// All edits; the findings are those of the conformance cases.
pub const EDITS: &[Edit] = &[
    Edit {
        message: &[
            7, 2, 0, 0, 0, 0, 0, 0, 16, 0, 24, 0, 16, 0, 0, 0, 12, 1, A1, 0,
        ],
        finding: Finding::Bad(FaultKind::UnexpectedStructHeader, 0),
    },
    Edit {
        message: &[
            80, 2, 0, 0, 0, 0, 0, 0, 16, 0, 24, 0, 16, 0, 0, 0, 12, 1, A1, 0,
        ],
        finding: Finding::Bad(FaultKind::UnexpectedStructHeader, 0),
    },
    Edit {
        message: &[
            81, 2, 0, 0, 0, 0, 0, 0, 16, 0, 24, 0, 16, 0, 0, 0, 12, 1, A1, 0,
        ],
        finding: Finding::Bad(FaultKind::IllegalMemoryRange, 0),
    },
    Edit {
        message: &[
            48, 2, 0, 1, 0, 0, 0, 0, 16, 0, 24, 0, 16, 0, 0, 0, 12, 1, A1, 0,
        ],
        finding: Finding::Bad(FaultKind::MessageHeaderUnknownMethod, 12),
    },
    Edit {
        message: &[
            48, 2, 0, 0, 3, 0, 0, 0, 16, 0, 24, 0, 16, 0, 0, 0, 12, 1, A1, 0,
        ],
        finding: Finding::Bad(FaultKind::MessageHeaderInvalidFlags, 16),
    },
    Edit {
        message: &[
            48, 2, 0, 0, 1, 0, 0, 0, 16, 0, 24, 0, 16, 0, 0, 0, 12, 1, A1, 0,
        ],
        finding: Finding::Bad(FaultKind::MessageHeaderInvalidFlags, 16),
    },
    Edit {
        message: &[
            48, 2, 0, 0, 0, 0, 0, 0, 0, 0, 24, 0, 16, 0, 0, 0, 12, 1, A1, 0,
        ],
        finding: Finding::Bad(FaultKind::UnexpectedNullPointer, 32),
    },
    Edit {
        message: &[
            48, 2, 0, 0, 0, 0, 0, 0, 17, 0, 24, 0, 16, 0, 0, 0, 12, 1, A1, 0,
        ],
        finding: Finding::Bad(FaultKind::MisalignedObject, 49),
    },
    Edit {
        message: &[
            48, 2, 0, 0, 0, 0, 0, 0, 8, 0, 24, 0, 16, 0, 0, 0, 12, 1, A1, 0,
        ],
        finding: Finding::Bad(FaultKind::IllegalMemoryRange, 40),
    },
    Edit {
        message: &[
            48, 2, 0, 0, 0, 0, 0, 0, 16, 1, 24, 0, 16, 0, 0, 0, 12, 1, A1, 0,
        ],
        finding: Finding::Bad(FaultKind::IllegalPointer, 32),
    },
    Edit {
        message: &[
            48, 2, 0, 0, 0, 0, 0, 0, 16, 0, 8, 0, 16, 0, 0, 0, 12, 1, A1, 0,
        ],
        finding: Finding::Bad(FaultKind::IllegalMemoryRange, 48),
    },
    Edit {
        message: &[
            48, 2, 0, 0, 0, 0, 0, 0, 16, 0, 16, 0, 16, 0, 0, 0, 12, 1, A1, 0,
        ],
        finding: Finding::Bad(FaultKind::UnexpectedArrayHeader, 56),
    },
    Edit {
        message: &[
            48, 2, 0, 0, 0, 0, 0, 0, 16, 0, 0, 0, 16, 0, 0, 0, 12, 1, A1, 0,
        ],
        finding: Finding::Bad(FaultKind::IllegalInterfaceId, 56),
    },
    Edit {
        message: &[
            48, 2, 0, 0, 0, 0, 0, 0, 16, 0, 24, 0, 24, 0, 0, 0, 12, 1, A1, 0,
        ],
        finding: Finding::Bad(FaultKind::IllegalMemoryRange, 48),
    },
    Edit {
        message: &[
            48, 2, 0, 0, 0, 0, 0, 0, 16, 0, 24, 0, 8, 0, 0, 0, 12, 1, A1, 0,
        ],
        finding: Finding::Bad(FaultKind::UnexpectedStructHeader, 48),
    },
    Edit {
        message: &[
            48, 2, 0, 0, 0, 0, 0, 0, 16, 0, 24, 0, 16, 1, 0, 0, 12, 1, A1, 0,
        ],
        finding: Finding::Got,
    },
    Edit {
        message: &[
            48, 2, 0, 0, 0, 0, 0, 0, 16, 0, 24, 0, 16, 0, NO_ID, 0, 12, 1, A1, 0,
        ],
        finding: Finding::Bad(FaultKind::UnexpectedInvalidInterfaceId, 56),
    },
    Edit {
        message: &[
            48, 2, 0, 0, 0, 0, 0, 0, 16, 0, 24, 0, 16, 0, 0, 0, 20, 3, A1, 0,
        ],
        finding: Finding::Bad(FaultKind::IllegalMemoryRange, 64),
    },
    Edit {
        message: &[
            48, 2, 0, 0, 0, 0, 0, 0, 16, 0, 24, 0, 16, 0, 0, 0, 12, 2, A1, 0,
        ],
        finding: Finding::Bad(FaultKind::UnexpectedArrayHeader, 64),
    },
    Edit {
        message: &[
            48, 2, 0, 0, 0, 0, 0, 0, 16, 0, 24, 0, 16, 0, 0, 0, 12, 1, 0, 0,
        ],
        finding: Finding::Bad(FaultKind::IllegalInterfaceId, 72),
    },
];

/// Without handles.
pub const NO_THINGS: &[Thing] = &[];

/// The ends of the second group's first pipe, and of the three that its first sequence has alone.
const C: EndId = EndId { seq: 2, serial: 0 };

const D: EndId = EndId { seq: 3, serial: 0 };

const E: EndId = EndId { seq: 2, serial: 1 };

const F: EndId = EndId { seq: 2, serial: 2 };

const K: EndId = EndId { seq: 2, serial: 3 };

const L: EndId = EndId { seq: 2, serial: 4 };

const M: EndId = EndId { seq: 2, serial: 5 };

const N: EndId = EndId { seq: 2, serial: 6 };

/// The producer and the consumer of its data pipe.
const PRODUCER: Thing = Thing::Token(TokenId { seq: 2, serial: 0 });

const CONSUMER: Thing = Thing::Token(TokenId { seq: 2, serial: 1 });

/// The other half of the endpoint that C makes, and the same as it comes to D.
const MADE_AT_C: PendingId = PendingId { end: C, id: A1 };

const CAME_TO_D: PendingId = PendingId { end: D, id: A1 };

/// What the second group does: a handle and an endpoint are sent, a request is answered, an end is flushed and another waits
/// for that, a version is asked for and told, bytes go through a data pipe, an end is closed with what goes with it, its consumer
/// among that, and two requests lie unread in the end.
pub const GROUP: &[Turn] = &[
    Turn(2, Move::Join(3)),
    Turn(2, Move::Bind(Thing::End(C), Remote, P)),
    Turn(3, Move::Bind(Thing::End(D), Receiver, P)),
    Turn(2, Move::Join(2)),
    Turn(2, Move::Call(C, 0, GIVE, &[Thing::End(F)], &[])),
    Turn(2, Move::Call(C, 0, ASK, &[], &[])),
    Turn(3, Move::Take(D)),
    Turn(3, Move::Take(D)),
    Turn(3, Move::Answer(D, 0, 1, ASK, &[])),
    Turn(2, Move::Take(C)),
    Turn(2, Move::Associate(C, Receiver, P)),
    Turn(2, Move::Call(C, 0, LEND, &[], &[MADE_AT_C])),
    Turn(3, Move::Take(D)),
    Turn(3, Move::Attach(CAME_TO_D, 3)),
    Turn(3, Move::Call(D, A1, PING, &[], &[])),
    Turn(2, Move::Take(C)),
    Turn(2, Move::Notify(C, Flush)),
    Turn(3, Move::Take(D)),
    Turn(2, Move::Notify(C, Query(0))),
    Turn(3, Move::Take(D)),
    Turn(2, Move::Take(C)),
    Turn(2, Move::Data(4)),
    Turn(2, Move::Put(PRODUCER, &[1, 2, 3], false)),
    Turn(2, Move::Get(CONSUMER, 2, false)),
    Turn(2, Move::Join(2)),
    Turn(2, Move::Bind(Thing::End(K), Remote, P)),
    Turn(2, Move::Bind(Thing::End(L), Receiver, P)),
    Turn(2, Move::Pause(C, L, 1)),
    Turn(2, Move::Take(C)),
    Turn(2, Move::Notify(K, Flush)),
    Turn(2, Move::Take(L)),
    Turn(2, Move::CloseHandle(Thing::End(E))),
    Turn(2, Move::Join(2)),
    Turn(2, Move::Raw(Thing::End(M), &[7], &[CONSUMER])),
    Turn(2, Move::Call(K, 0, GIVE, &[Thing::End(N)], &[])),
    Turn(2, Move::CloseEndpoint(L, 0)),
    Turn(2, Move::Put(PRODUCER, &[4], false)),
    Turn(2, Move::Call(C, 0, ASK, &[], &[])),
    Turn(2, Move::Call(C, 0, PING, &[], &[])),
];
