//! What a sequence may be told.

ghost use Rattle.std.specs.Prelude.{◌≡◌, IfOk};

use crate::endpoint::PendingId;
use crate::flow::Flowed;
use handle_table::{Thing, TokenId};
use kept_values::{Boxed, FewThings, KeptParameters};
use mj_base::{EndId, Fault, Items, SeqId};
use std::alloc::{AllocError, Global};
use wire_model::Target;

/// What a take got: the id of the endpoint that the message was for, its method and side, its
/// parameters, its request id (0 where it has none), the handles and endpoints that these name in the
/// order of their indexes, what went with the handles that they don't name, and its moment.
#[derive(Drop)]
pub struct Got {
    pub id: u32,
    pub target: Target,
    pub parameters: KeptParameters,
    pub request: u64,
    pub handles: FewThings,
    pub pendings: Items<PendingId>,
    pub gone: FewThings,
    pub moment: Option<i64>,
}

impl Got {
    /// What a take got, in a place of its own.
    pub fn apart(
        alloc: Global,
        id: u32,
        target: Target,
        parameters: KeptParameters,
        request: u64,
        handles: Items<Thing>,
        pendings: Items<PendingId>,
        gone: Items<Thing>,
        moment: Option<i64>,
    ) -> Result<Boxed<Got>, AllocError>
        ensures { IfOk result (λ got. got ≡ record {
          id = id;
          target = target;
          parameters = parameters;
          request = request;
          handles = handles;
          pendings = pendings;
          gone = gone;
          moment = moment;
        }) }
    {
        let handles = FewThings::of(alloc, handles)?;
        let gone = FewThings::of(alloc, gone)?;
        let got = Got {
            id,
            target,
            parameters,
            request,
            handles,
            pendings,
            gone,
            moment,
        };
        let apart = Boxed::new(alloc, got)?;
        Ok(apart)
    }
}

/// Why a message is bad.
#[derive(Clone, Copy, PartialEq, Eq)]
pub enum BadWhy {
    /// It stands for nothing.
    Message(Fault),
    /// It answers a request of this id, which was not made or is answered already; 0 where it tells a version that no
    /// query waits for.
    Unasked(u64),
    /// It carries this id, which the end has already or would make itself.
    StrangeId(u32),
    /// It requires this version, and the interface has an older one.
    TooOld(u32),
}

/// Why a command is refused.
#[derive(Clone, Copy, PartialEq, Eq)]
pub enum Why {
    /// A named end, endpoint, interface or sequence isn't there, or a handle, a pending endpoint or a
    /// responder isn't out here, or is named twice.
    NoName,
    /// The handle isn't an end of a message pipe.
    NotPipe,
    /// The end or the endpoint is closed, or that at the other side is; or a data pipe's consumer is gone.
    Disconnected,
    /// The endpoint of this id came with a message and isn't attached yet.
    Unbound(u32),
    /// The endpoint is bound on that sequence.
    Elsewhere(SeqId),
    /// The endpoint is a receiver: it makes no calls.
    WrongSide,
    /// What is sent is of another interface or method, or isn't a request (or a response).
    WrongMethod,
    /// The handles or endpoints aren't as many as the parameters name, or an endpoint is of another side
    /// or interface.
    WrongTokens,
    /// The endpoint of this id is of another pipe, or was received (to attach: was made here).
    WrongPipe(u32),
    /// A handle is of the end that the message would go to.
    SelfSend,
    /// More than 67,108,864 bytes; or more than were told when a put or a get was begun.
    TooLong,
    /// More than 64 handles.
    TooManyHandles,
    /// 4,096 unread messages stand at the other end; or a data pipe has no room.
    Full,
    /// Nothing is unread; or a data pipe holds nothing.
    Empty,
    /// Nothing is unread, and the other end is closed; or a data pipe holds nothing, and its producer is gone.
    PeerClosed,
    /// A wait for a flush at this end isn't met.
    Paused(EndId),
    /// An end can't wait for itself.
    SelfPause,
    /// A data pipe doesn't hold so many bytes.
    BadSize(u32),
    /// The handle isn't of that side of a data pipe.
    NotData,
    /// Something was begun at this token, and hasn't ended.
    Busy(TokenId),
    /// Nothing was begun.
    Idle,
    /// There is room for so many bytes, or so many are held.
    Short(u32),
}

/// What was written by a control.
#[derive(Clone, Copy, PartialEq, Eq)]
pub enum Notified {
    /// The version was asked for.
    Asking,
    /// A version was required.
    Requiring,
    /// The flush of this number was written.
    Flushing(u32),
}

/// What a control told where it was consumed.
#[derive(Clone, Copy, PartialEq, Eq)]
pub enum Noted {
    /// The peer of the endpoint of this id is closed.
    Closed(u32),
    /// The version of the receiver of this id was asked for, and told, unless there is no such receiver.
    Queried(u32, Option<u32>),
    /// The receiver of this id has that version.
    Version(u32, u32),
    /// That version of the receiver of this id was required.
    Required(u32, u32),
    /// The flush of this number.
    Flushed(u32),
}

/// What it was told.
#[derive(Drop)]
pub enum Told {
    /// The ends of a new pipe, a new token, or the producer and the consumer of a new data pipe.
    Made(Items<Thing>),
    Bound(EndId),
    Associated(PendingId),
    Attached(u32),
    /// The request id (0 where no response is expected) and the bytes that were sent.
    Sent(u64, Items<u8>),
    Wrote(EndId),
    Taken(Boxed<Got>),
    /// A message for the endpoint of this id, which isn't there or is closed, and what went with it.
    Dropped(u32, Items<Thing>),
    /// The oldest message was a control.
    Control(Noted),
    /// The oldest message is bad; the end is closed with it, and all this went.
    Bad(BadWhy, Items<Thing>),
    /// All that went.
    Closed(Items<Thing>),
    /// The other end gets a control.
    Notified(Notified),
    /// The end takes nothing till the wait is met.
    Pausing,
    /// Bytes were moved at this token.
    Flowed(TokenId, Flowed),
    Skipped,
    No(Why),
}
