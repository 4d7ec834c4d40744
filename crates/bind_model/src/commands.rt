//! Commands and replies, with the handles and the rights that they take and hand out.

use crate::asked::Notice;
use crate::flow::{Flow, Flowed};
use crate::parameters::Parameters;
use crate::pending::{Pending, PendingList};
use crate::responder::Responder;
use crate::told::{BadWhy, Noted, Notified, Why};
use handle_table::{Ended, Handle, Handles, Thing, TokenSort};
use mj_base::{EndId, Items, SeqId};
use wire_encoder::{EndpointSide, Prepared};
use wire_model::Target;

/// What is closed.
pub enum ToClose {
    Handle(Handle),
    /// An endpoint that isn't sent, or isn't attached.
    Pending(Pending),
    /// The right to answer a request, which then isn't answered.
    Responder(Responder),
    /// The endpoint of this id at an end; with id 0, the end.
    Endpoint(EndId, u32),
}

/// What a caller asks. It takes the handles, the pendings and the responder with it.
pub enum Command {
    /// A new pipe.
    Pipe,
    /// A new pipe, whose second end is numbered by that sequence.
    Join(SeqId),
    /// A new token.
    Mint(TokenSort),
    /// To bind an end as a side of an interface, by its number in the schema.
    Bind(Handle, EndpointSide, u32),
    /// A new endpoint of an end, bound as a side of an interface on the sequence that asks; its other half
    /// may be sent.
    Associate(EndId, EndpointSide, u32),
    /// To bind an endpoint that was received on a sequence.
    Attach(Pending, SeqId),
    /// A request from the endpoint of this id at an end, with the handles and the pendings that its
    /// parameters name, and a moment, which is carried and has no other effect.
    Call(EndId, u32, Prepared, Handles, PendingList, Option<i64>),
    /// The response to a request, with the handles and the pendings that its parameters name, and a
    /// moment.
    Answer(Responder, Prepared, Handles, PendingList, Option<i64>),
    /// To write bytes from an end that isn't bound, as they are, with handles. They are judged where they
    /// are taken.
    Raw(Handle, Items<u8>, Handles),
    /// The oldest unread message at an end.
    Take(EndId),
    Close(ToClose),
    /// To write a control from an end that is bound: to ask for a version, to require one, or to flush.
    Notify(EndId, Notice),
    /// To take nothing at the first end until the second has consumed the flush of this number, or is
    /// closed.
    Pause(EndId, EndId, u32),
    /// A new data pipe, which holds so many bytes at most.
    Data(u32),
    /// To move bytes at the producer or the consumer of a data pipe. The token comes back in any case.
    Flow(Handle, Flow),
    /// Nothing: what the line of this number of a script needs isn't there.
    Skip(u32),
}

/// What a take got: the id of the endpoint that the message was for, its method and side, its
/// parameters, its request id (0 where it has none), the handles and the pendings that the parameters name
/// in the order of their indexes, the right to answer it where it is a request with a response, what
/// went with the handles that the parameters don't name, and its moment.
pub struct Received {
    pub id: u32,
    pub target: Target,
    pub parameters: Parameters,
    pub request: u64,
    pub handles: Handles,
    pub pendings: PendingList,
    pub responder: Option<Responder>,
    pub gone: Items<Thing>,
    pub moment: Option<i64>,
}

/// What the caller is told. A refusal hands the command back.
pub enum Reply {
    /// The handles of the two ends of a new pipe, or of a new token, or of a new data pipe's producer and
    /// consumer.
    Made(Handles),
    Bound(EndId),
    /// The other half of a new endpoint.
    Associated(Pending),
    /// The id of the endpoint that was bound.
    Attached(u32),
    /// The request id (0 where no response is expected) and the bytes that were sent.
    Sent(u64, Items<u8>),
    /// The end that bytes were written from, which comes back.
    Wrote(Handle),
    Got(Received),
    /// A message for the endpoint of this id, which isn't there or is closed, and what went with it.
    Dropped(u32, Items<Thing>),
    /// The oldest message was a control.
    Control(Noted),
    /// The oldest message is bad; the end is closed with it, and all this went.
    Bad(BadWhy, Items<Thing>),
    /// All that went.
    Closed(Items<Thing>),
    /// The other end gets a control.
    Notified(Notified),
    /// The end takes nothing till the wait is met.
    Pausing,
    /// The token that bytes were moved at, which comes back, and how many or which.
    Flowed(Handle, Flowed),
    Skipped,
    No(Why, Command),
}

/// Why there was no event. The command comes back.
pub enum Refused {
    /// There was no memory for it.
    Memory(Command),
    /// The history has 16,777,216 events.
    Spent(Command),
}

impl ToClose {
    /// Lets it go, once all is over.
    pub fn retire(self, over: &Ended) {
        match self {
            ToClose::Handle(handle) => handle.retire(over),
            ToClose::Pending(pending) => pending.retire(over),
            ToClose::Responder(responder) => responder.retire(over),
            ToClose::Endpoint(_, _) => {}
        }
    }
}

impl Command {
    /// Lets it go, once all is over.
    pub fn retire(self, over: &Ended) {
        match self {
            Command::Bind(handle, _, _) => handle.retire(over),
            Command::Attach(pending, _) => pending.retire(over),
            Command::Call(_, _, _, handles, pendings, _) => {
                handles.retire(over);
                pendings.retire(over);
            }
            Command::Answer(responder, _, handles, pendings, _) => {
                responder.retire(over);
                handles.retire(over);
                pendings.retire(over);
            }
            Command::Raw(handle, _, handles) => {
                handle.retire(over);
                handles.retire(over);
            }
            Command::Close(closed) => closed.retire(over),
            Command::Flow(handle, _) => handle.retire(over),
            Command::Pipe
            | Command::Join(_)
            | Command::Mint(_)
            | Command::Associate(_, _, _)
            | Command::Take(_)
            | Command::Notify(_, _)
            | Command::Pause(_, _, _)
            | Command::Data(_)
            | Command::Skip(_) => {}
        }
    }
}

impl Received {
    /// Lets it go, once all is over.
    pub fn retire(self, over: &Ended) {
        let Received {
            id: _,
            target: _,
            parameters: _,
            request: _,
            handles,
            pendings,
            responder,
            gone: _,
            moment: _,
        } = self;
        handles.retire(over);
        pendings.retire(over);
        if let Some(responder) = responder {
            responder.retire(over);
        }
    }
}

impl Reply {
    /// Lets it go, once all is over.
    pub fn retire(self, over: &Ended) {
        match self {
            Reply::Made(handles) => handles.retire(over),
            Reply::Wrote(handle) => handle.retire(over),
            Reply::Flowed(handle, _) => handle.retire(over),
            Reply::Associated(pending) => pending.retire(over),
            Reply::Got(received) => received.retire(over),
            Reply::No(_, command) => command.retire(over),
            Reply::Bound(_)
            | Reply::Attached(_)
            | Reply::Sent(_, _)
            | Reply::Dropped(_, _)
            | Reply::Control(_)
            | Reply::Bad(_, _)
            | Reply::Closed(_)
            | Reply::Notified(_)
            | Reply::Pausing
            | Reply::Skipped => {}
        }
    }
}

impl Refused {
    /// Lets it go, once all is over.
    pub fn retire(self, over: &Ended) {
        match self {
            Refused::Memory(command) | Refused::Spent(command) => command.retire(over),
        }
    }
}
