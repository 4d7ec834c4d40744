//! Commands by names.

use bind_model::{Closing, Flow, Notice, PendingId, ResponderId};
use core_sending::carried::CarriedNames;
use handle_table::{Thing, TokenSort};
use mj_base::{EndId, Items, SeqId};
use wire_encoder::{EndpointSide, Prepared};

/// What a sequence asks, with the names of what goes with it in place of handles.
#[derive(Drop)]
pub enum PlainCommand {
    /// A new pipe.
    Pipe,
    /// A new pipe, whose second end is numbered by that sequence.
    Join(SeqId),
    /// A new token.
    Mint(TokenSort),
    /// To bind an end as a side of an interface, by its number in the schema.
    Bind(Thing, EndpointSide, u32),
    /// A new endpoint of an end, bound as that side of an interface.
    Associate(EndId, EndpointSide, u32),
    /// To bind an endpoint that was received on a sequence.
    Attach(PendingId, SeqId),
    /// A request from the endpoint of this id at an end, with the things and the pendings that its
    /// parameters name, at a moment.
    Call(EndId, u32, Prepared, CarriedNames, Option<i64>),
    /// The response to a request.
    Answer(ResponderId, Prepared, CarriedNames, Option<i64>),
    /// To write bytes from an end that isn't bound, with things.
    Raw(Thing, Items<u8>, Items<Thing>),
    /// The oldest unread message at an end.
    Take(EndId),
    Close(Closing),
    /// To write a control from an end that is bound.
    Notify(EndId, Notice),
    /// To take nothing at the first end until the second has consumed the flush of this number, or is
    /// closed.
    Pause(EndId, EndId, u32),
    /// A new data pipe, which holds so many bytes at most.
    Data(u32),
    /// To move bytes at the token of a data pipe.
    Flow(Thing, Flow),
    /// Nothing: what the line of this number needs isn't there.
    Skip(u32),
}
