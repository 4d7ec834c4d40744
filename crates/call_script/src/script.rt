//! What a script says.

use bind_model::{Flow, Notice};
use handle_table::TokenSort;
use mj_base::{Items, SeqId};
use wire_encoder::{EndpointSide, Prepared};

/// A name of a script, by its number: names are numbered from 0 in the order in which lines set them,
/// those of joins and all sequences' own in one row. So a name that two sequences set has two numbers,
/// each of which stands for what is that sequence's own, and a join's name has the same number in the
/// lines of all sequences.
#[derive(Clone, Copy, PartialEq, Eq)]
pub struct NameId(pub usize);

/// What a line asks. Whether something is held under a name is known only when the script runs.
#[derive(Drop)]
pub enum Command {
    /// A new pipe whose second end is numbered by that sequence, and the names of its ends.
    Join(SeqId, NameId, NameId),
    /// A new pipe, and the names of its ends.
    Pipe(NameId, NameId),
    /// A new token, and its name.
    Mint(TokenSort, NameId),
    /// To bind an end as a side of an interface, by its number in the schema.
    Bind(NameId, EndpointSide, u32),
    /// A new endpoint of an end, as a side of an interface by its number in the schema, and the name of
    /// its pending other half.
    Associate(NameId, EndpointSide, u32, NameId),
    /// To bind the pending endpoint of this name on that sequence.
    Attach(NameId, SeqId),
    /// A request from the endpoint of this id at an end, with these handles and endpoints, at this moment.
    Call(NameId, u32, Prepared, Items<NameId>, Option<i64>),
    /// The oldest unread message at an end, and names for what comes with it.
    Take(NameId, Items<NameId>),
    /// The response of the responder of this name, with these handles and endpoints, at this moment.
    Answer(NameId, Prepared, Items<NameId>, Option<i64>),
    /// These bytes as a message from an end that isn't bound, with these handles.
    Raw(NameId, Items<u8>, Items<NameId>),
    /// To close what has this name.
    CloseToken(NameId),
    /// To close the endpoint of this id at an end.
    CloseEndpoint(NameId, u32),
    /// To write a control from an end.
    Notify(NameId, Notice),
    /// To take nothing at the first end until the second has consumed the flush of this number, or is closed.
    Pause(NameId, NameId, u32),
    /// A new data pipe that holds so many bytes at most, and the names of its producer and its consumer.
    Data(u32, NameId, NameId),
    /// To move bytes at the producer or the consumer of a data pipe.
    Flow(NameId, Flow),
}

/// A line that asks: its number in the text, from 1; the sequence that asks; and what it asks.
#[derive(Drop)]
pub struct Line {
    pub number: u32,
    pub seq: SeqId,
    pub command: Command,
}

/// An automatic reply: the sequence answers every request of a method that it takes with this.
#[derive(Drop)]
pub struct AutoReply {
    pub seq: SeqId,
    pub prepared: Prepared,
}

/// A script: how many sequences it has, from 1 to 16; how many names its lines set; how many bytes it was
/// read from; and what its lines behind the first say, in order: the automatic replies, and the lines that
/// ask, the joins before all others.
#[derive(Drop)]
pub struct Script {
    pub seqs: u32,
    pub names: usize,
    pub bytes: usize,
    pub autos: Items<AutoReply>,
    pub lines: Items<Line>,
}
