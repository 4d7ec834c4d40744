//! Callbacks of calls, and what became of them.

use mj_base::{EndId, SeqId};

/// What became of a callback.
#[derive(Clone, Copy, PartialEq, Eq)]
pub enum Fate {
    /// It ran, once: the response to its request was taken.
    Ran,
    /// It was let go and never ran.
    Dropped,
}

/// A callback that was given with a request, and what became of it.
#[derive(Clone, Copy, PartialEq, Eq)]
pub struct Note {
    /// The sequence that called.
    pub seq: SeqId,
    /// The end that the request was sent from.
    pub end: EndId,
    /// The id of the endpoint that called, at that end.
    pub id: u32,
    /// The request's id.
    pub request: u64,
    /// What became of the callback.
    pub fate: Fate,
}
