//! What the walks are made of.

use bind_model::{Notice, PendingId};
use handle_table::Thing;
use mj_base::EndId;
use wire_encoder::EndpointSide;

/// A method, by the number of its interface and its ordinal there.
#[derive(Clone, Copy)]
pub struct Method(pub u32, pub u32);

/// A command. Handles, pendings and responders go by what they are of.
#[derive(Clone, Copy)]
pub enum Move {
    Join(u32),
    Bind(Thing, EndpointSide, u32),
    Associate(EndId, EndpointSide, u32),
    Attach(PendingId, u32),
    Call(EndId, u32, Method, &'static [Thing], &'static [PendingId]),
    /// With nothing but a moment.
    CallAt(EndId, u32, Method, i64),
    /// By the responder of a request to the endpoint of an id at an end.
    Answer(EndId, u32, u64, Method, &'static [PendingId]),
    /// Its bytes stand there as numbers of 32 bits.
    Raw(Thing, &'static [u32], &'static [Thing]),
    Take(EndId),
    Notify(EndId, Notice),
    Pause(EndId, EndId, u32),
    Data(u32),
    Put(Thing, &'static [u8], bool),
    Get(Thing, u32, bool),
    BeginPut(Thing),
    EndPut(Thing, &'static [u8]),
    BeginGet(Thing),
    EndGet(Thing, u32),
    CloseHandle(Thing),
    ClosePending(PendingId),
    CloseResponder(EndId, u32, u64),
    CloseEndpoint(EndId, u32),
}

/// A command, and the sequence that asks it.
#[derive(Clone, Copy)]
pub struct Turn(pub u32, pub Move);

/// All lists of so many turns of an alphabet, each behind the same opening.
#[derive(Clone, Copy)]
pub struct Walk {
    pub name: &'static str,
    pub opening: &'static [Turn],
    pub alphabet: &'static [Turn],
    pub length: u32,
}

impl Walk {
    /// How many lists there are.
    pub fn count(&self) -> usize {
        let mut count: usize = 1;
        for _ in 0..self.length {
            count = count.saturating_mul(self.alphabet.len());
        }
        count
    }
}
