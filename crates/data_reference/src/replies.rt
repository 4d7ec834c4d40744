//! The replies where a data pipe is made, and to what is asked at its two tokens.

use crate::pipes::{Begun, DataPipe, begun_at, held, pipe_of, up_to};
use bind_model::limits::MAX_DATA_BYTES;
use bind_model::{Event, Flow, Flowed, Told, Why};
use handle_table::{Thing, TokenId};
use mj_base::{Items, SeqId};
use past_reference::past::{is_gone, is_out, tokens_made};
use past_reference::refusals::{first_of, unless};
use std::alloc::{AllocError, Global};

/// A data pipe as it is met at one of its tokens: what is begun there, and what it holds.
#[derive(Drop)]
struct Side<'a> {
    past: &'a [Event],
    token: TokenId,
    pipe: DataPipe,
    begun: Begun<'a>,
    held: Vec<u8>,
}

/// How many bytes there are.
fn count_of(bytes: &[u8]) -> u32 {
    u32::try_from(bytes.len()).unwrap_or(u32::MAX)
}

/// The test that nothing is begun at a token.
fn unbegun(token: TokenId, begun: Begun<'_>) -> Option<Why> {
    match begun {
        Begun::Nothing => None,
        Begun::Space(_) | Begun::View(_) => Some(Why::Busy(token)),
    }
}

/// The test that a thing isn't a token at which something is begun.
fn unbegun_at(past: &[Event], thing: Thing) -> Option<Why> {
    match thing {
        Thing::End(_) => None,
        Thing::Token(token) => unbegun(token, begun_at(past, token)),
    }
}

/// The test that among these things is no token at which something is begun: the first that is one.
pub fn busy(past: &[Event], things: &[Thing]) -> Option<Why> {
    for thing in things {
        let why = unbegun_at(past, *thing);
        if why.is_some() {
            return why;
        }
    }
    None
}

impl<'a> Side<'a> {
    /// For how many more bytes there is room.
    fn free(&self) -> u32 {
        self.pipe.capacity.saturating_sub(count_of(&self.held))
    }

    /// The test that the token is the producer.
    fn of_producer(&self) -> Option<Why> {
        unless(self.pipe.producer == self.token, Why::NotData)
    }

    /// The test that the token is the consumer.
    fn of_consumer(&self) -> Option<Why> {
        unless(self.pipe.consumer == self.token, Why::NotData)
    }

    /// The test that the consumer isn't gone.
    fn connected(&self) -> Option<Why> {
        let consumer = Thing::Token(self.pipe.consumer);
        unless(!is_gone(self.past, consumer), Why::Disconnected)
    }

    /// The test that something is held; where nothing is, no more comes once the producer is gone.
    fn some_held(&self) -> Option<Why> {
        let producer = Thing::Token(self.pipe.producer);
        let why = if is_gone(self.past, producer) {
            Why::PeerClosed
        } else {
            Why::Empty
        };
        unless(!self.held.is_empty(), why)
    }

    /// What is told: why it is refused, or this.
    fn told(&self, refusal: Option<Why>, done: Flowed) -> Told {
        match refusal {
            Some(why) => Told::No(why),
            None => Told::Flowed(self.token, done),
        }
    }

    /// The reply to a put of bytes.
    fn put(&self, bytes: &[u8], all: bool) -> Told {
        let (count, free) = (count_of(bytes), self.free());
        let refusal = first_of(&[
            self.of_producer(),
            unbegun(self.token, self.begun),
            self.connected(),
            unless(count == 0 || free > 0, Why::Full),
            unless(!all || count <= free, Why::Short(free)),
        ]);
        self.told(refusal, Flowed::Put(count.min(free)))
    }

    /// The reply to a get of so many bytes.
    fn get(&self, alloc: Global, count: u32, all: bool) -> Result<Told, AllocError> {
        let held = count_of(&self.held);
        let nothing = if count == 0 { None } else { self.some_held() };
        let refusal = first_of(&[
            self.of_consumer(),
            unbegun(self.token, self.begun),
            nothing,
            unless(!all || count <= held, Why::Short(held)),
        ]);
        let bytes = Vec::from_slice(alloc, up_to(&self.held, count))?;
        Ok(self.told(refusal, Flowed::Bytes(Items::from_vec(bytes))))
    }

    /// The reply where a put begins.
    fn begin_put(&self) -> Told {
        let free = self.free();
        let refusal = first_of(&[
            self.of_producer(),
            unbegun(self.token, self.begun),
            self.connected(),
            unless(free > 0, Why::Full),
        ]);
        self.told(refusal, Flowed::Space(free))
    }

    /// The reply where a put ends with these bytes.
    fn end_put(&self, bytes: &[u8]) -> Told {
        let (is_begun, room) = match self.begun {
            Begun::Nothing => (false, 0),
            Begun::Space(room) => (true, room),
            Begun::View(_) => (true, 0),
        };
        let refusal = first_of(&[
            self.of_producer(),
            unless(is_begun, Why::Idle),
            self.connected(),
            unless(count_of(bytes) <= room, Why::TooLong),
        ]);
        self.told(refusal, Flowed::Put(count_of(bytes)))
    }

    /// The reply where a get begins.
    fn begin_get(&self, alloc: Global) -> Result<Told, AllocError> {
        let refusal = first_of(&[
            self.of_consumer(),
            unbegun(self.token, self.begun),
            self.some_held(),
        ]);
        let bytes = Vec::from_slice(alloc, self.held.as_slice())?;
        Ok(self.told(refusal, Flowed::View(Items::from_vec(bytes))))
    }

    /// The reply where a get ends with so many bytes read.
    fn end_get(&self, count: u32) -> Told {
        let (is_begun, shown) = match self.begun {
            Begun::Nothing => (false, 0),
            Begun::Space(_) => (true, 0),
            Begun::View(bytes) => (true, count_of(bytes)),
        };
        let refusal = first_of(&[
            self.of_consumer(),
            unless(is_begun, Why::Idle),
            unless(count <= shown, Why::TooLong),
        ]);
        self.told(refusal, Flowed::Ended)
    }

    /// The reply to what is asked here.
    fn moved(&self, alloc: Global, flow: &Flow) -> Result<Told, AllocError> {
        match flow {
            Flow::Put(bytes, all) => Ok(self.put(bytes.as_slice(), *all)),
            Flow::Get(count, all) => self.get(alloc, *count, *all),
            Flow::BeginPut => Ok(self.begin_put()),
            Flow::EndPut(bytes) => Ok(self.end_put(bytes.as_slice())),
            Flow::BeginGet => self.begin_get(alloc),
            Flow::EndGet(count) => Ok(self.end_get(*count)),
        }
    }
}

/// The reply where a data pipe is made that holds so many bytes at most: its tokens have the next numbers of the
/// sequence, the producer first.
pub fn made(alloc: Global, past: &[Event], seq: SeqId, capacity: u32) -> Result<Told, AllocError> {
    if capacity == 0 || capacity > MAX_DATA_BYTES {
        return Ok(Told::No(Why::BadSize(capacity)));
    }
    let first = TokenId {
        seq: seq.0,
        serial: tokens_made(alloc, past, seq.0)?,
    };
    let second = TokenId {
        seq: seq.0,
        serial: first.serial.saturating_add(1),
    };
    let things = vec![in alloc; Thing::Token(first), Thing::Token(second)]?;
    Ok(Told::Made(Items::from_vec(things)))
}

/// The reply to what is asked at a thing.
pub fn moved(alloc: Global, past: &[Event], thing: Thing, flow: &Flow) -> Result<Told, AllocError> {
    if !is_out(past, thing) {
        return Ok(Told::No(Why::NoName));
    }
    let Thing::Token(token) = thing else {
        return Ok(Told::No(Why::NotData));
    };
    let Some(pipe) = pipe_of(past, token) else {
        return Ok(Told::No(Why::NotData));
    };
    let side = Side {
        past,
        token,
        pipe,
        begun: begun_at(past, token),
        held: held(alloc, past, pipe)?,
    };
    side.moved(alloc, flow)
}
