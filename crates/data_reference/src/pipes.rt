//! What the events before say of data pipes, the oldest first: the bytes that went in, those that came out, and what is
//! begun.

use bind_model::{Asked, Event, Flow, Flowed, Told};
use handle_table::{Thing, TokenId};
use std::alloc::{AllocError, Global};

/// A data pipe: how many bytes it holds at most, and its two tokens.
#[derive(Clone, Copy)]
pub struct DataPipe {
    pub capacity: u32,
    pub producer: TokenId,
    pub consumer: TokenId,
}

/// What is begun at a token: nothing; or so many bytes may be put in, or these may be read.
#[derive(Clone, Copy)]
pub enum Begun<'a> {
    Nothing,
    Space(u32),
    View(&'a [u8]),
}

/// The data pipe that an event made, where that is the token's.
fn pipe_by(event: &Event, token: TokenId) -> Option<DataPipe> {
    let (Told::Made(things), Asked::Data(capacity)) = (&event.told, &event.asked) else {
        return None;
    };
    match things.as_slice() {
        [Thing::Token(producer), Thing::Token(consumer)] => {
            if *producer == token || *consumer == token {
                Some(DataPipe {
                    capacity: *capacity,
                    producer: *producer,
                    consumer: *consumer,
                })
            } else {
                None
            }
        }
        _ => None,
    }
}

/// The data pipe of a token; none where it is a token of another sort.
pub fn pipe_of(past: &[Event], token: TokenId) -> Option<DataPipe> {
    for event in past {
        let pipe = pipe_by(event, token);
        if pipe.is_some() {
            return pipe;
        }
    }
    None
}

/// The first bytes, at most so many.
pub fn up_to(bytes: &[u8], count: u32) -> &[u8] {
    bytes.get(..count as usize).unwrap_or(bytes)
}

/// The bytes that are to be put in.
fn bytes_in(flow: &Flow) -> &[u8] {
    match flow {
        Flow::Put(bytes, _) | Flow::EndPut(bytes) => bytes.as_slice(),
        Flow::Get(_, _) | Flow::BeginPut | Flow::BeginGet | Flow::EndGet(_) => &[],
    }
}

/// The bytes that an event put in at a producer.
fn fills(event: &Event, producer: TokenId) -> &[u8] {
    match (&event.told, &event.asked) {
        (Told::Flowed(token, Flowed::Put(count)), Asked::Flow(_, flow)) if *token == producer => {
            up_to(bytes_in(flow), *count)
        }
        _ => &[],
    }
}

/// What an event leaves begun at a token.
fn begun_by<'a>(event: &'a Event, token: TokenId, before: Begun<'a>) -> Begun<'a> {
    let Told::Flowed(at, flowed) = &event.told else {
        return before;
    };
    if *at != token {
        return before;
    }
    match (flowed, &event.asked) {
        (Flowed::Space(count), _) => Begun::Space(*count),
        (Flowed::View(bytes), _) => Begun::View(bytes.as_slice()),
        (Flowed::Ended, _) | (Flowed::Put(_), Asked::Flow(_, Flow::EndPut(_))) => Begun::Nothing,
        _ => before,
    }
}

/// What is begun at a token.
pub fn begun_at(past: &[Event], token: TokenId) -> Begun<'_> {
    let mut now = Begun::Nothing;
    for event in past {
        now = begun_by(event, token, now);
    }
    now
}

/// The bytes that an event got out at a consumer, where this was begun there before.
fn drains<'a>(event: &'a Event, consumer: TokenId, before: Begun<'a>) -> &'a [u8] {
    match (&event.told, &event.asked, before) {
        (Told::Flowed(token, Flowed::Bytes(bytes)), _, _) if *token == consumer => bytes.as_slice(),
        (
            Told::Flowed(token, Flowed::Ended),
            Asked::Flow(_, Flow::EndGet(count)),
            Begun::View(bytes),
        ) if *token == consumer => up_to(bytes, *count),
        _ => &[],
    }
}

/// How many bytes came out at a consumer.
fn drained(past: &[Event], consumer: TokenId) -> usize {
    let mut count: usize = 0;
    let mut now = Begun::Nothing;
    for event in past {
        count = count.saturating_add(drains(event, consumer, now).len());
        now = begun_by(event, consumer, now);
    }
    count
}

/// What a data pipe holds: what went in without as much as came out.
pub fn held(alloc: Global, past: &[Event], pipe: DataPipe) -> Result<Vec<u8>, AllocError> {
    let mut all = Vec::new(alloc);
    for event in past {
        all.extend_from_slice(fills(event, pipe.producer))?;
    }
    let out = drained(past, pipe.consumer);
    Vec::from_slice(alloc, all.get(out..).unwrap_or(&[]))
}
