//! What commands and replies alone say. A past is the list of the events before, the oldest first.

use bind_model::{Asked, Closing, Event, Told};
use handle_table::Thing;
use mj_base::EndId;
use std::alloc::{AllocError, Global};
use wire_model::MessageSide;

/// The things that a reply made.
fn made_by(told: &Told) -> &[Thing] {
    match told {
        Told::Made(things) => things.as_slice(),
        _ => &[],
    }
}

/// All things that were made, in order.
pub fn made(alloc: Global, past: &[Event]) -> Result<Vec<Thing>, AllocError> {
    let mut things = Vec::new(alloc);
    for event in past {
        things.extend_from_slice(made_by(&event.told))?;
    }
    Ok(things)
}

/// The other of two ends; of an end that isn't one of them, what it was before.
fn peer_among(things: &[Thing], x: EndId, before: EndId) -> EndId {
    match things {
        [Thing::End(a), Thing::End(b)] => {
            if *a == x {
                *b
            } else if *b == x {
                *a
            } else {
                before
            }
        }
        _ => before,
    }
}

/// The other end of its pipe; of an end that was not made, itself.
pub fn peer(past: &[Event], x: EndId) -> EndId {
    let mut other = x;
    for event in past {
        other = peer_among(made_by(&event.told), x, other);
    }
    other
}

/// What went with a reply.
fn gone_by(told: &Told) -> &[Thing] {
    match told {
        Told::Taken(got) => got.get().gone.as_slice(),
        Told::Dropped(_, gone) | Told::Bad(_, gone) | Told::Closed(gone) => gone.as_slice(),
        _ => &[],
    }
}

/// Whether a thing is among all that went.
pub fn is_gone(past: &[Event], thing: Thing) -> bool {
    past.iter()
        .any(|event| gone_by(&event.told).contains(&thing))
}

/// Whether the thing was given away with a command that was done.
fn is_given(event: &Event, thing: Thing) -> bool {
    match (&event.told, &event.asked) {
        (Told::Bound(_), Asked::Bind(end, _, _)) => *end == thing,
        (Told::Sent(_, _), Asked::Call(_, _, outgoing) | Asked::Answer(_, outgoing)) => {
            outgoing.get().handles.as_slice().contains(&thing)
        }
        (Told::Wrote(_), Asked::Raw(_, _, handles)) => handles.as_slice().contains(&thing),
        (Told::Closed(_), Asked::Close(Closing::Handle(closed))) => *closed == thing,
        _ => false,
    }
}

/// The things that a reply hands out.
pub fn handed(told: &Told) -> &[Thing] {
    match told {
        Told::Made(things) => things.as_slice(),
        Told::Taken(got) => got.get().handles.as_slice(),
        _ => &[],
    }
}

/// Whether the handle of a thing is with a caller.
pub fn is_out(past: &[Event], thing: Thing) -> bool {
    let mut out = false;
    for event in past {
        if is_given(event, thing) {
            out = false;
        }
        if handed(&event.told).contains(&thing) {
            out = true;
        }
    }
    out
}

/// Whether an event is a take at an end that consumed a message.
fn consumes(event: &Event, x: EndId) -> bool {
    match (&event.told, &event.asked) {
        (Told::Taken(_) | Told::Dropped(_, _) | Told::Control(_), Asked::Take(end)) => *end == x,
        _ => false,
    }
}

/// How many messages were consumed at an end.
pub fn consumed(past: &[Event], x: EndId) -> usize {
    past.iter().filter(|event| consumes(event, x)).count()
}

/// Whether an event sent a request from an endpoint, with a response to come.
fn draws(event: &Event, x: EndId, id: u32) -> bool {
    match (&event.told, &event.asked) {
        (Told::Sent(request, _), Asked::Call(end, n, _)) => {
            *end == x && *n == id && *request != 0
        }
        _ => false,
    }
}

/// How many requests were sent from an endpoint, with responses to come.
pub fn drawn(past: &[Event], x: EndId, id: u32) -> usize {
    past.iter().filter(|event| draws(event, x, id)).count()
}

/// Whether an event sent this request, with this method.
fn asks(event: &Event, x: EndId, id: u32, request: u64, method: u32) -> bool {
    match (&event.told, &event.asked) {
        (Told::Sent(number, _), Asked::Call(_, _, outgoing)) => {
            draws(event, x, id) && *number == request && outgoing.get().target.method == method
        }
        _ => false,
    }
}

/// Whether an event got the response to this request.
fn gets_response(event: &Event, x: EndId, id: u32, request: u64) -> bool {
    match (&event.told, &event.asked) {
        (Told::Taken(got), Asked::Take(end)) => {
            let got = got.get();
            *end == x
                && got.id == id
                && got.request == request
                && got.target.side == MessageSide::Response
        }
        _ => false,
    }
}

/// Whether a request of this number and method was sent from an endpoint, and no response to it was got.
pub fn is_asked(past: &[Event], x: EndId, id: u32, request: u64, method: u32) -> bool {
    past.iter().any(|event| asks(event, x, id, request, method))
        && !past
            .iter()
            .any(|event| gets_response(event, x, id, request))
}

/// How many ends a sequence made.
pub fn ends_made(alloc: Global, past: &[Event], seq: u32) -> Result<u32, AllocError> {
    let things = made(alloc, past)?;
    let count = things
        .iter()
        .filter(|thing| matches!(thing, Thing::End(end) if end.seq == seq))
        .count();
    Ok(u32::try_from(count).unwrap_or(u32::MAX))
}

/// How many tokens a sequence made.
pub fn tokens_made(alloc: Global, past: &[Event], seq: u32) -> Result<u32, AllocError> {
    let things = made(alloc, past)?;
    let count = things
        .iter()
        .filter(|thing| matches!(thing, Thing::Token(token) if token.seq == seq))
        .count();
    Ok(u32::try_from(count).unwrap_or(u32::MAX))
}
