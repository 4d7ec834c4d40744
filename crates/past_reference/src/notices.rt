//! Controls that ends write to each other: queries that wait for a version, flushes, and waits for these.

use crate::mail::Mail;
use crate::past::is_gone;
use bind_model::{Asked, Event, Noted, Notice, State, Told};
use handle_table::Thing;
use mj_base::EndId;

/// Whether an event asked for the version at the endpoint of an id.
fn queries(event: &Event, x: EndId, id: u32) -> bool {
    match (&event.told, &event.asked) {
        (Told::Notified(_), Asked::Notify(end, Notice::Query(n))) => *end == x && *n == id,
        _ => false,
    }
}

/// Whether an event told the version there.
fn tells(event: &Event, x: EndId, id: u32) -> bool {
    match (&event.told, &event.asked) {
        (Told::Control(Noted::Version(n, _)), Asked::Take(end)) => *end == x && *n == id,
        _ => false,
    }
}

/// Whether a version is awaited at the endpoint of an id: more were asked for than told, it isn't closed, and its
/// peer isn't known to be.
pub fn is_awaited(mail: &Mail<'_>, x: EndId, id: u32) -> bool {
    let Some(endpoint) = mail.endpoint(x, id) else {
        return false;
    };
    let asked = mail.past.iter().filter(|event| queries(event, x, id));
    let told = mail.past.iter().filter(|event| tells(event, x, id));
    endpoint.state != State::Closed && !endpoint.peer_closed && told.count() < asked.count()
}

/// Whether an event wrote a flush from an end.
fn flushes(event: &Event, x: EndId) -> bool {
    match (&event.told, &event.asked) {
        (Told::Notified(_), Asked::Notify(end, Notice::Flush)) => *end == x,
        _ => false,
    }
}

/// The number of the next flush of an end: they are counted from 1.
pub fn next_flush(past: &[Event], x: EndId) -> u32 {
    let written = past.iter().filter(|event| flushes(event, x)).count();
    u32::try_from(written).unwrap_or(u32::MAX).saturating_add(1)
}

/// Whether an event consumed the flush of a number at an end.
fn meets(event: &Event, x: EndId, flush: u32) -> bool {
    match (&event.told, &event.asked) {
        (Told::Control(Noted::Flushed(number)), Asked::Take(end)) => *end == x && *number == flush,
        _ => false,
    }
}

/// Whether nobody waits any more for a flush at an end: it was consumed there, or the end is gone.
fn is_met(past: &[Event], x: EndId, flush: u32) -> bool {
    is_gone(past, Thing::End(x)) || past.iter().any(|event| meets(event, x, flush))
}

/// The end that an event told another to wait for, where it still does.
fn waits_by(past: &[Event], event: &Event, x: EndId) -> Option<EndId> {
    match (&event.told, &event.asked) {
        (Told::Pausing, Asked::Pause(end, other, flush)) => {
            if *end == x && !is_met(past, *other, *flush) {
                Some(*other)
            } else {
                None
            }
        }
        _ => None,
    }
}

/// The end that an end waits for: that of its first wait that isn't met.
pub fn paused_by(past: &[Event], x: EndId) -> Option<EndId> {
    for event in past {
        let other = waits_by(past, event, x);
        if other.is_some() {
            return other;
        }
    }
    None
}
