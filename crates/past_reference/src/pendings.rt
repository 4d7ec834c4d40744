//! The rights to attach endpoints, or to send them. A past is the list of the events before, the oldest
//! first.

use bind_model::{Asked, Closing, Event, PendingId, Told};
use mj_base::EndId;

/// The pending that an event made: the other half of a new endpoint.
fn made_by(event: &Event) -> Option<PendingId> {
    match &event.told {
        Told::Associated(pending) => Some(*pending),
        _ => None,
    }
}

/// Whether it was made here, and didn't come with a message.
pub fn is_local(past: &[Event], pending: PendingId) -> bool {
    past.iter().any(|event| made_by(event) == Some(pending))
}

/// How many endpoints an end made.
pub fn endpoints_made(past: &[Event], end: EndId) -> usize {
    past.iter()
        .filter(|event| matches!(made_by(event), Some(pending) if pending.end == end))
        .count()
}

/// Whether it was given away with a command that was done.
fn is_given(event: &Event, pending: PendingId) -> bool {
    match (&event.told, &event.asked) {
        (Told::Attached(_), Asked::Attach(attached, _)) => *attached == pending,
        (Told::Sent(_, _), Asked::Call(_, _, outgoing) | Asked::Answer(_, outgoing)) => {
            outgoing.get().pendings.as_slice().contains(&pending)
        }
        (Told::Closed(_), Asked::Close(Closing::Pending(closed))) => *closed == pending,
        _ => false,
    }
}

/// Whether it was handed out.
fn is_handed(event: &Event, pending: PendingId) -> bool {
    match &event.told {
        Told::Associated(made) => *made == pending,
        Told::Taken(got) => got.get().pendings.as_slice().contains(&pending),
        _ => false,
    }
}

/// Whether it is with a caller.
pub fn is_pending_out(past: &[Event], pending: PendingId) -> bool {
    let mut out = false;
    for event in past {
        if is_given(event, pending) {
            out = false;
        }
        if is_handed(event, pending) {
            out = true;
        }
    }
    out
}
