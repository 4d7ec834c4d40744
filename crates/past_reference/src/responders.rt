//! The rights to answer requests. A past is the list of the events before, the oldest first.

use crate::wire::responds;
use bind_model::{Asked, Closing, Event, Got, ResponderId, Told};
use mj_base::EndId;
use mj_schema::Schema;
use std::alloc::{AllocError, Global};
use wire_model::MessageSide;

/// The responder of what was got at an end, where that is a request and its method has a response.
fn responder_of(schema: &Schema, end: EndId, got: &Got) -> Option<ResponderId> {
    if got.target.side == MessageSide::Response || !responds(schema, got.target) {
        return None;
    }
    Some(ResponderId {
        end,
        id: got.id,
        request: got.request,
        interface: got.target.interface,
        method: got.target.method,
    })
}

/// The responder that an event handed out: that of a request which was got, where its method has a response.
pub fn handed(schema: &Schema, event: &Event) -> Option<ResponderId> {
    match (&event.told, &event.asked) {
        (Told::Taken(got), Asked::Take(end)) => responder_of(schema, *end, got.get()),
        _ => None,
    }
}

/// The responder that an event spent.
fn spent(event: &Event) -> Option<ResponderId> {
    match (&event.told, &event.asked) {
        (Told::Sent(_, _), Asked::Answer(responder, _)) => Some(*responder),
        (Told::Closed(_), Asked::Close(Closing::Responder(responder))) => Some(*responder),
        _ => None,
    }
}

/// Takes the first one of a name out.
fn take_out(responders: &mut Vec<ResponderId>, name: ResponderId) {
    if let Some(place) = responders.iter().position(|other| *other == name) {
        responders.remove(place);
    }
}

/// The responders that are with callers, in the order in which they came.
fn out(alloc: Global, schema: &Schema, past: &[Event]) -> Result<Vec<ResponderId>, AllocError> {
    let mut responders = Vec::new(alloc);
    for event in past {
        if let Some(name) = spent(event) {
            take_out(&mut responders, name);
        }
        if let Some(name) = handed(schema, event) {
            responders.push(name)?;
        }
    }
    Ok(responders)
}

/// Whether a responder of this name is with a caller.
pub fn is_responder_out(
    alloc: Global,
    schema: &Schema,
    past: &[Event],
    name: ResponderId,
) -> Result<bool, AllocError> {
    Ok(out(alloc, schema, past)?.contains(&name))
}
