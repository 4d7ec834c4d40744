//! Which end is taken from next when nobody asks, and by whom.

use crate::take::took;
use bind_model::{Endpoint, Event, State, Told};
use handle_table::Thing;
use mj_base::{EndId, SeqId};
use mj_schema::Schema;
use past_reference::mail::{Mail, Text};
use past_reference::past::made;
use past_reference::wire::{Whom, meant_for};
use std::alloc::{AllocError, Global};

/// The sequence that an endpoint is bound on.
fn on_of(endpoint: Option<Endpoint>) -> Option<SeqId> {
    match endpoint?.state {
        State::Bound(seq) => Some(seq),
        State::Pending | State::Closed => None,
    }
}

/// The endpoint that the oldest unread message at an end is for, where its header says one.
fn meant(alloc: Global, mail: &Mail<'_>, end: EndId) -> Result<Option<u32>, AllocError> {
    let Some(letter) = mail.oldest(alloc, end)? else {
        return Ok(None);
    };
    let Text::Bytes(bytes) = letter.text else {
        return Ok(None);
    };
    match meant_for(bytes, letter.handles.len()) {
        Ok(Whom::For(id)) => Ok(Some(id)),
        Ok(Whom::Machine(_)) | Err(_) => Ok(None),
    }
}

/// Who takes at an end: the sequence of the endpoint that the oldest message is for, where that is bound, and
/// else that of endpoint 0.
fn taker(alloc: Global, mail: &Mail<'_>, end: EndId) -> Result<Option<SeqId>, AllocError> {
    if let Some(id) = meant(alloc, mail, end)? {
        if let Some(seq) = on_of(mail.endpoint(end, id)) {
            return Ok(Some(seq));
        }
    }
    Ok(on_of(mail.endpoint(end, 0)))
}

/// Whether a take consumed a message, or found it bad.
fn is_settled(told: &Told) -> bool {
    matches!(
        told,
        Told::Taken(_) | Told::Dropped(_, _) | Told::Control(_) | Told::Bad(_, _)
    )
}

/// The sequence that takes at a thing, where it is an end and a take there would consume a message or find it
/// bad.
fn turn_at(
    alloc: Global,
    schema: &Schema,
    mail: &Mail<'_>,
    thing: Thing,
) -> Result<Option<(SeqId, EndId)>, AllocError> {
    let Thing::End(end) = thing else {
        return Ok(None);
    };
    let Some(seq) = taker(alloc, mail, end)? else {
        return Ok(None);
    };
    if is_settled(&took(alloc, schema, mail, seq, end)?) {
        Ok(Some((seq, end)))
    } else {
        Ok(None)
    }
}

/// The turn at the lesser end.
fn lesser(one: Option<(SeqId, EndId)>, other: Option<(SeqId, EndId)>) -> Option<(SeqId, EndId)> {
    match (one, other) {
        (Some((_, x)), Some((_, y))) if y < x => other,
        (Some(_), _) => one,
        (None, _) => other,
    }
}

/// The least end that is ready, behind the sequence that takes there.
pub fn ready(
    alloc: Global,
    schema: &Schema,
    past: &[Event],
) -> Result<Option<(SeqId, EndId)>, AllocError> {
    let mail = Mail::new(alloc, schema, past)?;
    let mut least = None;
    for thing in &made(alloc, past)? {
        least = lesser(least, turn_at(alloc, schema, &mail, *thing)?);
    }
    Ok(least)
}
