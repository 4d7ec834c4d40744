//! The one reply to a command, by the events before it.

use crate::answering::answered;
use crate::call::called;
use crate::close::closed;
use crate::endpoints::{associated, attached};
use crate::notify::{notified, paused};
use crate::raw::wrote;
use crate::take::took;
use bind_model::{Asked, Endpoint, Event, State, Told, Why};
use data_reference::{made, moved};
use handle_table::{Thing, TokenId};
use mj_base::{EndId, Items, SeqId};
use mj_schema::Schema;
use past_reference::mail::Mail;
use past_reference::past::{ends_made, is_out, tokens_made};
use past_reference::refusals::unless;
use std::alloc::{AllocError, Global};

/// The test that an endpoint doesn't wait to be attached.
pub fn unbound(id: u32, endpoint: Endpoint) -> Option<Why> {
    match endpoint.state {
        State::Pending => Some(Why::Unbound(id)),
        State::Bound(_) | State::Closed => None,
    }
}

/// The test that an endpoint is bound nowhere else.
pub fn elsewhere(seq: SeqId, endpoint: Endpoint) -> Option<Why> {
    match endpoint.state {
        State::Bound(other) => unless(other == seq, Why::Elsewhere(other)),
        State::Pending | State::Closed => None,
    }
}

/// Two new ends, each with the next number of its sequence.
fn join(alloc: Global, past: &[Event], seq: SeqId, other: SeqId) -> Result<Told, AllocError> {
    let first = EndId {
        seq: seq.0,
        serial: ends_made(alloc, past, seq.0)?,
    };
    let before = if other == seq { 1 } else { 0 };
    let second = EndId {
        seq: other.0,
        serial: ends_made(alloc, past, other.0)?.saturating_add(before),
    };
    let ends = vec![in alloc; Thing::End(first), Thing::End(second)]?;
    Ok(Told::Made(Items::from_vec(ends)))
}

/// A new token, with the next number of its sequence.
fn mint(alloc: Global, past: &[Event], seq: SeqId) -> Result<Told, AllocError> {
    let token = TokenId {
        seq: seq.0,
        serial: tokens_made(alloc, past, seq.0)?,
    };
    let things = vec![in alloc; Thing::Token(token)]?;
    Ok(Told::Made(Items::from_vec(things)))
}

/// What comes of binding a thing.
fn bind(schema: &Schema, past: &[Event], thing: Thing, interface: u32) -> Told {
    if !is_out(past, thing) || interface as usize >= schema.interfaces.len() {
        return Told::No(Why::NoName);
    }
    match thing {
        Thing::End(end) => Told::Bound(end),
        Thing::Token(_) => Told::No(Why::NotPipe),
    }
}

/// The one reply to a command of a sequence, of so many, where this is what the events before leave.
fn reply(
    alloc: Global,
    schema: &Schema,
    seqs: u32,
    mail: &Mail<'_>,
    seq: SeqId,
    asked: &Asked,
) -> Result<Told, AllocError> {
    let past = mail.past;
    match asked {
        Asked::Pipe => join(alloc, past, seq, seq),
        Asked::Join(other) if other.0 < seqs => join(alloc, past, seq, *other),
        Asked::Join(_) => Ok(Told::No(Why::NoName)),
        Asked::Mint(_) => mint(alloc, past, seq),
        Asked::Bind(thing, _, interface) => Ok(bind(schema, past, *thing, *interface)),
        Asked::Associate(end, _, interface) => Ok(associated(schema, mail, *end, *interface)),
        Asked::Attach(pending, on) => Ok(attached(seqs, mail, *pending, *on)),
        Asked::Call(end, id, outgoing) => {
            called(alloc, schema, mail, seq, *end, *id, outgoing.get())
        }
        Asked::Answer(responder, outgoing) => {
            answered(alloc, schema, mail, seq, *responder, outgoing.get())
        }
        Asked::Raw(thing, bytes, handles) => {
            wrote(alloc, mail, *thing, bytes.as_slice(), handles.as_slice())
        }
        Asked::Take(end) => took(alloc, schema, mail, seq, *end),
        Asked::Close(closing) => closed(alloc, schema, mail, seq, *closing),
        Asked::Skip(_) => Ok(Told::Skipped),
        Asked::Notify(end, notice) => notified(alloc, mail, seq, *end, *notice),
        Asked::Pause(end, other, _) => Ok(paused(mail, seq, *end, *other)),
        Asked::Data(capacity) => made(alloc, past, seq, *capacity),
        Asked::Flow(thing, flow) => moved(alloc, past, *thing, flow),
    }
}

/// The one reply to a command of a sequence, of so many.
pub fn answer(
    alloc: Global,
    schema: &Schema,
    seqs: u32,
    past: &[Event],
    seq: SeqId,
    asked: &Asked,
) -> Result<Told, AllocError> {
    let mail = Mail::new(alloc, schema, past)?;
    reply(alloc, schema, seqs, &mail, seq, asked)
}
