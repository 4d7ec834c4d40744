//! The reply to a call.

use crate::replies::{elsewhere, unbound};
use crate::sending::{cannot_write, has_tokens, is_owned, wrong_pipe};
use bind_model::{Endpoint, Outgoing, State, Told, Why};
use handle_table::Thing;
use mj_base::{EndId, Items, SeqId};
use mj_schema::Schema;
use past_reference::mail::Mail;
use past_reference::past::{drawn, is_gone};
use past_reference::refusals::{first_of, unless};
use past_reference::wire::{responds, sealed};
use std::alloc::{AllocError, Global};
use wire_encoder::EndpointSide;
use wire_model::MessageSide;

/// The first test that a call fails.
fn refusal(
    alloc: Global,
    schema: &Schema,
    mail: &Mail<'_>,
    seq: SeqId,
    end: EndId,
    id: u32,
    endpoint: Endpoint,
    outgoing: &Outgoing,
) -> Result<Option<Why>, AllocError> {
    let target = outgoing.target;
    let is_closed = is_gone(mail.past, Thing::End(end)) || endpoint.state == State::Closed;
    let is_own = target.interface == endpoint.interface && target.side == MessageSide::Request;
    let handles = outgoing.handles.as_slice();
    let [back, busy, lost, full] = cannot_write(alloc, mail, end, endpoint.peer_closed, handles)?;
    Ok(first_of(&[
        unless(is_owned(mail, outgoing), Why::NoName),
        unless(!is_closed, Why::Disconnected),
        unbound(id, endpoint),
        elsewhere(seq, endpoint),
        unless(endpoint.side == EndpointSide::Remote, Why::WrongSide),
        unless(is_own, Why::WrongMethod),
        unless(has_tokens(alloc, schema, mail, outgoing)?, Why::WrongTokens),
        wrong_pipe(mail, end, outgoing.pendings.as_slice()),
        back,
        busy,
        lost,
        full,
    ]))
}

/// What a call is told that nothing refuses.
fn send(
    alloc: Global,
    schema: &Schema,
    mail: &Mail<'_>,
    end: EndId,
    id: u32,
    outgoing: &Outgoing,
) -> Result<Told, AllocError> {
    let request = if responds(schema, outgoing.target) {
        (drawn(mail.past, end, id) as u64).saturating_add(1)
    } else {
        0
    };
    let bytes = sealed(alloc, schema, id, request, outgoing)?;
    Ok(Told::Sent(request, Items::from_vec(bytes)))
}

/// The reply to a call from the endpoint of an id at an end.
pub fn called(
    alloc: Global,
    schema: &Schema,
    mail: &Mail<'_>,
    seq: SeqId,
    end: EndId,
    id: u32,
    outgoing: &Outgoing,
) -> Result<Told, AllocError> {
    let Some(endpoint) = mail.endpoint(end, id) else {
        return Ok(Told::No(Why::NoName));
    };
    match refusal(alloc, schema, mail, seq, end, id, endpoint, outgoing)? {
        Some(why) => Ok(Told::No(why)),
        None => send(alloc, schema, mail, end, id, outgoing),
    }
}
