//! The reply to an answer.

use crate::replies::elsewhere;
use crate::sending::{cannot_write, has_tokens, is_owned, wrong_pipe};
use bind_model::{Endpoint, Outgoing, ResponderId, State, Told, Why};
use handle_table::Thing;
use mj_base::{Items, SeqId};
use mj_schema::Schema;
use past_reference::mail::Mail;
use past_reference::past::is_gone;
use past_reference::refusals::{first_of, unless};
use past_reference::responders::is_responder_out;
use past_reference::wire::sealed;
use std::alloc::{AllocError, Global};
use wire_model::MessageSide;

/// Whether it is the response of the method that the responder is for.
fn is_response_of(responder: ResponderId, outgoing: &Outgoing) -> bool {
    let target = outgoing.target;
    target.interface == responder.interface
        && target.method == responder.method
        && target.side == MessageSide::Response
}

/// The first test that an answer fails.
fn refusal(
    alloc: Global,
    schema: &Schema,
    mail: &Mail<'_>,
    seq: SeqId,
    responder: ResponderId,
    endpoint: Endpoint,
    outgoing: &Outgoing,
) -> Result<Option<Why>, AllocError> {
    let end = responder.end;
    let is_out = is_responder_out(alloc, schema, mail.past, responder)?;
    let is_closed = is_gone(mail.past, Thing::End(end)) || endpoint.state == State::Closed;
    let handles = outgoing.handles.as_slice();
    let [back, busy, lost, full] = cannot_write(alloc, mail, end, endpoint.peer_closed, handles)?;
    Ok(first_of(&[
        unless(is_out && is_owned(mail, outgoing), Why::NoName),
        unless(!is_closed, Why::Disconnected),
        elsewhere(seq, endpoint),
        unless(is_response_of(responder, outgoing), Why::WrongMethod),
        unless(has_tokens(alloc, schema, mail, outgoing)?, Why::WrongTokens),
        wrong_pipe(mail, end, outgoing.pendings.as_slice()),
        back,
        busy,
        lost,
        full,
    ]))
}

/// The reply to an answer by a responder.
pub fn answered(
    alloc: Global,
    schema: &Schema,
    mail: &Mail<'_>,
    seq: SeqId,
    responder: ResponderId,
    outgoing: &Outgoing,
) -> Result<Told, AllocError> {
    let Some(endpoint) = mail.endpoint(responder.end, responder.id) else {
        return Ok(Told::No(Why::NoName));
    };
    match refusal(alloc, schema, mail, seq, responder, endpoint, outgoing)? {
        Some(why) => Ok(Told::No(why)),
        None => {
            let request = responder.request;
            let bytes = sealed(alloc, schema, responder.id, request, outgoing)?;
            Ok(Told::Sent(request, Items::from_vec(bytes)))
        }
    }
}
