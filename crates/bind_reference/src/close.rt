//! The reply to a closing.

use crate::replies::{elsewhere, unbound};
use bind_model::{Closing, State, Told, Why};
use handle_table::Thing;
use mj_base::{EndId, Items, SeqId};
use mj_schema::Schema;
use past_reference::goes::goes;
use past_reference::mail::Mail;
use past_reference::past::{is_gone, is_out};
use past_reference::pendings::is_pending_out;
use past_reference::refusals::{first_of, unless};
use past_reference::responders::is_responder_out;
use std::alloc::{AllocError, Global};

/// What is told where a thing is closed: all that goes with it.
fn closed_with(alloc: Global, mail: &Mail<'_>, thing: Thing) -> Result<Told, AllocError> {
    let things = goes(alloc, mail, None, vec![in alloc; thing]?)?;
    Ok(Told::Closed(Items::from_vec(things)))
}

/// What is told where nothing goes with what is closed, if it is there.
fn closed_alone(alloc: Global, is_there: bool) -> Told {
    if is_there {
        Told::Closed(Items::new(alloc))
    } else {
        Told::No(Why::NoName)
    }
}

/// The reply to a closing of the endpoint of an id at an end.
fn closed_at(
    alloc: Global,
    mail: &Mail<'_>,
    seq: SeqId,
    end: EndId,
    id: u32,
) -> Result<Told, AllocError> {
    let Some(endpoint) = mail.endpoint(end, id) else {
        return Ok(Told::No(Why::NoName));
    };
    let is_closed = is_gone(mail.past, Thing::End(end)) || endpoint.state == State::Closed;
    let refusal = first_of(&[
        unless(!is_closed, Why::Disconnected),
        unbound(id, endpoint),
        elsewhere(seq, endpoint),
    ]);
    match refusal {
        Some(why) => Ok(Told::No(why)),
        None if id == 0 => closed_with(alloc, mail, Thing::End(end)),
        None => Ok(closed_alone(alloc, true)),
    }
}

/// The reply to a closing.
pub fn closed(
    alloc: Global,
    schema: &Schema,
    mail: &Mail<'_>,
    seq: SeqId,
    closing: Closing,
) -> Result<Told, AllocError> {
    match closing {
        Closing::Handle(thing) if is_out(mail.past, thing) => closed_with(alloc, mail, thing),
        Closing::Handle(_) => Ok(Told::No(Why::NoName)),
        Closing::Endpoint(end, id) => closed_at(alloc, mail, seq, end, id),
        Closing::Responder(responder) => {
            let is_out = is_responder_out(alloc, schema, mail.past, responder)?;
            Ok(closed_alone(alloc, is_out))
        }
        Closing::Pending(pending) => { Ok(closed_alone(alloc, is_pending_out(mail.past, pending))) }
    }
}
