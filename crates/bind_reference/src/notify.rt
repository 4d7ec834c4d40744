//! The replies where an end writes a control, and where it is told to wait.

use crate::replies::{elsewhere, unbound};
use crate::sending::cannot_write;
use bind_model::{Notice, Notified, State, Told, Why};
use handle_table::Thing;
use mj_base::{EndId, SeqId};
use past_reference::mail::Mail;
use past_reference::notices::next_flush;
use past_reference::past::is_gone;
use past_reference::refusals::{first_of, unless};
use std::alloc::{AllocError, Global};
use wire_encoder::EndpointSide;

/// The reply where an end writes a control. A flush is of the end as a whole: whatever its side is, and whether the
/// peer of its endpoint 0 is known to be closed or not.
pub fn notified(
    alloc: Global,
    mail: &Mail<'_>,
    seq: SeqId,
    end: EndId,
    notice: Notice,
) -> Result<Told, AllocError> {
    let (id, is_flush, told) = match notice {
        Notice::Query(id) => (id, false, Notified::Asking),
        Notice::Require(id, _) => (id, false, Notified::Requiring),
        Notice::Flush => (0, true, Notified::Flushing(next_flush(mail.past, end))),
    };
    let Some(endpoint) = mail.endpoint(end, id) else {
        return Ok(Told::No(Why::NoName));
    };
    let is_closed = is_gone(mail.past, Thing::End(end)) || endpoint.state == State::Closed;
    let is_marked = !is_flush && endpoint.peer_closed;
    let [back, busy, lost, full] = cannot_write(alloc, mail, end, is_marked, &[])?;
    let refusal = first_of(&[
        unless(!is_closed, Why::Disconnected),
        unbound(id, endpoint),
        elsewhere(seq, endpoint),
        unless(
            is_flush || endpoint.side == EndpointSide::Remote,
            Why::WrongSide,
        ),
        back,
        busy,
        lost,
        full,
    ]);
    match refusal {
        Some(why) => Ok(Told::No(why)),
        None => Ok(Told::Notified(told)),
    }
}

/// The reply where an end is told to wait for another. Where that is bound matters only while it is open.
pub fn paused(mail: &Mail<'_>, seq: SeqId, end: EndId, other: EndId) -> Told {
    let (Some(main), Some(far)) = (mail.endpoint(end, 0), mail.endpoint(other, 0)) else {
        return Told::No(Why::NoName);
    };
    let there = if is_gone(mail.past, Thing::End(other)) {
        None
    } else {
        elsewhere(seq, far)
    };
    let refusal = first_of(&[
        unless(!is_gone(mail.past, Thing::End(end)), Why::Disconnected),
        elsewhere(seq, main),
        there,
        unless(end != other, Why::SelfPause),
    ]);
    match refusal {
        Some(why) => Told::No(why),
        None => Told::Pausing,
    }
}
