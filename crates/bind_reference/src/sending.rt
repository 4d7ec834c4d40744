//! The tests that all that writes has in common.

use bind_model::{Outgoing, PendingId, Why};
use data_reference::busy;
use handle_table::Thing;
use mj_base::EndId;
use mj_base::limits::MAX_UNREAD_MESSAGES;
use mj_schema::Schema;
use past_reference::kinds::{Named, endpoints_named};
use past_reference::mail::{Mail, Text};
use past_reference::past::{is_gone, is_out, peer};
use past_reference::pendings::{is_local, is_pending_out};
use past_reference::refusals::unless;
use past_reference::values::handles_named;
use std::alloc::{AllocError, Global};

/// Whether nothing stands twice in a list.
fn are_distinct<T: PartialEq + Drop>(items: &[T]) -> bool {
    for (k, item) in items.iter().enumerate() {
        if items[..k].contains(item) {
            return false;
        }
    }
    true
}

/// Whether the handles of all these things are with callers, and none stands twice.
pub fn are_out(mail: &Mail<'_>, things: &[Thing]) -> bool {
    things.iter().all(|thing| is_out(mail.past, *thing)) && are_distinct(things)
}

/// Whether all that goes with a call or an answer is with callers, and nothing stands twice.
pub fn is_owned(mail: &Mail<'_>, outgoing: &Outgoing) -> bool {
    let pendings = outgoing.pendings.as_slice();
    are_out(mail, outgoing.handles.as_slice())
        && pendings
            .iter()
            .all(|pending| is_pending_out(mail.past, *pending))
        && are_distinct(pendings)
}

/// Whether a pending is of the side and the interface of its place. One that was made here is the other half of
/// the endpoint here.
fn suits(mail: &Mail<'_>, pending: PendingId, named: Named) -> bool {
    let Some(here) = mail.endpoint(pending.end, pending.id) else {
        return false;
    };
    let is_same_side = here.side == named.endpoint.side;
    here.interface == named.endpoint.interface && is_same_side != is_local(mail.past, pending)
}

/// Whether it carries as many handles and endpoints as its parameters name, and each endpoint suits.
pub fn has_tokens(
    alloc: Global,
    schema: &Schema,
    mail: &Mail<'_>,
    outgoing: &Outgoing,
) -> Result<bool, AllocError> {
    let parameters = outgoing.parameters.value(alloc)?;
    let handles = handles_named(alloc, &parameters)?;
    let named = endpoints_named(alloc, schema, outgoing.target, &parameters)?;
    let pendings = outgoing.pendings.as_slice();
    Ok(
        handles.len() == outgoing.handles.len()
            && named.len() == pendings.len()
            && pendings
                .iter()
                .zip(&named)
                .all(|(pending, one)| suits(mail, *pending, *one)),
    )
}

/// The test that all pendings were made at the end that is written at: the first that wasn't.
pub fn wrong_pipe(mail: &Mail<'_>, end: EndId, pendings: &[PendingId]) -> Option<Why> {
    for pending in pendings {
        if pending.end != end || !is_local(mail.past, *pending) {
            return Some(Why::WrongPipe(pending.id));
        }
    }
    None
}

/// Whether as many messages as may lie unread at an end. Emitted ones aren't counted.
fn is_full(alloc: Global, mail: &Mail<'_>, end: EndId) -> Result<bool, AllocError> {
    let unread = mail.unread(alloc, end)?;
    let counted = unread.iter().filter(|letter| matches!(
        letter.text,
        Text::Bytes(_) | Text::Written(_)
    ));
    Ok(counted.count() >= MAX_UNREAD_MESSAGES)
}

/// The last tests of what is written at an end: no handle is of the end that it would go to, nor a token at which
/// something is begun; that end is open, and the peer of its endpoint isn't known to be closed; and there is room.
pub fn cannot_write(
    alloc: Global,
    mail: &Mail<'_>,
    end: EndId,
    peer_closed: bool,
    handles: &[Thing],
) -> Result<[Option<Why>; 4], AllocError> {
    let other = Thing::End(peer(mail.past, end));
    let is_lost = is_gone(mail.past, other) || peer_closed;
    let is_full = is_full(alloc, mail, peer(mail.past, end))?;
    Ok([
        unless(!handles.contains(&other), Why::SelfSend),
        busy(mail.past, handles),
        unless(!is_lost, Why::Disconnected),
        unless(!is_full, Why::Full),
    ])
}
