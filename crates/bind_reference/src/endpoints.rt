//! The replies where an associated endpoint is made or attached.

use bind_model::limits::REMOTE_IDS;
use bind_model::{PendingId, State, Told, Why};
use handle_table::Thing;
use mj_base::{EndId, SeqId};
use mj_schema::Schema;
use past_reference::mail::Mail;
use past_reference::past::is_gone;
use past_reference::pendings::{endpoints_made, is_local, is_pending_out};
use past_reference::refusals::{first_of, unless};
use wire_encoder::EndpointSide;

/// The next id that an end makes, whose endpoint 0 is of this side.
fn next_id(mail: &Mail<'_>, end: EndId, side: EndpointSide) -> u32 {
    let made = u32::try_from(endpoints_made(mail.past, end)).unwrap_or(u32::MAX);
    let number = made.saturating_add(1);
    match side {
        EndpointSide::Remote => number.saturating_add(REMOTE_IDS),
        EndpointSide::Receiver => number,
    }
}

/// The reply where an endpoint of an end is made.
pub fn associated(schema: &Schema, mail: &Mail<'_>, end: EndId, interface: u32) -> Told {
    let Some(main) = mail.endpoint(end, 0) else {
        return Told::No(Why::NoName);
    };
    if interface as usize >= schema.interfaces.len() {
        return Told::No(Why::NoName);
    }
    if is_gone(mail.past, Thing::End(end)) {
        return Told::No(Why::Disconnected);
    }
    Told::Associated(PendingId {
        end,
        id: next_id(mail, end, main.side),
    })
}

/// The reply where a pending is attached on a sequence, of so many.
pub fn attached(seqs: u32, mail: &Mail<'_>, pending: PendingId, on: SeqId) -> Told {
    let is_own = is_pending_out(mail.past, pending) && on.0 < seqs;
    let endpoint = mail.endpoint(pending.end, pending.id);
    let is_closed = is_gone(mail.past, Thing::End(pending.end))
        || endpoint.is_some_and(|endpoint| endpoint.state == State::Closed);
    let refusal = first_of(&[
        unless(is_own, Why::NoName),
        unless(!is_closed, Why::Disconnected),
        unless(!is_local(mail.past, pending), Why::WrongPipe(pending.id)),
    ]);
    match refusal {
        Some(why) => Told::No(why),
        None => Told::Attached(pending.id),
    }
}
