//! The ids that come with messages.

use crate::kinds::Named;
use crate::mail::{Letter, Mail, Text};
use bind_model::limits::REMOTE_IDS;
use bind_model::{Endpoint, State};
use message_header::read_header;
use mj_base::EndId;
use std::alloc::{AllocError, Global};
use wire_encoder::EndpointSide;

/// An id that enters the table of an end, and how.
#[derive(Clone, Copy)]
pub struct Entry {
    pub id: u32,
    pub endpoint: Endpoint,
}

/// The number of four bytes, the lowest first.
fn number(bytes: &[u8]) -> u32 {
    let mut number: u32 = 0;
    for byte in bytes.iter().rev() {
        number = number.saturating_mul(256).saturating_add(u32::from(*byte));
    }
    number
}

/// The ids that a message carries, in order.
pub fn ids_in(alloc: Global, letter: Letter<'_>) -> Result<Vec<u32>, AllocError> {
    let mut ids = Vec::new(alloc);
    let Text::Bytes(bytes) = letter.text else {
        return Ok(ids);
    };
    let Ok(header) = read_header(bytes) else {
        return Ok(ids);
    };
    for k in 0..header.ids.len / 4 {
        let from = header.ids.start.saturating_add(k.saturating_mul(4));
        let to = from.saturating_add(4);
        if let Some(part) = bytes.get(from as usize..to as usize) {
            ids.push(number(part))?;
        }
    }
    Ok(ids)
}

/// Whether an end makes such ids itself: those of a remote have their highest bit set.
fn makes(mail: &Mail<'_>, end: EndId, id: u32) -> bool {
    match mail.endpoint(end, 0) {
        Some(main) => (main.side == EndpointSide::Remote) == (id >= REMOTE_IDS),
        None => id < REMOTE_IDS,
    }
}

/// Whether an id is strange behind others: it is in the table, among these, or one that the end would make.
pub fn is_strange(mail: &Mail<'_>, end: EndId, earlier: &[u32], id: u32) -> bool {
    mail.endpoint(end, id).is_some() || earlier.contains(&id) || makes(mail, end, id)
}

/// How the id of this place enters: as what is named by its place, and else closed.
fn endpoint_as(named: &[Named], place: usize) -> Endpoint {
    match named.iter().find(|one| one.place as usize == place) {
        Some(one) => Endpoint {
            side: one.endpoint.side,
            interface: one.endpoint.interface,
            state: State::Pending,
            peer_closed: false,
        },
        None => Endpoint {
            side: EndpointSide::Remote,
            interface: 0,
            state: State::Closed,
            peer_closed: false,
        },
    }
}

/// The ids that enter with the oldest unread message at an end, in order: those that aren't strange.
pub fn entries(
    alloc: Global,
    mail: &Mail<'_>,
    end: EndId,
    named: &[Named],
) -> Result<Vec<Entry>, AllocError> {
    let mut entries = Vec::new(alloc);
    let Some(letter) = mail.oldest(alloc, end)? else {
        return Ok(entries);
    };
    let ids = ids_in(alloc, letter)?;
    for (place, id) in ids.iter().enumerate() {
        if !is_strange(mail, end, &ids[..place], *id) {
            let endpoint = endpoint_as(named, place);
            entries.push(Entry { id: *id, endpoint })?;
        }
    }
    Ok(entries)
}
