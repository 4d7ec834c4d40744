//! The reply to a take.

use bind_model::{BadWhy, Endpoint, Got, KeptParameters, Noted, PendingId, State, Told, Why};
use control_bytes::Control;
use handle_table::Thing;
use mj_base::{EndId, Items, SeqId};
use mj_schema::Schema;
use past_reference::entering::{ids_in, is_strange};
use past_reference::goes::goes;
use past_reference::kinds::endpoints_named;
use past_reference::mail::{Letter, Mail, Text};
use past_reference::notices::{is_awaited, paused_by};
use past_reference::past::{is_asked, is_gone, peer};
use past_reference::values::handles_named;
use past_reference::wire::{Content, Whom, meant_for, stands, version_at};
use std::alloc::{AllocError, Global};
use wire_model::MessageSide;

/// What is told of a bad message: all that goes with its end.
fn bad(alloc: Global, mail: &Mail<'_>, end: EndId, why: BadWhy) -> Result<Told, AllocError> {
    let things = goes(alloc, mail, None, vec![in alloc; Thing::End(end)]?)?;
    Ok(Told::Bad(why, Items::from_vec(things)))
}

/// What is told of a message whose endpoint isn't there or is closed: all that goes with its handles.
fn dropped(
    alloc: Global,
    mail: &Mail<'_>,
    end: EndId,
    id: u32,
    letter: Letter<'_>,
) -> Result<Told, AllocError> {
    let handles = Vec::from_slice(alloc, letter.handles)?;
    let things = goes(alloc, mail, Some(end), handles)?;
    Ok(Told::Dropped(id, Items::from_vec(things)))
}

/// The things whose places stand in a list, or those whose places don't.
fn picked(
    alloc: Global,
    places: &[u32],
    things: &[Thing],
    wanted: bool,
) -> Result<Vec<Thing>, AllocError> {
    let mut picked = Vec::new(alloc);
    for (k, thing) in things.iter().enumerate() {
        let is_named = places.iter().any(|place| *place as usize == k);
        if is_named == wanted {
            picked.push(*thing)?;
        }
    }
    Ok(picked)
}

/// The pendings of the ids of a message that got parameters name, in order.
fn pendings_of(
    alloc: Global,
    schema: &Schema,
    end: EndId,
    letter: Letter<'_>,
    content: &Content,
) -> Result<Vec<PendingId>, AllocError> {
    let mut pendings = Vec::new(alloc);
    let ids = ids_in(alloc, letter)?;
    let named = endpoints_named(alloc, schema, content.target, &content.parameters)?;
    for (k, id) in ids.iter().enumerate() {
        if named.iter().any(|one| one.place as usize == k) {
            pendings.push(PendingId { end, id: *id })?;
        }
    }
    Ok(pendings)
}

/// The things of a message whose places got parameters name, or the others.
fn things_of(
    alloc: Global,
    letter: Letter<'_>,
    content: &Content,
    wanted: bool,
) -> Result<Vec<Thing>, AllocError> {
    let named = handles_named(alloc, &content.parameters)?;
    picked(alloc, &named, letter.handles, wanted)
}

/// What is told of a message that stands: what it stands for, the things and the endpoints that its parameters
/// name, and what goes with the other things.
fn accept(
    alloc: Global,
    schema: &Schema,
    mail: &Mail<'_>,
    end: EndId,
    id: u32,
    letter: Letter<'_>,
    content: &Content,
) -> Result<Told, AllocError> {
    let gone = things_of(alloc, letter, content, false)?;
    let gone = goes(alloc, mail, Some(end), gone)?;
    let handles = things_of(alloc, letter, content, true)?;
    let pendings = pendings_of(alloc, schema, end, letter, content)?;
    let parameters = KeptParameters::of(alloc, &content.parameters)?;
    let got = Got::apart(
        alloc,
        id,
        content.target,
        parameters,
        content.request,
        Items::from_vec(handles),
        Items::from_vec(pendings),
        Items::from_vec(gone),
        content.moment,
    )?;
    Ok(Told::Taken(got))
}

/// Whether it is a response that nobody waits for: the endpoint knows that its peer is closed, or there is no such
/// request that waits.
fn is_unasked(mail: &Mail<'_>, end: EndId, id: u32, endpoint: Endpoint, content: &Content) -> bool {
    let is_asked = is_asked(mail.past, end, id, content.request, content.target.method);
    content.target.side == MessageSide::Response && (endpoint.peer_closed || !is_asked)
}

/// The first id of a message that is strange.
fn strange_in(
    alloc: Global,
    mail: &Mail<'_>,
    end: EndId,
    letter: Letter<'_>,
) -> Result<Option<u32>, AllocError> {
    let ids = ids_in(alloc, letter)?;
    for (k, id) in ids.iter().enumerate() {
        if is_strange(mail, end, &ids[..k], *id) {
            return Ok(Some(*id));
        }
    }
    Ok(None)
}

/// What is told of a message for an endpoint that is bound on the sequence which takes.
fn judged(
    alloc: Global,
    schema: &Schema,
    mail: &Mail<'_>,
    end: EndId,
    id: u32,
    endpoint: Endpoint,
    letter: Letter<'_>,
    bytes: &[u8],
) -> Result<Told, AllocError> {
    let content = match stands(alloc, schema, endpoint, bytes, letter.handles.len())? {
        Ok(content) => content,
        Err(fault) => return bad(alloc, mail, end, BadWhy::Message(fault)),
    };
    if is_unasked(mail, end, id, endpoint, &content) {
        return bad(alloc, mail, end, BadWhy::Unasked(content.request));
    }
    match strange_in(alloc, mail, end, letter)? {
        Some(strange) => bad(alloc, mail, end, BadWhy::StrangeId(strange)),
        None => accept(alloc, schema, mail, end, id, letter, &content),
    }
}

/// What is told of a message for the endpoint of an id.
fn meant(
    alloc: Global,
    schema: &Schema,
    mail: &Mail<'_>,
    seq: SeqId,
    end: EndId,
    id: u32,
    letter: Letter<'_>,
    bytes: &[u8],
) -> Result<Told, AllocError> {
    let Some(endpoint) = mail.endpoint(end, id) else {
        return dropped(alloc, mail, end, id, letter);
    };
    match endpoint.state {
        State::Closed => dropped(alloc, mail, end, id, letter),
        State::Pending => Ok(Told::No(Why::Unbound(id))),
        State::Bound(other) if other != seq => Ok(Told::No(Why::Elsewhere(other))),
        State::Bound(_) => judged(alloc, schema, mail, end, id, endpoint, letter, bytes),
    }
}

/// What is told of a control, and when it is bad.
fn heard(
    alloc: Global,
    schema: &Schema,
    mail: &Mail<'_>,
    end: EndId,
    control: Control,
) -> Result<Told, AllocError> {
    match control {
        Control::Closed(id) => Ok(Told::Control(Noted::Closed(id))),
        Control::Query(id) => {
            let version = version_at(schema, mail.endpoint(end, id));
            Ok(Told::Control(Noted::Queried(id, version)))
        }
        Control::Version(id, version) => {
            if is_awaited(mail, end, id) {
                Ok(Told::Control(Noted::Version(id, version)))
            } else {
                bad(alloc, mail, end, BadWhy::Unasked(0))
            }
        }
        Control::Require(id, least) => match version_at(schema, mail.endpoint(end, id)) {
            Some(version) if version < least => bad(alloc, mail, end, BadWhy::TooOld(least)),
            _ => Ok(Told::Control(Noted::Required(id, least))),
        },
        Control::Flush(flush) => Ok(Told::Control(Noted::Flushed(flush))),
    }
}

/// What is told of the oldest unread message at an end.
fn headed(
    alloc: Global,
    schema: &Schema,
    mail: &Mail<'_>,
    seq: SeqId,
    end: EndId,
    letter: Letter<'_>,
) -> Result<Told, AllocError> {
    let bytes = match letter.text {
        Text::Bytes(bytes) => bytes,
        Text::Control(control) | Text::Written(control) => {
            return heard(alloc, schema, mail, end, control);
        }
    };
    match meant_for(bytes, letter.handles.len()) {
        Ok(Whom::For(id)) => meant(alloc, schema, mail, seq, end, id, letter, bytes),
        Ok(Whom::Machine(control)) => heard(alloc, schema, mail, end, control),
        Err(fault) => bad(alloc, mail, end, BadWhy::Message(fault)),
    }
}

/// The reply to a take at an end.
pub fn took(
    alloc: Global,
    schema: &Schema,
    mail: &Mail<'_>,
    seq: SeqId,
    end: EndId,
) -> Result<Told, AllocError> {
    if mail.endpoint(end, 0).is_none() {
        return Ok(Told::No(Why::NoName));
    }
    if is_gone(mail.past, Thing::End(end)) {
        return Ok(Told::No(Why::Disconnected));
    }
    if let Some(other) = paused_by(mail.past, end) {
        return Ok(Told::No(Why::Paused(other)));
    }
    match mail.oldest(alloc, end)? {
        Some(letter) => headed(alloc, schema, mail, seq, end, letter),
        None if is_gone(mail.past, Thing::End(peer(mail.past, end))) => {
            Ok(Told::No(Why::PeerClosed))
        }
        None => Ok(Told::No(Why::Empty)),
    }
}
