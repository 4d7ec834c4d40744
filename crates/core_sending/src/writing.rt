//! What a message is made of, and the end that it goes to.

ghost use Rattle.std.specs.Prelude.{◌≡◌, ◌<◌, ◌==◌, ◌&&◌, false, length, IfOk, IsSome, OnErr, OnOk};
ghost use Rattle.mj_base.specs.declared.limits.TheConstants.{MAX_UNREAD_MESSAGES};
ghost use Rattle.message_pipe.specs.Contents.{Becomes};
ghost use Rattle.message_pipe.specs.Ends.{end_of, peer_of, unread_at, with_message};
ghost use Rattle.message_pipe.specs.Mail.{weighs};
ghost use Rattle.wire_model.specs.Message.{AreIds};
ghost use Rattle.bind_model.specs.Replies.{ids_of};
ghost use Rattle.core_sending.specs.Calls.{AreOf, outgoing_named, sealed_bytes};
ghost use Rattle.core_sending.specs.Fitting.{suits, way_with};
ghost use Rattle.core_sending.specs.Ways.{way_at, way_to};

use crate::carried::CarriedNames;
use crate::fitting::{all_fit, wrong_pipe};
use bind_model::{Boxed, KeptParameters, Outgoing, PendingId, Why};
use core_state::{Routers, State, contains};
use data_pipe::DataTable;
use handle_table::Thing;
use message_pipe::{Message, Pipes, PushRefused};
use mj_base::{EndId, Items};
use std::alloc::{AllocError, Global};
use wire_encoder::{Head, Prepared, seal};

/// The end that a message with these handles goes to, unless nothing can be written there.
fn way_at(
    pipes: &Pipes,
    flows: &DataTable,
    peer: EndId,
    peer_closed: bool,
    things: &[Thing],
) -> Result<EndId, Why>
    ensures { result ≡ way_at pipes.now flows.now peer_closed things.now peer }
{
    if contains(things, Thing::End(peer)) {
        return Err(Why::SelfSend);
    }
    if let Some(token) = flows.first_begun(things) {
        return Err(Why::Busy(token));
    }
    if pipes.is_closed(peer) || peer_closed {
        return Err(Why::Disconnected);
    }
    if pipes.is_full(peer) {
        return Err(Why::Full);
    }
    Ok(peer)
}

/// The end that a message from another goes to, unless nothing can be written there.
pub(crate) fn way_to(
    pipes: &Pipes,
    flows: &DataTable,
    end: EndId,
    peer_closed: bool,
    things: &[Thing],
) -> Result<EndId, Why>
    ensures { result ≡ way_to pipes.now flows.now peer_closed things.now (peer_of (end_of pipes.now.ends end)) }
{
    match pipes.peer(end) {
        None => Err(Why::NoName),
        Some(peer) => way_at(pipes, flows, peer, peer_closed, things),
    }
}

/// Whether there are as many handles as the parameters name, and the pendings that they want.
pub fn suits(prepared: &Prepared, names: &CarriedNames, endpoints: &Routers) -> bool
    ensures { result ≡ suits prepared.now names.now endpoints.now }
{
    names.things.len() == prepared.handles as usize
        && all_fit(
            endpoints,
            names.pendings.as_slice(),
            prepared.endpoints.as_slice(),
        )
}

/// The end that a message with this goes to from an end, unless it doesn't fit, or nothing can be written
/// there.
pub(crate) fn way_with(
    state: &State,
    prepared: &Prepared,
    names: &CarriedNames,
    end: EndId,
    peer_closed: bool,
) -> Result<EndId, Why>
    ensures { result ≡ way_with prepared.now names.now state.now.pipes state.now.tables.flows state.now.endpoints end peer_closed }
{
    if !suits(prepared, names, &state.endpoints) {
        return Err(Why::WrongTokens);
    }
    match wrong_pipe(&state.endpoints, end, names.pendings.as_slice()) {
        Some(why) => Err(why),
        None => way_to(
            &state.pipes,
            &state.tables.flows,
            end,
            peer_closed,
            names.things.as_slice(),
        ),
    }
}

/// Writes a message for reading at an end that isn't full. Without memory nothing changes.
pub(crate) fn put_message(pipes: &mut Pipes, end: EndId, message: Message) -> Result<(), AllocError>
    requires there { IsSome (end_of pipes.old.ends end) }
    requires room { weighs (unread_at pipes.old.ends end) < MAX_UNREAD_MESSAGES }
    ensures ok { OnOk result (Becomes end (with_message message) pipes.old pipes.new) }
    ensures err { OnErr result (pipes.new ≡ pipes.old) }
{
    match pipes.push(end, message) {
        Ok(()) => Ok(()),
        Err(PushRefused::Memory(_)) => Err(AllocError),
        Err(PushRefused::Full(_)) => unreachable!(),
    }
}

/// What goes out with these names and this moment, as plain data.
pub fn outgoing(
    alloc: Global,
    prepared: &Prepared,
    names: CarriedNames,
    moment: Option<i64>,
) -> Result<Boxed<Outgoing>, AllocError>
    ensures { IfOk result (λ outgoing. outgoing ≡ outgoing_named prepared.now names moment) }
{
    let CarriedNames { things, pendings } = names;
    let parameters = KeptParameters::of(alloc, &prepared.value)?;
    let target = prepared.target;
    let outgoing = Outgoing::apart(alloc, target, parameters, things, pendings, moment)?;
    Ok(outgoing)
}

/// The ids of pendings, in order.
fn ids_of(alloc: Global, pendings: &[PendingId]) -> Result<Vec<u32>, AllocError>
    ensures { IfOk result (λ ids. ids.items ≡ ids_of pendings.now) }
{
    let mut ids = Vec::new(alloc);
    for pending in pendings {
        ids.push(pending.id)?;
    }
    Ok(ids)
}

/// All that a call or an answer writes: what goes out as plain data, its message, and the bytes twice, for
/// the history and for the caller.
#[derive(Drop)]
pub struct Writes {
    pub outgoing: Boxed<Outgoing>,
    pub message: Message,
    pub noted: Items<u8>,
    pub told: Items<u8>,
}

/// The bytes of what is prepared, for the endpoint of an id, with this request id, this moment and the ids of these pendings.
fn bytes_for(
    alloc: Global,
    prepared: &Prepared,
    id: u32,
    request_id: u64,
    pendings: &[PendingId],
    moment: Option<i64>,
) -> Result<Items<u8>, AllocError>
    requires wanted { length (ids_of pendings.now) ≡ length prepared.now.endpoints.items }
    requires ids { AreIds (ids_of pendings.now) }
    ensures { IfOk result (λ bytes. bytes ≡ sealed_bytes id request_id moment (ids_of pendings.now) prepared.now) }
{
    let ids = ids_of(alloc, pendings)?;
    let head = Head {
        interface_id: id,
        request_id,
        moment,
        ids: ids.as_slice(),
    };
    Ok(Items::from_vec(seal(alloc, prepared, &head)?))
}

/// A message of these bytes, with these handles.
fn message_with(
    alloc: Global,
    bytes: Items<u8>,
    things: &Items<Thing>,
) -> Result<Message, AllocError>
    ensures { IfOk result (λ message. message ≡ record { bytes = bytes; handles = things.now; emitted = false }) }
{
    let handles = things.copy(alloc)?;
    Ok(Message {
        bytes,
        handles,
        emitted: false,
    })
}

/// Makes all that is written for the endpoint of an id, with this request id and this moment.
pub fn writes_of(
    alloc: Global,
    prepared: &Prepared,
    id: u32,
    request_id: u64,
    names: CarriedNames,
    moment: Option<i64>,
) -> Result<Writes, AllocError>
    requires wanted { length (ids_of names.pendings) ≡ length prepared.now.endpoints.items }
    requires ids { AreIds (ids_of names.pendings) }
    ensures { IfOk result (λ writes. AreOf prepared.now names moment (sealed_bytes id request_id moment (ids_of names.pendings) prepared.now) writes) }
{
    let pendings = names.pendings.as_slice();
    let bytes = bytes_for(alloc, prepared, id, request_id, pendings, moment)?;
    let noted = bytes.copy(alloc)?;
    let told = bytes.copy(alloc)?;
    let message = message_with(alloc, bytes, &names.things)?;
    let outgoing = outgoing(alloc, prepared, names, moment)?;
    Ok(Writes {
        outgoing,
        message,
        noted,
        told,
    })
}
