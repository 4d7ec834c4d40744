//! The end that a message goes to.

ghost use Rattle.std.specs.Prelude.{◌≡◌, IsSome, OnOk};
ghost use Rattle.message_pipe.specs.Contents.{Becomes};
ghost use Rattle.message_pipe.specs.Ends.{end_of, peer_of, with_message};
ghost use Rattle.core_sending.specs.Fitting.{way_with};
ghost use Rattle.core_sending.specs.Ways.{way_at, way_to};

use crate::tables::EventTables;
use bind_model::Why;
use core_sending::carried::CarriedNames;
use core_sending::fitting::wrong_pipe;
use core_sending::writing::suits;
use core_state::contains;
use data_pipe::DataTable;
use handle_table::Thing;
use message_pipe::{Message, ThingPipes};
use mj_base::EndId;
use std::alloc::AllocError;
use wire_encoder::Prepared;

/// The end that a message with these things goes to, unless nothing can be written there.
fn way_at(
    pipes: &ThingPipes,
    flows: &DataTable,
    peer: EndId,
    peer_closed: bool,
    things: &[Thing],
) -> Result<EndId, Why>
    ensures { result ≡ way_at pipes.now flows.now peer_closed things.now peer }
{
    if contains(things, Thing::End(peer)) {
        return Err(Why::SelfSend);
    }
    if let Some(token) = flows.first_begun(things) {
        return Err(Why::Busy(token));
    }
    if pipes.is_closed(peer) || peer_closed {
        return Err(Why::Disconnected);
    }
    if pipes.is_full(peer) {
        return Err(Why::Full);
    }
    Ok(peer)
}

/// The end that a message from another goes to, unless nothing can be written there.
pub(crate) fn way_to(
    pipes: &ThingPipes,
    flows: &DataTable,
    end: EndId,
    peer_closed: bool,
    things: &[Thing],
) -> Result<EndId, Why>
    ensures { result ≡ way_to pipes.now flows.now peer_closed things.now (peer_of (end_of pipes.now.ends end)) }
{
    match pipes.peer(end) {
        None => Err(Why::NoName),
        Some(peer) => way_at(pipes, flows, peer, peer_closed, things),
    }
}

/// The end that a message with this goes to from an end, unless it doesn't fit, or nothing can be written
/// there.
pub(crate) fn way_with(
    tables: &EventTables,
    prepared: &Prepared,
    names: &CarriedNames,
    end: EndId,
    peer_closed: bool,
) -> Result<EndId, Why>
    ensures { result ≡ way_with prepared.now names.now tables.now.pipes tables.now.tables.flows tables.now.endpoints end peer_closed }
{
    if !suits(prepared, names, &tables.endpoints) {
        return Err(Why::WrongTokens);
    }
    match wrong_pipe(&tables.endpoints, end, names.pendings.as_slice()) {
        Some(why) => Err(why),
        None => way_to(
            &tables.pipes,
            &tables.tables.flows,
            end,
            peer_closed,
            names.things.as_slice(),
        ),
    }
}

/// Writes a message for reading at an end that was made.
pub(crate) fn put_message(
    pipes: &mut ThingPipes,
    end: EndId,
    message: Message,
) -> Result<(), AllocError>
    requires { IsSome (end_of pipes.old.ends end) }
    ensures { OnOk result (Becomes end (with_message message) pipes.old pipes.new) }
{
    match pipes.push(end, message) {
        Ok(()) => Ok(()),
        Err(_) => Err(AllocError),
    }
}
