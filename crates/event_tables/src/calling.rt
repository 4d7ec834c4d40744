//! Calls: messages to the other end.

ghost use Rattle.std.specs.Prelude.{◌≡◌, Ok, OnOk};
ghost use Rattle.wire_encoder.specs.Prepared.{IsPrepared};
ghost use Rattle.bind_model.specs.declared.asked.Asked.TheVariants as asks;
ghost use Rattle.core_sending.specs.Calls.{number_of, outgoing_named};
ghost use Rattle.core_sending.specs.Carrying.{all_own};
ghost use Rattle.core_sending.specs.Fitting.{way};
ghost use Rattle.core_state.specs.Agreement.{schema_of};
ghost use Rattle.core_state.specs.Doing.{HasRoom};
ghost use Rattle.event_tables.specs.AsCore.{Steps, state_of};

use crate::carrying::{all_own, put_all, remove_all};
use crate::looks::open_at;
use crate::tables::{EventTables, refuse};
use crate::ways::{put_message, way_with};
use bind_model::{Asked, Event, Told, Why};
use core_sending::call::{asks_of, is_receiver, note_sent, reserve_sent};
use core_sending::carried::CarriedNames;
use core_sending::writing::{Writes, outgoing, writes_of};
use handle_table::Place;
use mj_base::{EndId, SeqId};
use std::alloc::{AllocError, Global};
use wire_encoder::Prepared;

/// What is called: the endpoint of an id at an end, what is sent from it, and a moment.
#[derive(Clone, Copy)]
pub struct Sending<'a> {
    pub end: EndId,
    pub id: u32,
    pub prepared: &'a Prepared,
    pub moment: Option<i64>,
}

/// The end that a call goes to, or why it is refused. It is told whether somebody has all that goes with it.
fn way(
    tables: &EventTables,
    seq: SeqId,
    sending: Sending<'_>,
    names: &CarriedNames,
    own: bool,
) -> Result<EndId, Why>
    ensures { result ≡ way seq sending.entry.end sending.entry.id sending.entry.prepared.now names.now own tables.now.pipes tables.now.tables.flows
        tables.now.endpoints }
{
    if !own {
        return Err(Why::NoName);
    }
    let endpoint = open_at(tables, seq, sending.end, sending.id)?;
    if is_receiver(endpoint.side) {
        return Err(Why::WrongSide);
    }
    if !asks_of(endpoint.interface, sending.prepared.target) {
        return Err(Why::WrongMethod);
    }
    way_with(
        tables,
        sending.prepared,
        names,
        sending.end,
        endpoint.peer_closed,
    )
}

/// The request id of a call: 1, 2, 3 and so on at each endpoint, or 0 where no response is expected.
fn request_id_of(tables: &EventTables, sending: Sending<'_>) -> u64
    ensures { result ≡ number_of tables.now.endpoints sending.entry.end sending.entry.id sending.entry.prepared.now }
{
    if sending.prepared.flags == 0 {
        return 0;
    }
    tables.endpoints.next_request(sending.end, sending.id)
}

/// Sends a prepared request from an endpoint, with the things and the pendings that its parameters name, or
/// notes why it isn't sent.
pub fn call(
    tables: &mut EventTables,
    alloc: Global,
    seq: SeqId,
    sending: Sending<'_>,
    names: CarriedNames,
) -> Result<(), AllocError>
    requires able { HasRoom (state_of tables.old) seq }
    requires prepared { IsPrepared (schema_of (state_of tables.old)) sending.prepared.now }
    ensures { OnOk result (Steps tables.old tables.new seq
        (asks.Call sending.entry.end sending.entry.id (outgoing_named sending.entry.prepared.now names sending.entry.moment))) }
{
    let own = all_own(alloc, &tables.pipes, &tables.pendings, &names)?;
    match way(tables, seq, sending, &names, own) {
        Ok(peer) => send(tables, alloc, seq, sending, names, peer),
        Err(why) => {
            let outgoing = outgoing(alloc, sending.prepared, names, sending.moment)?;
            let asked = Asked::Call(sending.end, sending.id, outgoing);
            refuse(tables, seq, asked, why);
            Ok(())
        }
    }
}

/// Writes a call that nothing refuses.
fn send(
    tables: &mut EventTables,
    alloc: Global,
    seq: SeqId,
    sending: Sending<'_>,
    names: CarriedNames,
    peer: EndId,
) -> Result<(), AllocError>
    requires able { HasRoom (state_of tables.old) seq }
    requires prepared { IsPrepared (schema_of (state_of tables.old)) sending.prepared.now }
    requires free { way seq sending.end sending.id sending.prepared.now names (all_own tables.old.pipes tables.old.pendings names)
        tables.old.pipes tables.old.tables.flows tables.old.endpoints ≡ Ok peer }
    ensures { OnOk result (Steps tables.old tables.new seq
        (asks.Call sending.entry.end sending.entry.id (outgoing_named sending.entry.prepared.now names sending.entry.moment))) }
{
    let request_id = request_id_of(tables, sending);
    let prepared = sending.prepared;
    let moment = sending.moment;
    let writes = writes_of(alloc, prepared, sending.id, request_id, names, moment)?;
    reserve_sent(&mut tables.endpoints, sending.end, sending.id, request_id)?;
    let Writes {
        outgoing,
        message,
        noted,
        told: _,
    } = writes;
    put_message(&mut tables.pipes, peer, message)?;
    let sent = outgoing.get();
    put_all(
        &mut tables.pipes,
        sent.handles.as_slice(),
        Place::Unread(peer),
    );
    remove_all(&mut tables.pendings, sent.pendings.as_slice());
    let method = prepared.target.method;
    note_sent(
        &mut tables.endpoints,
        sending.end,
        sending.id,
        request_id,
        method,
    );
    tables.log.push_reserved(Event {
        seq,
        asked: Asked::Call(sending.end, sending.id, outgoing),
        told: Told::Sent(request_id, noted),
    });
    Ok(())
}
