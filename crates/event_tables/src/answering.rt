//! Answers: responses that go back to requests.

ghost use Rattle.std.specs.Prelude.{◌≡◌, ◌==◌, ◌&&◌, not, Ok, IfOk, OnOk};
ghost use Rattle.wire_encoder.specs.Prepared.{IsPrepared};
ghost use Rattle.message_pipe.specs.Ends.{end_of, is_closed};
ghost use Rattle.bind_model.specs.Responders.{count_of};
ghost use Rattle.bind_model.specs.declared.asked.Asked.TheVariants as asks;
ghost use Rattle.core_sending.specs.Answering.{reached, way_back};
ghost use Rattle.core_sending.specs.Calls.{outgoing_named};
ghost use Rattle.core_sending.specs.Carrying.{all_own};
ghost use Rattle.core_state.specs.Agreement.{schema_of};
ghost use Rattle.core_state.specs.Doing.{HasRoom};
ghost use Rattle.core_state.specs.Routers.{found_at};
ghost use Rattle.event_tables.specs.AsCore.{Steps, state_of};

use crate::carrying::{all_own, put_all, remove_all};
use crate::tables::{EventTables, refuse};
use crate::ways::{put_message, way_with};
use bind_model::{Asked, Endpoint, Event, ResponderId, State as EndpointState, Told, Why};
use core_sending::answer::answers_to;
use core_sending::carried::CarriedNames;
use core_sending::writing::{Writes, outgoing, writes_of};
use handle_table::Place;
use mj_base::{EndId, SeqId};
use std::alloc::{AllocError, Global};
use wire_encoder::Prepared;

/// Whether somebody has the right to answer and all that goes with the answer, and nothing stands twice.
fn is_own(
    tables: &EventTables,
    alloc: Global,
    id: ResponderId,
    names: &CarriedNames,
) -> Result<bool, AllocError>
    ensures { IfOk result (λ own. own ≡ (not (count_of tables.now.responders id == 0) && all_own tables.now.pipes tables.now.pendings names.now)) }
{
    if !tables.responders.is_out(id) {
        return Ok(false);
    }
    all_own(alloc, &tables.pipes, &tables.pendings, names)
}

/// The endpoint that a request came to, or why nothing is sent from it: it isn't there, is closed, or is
/// on another sequence.
fn reached_at(tables: &EventTables, seq: SeqId, end: EndId, id: u32) -> Result<Endpoint, Why>
    ensures { result ≡ reached seq (is_closed (end_of tables.now.pipes.ends end)) (found_at tables.now.endpoints end id) }
{
    let Some(endpoint) = tables.endpoints.find(end, id) else {
        return Err(Why::NoName);
    };
    if tables.pipes.is_closed(end) {
        return Err(Why::Disconnected);
    }
    match endpoint.state {
        EndpointState::Closed => Err(Why::Disconnected),
        EndpointState::Bound(other) if other.0 != seq.0 => Err(Why::Elsewhere(other)),
        EndpointState::Bound(_) | EndpointState::Pending => Ok(endpoint),
    }
}

/// The end that an answer goes to, or why it is refused. It is told whether somebody has the right to it and
/// all that goes with it.
fn way(
    tables: &EventTables,
    seq: SeqId,
    id: ResponderId,
    prepared: &Prepared,
    names: &CarriedNames,
    own: bool,
) -> Result<EndId, Why>
    ensures { result ≡ way_back seq id prepared.now names.now own tables.now.pipes tables.now.tables.flows tables.now.endpoints }
{
    if !own {
        return Err(Why::NoName);
    }
    let endpoint = reached_at(tables, seq, id.end, id.id)?;
    if !answers_to(id, prepared.target) {
        return Err(Why::WrongMethod);
    }
    way_with(tables, prepared, names, id.end, endpoint.peer_closed)
}

/// Sends a prepared response to a request, with the things and the pendings that its parameters name, or
/// notes why it isn't sent.
pub fn answer(
    tables: &mut EventTables,
    alloc: Global,
    seq: SeqId,
    id: ResponderId,
    prepared: &Prepared,
    names: CarriedNames,
    moment: Option<i64>,
) -> Result<(), AllocError>
    requires able { HasRoom (state_of tables.old) seq }
    requires prepared { IsPrepared (schema_of (state_of tables.old)) prepared.now }
    ensures { OnOk result (Steps tables.old tables.new seq (asks.Answer id (outgoing_named prepared.now names moment))) }
{
    let own = is_own(tables, alloc, id, &names)?;
    match way(tables, seq, id, prepared, &names, own) {
        Ok(peer) => send(tables, alloc, seq, id, prepared, names, moment, peer),
        Err(why) => {
            let outgoing = outgoing(alloc, prepared, names, moment)?;
            refuse(tables, seq, Asked::Answer(id, outgoing), why);
            Ok(())
        }
    }
}

/// Writes an answer that nothing refuses, and spends the right to it.
fn send(
    tables: &mut EventTables,
    alloc: Global,
    seq: SeqId,
    id: ResponderId,
    prepared: &Prepared,
    names: CarriedNames,
    moment: Option<i64>,
    peer: EndId,
) -> Result<(), AllocError>
    requires able { HasRoom (state_of tables.old) seq }
    requires prepared { IsPrepared (schema_of (state_of tables.old)) prepared.now }
    requires free { way_back seq id prepared.now names (not (count_of tables.old.responders id == 0)
        && all_own tables.old.pipes tables.old.pendings names) tables.old.pipes tables.old.tables.flows tables.old.endpoints ≡ Ok peer }
    ensures { OnOk result (Steps tables.old tables.new seq (asks.Answer id (outgoing_named prepared.now names moment))) }
{
    let writes = writes_of(alloc, prepared, id.id, id.request, names, moment)?;
    let Writes {
        outgoing,
        message,
        noted,
        told: _,
    } = writes;
    put_message(&mut tables.pipes, peer, message)?;
    let sent = outgoing.get();
    put_all(
        &mut tables.pipes,
        sent.handles.as_slice(),
        Place::Unread(peer),
    );
    remove_all(&mut tables.pendings, sent.pendings.as_slice());
    tables.responders.remove(id);
    tables.log.push_reserved(Event {
        seq,
        asked: Asked::Answer(id, outgoing),
        told: Told::Sent(id.request, noted),
    });
    Ok(())
}
