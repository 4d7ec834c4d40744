//! Answering: the response to a request goes back, or a request is never answered.

ghost use Rattle.std.specs.Prelude.{◌≡◌, ◌==◌, ◌&&◌, not, Ok, IfOk, IfErr};
ghost use Rattle.message_pipe.specs.Ends.{end_of, is_closed};
ghost use Rattle.core_state.specs.Routers.{found_at};
ghost use Rattle.bind_model.specs.declared.asked.Asked.TheVariants as asks;
ghost use Rattle.bind_model.specs.Responders.{count_of};
ghost use Rattle.core_sending.specs.Answering.{answers_to, command_of, reached, way_back};
ghost use Rattle.core_sending.specs.Calls.{outgoing_named};
ghost use Rattle.core_sending.specs.Carrying.{all_own, names_in};
ghost use Rattle.core_state.specs.Doing.{CanDo, Done, Undone};

use crate::carried::{Carried, CarriedNames, all_own, spend_all};
use crate::writing::{outgoing, put_message, way_with, writes_of};
use bind_model::{
    Asked, Closing, Command, Endpoint, Event, PendingList, Refused, Reply, Responder, ResponderId,
    State as EndpointState, ToClose, Told, Why,
};
use core_state::{State, put_all, refuse};
use handle_table::{Handles, Place};
use mj_base::{EndId, Items, SeqId};
use std::alloc::{AllocError, Global};
use wire_encoder::Prepared;
use wire_model::{MessageSide, Target};

/// What answers a request: the right to do so, what is sent, and what goes with that, a moment too.
pub struct Response {
    pub responder: Responder,
    pub prepared: Prepared,
    pub carried: Carried,
    pub moment: Option<i64>,
}

impl Response {
    ghost use Rattle.core_sending.specs.Answering.{command_of};

    /// The command that it came with.
    fn into_command(self) -> Command
        ensures { result ≡ command_of self }
    {
        let Response {
            responder,
            prepared,
            carried,
            moment,
        } = self;
        let Carried { handles, pendings } = carried;
        Command::Answer(responder, prepared, handles, pendings, moment)
    }
}

/// Sends a prepared response to the request of a responder, with the handles and the pendings that its
/// parameters name, and a moment.
pub fn answer(
    state: &mut State,
    alloc: Global,
    seq: SeqId,
    responder: Responder,
    prepared: Prepared,
    handles: Handles,
    pendings: PendingList,
    moment: Option<i64>,
) -> Result<Reply, Refused>
    requires { CanDo state.old seq (Command.Answer responder prepared handles pendings moment) }
    ensures done { IfOk result (λ reply. Done state.old state.new seq (Command.Answer responder prepared handles pendings moment) reply) }
    ensures undone { IfErr result (λ refused. Undone state.old state.new (Command.Answer responder prepared handles pendings moment) refused) }
{
    let response = Response {
        responder,
        prepared,
        carried: Carried { handles, pendings },
        moment,
    };
    respond(state, alloc, seq, response)
}

/// Sends a response, or notes why it isn't sent.
fn respond(
    state: &mut State,
    alloc: Global,
    seq: SeqId,
    response: Response,
) -> Result<Reply, Refused>
    requires { CanDo state.old seq (command_of response) }
    ensures done { IfOk result (λ reply. Done state.old state.new seq (command_of response) reply) }
    ensures undone { IfErr result (λ refused. Undone state.old state.new (command_of response) refused) }
{
    let Ok(names) = response.carried.names(alloc) else {
        return Err(Refused::Memory(response.into_command()));
    };
    let Ok(own) = is_own(state, alloc, response.responder.id(), &names) else {
        return Err(Refused::Memory(response.into_command()));
    };
    match way(state, seq, &response, &names, own) {
        Ok(peer) => send(state, alloc, seq, response, names, peer),
        Err(why) => match asked(alloc, &response, names) {
            Ok(asked) => refuse(state, seq, asked, why, response.into_command()),
            Err(_) => Err(Refused::Memory(response.into_command())),
        },
    }
}

/// Whether a responder of this name and all that goes with its answer are with callers, and nothing stands
/// twice.
fn is_own(
    state: &State,
    alloc: Global,
    id: ResponderId,
    names: &CarriedNames,
) -> Result<bool, AllocError>
    ensures { IfOk result (λ own. own ≡ (not (count_of state.now.rights.responders id == 0)
        && all_own state.now.pipes state.now.rights.pendings names.now)) }
{
    if !state.rights.responders.is_out(id) {
        return Ok(false);
    }
    all_own(alloc, &state.pipes, &state.rights.pendings, names)
}

/// The endpoint that a request came to, or why nothing is sent from it: it isn't there, is closed, or is
/// on another sequence.
fn reached_at(state: &State, seq: SeqId, end: EndId, id: u32) -> Result<Endpoint, Why>
    ensures { result ≡ reached seq (is_closed (end_of state.now.pipes.ends end)) (found_at state.now.endpoints end id) }
{
    let Some(endpoint) = state.endpoints.find(end, id) else {
        return Err(Why::NoName);
    };
    if state.pipes.is_closed(end) {
        return Err(Why::Disconnected);
    }
    match endpoint.state {
        EndpointState::Closed => Err(Why::Disconnected),
        EndpointState::Bound(other) if other.0 != seq.0 => Err(Why::Elsewhere(other)),
        EndpointState::Bound(_) | EndpointState::Pending => Ok(endpoint),
    }
}

/// Whether the target is the response of the method that a responder is for.
pub fn answers_to(id: ResponderId, target: Target) -> bool
    ensures { result ≡ answers_to id target }
{
    target.interface == id.interface
        && target.method == id.method
        && match target.side {
            MessageSide::Request => false,
            MessageSide::Response => true,
        }
}

/// The end that an answer goes to, or why it is refused. It is told whether the caller has the responder
/// and all that goes with it.
fn way(
    state: &State,
    seq: SeqId,
    response: &Response,
    names: &CarriedNames,
    own: bool,
) -> Result<EndId, Why>
    ensures { result ≡ way_back seq response.now.responder response.now.prepared names.now own state.now.pipes state.now.tables.flows
        state.now.endpoints }
{
    if !own {
        return Err(Why::NoName);
    }
    let id = response.responder.id();
    let endpoint = reached_at(state, seq, id.end, id.id)?;
    if !answers_to(id, response.prepared.target) {
        return Err(Why::WrongMethod);
    }
    way_with(
        state,
        &response.prepared,
        names,
        id.end,
        endpoint.peer_closed,
    )
}

/// The plain form of an answer with these names.
fn asked(alloc: Global, response: &Response, names: CarriedNames) -> Result<Asked, AllocError>
    ensures { IfOk result (λ asked. asked ≡ asks.Answer response.now.responder (outgoing_named response.now.prepared names response.now.moment)) }
{
    let outgoing = outgoing(alloc, &response.prepared, names, response.moment)?;
    Ok(Asked::Answer(response.responder.id(), outgoing))
}

/// Writes an answer that nothing refuses, and spends its responder.
fn send(
    state: &mut State,
    alloc: Global,
    seq: SeqId,
    response: Response,
    names: CarriedNames,
    peer: EndId,
) -> Result<Reply, Refused>
    requires can { CanDo state.old seq (command_of response) }
    requires same { names ≡ names_in response.carried }
    requires free { way_back seq response.responder response.prepared (names_in response.carried)
        (not (count_of state.old.rights.responders response.responder == 0)
        && all_own state.old.pipes state.old.rights.pendings (names_in response.carried)) state.old.pipes
        state.old.tables.flows state.old.endpoints ≡ Ok peer }
    ensures done { IfOk result (λ reply. Done state.old state.new seq (command_of response) reply) }
    ensures undone { IfErr result (λ refused. Undone state.old state.new (command_of response) refused) }
{
    let id = response.responder.id();
    let moment = response.moment;
    let Ok(writes) = writes_of(alloc, &response.prepared, id.id, id.request, names, moment) else {
        return Err(Refused::Memory(response.into_command()));
    };
    let Ok(()) = put_message(&mut state.pipes, peer, writes.message) else {
        return Err(Refused::Memory(response.into_command()));
    };
    let Response {
        responder,
        prepared: _,
        carried,
        moment: _,
    } = response;
    let Carried { handles, pendings } = carried;
    put_all(&mut state.pipes, handles, Place::Unread(peer));
    spend_all(&mut state.rights.pendings, pendings);
    state.rights.responders.spend(responder);
    state.log.push_reserved(Event {
        seq,
        asked: Asked::Answer(id, writes.outgoing),
        told: Told::Sent(id.request, writes.noted),
    });
    Ok(Reply::Sent(id.request, writes.told))
}

/// Closes a responder: its request gets no answer. One that isn't out here comes back.
pub fn close_responder(
    state: &mut State,
    alloc: Global,
    seq: SeqId,
    responder: Responder,
) -> Result<Reply, Refused>
    requires { CanDo state.old seq (Command.Close (ToClose.Responder responder)) }
    ensures done { IfOk result (λ reply. Done state.old state.new seq (Command.Close (ToClose.Responder responder)) reply) }
    ensures undone { IfErr result (λ refused. Undone state.old state.new (Command.Close (ToClose.Responder responder)) refused) }
{
    let id = responder.id();
    let asked = Asked::Close(Closing::Responder(id));
    if !state.rights.responders.is_out(id) {
        let command = Command::Close(ToClose::Responder(responder));
        return refuse(state, seq, asked, Why::NoName, command);
    }
    state.rights.responders.spend(responder);
    state.log.push_reserved(Event {
        seq,
        asked,
        told: Told::Closed(Items::new(alloc)),
    });
    Ok(Reply::Closed(Items::new(alloc)))
}
