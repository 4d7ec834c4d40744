//! Calling: a message to the other end.

ghost use Rattle.std.specs.Prelude.{◌≡◌, ◌==◌, ◌||◌, Ok, IfOk, IfErr, IsSome, IsTrue, OnOk};
ghost use Rattle.mj_base.specs.declared.ids.EndId.{EndId as end_id};
ghost use Rattle.endpoint_router.specs.Rows.{can_draw, row_at};
ghost use Rattle.bind_model.specs.Replies as replies;
ghost use Rattle.bind_model.specs.declared.asked.Asked.TheVariants as asks;
ghost use Rattle.core_sending.specs.Carrying.{all_own, names_in};
ghost use Rattle.core_sending.specs.Fitting.{way};
ghost use Rattle.core_sending.specs.Ways.{asks_of};
ghost use Rattle.core_state.specs.Routers.{router_at};
ghost use Rattle.core_sending.specs.Calls.{command_of, number_of, outgoing_named, MaySend};
ghost use Rattle.core_state.specs.Requests.{SendsAt};
ghost use Rattle.endpoint_router.specs.Turns.{IsSame};
ghost use Rattle.core_state.specs.Doing.{CanDo, Done, Undone};

use crate::carried::{Carried, CarriedNames, all_own, spend_all};
use crate::writing::{outgoing, put_message, way_with, writes_of};
use bind_model::{Asked, Command, Event, PendingList, Refused, Reply, Told, Why};
use core_state::{Routers, State, Turn, open_at, put_all, refuse};
use handle_table::{Handles, Place};
use mj_base::{EndId, SeqId};
use std::alloc::{AllocError, Global};
use wire_encoder::{EndpointSide, Prepared};
use wire_model::{MessageSide, Target};

/// What is called: the endpoint of an id at an end, what is sent from it, and what goes with that, a moment
/// too.
pub struct Request {
    pub end: EndId,
    pub id: u32,
    pub prepared: Prepared,
    pub carried: Carried,
    pub moment: Option<i64>,
}

impl Request {
    ghost use Rattle.core_sending.specs.Calls.{command_of};

    /// The command that it came with.
    fn into_command(self) -> Command
        ensures { result ≡ command_of self }
    {
        let Request {
            end,
            id,
            prepared,
            carried,
            moment,
        } = self;
        let Carried { handles, pendings } = carried;
        Command::Call(end, id, prepared, handles, pendings, moment)
    }
}

/// Sends a prepared request from an endpoint, with the handles and the pendings that its parameters name, and
/// a moment, which is carried and has no other effect.
pub fn call(
    state: &mut State,
    alloc: Global,
    seq: SeqId,
    end: EndId,
    id: u32,
    prepared: Prepared,
    handles: Handles,
    pendings: PendingList,
    moment: Option<i64>,
) -> Result<Reply, Refused>
    requires { CanDo state.old seq (Command.Call end id prepared handles pendings moment) }
    ensures done { IfOk result (λ reply. Done state.old state.new seq (Command.Call end id prepared handles pendings moment) reply) }
    ensures undone { IfErr result (λ refused. Undone state.old state.new (Command.Call end id prepared handles pendings moment) refused) }
{
    let request = Request {
        end,
        id,
        prepared,
        carried: Carried { handles, pendings },
        moment,
    };
    request_from(state, alloc, seq, request)
}

/// Sends a request, or notes why it isn't sent.
fn request_from(
    state: &mut State,
    alloc: Global,
    seq: SeqId,
    request: Request,
) -> Result<Reply, Refused>
    requires { CanDo state.old seq (command_of request) }
    ensures done { IfOk result (λ reply. Done state.old state.new seq (command_of request) reply) }
    ensures undone { IfErr result (λ refused. Undone state.old state.new (command_of request) refused) }
{
    let Ok(names) = request.carried.names(alloc) else {
        return Err(Refused::Memory(request.into_command()));
    };
    let Ok(own) = all_own(alloc, &state.pipes, &state.rights.pendings, &names) else {
        return Err(Refused::Memory(request.into_command()));
    };
    match way(state, seq, &request, &names, own) {
        Ok(peer) => send(state, alloc, seq, request, names, peer),
        Err(why) => match asked(alloc, &request, names) {
            Ok(asked) => refuse(state, seq, asked, why, request.into_command()),
            Err(_) => Err(Refused::Memory(request.into_command())),
        },
    }
}

/// The side that makes no calls.
pub fn is_receiver(side: EndpointSide) -> bool
    ensures { result ≡ replies.is_receiver side }
{
    match side {
        EndpointSide::Remote => false,
        EndpointSide::Receiver => true,
    }
}

/// Whether the target is a request of this interface.
pub fn asks_of(interface: u32, target: Target) -> bool
    ensures { result ≡ asks_of interface target }
{
    target.interface == interface
        && match target.side {
            MessageSide::Request => true,
            MessageSide::Response => false,
        }
}

/// The end that a call goes to, or why it is refused. It is told whether the caller has all that goes
/// with it.
fn way(
    state: &State,
    seq: SeqId,
    request: &Request,
    names: &CarriedNames,
    own: bool,
) -> Result<EndId, Why>
    ensures { result ≡ way seq request.now.end request.now.id request.now.prepared names.now own state.now.pipes state.now.tables.flows
        state.now.endpoints }
{
    if !own {
        return Err(Why::NoName);
    }
    let prepared = &request.prepared;
    let endpoint = open_at(state, seq, request.end, request.id)?;
    if is_receiver(endpoint.side) {
        return Err(Why::WrongSide);
    }
    if !asks_of(endpoint.interface, prepared.target) {
        return Err(Why::WrongMethod);
    }
    way_with(state, prepared, names, request.end, endpoint.peer_closed)
}

/// The plain form of a call with these names.
fn asked(alloc: Global, request: &Request, names: CarriedNames) -> Result<Asked, AllocError>
    ensures { IfOk result (λ asked. asked ≡ asks.Call request.now.end request.now.id (outgoing_named request.now.prepared names request.now.moment)) }
{
    let outgoing = outgoing(alloc, &request.prepared, names, request.moment)?;
    Ok(Asked::Call(request.end, request.id, outgoing))
}

/// The request id of a call: 1, 2, 3 and so on at each endpoint, or 0 where no response is expected.
fn request_id_of(state: &State, request: &Request) -> u64
    ensures { result ≡ number_of state.now.endpoints request.now.end request.now.id request.now.prepared }
{
    if request.prepared.flags == 0 {
        return 0;
    }
    state.endpoints.next_request(request.end, request.id)
}

/// Makes a place for the wait of a request with this number at the endpoint of an id; one of number 0
/// needs none.
pub fn reserve_sent(
    endpoints: &mut Routers,
    end: EndId,
    id: u32,
    request_id: u64,
) -> Result<(), AllocError>
    requires { IsSome (row_at (router_at endpoints.old end) id) }
    ensures same { (x : end_id) → IsSame (router_at endpoints.old x) (router_at endpoints.new x) }
    ensures room { OnOk result (IsTrue ((request_id == 0) || can_draw (router_at endpoints.new end) id)) }
{
    if request_id == 0 {
        return Ok(());
    }
    endpoints.reserve_draw(end, id)
}

/// Notes that a request with this number was sent from the endpoint of an id; one of number 0 waits for
/// no response.
pub fn note_sent(endpoints: &mut Routers, end: EndId, id: u32, request_id: u64, method: u32)
    requires { MaySend request_id (router_at endpoints.old end) id }
    ensures { SendsAt end id request_id method endpoints.old endpoints.new }
{
    if request_id != 0 {
        endpoints.turn(end, id, Turn::Sent(method));
    }
}

/// Writes a call that nothing refuses.
fn send(
    state: &mut State,
    alloc: Global,
    seq: SeqId,
    request: Request,
    names: CarriedNames,
    peer: EndId,
) -> Result<Reply, Refused>
    requires can { CanDo state.old seq (command_of request) }
    requires same { names ≡ names_in request.carried }
    requires free { way seq request.end request.id request.prepared (names_in request.carried)
        (all_own state.old.pipes state.old.rights.pendings (names_in request.carried)) state.old.pipes
        state.old.tables.flows state.old.endpoints ≡ Ok peer }
    ensures done { IfOk result (λ reply. Done state.old state.new seq (command_of request) reply) }
    ensures undone { IfErr result (λ refused. Undone state.old state.new (command_of request) refused) }
{
    let request_id = request_id_of(state, &request);
    let moment = request.moment;
    let Ok(writes) = writes_of(
        alloc,
        &request.prepared,
        request.id,
        request_id,
        names,
        moment,
    ) else {
        return Err(Refused::Memory(request.into_command()));
    };
    let Ok(()) = reserve_sent(&mut state.endpoints, request.end, request.id, request_id) else {
        return Err(Refused::Memory(request.into_command()));
    };
    let Ok(()) = put_message(&mut state.pipes, peer, writes.message) else {
        return Err(Refused::Memory(request.into_command()));
    };
    let Request {
        end,
        id,
        prepared,
        carried,
        moment: _,
    } = request;
    let Carried { handles, pendings } = carried;
    put_all(&mut state.pipes, handles, Place::Unread(peer));
    spend_all(&mut state.rights.pendings, pendings);
    let event = Event {
        seq,
        asked: Asked::Call(end, id, writes.outgoing),
        told: Told::Sent(request_id, writes.noted),
    };
    let method = prepared.target.method;
    note_sent(&mut state.endpoints, end, id, request_id, method);
    state.log.push_reserved(event);
    Ok(Reply::Sent(request_id, writes.told))
}
