//! What a message that is taken says.

ghost use Rattle.std.specs.Prelude.{◌≡◌, ◌<◌, ◌^◌, ◌&&◌, not, false, [], List, length, Some, None, Ok, IfOk};
ghost use Rattle.mj_base.specs.declared.ids.EndId.{EndId as end_id};
ghost use Rattle.message_pipe.specs.declared.message.Message.{Message as a_message};
ghost use Rattle.bind_model.specs.declared.event.Event.{Event};
ghost use Rattle.bind_model.specs.declared.told.Told.TheVariants as tells;
ghost use Rattle.wire_model.specs.Message.{ids_read, payload_start};
ghost use Rattle.bind_model.specs.Machine.{content_at, endpoint_at, first_strange, goes_behind, is_closed};
ghost use Rattle.mj_schema.specs.KindTrees.{StructKind};
ghost use Rattle.message_header.specs.Said.{header_said, IsPlaced};
ghost use Rattle.wire_model.specs.HeaderMarks.{CONTROL_ID};
ghost use Rattle.bind_model.specs.Replies.{at_endpoint, controlled, got_known, headed, is_response, judged};
ghost use Rattle.bind_model.specs.Wire.{Wire};
ghost use Rattle.bind_model.specs.WireOf.{comes_to, content_in, endpoints_named};
ghost use Rattle.wire_encoder.specs.Checks.{checks};
ghost use Rattle.wire_model.specs.Tight.{value_of};
ghost use Rattle.wire_model.specs.Trees.{view};
ghost use Rattle.core_taking.specs.Admits.{Admits};
ghost use Rattle.core_taking.specs.Founds.{IsArriving, IsRead, Tells, front_at, header_of};
ghost use Rattle.core_state.specs.Routers.{found_at, router_at};
ghost use Rattle.endpoint_router.specs.Rows.{is_pending, row_at};
ghost use Rattle.core_state.specs.Agreement.{Holds, past_of, wire_in};

use crate::admit::{Admitted, admit, carried_ids};
use crate::hear::hear;
use crate::indexes::part_named;
use crate::slots::slots_of;
use bind_model::{BadWhy, Endpoint, Noted, Parameters, State as EndpointState, Why};
use control_bytes::read_control;
use core_state::State;
use handle_table::Thing;
use message_header::{CONTROL_ID, read_header};
use message_pipe::Message;
use message_validator::{Checked, check};
use mj_base::{EndId, Fault, FaultKind, Header, Items, SeqId};
use std::alloc::{AllocError, Global};
use wire_decoder::decode;
use wire_encoder::EndpointSide;
use wire_model::{Expected, MessageSide, Target, Value};

/// What a take finds at the front of an end's mail.
#[derive(Drop)]
pub enum Found {
    /// Nothing that may be taken here.
    Nothing(Why),
    /// A bad message.
    Bad(BadWhy),
    /// A message for the endpoint of this id, which isn't there or is closed, and what its ids are to the
    /// end.
    Dropped(u32, Admitted),
    /// A control, as it is told.
    Control(Noted),
    Value(Arrived),
}

/// A request or a response for the endpoint of an id: its method and side, its parameters, its request id
/// (0 where it has none), the things of the handles that the parameters name in the order of their
/// indexes, those of the others, its moment, and what its ids are to the end.
#[derive(Drop)]
pub struct Arrived {
    pub id: u32,
    pub target: Target,
    pub parameters: Parameters,
    pub request: u64,
    pub named: Items<Thing>,
    pub left: Items<Thing>,
    pub moment: Option<i64>,
    pub admitted: Admitted,
}

/// The side of the messages that come to an endpoint: a receiver gets requests, a remote responses.
pub fn comes_to(side: EndpointSide) -> MessageSide
    ensures { result ≡ comes_to side }
{
    match side {
        EndpointSide::Receiver => MessageSide::Request,
        EndpointSide::Remote => MessageSide::Response,
    }
}

/// What becomes of a message with these ids whose endpoint isn't there or is closed.
fn dropped(
    state: &State,
    alloc: Global,
    end: EndId,
    header: &Header,
    ids: &[u32],
    message: &Message,
) -> Result<Found, AllocError>
    requires holds { Holds state.now }
    requires ids { ids.now ≡ ids_read message.now.bytes }
    ensures { IfOk result (λ found. IsRead (wire_in state.now) (past_of state.now) end message.now header.now
        → Tells (wire_in state.now) (past_of state.now) end found
        (tells.Dropped header.now.interface_id (goes_behind (wire_in state.now) (past_of state.now) end message.now.handles))) }
{
    let _message = message;
    let admitted = admit(&state.endpoints, alloc, end, ids, &[])?;
    Ok(Found::Dropped(header.interface_id, admitted))
}

/// Whether a message of this side is a response.
pub fn is_response(side: MessageSide) -> bool
    ensures { result ≡ is_response side }
{
    match side {
        MessageSide::Request => false,
        MessageSide::Response => true,
    }
}

/// Whether a message for an endpoint is a response that nobody waits for.
fn is_unasked(state: &State, end: EndId, id: u32, checked: &Checked<'_>) -> bool
    ensures { result ≡ (is_response checked.now.expected.side
        && not (is_pending (row_at (router_at state.now.endpoints end) id) checked.now.request checked.now.method)) }
{
    is_response(checked.expected.side)
        && !state
            .endpoints
            .is_asked(end, id, checked.request, checked.method)
}

/// What a message whose parameters these are stands for, where none of its ids is strange.
pub fn arrive_known(
    alloc: Global,
    header: &Header,
    message: &Message,
    checked: &Checked<'_>,
    value: Value,
    admitted: Admitted,
) -> Result<Found, AllocError>
    requires bytes { checked.now.bytes.now ≡ message.now.bytes }
    requires value { view value ≡ value_of checked.now.schema.now message.now.bytes (payload_start message.now.bytes) checked.now.number }
    requires known { admitted.strange ≡ None }
    ensures { IfOk result (λ found. (wire : Wire) (past : List Event) (y : end_id)
        → IsArriving wire past y message.now header.now (content_in checked.now.schema.now checked.now.expected message.now.bytes checked.now.number) admitted
        → Tells wire past y found (got_known wire past y message.now (header_of message.now header.now)
        (content_in checked.now.schema.now checked.now.expected message.now.bytes checked.now.number)
        (first_strange (endpoint_at wire past y) [] (ids_read message.now.bytes)))) }
{
    let (named, left) = part_named(alloc, &value, message.handles.as_slice())?;
    Ok(Found::Value(Arrived {
        id: header.interface_id,
        target: Target {
            interface: checked.expected.interface,
            method: checked.method,
            side: checked.expected.side,
        },
        parameters: Parameters::new(value),
        request: checked.request,
        named,
        left,
        moment: checked.moment,
        admitted,
    }))
}

/// What the ids of a message are to an end, by the parameters that it stands for.
fn admit_named(
    state: &State,
    alloc: Global,
    end: EndId,
    ids: &[u32],
    checked: &Checked<'_>,
    value: &Value,
) -> Result<Admitted, AllocError>
    ensures { IfOk result (λ admitted. Admits (found_at state.now.endpoints end)
        (endpoints_named (checks checked.now.schema.now 0 false (StructKind checked.now.number false) (view value.now))) ids.now admitted) }
{
    let slots = slots_of(alloc, checked.schema, checked.number, value, ids.len())?;
    admit(&state.endpoints, alloc, end, ids, &slots)
}

/// What a message that was checked, and that is no unasked response, stands for. One with a strange id is bad.
fn arrive(
    state: &State,
    alloc: Global,
    end: EndId,
    header: &Header,
    ids: &[u32],
    message: &Message,
    checked: &Checked<'_>,
) -> Result<Found, AllocError>
    requires holds { Holds state.now }
    requires ids { ids.now ≡ ids_read message.now.bytes }
    requires bytes { checked.now.bytes.now ≡ message.now.bytes }
    ensures { IfOk result (λ found. IsRead (wire_in state.now) (past_of state.now) end message.now header.now
        → content_at (wire_in state.now) (endpoint_at (wire_in state.now) (past_of state.now) end header.now.interface_id) message.now
        ≡ Ok (content_in checked.now.schema.now checked.now.expected message.now.bytes checked.now.number)
        → Tells (wire_in state.now) (past_of state.now) end found (got_known (wire_in state.now) (past_of state.now) end message.now
        (header_of message.now header.now) (content_in checked.now.schema.now checked.now.expected message.now.bytes checked.now.number)
        (first_strange (endpoint_at (wire_in state.now) (past_of state.now) end) [] (ids_read message.now.bytes)))) }
{
    let value = decode(alloc, checked)?;
    let admitted = admit_named(state, alloc, end, ids, checked, &value)?;
    if let Some(strange) = admitted.strange {
        return Ok(Found::Bad(BadWhy::StrangeId(strange)));
    }
    arrive_known(alloc, header, message, checked, value, admitted)
}

/// What a message for an endpoint that is bound on the sequence which takes it stands for.
fn judge(
    state: &State,
    alloc: Global,
    end: EndId,
    endpoint: Endpoint,
    header: &Header,
    ids: &[u32],
    message: &Message,
) -> Result<Found, AllocError>
    requires holds { Holds state.now }
    requires ids { ids.now ≡ ids_read message.now.bytes }
    requires few { length message.now.handles < 2 ^ 32 }
    requires there { endpoint_at (wire_in state.now) (past_of state.now) end header.now.interface_id ≡ Some endpoint }
    requires alive { is_closed endpoint ≡ false }
    ensures { IfOk result (λ found. IsRead (wire_in state.now) (past_of state.now) end message.now header.now
        → Tells (wire_in state.now) (past_of state.now) end found (judged (wire_in state.now) (past_of state.now) end message.now
        (header_of message.now header.now) endpoint
        ((wire_in state.now).stands endpoint.side endpoint.interface message.now.bytes (length message.now.handles)))) }
{
    let expected = Expected {
        interface: endpoint.interface,
        side: comes_to(endpoint.side),
    };
    // No message has more: each of its handles is of a thing of its own that was made.
    let Ok(handles) = u32::try_from(message.handles.len()) else {
        unreachable!();
    };
    let checked = match check(&state.schema, expected, message.bytes.as_slice(), handles) {
        Err(fault) => return Ok(Found::Bad(BadWhy::Message(fault))),
        Ok(checked) => checked,
    };
    if is_unasked(state, end, header.interface_id, &checked) {
        return Ok(Found::Bad(BadWhy::Unasked(checked.request)));
    }
    arrive(state, alloc, end, header, ids, message, &checked)
}

/// What a message for the endpoint of its id stands for.
fn deliver(
    state: &State,
    alloc: Global,
    seq: SeqId,
    end: EndId,
    endpoint: Option<Endpoint>,
    header: &Header,
    ids: &[u32],
    message: &Message,
) -> Result<Found, AllocError>
    requires holds { Holds state.now }
    requires ids { ids.now ≡ ids_read message.now.bytes }
    requires few { length message.now.handles < 2 ^ 32 }
    requires there { endpoint ≡ endpoint_at (wire_in state.now) (past_of state.now) end header.now.interface_id }
    ensures { IfOk result (λ found. IsRead (wire_in state.now) (past_of state.now) end message.now header.now
        → Tells (wire_in state.now) (past_of state.now) end found
        (at_endpoint (wire_in state.now) (past_of state.now) seq end message.now (header_of message.now header.now) endpoint)) }
{
    let Some(endpoint) = endpoint else {
        return dropped(state, alloc, end, header, ids, message);
    };
    match endpoint.state {
        EndpointState::Closed => dropped(state, alloc, end, header, ids, message),
        EndpointState::Pending => Ok(Found::Nothing(Why::Unbound(header.interface_id))),
        EndpointState::Bound(other) if other.0 != seq.0 => {
            Ok(Found::Nothing(Why::Elsewhere(other)))
        }
        EndpointState::Bound(_) => judge(state, alloc, end, endpoint, header, ids, message),
    }
}

/// What a control with so many handles says at an end. One with handles is bad.
fn control(state: &State, end: EndId, bytes: &[u8], handles: usize, header: &Header) -> Found
    requires holds { Holds state.now }
    requires said { header.now ≡ header_said bytes.now }
    requires placed { IsPlaced bytes.now header.now }
    requires control { header.now.interface_id ≡ CONTROL_ID }
    ensures { (m : a_message) → m.bytes ≡ bytes.now → length m.handles ≡ handles
        → Tells (wire_in state.now) (past_of state.now) end result
        (controlled (wire_in state.now) (past_of state.now) end m ((wire_in state.now).says m.bytes)) }
{
    let control = match read_control(bytes, header) {
        Ok(control) => control,
        Err(fault) => return Found::Bad(BadWhy::Message(fault)),
    };
    if handles == 0 {
        return hear(state, end, control);
    }
    Found::Bad(BadWhy::Message(Fault {
        kind: FaultKind::IllegalHandle,
        at: 0,
    }))
}

/// What a take of the oldest unread message at an end is told.
pub(crate) fn read(
    state: &State,
    alloc: Global,
    seq: SeqId,
    end: EndId,
    message: &Message,
) -> Result<Found, AllocError>
    requires holds { Holds state.now }
    requires front { front_at (wire_in state.now) (past_of state.now) end ≡ Some message.now }
    ensures { IfOk result (λ found. Tells (wire_in state.now) (past_of state.now) end found
        (headed (wire_in state.now) (past_of state.now) seq end message.now ((wire_in state.now).header message.now.bytes))) }
{
    let bytes = message.bytes.as_slice();
    let header = match read_header(bytes) {
        Ok(header) => header,
        Err(fault) => return Ok(Found::Bad(BadWhy::Message(fault))),
    };
    if header.interface_id == CONTROL_ID {
        return Ok(control(state, end, bytes, message.handles.len(), &header));
    }
    let endpoint = state.endpoints.find(end, header.interface_id);
    let ids = carried_ids(alloc, bytes, header.ids)?;
    deliver(state, alloc, seq, end, endpoint, &header, &ids, message)
}
