//! What a message that is taken says.

ghost use Rattle.std.specs.Prelude.{◌≡◌, ◌<◌, ◌^◌, ◌&&◌, not, false, [], length, Some, Ok, IfOk};
ghost use Rattle.message_pipe.specs.declared.message.Message.{Message as a_message};
ghost use Rattle.bind_model.specs.declared.told.Told.TheVariants as tells;
ghost use Rattle.wire_model.specs.Message.{ids_read};
ghost use Rattle.bind_model.specs.Machine.{content_at, endpoint_at, first_strange, goes_behind, is_closed};
ghost use Rattle.mj_schema.specs.KindTrees.{StructKind};
ghost use Rattle.message_header.specs.Said.{header_said, IsPlaced};
ghost use Rattle.wire_model.specs.HeaderMarks.{CONTROL_ID};
ghost use Rattle.bind_model.specs.Replies.{at_endpoint, controlled, got_known, headed, is_response, judged};
ghost use Rattle.bind_model.specs.WireOf.{content_in, endpoints_named};
ghost use Rattle.wire_encoder.specs.Checks.{checks};
ghost use Rattle.wire_model.specs.Trees.{view};
ghost use Rattle.core_taking.specs.Admits.{Admits};
ghost use Rattle.core_taking.specs.Founds.{IsRead, Tells, front_at, header_of};
ghost use Rattle.core_state.specs.Routers.{found_at, router_at};
ghost use Rattle.endpoint_router.specs.Rows.{is_pending, row_at};
ghost use Rattle.core_state.specs.Agreement.{Holds};
ghost use Rattle.event_tables.specs.AsCore.{past_by, state_of, wire_by};

use crate::hearing::hear;
use bind_model::{BadWhy, Endpoint, State as EndpointState, Why};
use control_bytes::read_control;
use core_taking::admit::{Admitted, admit, carried_ids};
use core_taking::reading::{Found, arrive_known, comes_to, is_response};
use core_taking::slots::slots_of;
use event_tables::EventTables;
use message_header::{CONTROL_ID, read_header};
use message_pipe::Message;
use message_validator::{Checked, check};
use mj_base::{EndId, Fault, FaultKind, Header, SeqId};
use std::alloc::{AllocError, Global};
use wire_decoder::decode;
use wire_model::{Expected, Value};

/// What becomes of a message with these ids whose endpoint isn't there or is closed.
fn dropped(
    tables: &EventTables,
    alloc: Global,
    end: EndId,
    header: &Header,
    ids: &[u32],
    message: &Message,
) -> Result<Found, AllocError>
    requires holds { Holds (state_of tables.now) }
    requires ids { ids.now ≡ ids_read message.now.bytes }
    ensures { IfOk result (λ found. IsRead (wire_by tables.now) (past_by tables.now) end message.now header.now
        → Tells (wire_by tables.now) (past_by tables.now) end found
        (tells.Dropped header.now.interface_id (goes_behind (wire_by tables.now) (past_by tables.now) end message.now.handles))) }
{
    let _message = message;
    let admitted = admit(&tables.endpoints, alloc, end, ids, &[])?;
    Ok(Found::Dropped(header.interface_id, admitted))
}

/// Whether a message for an endpoint is a response that nobody waits for.
fn is_unasked(tables: &EventTables, end: EndId, id: u32, checked: &Checked<'_>) -> bool
    ensures { result ≡ (is_response checked.now.expected.side
        && not (is_pending (row_at (router_at tables.now.endpoints end) id) checked.now.request checked.now.method)) }
{
    is_response(checked.expected.side)
        && !tables
            .endpoints
            .is_asked(end, id, checked.request, checked.method)
}

/// What the ids of a message are to an end, by the parameters that it stands for.
fn admit_named(
    tables: &EventTables,
    alloc: Global,
    end: EndId,
    ids: &[u32],
    checked: &Checked<'_>,
    value: &Value,
) -> Result<Admitted, AllocError>
    ensures { IfOk result (λ admitted. Admits (found_at tables.now.endpoints end)
        (endpoints_named (checks checked.now.schema.now 0 false (StructKind checked.now.number false) (view value.now))) ids.now admitted) }
{
    let slots = slots_of(alloc, checked.schema, checked.number, value, ids.len())?;
    admit(&tables.endpoints, alloc, end, ids, &slots)
}

/// What a message that was checked, and that is no unasked response, stands for. One with a strange id is bad.
fn arrive(
    tables: &EventTables,
    alloc: Global,
    end: EndId,
    header: &Header,
    ids: &[u32],
    message: &Message,
    checked: &Checked<'_>,
) -> Result<Found, AllocError>
    requires holds { Holds (state_of tables.now) }
    requires ids { ids.now ≡ ids_read message.now.bytes }
    requires bytes { checked.now.bytes.now ≡ message.now.bytes }
    ensures { IfOk result (λ found. IsRead (wire_by tables.now) (past_by tables.now) end message.now header.now
        → content_at (wire_by tables.now) (endpoint_at (wire_by tables.now) (past_by tables.now) end header.now.interface_id) message.now
        ≡ Ok (content_in checked.now.schema.now checked.now.expected message.now.bytes checked.now.number)
        → Tells (wire_by tables.now) (past_by tables.now) end found (got_known (wire_by tables.now) (past_by tables.now) end message.now
        (header_of message.now header.now) (content_in checked.now.schema.now checked.now.expected message.now.bytes checked.now.number)
        (first_strange (endpoint_at (wire_by tables.now) (past_by tables.now) end) [] (ids_read message.now.bytes)))) }
{
    let value = decode(alloc, checked)?;
    let admitted = admit_named(tables, alloc, end, ids, checked, &value)?;
    if let Some(strange) = admitted.strange {
        return Ok(Found::Bad(BadWhy::StrangeId(strange)));
    }
    arrive_known(alloc, header, message, checked, value, admitted)
}

/// What a message for an endpoint that is bound on the sequence which takes it stands for.
fn judge(
    tables: &EventTables,
    alloc: Global,
    end: EndId,
    endpoint: Endpoint,
    header: &Header,
    ids: &[u32],
    message: &Message,
) -> Result<Found, AllocError>
    requires holds { Holds (state_of tables.now) }
    requires ids { ids.now ≡ ids_read message.now.bytes }
    requires few { length message.now.handles < 2 ^ 32 }
    requires there { endpoint_at (wire_by tables.now) (past_by tables.now) end header.now.interface_id ≡ Some endpoint }
    requires alive { is_closed endpoint ≡ false }
    ensures { IfOk result (λ found. IsRead (wire_by tables.now) (past_by tables.now) end message.now header.now
        → Tells (wire_by tables.now) (past_by tables.now) end found (judged (wire_by tables.now) (past_by tables.now) end message.now
        (header_of message.now header.now) endpoint
        ((wire_by tables.now).stands endpoint.side endpoint.interface message.now.bytes (length message.now.handles)))) }
{
    let expected = Expected {
        interface: endpoint.interface,
        side: comes_to(endpoint.side),
    };
    // No message has more: each of its handles is of a thing of its own that was made.
    let Ok(handles) = u32::try_from(message.handles.len()) else {
        unreachable!();
    };
    let checked = match check(&tables.schema, expected, message.bytes.as_slice(), handles) {
        Err(fault) => return Ok(Found::Bad(BadWhy::Message(fault))),
        Ok(checked) => checked,
    };
    if is_unasked(tables, end, header.interface_id, &checked) {
        return Ok(Found::Bad(BadWhy::Unasked(checked.request)));
    }
    arrive(tables, alloc, end, header, ids, message, &checked)
}

/// What a message for the endpoint of its id stands for.
fn deliver(
    tables: &EventTables,
    alloc: Global,
    seq: SeqId,
    end: EndId,
    endpoint: Option<Endpoint>,
    header: &Header,
    ids: &[u32],
    message: &Message,
) -> Result<Found, AllocError>
    requires holds { Holds (state_of tables.now) }
    requires ids { ids.now ≡ ids_read message.now.bytes }
    requires few { length message.now.handles < 2 ^ 32 }
    requires there { endpoint ≡ endpoint_at (wire_by tables.now) (past_by tables.now) end header.now.interface_id }
    ensures { IfOk result (λ found. IsRead (wire_by tables.now) (past_by tables.now) end message.now header.now
        → Tells (wire_by tables.now) (past_by tables.now) end found
        (at_endpoint (wire_by tables.now) (past_by tables.now) seq end message.now (header_of message.now header.now) endpoint)) }
{
    let Some(endpoint) = endpoint else {
        return dropped(tables, alloc, end, header, ids, message);
    };
    match endpoint.state {
        EndpointState::Closed => dropped(tables, alloc, end, header, ids, message),
        EndpointState::Pending => Ok(Found::Nothing(Why::Unbound(header.interface_id))),
        EndpointState::Bound(other) if other.0 != seq.0 => {
            Ok(Found::Nothing(Why::Elsewhere(other)))
        }
        EndpointState::Bound(_) => judge(tables, alloc, end, endpoint, header, ids, message),
    }
}

/// What a control with so many handles says at an end. One with handles is bad.
fn control(tables: &EventTables, end: EndId, bytes: &[u8], handles: usize, header: &Header) -> Found
    requires holds { Holds (state_of tables.now) }
    requires said { header.now ≡ header_said bytes.now }
    requires placed { IsPlaced bytes.now header.now }
    requires control { header.now.interface_id ≡ CONTROL_ID }
    ensures { (m : a_message) → m.bytes ≡ bytes.now → length m.handles ≡ handles
        → Tells (wire_by tables.now) (past_by tables.now) end result
        (controlled (wire_by tables.now) (past_by tables.now) end m ((wire_by tables.now).says m.bytes)) }
{
    let control = match read_control(bytes, header) {
        Ok(control) => control,
        Err(fault) => return Found::Bad(BadWhy::Message(fault)),
    };
    if handles == 0 {
        return hear(tables, end, control);
    }
    Found::Bad(BadWhy::Message(Fault {
        kind: FaultKind::IllegalHandle,
        at: 0,
    }))
}

/// What a take of the oldest unread message at an end is told.
pub(crate) fn read(
    tables: &EventTables,
    alloc: Global,
    seq: SeqId,
    end: EndId,
    message: &Message,
) -> Result<Found, AllocError>
    requires holds { Holds (state_of tables.now) }
    requires front { front_at (wire_by tables.now) (past_by tables.now) end ≡ Some message.now }
    ensures { IfOk result (λ found. Tells (wire_by tables.now) (past_by tables.now) end found
        (headed (wire_by tables.now) (past_by tables.now) seq end message.now ((wire_by tables.now).header message.now.bytes))) }
{
    let bytes = message.bytes.as_slice();
    let header = match read_header(bytes) {
        Ok(header) => header,
        Err(fault) => return Ok(Found::Bad(BadWhy::Message(fault))),
    };
    if header.interface_id == CONTROL_ID {
        return Ok(control(tables, end, bytes, message.handles.len(), &header));
    }
    let endpoint = tables.endpoints.find(end, header.interface_id);
    let ids = carried_ids(alloc, bytes, header.ids)?;
    deliver(tables, alloc, seq, end, endpoint, &header, &ids, message)
}
