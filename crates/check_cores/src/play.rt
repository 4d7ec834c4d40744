//! Doing turns on a core.

ghost use Rattle.std.specs.Prelude.{IfOk, IfSome};
ghost use Rattle.bind_model.specs.Plain.{IsOf};
ghost use Rattle.mj_schema.specs.declared.schema.Schema.{Schema};

use crate::held::Held;
use crate::moves::{Method, Move};
use crate::values::prepared;
use bind_model::{Command, Flow, PendingId, ToClose};
use check_files::word_bytes;
use handle_table::{Handles, Thing};
use mj_base::{EndId, Items, SeqId};
use mj_schema::Schema;
use std::alloc::{AllocError, Global};
use wire_model::MessageSide;

/// Bytes that are owned.
fn items_of(alloc: Global, bytes: &[u8]) -> Result<Items<u8>, AllocError> {
    Ok(Items::from_vec(Vec::from_slice(alloc, bytes)?))
}

/// A call; none where something that it takes isn't held.
fn call(
    held: &mut Held<'_>,
    alloc: Global,
    schema: &Schema,
    end: EndId,
    id: u32,
    method: Method,
    things: &[Thing],
    pendings: &[PendingId],
    moment: Option<i64>,
) -> Result<Option<Command>, AllocError>
    ensures { IfOk result (λ found. IfSome found (IsOf schema.now)) }
{
    let Some(prepared) = prepared(alloc, schema, method, MessageSide::Request)? else {
        return Ok(None);
    };
    let handles = held.take_handles(alloc, things);
    let halves = held.take_pendings(alloc, pendings);
    if handles.as_slice().len() == things.len() && halves.as_slice().len() == pendings.len() {
        return Ok(Some(Command::Call(end, id, prepared, handles, halves, moment)));
    }
    held.put_handles(handles);
    held.put_pendings(halves);
    Ok(None)
}

/// An answer; none where something that it takes isn't held.
fn answer(
    held: &mut Held<'_>,
    alloc: Global,
    schema: &Schema,
    end: EndId,
    id: u32,
    request: u64,
    method: Method,
    pendings: &[PendingId],
) -> Result<Option<Command>, AllocError>
    ensures { IfOk result (λ found. IfSome found (IsOf schema.now)) }
{
    let Some(prepared) = prepared(alloc, schema, method, MessageSide::Response)? else {
        return Ok(None);
    };
    let Some(responder) = held.take_responder(end, id, request) else {
        return Ok(None);
    };
    let halves = held.take_pendings(alloc, pendings);
    if halves.as_slice().len() == pendings.len() {
        let handles = Handles::from_vec(Vec::new(alloc));
        return Ok(Some(Command::Answer(responder, prepared, handles, halves, None)));
    }
    held.put_responder(responder);
    held.put_pendings(halves);
    Ok(None)
}

/// A raw writing; none where something that it takes isn't held.
fn raw(
    held: &mut Held<'_>,
    alloc: Global,
    from: Thing,
    numbers: &[u32],
    things: &[Thing],
) -> Result<Option<Command>, AllocError>
    ensures { IfOk result (λ found. (schema : Schema) → IfSome found (IsOf schema)) }
{
    let bytes = Items::from_vec(word_bytes(alloc, numbers)?);
    let Some(handle) = held.take_handle(from) else {
        return Ok(None);
    };
    let handles = held.take_handles(alloc, things);
    if handles.as_slice().len() == things.len() {
        return Ok(Some(Command::Raw(handle, bytes, handles)));
    }
    held.put_handle(handle);
    held.put_handles(handles);
    Ok(None)
}

/// The token at which a step moves bytes, and what is asked there; none of another step.
fn flow_of(alloc: Global, step: Move) -> Result<Option<(Thing, Flow)>, AllocError> {
    let (thing, flow) = match step {
        Move::Put(thing, bytes, all) => (thing, Flow::Put(items_of(alloc, bytes)?, all)),
        Move::Get(thing, count, all) => (thing, Flow::Get(count, all)),
        Move::BeginPut(thing) => (thing, Flow::BeginPut),
        Move::EndPut(thing, bytes) => (thing, Flow::EndPut(items_of(alloc, bytes)?)),
        Move::BeginGet(thing) => (thing, Flow::BeginGet),
        Move::EndGet(thing, count) => (thing, Flow::EndGet(count)),
        _ => return Ok(None),
    };
    Ok(Some((thing, flow)))
}

/// What a step asks that moves bytes or closes; none where what it takes isn't held.
fn moving_or_closing(
    held: &mut Held<'_>,
    alloc: Global,
    step: Move,
) -> Result<Option<Command>, AllocError>
    ensures { IfOk result (λ found. (schema : Schema) → IfSome found (IsOf schema)) }
{
    let Some((thing, flow)) = flow_of(alloc, step)? else {
        return Ok(closing_of(held, step));
    };
    match held.take_handle(thing) {
        Some(handle) => Ok(Some(Command::Flow(handle, flow))),
        None => Ok(None),
    }
}

/// What a move asks; none where something that it takes isn't held.
pub fn command_of(
    held: &mut Held<'_>,
    alloc: Global,
    schema: &Schema,
    step: Move,
) -> Result<Option<Command>, AllocError>
    ensures { IfOk result (λ found. IfSome found (IsOf schema.now)) }
{
    match step {
        Move::Join(other) => Ok(Some(Command::Join(SeqId(other)))),
        Move::Bind(thing, side, interface) => match held.take_handle(thing) {
            Some(handle) => Ok(Some(Command::Bind(handle, side, interface))),
            None => Ok(None),
        },
        Move::Associate(end, side, interface) => {
            Ok(Some(Command::Associate(end, side, interface)))
        }
        Move::Attach(name, on) => match held.take_pending(name) {
            Some(pending) => Ok(Some(Command::Attach(pending, SeqId(on)))),
            None => Ok(None),
        },
        Move::Call(end, id, method, things, pendings) => {
            call(held, alloc, schema, end, id, method, things, pendings, None)
        }
        Move::CallAt(end, id, method, moment) => {
            call(held, alloc, schema, end, id, method, &[], &[], Some(moment))
        }
        Move::Answer(end, id, request, method, pendings) => {
            answer(held, alloc, schema, end, id, request, method, pendings)
        }
        Move::Raw(from, numbers, things) => raw(held, alloc, from, numbers, things),
        Move::Take(end) => Ok(Some(Command::Take(end))),
        Move::Notify(end, notice) => Ok(Some(Command::Notify(end, notice))),
        Move::Pause(end, other, flush) => Ok(Some(Command::Pause(end, other, flush))),
        Move::Data(capacity) => Ok(Some(Command::Data(capacity))),
        _ => moving_or_closing(held, alloc, step),
    }
}

/// What a closing asks; none where what it takes isn't held.
fn closing_of(held: &mut Held<'_>, step: Move) -> Option<Command>
    ensures { (schema : Schema) → IfSome result (IsOf schema) }
{
    let closed = match step {
        Move::CloseHandle(thing) => ToClose::Handle(held.take_handle(thing)?),
        Move::ClosePending(name) => ToClose::Pending(held.take_pending(name)?),
        Move::CloseResponder(end, id, request) => {
            ToClose::Responder(held.take_responder(end, id, request)?)
        }
        Move::CloseEndpoint(end, id) => ToClose::Endpoint(end, id),
        _ => return None,
    };
    Some(Command::Close(closed))
}
