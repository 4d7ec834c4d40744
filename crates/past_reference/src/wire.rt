//! Messages: their bytes, and what these stand for. The crates of the wire are asked for payloads, headers and
//! values, since these are not what is computed here.

ghost use Rattle.std.specs.Prelude.{IfSome};
ghost use Rattle.wire_encoder.specs.Prepared.{HasTarget};

use bind_model::{Endpoint, Outgoing, State};
use check_files::push_words;
use control_bytes::{Control, read_control};
use message_header::{CONTROL_ID, read_header};
use message_validator::check;
use mj_base::{Fault, FaultKind};
use mj_schema::Schema;
use std::alloc::{AllocError, Global};
use wire_decoder::decode;
use wire_encoder::{EndpointSide, PrepareError, Prepared, prepare};
use wire_model::{Expected, MessageSide, Target, Value};

/// What a message stands for.
#[derive(Drop)]
pub struct Content {
    pub target: Target,
    pub request: u64,
    pub parameters: Value,
    pub moment: Option<i64>,
}

/// Whom a message is for: the endpoint of an id, or the machine, which a control speaks to.
#[derive(Clone, Copy)]
pub enum Whom {
    For(u32),
    Machine(Control),
}

/// Whom the bytes of a message are for, which came with so many handles, or their first fault. A control has none.
pub fn meant_for(bytes: &[u8], handles: usize) -> Result<Whom, Fault> {
    let header = read_header(bytes)?;
    if header.interface_id != CONTROL_ID {
        return Ok(Whom::For(header.interface_id));
    }
    let control = read_control(bytes, &header)?;
    if handles != 0 {
        return Err(Fault {
            kind: FaultKind::IllegalHandle,
            at: 0,
        });
    }
    Ok(Whom::Machine(control))
}

/// What a message of these bytes stands for at an endpoint, or its first fault.
pub fn stands(
    alloc: Global,
    schema: &Schema,
    endpoint: Endpoint,
    bytes: &[u8],
    handles: usize,
) -> Result<Result<Content, Fault>, AllocError> {
    let side = match endpoint.side {
        EndpointSide::Receiver => MessageSide::Request,
        EndpointSide::Remote => MessageSide::Response,
    };
    let expected = Expected {
        interface: endpoint.interface,
        side,
    };
    let handles = u32::try_from(handles).unwrap_or(u32::MAX);
    match check(schema, expected, bytes, handles) {
        Err(fault) => Ok(Err(fault)),
        Ok(checked) => Ok(Ok(Content {
            target: Target {
                interface: endpoint.interface,
                method: checked.method,
                side,
            },
            request: checked.request,
            parameters: decode(alloc, &checked)?,
            moment: checked.moment,
        })),
    }
}

/// The version of an endpoint that is a receiver and isn't closed.
pub fn version_at(schema: &Schema, endpoint: Option<Endpoint>) -> Option<u32> {
    let found = endpoint?;
    if found.side != EndpointSide::Receiver || found.state == State::Closed {
        return None;
    }
    match schema.interfaces.as_slice().get(found.interface as usize) {
        Some(row) => Some(row.version),
        None => Some(0),
    }
}

/// Whether a method has a response.
pub fn responds(schema: &Schema, target: Target) -> bool {
    match schema.method(target.interface, target.method) {
        Some(method) => method.response.is_some(),
        None => false,
    }
}

/// A target, where there is such a method, and a response of it if it is one.
fn known(schema: &Schema, target: Target) -> Option<Target>
    ensures { IfSome result (HasTarget schema.now) }
{
    let method = schema.method(target.interface, target.method)?;
    match target.side {
        MessageSide::Request => Some(target),
        MessageSide::Response => match method.response {
            Some(_) => Some(target),
            None => None,
        },
    }
}

/// Adds numbers of 64 bits.
fn push64(out: &mut Vec<u8>, numbers: &[u64]) -> Result<(), AllocError> {
    for number in numbers {
        out.extend_from_slice(&number.to_le_bytes())?;
    }
    Ok(())
}

/// The version and the size of the header of a message with these flags and so many ids, and with a moment or none.
fn version_of(flags: u32, ids: usize, moment: Option<i64>) -> (u32, u32) {
    if moment.is_some() {
        (3, 56)
    } else if ids != 0 {
        (2, 48)
    } else if flags != 0 {
        (1, 32)
    } else {
        (0, 24)
    }
}

/// Adds the header of a message for the endpoint of an id. Its pointers say how far behind themselves the payload
/// is, which comes next, and the ids, which come behind that: 0 where there are none.
fn push_header(
    out: &mut Vec<u8>,
    prepared: &Prepared,
    id: u32,
    request: u64,
    ids: usize,
    moment: Option<i64>,
) -> Result<(), AllocError> {
    let (version, size) = version_of(prepared.flags, ids, moment);
    let method = prepared.target.method;
    push_words(out, &[size, version, id, method, prepared.flags, 0])?;
    let ahead = u64::from(size).saturating_sub(32);
    let length = u64::from(size).saturating_add(prepared.payload.len() as u64);
    let behind = if ids == 0 {
        0
    } else {
        length.saturating_sub(40)
    };
    match (version, moment) {
        (0, _) => Ok(()),
        (1, _) => push64(out, &[request]),
        (_, None) => push64(out, &[request, ahead, behind]),
        (_, Some(moment)) => { push64(out, &[request, ahead, behind, moment.cast_unsigned()]) }
    }
}

/// Adds the array of ids, where there are some.
fn push_ids(out: &mut Vec<u8>, ids: &[u32]) -> Result<(), AllocError> {
    if ids.is_empty() {
        return Ok(());
    }
    let count = u32::try_from(ids.len()).unwrap_or(u32::MAX);
    push_words(out, &[count.saturating_mul(4).saturating_add(8), count])?;
    push_words(out, ids)?;
    if count % 2 == 1 {
        push_words(out, &[0])?;
    }
    Ok(())
}

/// The bytes of what was prepared, for the endpoint of an id.
fn joined(
    alloc: Global,
    prepared: &Prepared,
    id: u32,
    request: u64,
    outgoing: &Outgoing,
) -> Result<Vec<u8>, AllocError> {
    let mut ids = Vec::new(alloc);
    for pending in outgoing.pendings.as_slice() {
        ids.push(pending.id)?;
    }
    let mut out = Vec::new(alloc);
    push_header(&mut out, prepared, id, request, ids.len(), outgoing.moment)?;
    out.extend_from_slice(&prepared.payload)?;
    push_ids(&mut out, &ids)?;
    Ok(out)
}

/// The bytes of a request or a response for the endpoint of an id; none where what is sent is neither.
pub fn sealed(
    alloc: Global,
    schema: &Schema,
    id: u32,
    request: u64,
    outgoing: &Outgoing,
) -> Result<Vec<u8>, AllocError> {
    let Some(target) = known(schema, outgoing.target) else {
        return Ok(Vec::new(alloc));
    };
    let value = outgoing.parameters.value(alloc)?;
    match prepare(alloc, schema, target, value) {
        Ok(prepared) => joined(alloc, &prepared, id, request, outgoing),
        Err((error, _value)) => match error {
            PrepareError::Memory => Err(AllocError),
            _ => Ok(Vec::new(alloc)),
        },
    }
}
