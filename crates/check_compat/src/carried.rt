//! Messages that are sealed under an older schema, and checked and read under a newer one.

ghost use Rattle.wire_encoder.specs.Prepared.{HasTarget};

use crate::tally::Tally;
use crate::values::made;
use compat_reference::agrees;
use message_validator::check;
use mj_schema::{InterfaceRow, MethodRow, Schema};
use std::alloc::{AllocError, Global};
use wire_decoder::decode;
use wire_encoder::{Head, Prepared, prepare, seal, target};
use wire_model::{Expected, MessageSide, Target, Value};

/// How many values each method and side gets.
const VALUES: u64 = 4;

/// The request id of messages that have one.
const REQUEST: u64 = 7;

/// A message with the number of its handles, its request id, and the value that it is of.
#[derive(Drop)]
struct Message {
    bytes: Vec<u8>,
    handles: u32,
    request: u64,
    value: Value,
}

/// The message of what was prepared and carries no endpoint; none where it carries some.
fn sealed(
    alloc: Global,
    prepared: &Prepared,
    moment: Option<i64>,
) -> Result<Option<Vec<u8>>, AllocError> {
    if prepared.endpoints.len() > 0 {
        return Ok(None);
    }
    let head = Head {
        interface_id: 0,
        request_id: REQUEST,
        moment,
        ids: &[],
    };
    Ok(Some(seal(alloc, prepared, &head)?))
}

/// The message of what was prepared and carries one endpoint; none where it carries another number.
fn sealed_with_endpoint(
    alloc: Global,
    prepared: &Prepared,
    moment: Option<i64>,
) -> Result<Option<Vec<u8>>, AllocError> {
    if prepared.endpoints.len() != 1 {
        return Ok(None);
    }
    let head = Head {
        interface_id: 4,
        request_id: REQUEST,
        moment,
        ids: &[9],
    };
    Ok(Some(seal(alloc, prepared, &head)?))
}

/// The message of a value; none where it is refused, or carries more than one endpoint.
fn message_of(
    alloc: Global,
    schema: &Schema,
    target: Target,
    value: Value,
    moment: Option<i64>,
) -> Result<Option<Message>, AllocError>
    requires { HasTarget schema.now target }
{
    let Ok(prepared) = prepare(alloc, schema, target, value) else {
        return Ok(None);
    };
    let bytes = match sealed(alloc, &prepared, moment)? {
        Some(bytes) => Some(bytes),
        None => sealed_with_endpoint(alloc, &prepared, moment)?,
    };
    let Some(bytes) = bytes else {
        return Ok(None);
    };
    let handles = prepared.handles;
    let request = if prepared.flags == 0 { 0 } else { REQUEST };
    let Prepared { value, .. } = prepared;
    Ok(Some(Message {
        bytes,
        handles,
        request,
        value,
    }))
}

/// Whether a message is read by a schema for a method, with this moment, and as what agrees with its value.
fn is_read<'a>(
    alloc: Global,
    schema: &'a Schema,
    expected: Expected,
    method: u32,
    moment: Option<i64>,
    message: &'a Message,
) -> Result<bool, AllocError> {
    let Ok(checked) = check(schema, expected, message.bytes.as_slice(), message.handles) else {
        return Ok(false);
    };
    let value = decode(alloc, &checked)?;
    let is_same = checked.method == method
        && checked.request == message.request
        && checked.moment == moment;
    Ok(is_same && agrees(alloc, schema, checked.number, &message.value, &value)?)
}

/// The number of the struct of a target's parameters.
fn parameters(schema: &Schema, target: Target) -> Option<u32> {
    let method = schema.method(target.interface, target.method)?;
    match target.side {
        MessageSide::Request => Some(method.request),
        MessageSide::Response => method.response,
    }
}

/// The moment of the message of this number: every third has one.
fn moment_of(number: u64) -> Option<i64> {
    if number % 3 == 0 { Some(-8) } else { None }
}

/// Whether the value of this number is carried over to the newer schema, where the message is expected to be this.
fn is_carried(
    alloc: Global,
    old: &Schema,
    target: Target,
    new: &Schema,
    expected: Expected,
    number: u64,
) -> Result<bool, AllocError>
    requires { HasTarget old.now target }
{
    let Some(parameters) = parameters(old, target) else {
        return Ok(false);
    };
    let Some(value) = made(alloc, old, parameters, number)? else {
        return Ok(false);
    };
    let moment = moment_of(number);
    match message_of(alloc, old, target, value, moment)? {
        Some(message) => is_read(alloc, new, expected, target.method, moment, &message),
        None => Ok(false),
    }
}

/// Carries some values over; whether all are read as what agrees.
fn are_carried(
    alloc: Global,
    old: &Schema,
    target: Target,
    new: &Schema,
    expected: Expected,
    tally: &mut Tally,
) -> Result<bool, AllocError>
    requires { HasTarget old.now target }
{
    let mut is_right = true;
    for _ in 0..VALUES {
        let number = tally.messages;
        is_right = is_carried(alloc, old, target, new, expected, number)? && is_right;
        tally.messages = number.saturating_add(1);
    }
    Ok(is_right)
}

/// Carries values over for a side of a method of the interface of this full name; there is nothing to do where it has no response.
fn is_side_carried(
    alloc: Global,
    old: &Schema,
    new: &Schema,
    interface: &str,
    method: &MethodRow,
    side: MessageSide,
    tally: &mut Tally,
) -> Result<bool, AllocError> {
    let Some(target) = target(old, interface, method.name.as_str(), side) else {
        return Ok(true);
    };
    match new.find_interface(interface) {
        Some(number) => {
            let expected = Expected {
                interface: number,
                side,
            };
            are_carried(alloc, old, target, new, expected, tally)
        }
        None => Ok(false),
    }
}

/// Carries values over for each method and side of an interface.
fn is_interface_carried(
    alloc: Global,
    old: &Schema,
    new: &Schema,
    row: &InterfaceRow,
    tally: &mut Tally,
) -> Result<bool, AllocError> {
    let name = row.name.full(alloc)?;
    let name = name.as_str();
    let mut is_right = true;
    for method in row.methods.as_slice() {
        let request = is_side_carried(alloc, old, new, name, method, MessageSide::Request, tally)?;
        let response = is_side_carried(
            alloc,
            old,
            new,
            name,
            method,
            MessageSide::Response,
            tally,
        )?;
        is_right = is_right && request && response;
    }
    Ok(is_right)
}

/// Carries values over for each stable interface; whether all are read as what agrees.
pub fn is_all_carried(
    alloc: Global,
    old: &Schema,
    new: &Schema,
    tally: &mut Tally,
) -> Result<bool, AllocError> {
    let mut is_right = true;
    for row in old.interfaces.as_slice() {
        if row.stable {
            is_right = is_interface_carried(alloc, old, new, row, tally)? && is_right;
        }
    }
    Ok(is_right)
}
