//! Whole messages.

use crate::bytes::word;
use crate::follow::follow;
use crate::front::{Bounds, bounds_of, flags_test, header_tests, method_of, parameters};
use crate::judge::{Limits, first_fault};
use crate::list::tests_of;
use crate::nodes::Node;
use crate::rows::struct_of;
use crate::values::root_value;
use mj_base::{Fault, FaultKind};
use mj_schema::{Schema, StructRow};
use std::alloc::{AllocError, Global};
use wire_model::{Expected, Value};

/// What a message stands for: the ordinal of its method, its request id, its moment, and its parameters.
#[derive(Drop)]
pub struct Message {
    pub method: u32,
    pub request: u64,
    pub moment: Option<i64>,
    pub value: Value,
}

/// What comes of a message.
#[derive(Drop)]
pub enum Outcome {
    Message(Message),
    Refused(Fault),
    /// It has more nodes than are followed.
    TooLarge,
}

/// The struct of a message's parameters, or the fault before its payload.
fn parameters_row<'a>(
    alloc: Global,
    schema: &'a Schema,
    expected: Expected,
    bytes: &[u8],
) -> Result<Result<&'a StructRow, Fault>, AllocError> {
    let mut tests = header_tests(alloc, bytes)?;
    let limits = Limits {
        end: bytes.len() as u64,
        handles: 0,
        ids: 0,
    };
    if let Some(fault) = first_fault(&tests, 0, limits) {
        return Ok(Err(fault));
    }
    let unknown = Fault {
        kind: FaultKind::MessageHeaderUnknownMethod,
        at: 12,
    };
    let Some(method) = method_of(schema, expected, bytes) else {
        return Ok(Err(unknown));
    };
    let number = parameters(expected.side, method);
    let Some(row) = number.and_then(|number| struct_of(schema, number)) else {
        return Ok(Err(unknown));
    };
    tests.push(flags_test(expected.side, method, bytes))?;
    match first_fault(&tests, 0, limits) {
        Some(fault) => Ok(Err(fault)),
        None => Ok(Ok(row)),
    }
}

/// The first fault of the tree of a payload.
fn payload_fault(
    alloc: Global,
    schema: &Schema,
    bytes: &[u8],
    nodes: &[Node<'_>],
    bounds: Bounds,
    handles: u32,
) -> Result<Option<Fault>, AllocError> {
    let tests = tests_of(alloc, schema, bytes, nodes)?;
    let limits = Limits {
        end: bounds.end,
        handles: u64::from(handles),
        ids: bounds.ids,
    };
    Ok(first_fault(&tests, bounds.start, limits))
}

/// What a payload stands for, or its first fault.
fn read_payload(
    alloc: Global,
    schema: &Schema,
    bytes: &[u8],
    row: &StructRow,
    bounds: Bounds,
    handles: u32,
) -> Result<Outcome, AllocError> {
    let Some(nodes) = follow(alloc, schema, bytes, bounds.start, row)? else {
        return Ok(Outcome::TooLarge);
    };
    if let Some(fault) = payload_fault(alloc, schema, bytes, &nodes, bounds, handles)? {
        return Ok(Outcome::Refused(fault));
    }
    Ok(Outcome::Message(Message {
        method: word(bytes, 12),
        request: bounds.request,
        moment: bounds.moment,
        value: root_value(alloc, schema, bytes, &nodes)?,
    }))
}

/// What a message of an interface and of a side stands for, which came with so many handles; or its
/// first fault.
pub fn read(
    alloc: Global,
    schema: &Schema,
    expected: Expected,
    bytes: &[u8],
    handles: u32,
) -> Result<Outcome, AllocError> {
    match parameters_row(alloc, schema, expected, bytes)? {
        Err(fault) => Ok(Outcome::Refused(fault)),
        Ok(row) => read_payload(alloc, schema, bytes, row, bounds_of(bytes), handles),
    }
}
