//! The value of a tree.

use crate::bytes::{bit_at, byte_at, number16, number32, number64, word};
use crate::list::{NO_INDEX, text_at};
use crate::nodes::{Node, What};
use crate::rows::{enum_of, has_member, is_nullable};
use mj_schema::{FieldRow, KindNode, Literal, Schema, Width};
use std::alloc::{AllocError, Global};
use wire_model::Value;

/// An integer at a place.
fn whole_at(bytes: &[u8], at: u64, width: Width, signed: bool) -> i128 {
    let bits = match width {
        Width::Bits8 => byte_at(bytes, at),
        Width::Bits16 => number16(bytes, at),
        Width::Bits32 => number32(bytes, at),
        Width::Bits64 => number64(bytes, at),
    };
    let (half, whole): (i128, i128) = match width {
        Width::Bits8 => (0x80, 0x100),
        Width::Bits16 => (0x8000, 0x1_0000),
        Width::Bits32 => (0x8000_0000, 0x1_0000_0000),
        Width::Bits64 => (0x8000_0000_0000_0000, 0x1_0000_0000_0000_0000),
    };
    let number = i128::from(bits);
    if signed && number >= half {
        number.saturating_sub(whole)
    } else {
        number
    }
}

/// An index at a place, null where it says that there is none.
fn index_at(bytes: &[u8], at: u64, kind: &KindNode) -> Value {
    let index = word(bytes, at);
    let version = word(bytes, at.saturating_add(4));
    if u64::from(index) == NO_INDEX {
        return Value::Null;
    }
    match kind {
        KindNode::Remote { .. } => Value::Remote { index, version },
        KindNode::AssociatedRemote { .. } => Value::EndpointRemote { index, version },
        KindNode::AssociatedReceiver { .. } => Value::Endpoint(index),
        _ => Value::Handle(index),
    }
}

/// The value of a union where it lies, which holds this.
fn union_value(
    alloc: Global,
    bytes: &[u8],
    at: u64,
    held: Option<Value>,
) -> Result<Value, AllocError> {
    if number32(bytes, at) == 0 {
        return Ok(Value::Null);
    }
    let tag = word(bytes, at.saturating_add(4));
    match held {
        Some(value) => Ok(Value::Union {
            tag,
            value: Box::new(alloc, value)?,
        }),
        None => Ok(Value::Unknown(tag)),
    }
}

/// The value of a slot that holds neither a union nor a pointer; none of one that does.
fn cell_value(bytes: &[u8], node: Node<'_>, kind: &KindNode) -> Option<Value> {
    match kind {
        KindNode::Bool { .. } => Some(Value::Bool(bit_at(bytes, node.at, node.bit))),
        KindNode::Int { width, signed, .. } => {
            Some(Value::Whole(whole_at(bytes, node.at, *width, *signed)))
        }
        KindNode::Enum { .. } => {
            Some(Value::Whole(whole_at(bytes, node.at, Width::Bits32, true)))
        }
        KindNode::Handle { .. }
        | KindNode::Remote { .. }
        | KindNode::Receiver { .. }
        | KindNode::AssociatedRemote { .. }
        | KindNode::AssociatedReceiver { .. } => Some(index_at(bytes, node.at, kind)),
        _ => None,
    }
}

/// The elements of a list.
fn elements(alloc: Global, list: Option<Value>) -> Vec<Value> {
    match list {
        Some(Value::List(elements)) => elements,
        _ => Vec::new(alloc),
    }
}

/// What an enum reads as where there is none: its default, or 0 where that is a member, or its first.
fn enum_absent(schema: &Schema, number: u32) -> i32 {
    let Some(row) = enum_of(schema, number) else {
        return 0;
    };
    match (row.default, row.members.as_slice()) {
        (Some(number), _) => number,
        (None, [first, ..]) if !has_member(row, 0) => first.number,
        _ => 0,
    }
}

/// What a field reads as that isn't there.
fn absent_value(alloc: Global, schema: &Schema, field: &FieldRow) -> Result<Value, AllocError> {
    match (&field.default, field.kind.node()) {
        (Some(Literal::Bool(value)), _) => Ok(Value::Bool(*value)),
        (Some(Literal::Whole(value)), _) => Ok(Value::Whole(*value)),
        (Some(Literal::Text(text)), _) => {
            let mut bytes = Vec::new(alloc);
            bytes.extend_from_slice(text.as_slice())?;
            Ok(Value::Text(bytes))
        }
        (None, kind) if is_nullable(kind) => Ok(Value::Null),
        (None, KindNode::Bool { .. }) => Ok(Value::Bool(false)),
        (None, KindNode::Int { .. }) => Ok(Value::Whole(0)),
        (None, KindNode::Enum { number, .. }) => {
            Ok(Value::Whole(i128::from(enum_absent(schema, *number))))
        }
        (None, _) => Ok(Value::Null),
    }
}

/// The value of a node whose parts have these.
fn value_of(
    alloc: Global,
    schema: &Schema,
    bytes: &[u8],
    node: Node<'_>,
    parts: Vec<Value>,
) -> Result<Value, AllocError> {
    let at = node.at;
    match node.what {
        What::Struct(_) => Ok(Value::Struct(parts)),
        What::Array { .. } => Ok(Value::List(parts)),
        What::Absent(field) => absent_value(alloc, schema, field),
        What::NoValue => Ok(Value::Null),
        What::Map { .. } => {
            let mut lists = parts;
            let values = elements(alloc, lists.pop());
            let keys = elements(alloc, lists.pop());
            Ok(Value::Map { keys, values })
        }
        What::Text => {
            let mut text = Vec::new(alloc);
            text.extend_from_slice(text_at(bytes, at))?;
            Ok(Value::Text(text))
        }
        What::Slot(KindNode::Union { .. }) => {
            let mut held = parts;
            union_value(alloc, bytes, at, held.pop())
        }
        What::Slot(kind) | What::Held(kind) => {
            let mut targets = parts;
            match cell_value(bytes, node, kind) {
                Some(value) => Ok(value),
                None => Ok(targets.pop().unwrap_or(Value::Null)),
            }
        }
        What::List(_) | What::Union(_) | What::Nothing => {
            let mut targets = parts;
            Ok(targets.pop().unwrap_or(Value::Null))
        }
    }
}

/// Takes the values of a node's parts.
fn take_parts(
    alloc: Global,
    node: Node<'_>,
    values: &mut [Option<Value>],
) -> Result<Vec<Value>, AllocError> {
    let mut parts = Vec::new(alloc);
    for k in 0..node.parts {
        let slot = values.get_mut(node.first.saturating_add(k));
        if let Some(value) = slot.and_then(|slot| slot.take()) {
            parts.push(value)?;
        }
    }
    Ok(parts)
}

/// The value of the first of these nodes.
pub fn root_value(
    alloc: Global,
    schema: &Schema,
    bytes: &[u8],
    nodes: &[Node<'_>],
) -> Result<Value, AllocError> {
    let mut values = Vec::new(alloc);
    for _ in nodes {
        values.push(None)?;
    }
    fill(alloc, schema, bytes, nodes, &mut values)?;
    let first = values.get_mut(0).and_then(|slot| slot.take());
    Ok(first.unwrap_or(Value::Null))
}

/// Puts the value of each node into its place. The parts of a node stand behind it, so the last is first.
fn fill(
    alloc: Global,
    schema: &Schema,
    bytes: &[u8],
    nodes: &[Node<'_>],
    values: &mut [Option<Value>],
) -> Result<(), AllocError> {
    for place in (0..nodes.len()).rev() {
        if let Some(node) = nodes.get(place).copied() {
            let parts = take_parts(alloc, node, values)?;
            let value = value_of(alloc, schema, bytes, node, parts)?;
            if let Some(slot) = values.get_mut(place) {
                *slot = Some(value);
            }
        }
    }
    Ok(())
}
