//! The tree of a message: each pointer is followed, as long as the object that it leads to has room
//! for itself.

use crate::bytes::{are_there, bit_at, number32, number64};
use crate::nodes::{Node, What};
use crate::rows::{bits, goes_with, has_field, held, room, struct_of};
use mj_schema::{FieldRow, KindNode, Schema, StructRow};
use std::alloc::{AllocError, Global};

/// How many objects may stand one behind the other.
pub const MOST_DEPTH: u32 = 200;

/// How many nodes are followed.
const MOST_NODES: usize = 100_000;

/// The greatest distance of a pointer.
pub const MOST_DISTANCE: u64 = 0xffff_ffff;

/// What a pointer to this kind leads to.
fn behind<'a>(schema: &'a Schema, kind: &'a KindNode) -> What<'a> {
    match kind {
        KindNode::Text { .. } => What::Text,
        KindNode::Array { of, count, .. } => What::Array { of, count: *count },
        KindNode::Map { key, value, .. } => What::Map { key, value },
        KindNode::Union { .. } => What::Union(kind),
        KindNode::Struct { number, .. } => match struct_of(schema, *number) {
            Some(row) => What::Struct(row),
            None => What::Nothing,
        },
        _ => What::Nothing,
    }
}

/// The target of a pointer at a node, which is null, too far or too deep where there is none.
fn target<'a>(bytes: &[u8], node: Node<'a>, what: What<'a>) -> Option<Node<'a>> {
    let distance = number64(bytes, node.at);
    if distance == 0 || distance > MOST_DISTANCE || node.depth >= MOST_DEPTH {
        return None;
    }
    let depth = node.depth.saturating_add(1);
    Some(Node::new(what, node.at.saturating_add(distance), depth))
}

/// What is held by the union of a number that lies at a node.
fn member<'a>(schema: &'a Schema, bytes: &[u8], node: Node<'a>, number: u32) -> Option<Node<'a>> {
    if number32(bytes, node.at) == 0 {
        return None;
    }
    let tag = number32(bytes, node.at.saturating_add(4));
    let kind = held(schema, number, tag)?;
    let what = What::Held(kind.node());
    Some(Node::new(what, node.at.saturating_add(8), node.depth))
}

/// The part of a node that has one at most.
fn part<'a>(schema: &'a Schema, bytes: &[u8], node: Node<'a>) -> Option<Node<'a>> {
    match node.what {
        What::Slot(KindNode::Union { number, .. }) => member(schema, bytes, node, *number),
        What::Slot(kind) | What::Held(kind) => match behind(schema, kind) {
            What::Nothing => None,
            what => target(bytes, node, what),
        },
        What::List(of) => target(bytes, node, What::Array { of, count: None }),
        What::Union(kind) => Some(Node::new(What::Slot(kind), node.at, node.depth)),
        _ => None,
    }
}

/// Whether the size of an object has room for its two numbers and so much, and the message for it.
fn has_room(bytes: &[u8], at: u64, extra: u64) -> bool {
    let size = number32(bytes, at);
    size >= extra.saturating_add(8) && are_there(bytes, at, size)
}

/// Whether a field has a flag that is 0, where its struct's fields begin at a place.
fn has_no_value(bytes: &[u8], fields: u64, field: &FieldRow) -> bool {
    match field.flag {
        Some(flag) => !bit_at(
            bytes,
            fields.saturating_add(u64::from(flag.offset)),
            flag.bit,
        ),
        None => false,
    }
}

/// The node of a field.
fn field_node<'a>(bytes: &[u8], node: Node<'a>, field: &'a FieldRow, version: u64) -> Node<'a> {
    if !has_field(field, version) {
        return Node::new(What::Absent(field), node.at, node.depth);
    }
    let fields = node.at.saturating_add(8);
    if has_no_value(bytes, fields, field) {
        return Node::new(What::NoValue, node.at, node.depth);
    }
    let at = fields.saturating_add(u64::from(field.offset));
    Node {
        bit: field.bit,
        ..Node::new(What::Slot(field.kind.node()), at, node.depth)
    }
}

/// Adds the fields of a struct.
fn add_fields<'a>(
    bytes: &[u8],
    node: Node<'a>,
    row: &'a StructRow,
    parts: &mut Vec<Node<'a>>,
) -> Result<(), AllocError> {
    let version = number32(bytes, node.at.saturating_add(4));
    if !has_room(bytes, node.at, 0) || !goes_with(row, version, number32(bytes, node.at)) {
        return Ok(());
    }
    for field in row.fields.as_slice() {
        parts.push(field_node(bytes, node, field, version))?;
    }
    Ok(())
}

/// Adds the elements of an array.
fn add_elements<'a>(
    bytes: &[u8],
    node: Node<'a>,
    of: &'a KindNode,
    parts: &mut Vec<Node<'a>>,
) -> Result<(), AllocError> {
    let count = number32(bytes, node.at.saturating_add(4));
    if !has_room(bytes, node.at, room(of, count)) {
        return Ok(());
    }
    for k in 0..count {
        let bit = bits(of).saturating_mul(k);
        let at = node.at.saturating_add(8).saturating_add(bit / 8);
        parts.push(Node {
            bit: (bit % 8) as u32,
            ..Node::new(What::Slot(of), at, node.depth)
        })?;
    }
    Ok(())
}

/// Adds the parts of a node, in order.
fn add_parts<'a>(
    schema: &'a Schema,
    bytes: &[u8],
    node: Node<'a>,
    parts: &mut Vec<Node<'a>>,
) -> Result<(), AllocError> {
    match node.what {
        What::Struct(row) => add_fields(bytes, node, row, parts),
        What::Array { of, .. } => add_elements(bytes, node, of, parts),
        What::Map { key, value } if has_room(bytes, node.at, 16) => {
            let keys = Node::new(What::List(key), node.at.saturating_add(8), node.depth);
            let values = Node::new(What::List(value), node.at.saturating_add(16), node.depth);
            parts.extend_from_slice(&[keys, values])
        }
        _ => match part(schema, bytes, node) {
            Some(part) => parts.extend_from_slice(&[part]),
            None => Ok(()),
        },
    }
}

/// The nodes of the struct that starts at a place, which is the first of them. The parts of a node stand
/// behind it. None where there are more than are followed.
pub fn follow<'a>(
    alloc: Global,
    schema: &'a Schema,
    bytes: &[u8],
    start: u64,
    row: &'a StructRow,
) -> Result<Option<Vec<Node<'a>>>, AllocError> {
    let mut nodes = Vec::new(alloc);
    nodes.push(Node::new(What::Struct(row), start, 1))?;
    for place in 0..MOST_NODES {
        let Some(node) = nodes.get(place).copied() else {
            return Ok(Some(nodes));
        };
        let first = nodes.len();
        add_parts(schema, bytes, node, &mut nodes)?;
        let count = nodes.len().saturating_sub(first);
        if let Some(node) = nodes.get_mut(place) {
            node.first = first;
            node.parts = count;
        }
    }
    Ok(None)
}
