//! Whether kinds fit, and which definitions they name: each is taken apart into a list, and the two lists are compared.

use crate::definitions::Given;
use crate::found::Found;
use mj_schema::{HandleSort, KindNode, RowSort, Width};
use std::alloc::{AllocError, Global};
use wire_reference::is_nullable;

/// Adds a kind and all that it is made of: each before its parts, a key before its value.
fn add_parts<'a>(parts: &mut Vec<&'a KindNode>, kind: &'a KindNode) -> Result<(), AllocError> {
    parts.push(kind)?;
    match kind {
        KindNode::Array { of, .. } => add_parts(parts, of),
        KindNode::Map { key, value, .. } => {
            add_parts(parts, key)?;
            add_parts(parts, value)
        }
        _ => Ok(()),
    }
}

/// Whether `?` is equal, or is added on a kind other than a bool, an integer and an enum.
fn null_fits(old: &KindNode, new: &KindNode) -> bool {
    match old {
        KindNode::Bool { .. } | KindNode::Int { .. } | KindNode::Enum { .. } => {
            is_nullable(old) == is_nullable(new)
        }
        _ => is_nullable(new) || !is_nullable(old),
    }
}

/// The word for an integer.
fn integer_word(width: Width, signed: bool) -> &'static str {
    match (width, signed) {
        (Width::Bits8, true) => "int8",
        (Width::Bits8, false) => "uint8",
        (Width::Bits16, true) => "int16",
        (Width::Bits16, false) => "uint16",
        (Width::Bits32, true) => "int32",
        (Width::Bits32, false) => "uint32",
        (Width::Bits64, true) => "int64",
        (Width::Bits64, false) => "uint64",
    }
}

/// The word for a handle.
fn handle_word(sort: HandleSort) -> &'static str {
    match sort {
        HandleSort::Any => "handle",
        HandleSort::MessagePipe => "handle<message_pipe>",
        HandleSort::DataPipeConsumer => "handle<data_pipe_consumer>",
        HandleSort::DataPipeProducer => "handle<data_pipe_producer>",
        HandleSort::SharedBuffer => "handle<shared_buffer>",
        HandleSort::Platform => "handle<platform>",
    }
}

/// The word for the sort of a kind, with its width and sign or its sort of handle.
fn word_of(kind: &KindNode) -> &'static str {
    match kind {
        KindNode::Bool { .. } => "bool",
        KindNode::Int { width, signed, .. } => integer_word(*width, *signed),
        KindNode::Enum { .. } => "enum",
        KindNode::Text { .. } => "string",
        KindNode::Handle { sort, .. } => handle_word(*sort),
        KindNode::Array { .. } => "array",
        KindNode::Map { .. } => "map",
        KindNode::Struct { .. } => "struct",
        KindNode::Union { .. } => "union",
        KindNode::Remote { .. } => "pending_remote",
        KindNode::Receiver { .. } => "pending_receiver",
        KindNode::AssociatedRemote { .. } => "pending_associated_remote",
        KindNode::AssociatedReceiver { .. } => "pending_associated_receiver",
    }
}

/// The fixed count of an array.
fn count_of(kind: &KindNode) -> Option<u32> {
    match kind {
        KindNode::Array { count, .. } => *count,
        _ => None,
    }
}

/// The interface that an endpoint names.
fn interface_of(kind: &KindNode) -> Option<u32> {
    match kind {
        KindNode::Remote { interface, .. }
        | KindNode::Receiver { interface, .. }
        | KindNode::AssociatedRemote { interface, .. }
        | KindNode::AssociatedReceiver { interface, .. } => Some(*interface),
        _ => None,
    }
}

/// Whether two interfaces have one full name.
fn are_namesakes(alloc: Global, given: Given<'_>, old: u32, new: u32) -> Result<bool, AllocError> {
    let older = given.old.interfaces.as_slice().get(old as usize);
    let newer = given.new.interfaces.as_slice().get(new as usize);
    match (older, newer) {
        (Some(older), Some(newer)) => {
            let name = newer.name.full(alloc)?;
            Ok(older.name.has_bytes(name.as_str().as_bytes()))
        }
        _ => Ok(false),
    }
}

/// Whether two kinds fit, but for what they are made of.
fn part_fits(
    alloc: Global,
    given: Given<'_>,
    old: &KindNode,
    new: &KindNode,
) -> Result<bool, AllocError> {
    let count_fits = count_of(new).is_none() || count_of(old) == count_of(new);
    if word_of(old) != word_of(new) || !null_fits(old, new) || !count_fits {
        return Ok(false);
    }
    match (interface_of(old), interface_of(new)) {
        (Some(old), Some(new)) => are_namesakes(alloc, given, old, new),
        _ => Ok(true),
    }
}

/// Adds the pair of the definitions that two kinds name themselves.
fn reach_named(found: &mut Found, old: &KindNode, new: &KindNode) -> Result<(), AllocError> {
    match (old, new) {
        (KindNode::Struct { number: i, .. }, KindNode::Struct { number: j, .. }) => {
            found.reach(RowSort::Struct, *i, *j)
        }
        (KindNode::Union { number: i, .. }, KindNode::Union { number: j, .. }) => {
            found.reach(RowSort::Union, *i, *j)
        }
        (KindNode::Enum { number: i, .. }, KindNode::Enum { number: j, .. }) => {
            found.reach(RowSort::Enum, *i, *j)
        }
        _ => Ok(()),
    }
}

/// Whether two kinds fit. The pairs of the definitions that they name are added.
pub fn fit(
    alloc: Global,
    given: Given<'_>,
    found: &mut Found,
    old: &KindNode,
    new: &KindNode,
) -> Result<bool, AllocError> {
    let mut older = Vec::new(alloc);
    let mut newer = Vec::new(alloc);
    add_parts(&mut older, old)?;
    add_parts(&mut newer, new)?;
    let mut all_fit = older.len() == newer.len();
    for (one, other) in older.iter().zip(&newer) {
        all_fit = part_fits(alloc, given, one, other)? && all_fit;
        reach_named(found, one, other)?;
    }
    Ok(all_fit)
}
