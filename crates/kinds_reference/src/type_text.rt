//! Types with full names, and values.

use crate::here::Here;
use mojom_ast::{BaseNode, HandleSort, Name, Number, PendingSort, TypeNode};
use names_reference::{Found, basic_of, meaning};
use std::alloc::{AllocError, Global};
use std::str;

/// Adds the full name of what a name means, or the word of a basic kind.
fn push_meant(
    alloc: Global,
    text: &mut String,
    here: Here<'_>,
    name: &Name,
) -> Result<(), AllocError> {
    let number = meaning(alloc, here.given, here.file, here.enclosing, name)?;
    match number.and_then(|number| here.given.things.get(number)) {
        Some(thing) => text.push_str(thing.full.as_str()),
        None => text.push_str("?"),
    }
}

/// Adds the word of a basic kind, or the full name of what a name means.
fn push_name(
    alloc: Global,
    text: &mut String,
    here: Here<'_>,
    name: &Name,
) -> Result<(), AllocError> {
    match basic_of(name) {
        Some(basic) => text.push_str(basic.name()),
        None => push_meant(alloc, text, here, name),
    }
}

/// The word for a handle.
fn handle_word(sort: Option<HandleSort>) -> &'static str {
    match sort {
        None => "handle",
        Some(HandleSort::MessagePipe) => "handle<message_pipe>",
        Some(HandleSort::DataPipeConsumer) => "handle<data_pipe_consumer>",
        Some(HandleSort::DataPipeProducer) => "handle<data_pipe_producer>",
        Some(HandleSort::SharedBuffer) => "handle<shared_buffer>",
        Some(HandleSort::Platform) => "handle<platform>",
    }
}

/// The word for an endpoint.
fn pending_word(sort: PendingSort) -> &'static str {
    match sort {
        PendingSort::Remote => "pending_remote<",
        PendingSort::Receiver => "pending_receiver<",
        PendingSort::AssociatedRemote => "pending_associated_remote<",
        PendingSort::AssociatedReceiver => "pending_associated_receiver<",
    }
}

/// Adds the length of an array, where it has one.
fn push_length(text: &mut String, count: &Option<Number>) -> Result<(), AllocError> {
    let Some(count) = count else {
        return Ok(());
    };
    let number = count.value;
    write!(text, ", {number}")
}

/// What stands behind all that a type is made of.
fn end_of(node: &TypeNode) -> &'static str {
    let has_parts = !matches!(&node.base, BaseNode::Name(_) | BaseNode::Handle(_));
    match (has_parts, node.nullable) {
        (true, true) => ">?",
        (true, false) => ">",
        (false, true) => "?",
        (false, false) => "",
    }
}

/// Adds a type, with full names.
#[cycle(types)]
pub fn push_type(
    alloc: Global,
    text: &mut String,
    here: Here<'_>,
    node: &TypeNode,
) -> Result<(), AllocError> {
    match &node.base {
        BaseNode::Name(name) => push_name(alloc, text, here, name)?,
        BaseNode::Array { of, count } => {
            text.push_str("array<")?;
            push_type(alloc, text, here, of)?;
            push_length(text, count)?;
        }
        BaseNode::Map { key, value } => {
            text.push_str("map<")?;
            push_type(alloc, text, here, key)?;
            text.push_str(", ")?;
            push_type(alloc, text, here, value)?;
        }
        BaseNode::Handle(sort) => text.push_str(handle_word(*sort))?,
        BaseNode::Pending { sort, interface } => {
            text.push_str(pending_word(*sort))?;
            push_meant(alloc, text, here, interface)?;
        }
    }
    text.push_str(end_of(node))
}

/// How a character is written in quotes that isn't written as it is.
fn escape_of(letter: char) -> Option<&'static str> {
    match letter {
        '"' => Some("\\\""),
        '\\' => Some("\\\\"),
        '\n' => Some("\\n"),
        '\t' => Some("\\t"),
        _ => None,
    }
}

/// Adds a string in quotes.
fn push_quoted(text: &mut String, bytes: &[u8]) -> Result<(), AllocError> {
    text.push_str("\"")?;
    for letter in str::from_utf8(bytes).unwrap_or("?").chars() {
        match escape_of(letter) {
            Some(escape) => text.push_str(escape)?,
            None => text.push(letter)?,
        }
    }
    text.push_str("\"")
}

/// Adds a value.
pub fn push_found(text: &mut String, found: Found<'_>) -> Result<(), AllocError> {
    match found {
        Found::Text(bytes) => push_quoted(text, bytes),
        Found::Bool(true) => text.push_str("true"),
        Found::Bool(false) => text.push_str("false"),
        Found::Number(number) => write!(text, "{number}"),
        Found::Float | Found::Circular | Found::Nothing => text.push_str("?"),
    }
}
