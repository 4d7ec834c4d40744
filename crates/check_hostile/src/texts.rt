//! Values and histories: what is read of a text has that text, and of a text that is refused the place is the first byte with which no
//! text goes on.

use bind_model::History;
use check_messages::compare::Verdict;
use history_reader::read_history;
use history_text::render;
use mj_schema::{Kind, KindNode, Schema};
use std::alloc::{AllocError, Global};
use value_text::{TextError, read_value, write_value};

/// What became of a text.
#[derive(Clone, Copy)]
enum Reading {
    /// It was read, and whether what was read has this text.
    Read(bool),
    /// It is refused at this byte.
    Bad(u64),
}

/// What reads a text: as a value of a kind, or as a history.
#[derive(Clone, Copy)]
enum Form<'a> {
    Value(&'a Kind),
    History,
}

/// The kind of the parameters that the words `INTERFACE METHOD SIDE` name; none where there are none.
fn kind_of(schema: &Schema, words: &str) -> Option<Kind> {
    let mut words = words.split_ascii_whitespace();
    let interface = schema.find_interface(words.next().unwrap_or(""))?;
    let method = schema.find_method(interface, words.next().unwrap_or(""))?;
    let number = if words.next() == Some("response") {
        method.response?
    } else {
        method.request
    };
    Some(Kind::new(KindNode::Struct {
        number,
        nullable: false,
    }))
}

/// What becomes of a value's text.
fn value_reading(
    alloc: Global,
    schema: &Schema,
    kind: &Kind,
    bytes: &[u8],
) -> Result<Reading, AllocError> {
    match read_value(alloc, schema, kind, bytes) {
        Ok(value) => {
            let text = write_value(alloc, schema, kind, &value)?;
            Ok(Reading::Read(text.as_slice() == bytes))
        }
        Err(TextError::BadText { at }) => Ok(Reading::Bad(at)),
        Err(TextError::Memory) => Err(AllocError),
    }
}

/// What becomes of a history's text. One that says another number of events than it has has no text of its own.
fn history_reading(alloc: Global, schema: &Schema, bytes: &[u8]) -> Result<Reading, AllocError> {
    let printed = match read_history(alloc, schema, bytes) {
        Ok(printed) => printed,
        Err(TextError::BadText { at }) => return Ok(Reading::Bad(at)),
        Err(TextError::Memory) => return Err(AllocError),
    };
    if printed.count != printed.events.len() as u64 {
        return Ok(Reading::Read(true));
    }
    let history = History::from_items(printed.events);
    let (notes, left) = (printed.notes.as_slice(), printed.left.as_slice());
    let text = render(alloc, schema, &history, notes, left)?;
    Ok(Reading::Read(text.as_slice() == bytes))
}

/// What becomes of a text of a form.
fn read_as(
    alloc: Global,
    schema: &Schema,
    form: Form<'_>,
    bytes: &[u8],
) -> Result<Reading, AllocError> {
    match form {
        Form::Value(kind) => value_reading(alloc, schema, kind, bytes),
        Form::History => history_reading(alloc, schema, bytes),
    }
}

/// Whether what stands before the byte at fault lacks nothing but more bytes.
fn goes_on(
    alloc: Global,
    schema: &Schema,
    form: Form<'_>,
    bytes: &[u8],
    at: usize,
) -> Result<bool, AllocError> {
    let front = bytes.get(..at).unwrap_or(bytes);
    match read_as(alloc, schema, form, front)? {
        Reading::Read(_) => Ok(true),
        Reading::Bad(place) => Ok(place == front.len() as u64),
    }
}

/// Whether the byte at fault is refused whatever stands behind it; at the end of the text there is none.
fn stops(
    alloc: Global,
    schema: &Schema,
    form: Form<'_>,
    bytes: &[u8],
    at: usize,
) -> Result<bool, AllocError> {
    let Some(front) = bytes.get(..at.saturating_add(1)) else {
        return Ok(at == bytes.len());
    };
    match read_as(alloc, schema, form, front)? {
        Reading::Read(_) => Ok(false),
        Reading::Bad(place) => Ok(place == at as u64),
    }
}

/// Judges a text of a form.
fn judge_text(
    alloc: Global,
    schema: &Schema,
    form: Form<'_>,
    bytes: &[u8],
) -> Result<Verdict, AllocError> {
    let at = match read_as(alloc, schema, form, bytes)? {
        Reading::Read(true) => return Ok(Verdict::Stands),
        Reading::Read(false) => return Ok(Verdict::Differs),
        Reading::Bad(at) => at as usize,
    };
    if goes_on(alloc, schema, form, bytes, at)? && stops(alloc, schema, form, bytes, at)? {
        Ok(Verdict::Refused)
    } else {
        Ok(Verdict::Differs)
    }
}

/// Judges a value's text, of the parameters that the words name.
pub fn judge_value(
    alloc: Global,
    schema: &Schema,
    words: &str,
    bytes: &[u8],
) -> Result<Verdict, AllocError> {
    match kind_of(schema, words) {
        Some(kind) => judge_text(alloc, schema, Form::Value(&kind), bytes),
        None => Ok(Verdict::Differs),
    }
}

/// Judges a history's text.
pub fn judge_history(alloc: Global, schema: &Schema, bytes: &[u8]) -> Result<Verdict, AllocError> {
    judge_text(alloc, schema, Form::History, bytes)
}

/// Lets the reader of values alone judge a text.
pub fn read_value_alone(alloc: Global, schema: &Schema, words: &str, bytes: &[u8]) {
    if let Some(kind) = kind_of(schema, words) {
        let _value = read_value(alloc, schema, &kind, bytes).ok();
    }
}

/// Lets the reader of histories alone judge a text.
pub fn read_history_alone(alloc: Global, schema: &Schema, bytes: &[u8]) {
    let _history = read_history(alloc, schema, bytes).ok();
}
