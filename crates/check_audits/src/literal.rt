//! What is literally said of a text: each of its events is to say what its sequence may ask behind those before it, and is told by
//! these, and what stands behind the events is to be what a whole run of these events has there.

use crate::judgement::Judgement;
use bind_model::{Event, History};
use bind_reference::left;
use call_script::Script;
use check_runs::callbacks::callbacks;
use history_reader::read_history;
use history_text::{push_event, render};
use mj_base::Items;
use mj_schema::Schema;
use script_reference::{go_on, is_whole};
use std::alloc::{AllocError, Global};
use value_text::TextError;

/// The line of an event of this number.
fn line_of(
    alloc: Global,
    schema: &Schema,
    number: usize,
    event: &Event,
) -> Result<Vec<u8>, AllocError> {
    let mut line = Vec::new(alloc);
    push_event(alloc, &mut line, schema, number, event)?;
    Ok(line)
}

/// Whether the newest of these events says what another does: which interface a responder's endpoint has stands in no line.
fn says(
    alloc: Global,
    schema: &Schema,
    events: &[Event],
    other: &Event,
) -> Result<bool, AllocError> {
    let Some((newest, before)) = events.split_last() else {
        return Ok(false);
    };
    let line = line_of(alloc, schema, before.len(), newest)?;
    let said = line_of(alloc, schema, before.len(), other)?;
    Ok(line.as_slice() == said.as_slice())
}

/// How many events that a text says begin a run, whose events are added one by one, that of the first which doesn't too.
fn count_begun(
    alloc: Global,
    schema: &Schema,
    script: &Script,
    said: &[Event],
    events: &mut Vec<Event>,
) -> Result<usize, AllocError> {
    for (number, event) in said.iter().enumerate() {
        if !go_on(alloc, schema, script, events, event.seq)? {
            return Ok(number);
        }
        if !says(alloc, schema, events, event)? {
            return Ok(number);
        }
    }
    Ok(said.len())
}

/// The number, from 1, of the first line in which texts differ: 1 and the line feeds with which both begin.
fn first_differing(text: &[u8], wanted: &[u8]) -> u64 {
    let mut line: u64 = 1;
    for (byte, other) in text.iter().zip(wanted) {
        if *byte != *other {
            return line;
        }
        if *byte == b'\n' {
            line = line.saturating_add(1);
        }
    }
    line
}

/// Judges a text that says the events of a whole run.
fn judge_whole(
    alloc: Global,
    schema: &Schema,
    script: &Script,
    events: Vec<Event>,
    text: &[u8],
) -> Result<Judgement, AllocError> {
    let count = events.len() as u64;
    let notes = callbacks(alloc, script.seqs, &events)?;
    let left = left(alloc, script.seqs, &events)?;
    let history = History::from_items(Items::from_vec(events));
    let wanted = render(alloc, schema, &history, &notes, &left)?;
    if wanted.as_slice() == text {
        return Ok(Judgement::Sound(count));
    }
    Ok(Judgement::Tail(first_differing(text, &wanted)))
}

/// Judges a text that says these events.
fn judge_events(
    alloc: Global,
    schema: &Schema,
    script: &Script,
    said: &[Event],
    text: &[u8],
) -> Result<Judgement, AllocError> {
    let mut events = Vec::new(alloc);
    let begun = count_begun(alloc, schema, script, said, &mut events)?;
    if begun < said.len() {
        return Ok(Judgement::Wrong(begun as u64));
    }
    if !is_whole(alloc, schema, script, &events)? {
        return Ok(Judgement::Short(begun as u64));
    }
    judge_whole(alloc, schema, script, events, text)
}

/// What is literally said of a text.
pub fn judge(
    alloc: Global,
    schema: &Schema,
    script: &Script,
    text: &[u8],
) -> Result<Judgement, AllocError> {
    match read_history(alloc, schema, text) {
        Ok(printed) => judge_events(alloc, schema, script, printed.events.as_slice(), text),
        Err(TextError::BadText { at }) => Ok(Judgement::Bad(at)),
        Err(TextError::Memory) => Err(AllocError),
    }
}
