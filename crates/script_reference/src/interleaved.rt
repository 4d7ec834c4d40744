//! The events of a script whose sequences have their turns as other events have them, as those that a run with threads
//! printed: the joins; then what the sequence of each of those events does next; and then the takes.

use crate::names::next_line;
use crate::script::{ask, auto_reply, drain, joined, line_asks};
use bind_model::{Asked, Event};
use call_script::Script;
use mj_base::SeqId;
use mj_schema::Schema;
use std::alloc::{AllocError, Global};

/// The automatic reply that a sequence owes behind these events: the one to what its newest event got.
fn owed(
    alloc: Global,
    schema: &Schema,
    script: &Script,
    past: &[Event],
    seq: SeqId,
) -> Result<Option<Asked>, AllocError> {
    match past.iter().rev().find(|event| event.seq == seq) {
        Some(event) => auto_reply(alloc, schema, script, event),
        None => Ok(None),
    }
}

/// What a sequence asks next behind these events, which begin with all joins: the automatic reply that it owes, or
/// else its next line; none where it has done all.
pub fn next_asked(
    alloc: Global,
    schema: &Schema,
    script: &Script,
    past: &[Event],
    seq: SeqId,
) -> Result<Option<Asked>, AllocError> {
    if let Some(reply) = owed(alloc, schema, script, past, seq)? {
        return Ok(Some(reply));
    }
    match next_line(script, past, seq) {
        Some(line) => Ok(Some(line_asks(alloc, schema, script, past, line)?)),
        None => Ok(None),
    }
}

/// Adds the event of what a sequence asks next; whether it asks anything.
fn do_next(
    alloc: Global,
    schema: &Schema,
    script: &Script,
    events: &mut Vec<Event>,
    seq: SeqId,
) -> Result<bool, AllocError> {
    let Some(asked) = next_asked(alloc, schema, script, events, seq)? else {
        return Ok(false);
    };
    ask(alloc, schema, script, events, seq, asked)?;
    Ok(true)
}

/// Adds what the sequences do behind the joins, in the turns of these events, until one of them has done all.
fn do_turns(
    alloc: Global,
    schema: &Schema,
    script: &Script,
    turns: &[Event],
    events: &mut Vec<Event>,
) -> Result<(), AllocError> {
    let joins = events.len();
    for turn in turns.iter().skip(joins) {
        if !do_next(alloc, schema, script, events, turn.seq)? {
            return Ok(());
        }
    }
    Ok(())
}

/// Whether all sequences have done all behind these events.
pub fn are_done(
    alloc: Global,
    schema: &Schema,
    script: &Script,
    past: &[Event],
) -> Result<bool, AllocError> {
    for seq in 0..script.seqs {
        let next = next_asked(alloc, schema, script, past, SeqId(seq))?;
        if next.is_some() {
            return Ok(false);
        }
    }
    Ok(true)
}

/// All events of a script, in order, where behind the joins its sequences have their turns as these events say; none
/// where that leaves something undone before the takes at the end.
pub fn events_by(
    alloc: Global,
    schema: &Schema,
    script: &Script,
    turns: &[Event],
) -> Result<Option<Vec<Event>>, AllocError> {
    let mut events = joined(alloc, schema, script)?;
    do_turns(alloc, schema, script, turns, &mut events)?;
    if !are_done(alloc, schema, script, &events)? {
        return Ok(None);
    }
    drain(alloc, schema, script, &mut events)?;
    Ok(Some(events))
}
