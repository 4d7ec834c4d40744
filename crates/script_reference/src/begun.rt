//! Events that begin a run, whichever sequence each is of: the joins, then what the sequences have to do, in any order of theirs,
//! and then the takes.

use crate::interleaved::{are_done, next_asked};
use crate::names::is_join;
use crate::script::{ask, line_asks};
use bind_model::{Asked, Event};
use bind_reference::ready;
use call_script::{Line, Script};
use mj_base::SeqId;
use mj_schema::Schema;
use std::alloc::{AllocError, Global};

/// The join that comes next behind so many; none where all are done.
fn join_behind(script: &Script, count: usize) -> Option<&Line> {
    let lines = script.lines.as_slice();
    lines.iter().filter(|line| is_join(*line)).nth(count)
}

/// What a sequence takes next in the drain: at the end that is ready, where it is the one that takes there.
fn taken_next(
    alloc: Global,
    schema: &Schema,
    past: &[Event],
    seq: SeqId,
) -> Result<Option<Asked>, AllocError> {
    match ready(alloc, schema, past)? {
        Some((taker, end)) if taker == seq => Ok(Some(Asked::Take(end))),
        Some(_) | None => Ok(None),
    }
}

/// What a sequence may ask behind these events, which begin a run: the next join, where that is its line; behind the joins
/// the automatic reply that it owes, or else its next line; and where no sequence has either, a take where a message is ready.
fn may_ask(
    alloc: Global,
    schema: &Schema,
    script: &Script,
    past: &[Event],
    seq: SeqId,
) -> Result<Option<Asked>, AllocError> {
    if let Some(line) = join_behind(script, past.len()) {
        if line.seq != seq {
            return Ok(None);
        }
        return Ok(Some(line_asks(alloc, schema, script, past, line)?));
    }
    if are_done(alloc, schema, script, past)? {
        return taken_next(alloc, schema, past, seq);
    }
    next_asked(alloc, schema, script, past, seq)
}

/// Adds the event of what a sequence may ask behind these events, which begin a run; whether it may ask anything.
pub fn go_on(
    alloc: Global,
    schema: &Schema,
    script: &Script,
    events: &mut Vec<Event>,
    seq: SeqId,
) -> Result<bool, AllocError> {
    let Some(asked) = may_ask(alloc, schema, script, events, seq)? else {
        return Ok(false);
    };
    ask(alloc, schema, script, events, seq, asked)?;
    Ok(true)
}

/// Whether these events, which begin a run, are a whole one: no sequence may ask anything behind them.
pub fn is_whole(
    alloc: Global,
    schema: &Schema,
    script: &Script,
    past: &[Event],
) -> Result<bool, AllocError> {
    for seq in 0..script.seqs {
        let next = may_ask(alloc, schema, script, past, SeqId(seq))?;
        if next.is_some() {
            return Ok(false);
        }
    }
    Ok(true)
}
