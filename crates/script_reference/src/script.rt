//! The events of a script: one for each join, in order; one for each line of the sequences, of which the one
//! whose turn it is does its next; and then a take wherever a message is ready, until none is. Directly behind
//! each take of a request that has an automatic reply comes that reply.

use crate::names::{Names, is_join};
use crate::needs::{asks, outgoing};
use crate::replying::reply_to;
use bind_model::{Asked, Event};
use bind_reference::{answer, ready};
use call_script::{Line, Script};
use mj_base::SeqId;
use mj_base::limits::MAX_EVENTS;
use mj_schema::Schema;
use past_reference::responders::handed;
use std::alloc::{AllocError, Global};

/// What a line asks behind these events: to skip its number where something that it needs isn't there.
pub fn line_asks(
    alloc: Global,
    schema: &Schema,
    script: &Script,
    past: &[Event],
    line: &Line,
) -> Result<Asked, AllocError> {
    let names = Names::new(alloc, schema, script, past)?;
    match asks(alloc, &names, line.seq, &line.command)? {
        Some(asked) => Ok(asked),
        None => Ok(Asked::Skip(line.number)),
    }
}

/// Adds the event of a command, which is told what the events before give.
pub fn ask(
    alloc: Global,
    schema: &Schema,
    script: &Script,
    events: &mut Vec<Event>,
    seq: SeqId,
    asked: Asked,
) -> Result<(), AllocError> {
    let told = answer(alloc, schema, script.seqs, events, seq, &asked)?;
    events.push(Event { seq, asked, told })?;
    Ok(())
}

/// The automatic reply to what an event got, where it has one.
pub fn auto_reply(
    alloc: Global,
    schema: &Schema,
    script: &Script,
    event: &Event,
) -> Result<Option<Asked>, AllocError> {
    let responder = handed(schema, event);
    let (Some(reply), Some(responder)) = (reply_to(script.autos.as_slice(), event), responder)
    else {
        return Ok(None);
    };
    let sent = outgoing(
        alloc,
        &reply.prepared,
        Vec::new(alloc),
        Vec::new(alloc),
        None,
    )?;
    Ok(Some(Asked::Answer(responder, sent)))
}

/// Adds the event of the automatic reply to what the newest event got, where it has one.
fn reply_on(
    alloc: Global,
    schema: &Schema,
    script: &Script,
    events: &mut Vec<Event>,
) -> Result<(), AllocError> {
    let Some(event) = events.as_slice().last() else {
        return Ok(());
    };
    let seq = event.seq;
    match auto_reply(alloc, schema, script, event)? {
        Some(asked) => ask(alloc, schema, script, events, seq, asked),
        None => Ok(()),
    }
}

/// Adds the event of a command, and that of an automatic reply to what it got.
fn ask_on(
    alloc: Global,
    schema: &Schema,
    script: &Script,
    events: &mut Vec<Event>,
    seq: SeqId,
    asked: Asked,
) -> Result<(), AllocError> {
    ask(alloc, schema, script, events, seq, asked)?;
    reply_on(alloc, schema, script, events)
}

/// Adds the event of a line, and that of an automatic reply to what it got.
fn do_line(
    alloc: Global,
    schema: &Schema,
    script: &Script,
    events: &mut Vec<Event>,
    line: &Line,
) -> Result<(), AllocError> {
    let asked = line_asks(alloc, schema, script, events, line)?;
    ask_on(alloc, schema, script, events, line.seq, asked)
}

/// The number that is drawn after another.
fn next_draw(draw: u64) -> u64 {
    draw.wrapping_mul(6_364_136_223_846_793_005)
        .wrapping_add(1_442_695_040_888_963_407)
}

/// The sequences that have lines left, in rising order.
fn with_lines(alloc: Global, seqs: u32, left: &[&Line]) -> Result<Vec<SeqId>, AllocError> {
    let mut all = Vec::new(alloc);
    for seq in 0..seqs {
        if left.iter().any(|line| line.seq.0 == seq) {
            all.push(SeqId(seq))?;
        }
    }
    Ok(all)
}

/// The sequence whose turn it is by a number that was drawn: of those that have lines left the one of this
/// number, counted round.
fn next_seq(
    alloc: Global,
    seqs: u32,
    left: &[&Line],
    draw: u64,
) -> Result<Option<SeqId>, AllocError> {
    let all = with_lines(alloc, seqs, left)?;
    match (draw >> 32).checked_rem(all.len() as u64) {
        Some(place) => Ok(all.get(place as usize).copied()),
        None => Ok(None),
    }
}

/// Takes out the next line of a sequence.
fn take_line<'s>(left: &mut Vec<&'s Line>, seq: SeqId) -> Option<&'s Line> {
    let place = left.iter().position(|line| line.seq == seq)?;
    Some(left.remove(place))
}

/// Adds the events of the lines behind the joins, for each of which a number is drawn.
fn do_lines(
    alloc: Global,
    schema: &Schema,
    script: &Script,
    order: u64,
    events: &mut Vec<Event>,
) -> Result<(), AllocError> {
    let mut left = Vec::new(alloc);
    for line in script.lines.as_slice() {
        if !is_join(line) {
            left.push(line)?;
        }
    }
    let mut draw = order;
    for _ in 0..left.len() {
        draw = next_draw(draw);
        let seq = next_seq(alloc, script.seqs, &left, draw)?;
        if let Some(line) = seq.and_then(|seq| take_line(&mut left, seq)) {
            do_line(alloc, schema, script, events, line)?;
        }
    }
    Ok(())
}

/// Adds takes until no end is ready; there are never more events than a history has.
pub fn drain(
    alloc: Global,
    schema: &Schema,
    script: &Script,
    events: &mut Vec<Event>,
) -> Result<(), AllocError> {
    for _ in 0..MAX_EVENTS {
        let Some((seq, end)) = ready(alloc, schema, events)? else {
            return Ok(());
        };
        ask_on(alloc, schema, script, events, seq, Asked::Take(end))?;
    }
    Ok(())
}

/// The events of the joins, in order.
pub fn joined(alloc: Global, schema: &Schema, script: &Script) -> Result<Vec<Event>, AllocError> {
    let mut events = Vec::new(alloc);
    for line in script.lines.as_slice() {
        if is_join(line) {
            do_line(alloc, schema, script, &mut events, line)?;
        }
    }
    Ok(events)
}

/// All events of a script, in order, where its sequences do their lines in turns by this order.
pub fn events_of(
    alloc: Global,
    schema: &Schema,
    script: &Script,
    order: u64,
) -> Result<Vec<Event>, AllocError> {
    let mut events = joined(alloc, schema, script)?;
    do_lines(alloc, schema, script, order, &mut events)?;
    drain(alloc, schema, script, &mut events)?;
    Ok(events)
}
