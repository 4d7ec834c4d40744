//! The order in which the lines of several sequences are done, where nobody does them side by side.

ghost use Rattle.std.specs.Prelude.{◌≡◌, ◌+◌, ◌<◌, [], IfOk, IfSome, count_by, filter, length, map, slice_get};
ghost use Rattle.std.specs.Option.{option_copied, option_map};
ghost use Rattle.script_run.specs.Order.{counted_round, is_join, is_own, next_draw};
ghost use Rattle.script_run.specs.steps.Orders.{AreInOrder, AreQueues, Takes, has_more, left_from, numbered, queued, waiting};

use call_script::{Command, Line, Script};
use script_names::NoMemory;
use std::alloc::{AllocError, Global};

/// The number that is drawn after another.
fn next_draw(draw: u64) -> u64
    ensures { result ≡ next_draw draw }
{
    draw.wrapping_mul(6_364_136_223_846_793_005)
        .wrapping_add(1_442_695_040_888_963_407)
}

/// Whether a line joins.
pub fn is_join(line: &Command) -> bool
    ensures { result ≡ is_join line.now }
{
    matches!(line, Command::Join(_, _, _))
}

/// Whether a line is one of this sequence's own, behind the joins.
fn is_own(line: &Line, seq: u32) -> bool
    ensures { result ≡ is_own (numbered seq) line.now }
{
    seq == line.seq.0 && !is_join(&line.command)
}

/// The lines of a sequence, and how many of them have had their turn.
#[derive(Drop)]
pub(crate) struct Queue<'s> {
    pub lines: Vec<&'s Line>,
    pub done: usize,
}

impl<'s> Queue<'s> {
    /// Whether lines are left.
    fn is_left(&self) -> bool
        ensures { result ≡ has_more self.now }
    {
        self.done < self.lines.len()
    }

    /// The next line.
    fn next(&mut self) -> Option<&'s Line>
        ensures line { option_copied result ≡ slice_get (queued self.old) self.old.done }
        ensures lines { self.new.lines ≡ self.old.lines }
        ensures done { IfSome result (λ line. self.new.done ≡ self.old.done + 1) }
    {
        let line = self.lines.get(self.done).copied()?;
        self.done += 1;
        Some(line)
    }
}

/// The lines of one sequence, the joins left out.
pub fn lines_of(alloc: Global, all: &[Line], seq: u32) -> Result<Vec<&Line>, AllocError>
    ensures { IfOk result (λ lines. map (λ line. line.now) lines.items ≡ filter (is_own (record { 0 = seq })) all.now) }
{
    let mut lines = Vec::new(alloc);
    for line in all {
        if is_own(line, seq) {
            lines.push(line)?;
        }
    }
    Ok(lines)
}

/// The lines of each sequence.
fn all_queues(alloc: Global, script: &Script) -> Result<Vec<Queue<'_>>, AllocError>
    ensures { IfOk result (λ queues. AreQueues script.now [] queues.items) }
{
    let mut queues = Vec::new(alloc);
    for seq in 0..script.seqs {
        let lines = lines_of(alloc, script.lines.as_slice(), seq)?;
        queues.push(Queue { lines, done: 0 })?;
    }
    Ok(queues)
}

/// How many queues have lines left.
fn count_left(queues: &[Queue<'_>]) -> usize
    ensures { result ≡ count_by has_more queues.now }
{
    queues.iter().filter(|queue| queue.is_left()).count()
}

/// Of the queues that have lines left the one of this number.
fn find_left(queues: &[Queue<'_>], number: u64) -> Option<usize>
    ensures found { option_map numbered result ≡ slice_get (left_from 0 queues.now) number }
    ensures within { IfSome result (λ seq. seq < length queues.now) }
{
    let mut left = number;
    for (seq, queue) in queues.iter().enumerate() {
        if queue.is_left() {
            if left == 0 {
                return Some(seq);
            }
            left -= 1;
        }
    }
    None
}

/// The queue whose turn it is by a number that was drawn: of those that have lines left the one of this
/// number, counted round.
fn find_next(queues: &[Queue<'_>], draw: u64) -> Option<usize>
    ensures found { option_map numbered result ≡ counted_round (left_from 0 queues.now) draw }
    ensures within { IfSome result (λ seq. seq < length queues.now) }
{
    let count = count_left(queues) as u64;
    if count == 0 {
        return None;
    }
    find_left(queues, (draw >> 32) % count)
}

/// The next line of the sequence whose turn it is by a number that was drawn.
fn next_line<'s>(queues: &mut [Queue<'s>], draw: u64) -> Option<&'s Line>
    ensures takes { Takes queues.old draw (option_copied result) queues.new }
    ensures less { IfSome result (λ line. waiting queues.new < waiting queues.old) }
{
    let seq = find_next(queues, draw)?;
    queues[seq].next()
}

/// The lines of a script but the joins in the order of the numbers that are drawn: the first behind the one
/// that is given.
pub fn in_order(alloc: Global, script: &Script, order: u64) -> Result<Vec<&Line>, NoMemory>
    ensures { IfOk result (λ lines. AreInOrder script.now order (map (λ line. line.now) lines.items)) }
{
    let Ok(mut queues) = all_queues(alloc, script) else {
        return Err(NoMemory);
    };
    let mut lines = Vec::new(alloc);
    let mut draw = next_draw(order);
    while let Some(line) = next_line(&mut queues, draw) {
        if lines.push(line).is_err() {
            return Err(NoMemory);
        }
        draw = next_draw(draw);
    }
    Ok(lines)
}
