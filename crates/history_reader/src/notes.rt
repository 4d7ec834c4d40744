//! Lines of callbacks.

ghost use Rattle.byte_rules.specs.Reading.{Gives};
ghost use Rattle.history_reader.specs.Notes.{fate, note_line};
ghost use Rattle.history_reader.specs.Whole.{tail, behind};
ghost use Rattle.history_reader.specs.steps.Reading.{with_notes};

use crate::lines::{begins_tail, tail};
use byte_rules::{Stop, expect};
use handle_table::Thing;
use history_text::{Fate, Note};
use line_parts::ids::{endpoint, sequence};
use line_parts::keywords::{keyword, word};
use line_parts::numbers::wide;
use mj_base::Items;
use std::alloc::Global;

/// What became of a callback, and the bytes after it.
#[tactic(auto, unfolding(crate::specs::Notes::fate))]
fn fate(bytes: &[u8]) -> Result<(Fate, &[u8]), Stop>
    ensures { Gives (λ x. (x.0, x.1.now)) result (fate.read bytes.now) }
{
    let fates = [(Fate::Ran, "ran"), (Fate::Dropped, "dropped")];
    keyword(&fates, bytes)
}

/// The line of a callback, and the bytes after it.
#[tactic(auto, unfolding(crate::specs::Notes::note_line))]
fn note_line(bytes: &[u8]) -> Result<(Note, &[u8]), Stop>
    ensures { Gives (λ x. (x.0, x.1.now)) result (note_line.read bytes.now) }
{
    let rest = word("callback", bytes)?;
    let rest = expect(rest, b' ')?;
    let (seq, rest) = sequence(rest)?;
    let rest = expect(rest, b' ')?;
    let ((end, id), rest) = endpoint(rest)?;
    let rest = expect(rest, b' ')?;
    let (request, rest) = wide(rest)?;
    let rest = expect(rest, b' ')?;
    let (fate, rest) = fate(rest)?;
    let rest = expect(rest, b'\n')?;
    let note = Note {
        seq,
        end,
        id,
        request,
        fate,
    };
    Ok((note, rest))
}

/// The lines behind those of callbacks, with the callbacks.
fn with_tail(
    alloc: Global,
    notes: Vec<Note>,
    bytes: &[u8],
) -> Result<(Items<Note>, Items<Thing>, u64, &[u8]), Stop>
    ensures { Gives (λ x. ((x.0, (x.1, x.2)), x.3.now)) result (with_notes notes.items (tail.read bytes.now)) }
{
    let (left, count, rest) = tail(alloc, bytes)?;
    Ok((Items::from_vec(notes), left, count, rest))
}

/// The lines behind those of events, and the bytes after them.
pub(crate) fn behind(
    alloc: Global,
    bytes: &[u8],
) -> Result<(Items<Note>, Items<Thing>, u64, &[u8]), Stop>
    ensures { Gives (λ x. ((x.0, (x.1, x.2)), x.3.now)) result (behind.read bytes.now) }
{
    let mut notes = Vec::new(alloc);
    let mut rest = bytes;
    for _ in 0..bytes.len() {
        if begins_tail(rest) {
            return with_tail(alloc, notes, rest);
        }
        let (note, after) = note_line(rest)?;
        notes.push(note)?;
        rest = after;
    }
    with_tail(alloc, notes, rest)
}
