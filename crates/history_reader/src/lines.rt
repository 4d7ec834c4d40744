//! Lines: of an event, of a thing that is left, and the last.

ghost use Rattle.std.specs.Prelude.{◌≡◌, ◌∷◌, []};
ghost use Rattle.byte_rules.specs.Lang.{front_is, many};
ghost use Rattle.byte_rules.specs.Reading.{Gives};
ghost use Rattle.byte_rules.specs.steps.Reading.{with_front};
ghost use Rattle.line_parts.specs.Signs.{letter_d};
ghost use Rattle.history_reader.specs.Whole.{event_number, event_line, left_line, done_after, begins_tail, tail};

use crate::commands::asked;
use crate::replies::told;
use bind_model::Event;
use byte_rules::{Stop, expect, is_next};
use handle_table::Thing;
use line_parts::ids::{sequence, thing};
use line_parts::keywords::word;
use line_parts::names::Names;
use line_parts::numbers::wide;
use mj_base::Items;
use mj_schema::Schema;
use std::alloc::Global;

/// The bytes after the number of an event.
#[tactic(auto, using(crate::proofs::WholeReads::number_word))]
fn event_number(alloc: Global, number: u64, bytes: &[u8]) -> Result<&[u8], Stop>
    ensures { Gives (λ rest. (tt, rest.now)) result ((event_number number).read bytes.now) }
{
    let text = number.to_string(alloc)?;
    word(text.as_str(), bytes)
}

/// The line of the event of this number, and the bytes after it.
#[tactic(auto, unfolding(crate::specs::Whole::event_line))]
pub(crate) fn event_line<'a>(
    alloc: Global,
    schema: &Schema,
    names: &Names,
    number: u64,
    bytes: &'a [u8],
) -> Result<(Event, &'a [u8]), Stop>
    ensures { Gives (λ x. (x.0, x.1.now)) result ((event_line schema.now names.now number).read bytes.now) }
{
    let rest = event_number(alloc, number, bytes)?;
    let rest = expect(rest, b' ')?;
    let (seq, rest) = sequence(rest)?;
    let rest = expect(rest, b' ')?;
    let (asked, rest) = asked(alloc, schema, names, rest)?;
    let (told, rest) = told(alloc, schema, names, rest)?;
    Ok((Event { seq, asked, told }, rest))
}

/// The line of a thing that is left, and the bytes after it.
#[tactic(auto, unfolding(crate::specs::Whole::left_line))]
fn left_line(bytes: &[u8]) -> Result<(Thing, &[u8]), Stop>
    ensures { Gives (λ x. (x.0, x.1.now)) result (left_line.read bytes.now) }
{
    let rest = word("left", bytes)?;
    let rest = expect(rest, b' ')?;
    let (thing, rest) = thing(rest)?;
    let rest = expect(rest, b'\n')?;
    Ok((thing, rest))
}

/// The lines of the things that are left up to the `d` of the last line, and the bytes after it.
fn left_lines(alloc: Global, bytes: &[u8]) -> Result<(Vec<Thing>, &[u8]), Stop>
    ensures { Gives (λ x. (x.0.items, x.1.now)) result ((many letter_d left_line).read bytes.now) }
{
    let mut left = Vec::new(alloc);
    let mut rest = bytes;
    for _ in 0..bytes.len() {
        if is_next(rest, b'd') {
            let rest = expect(rest, b'd')?;
            return Ok((left, rest));
        }
        let (thing, after) = left_line(rest)?;
        left.push(thing)?;
        rest = after;
    }
    let rest = expect(rest, b'd')?;
    Ok((left, rest))
}

/// All behind the `d` of the last line, and the bytes after it.
fn done_after(left: Items<Thing>, bytes: &[u8]) -> Result<(Items<Thing>, u64, &[u8]), Stop>
    ensures { Gives (λ x. ((x.0, x.1), x.2.now)) result ((done_after left).read bytes.now) }
{
    let rest = word("one", bytes)?;
    let rest = expect(rest, b' ')?;
    let (count, rest) = wide(rest)?;
    let rest = expect(rest, b'\n')?;
    Ok((left, count, rest))
}

/// Whether the next line is behind those of callbacks.
pub(crate) fn begins_tail(bytes: &[u8]) -> bool
    ensures { result ≡ front_is begins_tail bytes.now }
{
    match bytes {
        [first, ..] => *first == b'l' || *first == b'd',
        [] => false,
    }
}

/// The lines behind those of callbacks, and the bytes after them.
#[tactic(auto, unfolding(crate::specs::Whole::tail))]
pub(crate) fn tail(alloc: Global, bytes: &[u8]) -> Result<(Items<Thing>, u64, &[u8]), Stop>
    ensures { Gives (λ x. ((x.0, x.1), x.2.now)) result (tail.read bytes.now) }
{
    let (left, rest) = left_lines(alloc, bytes)?;
    done_after(Items::from_vec(left), rest)
}
