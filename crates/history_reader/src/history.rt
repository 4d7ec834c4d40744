//! A history from its text.

ghost use Rattle.std.specs.Prelude.{◌≡◌, length};
ghost use Rattle.byte_rules.specs.Lang.{front_is};
ghost use Rattle.byte_rules.specs.Reading.{Gives};
ghost use Rattle.byte_rules.specs.steps.Reading.{verdict};
ghost use Rattle.history_reader.specs.Whole.{begins_behind, behind, history_with, history};
ghost use Rattle.history_reader.specs.Texts.{Tells};
ghost use Rattle.history_reader.specs.steps.Reading.{with_events, Agrees};

use crate::lines::event_line;
use crate::notes::behind;
use crate::printed::Printed;
use bind_model::Event;
use byte_rules::Stop;
use line_parts::names::{Names, names_of};
use mj_base::Items;
use mj_schema::Schema;
use std::alloc::Global;
use value_text::TextError;

/// Whether the next line is behind those of events.
fn begins_behind(bytes: &[u8]) -> bool
    ensures { result ≡ front_is begins_behind bytes.now }
{
    match bytes {
        [first, ..] => *first == b'c' || *first == b'l' || *first == b'd',
        [] => false,
    }
}

/// The lines behind those of events, with the events.
fn with_behind(alloc: Global, events: Vec<Event>, bytes: &[u8]) -> Result<(Printed, &[u8]), Stop>
    ensures { Gives (λ x. (x.0, x.1.now)) result (with_events events.items (behind.read bytes.now)) }
{
    let (notes, left, count, rest) = behind(alloc, bytes)?;
    let events = Items::from_vec(events);
    let printed = Printed {
        events,
        notes,
        left,
        count,
    };
    Ok((printed, rest))
}

/// What a text says, and the bytes after it.
#[tactic(auto, unfolding(crate::specs::Whole::history_with))]
fn history_with<'a>(
    alloc: Global,
    schema: &Schema,
    names: &Names,
    bytes: &'a [u8],
) -> Result<(Printed, &'a [u8]), Stop>
    ensures { Gives (λ x. (x.0, x.1.now)) result ((history_with schema.now names.now).read bytes.now) }
{
    let mut events = Vec::new(alloc);
    let mut rest = bytes;
    for number in 0..bytes.len() {
        if begins_behind(rest) {
            return with_behind(alloc, events, rest);
        }
        let (event, after) = event_line(alloc, schema, names, number as u64, rest)?;
        events.push(event)?;
        rest = after;
    }
    with_behind(alloc, events, rest)
}

/// What a text over the schema says, and the bytes after it.
fn history<'a>(alloc: Global, schema: &Schema, bytes: &'a [u8]) -> Result<(Printed, &'a [u8]), Stop>
    ensures { Gives (λ x. (x.0, x.1.now)) result ((history schema.now).read bytes.now) }
{
    let names = names_of(alloc, schema)?;
    history_with(alloc, schema, &names, bytes)
}

/// What the reading of a text says of all the bytes.
#[tactic(auto, using(crate::proofs::WholeTells::rest_within, crate::proofs::WholeTells::left_within))]
fn judge(alloc: Global, schema: &Schema, bytes: &[u8]) -> Result<Printed, TextError>
    ensures { Agrees result (verdict (length bytes.now) ((history schema.now).read bytes.now)) }
{
    match history(alloc, schema, bytes) {
        Ok((printed, rest)) => {
            if rest.is_empty() {
                return Ok(printed);
            }
            let at = (bytes.len() - rest.len()) as u64;
            Err(TextError::BadText { at })
        }
        Err(Stop::Left(left)) => {
            let at = (bytes.len() - left) as u64;
            Err(TextError::BadText { at })
        }
        Err(Stop::Memory) => Err(TextError::Memory),
    }
}

/// What the bytes say as the text of a history over the schema, and they say nothing else. `BadText`
/// is at the first byte with which no text of a history goes on, at the end the length. Takes time in
/// proportion to the bytes, times the interfaces and methods that words are compared with.
#[tactic(auto, using(crate::proofs::WholeTells::tells_by))]
pub fn read_history(alloc: Global, schema: &Schema, bytes: &[u8]) -> Result<Printed, TextError>
    ensures { Tells (history schema.now) bytes.now result }
{
    judge(alloc, schema, bytes)
}
