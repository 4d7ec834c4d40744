//! Replies about data pipes, up to the line's end.

ghost use Rattle.byte_rules.specs.Reading.{Gives};
ghost use Rattle.history_reader.specs.Flowed.{put_count, got_bytes, space, view, ended, flowed_after};

use crate::reasons::ends;
use bind_model::{Flowed, Told};
use byte_rules::{Stop, expect};
use line_parts::hexadecimal::hexadecimal;
use line_parts::ids::token;
use std::alloc::Global;
use value_text::index;

/// The word of what a data pipe did.
#[derive(Clone, Copy)]
pub(crate) enum FlowedWord {
    Put,
    Bytes,
    Space,
    View,
    Ended,
}

/// A producer, and how many bytes were put in.
#[tactic(auto, unfolding(crate::specs::Flowed::put_count))]
fn put_count(bytes: &[u8]) -> Result<(Told, &[u8]), Stop>
    ensures { Gives (λ x. (x.0, x.1.now)) result (put_count.read bytes.now) }
{
    let rest = expect(bytes, b' ')?;
    let (token, rest) = token(rest)?;
    let rest = expect(rest, b' ')?;
    let (count, rest) = index(rest)?;
    ends(Told::Flowed(token, Flowed::Put(count)), rest)
}

/// A consumer, and the bytes that came out.
#[tactic(auto, unfolding(crate::specs::Flowed::got_bytes))]
fn got_bytes(alloc: Global, bytes: &[u8]) -> Result<(Told, &[u8]), Stop>
    ensures { Gives (λ x. (x.0, x.1.now)) result (got_bytes.read bytes.now) }
{
    let rest = expect(bytes, b' ')?;
    let (token, rest) = token(rest)?;
    let rest = expect(rest, b' ')?;
    let (moved, rest) = hexadecimal(alloc, b'\n', rest)?;
    Ok((Told::Flowed(token, Flowed::Bytes(moved)), rest))
}

/// A producer, and for how many bytes there is room.
#[tactic(auto, unfolding(crate::specs::Flowed::space))]
fn space(bytes: &[u8]) -> Result<(Told, &[u8]), Stop>
    ensures { Gives (λ x. (x.0, x.1.now)) result (space.read bytes.now) }
{
    let rest = expect(bytes, b' ')?;
    let (token, rest) = token(rest)?;
    let rest = expect(rest, b' ')?;
    let (count, rest) = index(rest)?;
    ends(Told::Flowed(token, Flowed::Space(count)), rest)
}

/// A consumer, and the bytes that are held.
#[tactic(auto, unfolding(crate::specs::Flowed::view))]
fn view(alloc: Global, bytes: &[u8]) -> Result<(Told, &[u8]), Stop>
    ensures { Gives (λ x. (x.0, x.1.now)) result (view.read bytes.now) }
{
    let rest = expect(bytes, b' ')?;
    let (token, rest) = token(rest)?;
    let rest = expect(rest, b' ')?;
    let (held, rest) = hexadecimal(alloc, b'\n', rest)?;
    Ok((Told::Flowed(token, Flowed::View(held)), rest))
}

/// A consumer at which bytes are read no more where they lie.
#[tactic(auto, unfolding(crate::specs::Flowed::ended))]
fn ended(bytes: &[u8]) -> Result<(Told, &[u8]), Stop>
    ensures { Gives (λ x. (x.0, x.1.now)) result (ended.read bytes.now) }
{
    let rest = expect(bytes, b' ')?;
    let (token, rest) = token(rest)?;
    ends(Told::Flowed(token, Flowed::Ended), rest)
}

/// What stands behind the word of what a data pipe did.
pub(crate) fn flowed_after(
    alloc: Global,
    word: FlowedWord,
    bytes: &[u8],
) -> Result<(Told, &[u8]), Stop>
    ensures { Gives (λ x. (x.0, x.1.now)) result ((flowed_after word).read bytes.now) }
{
    match word {
        FlowedWord::Put => put_count(bytes),
        FlowedWord::Bytes => got_bytes(alloc, bytes),
        FlowedWord::Space => space(bytes),
        FlowedWord::View => view(alloc, bytes),
        FlowedWord::Ended => ended(bytes),
    }
}
