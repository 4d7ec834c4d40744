//! What constants and enumerators mean.

ghost use Rattle.std.specs.Prelude.{◌≡◌, ◌<◌, ◌^◌, IfOk, length, get_or, slice_get, is_none, ℕ, false, List};
ghost use Rattle.const_meanings.specs.declared.origin.Origin.{Origin};
ghost use Rattle.const_meanings.specs.Needs.{needed};
ghost use Rattle.const_meanings.specs.steps.Reached.{is_reached, is_written, AreFar};
ghost use Rattle.const_meanings.specs.Meanings.{IsMeaning, AreMeanings};

use crate::origin::Origin;
use crate::reach::{Reach, far};
use std::alloc::{AllocError, Global};

/// What a constant or an enumerator means.
#[derive(Clone, Copy)]
pub enum Meaning {
    /// The literal that is written at this thing, and so much more.
    Value { last: usize, more: u64 },
    /// It needs itself.
    Circular,
    /// It has no value, and doesn't need itself.
    Nothing,
}

/// Which of so many things are reached.
fn reached(alloc: Global, things: usize, reaches: &[Reach]) -> Result<Vec<bool>, AllocError>
    ensures count { IfOk result (λ marks. length marks.items ≡ things) }
    ensures marks { IfOk result (λ marks. (thing : ℕ) → thing < things → get_or marks.items thing false ≡ is_reached reaches.now thing) }
{
    let mut marks = vec![in alloc; false; things]?;
    for reach in reaches {
        if reach.thing < marks.len() {
            marks[reach.thing] = true;
        }
    }
    Ok(marks)
}

/// Whether a literal is written at this thing.
fn is_written(things: &[Origin], thing: usize) -> bool
    ensures { result ≡ is_written (slice_get things.now thing) }
{
    matches!(things.get(thing), Some(Origin::Written(_)))
}

/// Whether this thing needs no other.
fn needs_nothing(things: &[Origin], thing: usize) -> bool
    ensures { result ≡ is_none (needed things.now thing) }
{
    !matches!(things.get(thing), Some(Origin::Of(_) | Origin::Next))
}

/// What a thing means.
fn meaning_of(things: &[Origin], reaches: &[Reach], marks: &[bool], number: usize) -> Meaning
    requires there { number < length things.now }
    requires few { length things.now < 2 ^ 32 }
    requires far { AreFar things.now (2 ^ 32) reaches.now }
    requires count { length marks.now ≡ length things.now }
    requires marks { (thing : ℕ) → thing < length things.now → get_or marks.now thing false ≡ is_reached reaches.now thing }
    ensures { IsMeaning things.now number result }
{
    let reach = reaches[number];
    if is_written(things, reach.thing) {
        Meaning::Value {
            last: reach.thing,
            more: reach.added,
        }
    } else if marks[number] && !needs_nothing(things, reach.thing) {
        Meaning::Circular
    } else {
        Meaning::Nothing
    }
}

/// What each thing means.
pub fn meanings(alloc: Global, things: &[Origin]) -> Result<Vec<Meaning>, AllocError>
    requires { length things.now < 2 ^ 32 }
    ensures { IfOk result (λ meanings. AreMeanings things.now meanings.items) }
{
    let reaches = far(alloc, things)?;
    let marks = reached(alloc, things.len(), reaches.as_slice())?;
    let mut meanings = Vec::new(alloc);
    for number in 0..things.len() {
        meanings.push(meaning_of(things, reaches.as_slice(), marks.as_slice(), number))?;
    }
    Ok(meanings)
}

/// A thing means one thing: this is a law and does nothing.
pub fn one_meaning()
    ensures { (things : List Origin) (thing : ℕ) (one two : Meaning) → IsMeaning things thing one → IsMeaning things thing two → one ≡ two }
{}
