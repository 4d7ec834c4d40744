//! What is answered of two schemas.

use crate::definitions::{Given, definition_of};
use crate::found::{Pair, Reason, Word};
use crate::reasons::all_found;
use mj_schema::Schema;
use std::alloc::{AllocError, Global};

/// What is answered: the word of the first reason, where there is one, and the text.
#[derive(Drop)]
pub struct Answer {
    pub word: Option<Word>,
    pub text: String,
}

/// A reason as a text: with the full name of the older definition, but for a field that comes too early, and with 0 where it is of no member.
fn reason_text(
    alloc: Global,
    given: Given<'_>,
    pair: Pair,
    reason: &Reason,
) -> Result<String, AllocError> {
    let word = reason.word.text();
    let definition = match (reason.word, pair.new) {
        (Word::EarlyField, Some(number)) => definition_of(given.new, pair.sort, number),
        _ => definition_of(given.old, pair.sort, pair.old),
    };
    let Some(definition) = definition else {
        return String::from_str(alloc, word);
    };
    let full = definition.name.full(alloc)?;
    let name = full.as_str();
    let number = reason.number.unwrap_or(0);
    format!(in alloc; "{word} {name} {number}")
}

/// What is answered of an older schema and a newer one.
pub fn answer_of<'a>(
    alloc: Global,
    old: &'a Schema,
    new: &'a Schema,
) -> Result<Answer, AllocError> {
    let given = Given { old, new };
    let (stable, found) = all_found(alloc, given)?;
    let Some(reason) = found.first() else {
        return Ok(Answer {
            word: None,
            text: format!(in alloc; "compatible {stable}")?,
        });
    };
    let text = match found.pairs.get(reason.place) {
        Some(pair) => reason_text(alloc, given, *pair, reason)?,
        None => String::new(alloc),
    };
    Ok(Answer {
        word: Some(reason.word),
        text,
    })
}
