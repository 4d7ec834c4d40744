//! Which form words have.

ghost use Rattle.std.specs.Prelude.{◌∷◌, IfOk, map, codes};
ghost use Rattle.script_forms.specs.Spelled.{SpellsForm};
ghost use Rattle.script_forms.specs.steps.Sayings.{SpellsOf};

use crate::form::Form;
use crate::parts::are_two_names;
use crate::saying::behind_command;
use crate::sequences::{sequence_number, sequence_of};
use script_words::{first_word, four_words, is_method_word, three_words};
use std::alloc::{AllocError, Global};

/// The join of these words.
fn join_of<'w, 'a>(
    alloc: Global,
    seqs: u32,
    words: &'w [&'a [u8]],
) -> Result<Option<Form<'w, 'a>>, AllocError>
    ensures { IfOk result (λ found. SpellsForm seqs (codes "join" ∷ map (λ word. word.now) words.now) found) }
{
    let Some((seq, other, first, second)) = four_words(words) else {
        return Ok(None);
    };
    let Some(seq) = sequence_number(alloc, seqs, seq)? else {
        return Ok(None);
    };
    let Some(other) = sequence_number(alloc, seqs, other)? else {
        return Ok(None);
    };
    if are_two_names(first, second) {
        Ok(Some(Form::Join(seq, other, first, second)))
    } else {
        Ok(None)
    }
}

/// The automatic reply of these words.
fn auto_of<'w, 'a>(
    alloc: Global,
    seqs: u32,
    words: &'w [&'a [u8]],
) -> Result<Option<Form<'w, 'a>>, AllocError>
    ensures { IfOk result (λ found. SpellsForm seqs (codes "auto" ∷ map (λ word. word.now) words.now) found) }
{
    let Some((seq, method, value)) = three_words(words) else {
        return Ok(None);
    };
    let Some(seq) = sequence_number(alloc, seqs, seq)? else {
        return Ok(None);
    };
    if is_method_word(alloc, method)? && !value.is_empty() {
        Ok(Some(Form::Auto(seq, method, value)))
    } else {
        Ok(None)
    }
}

/// The line of a sequence of these words.
fn of_sequence<'w, 'a>(
    alloc: Global,
    seqs: u32,
    start: &[u8],
    words: &'w [&'a [u8]],
) -> Result<Option<Form<'w, 'a>>, AllocError>
    ensures { IfOk result (λ found. SpellsOf seqs start.now (map (λ word. word.now) words.now) found) }
{
    let Some(seq) = sequence_of(alloc, seqs, start)? else {
        return Ok(None);
    };
    let Some((command, rest)) = first_word(words) else {
        return Ok(None);
    };
    match behind_command(alloc, seqs, command, rest)? {
        Some(said) => Ok(Some(Form::Of(seq, said))),
        None => Ok(None),
    }
}

/// The form of these words where there are so many sequences; none where they have none.
pub fn read_form<'w, 'a>(
    alloc: Global,
    seqs: u32,
    words: &'w [&'a [u8]],
) -> Result<Option<Form<'w, 'a>>, AllocError>
    ensures { IfOk result (λ found. SpellsForm seqs (map (λ word. word.now) words.now) found) }
{
    let Some((start, rest)) = first_word(words) else {
        return Ok(None);
    };
    if start == b"join".as_slice() {
        return join_of(alloc, seqs, rest);
    }
    if start == b"auto".as_slice() {
        return auto_of(alloc, seqs, rest);
    }
    of_sequence(alloc, seqs, start, rest)
}
