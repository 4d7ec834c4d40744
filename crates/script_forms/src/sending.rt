//! What writes a message, or is of a data pipe.

ghost use Rattle.std.specs.Prelude.{IfOk, map, codes};
ghost use Rattle.script_forms.specs.Forms.{answer_start, call_start};
ghost use Rattle.script_forms.specs.steps.Sayings.{SpellsFrom, SpellsSaid, SpellsWriting};

use crate::form::Said;
use crate::moving::behind_moving;
use crate::notices::{flush_of, query_of, require_of};
use crate::numbers::{endpoint, hex_bytes, moment};
use crate::parts::is_named_list;
use script_words::{are_names, first_word, is_method_word};
use std::alloc::{AllocError, Global};

/// What stands behind `call`, or behind the moment of `call-at`.
#[tactic(auto, using(crate::proofs::Sendings::call_only))]
fn call_of<'w, 'a>(
    alloc: Global,
    moment: Option<i64>,
    words: &'w [&'a [u8]],
) -> Result<Option<Said<'w, 'a>>, AllocError>
    ensures { IfOk result (λ found. SpellsFrom (call_start moment) (map (λ word. word.now) words.now) found) }
{
    let Some((end, rest)) = first_word(words) else {
        return Ok(None);
    };
    let Some((method, rest)) = first_word(rest) else {
        return Ok(None);
    };
    let Some((value, tokens)) = first_word(rest) else {
        return Ok(None);
    };
    let Some(at) = endpoint(alloc, end)? else {
        return Ok(None);
    };
    if !is_method_word(alloc, method)? {
        return Ok(None);
    }
    if !value.is_empty() && are_names(tokens) {
        Ok(Some(Said::Call(at.name, at.id, method, value, tokens, moment)))
    } else {
        Ok(None)
    }
}

/// What stands behind `call-at`: a moment, and then as behind `call`.
fn call_at_of<'w, 'a>(
    alloc: Global,
    words: &'w [&'a [u8]],
) -> Result<Option<Said<'w, 'a>>, AllocError>
    ensures { IfOk result (λ found. SpellsSaid (codes "call-at") (map (λ word. word.now) words.now) found) }
{
    let Some((word, rest)) = first_word(words) else {
        return Ok(None);
    };
    match moment(alloc, word)? {
        Some(at) => call_of(alloc, Some(at), rest),
        None => Ok(None),
    }
}

/// What stands behind `answer`, or behind the moment of `answer-at`.
#[tactic(auto, using(crate::proofs::Sendings::answer_only))]
fn answer_of<'w, 'a>(
    alloc: Global,
    moment: Option<i64>,
    words: &'w [&'a [u8]],
) -> Result<Option<Said<'w, 'a>>, AllocError>
    ensures { IfOk result (λ found. SpellsFrom (answer_start moment) (map (λ word. word.now) words.now) found) }
{
    let Some((responder, rest)) = first_word(words) else {
        return Ok(None);
    };
    let Some((method, rest)) = first_word(rest) else {
        return Ok(None);
    };
    let Some((value, tokens)) = first_word(rest) else {
        return Ok(None);
    };
    if !is_method_word(alloc, method)? {
        return Ok(None);
    }
    if !value.is_empty() && is_named_list(responder, tokens) {
        Ok(Some(Said::Answer(responder, method, value, tokens, moment)))
    } else {
        Ok(None)
    }
}

/// What stands behind `answer-at`: a moment, and then as behind `answer`.
fn answer_at_of<'w, 'a>(
    alloc: Global,
    words: &'w [&'a [u8]],
) -> Result<Option<Said<'w, 'a>>, AllocError>
    ensures { IfOk result (λ found. SpellsSaid (codes "answer-at") (map (λ word. word.now) words.now) found) }
{
    let Some((word, rest)) = first_word(words) else {
        return Ok(None);
    };
    match moment(alloc, word)? {
        Some(at) => answer_of(alloc, Some(at), rest),
        None => Ok(None),
    }
}

/// What stands behind `raw`.
fn raw_of<'w, 'a>(alloc: Global, words: &'w [&'a [u8]]) -> Result<Option<Said<'w, 'a>>, AllocError>
    ensures { IfOk result (λ found. SpellsSaid (codes "raw") (map (λ word. word.now) words.now) found) }
{
    let Some((end, rest)) = first_word(words) else {
        return Ok(None);
    };
    let Some((word, tokens)) = first_word(rest) else {
        return Ok(None);
    };
    let Some(_bytes) = hex_bytes(alloc, word)? else {
        return Ok(None);
    };
    if is_named_list(end, tokens) {
        Ok(Some(Said::Raw(end, word, tokens)))
    } else {
        Ok(None)
    }
}

/// What is said by a command and the words behind it, where it writes a message or is of a data pipe.
pub(crate) fn behind_writing<'w, 'a>(
    alloc: Global,
    command: &[u8],
    words: &'w [&'a [u8]],
) -> Result<Option<Said<'w, 'a>>, AllocError>
    ensures { IfOk result (λ found. SpellsWriting command.now (map (λ word. word.now) words.now) found) }
{
    if command == b"call".as_slice() {
        return call_of(alloc, None, words);
    }
    if command == b"call-at".as_slice() {
        return call_at_of(alloc, words);
    }
    if command == b"answer".as_slice() {
        return answer_of(alloc, None, words);
    }
    if command == b"answer-at".as_slice() {
        return answer_at_of(alloc, words);
    }
    if command == b"raw".as_slice() {
        return raw_of(alloc, words);
    }
    if command == b"query".as_slice() {
        return query_of(alloc, words);
    }
    if command == b"require".as_slice() {
        return require_of(alloc, words);
    }
    if command == b"flush".as_slice() {
        return Ok(flush_of(words));
    }
    behind_moving(alloc, command, words)
}
