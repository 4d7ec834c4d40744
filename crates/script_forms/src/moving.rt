//! Data pipes, and bytes that are moved at their tokens.

ghost use Rattle.std.specs.Prelude.{◌≡◌, [], true, false, IfOk, MatchOption, map, codes};
ghost use Rattle.script_forms.specs.Forms.{BeginGet, BeginPut};
ghost use Rattle.script_forms.specs.Views.{moved_view};
ghost use Rattle.script_forms.specs.steps.Moves.{IsBytesWord, IsEndGet, IsEndPut, IsGet, IsOneNumber, IsPut, NoBytesWord, NoNumber};
ghost use Rattle.script_forms.specs.steps.Moves.{SpellsFlow, SpellsMove, SpellsMoving};
ghost use Rattle.script_forms.specs.steps.Sayings.{SpellsSaid};

use crate::form::{Moved, Said};
use crate::numbers::{hex_bytes, number};
use crate::parts::are_two_names;
use script_words::{first_word, is_name, one_word, three_words};
use std::alloc::{AllocError, Global};

/// What stands behind `data`.
fn data_of<'w, 'a>(alloc: Global, words: &'w [&'a [u8]]) -> Result<Option<Said<'w, 'a>>, AllocError>
    ensures { IfOk result (λ found. SpellsSaid (codes "data") (map (λ word. word.now) words.now) found) }
{
    let Some((digits, producer, consumer)) = three_words(words) else {
        return Ok(None);
    };
    if !are_two_names(producer, consumer) {
        return Ok(None);
    }
    match number(alloc, digits)? {
        Some(size) => Ok(Some(Said::Data(size, producer, consumer))),
        None => Ok(None),
    }
}

/// The one word that stands there, where it spells bytes.
fn bytes_word<'a>(alloc: Global, words: &[&'a [u8]]) -> Result<Option<&'a [u8]>, AllocError>
    ensures { IfOk result (λ found. MatchOption found (NoBytesWord (map (λ word. word.now) words.now))
        (λ word. IsBytesWord (map (λ word. word.now) words.now) word.now)) }
{
    let Some(word) = one_word(words) else {
        return Ok(None);
    };
    match hex_bytes(alloc, word)? {
        Some(_bytes) => Ok(Some(word)),
        None => Ok(None),
    }
}

/// The number that the one word that stands there spells.
fn number_behind(alloc: Global, words: &[&[u8]]) -> Result<Option<u32>, AllocError>
    ensures { IfOk result (λ found. MatchOption found (NoNumber (map (λ word. word.now) words.now))
        (λ n. IsOneNumber (map (λ word. word.now) words.now) n)) }
{
    match one_word(words) {
        Some(word) => number(alloc, word),
        None => Ok(None),
    }
}

/// What stands behind `put` and its token.
fn put_of<'a>(alloc: Global, words: &[&'a [u8]]) -> Result<Option<Moved<'a>>, AllocError>
    ensures { IfOk result (λ found. MatchOption found (NoBytesWord (map (λ word. word.now) words.now))
        (λ moved. IsPut false (map (λ word. word.now) words.now) (moved_view moved))) }
{
    match bytes_word(alloc, words)? {
        Some(bytes) => Ok(Some(Moved::Put(bytes, false))),
        None => Ok(None),
    }
}

/// What stands behind `put-all` and its token.
fn put_all_of<'a>(alloc: Global, words: &[&'a [u8]]) -> Result<Option<Moved<'a>>, AllocError>
    ensures { IfOk result (λ found. MatchOption found (NoBytesWord (map (λ word. word.now) words.now))
        (λ moved. IsPut true (map (λ word. word.now) words.now) (moved_view moved))) }
{
    match bytes_word(alloc, words)? {
        Some(bytes) => Ok(Some(Moved::Put(bytes, true))),
        None => Ok(None),
    }
}

/// What stands behind `get` and its token.
fn get_of<'a>(alloc: Global, words: &[&'a [u8]]) -> Result<Option<Moved<'a>>, AllocError>
    ensures { IfOk result (λ found. MatchOption found (NoNumber (map (λ word. word.now) words.now))
        (λ moved. IsGet false (map (λ word. word.now) words.now) (moved_view moved))) }
{
    match number_behind(alloc, words)? {
        Some(count) => Ok(Some(Moved::Get(count, false))),
        None => Ok(None),
    }
}

/// What stands behind `get-all` and its token.
fn get_all_of<'a>(alloc: Global, words: &[&'a [u8]]) -> Result<Option<Moved<'a>>, AllocError>
    ensures { IfOk result (λ found. MatchOption found (NoNumber (map (λ word. word.now) words.now))
        (λ moved. IsGet true (map (λ word. word.now) words.now) (moved_view moved))) }
{
    match number_behind(alloc, words)? {
        Some(count) => Ok(Some(Moved::Get(count, true))),
        None => Ok(None),
    }
}

/// What stands behind `begin-put` and its token.
fn begin_put_of<'a>(words: &[&'a [u8]]) -> Option<Moved<'a>>
    ensures { MatchOption result ((map (λ word. word.now) words.now) ≡ [] → ⊥)
        (λ moved. ((map (λ word. word.now) words.now) ≡ []) × (moved_view moved ≡ BeginPut)) }
{
    match first_word(words) {
        Some(_words) => None,
        None => Some(Moved::BeginPut),
    }
}

/// What stands behind `end-put` and its token.
fn end_put_of<'a>(alloc: Global, words: &[&'a [u8]]) -> Result<Option<Moved<'a>>, AllocError>
    ensures { IfOk result (λ found. MatchOption found (NoBytesWord (map (λ word. word.now) words.now))
        (λ moved. IsEndPut (map (λ word. word.now) words.now) (moved_view moved))) }
{
    match bytes_word(alloc, words)? {
        Some(bytes) => Ok(Some(Moved::EndPut(bytes))),
        None => Ok(None),
    }
}

/// What stands behind `begin-get` and its token.
fn begin_get_of<'a>(words: &[&'a [u8]]) -> Option<Moved<'a>>
    ensures { MatchOption result ((map (λ word. word.now) words.now) ≡ [] → ⊥)
        (λ moved. ((map (λ word. word.now) words.now) ≡ []) × (moved_view moved ≡ BeginGet)) }
{
    match first_word(words) {
        Some(_words) => None,
        None => Some(Moved::BeginGet),
    }
}

/// What stands behind `end-get` and its token.
fn end_get_of<'a>(alloc: Global, words: &[&'a [u8]]) -> Result<Option<Moved<'a>>, AllocError>
    ensures { IfOk result (λ found. MatchOption found (NoNumber (map (λ word. word.now) words.now))
        (λ moved. IsEndGet (map (λ word. word.now) words.now) (moved_view moved))) }
{
    match number_behind(alloc, words)? {
        Some(count) => Ok(Some(Moved::EndGet(count))),
        None => Ok(None),
    }
}

/// What is moved, by the command's word and the words behind its token.
fn moved_of<'a>(
    alloc: Global,
    command: &[u8],
    words: &[&'a [u8]],
) -> Result<Option<Moved<'a>>, AllocError>
    ensures { IfOk result (λ found. SpellsMove command.now (map (λ word. word.now) words.now) found) }
{
    if command == b"put".as_slice() {
        return put_of(alloc, words);
    }
    if command == b"put-all".as_slice() {
        return put_all_of(alloc, words);
    }
    if command == b"get".as_slice() {
        return get_of(alloc, words);
    }
    if command == b"get-all".as_slice() {
        return get_all_of(alloc, words);
    }
    if command == b"begin-put".as_slice() {
        return Ok(begin_put_of(words));
    }
    if command == b"end-put".as_slice() {
        return end_put_of(alloc, words);
    }
    if command == b"begin-get".as_slice() {
        return Ok(begin_get_of(words));
    }
    if command == b"end-get".as_slice() {
        return end_get_of(alloc, words);
    }
    Ok(None)
}

/// What is moved at a token, by a command and the words behind it.
fn flow_of<'w, 'a>(
    alloc: Global,
    command: &[u8],
    words: &'w [&'a [u8]],
) -> Result<Option<Said<'w, 'a>>, AllocError>
    ensures { IfOk result (λ found. SpellsFlow command.now (map (λ word. word.now) words.now) found) }
{
    let Some((token, rest)) = first_word(words) else {
        return Ok(None);
    };
    if !is_name(token) {
        return Ok(None);
    }
    match moved_of(alloc, command, rest)? {
        Some(moved) => Ok(Some(Said::Flow(token, moved))),
        None => Ok(None),
    }
}

/// What is said by a command and the words behind it, where it is of a data pipe.
pub(crate) fn behind_moving<'w, 'a>(
    alloc: Global,
    command: &[u8],
    words: &'w [&'a [u8]],
) -> Result<Option<Said<'w, 'a>>, AllocError>
    ensures { IfOk result (λ found. SpellsMoving command.now (map (λ word. word.now) words.now) found) }
{
    if command == b"data".as_slice() {
        return data_of(alloc, words);
    }
    flow_of(alloc, command, words)
}
