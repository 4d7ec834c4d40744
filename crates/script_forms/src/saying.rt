//! What is said to a sequence.

ghost use Rattle.std.specs.Prelude.{IfOk, map, codes};
ghost use Rattle.script_forms.specs.steps.Sayings.{SpellsBehind, SpellsSaid};

use crate::form::Said;
use crate::notices::pause_of;
use crate::numbers::endpoint;
use crate::parts::{are_two_names, is_named_list, side_of, sort_of};
use crate::sending::behind_writing;
use crate::sequences::sequence_number;
use script_words::{
    first_word, four_words, is_interface_word, is_name, one_word, three_words, two_words,
};
use std::alloc::{AllocError, Global};

/// What stands behind `pipe`.
fn pipe_of<'w, 'a>(words: &'w [&'a [u8]]) -> Option<Said<'w, 'a>>
    ensures { SpellsSaid (codes "pipe") (map (λ word. word.now) words.now) result }
{
    let Some((first, second)) = two_words(words) else {
        return None;
    };
    if are_two_names(first, second) {
        Some(Said::Pipe(first, second))
    } else {
        None
    }
}

/// What stands behind `mint`.
fn mint_of<'w, 'a>(words: &'w [&'a [u8]]) -> Option<Said<'w, 'a>>
    ensures { SpellsSaid (codes "mint") (map (λ word. word.now) words.now) result }
{
    let Some((word, name)) = two_words(words) else {
        return None;
    };
    let Some(sort) = sort_of(word) else {
        return None;
    };
    if is_name(name) {
        Some(Said::Mint(sort, name))
    } else {
        None
    }
}

/// What stands behind `bind`.
fn bind_of<'w, 'a>(alloc: Global, words: &'w [&'a [u8]]) -> Result<Option<Said<'w, 'a>>, AllocError>
    ensures { IfOk result (λ found. SpellsSaid (codes "bind") (map (λ word. word.now) words.now) found) }
{
    let Some((end, word, interface)) = three_words(words) else {
        return Ok(None);
    };
    let Some(side) = side_of(word) else {
        return Ok(None);
    };
    if !is_name(end) {
        return Ok(None);
    }
    if is_interface_word(alloc, interface)? {
        Ok(Some(Said::Bind(end, side, interface)))
    } else {
        Ok(None)
    }
}

/// What stands behind `associate`.
fn associate_of<'w, 'a>(
    alloc: Global,
    words: &'w [&'a [u8]],
) -> Result<Option<Said<'w, 'a>>, AllocError>
    ensures { IfOk result (λ found. SpellsSaid (codes "associate") (map (λ word. word.now) words.now) found) }
{
    let Some((end, word, interface, pending)) = four_words(words) else {
        return Ok(None);
    };
    let Some(side) = side_of(word) else {
        return Ok(None);
    };
    if !are_two_names(end, pending) {
        return Ok(None);
    }
    if is_interface_word(alloc, interface)? {
        Ok(Some(Said::Associate(end, side, interface, pending)))
    } else {
        Ok(None)
    }
}

/// What stands behind `attach`.
fn attach_of<'w, 'a>(
    alloc: Global,
    seqs: u32,
    words: &'w [&'a [u8]],
) -> Result<Option<Said<'w, 'a>>, AllocError>
    ensures { IfOk result (λ found. SpellsBehind seqs (codes "attach") (map (λ word. word.now) words.now) found) }
{
    let Some((pending, word)) = two_words(words) else {
        return Ok(None);
    };
    let Some(seq) = sequence_number(alloc, seqs, word)? else {
        return Ok(None);
    };
    if is_name(pending) {
        Ok(Some(Said::Attach(pending, seq)))
    } else {
        Ok(None)
    }
}

/// What stands behind `take`.
fn take_of<'w, 'a>(words: &'w [&'a [u8]]) -> Option<Said<'w, 'a>>
    ensures { SpellsSaid (codes "take") (map (λ word. word.now) words.now) result }
{
    let Some((end, names)) = first_word(words) else {
        return None;
    };
    if is_named_list(end, names) {
        Some(Said::Take(end, names))
    } else {
        None
    }
}

/// What stands behind `close`.
fn close_of<'w, 'a>(
    alloc: Global,
    words: &'w [&'a [u8]],
) -> Result<Option<Said<'w, 'a>>, AllocError>
    ensures { IfOk result (λ found. SpellsSaid (codes "close") (map (λ word. word.now) words.now) found) }
{
    let Some(word) = one_word(words) else {
        return Ok(None);
    };
    if is_name(word) {
        return Ok(Some(Said::CloseToken(word)));
    }
    match endpoint(alloc, word)? {
        Some(at) => Ok(Some(Said::CloseEndpoint(at.name, at.id))),
        None => Ok(None),
    }
}

/// What is said by a command and the words behind it.
pub(crate) fn behind_command<'w, 'a>(
    alloc: Global,
    seqs: u32,
    command: &[u8],
    words: &'w [&'a [u8]],
) -> Result<Option<Said<'w, 'a>>, AllocError>
    ensures { IfOk result (λ found. SpellsBehind seqs command.now (map (λ word. word.now) words.now) found) }
{
    if command == b"pipe".as_slice() {
        return Ok(pipe_of(words));
    }
    if command == b"mint".as_slice() {
        return Ok(mint_of(words));
    }
    if command == b"bind".as_slice() {
        return bind_of(alloc, words);
    }
    if command == b"associate".as_slice() {
        return associate_of(alloc, words);
    }
    if command == b"attach".as_slice() {
        return attach_of(alloc, seqs, words);
    }
    if command == b"take".as_slice() {
        return Ok(take_of(words));
    }
    if command == b"close".as_slice() {
        return close_of(alloc, words);
    }
    if command == b"pause".as_slice() {
        return pause_of(alloc, words);
    }
    behind_writing(alloc, command, words)
}
