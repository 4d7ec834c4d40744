//! What names, interfaces and methods may be written with.

ghost use Rattle.std.specs.Prelude.{◌≡◌, IfOk, map};
ghost use Rattle.std.specs.List.{list_all};
ghost use Rattle.script_words.specs.Letters.{is_small_letter, is_first_letter, is_letter, is_digit, is_identifier};
ghost use Rattle.script_words.specs.Letters.{is_interface_word, is_method_word, is_name, is_name_byte, are_names};

use crate::splitting::split;
use std::alloc::{AllocError, Global};

/// Whether the byte is one of `a` to `z`.
fn is_small_letter(c: u8) -> bool
    ensures { result ≡ is_small_letter c }
{
    b'a' <= c && c <= b'z'
}

/// Whether the byte is one of `0` to `9`.
fn is_digit(c: u8) -> bool
    ensures { result ≡ is_digit c }
{
    b'0' <= c && c <= b'9'
}

/// Whether an identifier may begin with the byte.
fn is_first_letter(c: u8) -> bool
    ensures { result ≡ is_first_letter c }
{
    is_small_letter(c) || (b'A' <= c && c <= b'Z') || c == b'_'
}

/// Whether the byte may stand in a name behind its first letter.
fn is_name_byte(c: u8) -> bool
    ensures { result ≡ is_name_byte c }
{
    is_small_letter(c) || is_digit(c) || c == b'_'
}

/// Whether all the bytes may stand in a name behind its first letter.
fn are_name_bytes(bytes: &[u8]) -> bool
    ensures { result ≡ list_all is_name_byte bytes.now }
{
    bytes.iter().all(|c| is_name_byte(*c))
}

/// Whether the word is a name: a small letter, then small letters, digits and `_`, 32 at most in all.
pub fn is_name(word: &[u8]) -> bool
    ensures { result ≡ is_name word.now }
{
    match word.split_first() {
        None => false,
        Some((first, rest)) => is_small_letter(*first) && are_name_bytes(rest) && rest.len() <= 31,
    }
}

/// Whether all the words are names.
pub fn are_names(words: &[&[u8]]) -> bool
    ensures { result ≡ are_names (map (λ word. word.now) words.now) }
{
    for word in words {
        if !is_name(word) {
            return false;
        }
    }
    true
}

/// Whether all the bytes may stand in an identifier behind its first letter.
fn are_letters(bytes: &[u8]) -> bool
    ensures { result ≡ list_all is_letter bytes.now }
{
    bytes.iter().all(|c| is_first_letter(*c) || is_digit(*c))
}

/// Whether the word is an identifier.
fn is_identifier(word: &[u8]) -> bool
    ensures { result ≡ is_identifier word.now }
{
    match word.split_first() {
        None => false,
        Some((first, rest)) => is_first_letter(*first) && are_letters(rest),
    }
}

/// Whether all the words are identifiers.
fn are_identifiers(words: &[&[u8]]) -> bool
    ensures { result ≡ list_all is_identifier (map (λ word. word.now) words.now) }
{
    for word in words {
        if !is_identifier(word) {
            return false;
        }
    }
    true
}

/// Whether the word is one of an interface: identifiers with dots between.
pub fn is_interface_word(alloc: Global, word: &[u8]) -> Result<bool, AllocError>
    ensures { IfOk result (λ is. is ≡ is_interface_word word.now) }
{
    let parts = split(alloc, word, b'.')?;
    Ok(are_identifiers(parts.as_slice()))
}

/// Whether the word is one of a method: two identifiers at least, with dots between.
pub fn is_method_word(alloc: Global, word: &[u8]) -> Result<bool, AllocError>
    ensures { IfOk result (λ is. is ≡ is_method_word word.now) }
{
    let parts = split(alloc, word, b'.')?;
    Ok(are_identifiers(parts.as_slice()) && parts.len() >= 2)
}
