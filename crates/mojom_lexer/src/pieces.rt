//! What stands at a place of a file.

ghost use Rattle.std.specs.Prelude.{◌≡◌, ◌≢◌, ◌+◌, ◌<◌, ◌^◌, length, true, IfOk, IfErr, Some};
ghost use Rattle.mojom_lexer.specs.declared.error.LexError.TheVariants.{Memory};
ghost use Rattle.mojom_lexer.specs.Words.{is_word};
ghost use Rattle.mojom_lexer.specs.Pieces.Kind.{Blank, Comment, Word, Numeral, Quoted};
ghost use Rattle.mojom_lexer.specs.Lexed.{Refuses, SpellsSort};
ghost use Rattle.mojom_lexer.specs.steps.Scans.{kind_at, Stands, BeginsSign};

use crate::bytes::{goes_on, is_blank, is_digit, is_letter, run_len, stays_on_line};
use crate::comments::before_close;
use crate::error::LexError;
use crate::numbers::{has_leading_zero, number_len, number_value};
use crate::strings::{before_quote, text};
use crate::words::{as_text, keyword, symbol};
use mj_base::Text;
use mojom_ast::{Sort, Symbol};
use std::alloc::{AllocError, Global};

/// What stands at a place of a file.
#[derive(Drop)]
pub struct Piece {
    /// The token that it is; none for blank space and comments.
    pub sort: Option<Sort>,
    /// How many bytes it has.
    pub len: usize,
}

/// The piece at the front of the bytes, the longest; `at` is their place in the file.
pub fn first_piece(alloc: Global, at: u64, bytes: &[u8]) -> Result<Piece, LexError>
    requires some { 0 < length bytes.now }
    requires fits { at + length bytes.now < 2 ^ 64 }
    ensures ok { IfOk result (λ piece. Stands piece bytes.now) }
    ensures refused { IfErr result (λ error. error ≢ Memory → Refuses at bytes.now error) }
{
    let first = bytes[0];
    if is_blank(first) {
        return Ok(blank(bytes));
    }
    if is_letter(first) {
        return word(alloc, bytes);
    }
    if is_digit(first) {
        return number(at, bytes);
    }
    match first {
        b'"' => string(alloc, at, bytes),
        b'/' => comment(at, bytes),
        _ => sign(at, bytes),
    }
}

/// Blank space.
fn blank(bytes: &[u8]) -> Piece
    requires { kind_at bytes.now ≡ Some Blank }
    ensures { Stands result bytes.now }
{
    Piece {
        sort: None,
        len: run_len(bytes, is_blank),
    }
}

/// A keyword or an identifier.
#[tactic(auto, using(crate::proofs::Standing::word_is, crate::proofs::Standing::word_stands))]
fn word(alloc: Global, bytes: &[u8]) -> Result<Piece, LexError>
    requires { kind_at bytes.now ≡ Some Word }
    ensures ok { IfOk result (λ piece. Stands piece bytes.now) }
    ensures refused { IfErr result (λ error. error ≡ Memory) }
{
    let len = run_len(bytes, goes_on);
    let sort = word_sort(alloc, &bytes[..len])?;
    Ok(Piece {
        sort: Some(sort),
        len,
    })
}

/// The keyword or the identifier that the word is.
fn word_sort(alloc: Global, word: &[u8]) -> Result<Sort, AllocError>
    requires { is_word word.now ≡ true }
    ensures { IfOk result (λ sort. SpellsSort sort word.now) }
{
    let word = as_text(word);
    match keyword(word) {
        Some(keyword) => Ok(Sort::Keyword(keyword)),
        None => Ok(Sort::Identifier(Text::from_str(alloc, word)?)),
    }
}

/// A number.
fn number(at: u64, bytes: &[u8]) -> Result<Piece, LexError>
    requires { kind_at bytes.now ≡ Some Numeral }
    ensures ok { IfOk result (λ piece. Stands piece bytes.now) }
    ensures refused { IfErr result (λ error. error ≢ Memory → Refuses at bytes.now error) }
{
    let len = number_len(bytes);
    let number = &bytes[..len];
    if has_leading_zero(number) {
        return Err(LexError::LeadingZero(at));
    }
    match number_value(number) {
        Some(value) => Ok(Piece {
            sort: Some(Sort::Number(value)),
            len,
        }),
        None => Err(LexError::NumberTooLong(at)),
    }
}

/// A string.
#[tactic(auto, using(crate::proofs::Standing::string_room))]
fn string(alloc: Global, at: u64, bytes: &[u8]) -> Result<Piece, LexError>
    requires begins { kind_at bytes.now ≡ Some Quoted }
    requires fits { at + length bytes.now < 2 ^ 64 }
    ensures ok { IfOk result (λ piece. Stands piece bytes.now) }
    ensures refused { IfErr result (λ error. error ≢ Memory → Refuses at bytes.now error) }
{
    let Some(len) = before_quote(&bytes[1..]) else {
        return Err(LexError::OpenString(at));
    };
    let text = text(alloc, at, &bytes[1..1 + len])?;
    Ok(Piece {
        sort: Some(Sort::String(text)),
        len: len + 2,
    })
}

/// A comment.
fn comment(at: u64, bytes: &[u8]) -> Result<Piece, LexError>
    requires begins { kind_at bytes.now ≡ Some Comment }
    requires fits { at + length bytes.now < 2 ^ 64 }
    ensures ok { IfOk result (λ piece. Stands piece bytes.now) }
    ensures refused { IfErr result (λ error. Refuses at bytes.now error) }
{
    if bytes.starts_with(b"//") {
        return Ok(Piece {
            sort: None,
            len: run_len(bytes, stays_on_line),
        });
    }
    if !bytes.starts_with(b"/*") {
        return Err(LexError::BadChar(at));
    }
    match before_close(&bytes[2..]) {
        Some(len) => Ok(Piece {
            sort: None,
            len: len + 4,
        }),
        None => Err(LexError::OpenComment(at)),
    }
}

/// A symbol.
fn sign(at: u64, bytes: &[u8]) -> Result<Piece, LexError>
    requires { BeginsSign bytes.now }
    ensures ok { IfOk result (λ piece. Stands piece bytes.now) }
    ensures refused { IfErr result (λ error. Refuses at bytes.now error) }
{
    if bytes.starts_with(b"=>") {
        return Ok(Piece {
            sort: Some(Sort::Symbol(Symbol::Arrow)),
            len: 2,
        });
    }
    match symbol(bytes[0]) {
        Some(symbol) => Ok(Piece {
            sort: Some(Sort::Symbol(symbol)),
            len: 1,
        }),
        None => Err(LexError::BadChar(at)),
    }
}
