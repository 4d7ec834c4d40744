//! The tree of a file.

ghost use Rattle.std.specs.Prelude.{◌≡◌, ℕ, List, IfOk, IfErr};
ghost use Rattle.mojom_compile.specs.Compiled.{IsParsed, IsUnread, IsFor, OneTree, lexical, grammatical, place_of_token};

use crate::error::{Cause, CompileError, FileRefusal};
use mojom_ast::{File, Token};
use mojom_lexer::{LexError, lex};
use mojom_parser::{ParseError, parse};
use std::alloc::Global;

/// A refusal of what stands at a place.
fn refused(at: u64, cause: Cause) -> CompileError
    ensures { result ≡ CompileError.Refused (record { at = at; cause = cause }) }
{
    CompileError::Refused(FileRefusal { at, cause })
}

/// The refusal of bytes that are no tokens.
fn of_lexer(error: LexError) -> CompileError
    ensures { result ≡ lexical error }
{
    match error {
        LexError::BadUtf8(at) => refused(at, Cause::BadUtf8(at)),
        LexError::BadChar(at) => refused(at, Cause::BadChar(at)),
        LexError::OpenComment(at) => refused(at, Cause::OpenComment(at)),
        LexError::OpenString(at) => refused(at, Cause::OpenString(at)),
        LexError::LeadingZero(at) => refused(at, Cause::LeadingZero(at)),
        LexError::NumberTooLong(at) => refused(at, Cause::NumberTooLong(at)),
        LexError::Memory => CompileError::Memory,
    }
}

/// The byte place of a token, or the file's length behind the last.
fn place_of(bytes: &[u8], tokens: &[Token], number: u64) -> u64
    ensures { result ≡ place_of_token bytes.now tokens.now number }
{
    match tokens.get(number as usize) {
        Some(token) => token.span.start,
        None => bytes.len() as u64,
    }
}

/// The refusal of tokens that are no file.
fn of_parser(bytes: &[u8], tokens: &[Token], error: ParseError) -> CompileError
    ensures { result ≡ grammatical bytes.now tokens.now error }
{
    match error {
        ParseError::Unexpected(at) => {
            refused(place_of(bytes, tokens, at), Cause::Unexpected(at))
        }
        ParseError::TooNested(at) => refused(place_of(bytes, tokens, at), Cause::TooNested(at)),
        ParseError::Memory => CompileError::Memory,
    }
}

/// The tree of a file, or why it has none.
pub fn read(alloc: Global, bytes: &[u8]) -> Result<File, CompileError>
    ensures tree { IfOk result (λ tree. IsParsed bytes.now tree) }
    ensures refused { IfErr result (IsFor (IsUnread bytes.now)) }
{
    let tokens = match lex(alloc, bytes) {
        Ok(tokens) => tokens,
        Err(error) => return Err(of_lexer(error)),
    };
    match parse(alloc, tokens.as_slice()) {
        Ok(tree) => Ok(tree),
        Err(error) => Err(of_parser(bytes, tokens.as_slice(), error)),
    }
}

/// A file has one tree or one refusal, and never both: this is a law and does nothing.
pub fn one_tree()
    ensures { (bytes : List ℕ) → OneTree bytes }
{}
