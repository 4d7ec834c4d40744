//! From bytes to tokens.

ghost use Rattle.std.specs.Prelude.{◌≡◌, ◌≢◌, ℕ, List, IfOk, IfErr, IsUtf8};
ghost use Rattle.mojom_ast.specs.declared.token.Token.{Token};
ghost use Rattle.mojom_lexer.specs.declared.error.LexError.TheVariants.{Memory};
ghost use Rattle.mojom_lexer.specs.Lexed.{AreTokens, IsLexicalRefusal, StopsAt, OneReading, InOrder};

use crate::error::LexError;
use crate::pieces::{Piece, first_piece};
use mj_base::Span;
use mojom_ast::Token;
use simdutf8::compat::from_utf8;
use std::alloc::Global;

/// The tokens of a file, in order. Each error but want of memory is the refusal of the bytes: then
/// they have no tokens.
pub fn lex(alloc: Global, bytes: &[u8]) -> Result<Vec<Token>, LexError>
    ensures tokens { IfOk result (λ tokens. AreTokens bytes.now tokens.items) }
    ensures refused { IfErr result (λ error. error ≢ Memory → IsLexicalRefusal bytes.now error) }
{
    match from_utf8(bytes) {
        Ok(_) => tokens(alloc, bytes),
        Err(error) => Err(LexError::BadUtf8(error.valid_up_to() as u64)),
    }
}

/// The tokens of a file that is UTF-8.
fn tokens(alloc: Global, bytes: &[u8]) -> Result<Vec<Token>, LexError>
    requires { IsUtf8 bytes.now }
    ensures tokens { IfOk result (λ tokens. AreTokens bytes.now tokens.items) }
    ensures refused { IfErr result (λ error. error ≢ Memory → StopsAt bytes.now error) }
{
    let mut tokens = Vec::new(alloc);
    let mut at = 0;
    while at < bytes.len() {
        let Piece { sort, len } = first_piece(alloc, at as u64, &bytes[at..])?;
        if let Some(sort) = sort {
            let span = Span {
                start: at as u64,
                len: len as u64,
            };
            tokens.push(Token { sort, span })?;
        }
        at += len;
    }
    Ok(tokens)
}

/// A file has just one list of tokens or just one refusal, and never both: this is a law and does
/// nothing.
pub fn one_reading()
    ensures { (bytes : List ℕ) → OneReading bytes }
{}

/// The tokens of a file stand in order within it: this is a law and does nothing.
pub fn in_order()
    ensures { (bytes : List ℕ) (tokens : List Token) → AreTokens bytes tokens → InOrder bytes tokens }
{}
