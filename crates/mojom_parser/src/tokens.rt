//! One token.

ghost use Rattle.std.specs.Prelude.{◌≡◌, ◌∷◌, [], IfOk, MatchOption, false};
ghost use Rattle.mojom_ast.specs.declared.classes.TheConstants.{NUMBER, STRING};
ghost use Rattle.mojom_ast.specs.Classes.{keyword_class, symbol_class, identifiers, class};
ghost use Rattle.mojom_ast.specs.Lang.{has, as_value, front_in, tok, keyword, symbol};
ghost use Rattle.mojom_ast.specs.Grammar.{identifier, number, string};
ghost use Rattle.mojom_parser.specs.steps.Reading.{Gives, IsTextOf, identifier_at};

use crate::error::ReadError;
use mj_base::{Span, Text};
use mojom_ast::{Fault, Identifier, Keyword, Number, Sort, StringLiteral, Symbol, Token};
use std::alloc::{AllocError, Global};

/// Whether the next token is of the class.
pub fn is_next(tokens: &[Token], class: u8) -> bool
    ensures { result ≡ front_in (class ∷ []) tokens.now }
{
    match tokens {
        [token, ..] => token.class() == class,
        [] => false,
    }
}

/// The next token, which is of the class, and those after it.
pub fn expect(tokens: &[Token], class: u8) -> Result<(&Token, &[Token]), ReadError>
    ensures { Gives (λ x. (x.0.now, x.1.now)) result ((tok (class ∷ [])).read tokens.now) }
{
    match tokens {
        [token, rest @ ..] => {
            if token.class() == class {
                Ok((token, rest))
            } else {
                Err(ReadError::Fault(Fault::Unexpected(tokens.len())))
            }
        }
        [] => Err(ReadError::Fault(Fault::Unexpected(0))),
    }
}

/// The value that a token of the class stands for, and the tokens after it.
pub fn expect_as<T: Copy>(tokens: &[Token], class: u8, value: T) -> Result<(T, &[Token]), ReadError>
    ensures { Gives (λ x. (x.0, x.1.now)) result ((as_value (λ _. value) (tok (class ∷ []))).read tokens.now) }
{
    let (_, rest) = expect(tokens, class)?;
    Ok((value, rest))
}

/// Whether the next token is the symbol.
pub fn is_symbol(tokens: &[Token], mark: Symbol) -> bool
    ensures { result ≡ front_in (symbol_class mark ∷ []) tokens.now }
{
    is_next(tokens, mark.class())
}

/// The symbol, and the tokens after it.
pub fn symbol(tokens: &[Token], mark: Symbol) -> Result<(&Token, &[Token]), ReadError>
    ensures { Gives (λ x. (x.0.now, x.1.now)) result ((symbol mark).read tokens.now) }
{
    expect(tokens, mark.class())
}

/// Whether the next token is the keyword.
pub fn is_keyword(tokens: &[Token], word: Keyword) -> bool
    ensures { result ≡ front_in (keyword_class word ∷ []) tokens.now }
{
    is_next(tokens, word.class())
}

/// The keyword, and the tokens after it.
pub fn keyword(tokens: &[Token], word: Keyword) -> Result<(&Token, &[Token]), ReadError>
    ensures { Gives (λ x. (x.0.now, x.1.now)) result ((keyword word).read tokens.now) }
{
    expect(tokens, word.class())
}

/// Whether the next token is an identifier.
#[tactic(auto, using(crate::proofs::TokenFacts::identifiers_alone))]
pub fn is_identifier(tokens: &[Token]) -> bool
    ensures { result ≡ front_in identifiers tokens.now }
{
    match tokens {
        [token, ..] => match &token.sort {
            Sort::Identifier(_) => true,
            _ => false,
        },
        [] => false,
    }
}

/// A text of the same bytes.
fn copied(alloc: Global, text: &Text) -> Result<Text, AllocError>
    ensures { IfOk result (λ other. other ≡ text.now) }
{
    Text::from_str(alloc, text.as_str())
}

/// The text of an identifier.
#[tactic(auto, using(crate::proofs::TokenFacts::identifiers_alone))]
fn text_of(token: &Token) -> Option<&Text>
    ensures { MatchOption result (has identifiers (class token.now) ≡ false) (λ text. IsTextOf token.now text.now) }
{
    match &token.sort {
        Sort::Identifier(text) => Some(text),
        _ => None,
    }
}

/// The text of an identifier, where it stands, and the tokens after it.
#[tactic(auto, unfolding(mojom_ast::specs::Grammar::identifier))]
fn identifier_text(tokens: &[Token]) -> Result<(&Text, Span, &[Token]), ReadError>
    ensures { Gives (λ x. (identifier_at x.0.now x.1, x.2.now)) result (identifier.read tokens.now) }
{
    match tokens {
        [token, rest @ ..] => match text_of(token) {
            Some(text) => Ok((text, token.span, rest)),
            None => Err(ReadError::Fault(Fault::Unexpected(tokens.len()))),
        },
        [] => Err(ReadError::Fault(Fault::Unexpected(0))),
    }
}

/// An identifier, and the tokens after it.
pub fn identifier(alloc: Global, tokens: &[Token]) -> Result<(Identifier, &[Token]), ReadError>
    ensures { Gives (λ x. (x.0, x.1.now)) result (identifier.read tokens.now) }
{
    let (text, span, rest) = identifier_text(tokens)?;
    let text = copied(alloc, text)?;
    Ok((Identifier { text, span }, rest))
}

/// A number, and the tokens after it.
#[tactic(auto, unfolding(mojom_ast::specs::Grammar::number), using(crate::proofs::TokenFacts::numbers_alone))]
pub fn number(tokens: &[Token]) -> Result<(Number, &[Token]), ReadError>
    ensures { Gives (λ x. (x.0, x.1.now)) result (number.read tokens.now) }
{
    match tokens {
        [token, rest @ ..] => match &token.sort {
            Sort::Number(value) => Ok((
                Number {
                    value: *value,
                    span: token.span,
                },
                rest,
            )),
            _ => Err(ReadError::Fault(Fault::Unexpected(tokens.len()))),
        },
        [] => Err(ReadError::Fault(Fault::Unexpected(0))),
    }
}

/// Whether the next token is a number.
#[tactic(auto, using(crate::proofs::TokenFacts::numbers_alone))]
pub fn is_number(tokens: &[Token]) -> bool
    ensures { result ≡ front_in (NUMBER ∷ []) tokens.now }
{
    match tokens {
        [token, ..] => match &token.sort {
            Sort::Number(_) => true,
            _ => false,
        },
        [] => false,
    }
}

/// Whether the next token is a string.
#[tactic(auto, using(crate::proofs::TokenFacts::strings_alone))]
pub fn is_string(tokens: &[Token]) -> bool
    ensures { result ≡ front_in (STRING ∷ []) tokens.now }
{
    match tokens {
        [token, ..] => match &token.sort {
            Sort::String(_) => true,
            _ => false,
        },
        [] => false,
    }
}

/// A string, and the tokens after it.
#[tactic(auto, unfolding(mojom_ast::specs::Grammar::string), using(crate::proofs::TokenFacts::strings_alone))]
pub fn string(alloc: Global, tokens: &[Token]) -> Result<(StringLiteral, &[Token]), ReadError>
    ensures { Gives (λ x. (x.0, x.1.now)) result (string.read tokens.now) }
{
    match tokens {
        [token, rest @ ..] => match &token.sort {
            Sort::String(bytes) => {
                let bytes = bytes.copy(alloc)?;
                Ok((
                    StringLiteral {
                        bytes,
                        span: token.span,
                    },
                    rest,
                ))
            }
            _ => Err(ReadError::Fault(Fault::Unexpected(tokens.len()))),
        },
        [] => Err(ReadError::Fault(Fault::Unexpected(0))),
    }
}
