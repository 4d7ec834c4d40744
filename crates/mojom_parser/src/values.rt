//! Names and values.

ghost use Rattle.std.specs.Prelude.{◌≡◌};
ghost use Rattle.mojom_ast.specs.Lang.{front_in, maybe, symbol, ◌▹◌};
ghost use Rattle.mojom_ast.specs.Grammar.{dotted, name, number, ordinal, boolean, signed, value, assigned};
ghost use Rattle.mojom_parser.specs.steps.Reading.{Gives};
ghost use Rattle.mojom_parser.specs.steps.NotNull.{dotted_not_null};

use crate::error::ReadError;
use crate::lists::{Listed, at_most};
use crate::tokens::{
    identifier, is_keyword, is_number, is_string, is_symbol, keyword, number, string, symbol,
};
use mj_base::{Items, Span};
use mojom_ast::{Identifier, Keyword, Name, Number, Symbol, Token, Value};
use std::alloc::Global;

/// A further part of a name, with its dot.
impl Listed for Identifier {
    ghost rule = { dotted };

    ghost not_null = { dotted_not_null };

    #[tactic(auto, unfolding(mojom_ast::specs::Grammar::dotted))]
    fn begins(tokens: &[Token]) -> bool {
        is_symbol(tokens, Symbol::Dot)
    }

    #[tactic(auto, unfolding(mojom_ast::specs::Grammar::dotted))]
    fn read(alloc: Global, tokens: &[Token]) -> Result<(Identifier, &[Token]), ReadError> {
        let (_, rest) = symbol(tokens, Symbol::Dot)?;
        identifier(alloc, rest)
    }
}

/// A name, and the tokens after it.
#[tactic(auto, unfolding(mojom_ast::specs::Grammar::name))]
pub fn name(alloc: Global, tokens: &[Token]) -> Result<(Name, &[Token]), ReadError>
    ensures { Gives (λ x. (x.0, x.1.now)) result (name.read tokens.now) }
{
    let (first, rest) = identifier(alloc, tokens)?;
    let mut parts = Vec::new(alloc);
    parts.push(first)?;
    let (parts, rest) = at_most(alloc, rest.len(), parts, rest)?;
    Ok((
        Name {
            parts: Items::from_vec(parts),
        },
        rest,
    ))
}

/// `@` and a number, where they stand.
#[tactic(auto, unfolding(mojom_ast::specs::Grammar::ordinal))]
pub fn ordinal(tokens: &[Token]) -> Result<(Option<Number>, &[Token]), ReadError>
    ensures { Gives (λ x. (x.0, x.1.now)) result ((maybe ordinal).read tokens.now) }
{
    if !is_symbol(tokens, Symbol::At) {
        return Ok((None, tokens));
    }
    let (_, rest) = symbol(tokens, Symbol::At)?;
    let (n, rest) = number(rest)?;
    Ok((Some(n), rest))
}

/// `true` or `false`.
#[tactic(auto, unfolding(mojom_ast::specs::Grammar::boolean))]
fn boolean(tokens: &[Token]) -> Result<(Value, &[Token]), ReadError>
    ensures { Gives (λ x. (x.0, x.1.now)) result (boolean.read tokens.now) }
{
    if is_keyword(tokens, Keyword::True) {
        let (token, rest) = keyword(tokens, Keyword::True)?;
        return Ok((
            Value::Bool {
                value: true,
                span: token.span,
            },
            rest,
        ));
    }
    let (token, rest) = keyword(tokens, Keyword::False)?;
    Ok((
        Value::Bool {
            value: false,
            span: token.span,
        },
        rest,
    ))
}

/// A sign and a number.
fn with_sign(tokens: &[Token], sign: Symbol) -> Result<(&Token, Number, &[Token]), ReadError>
    ensures { Gives (λ x. ((x.0.now, x.1), x.2.now)) result ((symbol sign ▹ number).read tokens.now) }
{
    let (token, rest) = symbol(tokens, sign)?;
    let (n, rest) = number(rest)?;
    Ok((token, n, rest))
}

/// The value of a number that stands at the place.
fn number_value(negative: bool, magnitude: u64, span: Span) -> Value
    ensures { result ≡ Value.Number negative magnitude span }
{
    Value::Number {
        negative,
        magnitude,
        span,
    }
}

/// A number, maybe with a sign before it.
#[tactic(auto, unfolding(mojom_ast::specs::Grammar::signed, mojom_ast::specs::Grammar::number))]
fn signed(tokens: &[Token]) -> Result<(Value, &[Token]), ReadError>
    ensures { Gives (λ x. (x.0, x.1.now)) result (signed.read tokens.now) }
{
    if is_number(tokens) {
        let (n, rest) = number(tokens)?;
        return Ok((number_value(false, n.value, n.span), rest));
    }
    if is_symbol(tokens, Symbol::Plus) {
        let (sign, n, rest) = with_sign(tokens, Symbol::Plus)?;
        return Ok((number_value(false, n.value, sign.span), rest));
    }
    let (sign, n, rest) = with_sign(tokens, Symbol::Minus)?;
    Ok((number_value(true, n.value, sign.span), rest))
}

/// Whether the next token begins a number, maybe with a sign before it.
#[tactic(auto, unfolding(mojom_ast::specs::Grammar::signed, mojom_ast::specs::Grammar::number))]
fn begins_signed(tokens: &[Token]) -> bool
    ensures { result ≡ front_in signed.starts tokens.now }
{
    is_number(tokens) || is_symbol(tokens, Symbol::Plus) || is_symbol(tokens, Symbol::Minus)
}

/// Whether the next token is `true` or `false`.
#[tactic(auto, unfolding(mojom_ast::specs::Grammar::boolean))]
fn begins_boolean(tokens: &[Token]) -> bool
    ensures { result ≡ front_in boolean.starts tokens.now }
{
    is_keyword(tokens, Keyword::True) || is_keyword(tokens, Keyword::False)
}

/// A value, and the tokens after it.
#[tactic(auto, unfolding(mojom_ast::specs::Grammar::value, mojom_ast::specs::Grammar::string))]
pub fn value(alloc: Global, tokens: &[Token]) -> Result<(Value, &[Token]), ReadError>
    ensures { Gives (λ x. (x.0, x.1.now)) result (value.read tokens.now) }
{
    if is_string(tokens) {
        let (literal, rest) = string(alloc, tokens)?;
        return Ok((Value::String(literal), rest));
    }
    if begins_boolean(tokens) {
        return boolean(tokens);
    }
    if begins_signed(tokens) {
        return signed(tokens);
    }
    let (name, rest) = name(alloc, tokens)?;
    Ok((Value::Name(name), rest))
}

/// `=` and a value, where they stand.
#[tactic(auto, unfolding(mojom_ast::specs::Grammar::assigned))]
pub fn assigned(alloc: Global, tokens: &[Token]) -> Result<(Option<Value>, &[Token]), ReadError>
    ensures { Gives (λ x. (x.0, x.1.now)) result ((maybe assigned).read tokens.now) }
{
    if !is_symbol(tokens, Symbol::Equals) {
        return Ok((None, tokens));
    }
    let (_, rest) = symbol(tokens, Symbol::Equals)?;
    let (value, rest) = value(alloc, rest)?;
    Ok((Some(value), rest))
}
