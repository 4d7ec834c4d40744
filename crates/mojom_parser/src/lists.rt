//! Lists of what one rule reads, one after the other or with commas between them.

ghost use Rattle.std.specs.Prelude.{◌≡◌, false};
ghost use Rattle.mojom_ast.specs.Lang.{Lang, front_in, list, many, times};
ghost use Rattle.mojom_parser.specs.steps.Reading.{Gives, with_front};

use crate::error::ReadError;
use crate::tokens::{is_symbol, symbol};
use mojom_ast::{Symbol, Token};
use std::alloc::Global;

/// What may stand in a list, and how one of it is read.
pub trait Listed: Drop {
    // the rule of the grammar that reads one
    ghost rule: { Lang Self };

    // Nothing is never read as one.
    ghost not_null: { rule.null ≡ false };

    /// Whether the next token begins one.
    fn begins(tokens: &[Token]) -> bool
        ensures { result ≡ front_in rule.starts tokens.now };

    /// One, and the tokens after it.
    fn read(alloc: Global, tokens: &[Token]) -> Result<(Self, &[Token]), ReadError>
        ensures { Gives (λ x. (x.0, x.1.now)) result (rule.read tokens.now) };
}

/// At most `limit`, one after the other, behind those that there are.
pub fn at_most<L: Listed>(
    alloc: Global,
    limit: usize,
    front: Vec<L>,
    tokens: &[Token],
) -> Result<(Vec<L>, &[Token]), ReadError>
    ensures { Gives (λ x. (x.0.items, x.1.now)) result (with_front front.items ((times limit L.rule).read tokens.now)) }
{
    let mut items = front;
    let mut rest = tokens;
    for _ in 0..limit {
        if !L::begins(rest) {
            return Ok((items, rest));
        }
        let (item, after) = L::read(alloc, rest)?;
        items.push(item)?;
        rest = after;
    }
    Ok((items, rest))
}

/// However many, one after the other.
pub fn many<L: Listed>(alloc: Global, tokens: &[Token]) -> Result<(Vec<L>, &[Token]), ReadError>
    ensures { Gives (λ x. (x.0.items, x.1.now)) result ((many L.rule).read tokens.now) }
{
    at_most(alloc, tokens.len(), Vec::new(alloc), tokens)
}

/// However many with commas between them, and maybe one after the last.
pub fn list<L: Listed>(alloc: Global, tokens: &[Token]) -> Result<(Vec<L>, &[Token]), ReadError>
    ensures { Gives (λ x. (x.0.items, x.1.now)) result ((list L.rule).read tokens.now) }
{
    let mut items = Vec::new(alloc);
    let mut rest = tokens;
    for _ in 0..tokens.len() {
        if !L::begins(rest) {
            return Ok((items, rest));
        }
        let (item, after) = L::read(alloc, rest)?;
        items.push(item)?;
        if !is_symbol(after, Symbol::Comma) {
            return Ok((items, after));
        }
        let (_, next) = symbol(after, Symbol::Comma)?;
        rest = next;
    }
    Ok((items, rest))
}
