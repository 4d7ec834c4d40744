//! Constants and enums.

ghost use Rattle.mojom_ast.specs.Grammar.{const_of, enumerator, enum_of};
ghost use Rattle.mojom_parser.specs.steps.Reading.{Gives};
ghost use Rattle.mojom_parser.specs.steps.NotNull.{enumerator_not_null};

use crate::attributes::attributes;
use crate::error::ReadError;
use crate::lists::{Listed, list};
use crate::tokens::{identifier, is_identifier, is_symbol, keyword, symbol};
use crate::types::type_of;
use crate::values::{assigned, value};
use mj_base::Items;
use mj_base::limits::MAX_NESTED_TYPES;
use mojom_ast::{Const, Enum, Enumerator, Keyword, Symbol, Token};
use std::alloc::Global;

/// A constant.
#[tactic(auto, unfolding(mojom_ast::specs::Grammar::const_of))]
pub fn const_of(alloc: Global, tokens: &[Token]) -> Result<(Const, &[Token]), ReadError>
    ensures { Gives (λ x. (x.0, x.1.now)) result ((const_of MAX_NESTED_TYPES).read tokens.now) }
{
    let (_, rest) = keyword(tokens, Keyword::Const)?;
    let (kind, rest) = type_of(alloc, rest)?;
    let (name, rest) = identifier(alloc, rest)?;
    let (_, rest) = symbol(rest, Symbol::Equals)?;
    let (value, rest) = value(alloc, rest)?;
    let (_, rest) = symbol(rest, Symbol::Semicolon)?;
    Ok((Const { kind, name, value }, rest))
}

impl Listed for Enumerator {
    ghost rule = { enumerator };

    ghost not_null = { enumerator_not_null };

    #[tactic(auto, using(crate::proofs::Starts::enumerator_begins))]
    fn begins(tokens: &[Token]) -> bool {
        is_symbol(tokens, Symbol::OpenBracket) || is_identifier(tokens)
    }

    #[tactic(auto, unfolding(mojom_ast::specs::Grammar::enumerator))]
    fn read(alloc: Global, tokens: &[Token]) -> Result<(Enumerator, &[Token]), ReadError> {
        let (attributes, rest) = attributes(alloc, tokens)?;
        let (name, rest) = identifier(alloc, rest)?;
        let (value, rest) = assigned(alloc, rest)?;
        Ok((
            Enumerator {
                attributes,
                name,
                value,
            },
            rest,
        ))
    }
}

/// An enum.
#[tactic(auto, unfolding(mojom_ast::specs::Grammar::enum_of))]
pub fn enum_of(alloc: Global, tokens: &[Token]) -> Result<(Enum, &[Token]), ReadError>
    ensures { Gives (λ x. (x.0, x.1.now)) result (enum_of.read tokens.now) }
{
    let (_, rest) = keyword(tokens, Keyword::Enum)?;
    let (name, rest) = identifier(alloc, rest)?;
    let (_, rest) = symbol(rest, Symbol::OpenBrace)?;
    let (enumerators, rest) = list(alloc, rest)?;
    let (_, rest) = symbol(rest, Symbol::CloseBrace)?;
    let (_, rest) = symbol(rest, Symbol::Semicolon)?;
    Ok((
        Enum {
            name,
            enumerators: Items::from_vec(enumerators),
        },
        rest,
    ))
}
