//! Attributes.

ghost use Rattle.mojom_ast.specs.Grammar.{attribute, attributes};
ghost use Rattle.mojom_parser.specs.steps.Reading.{Gives};
ghost use Rattle.mojom_parser.specs.steps.NotNull.{attribute_not_null};

use crate::error::ReadError;
use crate::lists::{Listed, list};
use crate::tokens::{identifier, is_identifier, is_symbol, symbol};
use crate::values::assigned;
use mj_base::Items;
use mojom_ast::{Attribute, Symbol, Token};
use std::alloc::Global;

impl Listed for Attribute {
    ghost rule = { attribute };

    ghost not_null = { attribute_not_null };

    #[tactic(auto, unfolding(mojom_ast::specs::Grammar::attribute, mojom_ast::specs::Grammar::identifier))]
    fn begins(tokens: &[Token]) -> bool {
        is_identifier(tokens)
    }

    #[tactic(auto, unfolding(mojom_ast::specs::Grammar::attribute))]
    fn read(alloc: Global, tokens: &[Token]) -> Result<(Attribute, &[Token]), ReadError> {
        let (name, rest) = identifier(alloc, tokens)?;
        let (value, rest) = assigned(alloc, rest)?;
        Ok((Attribute { name, value }, rest))
    }
}

/// The attributes that stand next, none where no bracket opens.
#[tactic(auto, unfolding(mojom_ast::specs::Grammar::attributes, mojom_ast::specs::Grammar::bracketed))]
pub fn attributes(
    alloc: Global,
    tokens: &[Token],
) -> Result<(Items<Attribute>, &[Token]), ReadError>
    ensures { Gives (λ x. (x.0, x.1.now)) result (attributes.read tokens.now) }
{
    if !is_symbol(tokens, Symbol::OpenBracket) {
        return Ok((Items::new(alloc), tokens));
    }
    let (_, rest) = symbol(tokens, Symbol::OpenBracket)?;
    let (attributes, rest) = list(alloc, rest)?;
    let (_, rest) = symbol(rest, Symbol::CloseBracket)?;
    Ok((Items::from_vec(attributes), rest))
}
