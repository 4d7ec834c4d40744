//! Structs and unions.

ghost use Rattle.mj_base.specs.declared.limits.TheConstants.{MAX_NESTED_TYPES};
ghost use Rattle.mojom_ast.specs.Grammar.{field, struct_item, struct_member, struct_of, union_field, union_of};
ghost use Rattle.mojom_parser.specs.steps.Reading.{Gives};
ghost use Rattle.mojom_parser.specs.steps.NotNull.{struct_member_not_null, union_field_not_null};

use crate::attributes::attributes;
use crate::constants::{const_of, enum_of};
use crate::error::ReadError;
use crate::lists::{Listed, many};
use crate::tokens::{identifier, is_keyword, is_symbol, keyword, symbol};
use crate::types::{begins_type, type_of};
use crate::values::{assigned, ordinal};
use mj_base::Items;
use mj_base::limits::MAX_NESTED_TYPES;
use mojom_ast::{
    Field, Keyword, Struct, StructItem, StructMember, Symbol, Token, Union, UnionField,
};
use std::alloc::Global;

/// A field of a struct, without the attributes before it.
#[tactic(auto, unfolding(mojom_ast::specs::Grammar::field))]
fn field(alloc: Global, tokens: &[Token]) -> Result<(Field, &[Token]), ReadError>
    ensures { Gives (λ x. (x.0, x.1.now)) result ((field MAX_NESTED_TYPES).read tokens.now) }
{
    let (kind, rest) = type_of(alloc, tokens)?;
    let (name, rest) = identifier(alloc, rest)?;
    let (ordinal, rest) = ordinal(rest)?;
    let (default, rest) = assigned(alloc, rest)?;
    let (_, rest) = symbol(rest, Symbol::Semicolon)?;
    Ok((
        Field {
            kind,
            name,
            ordinal,
            default,
        },
        rest,
    ))
}

/// What stands in a struct behind its attributes.
#[tactic(auto, unfolding(mojom_ast::specs::Grammar::struct_item, mojom_ast::specs::Grammar::const_of, mojom_ast::specs::Grammar::enum_of))]
fn struct_item(alloc: Global, tokens: &[Token]) -> Result<(StructItem, &[Token]), ReadError>
    ensures { Gives (λ x. (x.0, x.1.now)) result ((struct_item MAX_NESTED_TYPES).read tokens.now) }
{
    if is_keyword(tokens, Keyword::Const) {
        let (item, rest) = const_of(alloc, tokens)?;
        return Ok((StructItem::Const(item), rest));
    }
    if is_keyword(tokens, Keyword::Enum) {
        let (item, rest) = enum_of(alloc, tokens)?;
        return Ok((StructItem::Enum(item), rest));
    }
    let (item, rest) = field(alloc, tokens)?;
    Ok((StructItem::Field(item), rest))
}

impl Listed for StructMember {
    ghost rule = { struct_member MAX_NESTED_TYPES };

    ghost not_null = { struct_member_not_null };

    #[tactic(auto, using(crate::proofs::Starts::struct_member_begins))]
    fn begins(tokens: &[Token]) -> bool {
        is_symbol(tokens, Symbol::OpenBracket)
            || is_keyword(tokens, Keyword::Const)
            || is_keyword(tokens, Keyword::Enum)
            || begins_type(tokens)
    }

    #[tactic(auto, unfolding(mojom_ast::specs::Grammar::struct_member))]
    fn read(alloc: Global, tokens: &[Token]) -> Result<(StructMember, &[Token]), ReadError> {
        let (attributes, rest) = attributes(alloc, tokens)?;
        let (item, rest) = struct_item(alloc, rest)?;
        Ok((StructMember { attributes, item }, rest))
    }
}

/// A struct.
#[tactic(auto, unfolding(mojom_ast::specs::Grammar::struct_of))]
pub fn struct_of(alloc: Global, tokens: &[Token]) -> Result<(Struct, &[Token]), ReadError>
    ensures { Gives (λ x. (x.0, x.1.now)) result ((struct_of MAX_NESTED_TYPES).read tokens.now) }
{
    let (_, rest) = keyword(tokens, Keyword::Struct)?;
    let (name, rest) = identifier(alloc, rest)?;
    let (_, rest) = symbol(rest, Symbol::OpenBrace)?;
    let (members, rest) = many(alloc, rest)?;
    let (_, rest) = symbol(rest, Symbol::CloseBrace)?;
    let (_, rest) = symbol(rest, Symbol::Semicolon)?;
    Ok((
        Struct {
            name,
            members: Items::from_vec(members),
        },
        rest,
    ))
}

impl Listed for UnionField {
    ghost rule = { union_field MAX_NESTED_TYPES };

    ghost not_null = { union_field_not_null };

    #[tactic(auto, using(crate::proofs::Starts::union_field_begins))]
    fn begins(tokens: &[Token]) -> bool {
        is_symbol(tokens, Symbol::OpenBracket) || begins_type(tokens)
    }

    #[tactic(auto, unfolding(mojom_ast::specs::Grammar::union_field))]
    fn read(alloc: Global, tokens: &[Token]) -> Result<(UnionField, &[Token]), ReadError> {
        let (attributes, rest) = attributes(alloc, tokens)?;
        let (kind, rest) = type_of(alloc, rest)?;
        let (name, rest) = identifier(alloc, rest)?;
        let (ordinal, rest) = ordinal(rest)?;
        let (_, rest) = symbol(rest, Symbol::Semicolon)?;
        Ok((
            UnionField {
                attributes,
                kind,
                name,
                ordinal,
            },
            rest,
        ))
    }
}

/// A union.
#[tactic(auto, unfolding(mojom_ast::specs::Grammar::union_of))]
pub fn union_of(alloc: Global, tokens: &[Token]) -> Result<(Union, &[Token]), ReadError>
    ensures { Gives (λ x. (x.0, x.1.now)) result ((union_of MAX_NESTED_TYPES).read tokens.now) }
{
    let (_, rest) = keyword(tokens, Keyword::Union)?;
    let (name, rest) = identifier(alloc, rest)?;
    let (_, rest) = symbol(rest, Symbol::OpenBrace)?;
    let (fields, rest) = many(alloc, rest)?;
    let (_, rest) = symbol(rest, Symbol::CloseBrace)?;
    let (_, rest) = symbol(rest, Symbol::Semicolon)?;
    Ok((
        Union {
            name,
            fields: Items::from_vec(fields),
        },
        rest,
    ))
}
