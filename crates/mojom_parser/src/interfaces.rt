//! Interfaces.

ghost use Rattle.std.specs.Prelude.{◌≡◌};
ghost use Rattle.mj_base.specs.declared.limits.TheConstants.{MAX_NESTED_TYPES};
ghost use Rattle.mojom_ast.specs.Lang.{front_in, maybe};
ghost use Rattle.mojom_ast.specs.Grammar.{parameter, next_parameter, parameters, response, method, interface_item, interface_member, interface_of};
ghost use Rattle.mojom_parser.specs.steps.Reading.{Gives, parameter_list};
ghost use Rattle.mojom_parser.specs.steps.NotNull.{next_parameter_not_null, interface_member_not_null};

use crate::attributes::attributes;
use crate::constants::{const_of, enum_of};
use crate::error::ReadError;
use crate::lists::{Listed, at_most, many};
use crate::tokens::{identifier, is_identifier, is_keyword, is_symbol, keyword, symbol};
use crate::types::{begins_type, type_of};
use crate::values::ordinal;
use mj_base::Items;
use mj_base::limits::MAX_NESTED_TYPES;
use mojom_ast::{
    Interface, InterfaceItem, InterfaceMember, Keyword, Method, Parameter, Symbol, Token,
};
use std::alloc::Global;

/// A parameter, and the attributes before it.
#[tactic(auto, unfolding(mojom_ast::specs::Grammar::parameter))]
fn parameter(alloc: Global, tokens: &[Token]) -> Result<(Parameter, &[Token]), ReadError>
    ensures { Gives (λ x. (x.0, x.1.now)) result ((parameter MAX_NESTED_TYPES).read tokens.now) }
{
    let (attributes, rest) = attributes(alloc, tokens)?;
    let (kind, rest) = type_of(alloc, rest)?;
    let (name, rest) = identifier(alloc, rest)?;
    let (ordinal, rest) = ordinal(rest)?;
    Ok((
        Parameter {
            attributes,
            kind,
            name,
            ordinal,
        },
        rest,
    ))
}

/// A parameter behind others, with its comma.
impl Listed for Parameter {
    ghost rule = { next_parameter MAX_NESTED_TYPES };

    ghost not_null = { next_parameter_not_null };

    #[tactic(auto, unfolding(mojom_ast::specs::Grammar::next_parameter))]
    fn begins(tokens: &[Token]) -> bool {
        is_symbol(tokens, Symbol::Comma)
    }

    #[tactic(auto, unfolding(mojom_ast::specs::Grammar::next_parameter))]
    fn read(alloc: Global, tokens: &[Token]) -> Result<(Parameter, &[Token]), ReadError> {
        let (_, rest) = symbol(tokens, Symbol::Comma)?;
        parameter(alloc, rest)
    }
}

/// Whether the next token begins a parameter.
#[tactic(auto, using(crate::proofs::Starts::parameter_begins))]
fn begins_parameter(tokens: &[Token]) -> bool
    ensures { result ≡ front_in (parameter MAX_NESTED_TYPES).starts tokens.now }
{
    is_symbol(tokens, Symbol::OpenBracket) || begins_type(tokens)
}

/// What stands between the parentheses of a parameter list.
fn parameter_list(alloc: Global, tokens: &[Token]) -> Result<(Vec<Parameter>, &[Token]), ReadError>
    ensures { Gives (λ x. (x.0.items, x.1.now)) result (parameter_list.read tokens.now) }
{
    let mut parameters = Vec::new(alloc);
    if !begins_parameter(tokens) {
        return Ok((parameters, tokens));
    }
    let (first, rest) = parameter(alloc, tokens)?;
    parameters.push(first)?;
    at_most(alloc, rest.len(), parameters, rest)
}

/// A parameter list, with its parentheses.
#[tactic(auto, unfolding(mojom_ast::specs::Grammar::parameters))]
fn parameters(alloc: Global, tokens: &[Token]) -> Result<(Items<Parameter>, &[Token]), ReadError>
    ensures { Gives (λ x. (x.0, x.1.now)) result ((parameters MAX_NESTED_TYPES).read tokens.now) }
{
    let (_, rest) = symbol(tokens, Symbol::OpenParen)?;
    let (parameters, rest) = parameter_list(alloc, rest)?;
    let (_, rest) = symbol(rest, Symbol::CloseParen)?;
    Ok((Items::from_vec(parameters), rest))
}

/// `=>` and a parameter list, where they stand.
#[tactic(auto, unfolding(mojom_ast::specs::Grammar::response))]
fn response(
    alloc: Global,
    tokens: &[Token],
) -> Result<(Option<Items<Parameter>>, &[Token]), ReadError>
    ensures { Gives (λ x. (x.0, x.1.now)) result ((maybe (response MAX_NESTED_TYPES)).read tokens.now) }
{
    if !is_symbol(tokens, Symbol::Arrow) {
        return Ok((None, tokens));
    }
    let (_, rest) = symbol(tokens, Symbol::Arrow)?;
    let (parameters, rest) = parameters(alloc, rest)?;
    Ok((Some(parameters), rest))
}

/// A method, without the attributes before it.
#[tactic(auto, unfolding(mojom_ast::specs::Grammar::method))]
fn method(alloc: Global, tokens: &[Token]) -> Result<(Method, &[Token]), ReadError>
    ensures { Gives (λ x. (x.0, x.1.now)) result ((method MAX_NESTED_TYPES).read tokens.now) }
{
    let (name, rest) = identifier(alloc, tokens)?;
    let (ordinal, rest) = ordinal(rest)?;
    let (request, rest) = parameters(alloc, rest)?;
    let (response, rest) = response(alloc, rest)?;
    let (_, rest) = symbol(rest, Symbol::Semicolon)?;
    Ok((
        Method {
            name,
            ordinal,
            request,
            response,
        },
        rest,
    ))
}

/// What stands in an interface behind its attributes.
#[tactic(auto, unfolding(mojom_ast::specs::Grammar::interface_item, mojom_ast::specs::Grammar::const_of, mojom_ast::specs::Grammar::enum_of))]
fn interface_item(alloc: Global, tokens: &[Token]) -> Result<(InterfaceItem, &[Token]), ReadError>
    ensures { Gives (λ x. (x.0, x.1.now)) result ((interface_item MAX_NESTED_TYPES).read tokens.now) }
{
    if is_keyword(tokens, Keyword::Const) {
        let (item, rest) = const_of(alloc, tokens)?;
        return Ok((InterfaceItem::Const(item), rest));
    }
    if is_keyword(tokens, Keyword::Enum) {
        let (item, rest) = enum_of(alloc, tokens)?;
        return Ok((InterfaceItem::Enum(item), rest));
    }
    let (item, rest) = method(alloc, tokens)?;
    Ok((InterfaceItem::Method(item), rest))
}

impl Listed for InterfaceMember {
    ghost rule = { interface_member MAX_NESTED_TYPES };

    ghost not_null = { interface_member_not_null };

    #[tactic(auto, using(crate::proofs::Starts::interface_member_begins))]
    fn begins(tokens: &[Token]) -> bool {
        is_symbol(tokens, Symbol::OpenBracket)
            || is_keyword(tokens, Keyword::Const)
            || is_keyword(tokens, Keyword::Enum)
            || is_identifier(tokens)
    }

    #[tactic(auto, unfolding(mojom_ast::specs::Grammar::interface_member))]
    fn read(alloc: Global, tokens: &[Token]) -> Result<(InterfaceMember, &[Token]), ReadError> {
        let (attributes, rest) = attributes(alloc, tokens)?;
        let (item, rest) = interface_item(alloc, rest)?;
        Ok((InterfaceMember { attributes, item }, rest))
    }
}

/// An interface.
#[tactic(auto, unfolding(mojom_ast::specs::Grammar::interface_of))]
pub fn interface_of(alloc: Global, tokens: &[Token]) -> Result<(Interface, &[Token]), ReadError>
    ensures { Gives (λ x. (x.0, x.1.now)) result ((interface_of MAX_NESTED_TYPES).read tokens.now) }
{
    let (_, rest) = keyword(tokens, Keyword::Interface)?;
    let (name, rest) = identifier(alloc, rest)?;
    let (_, rest) = symbol(rest, Symbol::OpenBrace)?;
    let (members, rest) = many(alloc, rest)?;
    let (_, rest) = symbol(rest, Symbol::CloseBrace)?;
    let (_, rest) = symbol(rest, Symbol::Semicolon)?;
    Ok((
        Interface {
            name,
            members: Items::from_vec(members),
        },
        rest,
    ))
}
