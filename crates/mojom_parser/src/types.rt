//! Types.

ghost use Rattle.std.specs.Prelude.{◌≡◌, is_some};
ghost use Rattle.mojom_ast.specs.TypeTrees.{TypeTree, base_view, type_view};
ghost use Rattle.mojom_ast.specs.Lang.{as_value, maybe, symbol, deep, front_in};
ghost use Rattle.mojom_ast.specs.Grammar.{handle_sort, sort_given, handle, pending_sort, pending, count, array, map_of, base, type_starts, type_within};
ghost use Rattle.mojom_ast.specs.declared.token.Symbol.TheVariants.{Question};
ghost use Rattle.mojom_parser.specs.steps.Reading.{Gives, Fails};

use crate::error::ReadError;
use crate::tokens::{
    expect_as, is_identifier, is_keyword, is_next, is_symbol, keyword, number, symbol,
};
use crate::values::name;
use mj_base::limits::MAX_NESTED_TYPES;
use mojom_ast::{
    BaseNode, Fault, HandleSort, Keyword, Number, PendingSort, Symbol, Token, Type, TypeNode,
    classes,
};
use std::alloc::Global;

/// `,` and a number, where they stand.
#[tactic(auto, unfolding(mojom_ast::specs::Grammar::count))]
fn count(tokens: &[Token]) -> Result<(Option<Number>, &[Token]), ReadError>
    ensures { Gives (λ x. (x.0, x.1.now)) result ((maybe count).read tokens.now) }
{
    if !is_symbol(tokens, Symbol::Comma) {
        return Ok((None, tokens));
    }
    let (_, rest) = symbol(tokens, Symbol::Comma)?;
    let (n, rest) = number(rest)?;
    Ok((Some(n), rest))
}

/// Whether `?` stands next, and the tokens after it.
fn question(tokens: &[Token]) -> Result<(bool, &[Token]), ReadError>
    ensures { Gives (λ x. (x.0, x.1.now)) result ((as_value is_some (maybe (symbol Question))).read tokens.now) }
{
    if !is_symbol(tokens, Symbol::Question) {
        return Ok((false, tokens));
    }
    let (_, rest) = symbol(tokens, Symbol::Question)?;
    Ok((true, rest))
}

/// An array.
#[cycle(kind)]
#[tactic(auto, unfolding(mojom_ast::specs::Grammar::array))]
fn array(alloc: Global, left: u32, tokens: &[Token]) -> Result<(BaseNode, &[Token]), ReadError>
    ensures { Gives (λ x. (base_view x.0, x.1.now)) result ((array (type_within left)).read tokens.now) }
{
    let (_, rest) = keyword(tokens, Keyword::Array)?;
    let (_, rest) = symbol(rest, Symbol::Less)?;
    let (of, rest) = node(alloc, left, rest)?;
    let (count, rest) = count(rest)?;
    let (_, rest) = symbol(rest, Symbol::Greater)?;
    Ok((
        BaseNode::Array {
            of: Box::new(alloc, of)?,
            count,
        },
        rest,
    ))
}

/// A map.
#[cycle(kind)]
#[tactic(auto, unfolding(mojom_ast::specs::Grammar::map_of))]
fn map_of(alloc: Global, left: u32, tokens: &[Token]) -> Result<(BaseNode, &[Token]), ReadError>
    ensures { Gives (λ x. (base_view x.0, x.1.now)) result ((map_of (type_within left)).read tokens.now) }
{
    let (_, rest) = keyword(tokens, Keyword::Map)?;
    let (_, rest) = symbol(rest, Symbol::Less)?;
    let (key, rest) = node(alloc, left, rest)?;
    let (_, rest) = symbol(rest, Symbol::Comma)?;
    let (value, rest) = node(alloc, left, rest)?;
    let (_, rest) = symbol(rest, Symbol::Greater)?;
    Ok((
        BaseNode::Map {
            key: Box::new(alloc, key)?,
            value: Box::new(alloc, value)?,
        },
        rest,
    ))
}

/// The sort of a handle.
#[tactic(auto, unfolding(mojom_ast::specs::Grammar::handle_sort))]
fn handle_sort(tokens: &[Token]) -> Result<(HandleSort, &[Token]), ReadError>
    ensures { Gives (λ x. (x.0, x.1.now)) result (handle_sort.read tokens.now) }
{
    if is_next(tokens, classes::MESSAGE_PIPE) {
        return expect_as(tokens, classes::MESSAGE_PIPE, HandleSort::MessagePipe);
    }
    if is_next(tokens, classes::DATA_PIPE_CONSUMER) {
        return expect_as(
            tokens,
            classes::DATA_PIPE_CONSUMER,
            HandleSort::DataPipeConsumer,
        );
    }
    if is_next(tokens, classes::DATA_PIPE_PRODUCER) {
        return expect_as(
            tokens,
            classes::DATA_PIPE_PRODUCER,
            HandleSort::DataPipeProducer,
        );
    }
    if is_next(tokens, classes::SHARED_BUFFER) {
        return expect_as(tokens, classes::SHARED_BUFFER, HandleSort::SharedBuffer);
    }
    expect_as(tokens, classes::PLATFORM, HandleSort::Platform)
}

/// A sort of handles between angle brackets, where it stands.
#[tactic(auto, unfolding(mojom_ast::specs::Grammar::sort_given))]
fn sort_given(tokens: &[Token]) -> Result<(Option<HandleSort>, &[Token]), ReadError>
    ensures { Gives (λ x. (x.0, x.1.now)) result ((maybe sort_given).read tokens.now) }
{
    if !is_symbol(tokens, Symbol::Less) {
        return Ok((None, tokens));
    }
    let (_, rest) = symbol(tokens, Symbol::Less)?;
    let (sort, rest) = handle_sort(rest)?;
    let (_, rest) = symbol(rest, Symbol::Greater)?;
    Ok((Some(sort), rest))
}

/// A handle.
#[tactic(auto, unfolding(mojom_ast::specs::Grammar::handle))]
fn handle(tokens: &[Token]) -> Result<(BaseNode, &[Token]), ReadError>
    ensures { Gives (λ x. (base_view x.0, x.1.now)) result (handle.read tokens.now) }
{
    let (_, rest) = keyword(tokens, Keyword::Handle)?;
    let (sort, rest) = sort_given(rest)?;
    Ok((BaseNode::Handle(sort), rest))
}

/// One of the four keywords for an end of an interface.
#[tactic(auto, unfolding(mojom_ast::specs::Grammar::pending_sort))]
fn pending_sort(tokens: &[Token]) -> Result<(PendingSort, &[Token]), ReadError>
    ensures { Gives (λ x. (x.0, x.1.now)) result (pending_sort.read tokens.now) }
{
    if is_keyword(tokens, Keyword::PendingRemote) {
        return expect_as(tokens, Keyword::PendingRemote.class(), PendingSort::Remote);
    }
    if is_keyword(tokens, Keyword::PendingReceiver) {
        return expect_as(
            tokens,
            Keyword::PendingReceiver.class(),
            PendingSort::Receiver,
        );
    }
    if is_keyword(tokens, Keyword::PendingAssociatedRemote) {
        return expect_as(
            tokens,
            Keyword::PendingAssociatedRemote.class(),
            PendingSort::AssociatedRemote,
        );
    }
    expect_as(
        tokens,
        Keyword::PendingAssociatedReceiver.class(),
        PendingSort::AssociatedReceiver,
    )
}

/// An end of an interface.
#[tactic(auto, unfolding(mojom_ast::specs::Grammar::pending))]
fn pending(alloc: Global, tokens: &[Token]) -> Result<(BaseNode, &[Token]), ReadError>
    ensures { Gives (λ x. (base_view x.0, x.1.now)) result (pending.read tokens.now) }
{
    let (sort, rest) = pending_sort(tokens)?;
    let (_, rest) = symbol(rest, Symbol::Less)?;
    let (interface, rest) = name(alloc, rest)?;
    let (_, rest) = symbol(rest, Symbol::Greater)?;
    Ok((BaseNode::Pending { sort, interface }, rest))
}

/// Whether the next token is one of the four keywords for an end of an interface.
#[tactic(auto, using(crate::proofs::Starts::pending_begins))]
fn begins_pending(tokens: &[Token]) -> bool
    ensures { result ≡ front_in pending.starts tokens.now }
{
    is_keyword(tokens, Keyword::PendingRemote)
        || is_keyword(tokens, Keyword::PendingReceiver)
        || is_keyword(tokens, Keyword::PendingAssociatedRemote)
        || is_keyword(tokens, Keyword::PendingAssociatedReceiver)
}

/// A type without its `?`.
#[cycle(kind)]
#[tactic(auto, using(crate::proofs::Starts::bases), unfolding(mojom_ast::specs::Grammar::base))]
fn base(alloc: Global, left: u32, tokens: &[Token]) -> Result<(BaseNode, &[Token]), ReadError>
    ensures { Gives (λ x. (base_view x.0, x.1.now)) result ((base (type_within left)).read tokens.now) }
{
    if is_keyword(tokens, Keyword::Array) {
        return array(alloc, left, tokens);
    }
    if is_keyword(tokens, Keyword::Map) {
        return map_of(alloc, left, tokens);
    }
    if is_keyword(tokens, Keyword::Handle) {
        return handle(tokens);
    }
    if begins_pending(tokens) {
        return pending(alloc, tokens);
    }
    let (name, rest) = name(alloc, tokens)?;
    Ok((BaseNode::Name(name), rest))
}

/// A type that may hold so many levels of types, itself among them.
#[cycle(kind)]
#[tactic(auto, unfolding(mojom_ast::specs::Grammar::type_at))]
fn node(alloc: Global, left: u32, tokens: &[Token]) -> Result<(TypeNode, &[Token]), ReadError>
    ensures { Gives (λ x. (type_view x.0, x.1.now)) result ((type_within left).read tokens.now) }
{
    if left == 0 {
        return Err(too_deep(tokens));
    }
    let (base, rest) = base(alloc, left - 1, tokens)?;
    let (nullable, rest) = question(rest)?;
    Ok((TypeNode { base, nullable }, rest))
}

/// Whether the next token begins a type.
#[tactic(auto, using(crate::proofs::Starts::type_begins))]
pub fn begins_type(tokens: &[Token]) -> bool
    ensures { result ≡ front_in type_starts tokens.now }
{
    is_keyword(tokens, Keyword::Array)
        || is_keyword(tokens, Keyword::Map)
        || is_keyword(tokens, Keyword::Handle)
        || begins_pending(tokens)
        || is_identifier(tokens)
}

/// Why nothing is read where no level of types is left.
fn too_deep(tokens: &[Token]) -> ReadError
    ensures { Fails result ((deep {A = TypeTree} type_starts).read tokens.now) }
{
    if begins_type(tokens) {
        ReadError::Fault(Fault::TooNested(tokens.len()))
    } else {
        ReadError::Fault(Fault::Unexpected(tokens.len()))
    }
}

/// A type, and the tokens after it.
pub fn type_of(alloc: Global, tokens: &[Token]) -> Result<(Type, &[Token]), ReadError>
    ensures { Gives (λ x. (x.0, x.1.now)) result ((type_within MAX_NESTED_TYPES).read tokens.now) }
{
    let (node, rest) = node(alloc, MAX_NESTED_TYPES, tokens)?;
    Ok((Type::new(node), rest))
}
