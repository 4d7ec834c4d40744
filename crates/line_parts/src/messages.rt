//! Messages: the method, the parameters, and what goes with them.

ghost use Rattle.std.specs.Prelude.{◌≡◌, IfOk};
ghost use Rattle.wire_model.specs.Trees.{view};
ghost use Rattle.byte_rules.specs.Reading.{Gives};
ghost use Rattle.line_parts.specs.Messages.{value_and_blank, parameters_of, message, outgoing, outgoing_of};

use crate::items::{Listed, tokens};
use crate::names::{Message, Names, named};
use bind_model::{Boxed, KeptParameters, Outgoing};
use byte_rules::{Stop, expect};
use mj_base::Items;
use mj_schema::{Kind, KindNode, Schema};
use std::alloc::{AllocError, Global};
use value_text::{TextError, read_value};
use wire_model::{MessageSide, Target, Value};

/// A value of the kind and a blank, and the bytes after them.
#[tactic(auto, using(crate::proofs::BlankReads::nothing))]
fn value_and_blank<'a>(
    alloc: Global,
    schema: &Schema,
    kind: &Kind,
    bytes: &'a [u8],
) -> Result<(Value, &'a [u8]), Stop>
    ensures { Gives (λ x. (view x.0, x.1.now)) result ((value_and_blank schema.now kind.now).read bytes.now) }
{
    // The first reading says how far the value's text goes.
    let at = match read_value(alloc, schema, kind, bytes) {
        Ok(_) => return Err(Stop::Left(0)),
        Err(TextError::BadText { at }) => at as usize,
        Err(TextError::Memory) => return Err(Stop::Memory),
    };
    let (text, rest) = (&bytes[..at], &bytes[at..]);
    let after = expect(rest, b' ')?;
    match read_value(alloc, schema, kind, text) {
        Ok(value) => Ok((value, after)),
        Err(TextError::BadText { .. }) => Err(Stop::Left(rest.len())),
        Err(TextError::Memory) => Err(Stop::Memory),
    }
}

/// A blank, the parameters of a message with its method, and a blank, and the bytes after them.
fn parameters_of<'a>(
    alloc: Global,
    schema: &Schema,
    message: Message,
    bytes: &'a [u8],
) -> Result<(Target, KeptParameters, &'a [u8]), Stop>
    ensures { Gives (λ x. ((x.0, x.1), x.2.now)) result ((parameters_of schema.now message).read bytes.now) }
{
    let rest = expect(bytes, b' ')?;
    let kind = Kind::new(KindNode::Struct {
        number: message.parameters,
        nullable: false,
    });
    let (value, rest) = value_and_blank(alloc, schema, &kind, rest)?;
    let parameters = KeptParameters::of(alloc, &value)?;
    Ok((message.target, parameters, rest))
}

/// A message of this side: its method, its parameters and a blank, and the bytes after them.
#[tactic(auto, unfolding(crate::specs::Messages::message), using(crate::proofs::BlankReads::never_reads))]
pub fn message<'a>(
    alloc: Global,
    schema: &Schema,
    names: &Names,
    side: MessageSide,
    bytes: &'a [u8],
) -> Result<(Target, KeptParameters, &'a [u8]), Stop>
    ensures { Gives (λ x. ((x.0, x.1), x.2.now)) result ((message schema.now names.now side).read bytes.now) }
{
    let (found, rest) = named(names.messages(side), bytes)?;
    match found {
        Some(message) => parameters_of(alloc, schema, message, rest),
        None => Err(Stop::Left(rest.len())),
    }
}

/// What is sent at a moment: a message, and what goes with it.
fn sent_at(
    alloc: Global,
    target: Target,
    parameters: KeptParameters,
    tokens: Listed,
    moment: Option<i64>,
) -> Result<Boxed<Outgoing>, AllocError>
    ensures { IfOk result (λ sent. sent ≡ outgoing_of moment (target, parameters) (tokens.handles.items, tokens.pendings.items)) }
{
    let handles = Items::from_vec(tokens.handles);
    let pendings = Items::from_vec(tokens.pendings);
    let sent = Outgoing::apart(alloc, target, parameters, handles, pendings, moment)?;
    Ok(sent)
}

/// What a call or an answer sends at this moment, which stands before it, and the bytes after it.
#[tactic(auto, unfolding(crate::specs::Messages::outgoing))]
pub fn outgoing<'a>(
    alloc: Global,
    schema: &Schema,
    names: &Names,
    side: MessageSide,
    moment: Option<i64>,
    bytes: &'a [u8],
) -> Result<(Boxed<Outgoing>, &'a [u8]), Stop>
    ensures { Gives (λ x. (x.0, x.1.now)) result ((outgoing schema.now names.now side moment).read bytes.now) }
{
    let (target, parameters, rest) = message(alloc, schema, names, side, bytes)?;
    let (tokens, rest) = tokens(alloc, rest)?;
    let outgoing = sent_at(alloc, target, parameters, tokens, moment)?;
    Ok((outgoing, rest))
}
