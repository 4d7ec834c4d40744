//! What a line asks, by the names that are set.

ghost use Rattle.std.specs.Prelude.{◌≡◌, ◌<◌, ◌^◌, ◌+◌, IfOk, Some, map, true};
ghost use Rattle.std.specs.List.{range_with_len};
ghost use Rattle.wire_encoder.specs.Prepared.{parameters_of};
ghost use Rattle.call_script.specs.declared.script.NameId.{NameId};
ghost use Rattle.script_forms.specs.Forms.{Bind, Associate, Attach, Call, Take, Answer, Raw, CloseToken, CloseEndpoint, IsSaid};
ghost use Rattle.script_forms.specs.Forms.{Notify, Pause};
ghost use Rattle.script_words.specs.Letters.{is_name, are_names, is_interface_word, is_method_word, IsHexWord};
ghost use Rattle.script_forms.specs.Views.{said_view};
ghost use Rattle.call_script.specs.steps.Interfaces.{IsIndexed};
ghost use Rattle.call_script.specs.steps.Commands.{FindsAll, Named, AllNamed, StopsFor, Values, Says};

use crate::indexed_schema::{IndexedSchema, interface_named};
use crate::moving::flow_command;
use crate::name_table::{Scope, find_name};
use crate::script::{Command, NameId};
use crate::script_error::LineRefusal;
use crate::targets::{message_named, parameters_kind};
use bind_model::Notice;
use mj_base::{Items, SeqId};
use mj_schema::Schema;
use script_forms::{Said, hex_bytes};
use std::alloc::{AllocError, Global};
use value_text::{TextError, read_value};
use wire_encoder::{EndpointSide, PrepareError, Prepared, prepare};
use wire_model::{MessageSide, Target};

/// Why a line is not taken.
#[derive(Clone, Copy)]
pub(crate) enum Stop {
    Refused(LineRefusal),
    Memory,
}

/// So many numbers of names, from this one on.
fn ids_from(alloc: Global, first: usize, count: usize) -> Result<Items<NameId>, AllocError>
    requires { first + count < 2 ^ 64 }
    ensures { IfOk result (λ ids. map (λ (id : NameId). id.0) ids ≡ range_with_len first count) }
{
    let mut ids = Vec::new(alloc);
    for k in 0..count {
        ids.push(NameId(first + k))?;
    }
    Ok(Items::from_vec(ids))
}

/// The numbers of what these names mean; none where one isn't there.
fn find_all(
    alloc: Global,
    scope: &Scope,
    names: &[&[u8]],
) -> Result<Option<Items<NameId>>, AllocError>
    requires { are_names (map (λ name. name.now) names.now) ≡ true }
    ensures { IfOk result (λ found. FindsAll scope.now (map (λ name. name.now) names.now) found) }
{
    let mut ids = Vec::new(alloc);
    for name in names {
        match find_name(alloc, scope, name)? {
            Some(id) => ids.push(id)?,
            None => return Ok(None),
        }
    }
    Ok(Some(Items::from_vec(ids)))
}

/// The number of what a name means.
pub(crate) fn named(alloc: Global, scope: &Scope, name: &[u8]) -> Result<NameId, Stop>
    requires { is_name name.now ≡ true }
    ensures { Named scope.now name.now result }
{
    match find_name(alloc, scope, name) {
        Ok(Some(id)) => Ok(id),
        Ok(None) => Err(Stop::Refused(LineRefusal::UnknownName)),
        Err(_) => Err(Stop::Memory),
    }
}

/// The numbers of what these names mean.
fn all_named(alloc: Global, scope: &Scope, names: &[&[u8]]) -> Result<Items<NameId>, Stop>
    requires { are_names (map (λ name. name.now) names.now) ≡ true }
    ensures { AllNamed scope.now (map (λ name. name.now) names.now) result }
{
    let Ok(found) = find_all(alloc, scope, names) else {
        return Err(Stop::Memory);
    };
    match found {
        Some(ids) => Ok(ids),
        None => Err(Stop::Refused(LineRefusal::UnknownName)),
    }
}

/// The stop for a value that is not prepared.
fn stop_for(error: &PrepareError) -> Stop
    ensures { StopsFor error.now result }
{
    match error {
        PrepareError::Memory => Stop::Memory,
        PrepareError::Misfit { .. }
        | PrepareError::TooDeep { .. }
        | PrepareError::TooManyHandles { .. }
        | PrepareError::TooLong => Stop::Refused(LineRefusal::BadValue),
    }
}

/// The value of this word, prepared for a target whose parameters are the struct of a number.
pub(crate) fn value_of(
    alloc: Global,
    schema: &Schema,
    target: Target,
    number: u32,
    word: &[u8],
) -> Result<Prepared, Stop>
    requires { parameters_of schema.now target ≡ Some number }
    ensures { Values schema.now target number word.now result }
{
    let kind = parameters_kind(number);
    let value = match read_value(alloc, schema, &kind, word) {
        Ok(value) => value,
        Err(TextError::BadText { .. }) => return Err(Stop::Refused(LineRefusal::BadValue)),
        Err(TextError::Memory) => return Err(Stop::Memory),
    };
    match prepare(alloc, schema, target, value) {
        Ok(prepared) => Ok(prepared),
        Err((error, _value)) => Err(stop_for(&error)),
    }
}

/// What a binding asks.
fn bind_command(
    alloc: Global,
    indexed: &IndexedSchema,
    scope: &Scope,
    end: &[u8],
    side: EndpointSide,
    interface: &[u8],
) -> Result<Command, Stop>
    requires indexed { IsIndexed indexed.now }
    requires end { is_name end.now ≡ true }
    requires interface { is_interface_word interface.now ≡ true }
    ensures { Says indexed.now.schema.now scope.now (Bind end.now side interface.now) result }
{
    let Some(number) = interface_named(indexed, interface) else {
        return Err(Stop::Refused(LineRefusal::UnknownName));
    };
    let end = named(alloc, scope, end)?;
    Ok(Command::Bind(end, side, number))
}

/// What an association asks, which sets one name.
fn associate_command(
    alloc: Global,
    indexed: &IndexedSchema,
    scope: &Scope,
    end: &[u8],
    side: EndpointSide,
    interface: &[u8],
    pending: &[u8],
) -> Result<Command, Stop>
    requires indexed { IsIndexed indexed.now }
    requires end { is_name end.now ≡ true }
    requires interface { is_interface_word interface.now ≡ true }
    ensures { Says indexed.now.schema.now scope.now (Associate end.now side interface.now pending.now) result }
{
    let number = match interface_named(indexed, interface) {
        Some(number) => number,
        None => return Err(Stop::Refused(LineRefusal::UnknownName)),
    };
    let end = named(alloc, scope, end)?;
    Ok(Command::Associate(end, side, number, NameId(scope.count)))
}

/// What it asks to bind the pending endpoint of a name on another sequence.
fn attach_command(
    alloc: Global,
    schema: &Schema,
    scope: &Scope,
    pending: &[u8],
    other: u32,
) -> Result<Command, Stop>
    requires { is_name pending.now ≡ true }
    ensures { Says schema.now scope.now (Attach pending.now other) result }
{
    let pending = named(alloc, scope, pending)?;
    Ok(Command::Attach(pending, SeqId(other)))
}

/// What a call or an answer sends, as words: a method, a value, names of tokens, and a moment.
#[derive(Clone, Copy)]
struct SentWords<'w, 'a> {
    method: &'a [u8],
    value: &'a [u8],
    tokens: &'w [&'a [u8]],
    moment: Option<i64>,
}

/// What a call asks.
fn call_command(
    alloc: Global,
    indexed: &IndexedSchema,
    scope: &Scope,
    end: &[u8],
    id: u32,
    sent: &SentWords,
) -> Result<Command, Stop>
    requires indexed { IsIndexed indexed.now }
    requires end { is_name end.now ≡ true }
    requires method { is_method_word sent.now.method.now ≡ true }
    requires tokens { are_names (map (λ name. name.now) sent.now.tokens.now) ≡ true }
    ensures { Says indexed.now.schema.now scope.now (Call end.now id sent.now.method.now sent.now.value.now
        (map (λ name. name.now) sent.now.tokens.now) sent.now.moment) result }
{
    let Some((target, number)) = message_named(indexed, MessageSide::Request, sent.method) else {
        return Err(Stop::Refused(LineRefusal::UnknownName));
    };
    let end = named(alloc, scope, end)?;
    let tokens = all_named(alloc, scope, sent.tokens)?;
    let prepared = value_of(alloc, indexed.schema, target, number, sent.value)?;
    Ok(Command::Call(end, id, prepared, tokens, sent.moment))
}

/// What an answer asks.
fn answer_command(
    alloc: Global,
    indexed: &IndexedSchema,
    scope: &Scope,
    responder: &[u8],
    sent: &SentWords,
) -> Result<Command, Stop>
    requires indexed { IsIndexed indexed.now }
    requires responder { is_name responder.now ≡ true }
    requires method { is_method_word sent.now.method.now ≡ true }
    requires tokens { are_names (map (λ name. name.now) sent.now.tokens.now) ≡ true }
    ensures { Says indexed.now.schema.now scope.now (Answer responder.now sent.now.method.now sent.now.value.now
        (map (λ name. name.now) sent.now.tokens.now) sent.now.moment) result }
{
    let Some((target, number)) = message_named(indexed, MessageSide::Response, sent.method) else {
        return Err(Stop::Refused(LineRefusal::UnknownName));
    };
    let responder = named(alloc, scope, responder)?;
    let tokens = all_named(alloc, scope, sent.tokens)?;
    let prepared = value_of(alloc, indexed.schema, target, number, sent.value)?;
    Ok(Command::Answer(responder, prepared, tokens, sent.moment))
}

/// What a take asks, which sets so many names.
fn take_command(
    alloc: Global,
    schema: &Schema,
    scope: &Scope,
    end: &[u8],
    names: &[&[u8]],
) -> Result<Command, Stop>
    requires end { is_name end.now ≡ true }
    requires room { scope.now.count < 2 ^ 63 }
    ensures { Says schema.now scope.now (Take end.now (map (λ name. name.now) names.now)) result }
{
    let end = named(alloc, scope, end)?;
    match ids_from(alloc, scope.count, names.len()) {
        Ok(ids) => Ok(Command::Take(end, ids)),
        Err(_) => Err(Stop::Memory),
    }
}

/// What it asks to send bytes, with tokens.
fn raw_command(
    alloc: Global,
    schema: &Schema,
    scope: &Scope,
    end: &[u8],
    word: &[u8],
    tokens: &[&[u8]],
) -> Result<Command, Stop>
    requires end { is_name end.now ≡ true }
    requires word { IsHexWord word.now }
    requires tokens { are_names (map (λ name. name.now) tokens.now) ≡ true }
    ensures { Says schema.now scope.now (Raw end.now word.now (map (λ name. name.now) tokens.now)) result }
{
    let end = named(alloc, scope, end)?;
    let tokens = all_named(alloc, scope, tokens)?;
    match hex_bytes(alloc, word) {
        Ok(Some(bytes)) => Ok(Command::Raw(end, bytes, tokens)),
        Ok(None) => unreachable!(),
        Err(_) => Err(Stop::Memory),
    }
}

/// What is asked of the thing of this name.
fn close_command(
    alloc: Global,
    schema: &Schema,
    scope: &Scope,
    token: &[u8],
) -> Result<Command, Stop>
    requires { is_name token.now ≡ true }
    ensures { Says schema.now scope.now (CloseToken token.now) result }
{
    let token = named(alloc, scope, token)?;
    Ok(Command::CloseToken(token))
}

/// What is asked of an endpoint of the end of this name.
fn close_endpoint_command(
    alloc: Global,
    schema: &Schema,
    scope: &Scope,
    end: &[u8],
    id: u32,
) -> Result<Command, Stop>
    requires { is_name end.now ≡ true }
    ensures { Says schema.now scope.now (CloseEndpoint end.now id) result }
{
    let end = named(alloc, scope, end)?;
    Ok(Command::CloseEndpoint(end, id))
}

/// What it asks to write a control from the end of this name.
fn notify_command(
    alloc: Global,
    schema: &Schema,
    scope: &Scope,
    end: &[u8],
    notice: Notice,
) -> Result<Command, Stop>
    requires { is_name end.now ≡ true }
    ensures { Says schema.now scope.now (Notify end.now notice) result }
{
    let end = named(alloc, scope, end)?;
    Ok(Command::Notify(end, notice))
}

/// What it asks to take nothing at the end of this name until that of another has consumed a flush.
fn pause_command(
    alloc: Global,
    schema: &Schema,
    scope: &Scope,
    end: &[u8],
    other: &[u8],
    flush: u32,
) -> Result<Command, Stop>
    requires end { is_name end.now ≡ true }
    requires other { is_name other.now ≡ true }
    ensures { Says schema.now scope.now (Pause end.now other.now flush) result }
{
    let end = named(alloc, scope, end)?;
    let other = named(alloc, scope, other)?;
    Ok(Command::Pause(end, other, flush))
}

/// What is asked by what is said to a sequence.
pub(crate) fn said_command(
    alloc: Global,
    indexed: &IndexedSchema,
    scope: &Scope,
    said: &Said,
) -> Result<Command, Stop>
    requires indexed { IsIndexed indexed.now }
    requires sound { IsSaid (said_view said.now) }
    requires room { scope.now.count < 2 ^ 63 }
    ensures { Says indexed.now.schema.now scope.now (said_view said.now) result }
{
    let schema = indexed.schema;
    match said {
        Said::Pipe(_, _) => Ok(Command::Pipe(NameId(scope.count), NameId(scope.count + 1))),
        Said::Mint(sort, _) => Ok(Command::Mint(*sort, NameId(scope.count))),
        Said::Bind(end, side, interface) => {
            bind_command(alloc, indexed, scope, *end, *side, *interface)
        }
        Said::Associate(end, side, interface, pending) => {
            associate_command(alloc, indexed, scope, *end, *side, *interface, *pending)
        }
        Said::Attach(pending, other) => { attach_command(alloc, schema, scope, *pending, *other) }
        Said::Call(end, id, method, value, tokens, moment) => {
            let sent = SentWords {
                method: *method,
                value: *value,
                tokens: *tokens,
                moment: *moment,
            };
            call_command(alloc, indexed, scope, *end, *id, &sent)
        }
        Said::Take(end, names) => take_command(alloc, schema, scope, *end, *names),
        Said::Answer(responder, method, value, tokens, moment) => {
            let sent = SentWords {
                method: *method,
                value: *value,
                tokens: *tokens,
                moment: *moment,
            };
            answer_command(alloc, indexed, scope, *responder, &sent)
        }
        Said::Raw(end, word, tokens) => { raw_command(alloc, schema, scope, *end, *word, *tokens) }
        Said::CloseToken(token) => close_command(alloc, schema, scope, *token),
        Said::CloseEndpoint(end, id) => { close_endpoint_command(alloc, schema, scope, *end, *id) }
        Said::Notify(end, notice) => notify_command(alloc, schema, scope, *end, *notice),
        Said::Pause(end, other, flush) => {
            pause_command(alloc, schema, scope, *end, *other, *flush)
        }
        Said::Data(size, _, _) => {
            let consumer = NameId(scope.count + 1);
            Ok(Command::Data(*size, NameId(scope.count), consumer))
        }
        Said::Flow(token, moved) => flow_command(alloc, schema, scope, *token, moved),
    }
}
