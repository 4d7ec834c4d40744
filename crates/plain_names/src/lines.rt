//! What the lines of a script ask.

ghost use Rattle.std.specs.Prelude.{◌≡◌, IfOk, OnOk, Some, is_some};
ghost use Rattle.mj_schema.specs.declared.schema.Schema.{Schema};
ghost use Rattle.call_script.specs.Sound.{IsReadWith};
ghost use Rattle.script_names.specs.Asking.{all_held, asked_by};
ghost use Rattle.script_names.specs.Held.{held_at};
ghost use Rattle.script_names.specs.Names.{has_name};
ghost use Rattle.script_names.specs.Needs.{AreNames};
ghost use Rattle.script_names.specs.steps.Lines.{associated, attached, bound, flowing, noticed, paused, shut, shut_at, taken};
ghost use Rattle.wire_encoder.specs.Prepared.{IsPrepared};
ghost use Rattle.plain_names.specs.Commands.{IsFor, asked_in};
ghost use Rattle.plain_names.specs.Held.{SameNames, named_in};
ghost use Rattle.plain_names.specs.steps.Sending.{answered_with, both_of, called_with, written_from, written_with};

use crate::commands::PlainCommand;
use crate::named::PlainNames;
use bind_model::{Closing, Flow, Notice};
use call_script::{Command as Asked, Line, NameId};
use core_sending::carried::CarriedNames;
use handle_table::Thing;
use mj_base::{EndId, Items, SeqId};
use script_names::{Names, copy_prepared};
use std::alloc::{AllocError, Global};
use wire_encoder::{EndpointSide, Prepared};

/// To bind what is held under a name; else nothing, which is noted.
fn bind(
    names: &PlainNames,
    number: u32,
    name: NameId,
    side: EndpointSide,
    interface: u32,
) -> PlainCommand
    ensures asked { asked_in result ≡ bound number side interface (held_at names.now.handles.items.items name) }
    ensures plain { (schema : Schema) → IsFor schema result }
{
    match names.handles.get(name) {
        Some(thing) => PlainCommand::Bind(thing, side, interface),
        None => PlainCommand::Skip(number),
    }
}

/// To make an endpoint of an end, where that is one; else nothing, which is noted.
fn associate(number: u32, end: Option<EndId>, side: EndpointSide, interface: u32) -> PlainCommand
    ensures asked { asked_in result ≡ associated number side interface end }
    ensures plain { (schema : Schema) → IsFor schema result }
{
    match end {
        Some(end) => PlainCommand::Associate(end, side, interface),
        None => PlainCommand::Skip(number),
    }
}

/// To attach the pending that is held under a name; else nothing, which is noted.
fn attach(names: &PlainNames, number: u32, name: NameId, seq: SeqId) -> PlainCommand
    ensures asked { asked_in result ≡ attached number seq (held_at names.now.pendings.items.items name) }
    ensures plain { (schema : Schema) → IsFor schema result }
{
    match names.pendings.get(name) {
        Some(pending) => PlainCommand::Attach(pending, seq),
        None => PlainCommand::Skip(number),
    }
}

/// To take at an end, where that is one; else nothing, which is noted.
fn take(number: u32, end: Option<EndId>) -> PlainCommand
    ensures asked { asked_in result ≡ taken number end }
    ensures plain { (schema : Schema) → IsFor schema result }
{
    match end {
        Some(end) => PlainCommand::Take(end),
        None => PlainCommand::Skip(number),
    }
}

/// To close what is held under a name: a thing, a pending or a right to answer; else nothing, which is
/// noted.
fn close(names: &PlainNames, number: u32, name: NameId) -> PlainCommand
    ensures asked { asked_in result ≡ shut number (held_at names.now.handles.items.items name)
        (held_at names.now.pendings.items.items name) (held_at names.now.responders.items.items name) }
    ensures plain { (schema : Schema) → IsFor schema result }
{
    if let Some(thing) = names.handles.get(name) {
        return PlainCommand::Close(Closing::Handle(thing));
    }
    if let Some(pending) = names.pendings.get(name) {
        return PlainCommand::Close(Closing::Pending(pending));
    }
    match names.responders.get(name) {
        Some(responder) => PlainCommand::Close(Closing::Responder(responder)),
        None => PlainCommand::Skip(number),
    }
}

/// To close the endpoint of an id at an end, where that is one; else nothing, which is noted.
fn close_endpoint(number: u32, end: Option<EndId>, id: u32) -> PlainCommand
    ensures asked { asked_in result ≡ shut_at number id end }
    ensures plain { (schema : Schema) → IsFor schema result }
{
    match end {
        Some(end) => PlainCommand::Close(Closing::Endpoint(end, id)),
        None => PlainCommand::Skip(number),
    }
}

/// To write a control from an end, where that is one; else nothing, which is noted.
fn notify(number: u32, end: Option<EndId>, notice: Notice) -> PlainCommand
    ensures asked { asked_in result ≡ noticed number notice end }
    ensures plain { (schema : Schema) → IsFor schema result }
{
    match end {
        Some(end) => PlainCommand::Notify(end, notice),
        None => PlainCommand::Skip(number),
    }
}

/// To take nothing at an end until another has consumed a flush, where both are ends; else nothing, which
/// is noted.
fn pause(number: u32, end: Option<EndId>, other: Option<EndId>, flush: u32) -> PlainCommand
    ensures asked { asked_in result ≡ paused number flush end other }
    ensures plain { (schema : Schema) → IsFor schema result }
{
    match end {
        Some(end) => match other {
            Some(other) => PlainCommand::Pause(end, other, flush),
            None => PlainCommand::Skip(number),
        },
        None => PlainCommand::Skip(number),
    }
}

/// To move bytes at the token that is held under a name; else nothing, which is noted.
fn flow(
    names: &PlainNames,
    alloc: Global,
    number: u32,
    name: NameId,
    moved: &Flow,
) -> Result<PlainCommand, AllocError>
    ensures asked { IfOk result (λ command. asked_in command ≡ flowing number moved.now (held_at names.now.handles.items.items name)) }
    ensures plain { IfOk result (λ command. (schema : Schema) → IsFor schema command) }
{
    let copy = moved.copy(alloc)?;
    match names.handles.get(name) {
        Some(thing) => Ok(PlainCommand::Flow(thing, copy)),
        None => Ok(PlainCommand::Skip(number)),
    }
}

/// These things with the pendings that a line's list names; none where one of them isn't held.
fn with_things(
    names: &mut PlainNames,
    alloc: Global,
    lists: &Names,
    things: Items<Thing>,
) -> Result<Option<CarriedNames>, AllocError>
    ensures carried { IfOk result (λ found. found
        ≡ both_of (Some things) (all_held (held_at names.old.pendings.items.items) lists.now.pendings.items)) }
    ensures same { OnOk result (SameNames names.old names.new) }
{
    match names.pendings.all(alloc, lists.pendings.as_slice())? {
        Some(pendings) => Ok(Some(CarriedNames {
            things,
            pendings: Items::from_vec(pendings),
        })),
        None => Ok(None),
    }
}

/// The things and the pendings that a line's list names; none where one of them isn't held.
fn carried(
    names: &mut PlainNames,
    alloc: Global,
    lists: &Names,
) -> Result<Option<CarriedNames>, AllocError>
    ensures carried { IfOk result (λ found. found ≡ both_of (all_held (held_at names.old.handles.items.items) lists.now.handles.items)
        (all_held (held_at names.old.pendings.items.items) lists.now.pendings.items)) }
    ensures same { OnOk result (SameNames names.old names.new) }
{
    match names.handles.all(alloc, lists.handles.as_slice())? {
        Some(things) => with_things(names, alloc, lists, Items::from_vec(things)),
        None => Ok(None),
    }
}

/// A call from an end, where that is one, with what is held under names, at a moment; else nothing, which is
/// noted.
fn call(
    names: &mut PlainNames,
    alloc: Global,
    lists: &Names,
    number: u32,
    end: Option<EndId>,
    id: u32,
    prepared: &Prepared,
    moment: Option<i64>,
) -> Result<PlainCommand, AllocError>
    ensures asked { IfOk result (λ command. asked_in command ≡ called_with number end id prepared.now moment
        (both_of (all_held (held_at names.old.handles.items.items) lists.now.handles.items)
        (all_held (held_at names.old.pendings.items.items) lists.now.pendings.items))) }
    ensures same { OnOk result (SameNames names.old names.new) }
    ensures prepared { IfOk result (λ command. (schema : Schema) → IsPrepared schema prepared.now → IsFor schema command) }
{
    let Some(end) = end else {
        return Ok(PlainCommand::Skip(number));
    };
    let prepared = copy_prepared(alloc, prepared)?;
    match carried(names, alloc, lists)? {
        Some(carried) => Ok(PlainCommand::Call(end, id, prepared, carried, moment)),
        None => Ok(PlainCommand::Skip(number)),
    }
}

/// The answer by the right that is held under a name, where one is, with what is held under others, at a
/// moment; else nothing, which is noted.
fn answer(
    names: &mut PlainNames,
    alloc: Global,
    lists: &Names,
    number: u32,
    name: NameId,
    prepared: &Prepared,
    moment: Option<i64>,
) -> Result<PlainCommand, AllocError>
    ensures asked { IfOk result (λ command. asked_in command
        ≡ answered_with number (held_at names.old.responders.items.items name) prepared.now moment
        (both_of (all_held (held_at names.old.handles.items.items) lists.now.handles.items)
        (all_held (held_at names.old.pendings.items.items) lists.now.pendings.items))) }
    ensures same { OnOk result (SameNames names.old names.new) }
    ensures prepared { IfOk result (λ command. (schema : Schema) → IsPrepared schema prepared.now → IsFor schema command) }
{
    let Some(responder) = names.responders.get(name) else {
        return Ok(PlainCommand::Skip(number));
    };
    let prepared = copy_prepared(alloc, prepared)?;
    match carried(names, alloc, lists)? {
        Some(carried) => Ok(PlainCommand::Answer(responder, prepared, carried, moment)),
        None => Ok(PlainCommand::Skip(number)),
    }
}

/// Whether a name stands in a list.
fn has_name(names: &[NameId], name: NameId) -> bool
    ensures { result ≡ has_name names.now name }
{
    for other in names {
        if other.0 == name.0 {
            return true;
        }
    }
    false
}

/// To write bytes from a thing, with what is held under names; else nothing, which is noted.
fn write(
    names: &mut PlainNames,
    alloc: Global,
    list: &[NameId],
    number: u32,
    thing: Thing,
    bytes: &Items<u8>,
) -> Result<PlainCommand, AllocError>
    ensures asked { IfOk result (λ command. asked_in command
        ≡ written_from number thing bytes.now (all_held (held_at names.old.handles.items.items) list.now)) }
    ensures same { OnOk result (SameNames names.old names.new) }
    ensures plain { IfOk result (λ command. (schema : Schema) → IsFor schema command) }
{
    let bytes = bytes.copy(alloc)?;
    match names.handles.all(alloc, list)? {
        Some(things) => Ok(PlainCommand::Raw(thing, bytes, Items::from_vec(things))),
        None => Ok(PlainCommand::Skip(number)),
    }
}

/// To write bytes from what is held under a name, with what is held under others; else nothing, which is
/// noted.
fn raw(
    names: &mut PlainNames,
    alloc: Global,
    lists: &Names,
    number: u32,
    name: NameId,
    bytes: &Items<u8>,
) -> Result<PlainCommand, AllocError>
    ensures asked { IfOk result (λ command. asked_in command
        ≡ written_with number name bytes.now (held_at names.old.handles.items.items) lists.now.handles.items) }
    ensures same { OnOk result (SameNames names.old names.new) }
    ensures plain { IfOk result (λ command. (schema : Schema) → IsFor schema command) }
{
    let list = lists.handles.as_slice();
    if has_name(list, name) {
        return Ok(PlainCommand::Skip(number));
    }
    match names.handles.get(name) {
        Some(thing) => write(names, alloc, list, number, thing, bytes),
        None => Ok(PlainCommand::Skip(number)),
    }
}

/// The command of a line, with the names of what it needs, which stays where it is held.
pub fn command_of(
    names: &mut PlainNames,
    alloc: Global,
    lists: &Names,
    line: &Line,
) -> Result<PlainCommand, AllocError>
    requires { AreNames (λ n. is_some (held_at names.old.stands.things.items n)) line.now.command lists.now }
    ensures asked { IfOk result (λ command. asked_in command ≡ asked_by (named_in names.old) line.now) }
    ensures same { OnOk result (SameNames names.old names.new) }
    ensures prepared { IfOk result (λ command. (schema : Schema) → IsReadWith schema line.now.command → IsFor schema command) }
{
    let number = line.number;
    match &line.command {
        Asked::Join(other, _, _) => Ok(PlainCommand::Join(*other)),
        Asked::Pipe(_, _) => Ok(PlainCommand::Pipe),
        Asked::Mint(sort, _) => Ok(PlainCommand::Mint(*sort)),
        Asked::Bind(name, side, interface) => { Ok(bind(names, number, *name, *side, *interface)) }
        Asked::Associate(name, side, interface, _) => {
            Ok(associate(number, names.stands.end(*name), *side, *interface))
        }
        Asked::Attach(name, seq) => Ok(attach(names, number, *name, *seq)),
        Asked::Call(name, id, prepared, _, moment) => {
            let end = names.stands.end(*name);
            call(names, alloc, lists, number, end, *id, prepared, *moment)
        }
        Asked::Take(name, _) => Ok(take(number, names.stands.end(*name))),
        Asked::Answer(name, prepared, _, moment) => {
            answer(names, alloc, lists, number, *name, prepared, *moment)
        }
        Asked::Raw(name, bytes, _) => raw(names, alloc, lists, number, *name, bytes),
        Asked::CloseToken(name) => Ok(close(names, number, *name)),
        Asked::CloseEndpoint(name, id) => Ok(close_endpoint(number, names.stands.end(*name), *id)),
        Asked::Notify(name, notice) => Ok(notify(number, names.stands.end(*name), *notice)),
        Asked::Pause(name, other, flush) => {
            let end = names.stands.end(*name);
            Ok(pause(number, end, names.stands.end(*other), *flush))
        }
        Asked::Data(size, _, _) => Ok(PlainCommand::Data(*size)),
        Asked::Flow(name, moved) => flow(names, alloc, number, *name, moved),
    }
}
