//! What the lines of a script ask.

ghost use Rattle.std.specs.Prelude.{◌≡◌, List, IfOk, Some, is_some};
ghost use Rattle.mj_schema.specs.declared.schema.Schema.{Schema};
ghost use Rattle.bind_model.specs.Plain.{asked_of, IsOf};
ghost use Rattle.call_script.specs.Sound.{IsReadWith};
ghost use Rattle.script_names.specs.Asking.{asked_by};
ghost use Rattle.script_names.specs.steps.Lines.{associated, attached, bound, flowing, noticed, paused, shut, shut_at, taken, TakesNothing};
ghost use Rattle.script_names.specs.Needs.{AreNames};
ghost use Rattle.script_names.specs.Held.{name_of, names_in};
ghost use Rattle.script_names.specs.Settling.{SpendsAs, Took, TookFor};
ghost use Rattle.script_names.specs.Held.{held_at};
ghost use Rattle.call_script.specs.declared.script.NameId.{NameId as name_id};

use crate::names::Names;
use crate::no_memory::NoMemory;
use crate::rooms::Rooms;
use crate::tokens::{answer, call, raw};
use bind_model::{Command, Flow, Notice, ToClose};
use call_script::{Command as Asked, Line, NameId};
use mj_base::{EndId, SeqId};
use std::alloc::Global;
use wire_encoder::EndpointSide;

/// To bind what is held under a name; else nothing, which is noted.
fn bind(rooms: &mut Rooms, number: u32, name: NameId, side: EndpointSide, interface: u32) -> Command
    ensures asked { asked_of result ≡ bound number side interface (held_at rooms.old.handles.named.items name) }
    ensures took { (handles pendings : List name_id) → Took (Some name) handles pendings result rooms.old rooms.new }
    ensures plain { (schema : Schema) → IsOf schema result }
{
    match rooms.handles.take(name) {
        Some(handle) => Command::Bind(handle, side, interface),
        None => Command::Skip(number),
    }
}

/// To make an endpoint of an end, where that is one; else nothing, which is noted.
fn associate(number: u32, end: Option<EndId>, side: EndpointSide, interface: u32) -> Command
    ensures asked { asked_of result ≡ associated number side interface end }
    ensures plain { (schema : Schema) → IsOf schema result }
    ensures bare { TakesNothing result }
{
    match end {
        Some(end) => Command::Associate(end, side, interface),
        None => Command::Skip(number),
    }
}

/// To attach the pending that is held under a name; else nothing, which is noted.
fn attach(rooms: &mut Rooms, number: u32, name: NameId, seq: SeqId) -> Command
    ensures asked { asked_of result ≡ attached number seq (name_of (held_at rooms.old.pendings.named.items name)) }
    ensures took { (handles pendings : List name_id) → Took (Some name) handles pendings result rooms.old rooms.new }
    ensures plain { (schema : Schema) → IsOf schema result }
{
    match rooms.pendings.take(name) {
        Some(pending) => Command::Attach(pending, seq),
        None => Command::Skip(number),
    }
}

/// To take at an end, where that is one; else nothing, which is noted.
fn take(number: u32, end: Option<EndId>) -> Command
    ensures asked { asked_of result ≡ taken number end }
    ensures plain { (schema : Schema) → IsOf schema result }
    ensures bare { TakesNothing result }
{
    match end {
        Some(end) => Command::Take(end),
        None => Command::Skip(number),
    }
}

/// To close what is held under a name: a handle, a pending or a responder; else nothing, which is noted.
fn close(rooms: &mut Rooms, number: u32, name: NameId) -> Command
    ensures asked { asked_of result ≡ shut number (held_at rooms.old.handles.named.items name)
        (name_of (held_at rooms.old.pendings.named.items name)) (held_at rooms.old.responders.named.items name) }
    ensures took { (handles pendings : List name_id) → Took (Some name) handles pendings result rooms.old rooms.new }
    ensures plain { (schema : Schema) → IsOf schema result }
{
    if let Some(handle) = rooms.handles.take(name) {
        return Command::Close(ToClose::Handle(handle));
    }
    if let Some(pending) = rooms.pendings.take(name) {
        return Command::Close(ToClose::Pending(pending));
    }
    match rooms.responders.take(name) {
        Some(responder) => Command::Close(ToClose::Responder(responder)),
        None => Command::Skip(number),
    }
}

/// To close the endpoint of an id at an end, where that is one; else nothing, which is noted.
fn close_endpoint(number: u32, end: Option<EndId>, id: u32) -> Command
    ensures asked { asked_of result ≡ shut_at number id end }
    ensures plain { (schema : Schema) → IsOf schema result }
    ensures bare { TakesNothing result }
{
    match end {
        Some(end) => Command::Close(ToClose::Endpoint(end, id)),
        None => Command::Skip(number),
    }
}

/// To write a control from an end, where that is one; else nothing, which is noted.
fn notify(number: u32, end: Option<EndId>, notice: Notice) -> Command
    ensures asked { asked_of result ≡ noticed number notice end }
    ensures plain { (schema : Schema) → IsOf schema result }
    ensures bare { TakesNothing result }
{
    match end {
        Some(end) => Command::Notify(end, notice),
        None => Command::Skip(number),
    }
}

/// To take nothing at an end until another has consumed a flush, where both are ends; else nothing, which
/// is noted.
fn pause(number: u32, end: Option<EndId>, other: Option<EndId>, flush: u32) -> Command
    ensures asked { asked_of result ≡ paused number flush end other }
    ensures plain { (schema : Schema) → IsOf schema result }
    ensures bare { TakesNothing result }
{
    match end {
        Some(end) => match other {
            Some(other) => Command::Pause(end, other, flush),
            None => Command::Skip(number),
        },
        None => Command::Skip(number),
    }
}

/// To move bytes at the token that is held under a name; else nothing, which is noted.
fn flow(
    rooms: &mut Rooms,
    alloc: Global,
    number: u32,
    name: NameId,
    moved: &Flow,
) -> Result<Command, NoMemory>
    ensures asked { IfOk result (λ command. asked_of command ≡ flowing number moved.now (held_at rooms.old.handles.named.items name)) }
    ensures took { IfOk result (λ command. (handles pendings : List name_id) → Took (Some name) handles pendings command rooms.old rooms.new) }
    ensures plain { IfOk result (λ command. (schema : Schema) → IsOf schema command) }
{
    let Ok(copy) = moved.copy(alloc) else {
        return Err(NoMemory);
    };
    match rooms.handles.take(name) {
        Some(handle) => Ok(Command::Flow(handle, copy)),
        None => Ok(Command::Skip(number)),
    }
}

/// The command of a line, with what it needs, which it takes from its names.
pub fn command_of(
    rooms: &mut Rooms,
    alloc: Global,
    names: &Names,
    line: &Line,
) -> Result<Command, NoMemory>
    requires { AreNames (λ n. is_some (held_at rooms.old.stands.things.items n)) line.now.command names.now }
    ensures asked { IfOk result (λ command. asked_of command ≡ asked_by (names_in rooms.old) line.now) }
    ensures took { IfOk result (λ command. TookFor names.now command rooms.old rooms.new) }
    ensures spends { IfOk result (SpendsAs (held_at rooms.old.stands.things.items) line.now.command names.now) }
    ensures prepared { IfOk result (λ command. (schema : Schema) → IsReadWith schema line.now.command → IsOf schema command) }
{
    let number = line.number;
    match &line.command {
        Asked::Join(other, _, _) => Ok(Command::Join(*other)),
        Asked::Pipe(_, _) => Ok(Command::Pipe),
        Asked::Mint(sort, _) => Ok(Command::Mint(*sort)),
        Asked::Bind(name, side, interface) => { Ok(bind(rooms, number, *name, *side, *interface)) }
        Asked::Associate(name, side, interface, _) => {
            Ok(associate(number, rooms.stands.end(*name), *side, *interface))
        }
        Asked::Attach(name, seq) => Ok(attach(rooms, number, *name, *seq)),
        Asked::Call(name, id, prepared, _, moment) => {
            let end = rooms.stands.end(*name);
            call(rooms, alloc, names, number, end, *id, prepared, *moment)
        }
        Asked::Take(name, _) => Ok(take(number, rooms.stands.end(*name))),
        Asked::Answer(name, prepared, _, moment) => {
            answer(rooms, alloc, names, number, *name, prepared, *moment)
        }
        Asked::Raw(name, bytes, _) => raw(rooms, alloc, names, number, *name, bytes),
        Asked::CloseToken(name) => Ok(close(rooms, number, *name)),
        Asked::CloseEndpoint(name, id) => Ok(close_endpoint(number, rooms.stands.end(*name), *id)),
        Asked::Notify(name, notice) => Ok(notify(number, rooms.stands.end(*name), *notice)),
        Asked::Pause(name, other, flush) => {
            let end = rooms.stands.end(*name);
            Ok(pause(number, end, rooms.stands.end(*other), *flush))
        }
        Asked::Data(size, _, _) => Ok(Command::Data(*size)),
        Asked::Flow(name, moved) => flow(rooms, alloc, number, *name, moved),
    }
}
