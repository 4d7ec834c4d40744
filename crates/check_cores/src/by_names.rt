//! The machine by names, beside a core that does the same commands.

ghost use Rattle.std.specs.Prelude.{◌≡◌, ◌<◌, IfOk, OnOk};
ghost use Rattle.std.specs.Arc.{arc_value};
ghost use Rattle.wire_encoder.specs.Prepared.{IsPrepared};
ghost use Rattle.bind_model.specs.Plain.{IsOf};
ghost use Rattle.core_state.specs.Agreement.{schema_of};
ghost use Rattle.event_tables.specs.AsCore.{state_of};
ghost use Rattle.event_steps.specs.Standing.{Stands};
ghost use Rattle.mj_schema.specs.declared.schema.Schema.{Schema};
ghost use Rattle.plain_names.specs.Commands.{IsFor};

use bind_core::Core;
use bind_model::{Closing, Command, PendingList, ToClose};
use core_sending::carried::CarriedNames;
use event_steps::{Machine, last_event};
use handle_table::{Handle, Handles};
use mj_base::limits::MAX_EVENTS;
use mj_base::{Items, SeqId};
use mj_schema::Schema;
use past_reference::same::are_same_told;
use plain_names::PlainCommand;
use script_names::copy_prepared;
use std::alloc::{AllocError, Global};
use std::sync::Arc;
use wire_encoder::Prepared;

/// What goes with a message, by its names.
fn names_of(
    alloc: Global,
    handles: &Handles,
    pendings: &PendingList,
) -> Result<CarriedNames, AllocError> {
    let things = Items::from_vec(handles.things(alloc)?);
    let pendings = Items::from_vec(pendings.names(alloc)?);
    Ok(CarriedNames { things, pendings })
}

/// The same as prepared.
fn same(alloc: Global, prepared: &Prepared) -> Result<Prepared, AllocError>
    ensures { IfOk result (λ copy. (schema : Schema) → IsPrepared schema prepared.now → IsPrepared schema copy) }
{
    copy_prepared(alloc, prepared)
}

/// To write these bytes, by the names of what goes with them.
fn raw_of(
    alloc: Global,
    handle: &Handle,
    bytes: &Items<u8>,
    handles: &Handles,
) -> Result<PlainCommand, AllocError>
    ensures { IfOk result (λ plain. (schema : Schema) → IsFor schema plain) }
{
    let bytes = bytes.copy(alloc)?;
    let things = Items::from_vec(handles.things(alloc)?);
    Ok(PlainCommand::Raw(handle.thing(), bytes, things))
}

/// What is closed, by its name.
fn closing_of(closed: &ToClose) -> Closing {
    match closed {
        ToClose::Handle(handle) => Closing::Handle(handle.thing()),
        ToClose::Pending(pending) => Closing::Pending(pending.id()),
        ToClose::Responder(responder) => Closing::Responder(responder.id()),
        ToClose::Endpoint(end, id) => Closing::Endpoint(*end, *id),
    }
}

/// A command that sends nothing prepared, by the names of what goes with it.
fn other_of(alloc: Global, command: &Command) -> Result<PlainCommand, AllocError>
    ensures { IfOk result (λ plain. (schema : Schema) → IsFor schema plain) }
{
    match command {
        Command::Join(other) => Ok(PlainCommand::Join(*other)),
        Command::Mint(sort) => Ok(PlainCommand::Mint(*sort)),
        Command::Bind(handle, side, interface) => {
            Ok(PlainCommand::Bind(handle.thing(), *side, *interface))
        }
        Command::Associate(end, side, interface) => {
            Ok(PlainCommand::Associate(*end, *side, *interface))
        }
        Command::Attach(pending, on) => Ok(PlainCommand::Attach(pending.id(), *on)),
        Command::Take(end) => Ok(PlainCommand::Take(*end)),
        Command::Close(closed) => Ok(PlainCommand::Close(closing_of(closed))),
        Command::Notify(end, notice) => Ok(PlainCommand::Notify(*end, *notice)),
        Command::Pause(end, other, flush) => Ok(PlainCommand::Pause(*end, *other, *flush)),
        Command::Data(size) => Ok(PlainCommand::Data(*size)),
        Command::Flow(handle, flow) => {
            let flow = flow.copy(alloc)?;
            Ok(PlainCommand::Flow(handle.thing(), flow))
        }
        Command::Skip(line) => Ok(PlainCommand::Skip(*line)),
        _ => Ok(PlainCommand::Pipe),
    }
}

/// A command by the names of what goes with it.
pub fn plain_of(alloc: Global, command: &Command) -> Result<PlainCommand, AllocError>
    ensures { IfOk result (λ plain. (schema : Schema) → IsOf schema command.now → IsFor schema plain) }
{
    match command {
        Command::Call(end, id, prepared, handles, pendings, moment) => {
            let names = names_of(alloc, handles, pendings)?;
            let prepared = same(alloc, prepared)?;
            Ok(PlainCommand::Call(*end, *id, prepared, names, *moment))
        }
        Command::Answer(responder, prepared, handles, pendings, moment) => {
            let names = names_of(alloc, handles, pendings)?;
            let prepared = same(alloc, prepared)?;
            let id = responder.id();
            Ok(PlainCommand::Answer(id, prepared, names, *moment))
        }
        Command::Raw(handle, bytes, handles) => raw_of(alloc, handle, bytes, handles),
        _ => other_of(alloc, command),
    }
}

/// A machine of so many sequences that shares a schema.
pub fn machine_of(alloc: Global, schema: &Arc<Schema>, seqs: u32) -> Result<Machine, AllocError>
    ensures { IfOk result (λ machine. Stands machine × (schema_of (state_of machine.tables) ≡ arc_value schema.now)
        × (machine.tables.seqs ≡ seqs)) }
{
    match Arc::try_clone(schema) {
        Ok(shared) => Ok(Machine::new(alloc, shared, seqs)),
        Err(_) => Err(AllocError),
    }
}

/// Does a command.
pub fn do_named(
    machine: &mut Machine,
    alloc: Global,
    seq: SeqId,
    command: PlainCommand,
) -> Result<(), AllocError>
    requires stands { Stands machine.old }
    requires seq { seq.0 < machine.old.tables.seqs }
    requires prepared { IsFor (schema_of (state_of machine.old.tables)) command }
    ensures stands { OnOk result (Stands machine.new) }
    ensures schema { OnOk result (schema_of (state_of machine.new.tables) ≡ schema_of (state_of machine.old.tables)) }
    ensures seqs { OnOk result (machine.new.tables.seqs ≡ machine.old.tables.seqs) }
{
    if machine.tables.log.len() >= MAX_EVENTS {
        return Err(AllocError);
    }
    machine.step(alloc, seq, command)
}

/// Whether the machine was told last what a core was, the same end is ready, and the same isn't closed.
pub fn are_alike(core: &Core, machine: &Machine, alloc: Global) -> Result<bool, AllocError>
    requires { Stands machine.now }
{
    let is_ready = core.ready() == machine.ready();
    let wanted = core.left(alloc)?;
    let found = machine.left(alloc)?;
    let is_left = wanted == found;
    let Some(event) = core.history().as_slice().last() else {
        return Ok(is_ready && is_left);
    };
    let Some(named) = last_event(&machine.tables.log) else {
        return Ok(false);
    };
    let is_told = are_same_told(alloc, &event.told, &named.told)?;
    Ok(is_told && is_ready && is_left)
}
