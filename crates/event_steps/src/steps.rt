//! One step: each command is done by what does it.

ghost use Rattle.std.specs.Prelude.{◌<◌, length, OnOk};
ghost use Rattle.mj_base.specs.declared.limits.TheConstants.{MAX_EVENTS};
ghost use Rattle.bind_model.specs.declared.asked.Asked.TheVariants as asks;
ghost use Rattle.core_state.specs.Agreement.{Holds, schema_of};
ghost use Rattle.core_state.specs.Doing.{HasRoom};
ghost use Rattle.event_tables.specs.AsCore.{Steps, state_of};
ghost use Rattle.plain_names.specs.Commands.{IsFor, asked_in};

use crate::near::end_named;
use bind_model::{Asked, Closing, Event, Told};
use event_tables::{
    EventTables, Sending, answer, associate, attach, bind, call, close_endpoint, close_pending,
    close_responder, close_thing, data, flow, join, mint, notify, pause, pipe, raw,
};
use event_takes::{forget_at, take};
use mj_base::SeqId;
use plain_names::PlainCommand;
use std::alloc::{AllocError, Global};

/// Does one command. What the end that it is about waits for and is met is forgotten first.
pub(crate) fn step(
    tables: &mut EventTables,
    alloc: Global,
    seq: SeqId,
    command: PlainCommand,
) -> Result<(), AllocError>
    requires holds { Holds (state_of tables.old) }
    requires seq { seq.0 < tables.old.seqs }
    requires few { length tables.old.log.events < MAX_EVENTS }
    requires prepared { IsFor (schema_of (state_of tables.old)) command }
    ensures { OnOk result (Steps tables.old tables.new seq (asked_in command)) }
{
    let end = end_named(&command);
    forget_at(&mut tables.tables.notices, &tables.pipes, end);
    tables.log.reserve()?;
    dispatch(tables, alloc, seq, command)
}

/// Does one command, for whose event there is room.
fn dispatch(
    tables: &mut EventTables,
    alloc: Global,
    seq: SeqId,
    command: PlainCommand,
) -> Result<(), AllocError>
    requires able { HasRoom (state_of tables.old) seq }
    requires prepared { IsFor (schema_of (state_of tables.old)) command }
    ensures { OnOk result (Steps tables.old tables.new seq (asked_in command)) }
{
    match command {
        PlainCommand::Pipe => pipe(tables, alloc, seq),
        PlainCommand::Join(other) => join(tables, alloc, seq, other),
        PlainCommand::Mint(sort) => mint(tables, alloc, seq, sort),
        PlainCommand::Bind(thing, side, interface) => {
            bind(tables, alloc, seq, thing, side, interface)
        }
        PlainCommand::Associate(end, side, interface) => {
            associate(tables, alloc, seq, end, side, interface)
        }
        PlainCommand::Attach(pending, on) => {
            attach(tables, seq, pending, on);
            Ok(())
        }
        PlainCommand::Call(end, id, prepared, names, moment) => {
            let sending = Sending {
                end,
                id,
                prepared: &prepared,
                moment,
            };
            call(tables, alloc, seq, sending, names)
        }
        PlainCommand::Answer(id, prepared, names, moment) => {
            answer(tables, alloc, seq, id, &prepared, names, moment)
        }
        PlainCommand::Raw(thing, bytes, things) => raw(tables, alloc, seq, thing, bytes, things),
        PlainCommand::Take(end) => take(tables, alloc, seq, end),
        PlainCommand::Close(closing) => close(tables, alloc, seq, closing),
        PlainCommand::Notify(end, notice) => notify(tables, alloc, seq, end, notice),
        PlainCommand::Pause(end, other, flush) => pause(tables, alloc, seq, end, other, flush),
        PlainCommand::Data(size) => data(tables, alloc, seq, size),
        PlainCommand::Flow(thing, moved) => flow(tables, alloc, seq, thing, moved),
        PlainCommand::Skip(line) => {
            skip(tables, seq, line);
            Ok(())
        }
    }
}

/// Closes what is meant.
fn close(
    tables: &mut EventTables,
    alloc: Global,
    seq: SeqId,
    closing: Closing,
) -> Result<(), AllocError>
    requires { HasRoom (state_of tables.old) seq }
    ensures { OnOk result (Steps tables.old tables.new seq (asks.Close closing)) }
{
    match closing {
        Closing::Handle(thing) => close_thing(tables, alloc, seq, thing),
        Closing::Pending(id) => close_pending(tables, alloc, seq, id),
        Closing::Responder(id) => {
            close_responder(tables, alloc, seq, id);
            Ok(())
        }
        Closing::Endpoint(end, id) => close_endpoint(tables, alloc, seq, end, id),
    }
}

/// Notes a line of a script whose needs aren't there.
fn skip(tables: &mut EventTables, seq: SeqId, line: u32)
    requires { HasRoom (state_of tables.old) seq }
    ensures { Steps tables.old tables.new seq (asks.Skip line) }
{
    tables.log.push_reserved(Event {
        seq,
        asked: Asked::Skip(line),
        told: Told::Skipped,
    });
}
