//! A sequence that does one event at a time.

ghost use Rattle.std.specs.Prelude.{◌≡◌, ◌<◌, List, length, None, IfOk, OnOk};
ghost use Rattle.mj_base.specs.declared.ids.SeqId.{SeqId as seq_id};
ghost use Rattle.mj_base.specs.declared.limits.TheConstants.{MAX_EVENTS};
ghost use Rattle.bind_model.specs.declared.event.Event.{Event as event};
ghost use Rattle.call_script.specs.Sound.{IsLine, IsReply, IsScript};
ghost use Rattle.core_state.specs.Agreement.{schema_of};
ghost use Rattle.event_steps.specs.Standing.{Stands};
ghost use Rattle.event_tables.specs.AsCore.{state_of};
ghost use Rattle.script_run.specs.OfScript.{replied};
ghost use Rattle.plain_names.specs.Held.{HasNames};
ghost use Rattle.event_follow.specs.steps.Places.{HasCome, IsOf};
ghost use Rattle.event_follow.specs.steps.Turning.{DidAny, DidLine, Stepped};

use crate::places::{DueReply, Place};
use crate::settling::{came, settle_event};
use call_script::{Line, Script};
use core_sending::carried::CarriedNames;
use event_steps::Machine;
use mj_base::{Items, SeqId};
use mj_schema::Schema;
use plain_names::{PlainCommand, command_of};
use script_names::{Names, copy_prepared};
use std::alloc::{AllocError, Global};

/// Lets a sequence send the automatic reply that is due.
pub(crate) fn send_reply(
    machine: &mut Machine,
    alloc: Global,
    seq: SeqId,
    due: DueReply<'_>,
) -> Result<(), AllocError>
    requires stands { Stands machine.old }
    requires seq { seq.0 < machine.old.tables.seqs }
    requires few { length machine.old.tables.log.events < MAX_EVENTS }
    requires reply { IsReply (schema_of (state_of machine.old.tables)) machine.old.tables.seqs due.reply.now }
    ensures { OnOk result (Stepped seq (replied (due.entry.responder, due.entry.reply.now)) machine.old machine.new) }
{
    let prepared = copy_prepared(alloc, &due.reply.prepared)?;
    let things = Items::new(alloc);
    let pendings = Items::new(alloc);
    let names = CarriedNames { things, pendings };
    let command = PlainCommand::Answer(due.responder, prepared, names, None);
    machine.step(alloc, seq, command)
}

/// Lets a sequence do a line, and not yet the automatic reply that is due then.
fn do_line<'s>(
    machine: &mut Machine,
    place: &mut Place<'s>,
    alloc: Global,
    schema: &Schema,
    script: &'s Script,
    line: &Line,
) -> Result<(), AllocError>
    requires is { IsOf schema.now script.now machine.old }
    requires few { length machine.old.tables.log.events < MAX_EVENTS }
    requires seq { line.now.seq.0 < script.now.seqs }
    requires line { IsLine schema.now script.now.seqs script.now.names line.now }
    requires names { HasNames script.now.names place.old.names }
    ensures { OnOk result (DidLine schema.now script.now line.now machine.old machine.new place.old place.new) }
{
    let autos = script.autos.as_slice();
    let lists = Names::of(alloc, &place.names.stands, &line.command)?;
    let command = command_of(&mut place.names, alloc, &lists, line)?;
    machine.step(alloc, line.seq, command)?;
    settle_event(place, alloc, schema, autos, &lists, line, came(machine))
}

/// Lets a sequence do its next line: whether there is one.
fn do_own<'s>(
    machine: &mut Machine,
    place: &mut Place<'s>,
    alloc: Global,
    schema: &Schema,
    script: &'s Script,
) -> Result<bool, AllocError>
    requires script { IsScript schema.now script.now }
    requires is { IsOf schema.now script.now machine.old }
    requires few { length machine.old.tables.log.events < MAX_EVENTS }
    requires none { place.old.due ≡ None }
    requires come { (after_joins : List event) × (s : seq_id) × (own : List event) × (s.0 < script.now.seqs)
        × HasCome schema.now script.now after_joins s own place.old }
    ensures { IfOk result (λ goes. (after_joins : List event) (s : seq_id) (own : List event)
        → HasCome schema.now script.now after_joins s own place.old
        → DidAny schema.now script.now after_joins s own machine.old machine.new place.new goes) }
{
    match place.next_line() {
        None => Ok(false),
        Some(line) => {
            do_line(machine, place, alloc, schema, script, line)?;
            Ok(true)
        }
    }
}

/// Lets a sequence do what is next for it, the automatic reply that is due or else its next line: whether
/// anything is.
pub(crate) fn do_next<'s>(
    machine: &mut Machine,
    place: &mut Place<'s>,
    alloc: Global,
    schema: &Schema,
    script: &'s Script,
    seq: SeqId,
) -> Result<bool, AllocError>
    requires script { IsScript schema.now script.now }
    requires is { IsOf schema.now script.now machine.old }
    requires seq { seq.0 < script.now.seqs }
    requires few { length machine.old.tables.log.events < MAX_EVENTS }
    requires come { (after_joins : List event) × (own : List event) × HasCome schema.now script.now after_joins seq own place.old }
    ensures { IfOk result (λ goes. (after_joins : List event) (own : List event)
        → HasCome schema.now script.now after_joins seq own place.old
        → DidAny schema.now script.now after_joins seq own machine.old machine.new place.new goes) }
{
    match place.due {
        Some(due) => {
            place.due = None;
            send_reply(machine, alloc, seq, due)?;
            Ok(true)
        }
        None => do_own(machine, place, alloc, schema, script),
    }
}
