//! Ends with waits that the last event may have ended.

ghost use Rattle.std.specs.Prelude.{◌≡◌, IfOk, OnOk};
ghost use Rattle.bind_core.specs.Causes.{Grows, Spares, all_for, causes_in, causes_of, newest, woken};
ghost use Rattle.event_tables.specs.AsCore.{past_by};
ghost use Rattle.plain_names.specs.Commands.{asked_in};
ghost use Rattle.event_steps.specs.steps.Near.{NotesWait};

use crate::newest::last_event;
use bind_core::Waiting;
use bind_core::waits::{clear_event, note, push_woken};
use bind_model::Event;
use event_tables::EventTables;
use mj_base::EndId;
use plain_names::PlainCommand;
use std::alloc::{AllocError, Global};

/// Notes the wait that a command gives, by what ends it.
pub(crate) fn note_wait(
    waiting: &mut Waiting,
    alloc: Global,
    command: &PlainCommand,
) -> Result<(), AllocError>
    ensures more { Grows waiting.old waiting.new }
    ensures noted { OnOk result (NotesWait waiting.new (asked_in command.now)) }
{
    match command {
        PlainCommand::Pause(end, other, flush) => note(waiting, alloc, *end, *other, *flush),
        _ => Ok(()),
    }
}

/// The ends with waits that an event may have ended.
fn woken_by(alloc: Global, waiting: &Waiting, event: &Event) -> Result<Vec<EndId>, AllocError>
    ensures { IfOk result (λ ends. ends.items ≡ all_for waiting.now (causes_of event.now.told event.now.asked)) }
{
    let mut ends = Vec::new(alloc);
    push_woken(&mut ends, waiting, event)?;
    Ok(ends)
}

/// The ends with waits that the last event may have ended.
pub(crate) fn woken_ends(
    alloc: Global,
    waiting: &Waiting,
    tables: &EventTables,
) -> Result<Vec<EndId>, AllocError>
    ensures { IfOk result (λ ends. ends.items ≡ woken waiting.now (newest (past_by tables.now))) }
{
    match last_event(&tables.log) {
        Some(event) => woken_by(alloc, waiting, event),
        None => Ok(Vec::new(alloc)),
    }
}

/// Lets the list of the flush go that the last event consumed, once the ends in it were looked at: another
/// may have its number. What went doesn't go again.
pub(crate) fn clear_woken(waiting: &mut Waiting, tables: &EventTables)
    ensures { Spares (causes_in (newest (past_by tables.now))) waiting.old waiting.new }
{
    match last_event(&tables.log) {
        Some(event) => clear_event(waiting, event),
        None => {}
    }
}
