//! Which ends a command may make ready.

ghost use Rattle.std.specs.Prelude.{◌≡◌, OnOk};
ghost use Rattle.bind_model.specs.Machine.{peer};
ghost use Rattle.bind_core.specs.Covers.{Stands};
ghost use Rattle.bind_core.specs.steps.Watched.{CoversReady, IsWatched};
ghost use Rattle.bind_core.specs.steps.Watching.{HasNear, IsWithin, KeepsTaken, end_named};
ghost use Rattle.core_state.specs.Agreement.{Holds, past_of};

use crate::end_set::EndSet;
use crate::waiting::Waiting;
use crate::waits::{clear_woken, note_wait, watch_ready, woken_ends};
use bind_model::{Command, Refused, Reply, ToClose};
use core_state::State;
use handle_table::Thing;
use mj_base::EndId;
use std::alloc::{AllocError, Global};

/// The end that a command is about: with it a take may become ready there or at its peer, or no longer be.
pub(crate) fn end_named(command: &Command) -> Option<EndId>
    ensures { result ≡ end_named command.now }
{
    match command {
        Command::Bind(handle, _, _) | Command::Raw(handle, _, _) => match handle.thing() {
            Thing::End(end) => Some(end),
            Thing::Token(_) => None,
        },
        Command::Associate(end, _, _)
        | Command::Call(end, _, _, _, _, _)
        | Command::Take(end)
        | Command::Notify(end, _)
        | Command::Pause(end, _, _) => Some(*end),
        Command::Attach(pending, _) => Some(pending.id().end),
        Command::Answer(responder, _, _, _, _) => Some(responder.id().end),
        Command::Close(ToClose::Pending(pending)) => Some(pending.id().end),
        Command::Close(ToClose::Endpoint(end, _)) => Some(*end),
        _ => None,
    }
}

/// The other end of an end's pipe; of one that was not made, itself.
fn peer(state: &State, end: EndId) -> EndId
    requires { Holds state.now }
    ensures { result ≡ peer (past_of state.now) end }
{
    match state.pipes.peer(end) {
        Some(peer) => peer,
        None => end,
    }
}

/// Watches an end and its peer: both.
fn watch_near(watched: &mut EndSet, state: &State, end: Option<EndId>) -> Result<(), AllocError>
    requires { Holds state.now }
    ensures more { IsWithin watched.old watched.new }
    ensures near { OnOk result (HasNear state.now end watched.new) }
{
    let Some(end) = end else {
        return Ok(());
    };
    watched.insert(end)?;
    watched.insert(peer(state, end))
}

/// Watches the ends whose waits the last event may have ended, where a take is ready: all that were looked at. The
/// list of the last event goes.
fn watch_woken(
    watched: &mut EndSet,
    waiting: &mut Waiting,
    state: &State,
    alloc: Global,
) -> Result<Vec<EndId>, AllocError>
    requires { Stands state.now watched.old waiting.old }
    ensures stands { Stands state.now watched.new waiting.new }
    ensures covers { OnOk result (CoversReady state.now watched.new) }
{
    let ends = woken_ends(alloc, waiting, state)?;
    watch_ready(watched, state, ends.as_slice())?;
    clear_woken(waiting, state);
    Ok(ends)
}

/// Watches what a command may make ready, and what the last event did, and notes the wait that the command
/// gives: the ends whose waits the last event may have ended.
pub(crate) fn watch(
    watched: &mut EndSet,
    waiting: &mut Waiting,
    state: &State,
    alloc: Global,
    command: &Command,
) -> Result<Vec<EndId>, AllocError>
    requires { Stands state.now watched.old waiting.old }
    ensures stands { Stands state.now watched.new waiting.new }
    ensures watched { OnOk result (IsWatched state.now command.now watched.new waiting.new) }
{
    let looked = watch_woken(watched, waiting, state, alloc)?;
    note_wait(waiting, alloc, command)?;
    watch_near(watched, state, end_named(command))?;
    Ok(looked)
}

/// Watches what went with a command no longer.
fn unwatch_gone(watched: &mut EndSet, state: &State, outcome: &Result<Reply, Refused>)
    requires { Holds state.now }
    ensures { KeepsTaken state.now watched.old watched.new }
{
    match outcome {
        Ok(Reply::Got(received)) => watched.settle_all(state, received.gone.as_slice()),
        Ok(Reply::Dropped(_, gone) | Reply::Bad(_, gone) | Reply::Closed(gone)) => {
            watched.settle_all(state, gone.as_slice())
        }
        _ => {}
    }
}

/// Watches an end, its peer and what went with a command no longer, where no take is ready.
pub(crate) fn unwatch(
    watched: &mut EndSet,
    state: &State,
    end: Option<EndId>,
    outcome: &Result<Reply, Refused>,
)
    requires { Holds state.now }
    ensures { KeepsTaken state.now watched.old watched.new }
{
    unwatch_gone(watched, state, outcome);
    if let Some(end) = end {
        watched.settle(state, end);
        watched.settle(state, peer(state, end));
    }
}
