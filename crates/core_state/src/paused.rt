//! Ends that wait for others.

ghost use Rattle.std.specs.Prelude.{◌≡◌};
ghost use Rattle.bind_model.specs.Notices.{first_unmet, waits};
ghost use Rattle.core_state.specs.Agreement.{Holds, past_of};
ghost use Rattle.core_state.specs.Forgets.{StaysTrue};
ghost use Rattle.core_state.specs.steps.Paused.{is_met_by, unmet_in};

use crate::state::State;
use end_notices::{NoticeTable, Wait};
use message_pipe::Pipes;
use mj_base::EndId;

/// Whether a wait is met.
fn is_met(pipes: &Pipes, notices: &NoticeTable, wait: Wait) -> bool
    ensures { result ≡ is_met_by pipes.now notices.now wait }
{
    pipes.is_closed(wait.end) || notices.has_met(wait.end, wait.flush)
}

/// The end that the first of these waits that isn't met is for.
fn unmet(state: &State, waits: &[Wait]) -> Option<EndId>
    ensures { result ≡ unmet_in state.now waits.now }
{
    for wait in waits {
        if !is_met(&state.pipes, &state.tables.notices, *wait) {
            return Some(wait.end);
        }
    }
    None
}

/// The end that an end waits for: that of its first wait that isn't met. None where it takes.
pub fn paused_by(state: &State, end: EndId) -> Option<EndId>
    requires { Holds state.now }
    ensures { result ≡ first_unmet (past_of state.now) (waits (past_of state.now) end) }
{
    match state.tables.notices.get(end) {
        Some(notices) => unmet(state, notices.waits()),
        None => None,
    }
}

/// Forgets the first wait of an end where it is met: whether it was.
fn forget_one(notices: &mut NoticeTable, pipes: &Pipes, end: EndId) -> bool
    ensures { StaysTrue pipes.now notices.old notices.new }
{
    let Some(wait) = notices.first_wait(end) else {
        return false;
    };
    if !is_met(pipes, notices, wait) {
        return false;
    }
    notices.forget(end);
    true
}

/// Forgets what an end waits for and is met, up to the first that isn't, so that each is looked at once: at most so
/// many.
pub fn forget_met(notices: &mut NoticeTable, pipes: &Pipes, end: EndId)
    ensures { StaysTrue pipes.now notices.old notices.new }
{
    for _ in 0..notices.count_waits(end) {
        if !forget_one(notices, pipes, end) {
            return;
        }
    }
}
