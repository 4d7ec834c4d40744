//! Ends that are told to wait for others.

ghost use Rattle.std.specs.Prelude.{◌≡◌, None, IfOk, IfErr};
ghost use Rattle.handle_table.specs.Things.{same_end};
ghost use Rattle.bind_model.specs.Replies as replies;
ghost use Rattle.core_sending.specs.Pausing.{no_pause, or_why};
ghost use Rattle.core_state.specs.Doing.{CanDo, Done, Undone};

use bind_model::{
    Asked, Command, Endpoint, Event, Refused, Reply, State as EndpointState, Told, Why,
};
use core_state::{State, refuse};
use end_notices::Wait;
use mj_base::{EndId, SeqId};
use std::alloc::Global;

/// Has an end take nothing until another has consumed the flush of this number, or is closed; or notes why
/// it doesn't wait.
pub fn pause(
    state: &mut State,
    alloc: Global,
    seq: SeqId,
    end: EndId,
    other: EndId,
    flush: u32,
) -> Result<Reply, Refused>
    requires { CanDo state.old seq (Command.Pause end other flush) }
    ensures done { IfOk result (λ reply. Done state.old state.new seq (Command.Pause end other flush) reply) }
    ensures undone { IfErr result (λ refused. Undone state.old state.new (Command.Pause end other flush) refused) }
{
    match why_not(state, seq, end, other) {
        None => wait(state, alloc, seq, end, other, flush),
        Some(why) => {
            let asked = Asked::Pause(end, other, flush);
            refuse(state, seq, asked, why, Command::Pause(end, other, flush))
        }
    }
}

/// Why a sequence doesn't use an end with this endpoint 0: it is bound on another.
pub fn elsewhere(seq: SeqId, main: Endpoint) -> Option<Why>
    ensures { result ≡ replies.elsewhere seq main }
{
    match main.state {
        EndpointState::Bound(on) if on.0 != seq.0 => Some(Why::Elsewhere(on)),
        EndpointState::Bound(_) | EndpointState::Pending | EndpointState::Closed => None,
    }
}

/// Whether two ends are one.
pub fn is_same(end: EndId, other: EndId) -> bool
    ensures { result ≡ same_end end other }
{
    end == other
}

/// This reason, or else another.
pub fn or_why(why: Option<Why>, other: Option<Why>) -> Option<Why>
    ensures { result ≡ or_why why other }
{
    match why {
        Some(why) => Some(why),
        None => other,
    }
}

/// Why an end doesn't wait for another.
fn why_not(state: &State, seq: SeqId, end: EndId, other: EndId) -> Option<Why>
    ensures { result ≡ no_pause state.now seq end other }
{
    let Some(main) = state.endpoints.find(end, 0) else {
        return Some(Why::NoName);
    };
    let Some(far) = state.endpoints.find(other, 0) else {
        return Some(Why::NoName);
    };
    if state.pipes.is_closed(end) {
        return Some(Why::Disconnected);
    }
    let there = if state.pipes.is_closed(other) {
        None
    } else {
        elsewhere(seq, far)
    };
    let itself = if is_same(end, other) {
        Some(Why::SelfPause)
    } else {
        None
    };
    or_why(elsewhere(seq, main), or_why(there, itself))
}

/// Has an end wait that nothing keeps from it. Without memory nothing happens.
fn wait(
    state: &mut State,
    alloc: Global,
    seq: SeqId,
    end: EndId,
    other: EndId,
    flush: u32,
) -> Result<Reply, Refused>
    requires can { CanDo state.old seq (Command.Pause end other flush) }
    requires free { no_pause state.old seq end other ≡ None }
    ensures done { IfOk result (λ reply. Done state.old state.new seq (Command.Pause end other flush) reply) }
    ensures undone { IfErr result (λ refused. Undone state.old state.new (Command.Pause end other flush) refused) }
{
    let Ok(()) = state
        .tables
        .notices
        .wait(alloc, end, Wait { end: other, flush })
    else {
        return Err(Refused::Memory(Command::Pause(end, other, flush)));
    };
    state.log.push_reserved(Event {
        seq,
        asked: Asked::Pause(end, other, flush),
        told: Told::Pausing,
    });
    Ok(Reply::Pausing)
}
