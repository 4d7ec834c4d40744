//! The waits of ends: noted by what ends them, which an event may have done, and cleared behind it.

ghost use Rattle.std.specs.Prelude.{◌≡◌, ◌++◌, [], true, is_some, IfOk, OnOk};
ghost use Rattle.std.specs.Option.{option_copied};
ghost use Rattle.mj_base.specs.declared.ids.EndId.{EndId as end_id};
ghost use Rattle.bind_model.specs.Machine.{gone_by};
ghost use Rattle.bind_model.specs.Ready.{is_before};
ghost use Rattle.core_state.specs.Agreement.{Holds, past_of};
ghost use Rattle.core_state.specs.Forgets.{StaysTrue};
ghost use Rattle.bind_core.specs.EndSets.{has_end};
ghost use Rattle.bind_core.specs.steps.FirstTaken.{least_among, lesser_of};
ghost use Rattle.bind_core.specs.Takers.{ready_taker};
ghost use Rattle.bind_core.specs.Causes.{Grows, HasCauses, IsNoted, Spares, all_for, causes_in, causes_of, causes_or, ends_for, gone_causes, newest, woken};
ghost use Rattle.bind_core.specs.steps.Watching.{IsWithin};

use crate::end_set::EndSet;
use crate::takers::ready_taker;
use crate::waiting::{Cause, Waiting};
use bind_model::{Asked, Boxed, Command, Event, Got, Noted, Told};
use core_state::{State, forget_met};
use end_notices::NoticeTable;
use handle_table::Thing;
use message_pipe::Pipes;
use mj_base::{EndId, SeqId};
use std::alloc::{AllocError, Global};

/// The last event.
fn last_event(state: &State) -> Option<&Event>
    ensures { option_copied result ≡ newest (past_of state.now) }
{
    state.log.as_slice().last()
}

/// The cause that an event is where it consumed a flush.
fn flush_of(event: &Event) -> Option<Cause>
    ensures { causes_of event.now.told event.now.asked ≡ causes_or event.now.told result }
{
    match &event.told {
        Told::Control(Noted::Flushed(flush)) => match &event.asked {
            Asked::Take(end) => Some(Cause::flushed(*end, *flush)),
            _ => None,
        },
        _ => None,
    }
}

/// What went with a message that was got.
fn gone_in(got: &Boxed<Got>) -> &[Thing]
    ensures { result.now ≡ got.now.gone }
{
    got.get().gone.as_slice()
}

/// What went with an event.
pub fn gone_of(told: &Told) -> &[Thing]
    ensures { result.now ≡ gone_by told.now }
{
    match told {
        Told::Taken(got) => gone_in(got),
        Told::Dropped(_, gone) | Told::Bad(_, gone) | Told::Closed(gone) => gone.as_slice(),
        _ => &[],
    }
}

/// Adds the ends of a cause.
fn push_for(ends: &mut Vec<EndId>, waiting: &Waiting, cause: Cause) -> Result<(), AllocError>
    ensures { OnOk result (ends.new.items ≡ ends.old.items ++ ends_for waiting.now cause) }
{
    ends.extend_from_slice(waiting.ends_for(cause))?;
    Ok(())
}

/// Adds the ends of what went.
fn push_gone(ends: &mut Vec<EndId>, waiting: &Waiting, things: &[Thing]) -> Result<(), AllocError>
    ensures { OnOk result (ends.new.items ≡ ends.old.items ++ all_for waiting.now (gone_causes things.now)) }
{
    for thing in things {
        if let Thing::End(end) = thing {
            push_for(ends, waiting, Cause::gone(*end))?;
        }
    }
    Ok(())
}

/// Adds the ends with waits that an event may have ended.
pub fn push_woken(ends: &mut Vec<EndId>, waiting: &Waiting, event: &Event) -> Result<(), AllocError>
    ensures { OnOk result (ends.new.items ≡ ends.old.items ++ all_for waiting.now (causes_of event.now.told event.now.asked)) }
{
    match flush_of(event) {
        Some(cause) => push_for(ends, waiting, cause),
        None => push_gone(ends, waiting, gone_of(&event.told)),
    }
}

/// The ends with waits that the last event may have ended.
pub(crate) fn woken_ends(
    alloc: Global,
    waiting: &Waiting,
    state: &State,
) -> Result<Vec<EndId>, AllocError>
    ensures { IfOk result (λ ends. ends.items ≡ woken waiting.now (newest (past_of state.now))) }
{
    let mut ends = Vec::new(alloc);
    match last_event(state) {
        Some(event) => {
            push_woken(&mut ends, waiting, event)?;
            Ok(ends)
        }
        None => Ok(ends),
    }
}

/// Watches an end where a take is ready.
fn watch_one(watched: &mut EndSet, state: &State, end: EndId) -> Result<(), AllocError>
    requires { Holds state.now }
    ensures more { IsWithin watched.old watched.new }
    ensures ready { OnOk result (is_some (ready_taker state.now end) ≡ true → has_end watched.new end ≡ true) }
{
    match ready_taker(state, end) {
        Some(_) => watched.insert(end),
        None => Ok(()),
    }
}

/// Watches those of these ends where a take is ready.
pub(crate) fn watch_ready(
    watched: &mut EndSet,
    state: &State,
    ends: &[EndId],
) -> Result<(), AllocError>
    requires { Holds state.now }
    ensures more { IsWithin watched.old watched.new }
    ensures ready { OnOk result ((x : end_id) → has_end ends.now x ≡ true → is_some (ready_taker state.now x) ≡ true → has_end watched.new x ≡ true) }
{
    for end in ends {
        watch_one(watched, state, *end)?;
    }
    Ok(())
}

/// Forgets the waits of these ends that are met.
fn forget_each(notices: &mut NoticeTable, pipes: &Pipes, ends: &[EndId])
    ensures { StaysTrue pipes.now notices.old notices.new }
{
    for end in ends {
        forget_met(notices, pipes, *end);
    }
}

/// Forgets the waits of the other end of an end's pipe that are met.
fn forget_peer(notices: &mut NoticeTable, pipes: &Pipes, end: EndId)
    ensures { StaysTrue pipes.now notices.old notices.new }
{
    match pipes.peer(end) {
        Some(peer) => forget_met(notices, pipes, peer),
        None => {}
    }
}

/// Forgets the waits of an end and of its peer that are met.
fn forget_near(notices: &mut NoticeTable, pipes: &Pipes, end: EndId)
    ensures { StaysTrue pipes.now notices.old notices.new }
{
    forget_met(notices, pipes, end);
    forget_peer(notices, pipes, end);
}

/// Forgets the waits that are met of these ends, and of an end and its peer. Takes no memory.
pub(crate) fn forget_all(
    notices: &mut NoticeTable,
    pipes: &Pipes,
    ends: &[EndId],
    near: Option<EndId>,
)
    ensures { StaysTrue pipes.now notices.old notices.new }
{
    forget_each(notices, pipes, ends);
    match near {
        Some(end) => forget_near(notices, pipes, end),
        None => {}
    }
}

/// Lets the list of the flush go that an event consumed, where it did: another may have its number.
pub fn clear_event(waiting: &mut Waiting, event: &Event)
    ensures { Spares (causes_of event.now.told event.now.asked) waiting.old waiting.new }
{
    match flush_of(event) {
        Some(cause) => waiting.clear(cause),
        None => {}
    }
}

/// Lets the list of the flush go that the last event consumed: the ends in it were looked at. What went doesn't go
/// again.
pub(crate) fn clear_woken(waiting: &mut Waiting, state: &State)
    ensures { Spares (causes_in (newest (past_of state.now))) waiting.old waiting.new }
{
    match last_event(state) {
        Some(event) => clear_event(waiting, event),
        None => {}
    }
}

/// Notes that an end waits for a flush of another, by what ends its wait.
pub fn note(
    waiting: &mut Waiting,
    alloc: Global,
    end: EndId,
    other: EndId,
    flush: u32,
) -> Result<(), AllocError>
    ensures more { Grows waiting.old waiting.new }
    ensures noted { OnOk result (HasCauses waiting.new end (record { end = other; flush = flush })) }
{
    waiting.add(alloc, Cause::flushed(other, flush), end)?;
    waiting.add(alloc, Cause::gone(other), end)
}

/// Notes the wait that a command gives.
pub(crate) fn note_wait(
    waiting: &mut Waiting,
    alloc: Global,
    command: &Command,
) -> Result<(), AllocError>
    ensures more { Grows waiting.old waiting.new }
    ensures noted { OnOk result (IsNoted waiting.new command.now) }
{
    match command {
        Command::Pause(end, other, flush) => note(waiting, alloc, *end, *other, *flush),
        _ => Ok(()),
    }
}

/// Whether an end comes before another.
fn is_before(end: EndId, other: EndId) -> bool
    ensures { result ≡ is_before end other }
{
    end.seq < other.seq || (end.seq == other.seq && end.serial < other.serial)
}

/// The lesser of what was found and an end where a sequence takes.
fn lesser(found: Option<(SeqId, EndId)>, taker: Option<SeqId>, end: EndId) -> Option<(SeqId, EndId)>
    ensures { result ≡ lesser_of found taker end }
{
    let Some(seq) = taker else {
        return found;
    };
    match found {
        Some((first, least)) => {
            if is_before(end, least) {
                Some((seq, end))
            } else {
                Some((first, least))
            }
        }
        None => Some((seq, end)),
    }
}

/// The least of what was found and those of these ends where a take is ready.
fn least_in(state: &State, ends: &[EndId], found: Option<(SeqId, EndId)>) -> Option<(SeqId, EndId)>
    requires { Holds state.now }
    ensures { result ≡ least_among (ready_taker state.now) found ends.now }
{
    let mut least = found;
    for end in ends {
        least = lesser(least, ready_taker(state, *end), *end);
    }
    least
}

/// The least of what was found and those of the ends of what went where a take is ready.
fn least_gone(
    state: &State,
    waiting: &Waiting,
    things: &[Thing],
    found: Option<(SeqId, EndId)>,
) -> Option<(SeqId, EndId)>
    requires { Holds state.now }
    ensures { result ≡ least_among (ready_taker state.now) found (all_for waiting.now (gone_causes things.now)) }
{
    let mut least = found;
    for thing in things {
        if let Thing::End(end) = thing {
            least = least_in(state, waiting.ends_for(Cause::gone(*end)), least);
        }
    }
    least
}

/// The least of what was found and the ends of the last event where a take is ready. Takes no memory.
pub(crate) fn least_woken(
    state: &State,
    waiting: &Waiting,
    found: Option<(SeqId, EndId)>,
) -> Option<(SeqId, EndId)>
    requires { Holds state.now }
    ensures { result ≡ least_among (ready_taker state.now) found (woken waiting.now (newest (past_of state.now))) }
{
    let Some(event) = last_event(state) else {
        return found;
    };
    match flush_of(event) {
        Some(cause) => least_in(state, waiting.ends_for(cause), found),
        None => least_gone(state, waiting, gone_of(&event.told), found),
    }
}
