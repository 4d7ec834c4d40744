//! Controls that are taken: what they say is done.

ghost use Rattle.std.specs.Prelude.{◌≡◌, IfOk, IfErr, Some};
ghost use Rattle.bind_model.specs.declared.asked.Asked.TheVariants as asks;
ghost use Rattle.bind_model.specs.declared.told.Noted.TheVariants as noted;
ghost use Rattle.bind_model.specs.declared.told.Told.TheVariants as tells;
ghost use Rattle.endpoint_router.specs.Changes.{marked};
ghost use Rattle.core_state.specs.Doing.{Done, HasRoom, Undone, told_to};
ghost use Rattle.core_state.specs.Turns.{TurnsAt};
ghost use Rattle.core_taking.specs.Founds.{IsSilent};

use bind_model::{Asked, Command, Event, Noted, Refused, Reply, Told};
use core_state::emit::emit_version;
use core_state::{Routers, State, Turn};
use mj_base::{EndId, SeqId};
use std::alloc::Global;

/// Notes that the peer of the endpoint of an id at an end is closed; nothing where the end has no such one.
pub fn mark_peer(endpoints: &mut Routers, end: EndId, id: u32)
    ensures { TurnsAt marked end id endpoints.old endpoints.new }
{
    if endpoints.find(end, id).is_some() {
        endpoints.turn(end, id, Turn::PeerClosed);
    }
}

/// Takes a control away: the peer of the endpoint that it names is closed.
fn close_peer(state: &mut State, seq: SeqId, end: EndId, id: u32) -> Reply
    requires able { HasRoom state.old seq }
    requires told { told_to state.old seq (asks.Take end) ≡ tells.Control (noted.Closed id) }
    ensures { Done state.old state.new seq (Command.Take end) result }
{
    let _front = state.pipes.pop_front(end);
    mark_peer(&mut state.endpoints, end, id);
    state.log.push_reserved(Event {
        seq,
        asked: Asked::Take(end),
        told: Told::Control(Noted::Closed(id)),
    });
    Reply::Control(Noted::Closed(id))
}

/// Takes a control away that is only told.
fn heed(state: &mut State, seq: SeqId, end: EndId, said: Noted) -> Reply
    requires able { HasRoom state.old seq }
    requires told { told_to state.old seq (asks.Take end) ≡ tells.Control said }
    requires silent { IsSilent said }
    ensures { Done state.old state.new seq (Command.Take end) result }
{
    let _front = state.pipes.pop_front(end);
    state.log.push_reserved(Event {
        seq,
        asked: Asked::Take(end),
        told: Told::Control(said),
    });
    Reply::Control(said)
}

/// Takes a query away: the version of the endpoint that it names is written back. Without memory nothing
/// happens.
fn tell_version(
    state: &mut State,
    alloc: Global,
    seq: SeqId,
    end: EndId,
    id: u32,
    version: u32,
) -> Result<Reply, Refused>
    requires able { HasRoom state.old seq }
    requires told { told_to state.old seq (asks.Take end) ≡ tells.Control (noted.Queried id (Some version)) }
    ensures done { IfOk result (λ reply. Done state.old state.new seq (Command.Take end) reply) }
    ensures undone { IfErr result (λ refused. Undone state.old state.new (Command.Take end) refused) }
{
    let Ok(()) = emit_version(&mut state.pipes, &state.endpoints, alloc, end, id, version) else {
        return Err(Refused::Memory(Command::Take(end)));
    };
    let _front = state.pipes.pop_front(end);
    state.log.push_reserved(Event {
        seq,
        asked: Asked::Take(end),
        told: Told::Control(Noted::Queried(id, Some(version))),
    });
    Ok(Reply::Control(Noted::Queried(id, Some(version))))
}

/// Takes a version away: a query that waited for it has it.
fn end_query(state: &mut State, seq: SeqId, end: EndId, id: u32, version: u32) -> Reply
    requires able { HasRoom state.old seq }
    requires told { told_to state.old seq (asks.Take end) ≡ tells.Control (noted.Version id version) }
    ensures { Done state.old state.new seq (Command.Take end) result }
{
    let _front = state.pipes.pop_front(end);
    state.tables.notices.answer(end, id);
    state.log.push_reserved(Event {
        seq,
        asked: Asked::Take(end),
        told: Told::Control(Noted::Version(id, version)),
    });
    Reply::Control(Noted::Version(id, version))
}

/// Takes a flush away, and notes that it was consumed. Without memory nothing happens.
fn meet_flush(
    state: &mut State,
    alloc: Global,
    seq: SeqId,
    end: EndId,
    flush: u32,
) -> Result<Reply, Refused>
    requires able { HasRoom state.old seq }
    requires told { told_to state.old seq (asks.Take end) ≡ tells.Control (noted.Flushed flush) }
    ensures done { IfOk result (λ reply. Done state.old state.new seq (Command.Take end) reply) }
    ensures undone { IfErr result (λ refused. Undone state.old state.new (Command.Take end) refused) }
{
    let Ok(()) = state.tables.notices.meet(alloc, end, flush) else {
        return Err(Refused::Memory(Command::Take(end)));
    };
    let _front = state.pipes.pop_front(end);
    state.log.push_reserved(Event {
        seq,
        asked: Asked::Take(end),
        told: Told::Control(Noted::Flushed(flush)),
    });
    Ok(Reply::Control(Noted::Flushed(flush)))
}

/// Takes a control away, and does what it says. Without memory nothing happens.
pub(crate) fn obey(
    state: &mut State,
    alloc: Global,
    seq: SeqId,
    end: EndId,
    said: Noted,
) -> Result<Reply, Refused>
    requires able { HasRoom state.old seq }
    requires told { told_to state.old seq (asks.Take end) ≡ tells.Control said }
    ensures done { IfOk result (λ reply. Done state.old state.new seq (Command.Take end) reply) }
    ensures undone { IfErr result (λ refused. Undone state.old state.new (Command.Take end) refused) }
{
    match said {
        Noted::Closed(id) => Ok(close_peer(state, seq, end, id)),
        Noted::Queried(id, Some(version)) => tell_version(state, alloc, seq, end, id, version),
        Noted::Queried(id, None) => Ok(heed(state, seq, end, Noted::Queried(id, None))),
        Noted::Version(id, version) => Ok(end_query(state, seq, end, id, version)),
        Noted::Required(id, version) => Ok(heed(state, seq, end, Noted::Required(id, version))),
        Noted::Flushed(flush) => meet_flush(state, alloc, seq, end, flush),
    }
}
