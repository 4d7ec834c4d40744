//! Controls that are taken: what they say is done.

ghost use Rattle.std.specs.Prelude.{◌≡◌, OnOk, Some};
ghost use Rattle.bind_model.specs.declared.asked.Asked.TheVariants as asks;
ghost use Rattle.bind_model.specs.declared.told.Noted.TheVariants as noted;
ghost use Rattle.bind_model.specs.declared.told.Told.TheVariants as tells;
ghost use Rattle.core_state.specs.Doing.{HasRoom, told_to};
ghost use Rattle.core_taking.specs.Founds.{IsSilent};
ghost use Rattle.event_tables.specs.AsCore.{Steps, state_of};

use bind_model::{Asked, Event, Noted, Told};
use core_taking::obey::mark_peer;
use event_tables::{EventTables, emit_version};
use mj_base::{EndId, SeqId};
use std::alloc::{AllocError, Global};

/// Takes a control away: the peer of the endpoint that it names is closed.
fn close_peer(tables: &mut EventTables, seq: SeqId, end: EndId, id: u32)
    requires able { HasRoom (state_of tables.old) seq }
    requires told { told_to (state_of tables.old) seq (asks.Take end) ≡ tells.Control (noted.Closed id) }
    ensures { Steps tables.old tables.new seq (asks.Take end) }
{
    let _front = tables.pipes.pop_front(end);
    mark_peer(&mut tables.endpoints, end, id);
    tables.log.push_reserved(Event {
        seq,
        asked: Asked::Take(end),
        told: Told::Control(Noted::Closed(id)),
    });
}

/// Takes a control away that is only told.
fn heed(tables: &mut EventTables, seq: SeqId, end: EndId, said: Noted)
    requires able { HasRoom (state_of tables.old) seq }
    requires told { told_to (state_of tables.old) seq (asks.Take end) ≡ tells.Control said }
    requires silent { IsSilent said }
    ensures { Steps tables.old tables.new seq (asks.Take end) }
{
    let _front = tables.pipes.pop_front(end);
    tables.log.push_reserved(Event {
        seq,
        asked: Asked::Take(end),
        told: Told::Control(said),
    });
}

/// Takes a query away: the version of the endpoint that it names is written back.
fn tell_version(
    tables: &mut EventTables,
    alloc: Global,
    seq: SeqId,
    end: EndId,
    id: u32,
    version: u32,
) -> Result<(), AllocError>
    requires able { HasRoom (state_of tables.old) seq }
    requires told { told_to (state_of tables.old) seq (asks.Take end) ≡ tells.Control (noted.Queried id (Some version)) }
    ensures { OnOk result (Steps tables.old tables.new seq (asks.Take end)) }
{
    emit_version(
        &mut tables.pipes,
        &tables.endpoints,
        alloc,
        end,
        id,
        version,
    )?;
    let _front = tables.pipes.pop_front(end);
    tables.log.push_reserved(Event {
        seq,
        asked: Asked::Take(end),
        told: Told::Control(Noted::Queried(id, Some(version))),
    });
    Ok(())
}

/// Takes a version away: a query that waited for it has it.
fn end_query(tables: &mut EventTables, seq: SeqId, end: EndId, id: u32, version: u32)
    requires able { HasRoom (state_of tables.old) seq }
    requires told { told_to (state_of tables.old) seq (asks.Take end) ≡ tells.Control (noted.Version id version) }
    ensures { Steps tables.old tables.new seq (asks.Take end) }
{
    let _front = tables.pipes.pop_front(end);
    tables.tables.notices.answer(end, id);
    tables.log.push_reserved(Event {
        seq,
        asked: Asked::Take(end),
        told: Told::Control(Noted::Version(id, version)),
    });
}

/// Takes a flush away, and notes that it was consumed.
fn meet_flush(
    tables: &mut EventTables,
    alloc: Global,
    seq: SeqId,
    end: EndId,
    flush: u32,
) -> Result<(), AllocError>
    requires able { HasRoom (state_of tables.old) seq }
    requires told { told_to (state_of tables.old) seq (asks.Take end) ≡ tells.Control (noted.Flushed flush) }
    ensures { OnOk result (Steps tables.old tables.new seq (asks.Take end)) }
{
    tables.tables.notices.meet(alloc, end, flush)?;
    let _front = tables.pipes.pop_front(end);
    tables.log.push_reserved(Event {
        seq,
        asked: Asked::Take(end),
        told: Told::Control(Noted::Flushed(flush)),
    });
    Ok(())
}

/// Takes a control away, and does what it says.
pub(crate) fn obey(
    tables: &mut EventTables,
    alloc: Global,
    seq: SeqId,
    end: EndId,
    said: Noted,
) -> Result<(), AllocError>
    requires able { HasRoom (state_of tables.old) seq }
    requires told { told_to (state_of tables.old) seq (asks.Take end) ≡ tells.Control said }
    ensures { OnOk result (Steps tables.old tables.new seq (asks.Take end)) }
{
    match said {
        Noted::Closed(id) => {
            close_peer(tables, seq, end, id);
            Ok(())
        }
        Noted::Queried(id, Some(version)) => tell_version(tables, alloc, seq, end, id, version),
        Noted::Queried(id, None) => {
            heed(tables, seq, end, Noted::Queried(id, None));
            Ok(())
        }
        Noted::Version(id, version) => {
            end_query(tables, seq, end, id, version);
            Ok(())
        }
        Noted::Required(id, version) => {
            heed(tables, seq, end, Noted::Required(id, version));
            Ok(())
        }
        Noted::Flushed(flush) => meet_flush(tables, alloc, seq, end, flush),
    }
}
