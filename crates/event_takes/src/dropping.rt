//! Messages whose endpoint isn't there or is closed.

ghost use Rattle.std.specs.Prelude.{OnOk};
ghost use Rattle.bind_model.specs.declared.asked.Asked.TheVariants as asks;
ghost use Rattle.core_state.specs.Doing.{HasRoom, told_to};
ghost use Rattle.core_taking.specs.Founds.{IsDropped};
ghost use Rattle.event_tables.specs.AsCore.{Steps, past_by, state_of, wire_by};

use crate::taking::goes_with_front;
use bind_model::{Asked, Event, Told};
use core_taking::admit::Admitted;
use event_tables::{EventTables, emit_all};
use mj_base::{EndId, SeqId};
use std::alloc::{AllocError, Global};

/// Lets the oldest message go, whose endpoint isn't there or is closed, and what goes with its things. The
/// endpoints of its ids enter as closed, and their peers are told.
pub(crate) fn discard(
    tables: &mut EventTables,
    alloc: Global,
    seq: SeqId,
    end: EndId,
    id: u32,
    admitted: Admitted,
) -> Result<(), AllocError>
    requires able { HasRoom (state_of tables.old) seq }
    requires told { IsDropped (wire_by tables.old) (past_by tables.old) end id admitted (told_to (state_of tables.old) seq (asks.Take end)) }
    ensures { OnOk result (Steps tables.old tables.new seq (asks.Take end)) }
{
    let goes = goes_with_front(&tables.pipes, alloc, end)?;
    let entries = admitted.entries.as_slice();
    tables.endpoints.place_all(end, entries)?;
    let closed = admitted.closed.as_slice();
    // Before anything is closed: the peer may go with the message.
    emit_all(&mut tables.pipes, &tables.endpoints, alloc, end, closed)?;
    let _front = tables.pipes.pop_front(end);
    tables.pipes.close(goes.as_slice());
    tables.endpoints.enter_all(alloc, end, entries);
    tables.log.push_reserved(Event {
        seq,
        asked: Asked::Take(end),
        told: Told::Dropped(id, goes),
    });
    Ok(())
}
