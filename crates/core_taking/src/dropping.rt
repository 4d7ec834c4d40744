//! Messages whose endpoint isn't there or is closed.

ghost use Rattle.std.specs.Prelude.{IfOk, IfErr};
ghost use Rattle.bind_model.specs.declared.asked.Asked.TheVariants as asks;
ghost use Rattle.core_state.specs.Agreement.{past_of, wire_in};
ghost use Rattle.core_state.specs.Doing.{Done, HasRoom, Undone, told_to};
ghost use Rattle.core_taking.specs.Founds.{IsDropped};

use crate::admit::Admitted;
use crate::take::goes_with_front;
use bind_model::{Asked, Command, Event, Refused, Reply, Told};
use core_state::State;
use core_state::emit::emit;
use mj_base::{EndId, SeqId};
use std::alloc::Global;

/// Lets the oldest message go, whose endpoint isn't there or is closed, and what goes with its handles. The
/// endpoints of its ids enter as closed, and their peers are told.
pub(crate) fn discard(
    state: &mut State,
    alloc: Global,
    seq: SeqId,
    end: EndId,
    id: u32,
    admitted: Admitted,
) -> Result<Reply, Refused>
    requires able { HasRoom state.old seq }
    requires told { IsDropped (wire_in state.old) (past_of state.old) end id admitted (told_to state.old seq (asks.Take end)) }
    ensures done { IfOk result (λ reply. Done state.old state.new seq (Command.Take end) reply) }
    ensures undone { IfErr result (λ refused. Undone state.old state.new (Command.Take end) refused) }
{
    let Ok(goes) = goes_with_front(&state.pipes, alloc, end) else {
        return Err(Refused::Memory(Command::Take(end)));
    };
    let entries = admitted.entries.as_slice();
    let Ok(()) = state.endpoints.place_all(end, entries) else {
        return Err(Refused::Memory(Command::Take(end)));
    };
    let closed = admitted.closed.as_slice();
    // The last step that can fail, and before anything is closed: the peer may go with the message.
    let Ok(()) = emit(&mut state.pipes, &state.endpoints, alloc, end, closed) else {
        return Err(Refused::Memory(Command::Take(end)));
    };
    let _front = state.pipes.pop_front(end);
    state.pipes.close(goes.noted.as_slice());
    state.endpoints.enter_all(alloc, end, entries);
    state.log.push_reserved(Event {
        seq,
        asked: Asked::Take(end),
        told: Told::Dropped(id, goes.noted),
    });
    Ok(Reply::Dropped(id, goes.told))
}
