//! Who takes at an end when nobody asks.

ghost use Rattle.std.specs.Prelude.{◌≡◌};
ghost use Rattle.bind_core.specs.Takers.{ready_taker, taker_of};
ghost use Rattle.core_state.specs.Agreement.{Holds};
ghost use Rattle.event_tables.specs.AsCore.{state_of};

use bind_core::{bound_on, id_meant, taker_for};
use event_tables::EventTables;
use event_takes::paused_by;
use mj_base::{EndId, SeqId};

/// The sequence whose take at an end would consume a message or find it bad, whatever the end waits for.
fn taker(tables: &EventTables, end: EndId) -> Option<SeqId>
    ensures { result ≡ taker_of (state_of tables.now) end }
{
    let main = tables.endpoints.find(end, 0)?;
    if tables.pipes.is_closed(end) {
        return None;
    }
    let message = tables.pipes.front(end)?;
    match id_meant(message.bytes.as_slice()) {
        Some(id) => taker_for(bound_on(main), tables.endpoints.find(end, id)),
        None => bound_on(main),
    }
}

/// The sequence whose take at an end is ready: none while the end waits for another.
pub(crate) fn ready_taker(tables: &EventTables, end: EndId) -> Option<SeqId>
    requires { Holds (state_of tables.now) }
    ensures { result ≡ ready_taker (state_of tables.now) end }
{
    match paused_by(tables, end) {
        Some(_) => None,
        None => taker(tables, end),
    }
}
