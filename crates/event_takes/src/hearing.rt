//! What a control says to the end that it is taken at.

ghost use Rattle.std.specs.Prelude.{◌≡◌};
ghost use Rattle.bind_model.specs.Machine.{endpoint_at};
ghost use Rattle.bind_model.specs.Notices.{query_pends};
ghost use Rattle.bind_model.specs.Replies.{heard, version_of};
ghost use Rattle.core_state.specs.Agreement.{Holds};
ghost use Rattle.core_taking.specs.Founds.{Tells};
ghost use Rattle.event_tables.specs.AsCore.{past_by, state_of, wire_by};

use bind_model::{BadWhy, Noted};
use control_bytes::Control;
use core_taking::hear::{is_awaited, is_older, version_of};
use core_taking::reading::Found;
use event_tables::EventTables;
use mj_base::EndId;

/// The version of the endpoint of an id at an end, where it is a receiver and isn't closed.
fn version_at(tables: &EventTables, end: EndId, id: u32) -> Option<u32>
    requires { Holds (state_of tables.now) }
    ensures { result ≡ version_of (wire_by tables.now) (endpoint_at (wire_by tables.now) (past_by tables.now) end id) }
{
    version_of(&tables.schema, tables.endpoints.find(end, id))
}

/// Whether a version is awaited at the endpoint of an id at an end.
fn awaits(tables: &EventTables, end: EndId, id: u32) -> bool
    requires { Holds (state_of tables.now) }
    ensures { result ≡ query_pends (past_by tables.now) end id (endpoint_at (wire_by tables.now) (past_by tables.now) end id) }
{
    is_awaited(
        tables.tables.notices.queries(end, id),
        tables.endpoints.find(end, id),
    )
}

/// What a control says at an end, and when it is bad there.
pub(crate) fn hear(tables: &EventTables, end: EndId, control: Control) -> Found
    requires { Holds (state_of tables.now) }
    ensures { Tells (wire_by tables.now) (past_by tables.now) end result (heard (wire_by tables.now) (past_by tables.now) end control) }
{
    match control {
        Control::Closed(id) => Found::Control(Noted::Closed(id)),
        Control::Query(id) => Found::Control(Noted::Queried(id, version_at(tables, end, id))),
        Control::Version(id, version) => {
            if awaits(tables, end, id) {
                Found::Control(Noted::Version(id, version))
            } else {
                Found::Bad(BadWhy::Unasked(0))
            }
        }
        Control::Require(id, least) => {
            if is_older(version_at(tables, end, id), least) {
                Found::Bad(BadWhy::TooOld(least))
            } else {
                Found::Control(Noted::Required(id, least))
            }
        }
        Control::Flush(flush) => Found::Control(Noted::Flushed(flush)),
    }
}
