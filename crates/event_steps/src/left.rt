//! What isn't closed.

ghost use Rattle.std.specs.Prelude.{◌≡◌, IfOk};
ghost use Rattle.bind_model.specs.Left.{left};
ghost use Rattle.core_state.specs.Agreement.{Holds};
ghost use Rattle.event_tables.specs.AsCore.{past_by, state_of};

use core_state::open_things;
use event_tables::EventTables;
use handle_table::Thing;
use std::alloc::{AllocError, Global};

/// What isn't closed: the ends before the tokens, both by sequence and by number.
pub(crate) fn left(tables: &EventTables, alloc: Global) -> Result<Vec<Thing>, AllocError>
    requires { Holds (state_of tables.now) }
    ensures { IfOk result (λ things. things.items ≡ left tables.now.seqs (past_by tables.now)) }
{
    open_things(tables.pipes.places(), alloc, tables.seqs)
}
