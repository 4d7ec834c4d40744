//! What isn't closed.

ghost use Rattle.std.specs.Prelude.{◌≡◌, IfOk};
ghost use Rattle.bind_model.specs.Left.{left};
ghost use Rattle.core_state.specs.Agreement.{Holds, past_of};

use core_state::{State, open_things};
use handle_table::Thing;
use std::alloc::{AllocError, Global};

/// What isn't closed: the ends before the tokens, both by sequence and by number.
pub fn left(state: &State, alloc: Global) -> Result<Vec<Thing>, AllocError>
    requires { Holds state.now }
    ensures { IfOk result (λ things. things.items ≡ left state.now.seqs (past_of state.now)) }
{
    open_things(state.pipes.places(), alloc, state.seqs)
}
