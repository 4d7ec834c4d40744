//! What goes with a thing that is closed.

ghost use Rattle.std.specs.Prelude.{◌≡◌, [], ◌∷◌, None, IfOk};
ghost use Rattle.message_pipe.specs.Ends.{carried_in, spread};

use handle_table::Thing;
use message_pipe::Pipes;
use mj_base::Items;
use std::alloc::{AllocError, Global};

/// All that goes with a thing, twice: for the history and for the caller.
#[derive(Drop)]
pub struct Goes {
    pub noted: Items<Thing>,
    pub told: Items<Thing>,
}

/// What goes with a thing. Nothing is closed yet.
pub fn goes_with(pipes: &Pipes, alloc: Global, thing: Thing) -> Result<Goes, AllocError>
    ensures noted { IfOk result (λ goes. goes.noted ≡ spread (carried_in pipes.now.ends None) pipes.now.made (thing ∷ [])) }
    ensures told { IfOk result (λ goes. goes.told ≡ goes.noted) }
{
    let mut start = Vec::new(alloc);
    start.push(thing)?;
    let noted = Items::from_vec(pipes.goes_with(start, None)?);
    let told = noted.copy(alloc)?;
    Ok(Goes { noted, told })
}
