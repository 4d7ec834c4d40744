//! How a trade went, and what is done behind it.

use crate::held::{Held, Stopped};
use anyhow::Result;
use bind_core::Core;
use remote_receiver::Note;
use std::alloc::Global;

/// How a trade went: a note for each job, what is held, and how it ended.
pub struct Traded {
    pub notes: Vec<Note>,
    pub held: Held,
    pub outcome: Result<(), Stopped>,
}

/// Ends the core, and lets all go that is held: the notes, and how many things weren't closed, or why it was stopped.
pub fn settle(alloc: Global, core: Core, traded: Traded) -> Result<(Vec<Note>, usize)> {
    let Traded {
        notes,
        held,
        outcome,
    } = traded;
    let left = core.left(alloc);
    let (_history, over) = core.end();
    held.retire(&over);
    match outcome {
        Ok(()) => Ok((notes, left?.len())),
        Err(stopped) => Err(stopped.into_error(&over)),
    }
}
