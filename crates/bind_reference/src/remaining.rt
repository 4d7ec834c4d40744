//! What isn't gone.

use bind_model::Event;
use handle_table::{Thing, TokenId};
use mj_base::EndId;
use past_reference::past::{ends_made, is_gone, tokens_made};
use std::alloc::{AllocError, Global};

/// Adds the ends that a sequence made.
fn add_ends(
    alloc: Global,
    past: &[Event],
    seq: u32,
    things: &mut Vec<Thing>,
) -> Result<(), AllocError> {
    for serial in 0..ends_made(alloc, past, seq)? {
        things.push(Thing::End(EndId { seq, serial }))?;
    }
    Ok(())
}

/// Adds the tokens that a sequence made.
fn add_tokens(
    alloc: Global,
    past: &[Event],
    seq: u32,
    things: &mut Vec<Thing>,
) -> Result<(), AllocError> {
    for serial in 0..tokens_made(alloc, past, seq)? {
        things.push(Thing::Token(TokenId { seq, serial }))?;
    }
    Ok(())
}

/// The ends that so many sequences made, by sequence and by number.
fn ends(alloc: Global, seqs: u32, past: &[Event]) -> Result<Vec<Thing>, AllocError> {
    let mut things = Vec::new(alloc);
    for seq in 0..seqs {
        add_ends(alloc, past, seq, &mut things)?;
    }
    Ok(things)
}

/// What isn't gone of all that so many sequences made: the ends before the tokens, both by sequence and by
/// number.
pub fn left(alloc: Global, seqs: u32, past: &[Event]) -> Result<Vec<Thing>, AllocError> {
    let mut things = ends(alloc, seqs, past)?;
    for seq in 0..seqs {
        add_tokens(alloc, past, seq, &mut things)?;
    }
    things.retain(|thing| !is_gone(past, *thing));
    Ok(things)
}
