//! What goes with what is closed.

use crate::mail::Mail;
use crate::past::made;
use handle_table::Thing;
use mj_base::EndId;
use std::alloc::{AllocError, Global};

/// Adds what the handles of a thing's unread messages are of, but for the oldest one at an end that is read
/// just now.
fn add_carried(
    alloc: Global,
    mail: &Mail<'_>,
    read: Option<EndId>,
    thing: Thing,
    things: &mut Vec<Thing>,
) -> Result<(), AllocError> {
    let Thing::End(end) = thing else {
        return Ok(());
    };
    let passed = if read == Some(end) { 1 } else { 0 };
    for letter in mail.unread(alloc, end)?.iter().skip(passed) {
        things.extend_from_slice(letter.handles)?;
    }
    Ok(())
}

/// What goes where things are closed, breadth first. Nothing stands in it twice, so as many turns as there
/// are things are enough. At the end that is read just now, the oldest message counts no more.
pub fn goes(
    alloc: Global,
    mail: &Mail<'_>,
    read: Option<EndId>,
    closed: Vec<Thing>,
) -> Result<Vec<Thing>, AllocError> {
    let mut things = closed;
    for turn in 0..made(alloc, mail.past)?.len() {
        match things.get(turn).copied() {
            Some(thing) => add_carried(alloc, mail, read, thing, &mut things)?,
            None => return Ok(things),
        }
    }
    Ok(things)
}
