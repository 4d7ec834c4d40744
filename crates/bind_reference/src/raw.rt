//! The reply to a raw writing.

use crate::sending::{are_out, cannot_write};
use bind_model::limits::{MAX_RAW_BYTES, MAX_RAW_HANDLES};
use bind_model::{Told, Why};
use handle_table::Thing;
use past_reference::mail::Mail;
use past_reference::refusals::{first_of, unless};
use std::alloc::{AllocError, Global};

/// Whether all handles are with callers, and none stands twice. The one that is written from is among them.
fn is_owned(
    alloc: Global,
    mail: &Mail<'_>,
    thing: Thing,
    handles: &[Thing],
) -> Result<bool, AllocError> {
    let mut all = vec![in alloc; thing]?;
    all.extend_from_slice(handles)?;
    Ok(are_out(mail, &all))
}

/// The reply to a writing of bytes from a thing.
pub fn wrote(
    alloc: Global,
    mail: &Mail<'_>,
    thing: Thing,
    bytes: &[u8],
    handles: &[Thing],
) -> Result<Told, AllocError> {
    if !is_owned(alloc, mail, thing, handles)? {
        return Ok(Told::No(Why::NoName));
    }
    let Thing::End(end) = thing else {
        return Ok(Told::No(Why::NotPipe));
    };
    let [back, busy, lost, full] = cannot_write(alloc, mail, end, false, handles)?;
    let refusal = first_of(&[
        unless(bytes.len() as u64 <= MAX_RAW_BYTES, Why::TooLong),
        unless(handles.len() <= MAX_RAW_HANDLES, Why::TooManyHandles),
        back,
        busy,
        lost,
        full,
    ]);
    match refusal {
        Some(why) => Ok(Told::No(why)),
        None => Ok(Told::Wrote(end)),
    }
}
