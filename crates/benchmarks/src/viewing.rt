//! How long a message takes that is read where it lies, part by part, with no value made of it.

use crate::timing::{ROUNDS, least, now};
use message_validator::Checked;
use mj_base::limits::MAX_DEPTH;
use std::io;
use std::time::{CpuClock, Duration};
use wire_view::{ArrayView, Part, StructView, View, root};

/// How a message is read.
#[derive(Clone, Copy)]
pub enum Way {
    /// Each part, whatever it is.
    Parts,
    /// As a batch of items, by the getters for what its fields are.
    Batch,
}

/// How many objects may lie in one another: each takes a level, but for a union that lies in a slot.
const MOST_OBJECTS: u32 = 2 * MAX_DEPTH;

/// A number that tells what a part holds that is no object.
fn number_of(part: &Part<'_>) -> u64 {
    match part {
        Part::Null => 0,
        Part::Bool(bool) => u64::from(*bool),
        Part::Whole(number) => u64::from(*number > 0),
        Part::Text(text) => text.as_bytes().len() as u64,
        Part::Handle(index) => u64::from(*index),
        Part::Remote { index, version } => u64::from(*index).saturating_add(u64::from(*version)),
        Part::Endpoint(index) => u64::from(*index),
        Part::EndpointRemote { index, version } => {
            u64::from(*index).saturating_add(u64::from(*version))
        }
        Part::Object(_) => 0,
    }
}

/// The sum with what a part holds, and where it is an object what all its parts do, so many objects deep.
#[cycle(sum)]
fn with_part(view: &View<'_>, i: u32, left: u32, sum: u64) -> u64 {
    match view.part(i) {
        Some(Part::Object(object)) if left > 0 => with_object(&object, left - 1, sum),
        Some(part) => sum.saturating_add(number_of(&part)),
        None => sum,
    }
}

/// The sum with what the parts of an object hold that is no union.
#[cycle(sum)]
fn with_parts(view: &View<'_>, left: u32, sum: u64) -> u64 {
    let mut sum = sum;
    for i in 0..view.len() {
        sum = with_part(view, i, left, sum);
    }
    sum
}

/// The sum with what the parts of an object hold.
#[cycle(sum)]
fn with_object(view: &View<'_>, left: u32, sum: u64) -> u64 {
    match view.tag() {
        Some(tag) => with_part(view, tag, left, sum),
        None => with_parts(view, left, sum),
    }
}

/// 1 for a number above 0.
#[inline(always)]
fn above_zero(number: Option<i128>) -> u64 {
    match number {
        Some(number) => u64::from(number > 0),
        None => 0,
    }
}

/// How many tags are above 0.
#[inline(always)]
fn in_tags(tags: &ArrayView<'_>) -> u64 {
    let mut sum = 0u64;
    for j in 0..tags.len() {
        sum = sum.saturating_add(above_zero(tags.number(j)));
    }
    sum
}

/// What an item holds: three numbers, a name, and tags.
#[inline(always)]
fn in_item(item: &StructView<'_>) -> u64 {
    let name = match item.string(3) {
        Some(name) => name.as_bytes().len() as u64,
        None => 0,
    };
    let tags = match item.array(4) {
        Some(tags) => in_tags(&tags),
        None => 0,
    };
    above_zero(item.number(0))
        .saturating_add(above_zero(item.number(1)))
        .saturating_add(above_zero(item.number(2)))
        .saturating_add(name)
        .saturating_add(tags)
}

/// What the items of a batch hold.
#[inline(always)]
fn in_items(items: &ArrayView<'_>) -> u64 {
    let mut sum = 0u64;
    for j in 0..items.len() {
        if let Some(item) = items.item(j) {
            sum = sum.saturating_add(in_item(&item));
        }
    }
    sum
}

/// The items of a batch, where it is one.
#[inline(always)]
fn items_of<'a>(view: &View<'a>) -> Option<ArrayView<'a>> {
    let batch = StructView::from_view(view)?;
    batch.array(0)
}

/// What a batch holds.
fn in_batch(view: &View<'_>) -> u64 {
    match items_of(view) {
        Some(items) => in_items(&items),
        None => 0,
    }
}

/// What a message holds, read so many times.
fn read_times(checked: &Checked<'_>, times: u64, way: Way) -> u64 {
    let mut sum = 0u64;
    for _ in 0..times {
        sum = match way {
            Way::Parts => with_object(&root(checked), MOST_OBJECTS, sum),
            Way::Batch => sum.saturating_add(in_batch(&root(checked))),
        };
    }
    sum
}

/// The least time of so many readings of a message; none where they don't all find the same.
pub fn time_views<R: CpuClock>(
    rt: &R,
    checked: &Checked<'_>,
    times: u64,
    way: Way,
) -> io::Result<Option<Duration>> {
    let wanted = read_times(checked, times, way);
    let mut best = None;
    for _ in 0..ROUNDS {
        let start = now(rt)?;
        if read_times(checked, times, way) != wanted {
            return Ok(None);
        }
        best = least(best, start, now(rt)?);
    }
    Ok(best)
}
