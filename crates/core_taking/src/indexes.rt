//! The handles of a message that its value names, and the others.

ghost use Rattle.std.specs.Prelude.{◌≡◌, ◌∷◌, [], length, map, set, true, IfOk};
ghost use Rattle.wire_model.specs.Indexes.{handles_of, handles_in};
ghost use Rattle.wire_model.specs.Trees.{view, trees};
ghost use Rattle.bind_model.specs.Replies.{picked, unpicked};
ghost use Rattle.core_taking.specs.steps.Marks.{marked, with_mark, without_mark};

use handle_table::Thing;
use mj_base::Items;
use std::alloc::{AllocError, Global};
use wire_model::Value;

/// Marks the place of an index; there is none for one past the end.
fn mark(marks: &mut [bool], index: u32)
    ensures { marks.new ≡ set marks.old index true }
{
    let at = index as usize;
    if at < marks.len() {
        marks[at] = true;
    }
}

/// Marks the places of the handles that a value names.
#[cycle(marks)]
fn mark_handles(value: &Value, marks: &mut [bool])
    ensures { marks.new ≡ marked (handles_of (view value.now)) marks.old }
{
    match value {
        Value::Handle(index) | Value::Remote { index, .. } => mark(marks, *index),
        Value::List(items) | Value::Struct(items) => mark_all(items, marks),
        Value::Map { keys, values } => {
            mark_all(keys, marks);
            mark_all(values, marks);
        }
        Value::Union { value, .. } => mark_handles(value, marks),
        Value::Bool(_)
        | Value::Whole(_)
        | Value::Text(_)
        | Value::Unknown(_)
        | Value::Endpoint(_)
        | Value::EndpointRemote { .. }
        | Value::Null => {}
    }
}

/// Marks the places of the handles that several values name.
#[cycle(marks)]
fn mark_all(values: &[Value], marks: &mut [bool])
    ensures { marks.new ≡ marked (handles_in (trees (map view values.now))) marks.old }
{
    for value in values {
        mark_handles(value, marks);
    }
}

/// Parts things by their marks: those that are marked, and the others, each in their order.
fn part(
    alloc: Global,
    marks: &[bool],
    things: &[Thing],
) -> Result<(Items<Thing>, Items<Thing>), AllocError>
    requires { length marks.now ≡ length things.now }
    ensures named { IfOk result (λ parts. parts.0 ≡ with_mark marks.now things.now) }
    ensures left { IfOk result (λ parts. parts.1 ≡ without_mark marks.now things.now) }
{
    let mut named = Vec::new(alloc);
    let mut left = Vec::new(alloc);
    for at in 0..things.len() {
        if marks[at] {
            named.push(things[at])?;
        } else {
            left.push(things[at])?;
        }
    }
    Ok((Items::from_vec(named), Items::from_vec(left)))
}

/// Parts the things of a message's handles: those of the handles that its value names, in the order of
/// their indexes, and the others.
pub(crate) fn part_named(
    alloc: Global,
    value: &Value,
    things: &[Thing],
) -> Result<(Items<Thing>, Items<Thing>), AllocError>
    ensures named { IfOk result (λ parts. parts.0 ≡ picked (handles_of (view value.now)) 0 things.now) }
    ensures left { IfOk result (λ parts. parts.1 ≡ unpicked (handles_of (view value.now)) 0 things.now) }
{
    // Most messages have no handles: their values needn't be looked through.
    if things.is_empty() {
        return Ok((Items::new(alloc), Items::new(alloc)));
    }
    let mut marks = vec![in alloc; false; things.len()]?;
    mark_handles(value, &mut marks);
    part(alloc, &marks, things)
}
