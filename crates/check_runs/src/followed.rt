//! Events that are followed by both engines: on a core, and by tables.

ghost use Rattle.std.specs.Prelude.{◌≤◌};
ghost use Rattle.std.specs.Arc.{arc_value};
ghost use Rattle.mj_base.specs.declared.limits.TheConstants.{MAX_FILE_BYTES};
ghost use Rattle.call_script.specs.Sound.{IsScript};

use bind_model::Event;
use call_script::Script;
use mj_schema::Schema;
use past_reference::same::are_same_events;
use script_run::Followed;
use std::alloc::{AllocError, Global};
use std::sync::Arc;

/// What comes of these events on a core.
fn on_core(
    alloc: Global,
    schema: &Arc<Schema>,
    script: &Script,
    events: &[Event],
) -> Result<Followed, AllocError>
    requires script { IsScript (arc_value schema.now) script.now }
    requires short { script.now.bytes ≤ MAX_FILE_BYTES }
{
    let Ok(shared) = Arc::try_clone(schema) else {
        return Err(AllocError);
    };
    match script_run::follow(alloc, shared, script, events) {
        Ok(followed) => Ok(followed),
        Err(_) => Err(AllocError),
    }
}

/// What comes of them by tables.
fn by_tables(
    alloc: Global,
    schema: &Arc<Schema>,
    script: &Script,
    events: &[Event],
) -> Result<Followed, AllocError>
    requires script { IsScript (arc_value schema.now) script.now }
    requires short { script.now.bytes ≤ MAX_FILE_BYTES }
{
    let Ok(shared) = Arc::try_clone(schema) else {
        return Err(AllocError);
    };
    event_follow::follow(alloc, shared, script, events)
}

/// Whether both are the same: the events, whether they are a whole run, callbacks, and what isn't closed.
fn are_same(alloc: Global, one: &Followed, other: &Followed) -> Result<bool, AllocError> {
    let is_history = are_same_events(
        alloc,
        one.ran.history.as_slice(),
        other.ran.history.as_slice(),
    )?;
    let are_notes = one.ran.notes.as_slice() == other.ran.notes.as_slice();
    let is_left = one.ran.left.as_slice() == other.ran.left.as_slice();
    Ok(is_history && are_notes && is_left && one.whole == other.whole)
}

/// Whether both engines make the same of these events.
fn agree_on(
    alloc: Global,
    schema: &Arc<Schema>,
    script: &Script,
    events: &[Event],
) -> Result<bool, AllocError>
    requires script { IsScript (arc_value schema.now) script.now }
    requires short { script.now.bytes ≤ MAX_FILE_BYTES }
{
    let one = on_core(alloc, schema, script, events)?;
    let other = by_tables(alloc, schema, script, events)?;
    are_same(alloc, &one, &other)
}

/// Whether both engines make the same of these events, and of the first half of them.
pub fn both_agree(
    alloc: Global,
    schema: &Arc<Schema>,
    script: &Script,
    events: &[Event],
) -> Result<bool, AllocError>
    requires script { IsScript (arc_value schema.now) script.now }
    requires short { script.now.bytes ≤ MAX_FILE_BYTES }
{
    let half = match events.get(..events.len() / 2) {
        Some(front) => front,
        None => events,
    };
    let whole = agree_on(alloc, schema, script, events)?;
    let part = agree_on(alloc, schema, script, half)?;
    Ok(whole && part)
}
