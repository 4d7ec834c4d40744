//! A run whose sequences do their lines in the order of given events.

ghost use Rattle.std.specs.Prelude.{◌≡◌, ◌<◌, ◌≤◌, [], List, drop, length, reverse, true, IfOk, OnOk};
ghost use Rattle.std.specs.Arc.{arc_value};
ghost use Rattle.mj_base.specs.declared.limits.TheConstants.{MAX_EVENTS, MAX_FILE_BYTES};
ghost use Rattle.bind_model.specs.Left.{left};
ghost use Rattle.bind_model.specs.declared.event.Event.{Event as event};
ghost use Rattle.callback_laws.specs.Callbacks.{callbacks};
ghost use Rattle.call_script.specs.Sound.{IsScript};
ghost use Rattle.event_steps.specs.Standing.{Stands};
ghost use Rattle.event_tables.specs.AsCore.{past_by};
ghost use Rattle.script_run.specs.Followed.{Follows};
ghost use Rattle.event_follow.specs.steps.Following.{AnyMore, Ended, HaveFollowed, HaveStopped, IsAmid, Traced};
ghost use Rattle.event_follow.specs.steps.Places.{AreFresh, IsOf};

use crate::draining::drain;
use crate::joins::do_joins;
use crate::places::{Place, count_left, open_places};
use crate::turns::do_next;
use bind_model::Event;
use call_script::Script;
use event_notes::callbacks;
use event_steps::Machine;
use event_tables::EventTables;
use history_text::Note;
use mj_base::{Items, SeqId};
use mj_schema::Schema;
use script_run::{Followed, Ran};
use std::alloc::{AllocError, Global};
use std::sync::Arc;

/// Lets the sequence of this number do what is next for it: whether it is there, and anything is.
fn follow_one<'s>(
    machine: &mut Machine,
    places: &mut [Place<'s>],
    alloc: Global,
    schema: &Schema,
    script: &'s Script,
    seq: SeqId,
) -> Result<bool, AllocError>
    requires script { IsScript schema.now script.now }
    requires few { length machine.old.tables.log.events < MAX_EVENTS }
    requires amid { (after_joins : List event) × (middle : List event) × IsAmid schema.now script.now after_joins middle machine.old places.old }
    ensures { IfOk result (λ more. (after_joins middle : List event) → IsAmid schema.now script.now after_joins middle machine.old places.old
        → AnyMore schema.now script.now after_joins middle machine.new places.new seq more) }
{
    if seq.0 >= script.seqs {
        return Ok(false);
    }
    let place = &mut places[seq.0 as usize];
    do_next(machine, place, alloc, schema, script, seq)
}

/// Lets the sequence of each of these events do what is next for it, in order, until nothing is for one.
fn follow_events<'s>(
    machine: &mut Machine,
    places: &mut [Place<'s>],
    alloc: Global,
    schema: &Schema,
    script: &'s Script,
    events: &[Event],
) -> Result<(), AllocError>
    requires script { IsScript schema.now script.now }
    requires short { script.now.bytes ≤ MAX_FILE_BYTES }
    requires amid { (after_joins : List event) × IsAmid schema.now script.now after_joins [] machine.old places.old }
    ensures { OnOk result ((after_joins : List event) → IsAmid schema.now script.now after_joins [] machine.old places.old
        → HaveStopped schema.now script.now after_joins events.now machine.new places.new) }
{
    for event in events {
        if !follow_one(machine, places, alloc, schema, script, event.seq)? {
            return Ok(());
        }
    }
    Ok(())
}

/// Follows these events: whether nothing is next for any sequence then.
fn follow_lines<'s>(
    machine: &mut Machine,
    places: &mut [Place<'s>],
    alloc: Global,
    schema: &Schema,
    script: &'s Script,
    events: &[Event],
) -> Result<bool, AllocError>
    requires script { IsScript schema.now script.now }
    requires short { script.now.bytes ≤ MAX_FILE_BYTES }
    requires amid { (after_joins : List event) × IsAmid schema.now script.now after_joins [] machine.old places.old }
    ensures { IfOk result (λ whole. (after_joins : List event) → IsAmid schema.now script.now after_joins [] machine.old places.old
        → HaveFollowed schema.now script.now after_joins events.now machine.new whole) }
{
    follow_events(machine, places, alloc, schema, script, events)?;
    Ok(count_left(places) == 0)
}

/// The events behind so many.
fn behind(events: &[Event], count: usize) -> &[Event]
    ensures { result.now ≡ drop count events.now }
{
    match events.get(count..) {
        Some(rest) => rest,
        None => &[],
    }
}

/// Does the joins, and follows the events behind them: whether nothing is next for any sequence then.
fn follow_places<'s>(
    machine: &mut Machine,
    places: &mut [Place<'s>],
    alloc: Global,
    schema: &Schema,
    script: &'s Script,
    events: &[Event],
) -> Result<bool, AllocError>
    requires script { IsScript schema.now script.now }
    requires short { script.now.bytes ≤ MAX_FILE_BYTES }
    requires is { IsOf schema.now script.now machine.old }
    requires fresh { machine.old.tables.log.events ≡ [] }
    requires places { AreFresh script.now places.old }
    ensures { IfOk result (Traced schema.now script.now events.now machine.new) }
{
    do_joins(machine, places, alloc, script)?;
    let rest = behind(events, machine.tables.log.len());
    follow_lines(machine, places, alloc, schema, script, rest)
}

/// Follows events on a machine without any: whether nothing is next for any sequence then.
fn follow_all(
    machine: &mut Machine,
    alloc: Global,
    schema: &Schema,
    script: &Script,
    events: &[Event],
) -> Result<bool, AllocError>
    requires script { IsScript schema.now script.now }
    requires short { script.now.bytes ≤ MAX_FILE_BYTES }
    requires is { IsOf schema.now script.now machine.old }
    requires fresh { machine.old.tables.log.events ≡ [] }
    ensures { IfOk result (Traced schema.now script.now events.now machine.new) }
{
    let mut places = open_places(alloc, script)?;
    follow_places(machine, &mut places, alloc, schema, script, events)
}

/// Takes until no message is ready, where nothing is next for any sequence.
fn drain_whole(
    machine: &mut Machine,
    alloc: Global,
    schema: &Schema,
    script: &Script,
    whole: bool,
) -> Result<(), AllocError>
    requires script { IsScript schema.now script.now }
    requires short { script.now.bytes ≤ MAX_FILE_BYTES }
    requires traced { (events : List event) × Traced schema.now script.now events machine.old whole }
    ensures { OnOk result ((events : List event) → Traced schema.now script.now events machine.old whole
        → Ended schema.now script.now events machine.new whole) }
{
    if !whole {
        return Ok(());
    }
    drain(machine, alloc, schema, script)
}

/// What became of the callbacks of a whole run; nothing is said of those of another.
fn notes_of(alloc: Global, machine: &Machine, whole: bool) -> Result<Items<Note>, AllocError>
    ensures { IfOk result (λ notes. whole ≡ true → notes ≡ callbacks machine.now.tables.seqs machine.now.tables.log.events) }
{
    if !whole {
        return Ok(Items::new(alloc));
    }
    callbacks(alloc, machine.tables.seqs, machine.tables.log.as_slice())
}

/// What a run leaves.
fn leave(alloc: Global, machine: Machine, whole: bool) -> Result<Followed, AllocError>
    requires { Stands machine }
    ensures events { IfOk result (λ followed. followed.ran.history.events ≡ machine.tables.log.events) }
    ensures whole { IfOk result (λ followed. followed.whole ≡ whole) }
    ensures left { IfOk result (λ followed. followed.ran.left ≡ left machine.tables.seqs (past_by machine.tables)) }
    ensures notes { IfOk result (λ followed. whole ≡ true → followed.ran.notes ≡ callbacks machine.tables.seqs machine.tables.log.events) }
{
    let left = machine.left(alloc)?;
    let notes = notes_of(alloc, &machine, whole)?;
    let Machine { tables, .. } = machine;
    let EventTables { log, .. } = tables;
    Ok(Followed {
        ran: Ran {
            history: log,
            left: Items::from_vec(left),
            notes,
        },
        whole,
    })
}

/// Runs a script over a schema that is shared with a machine, in the order of these events.
fn follow_over(
    alloc: Global,
    schema: &Schema,
    shared: Arc<Schema>,
    script: &Script,
    events: &[Event],
) -> Result<Followed, AllocError>
    requires same { arc_value shared ≡ schema.now }
    requires script { IsScript schema.now script.now }
    requires short { script.now.bytes ≤ MAX_FILE_BYTES }
    ensures follows { IfOk result (λ followed. Follows schema.now script.now events.now followed.ran.history.events followed.whole) }
    ensures left { IfOk result (λ followed. followed.ran.left ≡ left script.now.seqs (reverse followed.ran.history.events)) }
    ensures notes { IfOk result (λ followed. followed.whole ≡ true → followed.ran.notes ≡ callbacks script.now.seqs followed.ran.history.events) }
{
    let mut machine = Machine::new(alloc, shared, script.seqs);
    let whole = follow_all(&mut machine, alloc, schema, script, events)?;
    drain_whole(&mut machine, alloc, schema, script, whole)?;
    leave(alloc, machine, whole)
}

/// Runs a script whose lines come in the order of these events, of which the sequence alone counts: the
/// joins in order; then, for each event behind as many as there are joins, what is next for its sequence,
/// the automatic reply that is due or else its next line, until nothing is next for one, or it isn't there;
/// and where nothing is next for any sequence, takes until no message is ready, each with its automatic
/// reply. Only then it is whole. Each reply is looked up in tables of the events before. Takes time in
/// proportion to the script and to what its commands take, and to the logarithm of how much there is.
pub fn follow(
    alloc: Global,
    schema: Arc<Schema>,
    script: &Script,
    events: &[Event],
) -> Result<Followed, AllocError>
    requires script { IsScript (arc_value schema) script.now }
    requires short { script.now.bytes ≤ MAX_FILE_BYTES }
    ensures follows { IfOk result (λ followed. Follows (arc_value schema) script.now events.now followed.ran.history.events followed.whole) }
    ensures left { IfOk result (λ followed. followed.ran.left ≡ left script.now.seqs (reverse followed.ran.history.events)) }
    ensures notes { IfOk result (λ followed. followed.whole ≡ true → followed.ran.notes ≡ callbacks script.now.seqs followed.ran.history.events) }
{
    let Ok(shared) = Arc::try_clone(&schema) else {
        return Err(AllocError);
    };
    follow_over(alloc, &schema, shared, script, events)
}
