//! A run whose sequences do their lines in the order of given events.

ghost use Rattle.std.specs.Prelude.{◌≡◌, ◌<◌, ◌≤◌, [], List, drop, length, reverse, true, IfErr, IfOk, IfSome, OnOk};
ghost use Rattle.std.specs.Arc.{arc_value};
ghost use Rattle.mj_base.specs.declared.limits.TheConstants.{MAX_EVENTS, MAX_FILE_BYTES};
ghost use Rattle.bind_model.specs.Left.{left};
ghost use Rattle.bind_model.specs.declared.event.Event.{Event as event};
ghost use Rattle.callback_laws.specs.Callbacks.{callbacks};
ghost use Rattle.call_script.specs.Sound.{IsScript};
ghost use Rattle.script_run.specs.Draining.{HaveRested, IsUnspent, past_in};
ghost use Rattle.script_run.specs.Followed.{Follows};
ghost use Rattle.script_run.specs.Order.{joins_of};
ghost use Rattle.script_run.specs.Rooms.{AreUnnamed};
ghost use Rattle.script_run.specs.steps.Desks.{IfSpent};
ghost use Rattle.script_run.specs.steps.Following.{AnyMore, HaveFollowed, HaveStopped, IsAmid};
ghost use Rattle.script_run.specs.steps.Going.{HasJoined};
ghost use Rattle.script_run.specs.steps.Traced.{Traced, TracedOf};

use crate::agenda::{Agenda, all_agendas, count_left};
use crate::cut::Cut;
use crate::desks::at_rest;
use crate::draining::{Drained, cut_off, drain};
use crate::joins::do_joins;
use crate::plain::Plain;
use crate::run::open_rooms;
use crate::runner::{Ran, end};
use crate::single::do_next;
use bind_core::Core;
use bind_model::Event;
use call_script::Script;
use mj_base::{Items, SeqId};
use mj_schema::Schema;
use remote_receiver::Rest;
use script_names::{NoMemory, Rooms};
use std::alloc::Global;
use std::sync::Arc;

/// What a run leaves whose lines came in the order of given events, and whether it is a whole one. Where
/// it isn't, nothing is said of callbacks.
#[derive(Drop)]
pub struct Followed {
    pub ran: Ran,
    pub whole: bool,
}

/// Lets the sequence of this number do what is next for it: whether it is there, and anything is.
fn follow_one<'s>(
    core: Core,
    rests: &mut [Rest<Plain>],
    rooms: &mut [Rooms],
    agendas: &mut [Agenda<'s>],
    alloc: Global,
    schema: &Schema,
    script: &'s Script,
    seq: SeqId,
) -> (Core, Result<bool, Cut>)
    requires script { IsScript schema.now script.now }
    requires amid { (after_joins : List event) × (middle : List event)
        × IsAmid schema.now script.now after_joins middle core rests.old rooms.old agendas.old }
    ensures more { IfOk result.1 (λ more. (after_joins middle : List event)
        → IsAmid schema.now script.now after_joins middle core rests.old rooms.old agendas.old
        → AnyMore schema.now script.now after_joins middle result.0 rests.new rooms.new agendas.new seq more) }
    ensures cut { IfErr result.1 (λ cut. IfSpent cut (MAX_EVENTS ≤ length core.events)) }
{
    if seq.0 >= script.seqs {
        return (core, Ok(false));
    }
    let room = &mut rooms[seq.0 as usize];
    let agenda = &mut agendas[seq.0 as usize];
    do_next(core, rests, room, agenda, alloc, schema, script, seq)
}

/// Lets the sequence of each of these events do what is next for it, in order, until nothing is for one.
fn follow_events<'s>(
    core: Core,
    rests: &mut [Rest<Plain>],
    rooms: &mut [Rooms],
    agendas: &mut [Agenda<'s>],
    alloc: Global,
    schema: &Schema,
    script: &'s Script,
    events: &[Event],
) -> (Core, Result<(), Cut>)
    requires script { IsScript schema.now script.now }
    requires amid { (after_joins : List event) × IsAmid schema.now script.now after_joins [] core rests.old rooms.old agendas.old }
    ensures stopped { OnOk result.1 ((after_joins : List event) → IsAmid schema.now script.now after_joins [] core rests.old rooms.old agendas.old
        → HaveStopped schema.now script.now after_joins events.now result.0 rests.new rooms.new agendas.new) }
    ensures unspent { script.now.bytes ≤ MAX_FILE_BYTES → IfErr result.1 IsUnspent }
{
    let mut core = core;
    for event in events {
        let (back, more) = follow_one(
            core, rests, rooms, agendas, alloc, schema, script, event.seq,
        );
        core = back;
        match more {
            Ok(true) => {}
            Ok(false) => return (core, Ok(())),
            Err(cut) => return (core, Err(cut)),
        }
    }
    (core, Ok(()))
}

/// Follows these events with the agendas of all sequences: whether nothing is next for any of them then.
fn follow_plans<'s>(
    core: Core,
    rests: &mut [Rest<Plain>],
    rooms: &mut [Rooms],
    agendas: &mut [Agenda<'s>],
    alloc: Global,
    schema: &Schema,
    script: &'s Script,
    events: &[Event],
) -> (Core, Result<bool, Cut>)
    requires script { IsScript schema.now script.now }
    requires amid { (after_joins : List event) × IsAmid schema.now script.now after_joins [] core rests.old rooms.old agendas.old }
    ensures followed { IfOk result.1 (λ whole. (after_joins : List event)
        → IsAmid schema.now script.now after_joins [] core rests.old rooms.old agendas.old
        → HaveFollowed schema.now script.now after_joins events.now result.0 rests.new whole) }
    ensures unspent { script.now.bytes ≤ MAX_FILE_BYTES → IfErr result.1 IsUnspent }
{
    let (core, done) = follow_events(core, rests, rooms, agendas, alloc, schema, script, events);
    match done {
        Ok(()) => (core, Ok(count_left(agendas) == 0)),
        Err(cut) => (core, Err(cut)),
    }
}

/// The events behind so many.
fn behind(events: &[Event], count: usize) -> &[Event]
    ensures { result.now ≡ drop count events.now }
{
    match events.get(count..) {
        Some(rest) => rest,
        None => &[],
    }
}

/// Follows events behind the joins.
fn follow_lines(
    core: Core,
    rests: &mut [Rest<Plain>],
    rooms: &mut [Rooms],
    alloc: Global,
    schema: &Schema,
    script: &Script,
    events: &[Event],
) -> (Core, Result<bool, Cut>)
    requires script { IsScript schema.now script.now }
    requires joined { HasJoined schema.now script.now (length (joins_of script.now)) core rests.old rooms.old }
    ensures followed { IfOk result.1 (HaveFollowed schema.now script.now (past_in core) (drop (length (past_in core)) events.now) result.0 rests.new) }
    ensures unspent { script.now.bytes ≤ MAX_FILE_BYTES → IfErr result.1 IsUnspent }
{
    let Ok(mut agendas) = all_agendas(alloc, script) else {
        return (core, Err(Cut::Memory));
    };
    let rest = behind(events, core.history().len());
    follow_plans(
        core,
        rests,
        rooms,
        &mut agendas,
        alloc,
        schema,
        script,
        rest,
    )
}

/// Does the joins, and follows the events behind them.
fn follow_all(
    core: Core,
    rests: &mut [Rest<Plain>],
    rooms: &mut [Rooms],
    alloc: Global,
    schema: &Schema,
    script: &Script,
    events: &[Event],
) -> (Core, Result<bool, Cut>)
    requires script { IsScript schema.now script.now }
    requires schema { core.schema ≡ schema.now }
    requires seqs { core.seqs ≡ script.now.seqs }
    requires fresh { core.events ≡ [] }
    requires rested { HaveRested core rests.old }
    requires rooms { AreUnnamed script.now.seqs script.now.names rooms.old }
    ensures traced { IfOk result.1 (Traced schema.now script.now events.now result.0 rests.new) }
    ensures unspent { script.now.bytes ≤ MAX_FILE_BYTES → IfErr result.1 IsUnspent }
{
    let (core, done) = do_joins(core, rests, rooms, alloc, schema, script.lines.as_slice());
    match done {
        Ok(()) => follow_lines(core, rests, rooms, alloc, schema, script, events),
        Err(cut) => (core, Err(cut)),
    }
}

/// What a run leaves that stopped before its end.
fn stopped(core: Core, held: Rooms, alloc: Global) -> Drained
    ensures cut { result.cut ≡ None }
    ensures core { result.core ≡ core }
{
    Drained {
        core,
        notes: Ok(Items::from_vec(Vec::new(alloc))),
        held,
        cut: None,
    }
}

/// Follows events on a core without any: what that leaves, and whether it is a whole run. What the sequences
/// hold then is added to the rooms.
fn trace(
    core: Core,
    rooms: &mut Vec<Rooms>,
    alloc: Global,
    schema: &Schema,
    script: &Script,
    events: &[Event],
    rests: Vec<Rest<Plain>>,
) -> (Drained, bool)
    requires script { IsScript core.schema script.now }
    requires schema { core.schema ≡ schema.now }
    requires seqs { core.seqs ≡ script.now.seqs }
    requires fresh { core.events ≡ [] }
    requires rested { HaveRested core rests.items }
    requires none { rooms.old.items ≡ [] }
    ensures traced { TracedOf core.schema script.now events.now result.0 result.1 }
    ensures unspent { script.now.bytes ≤ MAX_FILE_BYTES → IfSome result.0.cut IsUnspent }
{
    if open_rooms(rooms, alloc, script).is_err() {
        return (cut_off(core, Rooms::new(alloc), Cut::Memory), false);
    }
    let mut rests = rests;
    let (core, done) = follow_all(core, &mut rests, rooms, alloc, schema, script, events);
    match done {
        Ok(true) => (drain(alloc, core, schema, script, rests), true),
        Ok(false) => (stopped(core, Rooms::new(alloc), alloc), false),
        Err(cut) => (cut_off(core, Rooms::new(alloc), cut), false),
    }
}

/// Runs a script whose lines come in the order of these events, of which the sequence alone counts: the
/// joins in order; then, for each event behind as many as there are joins, what is next for its sequence,
/// the automatic reply that is due or else its next line, until nothing is next for one, or it isn't there;
/// and where nothing is next for any sequence, takes until no message is ready, each with its automatic
/// reply. Only then it is whole. Takes time in proportion to the script and to what its commands take.
pub fn follow(
    alloc: Global,
    schema: Arc<Schema>,
    script: &Script,
    events: &[Event],
) -> Result<Followed, NoMemory>
    requires script { IsScript (arc_value schema) script.now }
    requires short { script.now.bytes ≤ MAX_FILE_BYTES }
    ensures follows { IfOk result (λ followed. Follows (arc_value schema) script.now events.now followed.ran.history.events followed.whole) }
    ensures left { IfOk result (λ followed. followed.ran.left ≡ left script.now.seqs (reverse followed.ran.history.events)) }
    ensures notes { IfOk result (λ followed. followed.whole ≡ true → followed.ran.notes ≡ callbacks script.now.seqs followed.ran.history.events) }
{
    let rests = at_rest(alloc, script.seqs)?;
    let Ok(shared) = Arc::try_clone(&schema) else {
        return Err(NoMemory);
    };
    let core = Core::new(alloc, shared, script.seqs);
    let mut rooms = Vec::new(alloc);
    let (drained, whole) = trace(core, &mut rooms, alloc, &schema, script, events, rests);
    let ran = end(alloc, drained, rooms)?;
    Ok(Followed { ran, whole })
}
