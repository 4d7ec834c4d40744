//! A whole run with a worker for each sequence.

ghost use Rattle.std.specs.Prelude.{ℕ, ◌≡◌, ◌≤◌, ◌<◌, [], Err, Some, IfNone, IfOk, IfSome, List, None, OnOk, length, reverse, slice_get};
ghost use Rattle.std.specs.Arc.{arc_value};
ghost use Rattle.mj_base.specs.declared.limits.TheConstants.{MAX_EVENTS, MAX_FILE_BYTES};
ghost use Rattle.bind_hub.specs.Hubs.{schema_in, seqs_in};
ghost use Rattle.bind_model.specs.Left.{left};
ghost use Rattle.bind_model.specs.Replies.{Legal};
ghost use Rattle.bind_model.specs.WireOf.{wire_of};
ghost use Rattle.bind_model.specs.declared.event.Event.{Event as event_of};
ghost use Rattle.callback_laws.specs.Callbacks.{callbacks};
ghost use Rattle.call_script.specs.Sound.{IsScript};
ghost use Rattle.remote_receiver.specs.Waits.{AreDrawn};
ghost use Rattle.remote_receiver.specs.declared.rest.Rest.{Rest as rest_of};
ghost use Rattle.script_names.specs.Held.{HaveNames};
ghost use Rattle.script_run.specs.Draining.{HaveRested, IsUnspent};
ghost use Rattle.script_run.specs.OfScript.{OfScript};
ghost use Rattle.script_run.specs.Order.{joins_of};
ghost use Rattle.script_run.specs.declared.plain.Plain.{Plain as plain};
ghost use Rattle.script_run.specs.steps.Going.{HasJoined};
ghost use Rattle.threaded_run.specs.steps.Crews.{AllDone, HaveSpent, ReturnedAll, ReturnedSpent};
ghost use Rattle.threaded_run.specs.steps.Joins.{HavePart, IsFull, core_of};
ghost use Rattle.threaded_run.specs.steps.Passes.{ArePasses, HaveAll};
ghost use Rattle.threaded_run.specs.steps.Plays.{MayDrain, PlayedAtOnce};

use crate::crew::Crew;
use crate::joins::do_joins;
use crate::seats::{rise_all, seat_all};
use crate::workers::work_rows;
use bind_core::Core;
use bind_hub::{Hub, Pass};
use call_script::Script;
use mj_schema::Schema;
use remote_receiver::Rest;
use script_names::{NoMemory, Rooms};
use script_run::{Cut, Drained, Plain, Ran, at_rest, cut_off, drain, end, open_rooms};
use std::alloc::Global;
use std::sync::{Arc, Wait};
use std::thread::Threads;
use step_gate::{Gate, Gates};

/// The joins, for lists of passes and rooms.
fn join_rows<W: Wait>(
    rt: &W,
    alloc: Global,
    hub: &Hub,
    passes: &mut Vec<Pass>,
    rooms: &mut Vec<Rooms>,
    script: &Script,
) -> Result<(), Cut>
    requires script { IsScript (schema_in hub.now) script.now }
    requires seqs { seqs_in hub.now ≡ script.now.seqs }
    requires count { length passes.old.items ≡ seqs_in hub.now }
    requires rooms { length rooms.old.items ≡ seqs_in hub.now }
    requires passes { ArePasses hub.now.turn.board.shared.table_id (schema_in hub.now) (seqs_in hub.now) passes.old.items }
    requires fresh { HaveAll hub.now.turn.board.shared.table_id (schema_in hub.now) (seqs_in hub.now) [] passes.old.items }
    ensures len { length passes.new.items ≡ length passes.old.items }
    ensures passes { ArePasses hub.now.turn.board.shared.table_id (schema_in hub.now) (seqs_in hub.now) passes.new.items }
    ensures joined { (rests : List (rest_of plain))
        → HasJoined (schema_in hub.now) script.now 0 (core_of (schema_in hub.now) (seqs_in hub.now) []) rests rooms.old.items
        → OnOk result ((joins : List event_of)
        × HaveAll hub.now.turn.board.shared.table_id (schema_in hub.now) (seqs_in hub.now) joins passes.new.items
        × HasJoined (schema_in hub.now) script.now (length (joins_of script.now)) (core_of (schema_in hub.now) (seqs_in hub.now) joins) rests
        rooms.new.items) }
    ensures spent { (rests : List (rest_of plain))
        → HasJoined (schema_in hub.now) script.now 0 (core_of (schema_in hub.now) (seqs_in hub.now) []) rests rooms.old.items
        → result ≡ Err Cut.Spent
        → HavePart hub.now.turn.board.shared.table_id (schema_in hub.now) (seqs_in hub.now) script.now passes.new.items × IsFull passes.new.items }
{
    let lines = script.lines.as_slice();
    do_joins(
        rt,
        alloc,
        hub,
        passes.as_mut_slice(),
        rooms.as_mut_slice(),
        lines,
    )
}

/// All sequences do their lines, each in a thread of its own.
fn side_by_side<R: Wait + Threads + Sync, G: Gate + Send + Drop, K: Gates<G>>(
    rt: &R,
    alloc: Global,
    hub: &Hub,
    crew: &mut Crew,
    schema: &Schema,
    script: &Script,
    gates: &K,
) -> Result<(), Cut>
    requires script { IsScript schema.now script.now }
    requires hub { (schema_in hub.now ≡ schema.now) × (seqs_in hub.now ≡ script.now.seqs) }
    requires counts { (length crew.old.rests.items ≡ length crew.old.passes.items) × (length crew.old.rooms.items ≡ length crew.old.passes.items) }
    requires passes { ArePasses hub.now.turn.board.shared.table_id (schema_in hub.now) (seqs_in hub.now) crew.old.passes.items }
    requires drawn { (k : ℕ) (p : _) (rest : _) → slice_get crew.old.passes.items k ≡ Some p → slice_get crew.old.rests.items k ≡ Some rest
        → AreDrawn p.place.me.0.seen rest.jobs.waiting.callbacks }
    requires names { (k : ℕ) (room : _) → slice_get crew.old.rooms.items k ≡ Some room → HaveNames script.now.names room }
    ensures counts { (length crew.new.passes.items ≡ length crew.old.passes.items) × (length crew.new.rests.items ≡ length crew.old.passes.items) }
    ensures passes { ArePasses hub.now.turn.board.shared.table_id (schema_in hub.now) (seqs_in hub.now) crew.new.passes.items }
    ensures done { OnOk result (ReturnedAll script.now schema.now (seqs_in hub.now) crew.old.passes.items crew.old.rests.items crew.old.rooms.items
        crew.new.passes.items crew.new.rests.items) }
    ensures spent { result ≡ Err Cut.Spent → ReturnedSpent script.now schema.now (seqs_in hub.now) crew.old.passes.items crew.old.rests.items
        crew.old.rooms.items crew.new.passes.items crew.new.rests.items }
{
    let Ok(mut workers) = Vec::with_capacity(alloc, crew.passes.len()) else {
        return Err(Cut::Memory);
    };
    seat_all(rt, hub, crew, gates, &mut workers);
    work_rows(rt, &mut workers, alloc, schema, script);
    let done = rise_all(&mut workers, crew);
    workers.destroy_empty();
    done
}

/// The joins, and then all lines.
fn play<R: Wait + Threads + Sync, G: Gate + Send + Drop, K: Gates<G>>(
    rt: &R,
    alloc: Global,
    hub: &Hub,
    crew: &mut Crew,
    schema: &Schema,
    script: &Script,
    gates: &K,
) -> Result<(), Cut>
    requires script { IsScript schema.now script.now }
    requires hub { (schema_in hub.now ≡ schema.now) × (seqs_in hub.now ≡ script.now.seqs) }
    requires count { length crew.old.passes.items ≡ seqs_in hub.now }
    requires empty { crew.old.rooms.items ≡ [] }
    requires passes { ArePasses hub.now.turn.board.shared.table_id (schema_in hub.now) (seqs_in hub.now) crew.old.passes.items }
    requires fresh { HaveAll hub.now.turn.board.shared.table_id (schema_in hub.now) (seqs_in hub.now) [] crew.old.passes.items }
    requires rested { HaveRested (core_of (schema_in hub.now) (seqs_in hub.now) []) crew.old.rests.items }
    ensures count { length crew.new.passes.items ≡ seqs_in hub.now }
    ensures passes { ArePasses hub.now.turn.board.shared.table_id (schema_in hub.now) (seqs_in hub.now) crew.new.passes.items }
    ensures done { OnOk result (AllDone hub.now.turn.board.shared.table_id (schema_in hub.now) (seqs_in hub.now) script.now
        crew.new.passes.items crew.new.rests.items) }
    ensures spent { result ≡ Err Cut.Spent
        → HaveSpent hub.now.turn.board.shared.table_id (schema_in hub.now) (seqs_in hub.now) script.now crew.new.passes.items }
{
    if open_rooms(&mut crew.rooms, alloc, script).is_err() {
        return Err(Cut::Memory);
    }
    match join_rows(rt, alloc, hub, &mut crew.passes, &mut crew.rooms, script) {
        Ok(()) => side_by_side(rt, alloc, hub, crew, schema, script, gates),
        Err(cut) => Err(cut),
    }
}

/// The takes on the core that the hub left, where all lines were done.
fn finish(
    alloc: Global,
    core: Core,
    schema: &Schema,
    script: &Script,
    rests: Vec<Rest<Plain>>,
    done: Result<(), Cut>,
) -> Drained
    requires script { IsScript schema.now script.now }
    requires short { script.now.bytes ≤ MAX_FILE_BYTES }
    requires schema { core.schema ≡ schema.now }
    requires may { OnOk done (MayDrain schema.now script.now core rests.items) }
    requires unspent { done ≡ Err Cut.Spent → ⊥ }
    ensures played { IfNone result.cut (PlayedAtOnce schema.now script.now result) }
    ensures unspent { IfSome result.cut IsUnspent }
{
    match done {
        Ok(()) => drain(alloc, core, schema, script, rests),
        Err(cut) => cut_off(core, Rooms::new(alloc), cut),
    }
}

/// Runs a script to its end, with a worker for each sequence: the joins in order, each through the pass of the sequence that asks for it,
/// and all passes see each before the next; then the lines, which each sequence does in order in a thread of its own, so that the turns
/// of the sequences may be others in each run; and then takes until no message is ready. `gates` makes the gate of each worker. Directly
/// after a take of a request that an automatic reply is for comes the reply of the same sequence, though others may have had their turns
/// between. Each call with a response has a callback, which runs where the response is taken, and is dropped where it never is. The
/// history has fewer than 16,777,216 events. Waits until all workers are done.
pub fn run_at_once<R: Wait + Threads + Sync, G: Gate + Send + Drop, K: Gates<G>>(
    rt: &R,
    alloc: Global,
    schema: Arc<Schema>,
    script: &Script,
    gates: &K,
) -> Result<Ran, NoMemory>
    requires script { IsScript (arc_value schema) script.now }
    requires short { script.now.bytes ≤ MAX_FILE_BYTES }
    ensures legal { IfOk result (λ ran. Legal (wire_of (arc_value schema)) script.now.seqs ran.history.events) }
    ensures script { IfOk result (λ ran. OfScript (arc_value schema) script.now None ran.history.events) }
    ensures left { IfOk result (λ ran. ran.left ≡ left script.now.seqs (reverse ran.history.events)) }
    ensures notes { IfOk result (λ ran. ran.notes ≡ callbacks script.now.seqs ran.history.events) }
    ensures few { IfOk result (λ ran. length ran.history.events < MAX_EVENTS) }
{
    let rests = at_rest(alloc, script.seqs)?;
    let Ok(shared) = Arc::try_clone(&schema) else {
        return Err(NoMemory);
    };
    let Ok((hub, passes)) = Hub::start(alloc, shared, script.seqs) else {
        return Err(NoMemory);
    };
    let mut crew = Crew {
        passes,
        rests,
        rooms: Vec::new(alloc),
    };
    let done = play(rt, alloc, &hub, &mut crew, &schema, script, gates);
    let Crew {
        passes,
        rests,
        rooms,
    } = crew;
    let core = hub.close(passes);
    let drained = finish(alloc, core, &schema, script, rests, done);
    end(alloc, drained, rooms)
}
