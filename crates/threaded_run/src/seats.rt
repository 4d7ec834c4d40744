//! Each pass sits down at the hub with its desk and its room, and rises again.

ghost use Rattle.std.specs.Prelude.{ℕ, ◌≡◌, ◌⊎◌, ◌+◌, ◌≤◌, [], None, Some, Ok, Err, IfErr, OnOk, length, slice_get, vec_capacity};
ghost use Rattle.bind_hub.specs.Hubs.{schema_in, seqs_in};
ghost use Rattle.bind_hub.specs.Passes.{IsPassOf};
ghost use Rattle.remote_receiver.specs.Held.{kept_of};
ghost use Rattle.remote_receiver.specs.Waits.{AreDrawn};
ghost use Rattle.threaded_run.specs.steps.Passes.{ArePasses};
ghost use Rattle.threaded_run.specs.steps.Workers.{IsSeated};

use crate::crew::{Crew, Place};
use crate::workers::Worker;
use bind_hub::{Hub, Seat};
use mj_base::SeqId;
use script_run::Cut;
use std::sync::Wait;
use step_gate::{Gate, Gates};

/// A pass sits down at its desk, with its room and its gate.
fn seat<'h, R: Wait, G: Gate, K: Gates<G>>(
    rt: &'h R,
    hub: &'h Hub,
    place: Place,
    gates: &K,
) -> Worker<Seat<'h, R>, G>
    requires pass { IsPassOf hub.now.turn.board.shared.table_id (schema_in hub.now) (seqs_in hub.now)
        place.pass.number place.pass.place.table_id place.pass.place.me.0 }
    requires drawn { AreDrawn place.pass.place.me.0.seen place.rest.jobs.waiting.callbacks }
    ensures hub { result.desk.stepper.hub.now ≡ hub.now }
    ensures pass { result.desk.stepper.pass ≡ place.pass }
    ensures kept { kept_of result.desk.jobs ≡ kept_of place.rest.jobs }
    ensures room { result.room ≡ place.room }
{
    let Place { pass, rest, room } = place;
    let gate = gates.gate(SeqId(pass.number as u32));
    let desk = rest.wake(Seat::new(hub, rt, pass));
    Worker {
        desk,
        room,
        gate,
        cut: None,
    }
}

/// Workers of all sequences, the last first, in a list that has room for them.
pub fn seat_all<'h, R: Wait, G: Gate, K: Gates<G>>(
    rt: &'h R,
    hub: &'h Hub,
    crew: &mut Crew,
    gates: &K,
    workers: &mut Vec<Worker<Seat<'h, R>, G>>,
)
    requires room { (workers.old.items ≡ []) × (length crew.old.passes.items ≤ vec_capacity workers.old) }
    requires counts { (length crew.old.rests.items ≡ length crew.old.passes.items) × (length crew.old.rooms.items ≡ length crew.old.passes.items) }
    requires passes { ArePasses hub.now.turn.board.shared.table_id (schema_in hub.now) (seqs_in hub.now) crew.old.passes.items }
    requires drawn { (k : ℕ) (p : _) (rest : _) → slice_get crew.old.passes.items k ≡ Some p → slice_get crew.old.rests.items k ≡ Some rest
        → AreDrawn p.place.me.0.seen rest.jobs.waiting.callbacks }
    ensures empty { (crew.new.passes.items ≡ []) × (crew.new.rests.items ≡ []) × (crew.new.rooms.items ≡ []) }
    ensures capacity { (vec_capacity crew.new.passes ≡ vec_capacity crew.old.passes) × (vec_capacity crew.new.rests ≡ vec_capacity crew.old.rests)
        × (vec_capacity crew.new.rooms ≡ vec_capacity crew.old.rooms) }
    ensures count { length workers.new.items ≡ length crew.old.passes.items }
    ensures hub { (j : ℕ) (w : _) → slice_get workers.new.items j ≡ Some w → w.desk.stepper.hub.now ≡ hub.now }
    ensures each { (j : ℕ) (w : _) → slice_get workers.new.items j ≡ Some w
        → IsSeated crew.old.passes.items crew.old.rests.items crew.old.rooms.items j w.desk.stepper.pass (kept_of w.desk.jobs) w.room }
{
    while let Some(place) = crew.take_last() {
        let worker = seat(rt, hub, place, gates);
        workers.push_reserved(worker);
    }
}

/// The pass rises again: what its sequence has then, and why it was cut off, if it was.
fn rise<R: Wait, G: Drop>(worker: Worker<Seat<'_, R>, G>) -> (Place, Option<Cut>)
    ensures pass { result.0.pass ≡ worker.entry.desk.stepper.pass }
    ensures kept { kept_of result.0.rest.jobs ≡ kept_of worker.entry.desk.jobs }
    ensures drawn { AreDrawn result.0.pass.place.me.0.seen result.0.rest.jobs.waiting.callbacks }
    ensures room { result.0.room ≡ worker.entry.room }
    ensures cut { result.1 ≡ worker.entry.cut }
{
    let Worker {
        desk,
        room,
        gate: _gate,
        cut,
    } = worker;
    let (seat, rest) = desk.rest();
    let pass = seat.into_pass();
    (Place { pass, rest, room }, cut)
}

/// The first of two causes.
fn first_cut(done: Result<(), Cut>, cut: Option<Cut>) -> Result<(), Cut>
    ensures ok { OnOk result ((done ≡ Ok tt) × (cut ≡ None)) }
    ensures err { IfErr result (λ why. (done ≡ Err why) ⊎ (cut ≡ Some why)) }
{
    match done {
        Err(why) => Err(why),
        Ok(()) => match cut {
            Some(why) => Err(why),
            None => Ok(()),
        },
    }
}

/// All passes rise again, in the order of the sequences: whether all have done their lines, and else the cause of the first that hasn't.
pub fn rise_all<R: Wait, G: Drop>(
    workers: &mut Vec<Worker<Seat<'_, R>, G>>,
    crew: &mut Crew,
) -> Result<(), Cut>
    requires empty { (crew.old.passes.items ≡ []) × (crew.old.rests.items ≡ []) × (crew.old.rooms.items ≡ []) }
    requires room { (length workers.old.items ≤ vec_capacity crew.old.passes) × (length workers.old.items ≤ vec_capacity crew.old.rests)
        × (length workers.old.items ≤ vec_capacity crew.old.rooms) }
    ensures empty { workers.new.items ≡ [] }
    ensures counts { (length crew.new.passes.items ≡ length workers.old.items) × (length crew.new.rests.items ≡ length workers.old.items)
        × (length crew.new.rooms.items ≡ length workers.old.items) }
    ensures back { (k : ℕ) (p : _) (rest : _) → slice_get crew.new.passes.items k ≡ Some p → slice_get crew.new.rests.items k ≡ Some rest
        → (j : ℕ) × (w : _) × (slice_get workers.old.items j ≡ Some w) × (k + (j + 1) ≡ length workers.old.items)
        × (w.desk.stepper.pass ≡ p) × (kept_of rest.jobs ≡ kept_of w.desk.jobs) × AreDrawn p.place.me.0.seen rest.jobs.waiting.callbacks }
    ensures done { OnOk result ((j : ℕ) (w : _) → slice_get workers.old.items j ≡ Some w → w.cut ≡ None) }
    ensures cut { (why : _) → result ≡ Err why → (j : ℕ) × (w : _) × (slice_get workers.old.items j ≡ Some w) × (w.cut ≡ Some why) }
{
    let mut done = Ok(());
    while let Some(worker) = workers.pop() {
        let (place, cut) = rise(worker);
        crew.put_back(place);
        done = first_cut(done, cut);
    }
    done
}
