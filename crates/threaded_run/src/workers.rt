//! Workers, each in a thread of its own.

ghost use Rattle.std.specs.Prelude.{ℕ, ◌≡◌, ◌<◌, length, slice_index_or};
ghost use Rattle.call_script.specs.Sound.{IsScript};
ghost use Rattle.remote_receiver.specs.Held.{kept_of};
ghost use Rattle.script_run.specs.AtDesk.{seen_by};
ghost use Rattle.threaded_run.specs.steps.Workers.{IsReady, WorkerDid};

use bind_model::Stepper;
use call_script::Script;
use mj_schema::Schema;
use remote_receiver::Desk;
use script_names::Rooms;
use script_run::{Cut, Plain, work_on};
use std::alloc::Global;
use std::thread::{Threads, for_each_mut};
use step_gate::Gate;

/// A sequence at its desk, with what it holds and its gate, and why it was cut off, if it was.
pub struct Worker<P: Stepper, G> {
    pub desk: Desk<Plain, P>,
    pub room: Rooms,
    pub gate: G,
    pub cut: Option<Cut>,
}

/// A sequence does its lines.
fn work_at<P: Stepper, G: Gate>(
    worker: &mut Worker<P, G>,
    alloc: Global,
    schema: &Schema,
    script: &Script,
)
    requires script { IsScript schema.now script.now }
    requires ready { IsReady script.now schema.now (seen_by P.schema P.seqs P.alone P.me P.seen worker.old.desk.stepper) worker.old.room }
    ensures home { P.home worker.new.desk.stepper ≡ P.home worker.old.desk.stepper }
    ensures did { WorkerDid script.now (seen_by P.schema P.seqs P.alone P.me P.seen worker.old.desk.stepper)
        (seen_by P.schema P.seqs P.alone P.me P.seen worker.new.desk.stepper) (kept_of worker.old.desk.jobs) (kept_of worker.new.desk.jobs)
        worker.old.room worker.new.room worker.new.cut }
{
    let cut = work_on(
        &mut worker.desk,
        &mut worker.room,
        alloc,
        schema,
        script,
        &mut worker.gate,
    )
    .err();
    worker.cut = cut;
}

/// Each sequence does its lines in a thread of its own. Where no thread can be made, its lines are done in this one.
pub fn work_all<P: Stepper + Send, G: Gate + Send, R: Threads + Sync>(
    rt: &R,
    workers: &mut [Worker<P, G>],
    alloc: Global,
    schema: &Schema,
    script: &Script,
)
    requires script { IsScript schema.now script.now }
    requires ready { (k : ℕ) (d : _) → k < length workers.old → IsReady script.now schema.now
        (seen_by P.schema P.seqs P.alone P.me P.seen (slice_index_or workers.old k d).desk.stepper) (slice_index_or workers.old k d).room }
    ensures len { length workers.new ≡ length workers.old }
    ensures home { (k : ℕ) (d : _) → k < length workers.old
        → P.home (slice_index_or workers.new k d).desk.stepper ≡ P.home (slice_index_or workers.old k d).desk.stepper }
    ensures did { (k : ℕ) (d : _) → k < length workers.old → WorkerDid script.now
        (seen_by P.schema P.seqs P.alone P.me P.seen (slice_index_or workers.old k d).desk.stepper)
        (seen_by P.schema P.seqs P.alone P.me P.seen (slice_index_or workers.new k d).desk.stepper)
        (kept_of (slice_index_or workers.old k d).desk.jobs) (kept_of (slice_index_or workers.new k d).desk.jobs)
        (slice_index_or workers.old k d).room (slice_index_or workers.new k d).room (slice_index_or workers.new k d).cut }
{
    let threads = workers.len();
    if threads == 0 {
        return;
    }
    for_each_mut(
        rt,
        workers,
        threads,
        &|_k: usize, worker: &mut Worker<P, G>|
            requires { IsScript schema.now script.now × IsReady script.now schema.now
                (seen_by P.schema P.seqs P.alone P.me P.seen worker.old.desk.stepper) worker.old.room }
            ensures { (P.home worker.new.desk.stepper ≡ P.home worker.old.desk.stepper)
                × WorkerDid script.entry.now (seen_by P.schema P.seqs P.alone P.me P.seen worker.old.desk.stepper)
                (seen_by P.schema P.seqs P.alone P.me P.seen worker.new.desk.stepper) (kept_of worker.old.desk.jobs)
                (kept_of worker.new.desk.jobs) worker.old.room worker.new.room worker.new.cut }
        {
            work_at(worker, alloc, schema, script);
        },
    );
}

/// The same for a list of workers.
pub fn work_rows<P: Stepper + Send, G: Gate + Send, R: Threads + Sync>(
    rt: &R,
    workers: &mut Vec<Worker<P, G>>,
    alloc: Global,
    schema: &Schema,
    script: &Script,
)
    requires script { IsScript schema.now script.now }
    requires ready { (k : ℕ) (d : _) → k < length workers.old.items → IsReady script.now schema.now
        (seen_by P.schema P.seqs P.alone P.me P.seen (slice_index_or workers.old.items k d).desk.stepper) (slice_index_or workers.old.items k d).room }
    ensures len { length workers.new.items ≡ length workers.old.items }
    ensures home { (k : ℕ) (d : _) → k < length workers.old.items
        → P.home (slice_index_or workers.new.items k d).desk.stepper ≡ P.home (slice_index_or workers.old.items k d).desk.stepper }
    ensures did { (k : ℕ) (d : _) → k < length workers.old.items → WorkerDid script.now
        (seen_by P.schema P.seqs P.alone P.me P.seen (slice_index_or workers.old.items k d).desk.stepper)
        (seen_by P.schema P.seqs P.alone P.me P.seen (slice_index_or workers.new.items k d).desk.stepper)
        (kept_of (slice_index_or workers.old.items k d).desk.jobs) (kept_of (slice_index_or workers.new.items k d).desk.jobs)
        (slice_index_or workers.old.items k d).room (slice_index_or workers.new.items k d).room (slice_index_or workers.new.items k d).cut }
{
    work_all(rt, workers.as_mut_slice(), alloc, schema, script);
}
