//! Versions that are asked for and required, flushes, and ends that wait for them. What they come to stands in the conformance cases.

ghost use Rattle.std.specs.Prelude.{◌≡◌, ◌<◌};

use crate::desk_tests::{Adds, bound, schema_of};
use bind_core::{Alone, Core};
use bind_model::{Command, Notified, Refused, Reply, Stepper, Why};
use mj_base::{EndId, SeqId};
use remote_receiver::{Desk, Job, Promise};
use std::alloc::Global;
use std::process::Abort;
use std::sync::Arc;
use std::test::Fail;

/// What is told of a notice that is written.
fn written(rt: &impl Abort, outcome: Result<Reply, Refused>) -> Notified {
    match outcome {
        Ok(Reply::Notified(notified)) => notified,
        _other => panic!(rt; "not written"),
    }
}

/// Why nothing is taken at an end.
fn untaken<C: Job<P>, P: Stepper>(
    rt: &impl Abort,
    desk: &mut Desk<C, P>,
    alloc: Global,
    end: EndId,
) -> Why
    requires seq { (P.me desk.old.stepper).0 < P.seqs desk.old.stepper }
    ensures same { (P.schema desk.new.stepper ≡ P.schema desk.old.stepper) × (P.seqs desk.new.stepper ≡ P.seqs desk.old.stepper)
        × (P.me desk.new.stepper ≡ P.me desk.old.stepper) }
{
    match desk.take(alloc, end) {
        Ok(Reply::No(why, Command::Take(_))) => why,
        _other => panic!(rt; "something was taken"),
    }
}

/// Has an end wait for a flush of another.
fn paused<C: Promise, P: Stepper>(
    rt: &impl Abort,
    desk: &mut Desk<C, P>,
    alloc: Global,
    end: EndId,
    other: EndId,
    flush: u32,
)
    requires seq { (P.me desk.old.stepper).0 < P.seqs desk.old.stepper }
    ensures same { (P.schema desk.new.stepper ≡ P.schema desk.old.stepper) × (P.seqs desk.new.stepper ≡ P.seqs desk.old.stepper)
        × (P.me desk.new.stepper ≡ P.me desk.old.stepper) }
{
    match desk.pause(alloc, end, other, flush) {
        Ok(Reply::Pausing) => {}
        _other => panic!(rt; "doesn't wait"),
    }
}

#[test]
fn a_desk_asks_requires_flushes_and_waits(rt: HostRuntime) -> Result<(), Fail> {
    let alloc = rt.alloc();
    let schema = Arc::new(alloc, schema_of(alloc, 1)?)?;
    let mut core = Core::new(alloc, schema, 1);
    let stepper = Alone {
        core: &mut core,
        seq: SeqId(0),
    };
    let mut desk: Desk<Adds, Alone> = Desk::new(alloc, stepper);
    let (x, y) = bound(&rt, &mut desk, alloc);
    let asking = written(&rt, desk.query(alloc, x, 0));
    let requiring = written(&rt, desk.require(alloc, x, 0, 1));
    let flushing = written(&rt, desk.flush(alloc, x));
    paused(&rt, &mut desk, alloc, x, y, 1);
    let why = untaken(&rt, &mut desk, alloc, x);
    let (_stepper, _notes) = desk.finish();
    let (_history, _over) = core.end();
    let told = [asking, requiring, flushing];
    let want = [Notified::Asking, Notified::Requiring, Notified::Flushing(1)];
    assert!(rt; told.as_slice() == want.as_slice());
    assert!(rt; why == Why::Paused(y));
    Ok(())
}
