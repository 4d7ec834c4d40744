//! Gates that hold the first step of one sequence until another has done one of its own.

ghost use Rattle.step_gate.specs.Calls.{listed};

use mj_base::SeqId;
use std::sync::atomic::{AtomicBool, Ordering};
use step_gate::{Gate, Gates, OpenGate};

/// How often the held sequence looks for the other's step.
const MOST_TURNS: u64 = 100_000_000;

/// Which sequence is held, and until which other has done its step of this number, from 0.
#[derive(Clone, Copy)]
pub struct Hold {
    pub held: u32,
    pub until: u32,
    pub step: u64,
}

/// What the gates of all workers share: which is held and until when, whether that step is done, and whether it
/// wasn't within the limit.
#[derive(Drop)]
pub struct Holds {
    hold: Hold,
    done: AtomicBool,
    missed: AtomicBool,
}

impl Holds {
    /// No step is done yet.
    pub fn new(hold: Hold) -> Holds {
        Holds {
            hold,
            done: AtomicBool::new(false),
            missed: AtomicBool::new(false),
        }
    }

    /// Whether the step didn't come within the limit.
    pub fn is_missed(&self) -> bool {
        self.missed.load(Ordering::SeqCst)
    }

    /// Before a step: the first of the held sequence waits, within the limit.
    fn wait(&self, seq: SeqId, n: u64) {
        if seq.0 != self.hold.held || n != 0 {
            return;
        }
        for _ in 0..MOST_TURNS {
            if self.done.load(Ordering::SeqCst) {
                return;
            }
        }
        self.missed.store(true, Ordering::SeqCst);
    }

    /// Behind a step: notes the one that is waited for.
    fn note(&self, seq: SeqId, n: u64) {
        if seq.0 == self.hold.until && n == self.hold.step {
            self.done.store(true, Ordering::SeqCst);
        }
    }
}

/// The gate of one worker.
#[derive(Drop)]
pub struct HoldingGate<'h> {
    holds: &'h Holds,
    inner: OpenGate,
}

impl Gate for HoldingGate<'_> {
    ghost calls = { λ gate. listed gate.inner.calls };

    fn before(&mut self, seq: SeqId, n: u64) {
        self.inner.before(seq, n);
        self.holds.wait(seq, n);
    }

    fn after(&mut self, seq: SeqId, n: u64) {
        self.inner.after(seq, n);
        self.holds.note(seq, n);
    }
}

/// Makes the gates of all workers.
#[derive(Clone, Copy)]
pub struct HoldingGates<'h> {
    pub holds: &'h Holds,
}

impl<'h> Gates<HoldingGate<'h>> for HoldingGates<'h> {
    fn gate(&self, _seq: SeqId) -> HoldingGate<'h> {
        HoldingGate {
            holds: self.holds,
            inner: OpenGate::new(),
        }
    }
}
