//! What stands round the steps of workers.
#![tactic(auto)]

ghost use Rattle.std.specs.Prelude.{◌≡◌, ◌++◌, ◌∷◌, [], List};
ghost use Rattle.step_gate.specs.Calls.{listed};
ghost use Rattle.step_gate.specs.declared.GateCall.{GateCall as call};
ghost use Rattle.step_gate.specs.declared.GateCall.TheVariants as calls_of;

use mj_base::SeqId;
use std::snapshot::Snapshot;

/// A call of a gate: before or after the step of this number of a sequence.
#[derive(Clone, Copy)]
pub enum GateCall {
    Before(SeqId, u64),
    After(SeqId, u64),
}

/// Stands round a worker's steps: called before and after step `n` of the sequence `seq`, counted
/// from 0. Each worker has a gate of its own; a gate may hold what it shares with others.
pub trait Gate {
    ghost calls: { Self → List call };

    /// A step is about to be made.
    fn before(&mut self, seq: SeqId, n: u64)
        ensures { calls self.new ≡ calls self.old ++ calls_of.Before seq n ∷ [] };

    /// A step was made.
    fn after(&mut self, seq: SeqId, n: u64)
        ensures { calls self.new ≡ calls self.old ++ calls_of.After seq n ∷ [] };
}

/// Calls for clauses alone: the last one, and a mark for those before it.
#[derive(Drop)]
enum CallList {
    Empty,
    More {
        before: Snapshot<CallList>,
        last: GateCall,
    },
}

impl CallList {
    /// Notes a call more.
    fn note(&mut self, last: GateCall)
        ensures { listed self.new ≡ listed self.old ++ last ∷ [] }
    {
        *self = CallList::More {
            before: Snapshot::of(self),
            last,
        };
    }
}

/// A gate that does nothing: its calls stand in clauses alone.
#[derive(Drop)]
pub struct OpenGate {
    calls: CallList,
}

impl OpenGate {
    /// One that wasn't called yet.
    pub fn new() -> OpenGate
        ensures { listed result.calls ≡ [] }
    {
        OpenGate {
            calls: CallList::Empty,
        }
    }
}

impl Gate for OpenGate {
    ghost calls = { λ gate. listed gate.calls };

    fn before(&mut self, seq: SeqId, n: u64) {
        self.calls.note(GateCall::Before(seq, n));
    }

    fn after(&mut self, seq: SeqId, n: u64) {
        self.calls.note(GateCall::After(seq, n));
    }
}

/// Makes the gates of workers.
pub trait Gates<G> {
    /// The gate of the worker of this sequence.
    fn gate(&self, seq: SeqId) -> G;
}

/// Makes gates that do nothing.
#[derive(Clone, Copy)]
pub struct OpenGates;

impl Gates<OpenGate> for OpenGates {
    fn gate(&self, _seq: SeqId) -> OpenGate {
        OpenGate::new()
    }
}
