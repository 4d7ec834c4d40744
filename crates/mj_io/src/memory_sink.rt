//! A sink in memory, with a list of writes that are to fail.

ghost use Rattle.std.specs.Prelude.{◌≡◌, ◌≢◌, ◌≤◌, [], length, min, Some, Err, IfOk, OnOk, OnErr};
ghost use Rattle.mj_io.specs.Outside.{Rose, Wrote, after_fault, taken_by};
ghost use Rattle.mj_io.specs.InMemory.{after_call, IsToFail};

use crate::{Sink, SinkError};
use std::alloc::Global;

/// A sink in memory that takes at most `most` bytes a write.
#[derive(Drop)]
pub struct MemorySink {
    text: Vec<u8>,
    most: usize,
    failing: Vec<u64>,
    calls: u64,
    faults: u64,
}

impl MemorySink {
    ghost use Rattle.mj_io.specs.InMemory.{sink_state, plan_of_sink, most_of};

    /// An empty sink. The writes with the numbers of `failing`, counted from 0, fail; a write takes
    /// at most `most` bytes.
    pub fn new(alloc: Global, most: usize, failing: Vec<u64>) -> MemorySink
        ensures state { sink_state result ≡ record { held = Some []; faults = 0 } }
        ensures plan { plan_of_sink result ≡ record { calls = 0; failing = failing.items } }
        ensures most { most_of result ≡ most }
    {
        MemorySink {
            text: Vec::new(alloc),
            most,
            failing,
            calls: 0,
            faults: 0,
        }
    }

    /// What was written.
    pub fn text(&self) -> &[u8]
        ensures { (sink_state self.now).held ≡ Some result.now }
    {
        self.text.as_slice()
    }
}

impl Sink for MemorySink {
    ghost use Rattle.mj_io.specs.InMemory.{sink_state, plan_of_sink, most_of};

    ghost state = { sink_state };

    /// Takes as much of the piece as it may. It fails at the calls of its list, and for want of
    /// memory, which is `Failed` too.
    fn write(&mut self, piece: &[u8]) -> Result<usize, SinkError>
        ensures count { IfOk result (λ n. n ≤ length piece.now) }
        ensures wrote { Wrote (sink_state self.old) (sink_state self.new) (taken_by result piece.now) }
        ensures stuck { IfOk result (λ n. n ≡ 0 → piece.now ≢ [] → Rose (sink_state self.old).faults (sink_state self.new).faults) }
        ensures failed { OnErr result (Rose (sink_state self.old).faults (sink_state self.new).faults) }
        ensures counted { OnErr result ((sink_state self.new).faults ≡ after_fault (sink_state self.old).faults) }
        ensures stuck_once { IfOk result (λ n. n ≡ 0 → piece.now ≢ [] → (sink_state self.new).faults ≡ after_fault (sink_state self.old).faults) }
        ensures uncounted { IfOk result (λ n. n ≢ 0 → (sink_state self.new).faults ≡ (sink_state self.old).faults) }
        ensures uncounted_empty { OnOk result (piece.now ≡ [] → (sink_state self.new).faults ≡ (sink_state self.old).faults) }

        ensures plan { plan_of_sink self.new ≡ after_call (plan_of_sink self.old) }
        ensures same_most { most_of self.new ≡ most_of self.old }
        ensures fails { IsToFail (plan_of_sink self.old) → result ≡ Err SinkError.Failed }
        ensures takes { IfOk result (λ n. n ≡ min (most_of self.old) (length piece.now)) }
    {
        let fails = self.failing.contains(&self.calls);
        self.calls = self.calls.saturating_add(1);
        let count = piece.len().min(self.most);
        if fails || self.text.extend_from_slice(&piece[..count]).is_err() {
            self.faults = self.faults.saturating_add(1);
            return Err(SinkError::Failed);
        }
        if count == 0 && !piece.is_empty() {
            self.faults = self.faults.saturating_add(1);
        }
        Ok(count)
    }
}
