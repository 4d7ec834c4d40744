//! The ends where a take may be ready.

ghost use Rattle.std.specs.Prelude.{◌≡◌, ◌&&◌, ◌||◌, [], not, OnOk, OnErr};
ghost use Rattle.mj_base.specs.declared.ids.EndId.{EndId as end_id};
ghost use Rattle.handle_table.specs.Things.{same_end};
ghost use Rattle.bind_core.specs.steps.Watching.{KeepsTaken};
ghost use Rattle.bind_core.specs.EndSets.{has_end};
ghost use Rattle.bind_core.specs.steps.FirstTaken.{Ascends, first_taken};
ghost use Rattle.bind_core.specs.Takers.{ready_taker};
ghost use Rattle.core_state.specs.Agreement.{Holds};

use crate::takers::ready_taker;
use core_state::State;
use handle_table::Thing;
use mj_base::{EndId, SeqId};
use std::alloc::{AllocError, Global};
use std::collections::BTreeSet;
use std::marker::Model;

/// A set of ends. Contracts see them in order.
#[derive(Drop)]
pub(crate) struct EndSet {
    ends: BTreeSet<EndId>,
}

impl Model for EndSet {
    ghost use Rattle.std.specs.Prelude.{List};
    ghost use Rattle.mj_base.specs.declared.ids.EndId.{EndId};

    ghost Value = { List EndId };

    ghost view = { λ set. set.ends.keys };
}

impl EndSet {
    /// No ends. Takes no memory.
    pub(crate) fn new(alloc: Global) -> EndSet
        ensures { result ≡ [] }
    {
        EndSet {
            ends: BTreeSet::new(alloc),
        }
    }

    /// Adds an end. Without memory nothing changes.
    pub(crate) fn insert(&mut self, end: EndId) -> Result<(), AllocError>
        ensures ok { OnOk result ((x : end_id) → has_end self.new x ≡ (has_end self.old x || same_end end x)) }
        ensures err { OnErr result (self.new ≡ self.old) }
    {
        self.ends.insert(end)?;
        Ok(())
    }

    /// Takes an end away.
    fn remove(&mut self, end: EndId)
        ensures { (x : end_id) → has_end self.new x ≡ (has_end self.old x && not (same_end end x)) }
    {
        self.ends.remove(&end);
    }

    /// Takes an end away where no take is ready.
    pub(crate) fn settle(&mut self, state: &State, end: EndId)
        requires { Holds state.now }
        ensures { KeepsTaken state.now self.old self.new }
    {
        if ready_taker(state, end).is_none() {
            self.remove(end);
        }
    }

    /// Takes those of these away where no take is ready.
    pub(crate) fn settle_all(&mut self, state: &State, things: &[Thing])
        requires { Holds state.now }
        ensures { KeepsTaken state.now self.old self.new }
    {
        for thing in things {
            if let Thing::End(end) = thing {
                self.settle(state, *end);
            }
        }
    }

    /// The first end where a take is ready, behind the sequence that takes there.
    pub(crate) fn first_taken(&self, state: &State) -> Option<(SeqId, EndId)>
        requires { Holds state.now }
        ensures first { result ≡ first_taken (ready_taker state.now) self.now }
        ensures ascends { Ascends self.now }
    {
        for end in self.ends.iter() {
            if let Some(seq) = ready_taker(state, *end) {
                return Some((seq, *end));
            }
        }
        None
    }
}
