//! The ends where a take may be ready.

ghost use Rattle.std.specs.Prelude.{◌≡◌, ◌&&◌, ◌||◌, [], is_some, not, true, OnErr, OnOk};
ghost use Rattle.mj_base.specs.declared.ids.EndId.{EndId as end_id};
ghost use Rattle.handle_table.specs.Things.{same_end};
ghost use Rattle.bind_core.specs.EndSets.{has_end};
ghost use Rattle.bind_core.specs.steps.FirstTaken.{Ascends, first_taken};
ghost use Rattle.bind_core.specs.Takers.{ready_taker};
ghost use Rattle.bind_core.specs.steps.Watching.{HasNear, IsWithin, KeepsTaken};
ghost use Rattle.core_state.specs.Agreement.{Holds};
ghost use Rattle.event_tables.specs.AsCore.{state_of};

use crate::near::peer;
use crate::newest::last_event;
use crate::takers::ready_taker;
use bind_core::waits::gone_of;
use event_tables::EventTables;
use handle_table::Thing;
use mj_base::{EndId, SeqId};
use std::alloc::{AllocError, Global};
use std::collections::BTreeSet;
use std::marker::Model;

/// A set of ends. Contracts see them in order.
#[derive(Drop)]
pub struct Watched {
    ends: BTreeSet<EndId>,
}

impl Model for Watched {
    ghost use Rattle.std.specs.Prelude.{List};
    ghost use Rattle.mj_base.specs.declared.ids.EndId.{EndId};

    ghost Value = { List EndId };

    ghost view = { λ watched. watched.ends.keys };
}

impl Watched {
    /// No ends. Takes no memory.
    pub(crate) fn new(alloc: Global) -> Watched
        ensures { result ≡ [] }
    {
        Watched {
            ends: BTreeSet::new(alloc),
        }
    }

    /// Adds an end. Without memory nothing changes.
    fn insert(&mut self, end: EndId) -> Result<(), AllocError>
        ensures ok { OnOk result ((x : end_id) → has_end self.new x ≡ (has_end self.old x || same_end end x)) }
        ensures err { OnErr result (self.new ≡ self.old) }
    {
        self.ends.insert(end)?;
        Ok(())
    }

    /// Takes an end away.
    fn remove(&mut self, end: EndId)
        ensures { (x : end_id) → has_end self.new x ≡ (has_end self.old x && not (same_end end x)) }
    {
        self.ends.remove(&end);
    }

    /// Adds an end, where there is one, and its peer.
    pub(crate) fn add_near(
        &mut self,
        tables: &EventTables,
        end: Option<EndId>,
    ) -> Result<(), AllocError>
        requires { Holds (state_of tables.now) }
        ensures more { IsWithin self.old self.new }
        ensures near { OnOk result (HasNear (state_of tables.now) end self.new) }
    {
        let Some(end) = end else {
            return Ok(());
        };
        let peer = peer(tables, end);
        self.insert(end)?;
        self.insert(peer)
    }

    /// Adds an end where a take is ready.
    fn add_one(&mut self, tables: &EventTables, end: EndId) -> Result<(), AllocError>
        requires { Holds (state_of tables.now) }
        ensures more { IsWithin self.old self.new }
        ensures ready { OnOk result (is_some (ready_taker (state_of tables.now) end) ≡ true → has_end self.new end ≡ true) }
    {
        match ready_taker(tables, end) {
            Some(_) => self.insert(end),
            None => Ok(()),
        }
    }

    /// Adds those of these ends where a take is ready.
    pub(crate) fn add_ready(
        &mut self,
        tables: &EventTables,
        ends: &[EndId],
    ) -> Result<(), AllocError>
        requires { Holds (state_of tables.now) }
        ensures more { IsWithin self.old self.new }
        ensures ready { OnOk result ((x : end_id) → has_end ends.now x ≡ true → is_some (ready_taker (state_of tables.now) x) ≡ true
            → has_end self.new x ≡ true) }
    {
        for end in ends {
            self.add_one(tables, *end)?;
        }
        Ok(())
    }

    /// Takes an end away where no take is ready.
    fn settle_one(&mut self, tables: &EventTables, end: EndId)
        requires { Holds (state_of tables.now) }
        ensures { KeepsTaken (state_of tables.now) self.old self.new }
    {
        if ready_taker(tables, end).is_none() {
            self.remove(end);
        }
    }

    /// Takes an end, where there is one, and its peer away where no take is ready.
    pub(crate) fn settle(&mut self, tables: &EventTables, end: Option<EndId>)
        requires { Holds (state_of tables.now) }
        ensures { KeepsTaken (state_of tables.now) self.old self.new }
    {
        if let Some(end) = end {
            self.settle_one(tables, end);
            self.settle_one(tables, peer(tables, end));
        }
    }

    /// Takes those of these away where no take is ready.
    fn settle_all(&mut self, tables: &EventTables, things: &[Thing])
        requires { Holds (state_of tables.now) }
        ensures { KeepsTaken (state_of tables.now) self.old self.new }
    {
        for thing in things {
            if let Thing::End(end) = thing {
                self.settle_one(tables, *end);
            }
        }
    }

    /// Takes what went with the last event away where no take is ready.
    pub(crate) fn settle_gone(&mut self, tables: &EventTables)
        requires { Holds (state_of tables.now) }
        ensures { KeepsTaken (state_of tables.now) self.old self.new }
    {
        match last_event(&tables.log) {
            Some(event) => self.settle_all(tables, gone_of(&event.told)),
            None => {}
        }
    }

    /// The first end where a take is ready, behind the sequence that takes there.
    pub(crate) fn first_taken(&self, tables: &EventTables) -> Option<(SeqId, EndId)>
        requires { Holds (state_of tables.now) }
        ensures first { result ≡ first_taken (ready_taker (state_of tables.now)) self.now }
        ensures ascends { Ascends self.now }
    {
        for end in self.ends.iter() {
            if let Some(seq) = ready_taker(tables, *end) {
                return Some((seq, *end));
            }
        }
        None
    }
}
