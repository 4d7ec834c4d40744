//! Ends that wait, by what ends their waits.

ghost use Rattle.std.specs.Prelude.{◌≡◌, ◌+◌, ◌++◌, [], ◌∷◌, true, false, if◌then◌else◌, IsTrue, OnOk, OnErr};
ghost use Rattle.std.specs.Option.{option_copied};
ghost use Rattle.bind_core.specs.EndSets.{has_end};
ghost use Rattle.bind_core.specs.Causes.{Grows, ends_for, flush_cause, gone_cause, has_list, list_of, same_cause};
ghost use Rattle.bind_core.specs.declared.waiting.Cause.{Cause as cause_name};

use mj_base::EndId;
use std::alloc::{AllocError, Global};
use std::collections::BTreeMap;
use std::marker::Model;

/// What ends waits for an end: that it goes, or that it consumes the flush of a number.
#[derive(Clone, Copy, PartialEq, Eq, PartialOrd, Ord)]
pub struct Cause {
    /// The end that goes, or that consumes the flush.
    pub end: EndId,
    /// 0 where it goes, and else 1 above the flush.
    pub what: u64,
}

impl Cause {
    /// That an end goes.
    pub fn gone(end: EndId) -> Cause
        ensures { result ≡ gone_cause end }
    {
        Cause { end, what: 0 }
    }

    /// That an end consumes the flush of a number.
    pub fn flushed(end: EndId, flush: u32) -> Cause
        ensures { result ≡ flush_cause end flush }
    {
        Cause {
            end,
            what: u64::from(flush) + 1,
        }
    }
}

/// A list of ends. Contracts see it.
#[derive(Drop)]
pub(crate) struct EndList {
    ends: Vec<EndId>,
}

impl Model for EndList {
    ghost use Rattle.std.specs.Prelude.{List};
    ghost use Rattle.mj_base.specs.declared.ids.EndId.{EndId};

    ghost Value = { List EndId };

    ghost view = { λ list. list.ends.items };
}

impl EndList {
    /// No ends. Takes no memory.
    fn new(alloc: Global) -> EndList
        ensures { result ≡ [] }
    {
        EndList {
            ends: Vec::new(alloc),
        }
    }

    /// Adds an end behind the others. Without memory nothing changes.
    fn push(&mut self, end: EndId) -> Result<(), AllocError>
        ensures ok { OnOk result (self.new ≡ self.old ++ end ∷ []) }
        ensures err { OnErr result (self.new ≡ self.old) }
    {
        self.ends.push(end)?;
        Ok(())
    }

    /// All, in order.
    fn as_slice(&self) -> &[EndId]
        ensures { result.now ≡ self.now }
    {
        self.ends.as_slice()
    }
}

/// For each cause the ends with a wait that it ends, and maybe others.
#[derive(Drop)]
pub struct Waiting {
    lists: BTreeMap<Cause, EndList>,
}

impl Model for Waiting {
    ghost use Rattle.std.specs.Prelude.{List};
    ghost use Rattle.mj_base.specs.declared.ids.EndId.{EndId};
    ghost use Rattle.bind_core.specs.declared.waiting.Cause.{Cause};

    ghost Value = { List (Cause × List EndId) };

    ghost view = { λ waiting. waiting.lists.entries };
}

impl Waiting {
    /// No ends. Takes no memory.
    pub fn new(alloc: Global) -> Waiting
        ensures { result ≡ [] }
    {
        Waiting {
            lists: BTreeMap::new(alloc),
        }
    }

    /// The list of a cause, where there is one.
    fn get(&self, cause: Cause) -> Option<&EndList>
        ensures { option_copied result ≡ list_of self.now cause }
    {
        self.lists.get(&cause)
    }

    /// The ends whose waits a cause may end.
    pub fn ends_for(&self, cause: Cause) -> &[EndId]
        ensures { result.now ≡ ends_for self.now cause }
    {
        match self.get(cause) {
            Some(list) => list.as_slice(),
            None => &[],
        }
    }

    /// Whether a cause has a list.
    fn has_list(&self, cause: Cause) -> bool
        ensures { result ≡ has_list self.now cause }
    {
        self.get(cause).is_some()
    }

    /// Makes a list for a cause.
    fn place(&mut self, alloc: Global, cause: Cause) -> Result<(), AllocError>
        ensures same { (other : cause_name) → ends_for self.new other ≡ ends_for self.old other }
        ensures there { OnOk result (IsTrue (has_list self.new cause)) }
    {
        if self.has_list(cause) {
            return Ok(());
        }
        self.lists.insert(cause, EndList::new(alloc))?;
        Ok(())
    }

    /// Adds an end to the list of a cause.
    fn add_in(&mut self, cause: Cause, end: EndId) -> Result<(), AllocError>
        requires { IsTrue (has_list self.old cause) }
        ensures more { Grows self.old self.new }
        ensures added { OnOk result (has_end (ends_for self.new cause) end ≡ true) }
    {
        match self.lists.get_mut(&cause) {
            Some(list) => list.push(end),
            None => Ok(()),
        }
    }

    /// Adds an end to those whose waits a cause may end.
    pub fn add(&mut self, alloc: Global, cause: Cause, end: EndId) -> Result<(), AllocError>
        ensures more { Grows self.old self.new }
        ensures added { OnOk result (has_end (ends_for self.new cause) end ≡ true) }
    {
        self.place(alloc, cause)?;
        self.add_in(cause, end)
    }

    /// Lets the list of a cause go.
    pub fn clear(&mut self, cause: Cause)
        ensures { (other : cause_name) → ends_for self.new other ≡ (if same_cause cause other then [] else ends_for self.old other) }
    {
        self.lists.remove(&cause);
    }
}
