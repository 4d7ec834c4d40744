//! How many ids ends drew.

ghost use Rattle.std.specs.Prelude.{◌≡◌, [], true, if◌then◌else◌, OnOk};
ghost use Rattle.std.specs.Map.{lookup};
ghost use Rattle.std.specs.Option.{option_copied};
ghost use Rattle.mj_base.specs.declared.ids.EndId.{EndId as end_id};
ghost use Rattle.handle_table.specs.Things.{same_end};
ghost use Rattle.endpoint_router.specs.Table.{drawn_of, is_counted};

use mj_base::EndId;
use std::alloc::{AllocError, Global};
use std::collections::BTreeMap;
use std::marker::Model;

/// How many ids ends drew; one without a place drew none. Contracts see a list of ends and numbers.
#[derive(Drop)]
pub(crate) struct Draws {
    counts: BTreeMap<EndId, u32>,
}

impl Model for Draws {
    ghost use Rattle.std.specs.Prelude.{ℕ, List};
    ghost use Rattle.mj_base.specs.declared.ids.EndId.{EndId};

    ghost Value = { List (EndId × ℕ) };

    ghost view = { λ draws. draws.counts.entries };
}

impl Draws {
    /// No ids drawn. Takes no memory.
    pub(crate) fn new(alloc: Global) -> Draws
        ensures { result ≡ [] }
    {
        Draws {
            counts: BTreeMap::new(alloc),
        }
    }

    /// What stands in the place of an end, where it has one.
    fn get(&self, end: EndId) -> Option<&u32>
        ensures { option_copied result ≡ lookup (same_end end) self.now }
    {
        self.counts.get(&end)
    }

    /// Whether there is a place for how many ids an end drew.
    fn is_counted(&self, end: EndId) -> bool
        ensures { result ≡ is_counted self.now end }
    {
        self.get(end).is_some()
    }

    /// How many ids an end drew.
    pub(crate) fn count(&self, end: EndId) -> u32
        ensures { result ≡ drawn_of self.now end }
    {
        self.counts.get(&end).copied().unwrap_or(0)
    }

    /// Makes a place for how many ids an end drew.
    pub(crate) fn make_count(&mut self, end: EndId) -> Result<(), AllocError>
        ensures same { (x : end_id) → drawn_of self.new x ≡ drawn_of self.old x }
        ensures there { OnOk result (is_counted self.new end ≡ true) }
        ensures keeps { (x : end_id) → is_counted self.old x ≡ true → is_counted self.new x ≡ true }
    {
        if self.is_counted(end) {
            return Ok(());
        }
        self.counts.insert(end, 0)?;
        Ok(())
    }

    /// An end, for which there is a place, drew so many ids.
    pub(crate) fn set(&mut self, end: EndId, count: u32)
        requires { is_counted self.old end ≡ true }
        ensures counts { (x : end_id) → drawn_of self.new x ≡ (if same_end end x then count else drawn_of self.old x) }
        ensures keeps { (x : end_id) → is_counted self.old x ≡ true → is_counted self.new x ≡ true }
    {
        if let Some(drawn) = self.counts.get_mut(&end) {
            *drawn = count;
        }
    }
}
