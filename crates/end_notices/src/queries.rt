//! The queries of an end that wait for a version.

ghost use Rattle.std.specs.Prelude.{ℕ, ◌≡◌, ◌+◌, ◌-◌, ◌<◌, ◌==◌, if◌then◌else◌, OnOk, IsTrue};
ghost use Rattle.mj_base.specs.declared.limits.TheConstants.{MAX_EVENTS};
ghost use Rattle.end_notices.specs.Kept.{has_place, waiting};

use std::alloc::{AllocError, Global};
use std::collections::BTreeMap;
use std::marker::Model;

/// How many queries wait at each endpoint of an end; where none ever did there may be no place. Contracts see
/// a list of ids and numbers.
#[derive(Drop)]
pub struct Queries {
    counts: BTreeMap<u32, u32>,
}

impl Model for Queries {
    ghost use Rattle.std.specs.Prelude.{ℕ, List};

    ghost Value = { List (ℕ × ℕ) };

    ghost view = { λ queries. queries.counts.entries };
}

impl Queries {
    /// No queries. Takes no memory.
    pub fn new(alloc: Global) -> Queries
        ensures { (id : ℕ) → waiting result id ≡ 0 }
    {
        Queries {
            counts: BTreeMap::new(alloc),
        }
    }

    /// How many wait at the endpoint of an id.
    pub fn count(&self, id: u32) -> u32
        ensures { result ≡ waiting self.now id }
    {
        self.counts.get(&id).copied().unwrap_or(0)
    }

    /// Makes a place for those of the endpoint of an id.
    pub fn reserve(&mut self, id: u32) -> Result<(), AllocError>
        ensures same { (n : ℕ) → waiting self.new n ≡ waiting self.old n }
        ensures there { OnOk result (IsTrue (has_place self.new id)) }
    {
        self.counts.entry(id)?.or_insert(0);
        Ok(())
    }

    /// One more waits at the endpoint of an id, for which there is a place.
    pub fn ask(&mut self, id: u32)
        requires place { IsTrue (has_place self.old id) }
        requires few { waiting self.old id < MAX_EVENTS }
        ensures { (n : ℕ) → waiting self.new n ≡ (if id == n then waiting self.old id + 1 else waiting self.old n) }
    {
        let more = self.count(id) + 1;
        if let Some(count) = self.counts.get_mut(&id) {
            *count = more;
        }
    }

    /// One that waited at the endpoint of an id has its version.
    pub fn answer(&mut self, id: u32)
        requires some { 0 < waiting self.old id }
        ensures { (n : ℕ) → waiting self.new n ≡ (if id == n then waiting self.old id - 1 else waiting self.old n) }
    {
        let less = self.count(id) - 1;
        if let Some(count) = self.counts.get_mut(&id) {
            *count = less;
        }
    }
}
