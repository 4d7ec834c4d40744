//! The flushes that an end consumed.

ghost use Rattle.std.specs.Prelude.{ℕ, ◌≡◌, ◌==◌, ◌||◌, false, OnOk, OnErr};
ghost use Rattle.std.specs.BTreeSet.{contains};
ghost use Rattle.std.specs.Ordering.{nat_cmp};

use std::alloc::{AllocError, Global};
use std::collections::BTreeSet;
use std::marker::Model;

/// The numbers of the flushes that an end consumed. An end that was written to raw may consume any.
#[derive(Drop)]
pub struct MetFlushes {
    numbers: BTreeSet<u32>,
}

impl Model for MetFlushes {
    ghost use Rattle.std.specs.Prelude.{ℕ};
    ghost use Rattle.std.specs.BTreeSet.{BTreeSet};

    ghost Value = { BTreeSet ℕ };

    ghost view = { λ met. met.numbers };
}

impl MetFlushes {
    /// No flushes. Takes no memory.
    pub fn new(alloc: Global) -> MetFlushes
        ensures { (k : ℕ) → contains nat_cmp result k ≡ false }
    {
        MetFlushes {
            numbers: BTreeSet::new(alloc),
        }
    }

    /// Whether the flush of a number was consumed.
    pub fn has(&self, flush: u32) -> bool
        ensures { result ≡ contains nat_cmp self.now flush }
    {
        self.numbers.contains(&flush)
    }

    /// Notes that the flush of a number was consumed. Without memory nothing changes.
    pub fn meet(&mut self, flush: u32) -> Result<(), AllocError>
        ensures ok { OnOk result ((k : ℕ) → contains nat_cmp self.new k ≡ (contains nat_cmp self.old k || (flush == k))) }
        ensures err { OnErr result (self.new ≡ self.old) }
    {
        self.numbers.insert(flush)?;
        Ok(())
    }
}
