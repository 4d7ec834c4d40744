//! Numbers of which the least comes first.

use std::alloc::{AllocError, Global};
use std::collections::BTreeSet;
use std::marker::Model;

/// A set of numbers, from the least on.
#[derive(Drop)]
pub struct LeastFirst {
    numbers: BTreeSet<u32>,
}

impl Model for LeastFirst {
    ghost use Rattle.std.specs.Prelude.{List, ℕ};

    ghost Value = { List ℕ };

    ghost view = { λ s. s.numbers.keys };
}

impl LeastFirst {
    ghost use Rattle.std.specs.Prelude.{◌≡◌, ◌<◌, ◌==◌, ◌||◌, ◌∷◌, [], ℕ, OnOk, IfNone, IfSome};
    ghost use Rattle.std.specs.List.{All};
    ghost use Rattle.import_order.specs.Imports.{has};

    /// No numbers. Takes no memory.
    pub fn new(alloc: Global) -> LeastFirst
        ensures { result ≡ [] }
    {
        LeastFirst {
            numbers: BTreeSet::new(alloc),
        }
    }

    /// Adds a number, where it isn't there.
    pub fn insert(&mut self, number: u32) -> Result<(), AllocError>
        ensures { OnOk result ((k : ℕ) → has self.new k ≡ (has self.old k || (number == k))) }
    {
        self.numbers.insert(number)?;
        Ok(())
    }

    /// Takes out the least number; none exactly where there is none.
    pub fn pop(&mut self) -> Option<u32>
        ensures none { IfNone result (self.old ≡ []) }
        ensures least { IfSome result (λ number. self.old ≡ number ∷ self.new) }
        ensures above { IfSome result (λ number. All (λ (k : ℕ). number < k) self.new) }
    {
        self.numbers.pop_first()
    }
}
