//! Numbers of which it is known at once whether they stand in a list.

use std::alloc::{AllocError, Global};
use std::marker::Model;

/// Numbers below a limit, in the order in which they were added: none stands twice.
#[derive(Drop)]
pub struct Marked {
    numbers: Vec<u32>,
    marks: Vec<bool>,
}

impl Model for Marked {
    ghost use Rattle.std.specs.Prelude.{length};
    ghost use Rattle.import_order.specs.steps.Taking.{NumberList, AreMarked};

    ghost Value = { NumberList };

    ghost view = { λ m. record { limit = length m.marks.items; numbers = m.numbers.items } };

    ghost invariant = { λ m. AreMarked m.marks.items m.numbers.items };
}

impl Marked {
    ghost use Rattle.std.specs.Prelude.{◌≡◌, ◌<◌, ◌∷◌, ◌++◌, [], length, IfOk, OnOk, false};
    ghost use Rattle.import_order.specs.Imports.{has, AreDistinct};
    ghost use Rattle.import_order.specs.steps.Taking.{AreBelow};

    /// No numbers yet, and the limit below which they are to be.
    pub fn new(alloc: Global, limit: usize) -> Result<Marked, AllocError>
        ensures { IfOk result (λ made. made ≡ record { limit = limit; numbers = [] }) }
    {
        Ok(Marked {
            numbers: Vec::new(alloc),
            marks: vec![in alloc; false; limit]?,
        })
    }

    /// Whether the number is one of these. Where it isn't, there are fewer than the limit.
    pub fn has(&self, number: u32) -> bool
        requires { number < self.now.limit }
        ensures is { result ≡ has self.now.numbers number }
        ensures room { result ≡ false → length self.now.numbers < self.now.limit }
    {
        self.marks[number as usize]
    }

    /// Adds a number: there were fewer than the limit.
    pub fn push(&mut self, number: u32) -> Result<(), AllocError>
        requires below { number < self.old.limit }
        requires fresh { has self.old.numbers number ≡ false }
        ensures room { OnOk result (length self.old.numbers < self.old.limit) }
        ensures ok { OnOk result (self.new ≡ record { limit = self.old.limit; numbers = self.old.numbers ++ number ∷ [] }) }
    {
        self.numbers.push(number)?;
        self.marks[number as usize] = true;
        Ok(())
    }

    /// The numbers, in order.
    pub fn numbers(&self) -> &[u32]
        ensures are { result.now ≡ self.now.numbers }
        ensures below { AreBelow self.now.limit self.now.numbers }
        ensures distinct { AreDistinct self.now.numbers }
    {
        self.numbers.as_slice()
    }

    /// The numbers, in order. Takes no memory.
    pub fn into_vec(self) -> Vec<u32>
        ensures { result.items ≡ self.numbers }
    {
        let Marked { numbers, .. } = self;
        numbers
    }
}
