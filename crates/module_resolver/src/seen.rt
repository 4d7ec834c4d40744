//! The files that a file sees.

use indexmap::IndexSet;
use mj_base::Items;
use std::alloc::{AllocError, Global};
use std::marker::Model;

/// The numbers of the files that a file sees. Whether a file is one of them is known at once.
#[derive(Drop)]
pub struct Seen {
    numbers: Items<u32>,
    known: IndexSet<u32>,
}

impl Model for Seen {
    ghost use Rattle.std.specs.Prelude.{List, ℕ, ◌≡◌, nat_eq};
    ghost use Rattle.indexmap.specs.IndexSet.{contains};
    ghost use Rattle.import_order.specs.Imports.{has};

    ghost Value = { List ℕ };

    ghost view = { λ s. s.numbers };

    ghost invariant = { λ s. (number : ℕ) → contains nat_eq s.known number ≡ has s.numbers number };
}

impl Seen {
    ghost use Rattle.std.specs.Prelude.{◌≡◌, IfOk};
    ghost use Rattle.import_order.specs.Imports.{has};

    /// The files of these numbers.
    pub fn new(alloc: Global, numbers: Items<u32>) -> Result<Seen, AllocError>
        ensures { IfOk result (λ made. made ≡ numbers) }
    {
        let mut known = IndexSet::new(alloc);
        for number in numbers.as_slice() {
            known.insert(*number)?;
        }
        Ok(Seen { numbers, known })
    }

    /// Whether the file of this number is seen.
    pub fn has(&self, number: u32) -> bool
        ensures { result ≡ has self.now number }
    {
        self.known.contains(&number)
    }
}
