//! Names by their numbers.

ghost use Rattle.std.specs.Prelude.{◌≡◌, IfOk, OnOk, ℕ, List, Some, None, if◌then◌else◌};
ghost use Rattle.std.specs.Option.{option_or};
ghost use Rattle.std.specs.Str.{bytes_eq};
ghost use Rattle.indexmap.specs.IndexMap.{get_by_text};
ghost use Rattle.import_order.specs.Numbers.{number_of};

use indexmap::IndexMap;
use mj_base::{Items, Text};
use std::alloc::{AllocError, Global};
use std::marker::Model;

/// Names by their numbers, from 0. A name may stand more than once.
#[derive(Drop)]
pub struct NameTable {
    names: Items<Text>,
    numbers: IndexMap<String, usize>,
}

impl Model for NameTable {
    ghost use Rattle.std.specs.Prelude.{List, ℕ, ◌≡◌};
    ghost use Rattle.import_order.specs.Numbers.{number_of};
    ghost use Rattle.indexmap.specs.IndexMap.{get_by_text};

    ghost Value = { List (List ℕ) };

    ghost view = { λ t. t.names };

    ghost invariant = { λ t. (name : List ℕ) → get_by_text t.numbers name ≡ number_of name t.names };
}

/// Notes the number of a name, where it has none.
fn note(
    alloc: Global,
    numbers: &mut IndexMap<String, usize>,
    name: &str,
    number: usize,
) -> Result<(), AllocError>
    ensures { OnOk result ((q : List ℕ) → get_by_text numbers.new q ≡
        option_or (get_by_text numbers.old q) (if bytes_eq q name.now then Some number else None)) }
{
    if numbers.get(name).is_some() {
        return Ok(());
    }
    numbers.insert(String::from_str(alloc, name)?, number)?;
    Ok(())
}

impl NameTable {
    ghost use Rattle.std.specs.Prelude.{◌≡◌, IfOk};
    ghost use Rattle.import_order.specs.Numbers.{number_of};

    /// The table of these names.
    pub fn new(alloc: Global, names: Items<Text>) -> Result<NameTable, AllocError>
        ensures { IfOk result (λ made. made ≡ names) }
    {
        let mut numbers = IndexMap::new(alloc);
        for (number, name) in names.as_slice().iter().enumerate() {
            note(alloc, &mut numbers, name.as_str(), number)?;
        }
        Ok(NameTable { names, numbers })
    }

    /// The number of the first of the names that is this one; none exactly where none is.
    pub fn find(&self, name: &str) -> Option<usize>
        ensures { result ≡ number_of name.now self.now }
    {
        self.numbers.get(name).copied()
    }
}
