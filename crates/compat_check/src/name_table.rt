//! Definitions of one sort by their full names.

ghost use Rattle.std.specs.Prelude.{◌≡◌, OnOk, ℕ, List, Some, None, if◌then◌else◌};
ghost use Rattle.std.specs.Option.{option_or};
ghost use Rattle.std.specs.Str.{bytes_eq};
ghost use Rattle.indexmap.specs.IndexMap.{get_by_text};
ghost use Rattle.compat_model.specs.Verdicts.{is_name};

use indexmap::IndexMap;
use mj_base::{Items, Text};
use std::alloc::{AllocError, Global};
use std::marker::Model;

/// Full names by their numbers, from 0; a definition that no name means has none. Contracts see the names.
#[derive(Drop)]
pub(crate) struct NameTable {
    names: Items<Option<Text>>,
    numbers: IndexMap<String, usize>,
}

impl Model for NameTable {
    ghost use Rattle.std.specs.Prelude.{List, ℕ, Option, ◌≡◌, position};
    ghost use Rattle.indexmap.specs.IndexMap.{get_by_text};
    ghost use Rattle.compat_model.specs.Verdicts.{is_name};

    ghost Value = { List (Option (List ℕ)) };

    ghost view = { λ t. t.names };

    ghost invariant = { λ t. (name : List ℕ) → get_by_text t.numbers name ≡ position (is_name name) t.names };
}

/// Notes the number of a name, where it has none.
fn note(
    alloc: Global,
    numbers: &mut IndexMap<String, usize>,
    name: &str,
    number: usize,
) -> Result<(), AllocError>
    ensures { OnOk result ((q : List ℕ) → get_by_text numbers.new q ≡
        option_or (get_by_text numbers.old q) (if bytes_eq q name.now then Some number else None)) }
{
    if numbers.get(name).is_some() {
        return Ok(());
    }
    numbers.insert(String::from_str(alloc, name)?, number)?;
    Ok(())
}

/// Notes the number of a name, where there is a name and it has none.
fn note_known(
    alloc: Global,
    numbers: &mut IndexMap<String, usize>,
    name: &Option<Text>,
    number: usize,
) -> Result<(), AllocError>
    ensures { OnOk result ((q : List ℕ) → get_by_text numbers.new q ≡
        option_or (get_by_text numbers.old q) (if is_name q name.now then Some number else None)) }
{
    match name {
        Some(name) => note(alloc, numbers, name.as_str(), number),
        None => Ok(()),
    }
}

impl NameTable {
    ghost use Rattle.std.specs.Prelude.{◌≡◌, IfOk, position};
    ghost use Rattle.compat_model.specs.Verdicts.{is_name};

    /// The table of these names.
    pub(crate) fn new(alloc: Global, names: Items<Option<Text>>) -> Result<NameTable, AllocError>
        ensures { IfOk result (λ made. made ≡ names) }
    {
        let mut numbers = IndexMap::new(alloc);
        for (number, name) in names.as_slice().iter().enumerate() {
            note_known(alloc, &mut numbers, name, number)?;
        }
        Ok(NameTable { names, numbers })
    }

    /// The number of the first of the names that is this one; none exactly where none is.
    pub(crate) fn find(&self, name: &str) -> Option<usize>
        ensures { result ≡ position (is_name name.now) self.now }
    {
        self.numbers.get(name).copied()
    }
}
