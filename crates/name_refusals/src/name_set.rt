//! Sets of names.

ghost use Rattle.std.specs.Prelude.{◌≡◌, OnOk};
ghost use Rattle.name_refusals.specs.Known.{no_names, with_name};
ghost use Rattle.name_refusals.specs.steps.Sets.{holds};

use indexmap::IndexMap;
use std::alloc::{AllocError, Global};

/// A set of names.
#[derive(Drop)]
pub struct NameSet {
    names: IndexMap<String, ()>,
}

impl NameSet {
    ghost use Rattle.std.specs.Prelude.{◌≡◌, OnOk};
    ghost use Rattle.name_refusals.specs.Known.{no_names, with_name};
    ghost use Rattle.name_refusals.specs.steps.Sets.{holds};

    /// No names. Takes no memory.
    pub fn new(alloc: Global) -> NameSet
        ensures { holds result ≡ no_names }
    {
        NameSet {
            names: IndexMap::new(alloc),
        }
    }

    /// Whether the name is one of these.
    pub fn contains(&self, name: &str) -> bool
        ensures { result ≡ holds self.now name.now }
    {
        self.names.get(name).is_some()
    }

    /// Adds a name.
    pub fn add(&mut self, alloc: Global, name: &str) -> Result<(), AllocError>
        ensures { OnOk result (holds self.new ≡ with_name (holds self.old) name.now) }
    {
        self.names.insert(String::from_str(alloc, name)?, ())?;
        Ok(())
    }
}
