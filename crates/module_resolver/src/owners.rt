//! What has one full name.

ghost use Rattle.std.specs.Prelude.{◌≡◌};
ghost use Rattle.module_resolver.specs.Seats.{file_of};

use crate::seen::Seen;
use crate::target::Target;
use std::alloc::{AllocError, Global};
use std::marker::Model;

/// The file in which something stands.
fn file_of(target: Target) -> u32
    ensures { result ≡ file_of target }
{
    match target {
        Target::Definition { file, .. } | Target::Enumerator { file, .. } => file,
    }
}

/// What has one full name, in the order in which a look-up prefers it. Nearly always it is one.
#[derive(Drop)]
pub struct Owners {
    first: Target,
    others: Vec<Target>,
}

impl Model for Owners {
    ghost use Rattle.std.specs.Prelude.{List, ◌∷◌};
    ghost use Rattle.module_resolver.specs.declared.target.Target.{Target};

    ghost Value = { List Target };

    ghost view = { λ o. o.first ∷ o.others.items };
}

impl Owners {
    ghost use Rattle.std.specs.Prelude.{◌≡◌, ℕ, Bool, true, ◌∷◌, [], OnOk, Some};
    ghost use Rattle.std.specs.List.{list_any};
    ghost use Rattle.std.specs.Option.{option_or};
    ghost use Rattle.import_order.specs.Imports.{has};
    ghost use Rattle.module_resolver.specs.Seats.{file_of, first_seen};
    ghost use Rattle.module_resolver.specs.steps.Owners.{where_seen};

    /// This alone. Takes no memory.
    pub(crate) fn new(alloc: Global, first: Target) -> Owners
        ensures { result ≡ first ∷ [] }
    {
        Owners {
            first,
            others: Vec::new(alloc),
        }
    }

    /// The file of the last of these.
    fn last_file(&self) -> u32
        ensures { (p : ℕ → Bool) → p result ≡ true → list_any (λ t. p (file_of t)) self.now ≡ true }
    {
        match self.others.as_slice() {
            [.., last] => file_of(*last),
            [] => file_of(self.first),
        }
    }

    /// Adds another behind these, unless the last of them stands in the same file: where that file
    /// is seen, none behind it is taken.
    pub(crate) fn add(&mut self, target: Target) -> Result<(), AllocError>
        ensures { OnOk result ((p : ℕ → Bool) → first_seen p self.new ≡ option_or (first_seen p self.old) (where_seen p (file_of target) (Some target))) }
    {
        if self.last_file() == file_of(target) {
            return Ok(());
        }
        self.others.push(target)?;
        Ok(())
    }

    /// The first of these that stands in a file that is seen.
    pub(crate) fn first_seen(&self, seen: &Seen) -> Option<Target>
        ensures { result ≡ first_seen (has seen.now) self.now }
    {
        if seen.has(file_of(self.first)) {
            return Some(self.first);
        }
        for target in self.others.as_slice() {
            if seen.has(file_of(*target)) {
                return Some(*target);
            }
        }
        None
    }
}
