//! The full names of enumerators.

use mj_base::{FullName, Items, Text};
use std::marker::Model;

/// The enumerators of an enum: its full name, and their own names.
#[derive(Drop)]
pub struct EnumNames {
    pub outer: FullName,
    pub names: Items<Text>,
}

/// The full names of enumerators, enum after enum. Contracts see these names alone; the full name of an
/// enum is kept once, so that what this takes does not grow with the product of it and its enumerators.
#[derive(Drop)]
pub struct EnumeratorNames {
    enums: Vec<EnumNames>,
}

impl Model for EnumeratorNames {
    ghost use Rattle.std.specs.Prelude.{List, ℕ};
    ghost use Rattle.std.specs.List.{flat_map};
    ghost use Rattle.module_resolver.specs.Enums.{names_in_enum};

    ghost Value = { List (List ℕ) };

    ghost view = { λ e. flat_map names_in_enum e.enums.items };
}

impl EnumeratorNames {
    ghost use Rattle.std.specs.Prelude.{◌≡◌};
    ghost use Rattle.std.specs.List.{flat_map};
    ghost use Rattle.module_resolver.specs.Enums.{names_in_enum};

    /// The names of the enumerators of these enums. Takes no memory.
    pub(crate) fn from_vec(enums: Vec<EnumNames>) -> EnumeratorNames
        ensures { result ≡ flat_map names_in_enum enums.items }
    {
        EnumeratorNames { enums }
    }

    /// The enums, in order.
    pub(crate) fn enums(&self) -> &[EnumNames]
        ensures { flat_map names_in_enum result.now ≡ self.now }
    {
        self.enums.as_slice()
    }
}
