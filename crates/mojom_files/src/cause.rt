//! Why files of the grammar's form are refused.

use crate::basic::Basic;
use mj_base::{Items, Text};
use std::marker::Model;

/// Why a file is refused. Contracts see which cause it is and what it tells, wherever its parts lie in memory.
#[derive(Drop)]
pub struct Cause {
    parts: CauseParts,
}

/// A cause by its parts: few of them own memory, so that causes are cheap to hand on.
#[derive(Drop)]
pub enum CauseParts {
    /// An import names no file that was given: its path.
    NoFile(Items<u8>),
    /// Imports go in a circle: the names of its files, each of which imports the next.
    CircularImport(Items<Text>),
    /// A number that isn't one of its kind.
    OutOfRange { kind: Basic, value: i128 },
    /// Any other cause, with the name that it goes by.
    Named(NamedCause, Text),
}

/// A cause that goes by a name, without the name.
#[derive(Clone, Copy)]
pub enum NamedCause {
    /// A file that was given twice, a second definition of one full name, a second member of one
    /// name, or a definition that is named as a basic kind.
    DuplicateName,
    /// A name that nothing has.
    UnknownName,
    /// A name of something that can't stand there.
    WrongSort,
    /// A constant or an enumerator that needs itself.
    CircularConst,
    /// A value whose sort isn't that of its kind, or that can't stand there.
    WrongLiteral,
    /// More fields, parameters, enumerators or methods than one definition may have.
    TooManyFields,
    /// An enum without an enumerator.
    EmptyEnum,
    /// A second enumerator with `[Default]`.
    DoubleDefault,
    /// `float` or `double` in a type.
    FloatField,
    /// A map's key that is no bool, integer, enum or string.
    BadMapKey,
    /// A map's key with `?`.
    NullableKey,
    /// `?` on a bool, an integer or an enum.
    BadNullable,
    /// An array of the length 0.
    ZeroLengthArray,
    /// A second member with this ordinal.
    OrdinalDouble(u32),
    /// The least ordinal that a struct or a list of parameters lacks below the number of its members.
    OrdinalGap(u32),
    /// A member whose version is below that of the member before it, along the ordinals.
    VersionFalls { before: u32, here: u32 },
    /// A member of a later version that is behind a pointer, or hands something over, without `?`.
    LateNotNullable,
}

impl Model for Cause {
    ghost use Rattle.mojom_files.specs.Causes as causes;

    ghost Value = { causes.Cause };

    ghost view = { λ c. causes.cause_of c.parts };
}

impl Cause {
    ghost use Rattle.std.specs.Prelude.{◌≡◌};
    ghost use Rattle.mojom_files.specs.Causes.{NoFile, CircularImport, OutOfRange, named, cause_of};
    ghost use Rattle.mojom_files.specs.Refusals.{rank};

    /// An import that names no file that was given, of this path.
    pub fn no_file(path: Items<u8>) -> Cause
        ensures { result ≡ NoFile path }
    {
        Cause {
            parts: CauseParts::NoFile(path),
        }
    }

    /// Imports in a circle through the files of these names.
    pub fn circular_import(names: Items<Text>) -> Cause
        ensures { result ≡ CircularImport names }
    {
        Cause {
            parts: CauseParts::CircularImport(names),
        }
    }

    /// A number that isn't one of this kind.
    pub fn out_of_range(kind: Basic, value: i128) -> Cause
        ensures { result ≡ OutOfRange kind value }
    {
        Cause {
            parts: CauseParts::OutOfRange { kind, value },
        }
    }

    /// The cause that goes by this name.
    pub fn named(cause: NamedCause, name: Text) -> Cause
        ensures { result ≡ named cause name }
    {
        Cause {
            parts: CauseParts::Named(cause, name),
        }
    }

    /// The parts of the cause.
    pub fn parts(&self) -> &CauseParts
        ensures { cause_of result.now ≡ self.now }
    {
        &self.parts
    }

    /// Where the cause stands among several at one place.
    pub fn rank(&self) -> u8
        ensures { result ≡ rank self.now }
    {
        match &self.parts {
            CauseParts::NoFile(_) => 0,
            CauseParts::CircularImport(_) => 1,
            CauseParts::OutOfRange { .. } => 7,
            CauseParts::Named(cause, _) => cause.rank(),
        }
    }
}

impl NamedCause {
    ghost use Rattle.std.specs.Prelude.{◌≡◌, List, ℕ};
    ghost use Rattle.mojom_files.specs.Causes.{named};
    ghost use Rattle.mojom_files.specs.Refusals.{rank};

    /// Where a cause of this sort stands among several at one place, whatever its name.
    fn rank(self) -> u8
        ensures { (name : List ℕ) → result ≡ rank (named self name) }
    {
        match self {
            NamedCause::DuplicateName => 2,
            NamedCause::UnknownName => 3,
            NamedCause::WrongSort => 4,
            NamedCause::CircularConst => 5,
            NamedCause::WrongLiteral => 6,
            NamedCause::TooManyFields => 8,
            NamedCause::EmptyEnum => 9,
            NamedCause::DoubleDefault => 10,
            NamedCause::FloatField => 11,
            NamedCause::BadMapKey => 12,
            NamedCause::NullableKey => 13,
            NamedCause::BadNullable => 14,
            NamedCause::ZeroLengthArray => 15,
            NamedCause::OrdinalDouble(_) => 16,
            NamedCause::OrdinalGap(_) => 17,
            NamedCause::VersionFalls { .. } => 18,
            NamedCause::LateNotNullable => 19,
        }
    }
}
