//! Why files have no schema.

ghost use Rattle.std.specs.Prelude.{◌≡◌};
ghost use Rattle.mojom_compile.specs.declared.schema_error.SchemaError.TheVariants.{Memory};
ghost use Rattle.mojom_compile.specs.Errors.{of_names, of_consts, of_kinds};

use crate::error::FileRefusal;
use const_eval::ConstError;
use kind_check::KindError;
use module_resolver::ResolveError;
use mojom_files::Refusal;
use std::alloc::{AllocError, AllocFailed};

/// Why files have no schema: their first refusal, or memory ran out. Files go by their numbers from 0,
/// in the order in which they are given.
#[derive(Drop)]
pub enum SchemaError {
    /// The bytes of a file have no tree.
    Unread { file: u32, refusal: FileRefusal },
    /// A name, a constant or a kind of a file is refused.
    Refused(Refusal),
    Memory,
}

impl From<AllocError> for SchemaError {
    ghost from_gives = { λ _ e. e ≡ Memory };

    fn from(_error: AllocError) -> SchemaError {
        SchemaError::Memory
    }
}

impl<T: Drop> From<AllocFailed<T>> for SchemaError {
    ghost from_gives = { λ _ e. e ≡ Memory };

    fn from(_error: AllocFailed<T>) -> SchemaError {
        SchemaError::Memory
    }
}

impl From<ResolveError> for SchemaError {
    ghost from_gives = { λ error made. made ≡ of_names error };

    fn from(error: ResolveError) -> SchemaError {
        match error {
            ResolveError::Refused(refusal) => SchemaError::Refused(refusal),
            ResolveError::Memory => SchemaError::Memory,
        }
    }
}

impl From<ConstError> for SchemaError {
    ghost from_gives = { λ error made. made ≡ of_consts error };

    fn from(error: ConstError) -> SchemaError {
        match error {
            ConstError::Refused(refusal) => SchemaError::Refused(refusal),
            ConstError::Memory => SchemaError::Memory,
        }
    }
}

impl From<KindError> for SchemaError {
    ghost from_gives = { λ error made. made ≡ of_kinds error };

    fn from(error: KindError) -> SchemaError {
        match error {
            KindError::Refused(refusal) => SchemaError::Refused(refusal),
            KindError::Memory => SchemaError::Memory,
        }
    }
}
