//! Why files have no tables.

ghost use Rattle.std.specs.Prelude.{◌≡◌};
ghost use Rattle.kind_check.specs.declared.error.KindError.TheVariants.{Memory};

use mojom_files::Refusal;
use std::alloc::{AllocError, AllocFailed};

/// Why files have no tables: a refusal of kinds, ordinals or versions, or memory ran out.
#[derive(Drop)]
pub enum KindError {
    Refused(Refusal),
    Memory,
}

impl From<AllocError> for KindError {
    ghost from_gives = { λ _ e. e ≡ Memory };

    fn from(_error: AllocError) -> KindError {
        KindError::Memory
    }
}

impl<T: Drop> From<AllocFailed<T>> for KindError {
    ghost from_gives = { λ _ e. e ≡ Memory };

    fn from(_error: AllocFailed<T>) -> KindError {
        KindError::Memory
    }
}
