//! Why files were not resolved.

ghost use Rattle.std.specs.Prelude.{◌≡◌};
ghost use Rattle.import_order.specs.declared.error.ResolveError.TheVariants.{Memory};

use mojom_files::Refusal;
use std::alloc::{AllocError, AllocFailed};

/// Why files have no order, or their names no meaning: `NoFile`, `CircularImport`, `DuplicateName`,
/// `UnknownName` or `WrongSort`, or memory ran out.
#[derive(Drop)]
pub enum ResolveError {
    Refused(Refusal),
    Memory,
}

impl From<AllocError> for ResolveError {
    ghost from_gives = { λ _ e. e ≡ Memory };

    fn from(_error: AllocError) -> ResolveError {
        ResolveError::Memory
    }
}

impl<T: Drop> From<AllocFailed<T>> for ResolveError {
    ghost from_gives = { λ _ e. e ≡ Memory };

    fn from(_error: AllocFailed<T>) -> ResolveError {
        ResolveError::Memory
    }
}
