//! Why constants and numbers are refused.

ghost use Rattle.std.specs.Prelude.{◌≡◌};
ghost use Rattle.const_eval.specs.declared.error.ConstError.TheVariants.{Memory};

use mojom_files::Refusal;
use std::alloc::{AllocError, AllocFailed};

/// Why files were not evaluated: `CircularConst`, `WrongLiteral` or `OutOfRange`, or memory ran out.
#[derive(Drop)]
pub enum ConstError {
    Refused(Refusal),
    Memory,
}

impl From<AllocError> for ConstError {
    ghost from_gives = { λ _ e. e ≡ Memory };

    fn from(_error: AllocError) -> ConstError {
        ConstError::Memory
    }
}

impl<T: Drop> From<AllocFailed<T>> for ConstError {
    ghost from_gives = { λ _ e. e ≡ Memory };

    fn from(_error: AllocFailed<T>) -> ConstError {
        ConstError::Memory
    }
}
