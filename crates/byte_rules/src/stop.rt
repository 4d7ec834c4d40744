//! Why the reading of a rule stopped.

ghost use Rattle.std.specs.Prelude.{◌≡◌};
ghost use Rattle.byte_rules.specs.declared.stop.Stop.TheVariants.{Memory};

use std::alloc::{AllocError, AllocFailed};

/// Why the reading of a rule stopped.
#[derive(Drop)]
pub enum Stop {
    Memory,
    /// So many bytes are left at the first that no text goes on with.
    Left(usize),
}

impl From<AllocError> for Stop {
    ghost from_gives = { λ _ e. e ≡ Memory };

    fn from(_e: AllocError) -> Stop {
        Stop::Memory
    }
}

impl<T: Drop> From<AllocFailed<T>> for Stop {
    ghost from_gives = { λ _ e. e ≡ Memory };

    fn from(_e: AllocFailed<T>) -> Stop {
        Stop::Memory
    }
}
