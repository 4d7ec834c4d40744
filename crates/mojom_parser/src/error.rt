//! Why tokens are no file.

ghost use Rattle.std.specs.Prelude.{◌≡◌};
ghost use Rattle.mojom_parser.specs.declared.error.ReadError.TheVariants.{Memory};

use mojom_ast::Fault;
use std::alloc::{AllocError, AllocFailed};

/// Why the reading of a rule stopped.
#[derive(Drop)]
pub enum ReadError {
    Memory,
    Fault(Fault),
}

impl From<AllocError> for ReadError {
    ghost from_gives = { λ _ e. e ≡ Memory };

    fn from(_e: AllocError) -> ReadError {
        ReadError::Memory
    }
}

impl<T: Drop> From<AllocFailed<T>> for ReadError {
    ghost from_gives = { λ _ e. e ≡ Memory };

    fn from(_e: AllocFailed<T>) -> ReadError {
        ReadError::Memory
    }
}

/// Why tokens are no file, with the place as the number of a token from 0, or as how many tokens there are; or that
/// memory ran out.
#[derive(Clone, Copy)]
pub enum ParseError {
    /// No beginning of a file goes on with this token; at the end, the tokens are a beginning and no file.
    Unexpected(u64),
    /// This is the first token of a type that stands inside 32 others.
    TooNested(u64),
    /// Memory ran out.
    Memory,
}
