//! Why a file has no tokens.

ghost use Rattle.std.specs.Prelude.{◌≡◌};
ghost use Rattle.mojom_lexer.specs.declared.error.LexError.TheVariants.{Memory};

use std::alloc::{AllocError, AllocFailed};

/// Why a file has no tokens, with the place in the file, in bytes from 0; or that memory ran out.
#[derive(Clone, Copy)]
pub enum LexError {
    /// The bytes are no UTF-8: the longest valid prefix ends here.
    BadUtf8(u64),
    /// A character that begins no token, or the backslash of an escape that no string has.
    BadChar(u64),
    /// A `/*` that no `*/` follows.
    OpenComment(u64),
    /// A quote that isn't closed on its line.
    OpenString(u64),
    /// A decimal 0 before another digit.
    LeadingZero(u64),
    /// A number above 18,446,744,073,709,551,615.
    NumberTooLong(u64),
    /// Memory ran out.
    Memory,
}

impl From<AllocError> for LexError {
    ghost from_gives = { λ _ e. e ≡ Memory };

    fn from(_error: AllocError) -> LexError {
        LexError::Memory
    }
}

impl<T: Drop> From<AllocFailed<T>> for LexError {
    ghost from_gives = { λ _ e. e ≡ Memory };

    fn from(_error: AllocFailed<T>) -> LexError {
        LexError::Memory
    }
}
