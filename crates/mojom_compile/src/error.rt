//! Why a file has no schema here.

ghost use Rattle.std.specs.Prelude.{◌≡◌};
ghost use Rattle.mojom_compile.specs.declared.error.CompileError.TheVariants.{Memory};

use std::alloc::{AllocError, AllocFailed};
use std::fmt;

/// Why a file is refused. The numbers of lexical causes are places in bytes from 0, those of
/// `Unexpected` and `TooNested` numbers of tokens from 0.
#[derive(Clone, Copy)]
pub enum Cause {
    /// The bytes are no UTF-8: the longest valid prefix ends here.
    BadUtf8(u64),
    /// A character that begins no token, or the backslash of an escape that no string has.
    BadChar(u64),
    /// A `/*` that no `*/` follows.
    OpenComment(u64),
    /// A quote that isn't closed on its line.
    OpenString(u64),
    /// A decimal 0 before another digit.
    LeadingZero(u64),
    /// A number above 18,446,744,073,709,551,615.
    NumberTooLong(u64),
    /// The first token with which no file goes on, or the end where the file isn't whole.
    Unexpected(u64),
    /// The first token of a type that stands inside 32 others.
    TooNested(u64),
}

impl fmt::Display for Cause {
    ghost use Rattle.std.specs.Prelude.{Some};
    ghost use Rattle.mojom_compile.specs.Causes.{cause_text};

    ghost output = { λ cause. Some (cause_text cause) };

    fn fmt<W: fmt::Write>(&self, f: &mut fmt::Formatter<W>) -> fmt::Result {
        match self {
            Cause::BadUtf8(at) => write!(f, "BadUtf8 {at}"),
            Cause::BadChar(at) => write!(f, "BadChar {at}"),
            Cause::OpenComment(at) => write!(f, "OpenComment {at}"),
            Cause::OpenString(at) => write!(f, "OpenString {at}"),
            Cause::LeadingZero(at) => write!(f, "LeadingZero {at}"),
            Cause::NumberTooLong(at) => write!(f, "NumberTooLong {at}"),
            Cause::Unexpected(at) => write!(f, "Unexpected {at}"),
            Cause::TooNested(at) => write!(f, "TooNested {at}"),
        }
    }
}

/// The refusal of a file: the place in bytes from 0 of what is refused, and why it is.
#[derive(Clone, Copy)]
pub struct FileRefusal {
    pub at: u64,
    pub cause: Cause,
}

/// Why a file wasn't compiled: it is refused, or memory ran out.
#[derive(Clone, Copy)]
pub enum CompileError {
    Refused(FileRefusal),
    Memory,
}

impl From<AllocError> for CompileError {
    ghost from_gives = { λ _ e. e ≡ Memory };

    fn from(_error: AllocError) -> CompileError {
        CompileError::Memory
    }
}

impl<T: Drop> From<AllocFailed<T>> for CompileError {
    ghost from_gives = { λ _ e. e ≡ Memory };

    fn from(_error: AllocFailed<T>) -> CompileError {
        CompileError::Memory
    }
}
