//! What stands behind a word in a line.

ghost use Rattle.std.specs.Prelude.{◌≡◌, ◌++◌, OnOk, IfSome, codes};
ghost use Rattle.history_text.specs.History.{hex_text};

use crate::message_text::{push_hex, push_text};
use crate::writing::push_written;
use std::alloc::{AllocError, Global};
use std::fmt;

/// Adds a word and what is shown behind it.
pub(crate) fn push_shown<A: fmt::Display + Copy>(
    alloc: Global,
    out: &mut Vec<u8>,
    word: &str,
    shown: A,
) -> Result<(), AllocError>
    ensures { OnOk result (IfSome (A.output shown) (λ a. out.new.items ≡ out.old.items ++ (word.now ++ a))) }
{
    push_text(out, word)?;
    push_written(alloc, out, shown)
}

/// Adds a word and two that are shown behind it, with a blank between them.
pub(crate) fn push_pair<A: fmt::Display + Copy, B: fmt::Display + Copy>(
    alloc: Global,
    out: &mut Vec<u8>,
    word: &str,
    first: A,
    second: B,
) -> Result<(), AllocError>
    ensures { OnOk result (IfSome (A.output first) (λ a. IfSome (B.output second) (λ b.
        out.new.items ≡ out.old.items ++ (word.now ++ (a ++ (codes " " ++ b)))))) }
{
    push_shown(alloc, out, word, first)?;
    push_shown(alloc, out, " ", second)
}

/// Adds a word and three that are shown behind it, with blanks between them.
pub(crate) fn push_triple<A: fmt::Display + Copy, B: fmt::Display + Copy, C: fmt::Display + Copy>(
    alloc: Global,
    out: &mut Vec<u8>,
    word: &str,
    first: A,
    second: B,
    third: C,
) -> Result<(), AllocError>
    ensures { OnOk result (IfSome (A.output first) (λ a. IfSome (B.output second) (λ b. IfSome (C.output third) (λ c.
        out.new.items ≡ out.old.items ++ (word.now ++ (a ++ (codes " " ++ (b ++ (codes " " ++ c))))))))) }
{
    push_pair(alloc, out, word, first, second)?;
    push_shown(alloc, out, " ", third)
}

/// Adds a word, what is shown behind it, and bytes.
pub(crate) fn push_bytes<A: fmt::Display + Copy>(
    alloc: Global,
    out: &mut Vec<u8>,
    word: &str,
    shown: A,
    bytes: &[u8],
) -> Result<(), AllocError>
    ensures { OnOk result (IfSome (A.output shown) (λ a.
        out.new.items ≡ out.old.items ++ (word.now ++ (a ++ (codes " " ++ hex_text bytes.now))))) }
{
    push_shown(alloc, out, word, shown)?;
    push_text(out, " ")?;
    push_hex(alloc, out, bytes)
}
