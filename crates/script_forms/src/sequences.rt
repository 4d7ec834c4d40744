//! The sequences of a script.

ghost use Rattle.std.specs.Prelude.{◌≡◌, ◌<◌, ◌++◌, ◌↔◌, IsTrue, IfOk, map, codes, decimal};
ghost use Rattle.script_forms.specs.Forms.{AreSequences};
ghost use Rattle.script_forms.specs.Spelled.{SpellsHeader};
ghost use Rattle.script_forms.specs.steps.Numbers.{SpellsCount};
ghost use Rattle.script_forms.specs.steps.Sayings.{SpellsSequence};

use crate::numbers::number;
use script_words::two_words;
use std::alloc::{AllocError, Global};

/// The most sequences that a script has; it has one at least.
pub const MAX_SEQUENCES: u32 = 16;

/// The number of a sequence among so many.
pub(crate) fn sequence_number(
    alloc: Global,
    seqs: u32,
    word: &[u8],
) -> Result<Option<u32>, AllocError>
    ensures { IfOk result (λ found. SpellsSequence seqs decimal word.now found) }
{
    match number(alloc, word)? {
        Some(seq) if seq < seqs => Ok(Some(seq)),
        _ => Ok(None),
    }
}

/// The sequence of a line, as `0:`, among so many.
pub(crate) fn sequence_of(alloc: Global, seqs: u32, word: &[u8]) -> Result<Option<u32>, AllocError>
    ensures { IfOk result (λ found. SpellsSequence seqs (λ n. decimal n ++ codes ":") word.now found) }
{
    match word {
        [digits @ .., b':'] => sequence_number(alloc, seqs, digits),
        _ => Ok(None),
    }
}

/// Whether a script may have so many sequences.
fn are_sequences(seqs: u32) -> bool
    ensures { IsTrue result ↔ AreSequences seqs }
{
    0 < seqs && seqs <= MAX_SEQUENCES
}

/// How many sequences the word says that a script has; none where it says no number that a script may
/// have.
fn count_of(alloc: Global, word: &[u8]) -> Result<Option<u32>, AllocError>
    ensures { IfOk result (λ found. SpellsCount word.now found) }
{
    match number(alloc, word)? {
        Some(seqs) if are_sequences(seqs) => Ok(Some(seqs)),
        _ => Ok(None),
    }
}

/// How many sequences a script has whose first line is of these words; none where they don't say so.
pub fn sequences_of(alloc: Global, words: &[&[u8]]) -> Result<Option<u32>, AllocError>
    ensures { IfOk result (λ found. SpellsHeader (map (λ word. word.now) words.now) found) }
{
    let Some((command, count)) = two_words(words) else {
        return Ok(None);
    };
    if command == b"seqs".as_slice() {
        count_of(alloc, count)
    } else {
        Ok(None)
    }
}
