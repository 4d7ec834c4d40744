//! A message, all its cuts, and its words changed one by one.

use crate::compare::{Setting, Verdict, compare};
use std::alloc::{AllocError, Global};

/// How many comparisons ended in which way.
#[derive(Clone, Copy, Default)]
pub struct Tally {
    pub stand: u64,
    pub refused: u64,
    pub differ: u64,
}

impl Tally {
    /// One more comparison.
    fn count(&mut self, verdict: Verdict) {
        match verdict {
            Verdict::Stands => self.stand = self.stand.saturating_add(1),
            Verdict::Refused => self.refused = self.refused.saturating_add(1),
            Verdict::Differs => self.differ = self.differ.saturating_add(1),
        }
    }

    /// Those of another tally too.
    pub fn add(&mut self, other: Tally) {
        self.stand = self.stand.saturating_add(other.stand);
        self.refused = self.refused.saturating_add(other.refused);
        self.differ = self.differ.saturating_add(other.differ);
    }

    /// How many comparisons there were.
    pub fn compared(self) -> u64 {
        self.stand
            .saturating_add(self.refused)
            .saturating_add(self.differ)
    }
}

/// The word of 32 bits at a byte place.
fn word_at(bytes: &[u8], at: usize) -> u32 {
    let mut word: u32 = 0;
    for k in 0..4 {
        let place = at.saturating_add(3usize.saturating_sub(k));
        let byte = bytes.get(place).map_or(0, |byte| u32::from(*byte));
        word = word.wrapping_mul(256).wrapping_add(byte);
    }
    word
}

/// Puts a word of 32 bits at a byte place.
fn put_word(bytes: &mut [u8], at: usize, word: u32) {
    let mut rest = word;
    for k in 0..4 {
        if let Some(byte) = bytes.get_mut(at.saturating_add(k)) {
            *byte = (rest % 256) as u8;
        }
        rest /= 256;
    }
}

/// What a word is changed to.
fn changes(word: u32) -> [u32; 8] {
    [
        0,
        1,
        2,
        8,
        0xffff_ffff,
        word.wrapping_add(1),
        word.wrapping_sub(1),
        word.wrapping_add(8),
    ]
}

/// Compares a message with each change of the word at a byte place, which it has again afterwards.
fn compare_changes(
    alloc: Global,
    setting: Setting<'_>,
    bytes: &mut [u8],
    at: usize,
    tally: &mut Tally,
) -> Result<(), AllocError> {
    let word = word_at(bytes, at);
    for change in changes(word) {
        put_word(bytes, at, change);
        Tally::count(tally, compare(alloc, setting, bytes)?);
    }
    put_word(bytes, at, word);
    Ok(())
}

/// Compares a message with each change of each word.
pub fn compare_edits(
    alloc: Global,
    setting: Setting<'_>,
    bytes: &mut [u8],
) -> Result<Tally, AllocError> {
    let mut tally = Tally::default();
    for word in 0..bytes.len() / 4 {
        compare_changes(alloc, setting, bytes, word.saturating_mul(4), &mut tally)?;
    }
    Ok(tally)
}

/// Compares each front of a message, itself among them.
pub fn compare_cuts(
    alloc: Global,
    setting: Setting<'_>,
    bytes: &[u8],
) -> Result<Tally, AllocError> {
    let mut tally = Tally::default();
    for len in 0..=bytes.len() {
        let front = bytes.get(..len).unwrap_or(bytes);
        Tally::count(&mut tally, compare(alloc, setting, front)?);
    }
    Ok(tally)
}
