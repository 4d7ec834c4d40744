//! What is counted.

use crate::compare::Outcome;
use names_reference::Word;
use std::alloc::{AllocError, Global};
use std::io;
use std::io::Print;

/// How many sets there were, how many of the sets that were made have a listing, which words refused some of them, and
/// how much differs.
#[derive(Drop)]
pub struct Tally {
    cases: u64,
    made: u64,
    listed: u64,
    words: Vec<Word>,
    differ: u64,
}

impl Tally {
    /// Nothing counted.
    pub fn new(alloc: Global) -> Tally {
        Tally {
            cases: 0,
            made: 0,
            listed: 0,
            words: Vec::new(alloc),
            differ: 0,
        }
    }

    /// Counts a case.
    pub fn count_case(&mut self) {
        self.cases = self.cases.saturating_add(1);
    }

    /// Counts a set that was made.
    pub fn count_made(&mut self, outcome: &Outcome) -> Result<(), AllocError> {
        self.made = self.made.saturating_add(1);
        match outcome.word {
            None => self.listed = self.listed.saturating_add(1),
            Some(word) if self.words.contains(&word) => {}
            Some(word) => self.words.push(word)?,
        }
        Ok(())
    }

    /// Counts a difference.
    pub fn differs(&mut self) {
        self.differ = self.differ.saturating_add(1);
    }

    /// Whether nothing differs.
    pub fn is_good(&self) -> bool {
        self.differ == 0
    }

    /// Prints the counts.
    pub fn print<R: Print>(&self, rt: &R) -> io::Result<()> {
        let words = self.words.len();
        println!(rt;
            "{} cases and {} made sets, of which {} have a listing and the others refusals of {words} sorts; {} differ",
            self.cases, self.made, self.listed, self.differ
        )
    }
}
