//! What is counted.

use compat_reference::Word;
use std::alloc::{AllocError, Global};
use std::io;
use std::io::Print;

/// A reason, and how often it was answered.
#[derive(Clone, Copy)]
struct Count {
    word: Word,
    times: u64,
}

/// How many pairs of files there were, how many of them are compatible and which reasons the others have, how many messages were
/// carried over, and how much differs.
#[derive(Drop)]
pub struct Tally {
    pub pairs: u64,
    pub compatible: u64,
    pub messages: u64,
    pub differ: u64,
    counts: Vec<Count>,
}

impl Tally {
    /// Nothing counted.
    pub fn new(alloc: Global) -> Tally {
        Tally {
            pairs: 0,
            compatible: 0,
            messages: 0,
            differ: 0,
            counts: Vec::new(alloc),
        }
    }

    /// So many answers more with a reason.
    fn count(&mut self, word: Word, times: u64) -> Result<(), AllocError> {
        for count in &mut self.counts {
            if count.word == word {
                count.times = count.times.saturating_add(times);
                return Ok(());
            }
        }
        Ok(self.counts.push(Count { word, times })?)
    }

    /// Counts a pair of files, with the reason of what is answered.
    pub fn count_pair(&mut self, word: Option<Word>) -> Result<(), AllocError> {
        self.pairs = self.pairs.saturating_add(1);
        match word {
            Some(word) => self.count(word, 1),
            None => {
                self.compatible = self.compatible.saturating_add(1);
                Ok(())
            }
        }
    }

    /// Those of another tally too.
    pub fn add(&mut self, other: &Tally) -> Result<(), AllocError> {
        self.pairs = self.pairs.saturating_add(other.pairs);
        self.compatible = self.compatible.saturating_add(other.compatible);
        self.messages = self.messages.saturating_add(other.messages);
        self.differ = self.differ.saturating_add(other.differ);
        for count in &other.counts {
            self.count(count.word, count.times)?;
        }
        Ok(())
    }

    /// Prints the counts.
    pub fn print<R: Print>(&self, rt: &R, name: &str) -> io::Result<()> {
        println!(rt;
            "{name}: {} pairs, {} compatible, {} messages, {} differ",
            self.pairs, self.compatible, self.messages, self.differ
        )
    }

    /// Prints how often each reason was answered.
    pub fn print_reasons<R: Print>(&self, rt: &R) -> io::Result<()> {
        for count in &self.counts {
            println!(rt; "  {} {}", count.times, count.word.text())?;
        }
        Ok(())
    }
}
