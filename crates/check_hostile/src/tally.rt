//! What was judged.

use check_messages::compare::Verdict;
use std::alloc::{AllocError, Global};
use std::io;
use std::io::Print;
use std::time::Duration;

/// From how many bytes on an input is large. Where time grew faster than the bytes, the slowest would be among these.
const LARGE_BYTES: usize = 256;

/// The inputs of one sort: how many there were, how many stood or were refused, how many differ, and the most nanoseconds that the
/// proved code took for a byte of one, and of a large one.
#[derive(Clone, Copy)]
struct Sum {
    word: &'static str,
    inputs: u64,
    stand: u64,
    refused: u64,
    differ: u64,
    slowest: u128,
    slowest_large: u128,
}

/// The inputs of all sorts.
#[derive(Drop)]
pub struct Tally {
    sums: Vec<Sum>,
    pub inputs: u64,
    pub differ: u64,
}

impl Sum {
    /// One input more, and the time that the proved code took for one of its bytes.
    fn count(&mut self, verdict: Verdict, taken: u128, is_large: bool) {
        self.inputs = self.inputs.saturating_add(1);
        match verdict {
            Verdict::Stands => self.stand = self.stand.saturating_add(1),
            Verdict::Refused => self.refused = self.refused.saturating_add(1),
            Verdict::Differs => self.differ = self.differ.saturating_add(1),
        }
        if self.slowest < taken {
            self.slowest = taken;
        }
        if is_large && self.slowest_large < taken {
            self.slowest_large = taken;
        }
    }
}

/// The nanoseconds for each of so many bytes, and one more.
fn nanoseconds_a_byte(taken: Duration, bytes: usize) -> u128 {
    let count = (bytes as u64).saturating_add(1);
    taken.as_nanos().checked_div(u128::from(count)).unwrap_or(0)
}

impl Tally {
    /// Nothing was judged.
    pub fn new(alloc: Global) -> Tally {
        Tally {
            sums: Vec::new(alloc),
            inputs: 0,
            differ: 0,
        }
    }

    /// Something else than an input that isn't as it is to be.
    pub fn differs(&mut self) {
        self.differ = self.differ.saturating_add(1);
    }

    /// One input more, of a sort by its word, and how long the proved code took for it.
    pub fn add(
        &mut self,
        word: &'static str,
        verdict: Verdict,
        taken: Duration,
        bytes: usize,
    ) -> Result<(), AllocError> {
        let each = nanoseconds_a_byte(taken, bytes);
        let is_large = bytes >= LARGE_BYTES;
        self.inputs = self.inputs.saturating_add(1);
        if verdict == Verdict::Differs {
            self.differs();
        }
        for sum in &mut self.sums {
            if sum.word == word {
                sum.count(verdict, each, is_large);
                return Ok(());
            }
        }
        let mut sum = Sum {
            word,
            inputs: 0,
            stand: 0,
            refused: 0,
            differ: 0,
            slowest: 0,
            slowest_large: 0,
        };
        sum.count(verdict, each, is_large);
        Ok(self.sums.push(sum)?)
    }

    /// Prints what came of each sort; where it is wanted, how many stood, and the slowest of them too.
    pub fn print<R: Print>(&self, rt: &R, has_times: bool) -> io::Result<()> {
        for sum in &self.sums {
            println!(rt;
                "{}: {} inputs, {} differ",
                sum.word, sum.inputs, sum.differ
            )?;
            if has_times {
                println!(rt;
                    "  {} stand, {} are refused; at most {} ns a byte, {} of those of {} bytes and more",
                    sum.stand, sum.refused, sum.slowest, sum.slowest_large, LARGE_BYTES
                )?;
            }
        }
        Ok(())
    }
}
