//! What was compared.

use crate::judgement::Judgement;

/// How many texts were judged alike in which way, and how many weren't.
#[derive(Clone, Copy, Default)]
pub struct Tally {
    pub sound: u64,
    pub wrong: u64,
    pub short: u64,
    pub tail: u64,
    pub bad: u64,
    pub differ: u64,
}

impl Tally {
    /// One text more, of which both say the same.
    pub fn count(&mut self, judgement: Judgement) {
        match judgement {
            Judgement::Sound(_) => self.sound = self.sound.saturating_add(1),
            Judgement::Wrong(_) => self.wrong = self.wrong.saturating_add(1),
            Judgement::Short(_) => self.short = self.short.saturating_add(1),
            Judgement::Tail(_) => self.tail = self.tail.saturating_add(1),
            Judgement::Bad(_) => self.bad = self.bad.saturating_add(1),
        }
    }

    /// Those of another tally too.
    pub fn add(&mut self, other: Tally) {
        self.sound = self.sound.saturating_add(other.sound);
        self.wrong = self.wrong.saturating_add(other.wrong);
        self.short = self.short.saturating_add(other.short);
        self.tail = self.tail.saturating_add(other.tail);
        self.bad = self.bad.saturating_add(other.bad);
        self.differ = self.differ.saturating_add(other.differ);
    }

    /// How many texts there were.
    pub fn compared(self) -> u64 {
        self.sound
            .saturating_add(self.wrong)
            .saturating_add(self.short)
            .saturating_add(self.tail)
            .saturating_add(self.bad)
            .saturating_add(self.differ)
    }
}
