//! The pairs that are reached, and why a newer schema doesn't read what an older one writes.

use mj_schema::RowSort;
use std::alloc::AllocError;

/// A definition of the older schema by its sort and number, and the one of the newer that stands opposite it, where there is one.
#[derive(Clone, Copy)]
pub struct Pair {
    pub sort: RowSort,
    pub old: u32,
    pub new: Option<u32>,
}

/// What breaks a pair, in the order in which the reasons of one pair are answered.
#[derive(Clone, Copy, PartialEq, Eq)]
pub enum Word {
    Missing,
    NotStable,
    ExtensibleGone,
    MemberGone,
    TagGone,
    MethodGone,
    ResponseChanged,
    FieldGone,
    KindChanged,
    VersionChanged,
    EarlyField,
}

impl Word {
    /// The word as it is printed.
    pub fn text(self) -> &'static str {
        match self {
            Word::Missing => "Missing",
            Word::NotStable => "NotStable",
            Word::ExtensibleGone => "ExtensibleGone",
            Word::MemberGone => "MemberGone",
            Word::TagGone => "TagGone",
            Word::MethodGone => "MethodGone",
            Word::ResponseChanged => "ResponseChanged",
            Word::FieldGone => "FieldGone",
            Word::KindChanged => "KindChanged",
            Word::VersionChanged => "VersionChanged",
            Word::EarlyField => "EarlyField",
        }
    }
}

/// A reason: the place of its pair, the word, and the ordinal, tag or number of the member that it is of, where it is of one.
#[derive(Clone, Copy)]
pub struct Reason {
    pub place: usize,
    pub word: Word,
    pub number: Option<i64>,
}

impl Reason {
    /// Whether this is answered before another.
    fn comes_before(&self, other: &Reason) -> bool {
        if self.place != other.place {
            return self.place < other.place;
        }
        if self.word != other.word {
            return (self.word as u8) < other.word as u8;
        }
        self.number.unwrap_or(0) < other.number.unwrap_or(0)
    }
}

/// The pairs that are reached in the order in which they are looked at, the reasons of all, and the place of the pair that is looked at.
#[derive(Drop)]
pub struct Found {
    pub pairs: Vec<Pair>,
    pub reasons: Vec<Reason>,
    pub place: usize,
}

impl Found {
    /// Adds a reason.
    pub fn add(&mut self, word: Word, number: Option<i64>) -> Result<(), AllocError> {
        let place = self.place;
        self.reasons.push(Reason {
            place,
            word,
            number,
        })?;
        Ok(())
    }

    /// Adds the pair of two definitions, where it isn't there.
    pub fn reach(&mut self, sort: RowSort, old: u32, new: u32) -> Result<(), AllocError> {
        let new = Some(new);
        let is_there = self.pairs.iter().any(|pair| {
            pair.sort as u8 == sort as u8 && pair.old == old && pair.new == new
        });
        if !is_there {
            self.pairs.push(Pair { sort, old, new })?;
        }
        Ok(())
    }

    /// The reason that is answered.
    pub fn first(&self) -> Option<&Reason> {
        let mut first: Option<&Reason> = None;
        for reason in &self.reasons {
            match first {
                Some(known) if !reason.comes_before(known) => {}
                _ => first = Some(reason),
            }
        }
        first
    }
}
