//! Why files are refused, and which of several reasons is answered.

use std::alloc::{AllocError, Global};

/// What is refused, in the order in which reasons at one place are answered.
#[derive(Clone, Copy, PartialEq, Eq)]
pub enum Word {
    NoFile,
    CircularImport,
    DuplicateName,
    UnknownName,
    WrongSort,
    CircularConst,
    WrongLiteral,
    OutOfRange,
    TooManyFields,
    EmptyEnum,
    DoubleDefault,
    FloatField,
    BadMapKey,
    NullableKey,
    BadNullable,
    ZeroLengthArray,
    OrdinalDouble,
    OrdinalGap,
    VersionFalls,
    LateNotNullable,
}

impl Word {
    /// The word as it is printed.
    pub fn text(self) -> &'static str {
        match self {
            Word::NoFile => "NoFile",
            Word::CircularImport => "CircularImport",
            Word::DuplicateName => "DuplicateName",
            Word::UnknownName => "UnknownName",
            Word::WrongSort => "WrongSort",
            Word::CircularConst => "CircularConst",
            Word::WrongLiteral => "WrongLiteral",
            Word::OutOfRange => "OutOfRange",
            Word::TooManyFields => "TooManyFields",
            Word::EmptyEnum => "EmptyEnum",
            Word::DoubleDefault => "DoubleDefault",
            Word::FloatField => "FloatField",
            Word::BadMapKey => "BadMapKey",
            Word::NullableKey => "NullableKey",
            Word::BadNullable => "BadNullable",
            Word::ZeroLengthArray => "ZeroLengthArray",
            Word::OrdinalDouble => "OrdinalDouble",
            Word::OrdinalGap => "OrdinalGap",
            Word::VersionFalls => "VersionFalls",
            Word::LateNotNullable => "LateNotNullable",
        }
    }
}

/// A reason to refuse a file: the place there in bytes from 0, the word, and the fields behind it.
#[derive(Drop)]
pub struct Reason {
    pub at: u64,
    pub word: Word,
    pub fields: String,
}

impl Reason {
    /// Whether this is answered before another of the same file.
    fn comes_before(&self, other: &Reason) -> bool {
        self.at < other.at || self.at == other.at && (self.word as u8) < other.word as u8
    }

    /// The reason as it is printed: its word and its fields.
    pub fn text(&self, alloc: Global) -> Result<String, AllocError> {
        let word = self.word.text();
        let fields = self.fields.as_str();
        format!(in alloc; "{word} {fields}")
    }
}

/// Adds a reason.
pub fn add_reason(
    alloc: Global,
    reasons: &mut Vec<Reason>,
    at: u64,
    word: Word,
    fields: &str,
) -> Result<(), AllocError> {
    let fields = String::from_str(alloc, fields)?;
    reasons.push(Reason { at, word, fields })?;
    Ok(())
}

/// The reason of a file that is answered: that of the least place, and there that of the first word; of those
/// alike the one that was found first.
pub fn first_reason(reasons: &[Reason]) -> Option<&Reason> {
    let mut first: Option<&Reason> = None;
    for reason in reasons {
        match first {
            Some(known) if !reason.comes_before(known) => {}
            _ => first = Some(reason),
        }
    }
    first
}
