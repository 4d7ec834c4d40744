//! What is made of files, as a text.

use crate::rows::defaults;
use mj_base::Text;
use mojom_compile::{SchemaError, Source, compile};
use mojom_files::{Basic, Cause, CauseParts, NamedCause, NamedFile, Refusal};
use schema_text::listing;
use std::alloc::{AllocError, Global};
use std::str;

/// A circle of imports, with the names of its files.
fn circle_text(alloc: Global, names: &[Text]) -> Result<String, AllocError> {
    let mut text = String::from_str(alloc, "CircularImport")?;
    for name in names {
        text.push_str(" ")?;
        text.push_str(name.as_str())?;
    }
    Ok(text)
}

/// A number that isn't one of its kind.
fn range_text(alloc: Global, kind: Basic, value: i128) -> Result<String, AllocError> {
    let kind = kind.name();
    format!(in alloc; "OutOfRange {kind} {value}")
}

/// An ordinal that stands twice, or that is lacking.
fn ordinal_text(alloc: Global, word: &str, name: &str, ordinal: u32) -> Result<String, AllocError> {
    format!(in alloc; "{word} {name} {ordinal}")
}

/// A version that is below the one before.
fn fall_text(alloc: Global, name: &str, before: u32, here: u32) -> Result<String, AllocError> {
    format!(in alloc; "VersionFalls {name} {before} {here}")
}

/// A cause that goes by a name, and what it says.
fn text_of_named(alloc: Global, cause: NamedCause, name: &str) -> Result<String, AllocError> {
    let word = match cause {
        NamedCause::OrdinalDouble(ordinal) => {
            return ordinal_text(alloc, "OrdinalDouble", name, ordinal);
        }
        NamedCause::OrdinalGap(ordinal) => return ordinal_text(alloc, "OrdinalGap", name, ordinal),
        NamedCause::VersionFalls { before, here } => return fall_text(alloc, name, before, here),
        NamedCause::DuplicateName => "DuplicateName",
        NamedCause::UnknownName => "UnknownName",
        NamedCause::WrongSort => "WrongSort",
        NamedCause::CircularConst => "CircularConst",
        NamedCause::WrongLiteral => "WrongLiteral",
        NamedCause::TooManyFields => "TooManyFields",
        NamedCause::EmptyEnum => "EmptyEnum",
        NamedCause::DoubleDefault => "DoubleDefault",
        NamedCause::FloatField => "FloatField",
        NamedCause::BadMapKey => "BadMapKey",
        NamedCause::NullableKey => "NullableKey",
        NamedCause::BadNullable => "BadNullable",
        NamedCause::ZeroLengthArray => "ZeroLengthArray",
        NamedCause::LateNotNullable => "LateNotNullable",
    };
    format!(in alloc; "{word} {name}")
}

/// The cause of a refusal, and what it says.
fn cause_text(alloc: Global, cause: &Cause) -> Result<String, AllocError> {
    match cause.parts() {
        CauseParts::NoFile(path) => {
            let path = str::from_utf8(path.as_slice()).unwrap_or("?");
            format!(in alloc; "NoFile {path}")
        }
        CauseParts::CircularImport(names) => circle_text(alloc, names.as_slice()),
        CauseParts::OutOfRange { kind, value } => range_text(alloc, *kind, *value),
        CauseParts::Named(cause, name) => text_of_named(alloc, *cause, name.as_str()),
    }
}

/// What is said of a place, a byte of the file of this number: `FILE:AT: WHAT`.
pub fn placed(
    alloc: Global,
    files: &[NamedFile],
    file: usize,
    at: u64,
    what: &str,
) -> Result<String, AllocError> {
    let name = match files.get(file) {
        Some(file) => file.name.as_str(),
        None => "?",
    };
    format!(in alloc; "{name}:{at}: {what}")
}

/// A refusal, with its file, its place there in bytes and its cause.
fn refusal_text(
    alloc: Global,
    files: &[NamedFile],
    refusal: &Refusal,
) -> Result<String, AllocError> {
    let cause = cause_text(alloc, &refusal.cause)?;
    placed(
        alloc,
        files,
        refusal.file as usize,
        refusal.at,
        cause.as_str(),
    )
}

/// What `compile` makes of files, whose trees are those of the sources: the listing and the defaults, or the first
/// refusal.
pub fn text(alloc: Global, files: &[NamedFile], sources: &[Source]) -> Result<String, AllocError> {
    match compile(alloc, sources) {
        Ok(schema) => {
            let listing = listing(alloc, &schema)?;
            let listing = str::from_utf8(listing.as_slice()).unwrap_or("?");
            let defaults = defaults(alloc, &schema)?;
            let defaults = defaults.as_str();
            format!(in alloc; "{listing}{defaults}")
        }
        Err(SchemaError::Refused(refusal)) => refusal_text(alloc, files, &refusal),
        Err(SchemaError::Unread { .. }) => String::from_str(alloc, "no tree"),
        Err(SchemaError::Memory) => Err(AllocError),
    }
}
