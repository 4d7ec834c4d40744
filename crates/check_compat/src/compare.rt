//! The comparison of two files.

use crate::carried::is_all_carried;
use crate::tally::Tally;
use compat_check::compatible;
use compat_model::{Change, Reason, Verdict};
use compat_reference::answer_of;
use mj_base::{Items, Text};
use mj_schema::Schema;
use mojom_compile::{Source, compile};
use std::alloc::{AllocError, Global};

/// The schema of a text; none where it is refused.
fn schema_of(alloc: Global, text: &str) -> Result<Option<Schema>, AllocError> {
    let mut sources = Vec::new(alloc);
    sources.push(Source {
        name: Text::from_str(alloc, "a.mojom")?,
        bytes: Items::from_vec(Vec::from_slice(alloc, text.as_bytes())?),
    })?;
    Ok(compile(alloc, sources.as_slice()).ok())
}

/// The ordinal, tag or number of the member that a change is of; 0 where it is of none.
fn number_of(change: Change) -> i64 {
    match change {
        Change::Missing | Change::NotStable | Change::ExtensibleGone => 0,
        Change::MemberGone(number) => i64::from(number),
        Change::TagGone(number)
        | Change::MethodGone(number)
        | Change::ResponseChanged(number)
        | Change::FieldGone(number)
        | Change::KindChanged(number)
        | Change::VersionChanged(number)
        | Change::EarlyField(number) => i64::from(number),
    }
}

/// A reason as a text.
fn reason_text(alloc: Global, reason: &Reason) -> Result<String, AllocError> {
    let name = reason.name.full(alloc)?;
    let name = name.as_str();
    let word = reason.change.word();
    let number = number_of(reason.change);
    format!(in alloc; "{word} {name} {number}")
}

/// What is answered, as a text.
fn answer(alloc: Global, old: &Schema, new: &Schema) -> Result<String, AllocError> {
    match compatible(alloc, old, new)? {
        Verdict::Compatible(stable) => format!(in alloc; "compatible {stable}"),
        Verdict::Broken(reason) => reason_text(alloc, &reason),
    }
}

/// How what is answered of two schemas differs from the literal reading, or what it says of messages from what becomes of them.
fn difference(
    alloc: Global,
    old: &Schema,
    new: &Schema,
    tally: &mut Tally,
) -> Result<Option<String>, AllocError> {
    let literal = answer_of(alloc, old, new)?;
    let wanted = literal.text.as_str();
    tally.count_pair(literal.word)?;
    let answer = answer(alloc, old, new)?;
    let came = answer.as_str();
    if came != wanted {
        return Ok(Some(format!(in alloc; "wanted was {wanted}, and there came {came}")?));
    }
    if literal.word.is_none() && !is_all_carried(alloc, old, new, tally)? {
        let text = String::from_str(alloc, "a message isn't read as what agrees")?;
        return Ok(Some(text));
    }
    Ok(None)
}

/// What differs of two files; none where nothing does.
pub fn compare(
    alloc: Global,
    old: &str,
    new: &str,
    tally: &mut Tally,
) -> Result<Option<String>, AllocError> {
    let older = schema_of(alloc, old)?;
    let newer = schema_of(alloc, new)?;
    match (&older, &newer) {
        (Some(old), Some(new)) => difference(alloc, old, new, tally),
        _ => Ok(Some(String::from_str(alloc, "a file is refused")?)),
    }
}
