//! What the proved code makes of a message, beside what it literally is.

use crate::getters::gives;
use message_validator::{Checked, check};
use mj_base::Fault;
use mj_schema::{Kind, KindNode, Schema};
use std::alloc::{AllocError, Global};
use value_text::write_value;
use view_text::write_view;
use wire_decoder::decode;
use wire_model::{Expected, Value};
use wire_reference::{Outcome, are_same, read};
use wire_view::root;

/// A message's surroundings: what it is expected to be, and with how many handles it came.
#[derive(Clone, Copy)]
pub struct Setting<'a> {
    pub schema: &'a Schema,
    pub expected: Expected,
    pub handles: u32,
}

/// How a comparison ended.
#[derive(Clone, Copy, PartialEq, Eq)]
pub enum Verdict {
    /// Both say that it stands for the same.
    Stands,
    /// Both refuse it by the same fault.
    Refused,
    Differs,
}

/// Whether a message that is read where it lies has the text of a value, and all its parts by each getter.
fn is_seen_as(alloc: Global, checked: &Checked<'_>, value: &Value) -> Result<bool, AllocError> {
    let kind = Kind::new(KindNode::Struct {
        number: checked.number,
        nullable: false,
    });
    let view = root(checked);
    let seen = write_view(alloc, checked.schema, &kind, &view)?;
    let wanted = write_value(alloc, checked.schema, &kind, value)?;
    Ok(seen.as_slice() == wanted.as_slice() && gives(alloc, checked.schema, view, &kind, value)?)
}

/// Compares the value of a message that stands.
fn compare_value(
    alloc: Global,
    checked: &Checked<'_>,
    literal: &Outcome,
) -> Result<Verdict, AllocError> {
    let Outcome::Message(message) = literal else {
        return Ok(Verdict::Differs);
    };
    let value = decode(alloc, checked)?;
    let is_same = checked.method == message.method
        && checked.request == message.request
        && checked.moment == message.moment
        && are_same(alloc, &value, &message.value)?
        && is_seen_as(alloc, checked, &message.value)?;
    if is_same {
        Ok(Verdict::Stands)
    } else {
        Ok(Verdict::Differs)
    }
}

/// Compares the fault of a message that is refused.
fn compare_fault(fault: Fault, literal: &Outcome) -> Verdict {
    match literal {
        Outcome::Refused(wanted) => {
            if fault == *wanted {
                Verdict::Refused
            } else {
                Verdict::Differs
            }
        }
        Outcome::Message(_) | Outcome::TooLarge => Verdict::Differs,
    }
}

/// Compares what comes of a message.
pub fn compare<'a>(
    alloc: Global,
    setting: Setting<'a>,
    bytes: &'a [u8],
) -> Result<Verdict, AllocError> {
    let Setting {
        schema,
        expected,
        handles,
    } = setting;
    let literal = read(alloc, schema, expected, bytes, handles)?;
    match check(schema, expected, bytes, handles) {
        Ok(checked) => compare_value(alloc, &checked, &literal),
        Err(fault) => Ok(compare_fault(fault, &literal)),
    }
}
