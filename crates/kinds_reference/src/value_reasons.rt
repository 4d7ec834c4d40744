//! What is refused of values and numbers.

use crate::here::{Here, Sort, found_at, is_enumerator_of, is_plain, sort_of};
use mojom_ast::{Attribute, Const, Identifier, TypeNode, Value};
use mojom_files::Basic;
use names_reference::{Found, Reason, Word, add_reason};
use std::alloc::{AllocError, Global};

/// The least and the greatest number of a kind; none of a kind that has no numbers.
fn bounds(kind: Basic) -> Option<(i128, i128)> {
    match kind {
        Basic::Int8 => Some((-128, 127)),
        Basic::Int16 => Some((-32_768, 32_767)),
        Basic::Int32 => Some((-2_147_483_648, 2_147_483_647)),
        Basic::Int64 => Some((-9_223_372_036_854_775_808, 9_223_372_036_854_775_807)),
        Basic::Uint8 => Some((0, 255)),
        Basic::Uint16 => Some((0, 65_535)),
        Basic::Uint32 => Some((0, 4_294_967_295)),
        Basic::Uint64 => Some((0, 18_446_744_073_709_551_615)),
        Basic::Bool | Basic::Text | Basic::Float | Basic::Double => None,
    }
}

/// Adds a number that is none of its kind.
pub fn add_range(
    alloc: Global,
    reasons: &mut Vec<Reason>,
    at: u64,
    kind: Basic,
    number: i128,
) -> Result<(), AllocError> {
    let Some((least, greatest)) = bounds(kind) else {
        return Ok(());
    };
    if least <= number && number <= greatest {
        return Ok(());
    }
    let name = kind.name();
    let fields = format!(in alloc; "{name} {number}")?;
    add_reason(alloc, reasons, at, Word::OutOfRange, fields.as_str())
}

/// Adds a value that can't stand there, by the identifier of what it is the value of.
fn add_wrong(
    alloc: Global,
    reasons: &mut Vec<Reason>,
    name: &Identifier,
) -> Result<(), AllocError> {
    let text = name.text.as_str();
    add_reason(alloc, reasons, name.span.start, Word::WrongLiteral, text)
}

/// Adds what is wrong with a value of a basic kind, which begins at a place: nothing where there is no value.
pub fn add_found(
    alloc: Global,
    reasons: &mut Vec<Reason>,
    kind: Basic,
    name: &Identifier,
    at: u64,
    found: Found<'_>,
) -> Result<(), AllocError> {
    let is_of_sort = match found {
        Found::Circular | Found::Nothing => true,
        Found::Number(number) if bounds(kind).is_some() => {
            return add_range(alloc, reasons, at, kind, number);
        }
        Found::Number(_) | Found::Float => false,
        Found::Bool(_) => kind == Basic::Bool,
        Found::Text(_) => kind == Basic::Text,
    };
    if is_of_sort {
        return Ok(());
    }
    add_wrong(alloc, reasons, name)
}

/// Where a value begins.
pub fn start_of(value: &Value) -> u64 {
    match value {
        Value::String(written) => written.span.start,
        Value::Bool { span, .. } => span.start,
        Value::Number { span, .. } => span.start,
        Value::Name(name) => match name.parts.as_slice() {
            [first, ..] => first.span.start,
            [] => 0,
        },
    }
}

/// Adds what is wrong with a value that is to be one of a basic kind.
fn add_value(
    alloc: Global,
    reasons: &mut Vec<Reason>,
    here: Here<'_>,
    kind: Basic,
    name: &Identifier,
    written: &Value,
) -> Result<(), AllocError> {
    let found = found_at(alloc, here, written)?;
    add_found(alloc, reasons, kind, name, start_of(written), found)
}

/// Adds what is wrong with the value of a constant.
pub fn add_const(
    alloc: Global,
    reasons: &mut Vec<Reason>,
    here: Here<'_>,
    item: &Const,
) -> Result<(), AllocError> {
    match sort_of(alloc, here, &item.kind.node().base)? {
        Sort::Basic(Basic::Float | Basic::Double) => Ok(()),
        Sort::Basic(kind) => add_value(alloc, reasons, here, kind, &item.name, &item.value),
        _ => add_wrong(alloc, reasons, &item.name),
    }
}

/// Adds what is wrong with the default of a field.
pub fn add_default(
    alloc: Global,
    reasons: &mut Vec<Reason>,
    here: Here<'_>,
    name: &Identifier,
    kind: &TypeNode,
    written: &Value,
) -> Result<(), AllocError> {
    let sort = sort_of(alloc, here, &kind.base)?;
    if kind.nullable && is_plain(sort) {
        return add_wrong(alloc, reasons, name);
    }
    match sort {
        Sort::Basic(Basic::Float | Basic::Double) => add_wrong(alloc, reasons, name),
        Sort::Basic(kind) => add_value(alloc, reasons, here, kind, name, written),
        Sort::Enum(number) if is_enumerator_of(alloc, here, number, written)? => Ok(()),
        _ => add_wrong(alloc, reasons, name),
    }
}

/// Adds what is wrong with each `MinVersion` before what has this identifier.
pub fn add_versions(
    alloc: Global,
    reasons: &mut Vec<Reason>,
    here: Here<'_>,
    name: &Identifier,
    attributes: &[Attribute],
) -> Result<(), AllocError> {
    for attribute in attributes {
        if attribute.name.text.as_str() == "MinVersion" {
            match &attribute.value {
                Some(written) => {
                    add_value(alloc, reasons, here, Basic::Uint32, name, written)?;
                }
                None => add_wrong(alloc, reasons, name)?,
            }
        }
    }
    Ok(())
}
