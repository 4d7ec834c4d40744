//! The defaults of a schema as a text.

use mj_schema::{DefinitionRow, EnumRow, Literal, RowSort, Schema, StructRow};
use std::alloc::{AllocError, Global};
use std::str;

/// A value: a string as it is, in quotes.
fn literal_text(alloc: Global, value: &Literal) -> Result<String, AllocError> {
    match value {
        Literal::Bool(value) => value.to_string(alloc),
        Literal::Whole(value) => value.to_string(alloc),
        Literal::Text(bytes) => {
            let text = str::from_utf8(bytes.as_slice()).unwrap_or("?");
            format!(in alloc; "\"{text}\"")
        }
    }
}

/// Adds the defaults of a struct's fields.
fn push_struct(alloc: Global, text: &mut String, row: &StructRow) -> Result<(), AllocError> {
    let whole = row.name.full(alloc)?;
    let full = whole.as_str();
    for field in row.fields.as_slice() {
        if let Some(value) = &field.default {
            let name = field.name.as_str();
            let value = literal_text(alloc, value)?;
            let value = value.as_str();
            text.push_str(format!(in alloc; "{full}.{name} = {value}\n")?.as_str())?;
        }
    }
    Ok(())
}

/// Adds the number of the default of an enum, where it has one.
fn push_enum(alloc: Global, text: &mut String, row: &EnumRow) -> Result<(), AllocError> {
    let Some(number) = row.default else {
        return Ok(());
    };
    let whole = row.name.full(alloc)?;
    let full = whole.as_str();
    text.push_str(format!(in alloc; "{full} = {number}\n")?.as_str())
}

/// Adds the defaults of a definition.
fn push_row(
    alloc: Global,
    text: &mut String,
    schema: &Schema,
    row: DefinitionRow,
) -> Result<(), AllocError> {
    let number = row.number as usize;
    match row.sort {
        RowSort::Struct => match schema.structs.as_slice().get(number) {
            Some(row) => push_struct(alloc, text, row),
            None => Ok(()),
        },
        RowSort::Enum => match schema.enums.as_slice().get(number) {
            Some(row) => push_enum(alloc, text, row),
            None => Ok(()),
        },
        _ => Ok(()),
    }
}

/// The defaults of a schema, a line each, in the order of its definitions.
pub fn defaults(alloc: Global, schema: &Schema) -> Result<String, AllocError> {
    let mut text = String::new(alloc);
    for row in schema.order.as_slice() {
        push_row(alloc, &mut text, schema, *row)?;
    }
    Ok(text)
}
