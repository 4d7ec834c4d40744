//! The whole text.

ghost use Rattle.std.specs.Prelude.{◌≡◌, ◌++◌, IfOk, OnOk};
ghost use Rattle.schema_text.specs.Listing.{definition_text, listing};

use crate::rows::{push_const, push_enum, push_interface, push_union};
use crate::structs::push_struct;
use mj_schema::{DefinitionRow, RowSort, Schema};
use std::alloc::{AllocError, Global};

/// The text of a schema: its definitions in order, each by its line and below it a line for each of
/// its parts. Definitions and kinds go by their full names. The error is want of memory.
pub fn listing(alloc: Global, schema: &Schema) -> Result<Vec<u8>, AllocError>
    ensures { IfOk result (λ text. text.items ≡ listing schema.now) }
{
    let mut out = Vec::new(alloc);
    for definition in schema.order.as_slice() {
        push_definition(&mut out, schema, *definition)?;
    }
    Ok(out)
}

/// Writes a definition; one that isn't there has no lines.
fn push_definition(
    out: &mut Vec<u8>,
    schema: &Schema,
    definition: DefinitionRow,
) -> Result<(), AllocError>
    ensures { OnOk result (out.new.items ≡ out.old.items ++ definition_text schema.now definition) }
{
    let number = definition.number as usize;
    match definition.sort {
        RowSort::Struct => match schema.structs.as_slice().get(number) {
            Some(row) => push_struct(out, schema, row),
            None => Ok(()),
        },
        RowSort::Union => match schema.unions.as_slice().get(number) {
            Some(row) => push_union(out, schema, row),
            None => Ok(()),
        },
        RowSort::Enum => match schema.enums.as_slice().get(number) {
            Some(row) => push_enum(out, row),
            None => Ok(()),
        },
        RowSort::Interface => match schema.interfaces.as_slice().get(number) {
            Some(row) => push_interface(out, row),
            None => Ok(()),
        },
        RowSort::Const => match schema.consts.as_slice().get(number) {
            Some(row) => push_const(out, schema, row),
            None => Ok(()),
        },
    }
}
