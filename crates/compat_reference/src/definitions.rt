//! Definitions of two schemas.

use mj_base::FullName;
use mj_schema::{DefinitionRow, RowSort, Schema};
use std::alloc::{AllocError, Global};

/// Two schemas.
#[derive(Clone, Copy)]
pub struct Given<'a> {
    pub old: &'a Schema,
    pub new: &'a Schema,
}

/// The full name of a definition, and whether it is stable.
#[derive(Clone, Copy)]
pub struct Definition<'a> {
    pub name: &'a FullName,
    pub stable: bool,
}

/// What is known of the definition of a sort and number; none of a constant.
pub fn definition_of(schema: &Schema, sort: RowSort, number: u32) -> Option<Definition<'_>> {
    let number = number as usize;
    match sort {
        RowSort::Struct => {
            let row = schema.structs.as_slice().get(number)?;
            Some(Definition {
                name: &row.name,
                stable: row.stable,
            })
        }
        RowSort::Union => {
            let row = schema.unions.as_slice().get(number)?;
            Some(Definition {
                name: &row.name,
                stable: row.stable,
            })
        }
        RowSort::Enum => {
            let row = schema.enums.as_slice().get(number)?;
            Some(Definition {
                name: &row.name,
                stable: row.stable,
            })
        }
        RowSort::Interface => {
            let row = schema.interfaces.as_slice().get(number)?;
            Some(Definition {
                name: &row.name,
                stable: row.stable,
            })
        }
        RowSort::Const => None,
    }
}

/// Whether a definition is the struct of a method, which no name can mean.
fn is_of_method(schema: &Schema, row: &DefinitionRow) -> bool {
    let number = row.number;
    for interface in schema.interfaces.as_slice() {
        let mut methods = interface.methods.as_slice().iter();
        if methods.any(|method| method.request == number || method.response == Some(number)) {
            return matches!(row.sort, RowSort::Struct);
        }
    }
    false
}

/// Whether a definition has a sort and a full name.
fn is_called(schema: &Schema, row: &DefinitionRow, sort: RowSort, name: &str) -> bool {
    match definition_of(schema, row.sort, row.number) {
        Some(definition) => {
            row.sort as u8 == sort as u8
                && definition.name.has_bytes(name.as_bytes())
                && !is_of_method(schema, row)
        }
        None => false,
    }
}

/// The number of the definition of a sort and full name.
pub fn partner_of(
    alloc: Global,
    schema: &Schema,
    sort: RowSort,
    name: &FullName,
) -> Result<Option<u32>, AllocError> {
    let name = name.full(alloc)?;
    for row in schema.order.as_slice() {
        if is_called(schema, row, sort, name.as_str()) {
            return Ok(Some(row.number));
        }
    }
    Ok(None)
}
