//! From the tables of files to their schema.

ghost use Rattle.std.specs.Prelude.{◌≡◌, ◌+◌, IfOk, map};
ghost use Rattle.std.specs.List.{AllByRecursion};
ghost use Rattle.mj_schema.specs.Layout.{IsLaidOut, draft_of};
ghost use Rattle.schema_laws.specs.Whole.{CanBeLaidOut, IsWhole};
ghost use Rattle.sound_laws.specs.Sound.{IsSound, HasTexts};
ghost use Rattle.draft_rows.specs.steps.RowNumbers.{row_number};
ghost use Rattle.mojom_compile.specs.Schemas.{IsLayoutOf};

use kind_check::Draft;
use mj_base::Items;
use mj_schema::{DraftStruct, Schema, StructRow};
use std::alloc::{AllocError, Global};
use version_tables::lay_out;

/// The structs with the places of their fields and their version rows.
fn lay_out_all(alloc: Global, drafts: Vec<DraftStruct>) -> Result<Vec<StructRow>, AllocError>
    requires { AllByRecursion CanBeLaidOut drafts.items }
    ensures drafts { IfOk result (λ rows. map draft_of rows.items ≡ drafts.items) }
    ensures laid_out { IfOk result (λ rows. AllByRecursion IsLaidOut rows.items) }
{
    let mut rows = Vec::new(alloc);
    for draft in drafts {
        rows.push(lay_out(alloc, draft)?)?;
    }
    Ok(rows)
}

/// So many rows and so many more; none exactly where 32 bits don't hold their number.
fn more(count: u32, by: usize) -> Option<u32>
    ensures { result ≡ row_number (count + by) }
{
    match u32::try_from(by) {
        Ok(by) => count.checked_add(by),
        Err(_) => None,
    }
}

/// How many rows a schema with these tables has; none exactly where 32 bits don't hold their number.
fn row_count(
    structs: usize,
    unions: usize,
    enums: usize,
    interfaces: usize,
    consts: usize,
) -> Option<u32>
    ensures { result ≡ row_number (structs + unions + enums + interfaces + consts) }
{
    let rows = more(0, structs)?;
    let rows = more(rows, unions)?;
    let rows = more(rows, enums)?;
    let rows = more(rows, interfaces)?;
    more(rows, consts)
}

/// The schema that has these tables, with the fields of structs at their places.
pub fn schema_of(alloc: Global, draft: Draft) -> Result<Schema, AllocError>
    requires whole { IsWhole draft }
    requires sound { IsSound draft }
    requires texts { HasTexts draft }
    ensures { IfOk result (IsLayoutOf draft) }
{
    let Draft {
        structs,
        unions,
        enums,
        interfaces,
        consts,
        order,
    } = draft;
    let structs = lay_out_all(alloc, structs.into_vec())?;
    // There is no memory for 2^32 rows.
    row_count(
        structs.len(),
        unions.len(),
        enums.len(),
        interfaces.len(),
        consts.len(),
    )
    .ok_or(AllocError)?;
    Ok(Schema {
        structs: Items::from_vec(structs),
        unions,
        enums,
        interfaces,
        consts,
        order,
    })
}
