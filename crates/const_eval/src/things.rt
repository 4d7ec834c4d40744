//! Where the things of files stand.

ghost use Rattle.std.specs.Prelude.{◌≡◌, ◌+◌, ◌++◌, ◌≤◌, ◌^◌, IfOk, OnOk, IsErr};
ghost use Rattle.mojom_files.specs.Definitions.{definitions_of};
ghost use Rattle.const_eval.specs.Things.{owners_in, owners, things_at, things_of_files};

use crate::file_things::FileThings;
use crate::trees::enumerators_of;
use mj_base::Items;
use mojom_ast::File;
use mojom_files::{DefinitionView, NamedFile, definitions};
use std::alloc::{AllocError, Global};

/// Adds this number for each enumerator of a definition.
fn add_owners(
    owners: &mut Vec<usize>,
    number: usize,
    definition: &DefinitionView<'_>,
) -> Result<(), AllocError>
    ensures { OnOk result (owners.new.items ≡ owners.old.items ++ owners_in number definition.now) }
{
    for _enumerator in enumerators_of(definition) {
        owners.push(number)?;
    }
    Ok(())
}

/// For each enumerator the number of its enum.
fn owners(alloc: Global, definitions: &[DefinitionView<'_>]) -> Result<Vec<usize>, AllocError>
    ensures { IfOk result (λ made. made.items ≡ owners definitions.now) }
{
    let mut owners = Vec::new(alloc);
    for (number, definition) in definitions.iter().enumerate() {
        add_owners(&mut owners, number, definition)?;
    }
    Ok(owners)
}

/// The place that is so far behind another; there is no memory for 2^64 things.
pub fn behind(first: usize, count: usize) -> Result<usize, AllocError>
    ensures value { IfOk result (λ end. end ≡ first + count) }
    ensures held { IsErr result → 2 ^ 64 ≤ first + count }
{
    first.checked_add(count).ok_or(AllocError)
}

/// Where the things of a file stand, the first of them here.
fn things_at(alloc: Global, first: usize, file: &File) -> Result<FileThings, AllocError>
    ensures { IfOk result (λ made. made ≡ things_at first (definitions_of file.now)) }
{
    let definitions = definitions(alloc, file)?;
    let owners = owners(alloc, definitions.as_slice())?;
    let enumerators = behind(first, definitions.len())?;
    let end = behind(enumerators, owners.len())?;
    Ok(FileThings {
        definitions: first,
        enumerators,
        end,
        owners: Items::from_vec(owners),
    })
}

/// Where the things of all files stand.
pub fn things_of_files(alloc: Global, files: &[NamedFile]) -> Result<Vec<FileThings>, AllocError>
    ensures { IfOk result (λ made. made.items ≡ things_of_files files.now) }
{
    let mut made = Vec::new(alloc);
    let mut first = 0;
    for file in files {
        let things = things_at(alloc, first, &file.tree)?;
        first = things.end;
        made.push(things)?;
    }
    Ok(made)
}
