//! What files import, and what is refused of them before any order.

ghost use Rattle.std.specs.Prelude.{◌≡◌, ◌<◌, ◌^◌, length, None, IfOk, OnOk, IfSome, get_or};
ghost use Rattle.mojom_files.specs.Refusals.{best_of};
ghost use Rattle.import_order.specs.Order.{file_names, imported, imports_of, all_imports, is_given_before, missing_import, given_refusals, given_refusal};
ghost use Rattle.import_order.specs.steps.Taking.{AreTexts};

use crate::name_table::NameTable;
use mj_base::{Items, Text};
use mojom_ast::Import;
use mojom_files::{Cause, NamedCause, NamedFile, Refusal, keep};
use std::alloc::{AllocError, Global};
use std::str;

/// The names of files.
fn file_names(alloc: Global, files: &[NamedFile]) -> Result<Items<Text>, AllocError>
    ensures are { IfOk result (λ names. names ≡ file_names files.now) }
    ensures texts { OnOk result (AreTexts (file_names files.now)) }
{
    let mut names = Vec::new(alloc);
    for file in files {
        names.push(Text::from_str(alloc, file.name.as_str())?)?;
    }
    Ok(Items::from_vec(names))
}

/// The numbers of files by their names.
pub(crate) fn name_table(alloc: Global, files: &[NamedFile]) -> Result<NameTable, AllocError>
    ensures are { IfOk result (λ table. table ≡ file_names files.now) }
    ensures texts { OnOk result (AreTexts (file_names files.now)) }
{
    NameTable::new(alloc, file_names(alloc, files)?)
}

/// The number of the file that an import names; none exactly where none has this name.
pub(crate) fn imported(table: &NameTable, one: &Import) -> Option<usize>
    requires { AreTexts table.now }
    ensures is { result ≡ imported table.now one.now }
    ensures below { IfSome result (λ number. number < length table.now) }
{
    match str::from_utf8(one.path.bytes.as_slice()) {
        Ok(path) => table.find(path),
        Err(_) => None,
    }
}

/// Whether a file of this name was given before the one of this number.
fn is_given_before(table: &NameTable, number: u32, name: &str) -> bool
    ensures { result ≡ is_given_before table.now number name.now }
{
    match table.find(name) {
        Some(first) => first < number as usize,
        None => false,
    }
}

/// The refusal of an import that names no file.
fn missing_import(alloc: Global, number: u32, one: &Import) -> Result<Refusal, AllocError>
    ensures { IfOk result (λ refusal. refusal ≡ missing_import number one.now) }
{
    Ok(Refusal {
        file: number,
        at: one.path.span.start,
        cause: Cause::no_file(one.path.bytes.copy(alloc)?),
    })
}

/// The first refusal of a file before any order, of which the number is given.
fn refusal_of(
    alloc: Global,
    table: &NameTable,
    number: u32,
    file: &NamedFile,
) -> Result<Option<Refusal>, AllocError>
    requires { AreTexts table.now }
    ensures { IfOk result (λ best. best ≡ best_of None (given_refusals table.now number file.now)) }
{
    let mut best = None;
    if is_given_before(table, number, file.name.as_str()) {
        let name = Text::from_str(alloc, file.name.as_str())?;
        best = Some(Refusal {
            file: number,
            at: 0,
            cause: Cause::named(NamedCause::DuplicateName, name),
        });
    }
    for one in file.tree.imports.as_slice() {
        if imported(table, one).is_none() {
            keep(&mut best, missing_import(alloc, number, one)?);
        }
    }
    Ok(best)
}

/// The first refusal of files before any order: a file that was given before, or an import that
/// names no file.
pub(crate) fn given_refusal(
    alloc: Global,
    files: &[NamedFile],
    table: &NameTable,
) -> Result<Option<Refusal>, AllocError>
    requires few { length files.now < 2 ^ 32 }
    requires named { table.now ≡ file_names files.now }
    requires texts { AreTexts table.now }
    ensures { IfOk result (λ refusal. refusal ≡ given_refusal files.now) }
{
    for (number, file) in files.iter().enumerate() {
        let refusal = refusal_of(alloc, table, number as u32, file)?;
        if refusal.is_some() {
            return Ok(refusal);
        }
    }
    Ok(None)
}

/// The numbers of the files that a file imports, in the order of its imports.
fn imports_of(alloc: Global, table: &NameTable, file: &NamedFile) -> Result<Items<u32>, AllocError>
    requires few { length table.now < 2 ^ 32 }
    requires texts { AreTexts table.now }
    ensures { IfOk result (λ numbers. numbers ≡ imports_of table.now file.now) }
{
    let mut numbers = Vec::new(alloc);
    for one in file.tree.imports.as_slice() {
        if let Some(number) = imported(table, one) {
            numbers.push(number as u32)?;
        }
    }
    Ok(Items::from_vec(numbers))
}

/// For each file the numbers of those that it imports, in the order of its imports.
pub(crate) fn all_imports(
    alloc: Global,
    files: &[NamedFile],
    table: &NameTable,
) -> Result<Vec<Items<u32>>, AllocError>
    requires few { length files.now < 2 ^ 32 }
    requires named { table.now ≡ file_names files.now }
    requires texts { AreTexts table.now }
    ensures { IfOk result (λ imports. imports.items ≡ all_imports files.now) }
{
    let mut imports = Vec::new(alloc);
    for file in files {
        imports.push(imports_of(alloc, table, file)?)?;
    }
    Ok(imports)
}
