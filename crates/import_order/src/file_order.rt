//! The resolved order of files.

ghost use Rattle.std.specs.Prelude.{◌≡◌, ◌<◌, ◌^◌, List, length, false, Some, None, IfOk, IfErr};
ghost use Rattle.mojom_files.specs.declared.named_file.NamedFile.{NamedFile};
ghost use Rattle.import_order.specs.Imports.{has, all_files, first_left, next_file, IsTakenWhole};
ghost use Rattle.import_order.specs.steps.Taking.{AreBelow};
ghost use Rattle.import_order.specs.Order.{file_names, all_imports, given_refusal, names_file, import_place, names_at, LeadsOnAt};
ghost use Rattle.import_order.specs.Order.{IsCircular, IsOrdered, IsDisordered, OneOrder};
ghost use Rattle.import_order.specs.steps.Taking.{AreTexts};
ghost use Rattle.import_order.specs.Errors.{IsFor};

use crate::circle::{find_circle, first_file_left, next_on_walk};
use crate::error::ResolveError;
use crate::given::{all_imports, given_refusal, imported, name_table};
use crate::marked::Marked;
use crate::name_table::NameTable;
use crate::taking::take_all;
use mj_base::{Items, Text};
use mojom_ast::Import;
use mojom_files::{Cause, NamedFile, Refusal};
use std::alloc::{AllocError, Global};

/// Whether an import names the file of this number.
fn names_file(table: &NameTable, number: u32, one: &Import) -> bool
    requires { AreTexts table.now }
    ensures { result ≡ names_file table.now number one.now }
{
    match imported(table, one) {
        Some(other) => other == number as usize,
        None => false,
    }
}

/// Where a file first imports the one of this number.
fn import_place(table: &NameTable, number: u32, file: &NamedFile) -> Option<u64>
    requires { AreTexts table.now }
    ensures { result ≡ import_place table.now number file.now }
{
    for one in file.tree.imports.as_slice() {
        if names_file(table, number, one) {
            return Some(one.path.span.start);
        }
    }
    None
}

/// The names of the files of these numbers.
fn names_at(alloc: Global, files: &[NamedFile], numbers: &[u32]) -> Result<Items<Text>, AllocError>
    requires { AreBelow (length files.now) numbers.now }
    ensures { IfOk result (λ names. names ≡ names_at (file_names files.now) numbers.now) }
{
    let mut names = Vec::new(alloc);
    for number in numbers {
        names.push(Text::from_str(alloc, files[*number as usize].name.as_str())?)?;
    }
    Ok(Items::from_vec(names))
}

/// Where the import of a file stands that leads on, where no file can be taken.
fn leading_place(
    files: &[NamedFile],
    table: &NameTable,
    imports: &[Items<u32>],
    taken: &Marked,
    file: u32,
) -> u64
    requires named { table.now ≡ file_names files.now }
    requires texts { AreTexts table.now }
    requires imports { imports.now ≡ all_imports files.now }
    requires limit { taken.now.limit ≡ length imports.now }
    requires none_next { next_file imports.now taken.now.numbers ≡ None }
    requires within { file < length imports.now }
    requires left { has taken.now.numbers file ≡ false }
    ensures { LeadsOnAt files.now taken.now.numbers file result }
{
    let next = next_on_walk(imports, taken, file);
    match import_place(table, next, &files[file as usize]) {
        Some(at) => at,
        None => unreachable!(),
    }
}

/// The refusal of files of which this is the first that is left, where no file can be taken.
fn circular(
    alloc: Global,
    files: &[NamedFile],
    table: &NameTable,
    imports: &[Items<u32>],
    taken: &Marked,
    from: u32,
) -> Result<Refusal, AllocError>
    requires named { table.now ≡ file_names files.now }
    requires texts { AreTexts table.now }
    requires imports { imports.now ≡ all_imports files.now }
    requires limit { taken.now.limit ≡ length imports.now }
    requires whole { IsTakenWhole imports.now taken.now.numbers }
    requires from { first_left taken.now.numbers (all_files imports.now) ≡ Some from }
    ensures { IfOk result (λ refusal. IsCircular files.now refusal) }
{
    let circle = find_circle(alloc, imports, taken, from)?;
    let path = circle.path.as_slice();
    let file = path[circle.first];
    let at = leading_place(files, table, imports, taken, file);
    let names = names_at(alloc, files, &path[circle.first..])?;
    Ok(Refusal {
        file,
        at,
        cause: Cause::circular_import(names),
    })
}

/// The order of files all of which were taken; or else the refusal of those that are left.
fn ordered_or_circular(
    alloc: Global,
    files: &[NamedFile],
    table: &NameTable,
    imports: &[Items<u32>],
    taken: Marked,
) -> Result<Vec<u32>, ResolveError>
    requires few { length files.now < 2 ^ 32 }
    requires none { given_refusal files.now ≡ None }
    requires named { table.now ≡ file_names files.now }
    requires texts { AreTexts table.now }
    requires imports { imports.now ≡ all_imports files.now }
    requires limit { taken.limit ≡ length imports.now }
    requires whole { IsTakenWhole imports.now taken.numbers }
    ensures ok { IfOk result (λ order. IsOrdered files.now order.items) }
    ensures refused { IfErr result (IsFor (IsDisordered files.now)) }
{
    match first_file_left(&taken, files.len() as u32) {
        Some(from) => Err(ResolveError::Refused(circular(
            alloc, files, table, imports, &taken, from,
        )?)),
        None => Ok(taken.into_vec()),
    }
}

/// The order of files of which nothing was refused as they were given; or else their circle.
fn taken_order(
    alloc: Global,
    files: &[NamedFile],
    table: &NameTable,
) -> Result<Vec<u32>, ResolveError>
    requires few { length files.now < 2 ^ 32 }
    requires none { given_refusal files.now ≡ None }
    requires named { table.now ≡ file_names files.now }
    requires texts { AreTexts table.now }
    ensures ok { IfOk result (λ order. IsOrdered files.now order.items) }
    ensures refused { IfErr result (IsFor (IsDisordered files.now)) }
{
    let imports = all_imports(alloc, files, table)?;
    let list = imports.as_slice();
    let taken = take_all(alloc, list)?;
    ordered_or_circular(alloc, files, table, list, taken)
}

/// The order of files with the table of their names; or else their first refusal.
fn order_by(alloc: Global, files: &[NamedFile], table: &NameTable) -> Result<Vec<u32>, ResolveError>
    requires few { length files.now < 2 ^ 32 }
    requires named { table.now ≡ file_names files.now }
    requires texts { AreTexts table.now }
    ensures ok { IfOk result (λ order. IsOrdered files.now order.items) }
    ensures refused { IfErr result (IsFor (IsDisordered files.now)) }
{
    match given_refusal(alloc, files, table)? {
        Some(refusal) => Err(ResolveError::Refused(refusal)),
        None => taken_order(alloc, files, table),
    }
}

/// The numbers of the files in resolved order: again and again the first file given whose imports
/// are all in it. Or else the first refusal of what was given, along the files as they were given:
/// `DuplicateName` of a file that was given before, and `NoFile` of an import that names no file. Or
/// else `CircularImport`, where files are left none of which can be next: from the first of them
/// along the first import of each that is left, the circle begins at the first file that is met twice.
pub fn order(alloc: Global, files: &[NamedFile]) -> Result<Vec<u32>, ResolveError>
    requires { length files.now < 2 ^ 32 }
    ensures ok { IfOk result (λ order. IsOrdered files.now order.items) }
    ensures refused { IfErr result (IsFor (IsDisordered files.now)) }
{
    let table = name_table(alloc, files)?;
    order_by(alloc, files, &table)
}

/// Files have one order or one refusal, and never both: this is a law and does nothing.
pub fn one_order()
    ensures { (files : List NamedFile) → OneOrder files }
{}
