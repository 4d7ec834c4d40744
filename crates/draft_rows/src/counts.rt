//! The numbers of rows.

ghost use Rattle.std.specs.Prelude.{◌≡◌, ◌+◌, ◌++◌, map, IfOk, OnOk};
ghost use Rattle.mojom_files.specs.Views.{item_view};
ghost use Rattle.draft_rows.specs.steps.RowNumbers.{row_number, numbered};
ghost use Rattle.draft_rows.specs.RowCounts.{methods_in, structs_of, structs_of_all, after, after_all, counts_before, definitions_at, rows_of};

use mj_base::Items;
use mojom_ast::{InterfaceItem, InterfaceMember, Method};
use mojom_files::{DefinitionView, ItemView, NamedFile, definitions};
use std::alloc::{AllocError, Global};

/// How many rows of each sort there are.
#[derive(Clone, Copy)]
pub struct Counts {
    pub structs: u32,
    pub unions: u32,
    pub enums: u32,
    pub interfaces: u32,
    pub consts: u32,
}

/// No rows.
pub const NO_ROWS: Counts = Counts {
    structs: 0,
    unions: 0,
    enums: 0,
    interfaces: 0,
    consts: 0,
};

/// How many rows stand before each definition of the file of this number.
#[derive(Drop)]
pub struct FileRows {
    pub file: u32,
    pub before: Items<Counts>,
}

/// The methods of an interface.
pub fn methods_in<'a>(
    alloc: Global,
    members: &'a [InterfaceMember],
) -> Result<Vec<&'a Method>, AllocError>
    ensures { IfOk result (λ found. map (λ m. m.now) found.items ≡ methods_in members.now) }
{
    let mut found = Vec::new(alloc);
    for member in members {
        if let InterfaceItem::Method(method) = &member.item {
            found.push(method)?;
        }
    }
    Ok(found)
}

/// So many rows and so many more; none exactly where 32 bits don't hold their number.
pub fn more(count: u32, by: u32) -> Option<u32>
    ensures { result ≡ row_number (count + by) }
{
    count.checked_add(by)
}

/// How many structs a method has: one for the request, and one for the response where there is one.
pub fn structs_of(method: &Method) -> u32
    ensures { result ≡ structs_of method.now }
{
    match &method.response {
        Some(_) => 2,
        None => 1,
    }
}

/// So many structs, and those of the methods among members; none exactly where 32 bits don't hold their
/// number.
fn with_structs(count: u32, members: &[InterfaceMember]) -> Option<u32>
    ensures { result ≡ row_number (count + structs_of_all (methods_in members.now)) }
{
    let mut sum = count;
    for member in members {
        if let InterfaceItem::Method(method) = &member.item {
            sum = more(sum, structs_of(method))?;
        }
    }
    Some(sum)
}

/// So many rows, and those of a definition; none exactly where 32 bits don't hold a number of them.
pub fn after(counts: Counts, item: ItemView<'_>) -> Option<Counts>
    ensures { result ≡ numbered (after counts (item_view item.entry)) }
{
    let mut made = counts;
    match item {
        ItemView::Struct(_) => made.structs = more(counts.structs, 1)?,
        ItemView::Union(_) => made.unions = more(counts.unions, 1)?,
        ItemView::Enum(_) => made.enums = more(counts.enums, 1)?,
        ItemView::Interface(item) => {
            made.structs = with_structs(counts.structs, item.members.as_slice())?;
            made.interfaces = more(counts.interfaces, 1)?;
        }
        ItemView::Const(_) => made.consts = more(counts.consts, 1)?,
    }
    Some(made)
}

/// Adds how many rows stand before each definition, where so many stand before the first; how many
/// stand behind the last. There is no memory for 2^32 rows.
fn add_counts(
    before: &mut Vec<Counts>,
    counts: Counts,
    views: &[DefinitionView<'_>],
) -> Result<Counts, AllocError>
    ensures before { OnOk result (before.new.items ≡ before.old.items ++ counts_before counts views.now) }
    ensures behind { IfOk result (λ behind. behind ≡ after_all counts views.now) }
{
    let mut behind = counts;
    for view in views {
        before.push(behind)?;
        behind = after(behind, view.item()).ok_or(AllocError)?;
    }
    Ok(behind)
}

/// The definitions of the file of this number, where it is there.
pub fn definitions_at<'a>(
    alloc: Global,
    files: &'a [NamedFile],
    number: u32,
) -> Result<Vec<DefinitionView<'a>>, AllocError>
    ensures { IfOk result (λ views. views.items ≡ definitions_at files.now number) }
{
    match files.get(number as usize) {
        Some(file) => definitions(alloc, &file.tree),
        None => Ok(Vec::new(alloc)),
    }
}

/// For each file of an order, how many rows stand before each of its definitions.
pub fn rows_of(
    alloc: Global,
    files: &[NamedFile],
    order: &[u32],
) -> Result<Vec<FileRows>, AllocError>
    ensures { IfOk result (λ rows. rows.items ≡ rows_of files.now order.now) }
{
    let mut rows = Vec::new(alloc);
    let mut counts = NO_ROWS;
    for number in order {
        let views = definitions_at(alloc, files, *number)?;
        let mut before = Vec::new(alloc);
        counts = add_counts(&mut before, counts, views.as_slice())?;
        rows.push(FileRows {
            file: *number,
            before: Items::from_vec(before),
        })?;
    }
    Ok(rows)
}
