//! The tables of files, where fields have no places yet.

ghost use Rattle.std.specs.Prelude.{◌≡◌, ◌++◌, [], ◌∷◌, map, IfOk, OnOk};
ghost use Rattle.draft_rows.specs.RowCounts.{after_all, no_rows};
ghost use Rattle.draft_rows.specs.Drafts.{empty, join, row_at, method_order, methods_order, draft_of_interface, draft_of_item, draft_of_definition};
ghost use Rattle.draft_rows.specs.Drafts.{draft_of_struct, draft_of_union, draft_of_enum, draft_of_const};
ghost use Rattle.kind_scope.specs.Scopes.{inside};
ghost use Rattle.draft_rows.specs.Drafts.{draft_of_all, draft_from, draft_of};
ghost use Rattle.draft_rows.specs.steps.Views.{lists_view};
ghost use Rattle.kind_scope.specs.Views.{scope_view};

use crate::counts::{
    Counts, NO_ROWS, after, definitions_at, methods_in, more, rows_of, structs_of,
};
use crate::interface_row::{add_methods, interface_row};
use crate::interface_version::interface_version;
use crate::item_row::{row_of_enum, row_of_struct, row_of_union};
use crate::literal::const_row;
use crate::member_row::is_stable;
use crate::row_table::RowTable;
use const_eval::Consts;
use kind_scope::ScopeView;
use mj_base::{FullName, Items};
use mj_schema::{ConstRow, DefinitionRow, DraftStruct, EnumRow, InterfaceRow, RowSort, UnionRow};
use module_resolver::Names;
use mojom_ast::{Const, Enum, Interface, Method, Struct, Union};
use mojom_files::{DefinitionView, ItemView, NamedFile};
use std::alloc::{AllocError, Global};

/// The tables of files: the rows of all definitions, each list in resolved order, and the order of
/// all. The structs of methods, where fields have no places yet, stand behind their interface.
#[derive(Drop)]
pub struct Draft {
    pub structs: Items<DraftStruct>,
    pub unions: Items<UnionRow>,
    pub enums: Items<EnumRow>,
    pub interfaces: Items<InterfaceRow>,
    pub consts: Items<ConstRow>,
    pub order: Items<DefinitionRow>,
}

/// Tables to which rows are added.
#[derive(Drop)]
pub struct DraftLists {
    pub structs: Vec<DraftStruct>,
    pub unions: Vec<UnionRow>,
    pub enums: Vec<EnumRow>,
    pub interfaces: Vec<InterfaceRow>,
    pub consts: Vec<ConstRow>,
    pub order: Vec<DefinitionRow>,
}

/// No tables. Takes no memory.
fn no_lists(alloc: Global) -> DraftLists
    ensures { lists_view result ≡ empty }
{
    DraftLists {
        structs: Vec::new(alloc),
        unions: Vec::new(alloc),
        enums: Vec::new(alloc),
        interfaces: Vec::new(alloc),
        consts: Vec::new(alloc),
        order: Vec::new(alloc),
    }
}

/// The tables that the lists hold. Takes no memory.
fn finished(lists: DraftLists) -> Draft
    ensures { result ≡ lists_view lists }
{
    let DraftLists {
        structs,
        unions,
        enums,
        interfaces,
        consts,
        order,
    } = lists;
    Draft {
        structs: Items::from_vec(structs),
        unions: Items::from_vec(unions),
        enums: Items::from_vec(enums),
        interfaces: Items::from_vec(interfaces),
        consts: Items::from_vec(consts),
        order: Items::from_vec(order),
    }
}

/// Adds a row to the order.
fn add_row(order: &mut Vec<DefinitionRow>, sort: RowSort, number: u32) -> Result<(), AllocError>
    ensures { OnOk result (order.new.items ≡ order.old.items ++ row_at sort number ∷ []) }
{
    order.push(DefinitionRow { sort, number })?;
    Ok(())
}

/// Adds the structs of a method to the order, the first of which has this number.
fn add_method_order(
    order: &mut Vec<DefinitionRow>,
    first: u32,
    method: &Method,
) -> Result<(), AllocError>
    ensures { OnOk result (order.new.items ≡ order.old.items ++ method_order first method.now) }
{
    add_row(order, RowSort::Struct, first)?;
    match &method.response {
        Some(_) => add_row(order, RowSort::Struct, more(first, 1).ok_or(AllocError)?),
        None => Ok(()),
    }
}

/// Adds the structs of methods to the order, the first of which has this number.
fn add_methods_order(
    order: &mut Vec<DefinitionRow>,
    first: u32,
    methods: &[&Method],
) -> Result<(), AllocError>
    ensures { OnOk result (order.new.items ≡ order.old.items ++ methods_order first (map (λ m. m.now) methods.now)) }
{
    let mut number = first;
    for method in methods {
        add_method_order(order, number, method)?;
        number = more(number, structs_of(method)).ok_or(AllocError)?;
    }
    Ok(())
}

/// Adds the tables of an interface.
fn add_interface(
    alloc: Global,
    lists: &mut DraftLists,
    rows: &RowTable,
    scope: &ScopeView<'_>,
    counts: Counts,
    view: &DefinitionView<'_>,
    item: &Interface,
) -> Result<(), AllocError>
    ensures { OnOk result (lists_view lists.new ≡ join (lists_view lists.old)
        (draft_of_interface rows.now (scope_view scope.now) counts view.now.full view.now.attributes item.now)) }
{
    let full = view.kept(alloc)?;
    let methods = methods_in(alloc, item.members.as_slice())?;
    let list = methods.as_slice();
    add_row(&mut lists.order, RowSort::Interface, counts.interfaces)?;
    add_methods_order(&mut lists.order, counts.structs, list)?;
    add_methods(alloc, &mut lists.structs, rows, scope, &full, list)?;
    let version = interface_version(alloc, scope, item.members.as_slice())?;
    let stable = is_stable(view.attributes());
    let row = interface_row(alloc, &full, counts.structs, list, version, stable)?;
    lists.interfaces.push(row)?;
    Ok(())
}

/// Adds the tables of a struct.
fn add_struct(
    alloc: Global,
    lists: &mut DraftLists,
    rows: &RowTable,
    scope: &ScopeView<'_>,
    counts: Counts,
    view: &DefinitionView<'_>,
    item: &Struct,
) -> Result<(), AllocError>
    ensures { OnOk result (lists_view lists.new ≡ join (lists_view lists.old)
        (draft_of_struct rows.now (scope_view scope.now) counts view.now.full view.now.attributes item.now)) }
{
    let full = view.kept(alloc)?;
    let row = row_of_struct(alloc, rows, scope, &full, view.attributes(), item)?;
    lists.structs.push(row)?;
    add_row(&mut lists.order, RowSort::Struct, counts.structs)
}

/// Adds the tables of a union of this full name.
fn add_union(
    alloc: Global,
    lists: &mut DraftLists,
    rows: &RowTable,
    scope: &ScopeView<'_>,
    counts: Counts,
    view: &DefinitionView<'_>,
    item: &Union,
) -> Result<(), AllocError>
    ensures { OnOk result (lists_view lists.new ≡ join (lists_view lists.old)
        (draft_of_union rows.now (scope_view scope.now) counts view.now.full view.now.attributes item.now)) }
{
    let full = view.kept(alloc)?;
    let row = row_of_union(alloc, rows, scope, &full, view.attributes(), item)?;
    lists.unions.push(row)?;
    add_row(&mut lists.order, RowSort::Union, counts.unions)
}

/// Adds the tables of an enum of this full name.
fn add_enum(
    alloc: Global,
    lists: &mut DraftLists,
    scope: &ScopeView<'_>,
    counts: Counts,
    view: &DefinitionView<'_>,
    item: &Enum,
) -> Result<(), AllocError>
    ensures { OnOk result (lists_view lists.new ≡ join (lists_view lists.old)
        (draft_of_enum (scope_view scope.now) counts view.now.full view.now.attributes item.now)) }
{
    let full = view.kept(alloc)?;
    let row = row_of_enum(alloc, scope, &full, view.attributes(), item)?;
    lists.enums.push(row)?;
    add_row(&mut lists.order, RowSort::Enum, counts.enums)
}

/// Adds the tables of a constant of this full name.
fn add_const(
    alloc: Global,
    lists: &mut DraftLists,
    rows: &RowTable,
    scope: &ScopeView<'_>,
    counts: Counts,
    full: &FullName,
    item: &Const,
) -> Result<(), AllocError>
    ensures { OnOk result (lists_view lists.new ≡ join (lists_view lists.old) (draft_of_const rows.now (scope_view scope.now) counts full.now item.now)) }
{
    if let Some(row) = const_row(alloc, rows, scope, full, item)? {
        lists.consts.push(row)?;
    }
    add_row(&mut lists.order, RowSort::Const, counts.consts)
}

/// Adds the tables of a definition in a scope, where this is the scope within it.
fn add_within(
    alloc: Global,
    lists: &mut DraftLists,
    rows: &RowTable,
    scope: &ScopeView<'_>,
    inner: &ScopeView<'_>,
    counts: Counts,
    view: &DefinitionView<'_>,
) -> Result<(), AllocError>
    requires { scope_view inner.now ≡ inside (scope_view scope.now) view.now.full }
    ensures { OnOk result (lists_view lists.new ≡ join (lists_view lists.old)
        (draft_of_item rows.now (scope_view scope.now) counts view.now.full view.now.attributes view.now.item)) }
{
    let full = view.kept(alloc)?;
    match view.item() {
        ItemView::Struct(item) => add_struct(alloc, lists, rows, inner, counts, view, item),
        ItemView::Union(item) => add_union(alloc, lists, rows, inner, counts, view, item),
        ItemView::Enum(item) => add_enum(alloc, lists, inner, counts, view, item),
        ItemView::Interface(item) => add_interface(alloc, lists, rows, inner, counts, view, item),
        ItemView::Const(item) => add_const(alloc, lists, rows, scope, counts, &full, item),
    }
}

/// Adds the tables of a definition, before which so many rows stand.
fn add_item(
    alloc: Global,
    lists: &mut DraftLists,
    rows: &RowTable,
    scope: &ScopeView<'_>,
    counts: Counts,
    view: &DefinitionView<'_>,
) -> Result<(), AllocError>
    ensures { OnOk result (lists_view lists.new ≡ join (lists_view lists.old)
        (draft_of_item rows.now (scope_view scope.now) counts view.now.full view.now.attributes view.now.item)) }
{
    let enclosing = Some(view.full(alloc)?);
    let inner = ScopeView {
        place: scope.place.within(&enclosing),
        consts: scope.consts,
    };
    add_within(alloc, lists, rows, scope, &inner, counts, view)
}

/// Adds the tables of a definition of a file, before which so many rows stand.
fn add_definition(
    alloc: Global,
    lists: &mut DraftLists,
    rows: &RowTable,
    scope: &ScopeView<'_>,
    counts: Counts,
    view: &DefinitionView<'_>,
) -> Result<(), AllocError>
    ensures { OnOk result (lists_view lists.new ≡ join (lists_view lists.old) (draft_of_definition rows.now (scope_view scope.now) counts view.now)) }
{
    let enclosing = view.enclosing(alloc)?;
    let around = ScopeView {
        place: scope.place.within(&enclosing),
        consts: scope.consts,
    };
    add_item(alloc, lists, rows, &around, counts, view)
}

/// Adds the tables of definitions of a file, where so many rows stand before them; how many stand
/// behind them.
fn add_all(
    alloc: Global,
    lists: &mut DraftLists,
    rows: &RowTable,
    scope: &ScopeView<'_>,
    counts: Counts,
    views: &[DefinitionView<'_>],
) -> Result<Counts, AllocError>
    ensures added { OnOk result (lists_view lists.new ≡ join (lists_view lists.old) (draft_of_all rows.now (scope_view scope.now) counts views.now)) }
    ensures behind { IfOk result (λ behind. behind ≡ after_all counts views.now) }
{
    let mut behind = counts;
    for view in views {
        add_definition(alloc, lists, rows, scope, behind, view)?;
        behind = after(behind, view.item()).ok_or(AllocError)?;
    }
    Ok(behind)
}

/// Adds the tables of files in their order.
fn add_files<'a>(
    alloc: Global,
    lists: &mut DraftLists,
    rows: &RowTable,
    names: &'a Names,
    consts: &'a Consts,
    files: &[NamedFile],
    order: &[u32],
) -> Result<(), AllocError>
    ensures { OnOk result (lists_view lists.new ≡ join (lists_view lists.old) (draft_from rows.now names.now.files consts.now files.now no_rows order.now)) }
{
    let mut counts = NO_ROWS;
    for number in order {
        let enclosing = None;
        let scope = ScopeView {
            place: names.place(*number, &enclosing),
            consts,
        };
        let views = definitions_at(alloc, files, *number)?;
        counts = add_all(alloc, lists, rows, &scope, counts, views.as_slice())?;
    }
    Ok(())
}

/// The tables of files in their order.
pub fn draft_of(
    alloc: Global,
    files: &[NamedFile],
    order: &[u32],
    names: &Names,
    consts: &Consts,
) -> Result<Draft, AllocError>
    ensures { IfOk result (λ draft. draft ≡ draft_of names.now.files consts.now files.now order.now) }
{
    let rows = Items::from_vec(rows_of(alloc, files, order)?);
    let table = RowTable::new(alloc, rows)?;
    let mut lists = no_lists(alloc);
    add_files(alloc, &mut lists, &table, names, consts, files, order)?;
    Ok(finished(lists))
}
