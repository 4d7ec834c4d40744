//! What is refused of kinds, ordinals and versions in a file.

ghost use Rattle.std.specs.Prelude.{◌≡◌, map, None, IfOk, OnOk};
ghost use Rattle.std.specs.List.{flat_map};
ghost use Rattle.mojom_files.specs.Refusals.{best_of};
ghost use Rattle.mojom_files.specs.Views.{item_view};
ghost use Rattle.kind_scope.specs.Scopes.{inside};
ghost use Rattle.kind_scope.specs.Views.{scope_view};
ghost use Rattle.kind_refusals.specs.KindRefusals.{refused_parameters, refused_response, refused_in_interface, refused_item, refused_definition, refusals_in};
ghost use Rattle.kind_refusals.specs.KindRefusals.{refused_list, refusals_at, kinds_refusal};
ghost use Rattle.kind_refusals.specs.declared.list_sort.ListSort.TheVariants.{Fields, UnionFields, Methods};
ghost use Rattle.kind_scope.specs.Members.{field_of, union_field_of, method_of};

use crate::enum_check::check_enum;
use crate::list_check::check_list;
use crate::list_sort::ListSort;
use crate::type_check::check_type;
use const_eval::Consts;
use kind_scope::{ScopeView, fields, methods, parameters, union_fields};
use mj_base::{Items, Text};
use module_resolver::Names;
use mojom_ast::{Identifier, Interface, InterfaceItem, InterfaceMember, Parameter, Struct, Union};
use mojom_files::{DefinitionView, ItemView, NamedFile, Refusal, definitions};
use std::alloc::{AllocError, Global};

/// Notes what is refused of the parameters of a list.
fn check_parameters(
    alloc: Global,
    best: &mut Option<Refusal>,
    scope: &ScopeView<'_>,
    owner: &Identifier,
    list: &[Parameter],
) -> Result<(), AllocError>
    ensures { OnOk result (best.new ≡ best_of best.old (refused_parameters (scope_view scope.now) owner.now list.now)) }
{
    let members = parameters(alloc, list)?;
    check_list(
        alloc,
        best,
        scope,
        owner,
        ListSort::Parameters,
        members.as_slice(),
    )
}

/// Notes what is refused of the response of a method that has one.
fn check_response(
    alloc: Global,
    best: &mut Option<Refusal>,
    scope: &ScopeView<'_>,
    owner: &Identifier,
    response: &Option<Items<Parameter>>,
) -> Result<(), AllocError>
    ensures { OnOk result (best.new ≡ best_of best.old (refused_response (scope_view scope.now) owner.now response.now)) }
{
    match response {
        Some(list) => check_parameters(alloc, best, scope, owner, list.as_slice()),
        None => Ok(()),
    }
}

/// Notes what is refused of the parameters of methods.
fn check_methods(
    alloc: Global,
    best: &mut Option<Refusal>,
    scope: &ScopeView<'_>,
    members: &[InterfaceMember],
) -> Result<(), AllocError>
    ensures { OnOk result (best.new ≡ best_of best.old (flat_map (refused_in_interface (scope_view scope.now)) members.now)) }
{
    for member in members {
        if let InterfaceItem::Method(method) = &member.item {
            let request = method.request.as_slice();
            check_parameters(alloc, best, scope, &method.name, request)?;
            check_response(alloc, best, scope, &method.name, &method.response)?;
        }
    }
    Ok(())
}

/// Notes what is refused of the fields of a struct, within it.
fn check_struct(
    alloc: Global,
    best: &mut Option<Refusal>,
    scope: &ScopeView<'_>,
    item: &Struct,
) -> Result<(), AllocError>
    ensures { OnOk result (best.new ≡ best_of best.old (refused_list (scope_view scope.now) item.now.name Fields (flat_map field_of item.now.members))) }
{
    let members = fields(alloc, item.members.as_slice())?;
    let sort = ListSort::Fields;
    check_list(alloc, best, scope, &item.name, sort, members.as_slice())
}

/// Notes what is refused of the fields of a union, within it.
fn check_union(
    alloc: Global,
    best: &mut Option<Refusal>,
    scope: &ScopeView<'_>,
    item: &Union,
) -> Result<(), AllocError>
    ensures { OnOk result (best.new ≡ best_of best.old (refused_list (scope_view scope.now) item.now.name UnionFields (map union_field_of item.now.fields))) }
{
    let members = union_fields(alloc, item.fields.as_slice())?;
    let sort = ListSort::UnionFields;
    check_list(alloc, best, scope, &item.name, sort, members.as_slice())
}

/// Notes what is refused of the methods of an interface, within it, but for their parameters.
fn check_method_list(
    alloc: Global,
    best: &mut Option<Refusal>,
    scope: &ScopeView<'_>,
    item: &Interface,
) -> Result<(), AllocError>
    ensures { OnOk result (best.new ≡ best_of best.old (refused_list (scope_view scope.now) item.now.name Methods (flat_map method_of item.now.members))) }
{
    let members = methods(alloc, item.members.as_slice())?;
    let sort = ListSort::Methods;
    check_list(alloc, best, scope, &item.name, sort, members.as_slice())
}

/// Notes what is refused of a definition of this full name in a scope, where this is the scope within it.
fn check_within(
    alloc: Global,
    best: &mut Option<Refusal>,
    scope: &ScopeView<'_>,
    inner: &ScopeView<'_>,
    full: &str,
    item: ItemView<'_>,
) -> Result<(), AllocError>
    requires { scope_view inner.now ≡ inside (scope_view scope.now) full.now }
    ensures { OnOk result (best.new ≡ best_of best.old (refused_item (scope_view scope.now) full.now (item_view item.entry))) }
{
    match item {
        ItemView::Struct(item) => check_struct(alloc, best, inner, item),
        ItemView::Union(item) => check_union(alloc, best, inner, item),
        ItemView::Enum(item) => check_enum(alloc, best, scope, item),
        ItemView::Interface(item) => {
            check_method_list(alloc, best, inner, item)?;
            check_methods(alloc, best, inner, item.members.as_slice())
        }
        ItemView::Const(item) => check_type(alloc, best, scope, &item.name, false, &item.kind),
    }
}

/// Notes what is refused of a definition of this full name.
fn check_item(
    alloc: Global,
    best: &mut Option<Refusal>,
    scope: &ScopeView<'_>,
    full: &str,
    item: ItemView<'_>,
) -> Result<(), AllocError>
    ensures { OnOk result (best.new ≡ best_of best.old (refused_item (scope_view scope.now) full.now (item_view item.entry))) }
{
    let enclosing = Some(Text::from_str(alloc, full)?);
    let inner = ScopeView {
        place: scope.place.within(&enclosing),
        consts: scope.consts,
    };
    check_within(alloc, best, scope, &inner, full, item)
}

/// Notes what is refused of a definition in the file of this number.
fn check_definition<'a>(
    alloc: Global,
    best: &mut Option<Refusal>,
    names: &'a Names,
    consts: &'a Consts,
    file: u32,
    view: &DefinitionView<'_>,
) -> Result<(), AllocError>
    ensures { OnOk result (best.new ≡ best_of best.old (refused_definition names.now.files consts.now file view.now)) }
{
    let enclosing = view.enclosing(alloc)?;
    let scope = ScopeView {
        place: names.place(file, &enclosing),
        consts,
    };
    let full = view.full(alloc)?;
    check_item(alloc, best, &scope, full.as_str(), view.item())
}

/// The first refusal of the file of this number; none exactly where nothing is refused.
fn refusal_in(
    alloc: Global,
    names: &Names,
    consts: &Consts,
    number: u32,
    file: &NamedFile,
) -> Result<Option<Refusal>, AllocError>
    ensures { IfOk result (λ best. best ≡ best_of None (refusals_in names.now.files consts.now number file.now)) }
{
    let mut best = None;
    let views = definitions(alloc, &file.tree)?;
    for view in views.as_slice() {
        check_definition(alloc, &mut best, names, consts, number, view)?;
    }
    Ok(best)
}

/// The first refusal of the file of this number, where it is there.
fn refusal_at(
    alloc: Global,
    names: &Names,
    consts: &Consts,
    files: &[NamedFile],
    number: u32,
) -> Result<Option<Refusal>, AllocError>
    ensures { IfOk result (λ best. best ≡ best_of None (refusals_at names.now.files consts.now files.now number)) }
{
    match files.get(number as usize) {
        Some(file) => refusal_in(alloc, names, consts, number, file),
        None => Ok(None),
    }
}

/// The first refusal of kinds, ordinals and versions of all files, in their order; none exactly where
/// nothing is refused.
pub fn kinds_refusal(
    alloc: Global,
    files: &[NamedFile],
    order: &[u32],
    names: &Names,
    consts: &Consts,
) -> Result<Option<Refusal>, AllocError>
    ensures { IfOk result (λ first. first ≡ kinds_refusal names.now.files consts.now files.now order.now) }
{
    for number in order {
        let best = refusal_at(alloc, names, consts, files, *number)?;
        if best.is_some() {
            return Ok(best);
        }
    }
    Ok(None)
}
