//! The rows of interfaces, and the structs of their methods.

ghost use Rattle.std.specs.Prelude.{◌≡◌, ◌++◌, map, IfOk, OnOk};
ghost use Rattle.std.specs.Option.{option_to_list};
ghost use Rattle.mj_base.specs.Names.{within};
ghost use Rattle.draft_rows.specs.Rows.{method_row, method_rows, interface_row, parameters_row, response_row, method_structs, structs_of_methods};
ghost use Rattle.kind_scope.specs.Views.{scope_view};

use crate::counts::{more, structs_of};
use crate::member_row::struct_row;
use crate::row_table::RowTable;
use kind_scope::{ScopeView, held, ordinal_at, parameters};
use mj_base::{FullName, Items, OuterName, Text};
use mj_schema::{DraftStruct, InterfaceRow, MethodRow};
use mojom_ast::{Method, Parameter};
use std::alloc::{AllocError, Global};

/// The row of a method whose request has this number.
fn method_row(
    alloc: Global,
    ordinal: u32,
    first: u32,
    method: &Method,
) -> Result<MethodRow, AllocError>
    ensures { IfOk result (λ made. made ≡ method_row ordinal first method.now) }
{
    let name = Text::from_str(alloc, method.name.text.as_str())?;
    let response = match &method.response {
        Some(_) => Some(more(first, 1).ok_or(AllocError)?),
        None => None,
    };
    Ok(MethodRow {
        name,
        ordinal,
        request: first,
        response,
    })
}

/// The rows of methods, where so many structs stand before the first request.
fn method_rows(
    alloc: Global,
    first: u32,
    methods: &[&Method],
) -> Result<Items<MethodRow>, AllocError>
    ensures { IfOk result (λ made. made ≡ method_rows 0 first (map (λ m. m.now) methods.now)) }
{
    let mut made = Vec::new(alloc);
    let mut next = 0;
    let mut number = first;
    for method in methods {
        let ordinal = ordinal_at(next, method.ordinal);
        made.push(method_row(alloc, ordinal, number, method)?)?;
        next = held(u64::from(ordinal) + 1);
        number = more(number, structs_of(method)).ok_or(AllocError)?;
    }
    Ok(Items::from_vec(made))
}

/// The interface of this full name and these methods, where so many structs stand before theirs, of this
/// version, stable or not.
pub fn interface_row(
    alloc: Global,
    full: &FullName,
    first: u32,
    methods: &[&Method],
    version: u32,
    stable: bool,
) -> Result<InterfaceRow, AllocError>
    ensures { IfOk result (λ made. made ≡ interface_row full.now first (map (λ m. m.now) methods.now) version stable) }
{
    Ok(InterfaceRow {
        name: full.share(alloc)?,
        methods: method_rows(alloc, first, methods)?,
        version,
        stable,
    })
}

/// The struct of a list of parameters, which isn't stable by itself.
fn parameters_row(
    alloc: Global,
    rows: &RowTable,
    scope: &ScopeView<'_>,
    full: &FullName,
    list: &[Parameter],
) -> Result<DraftStruct, AllocError>
    ensures { IfOk result (λ made. made ≡ parameters_row rows.now (scope_view scope.now) full.now list.now) }
{
    let members = parameters(alloc, list)?;
    struct_row(alloc, rows, scope, full, false, members.as_slice())
}

/// Adds the struct of a response that there is.
fn add_response(
    alloc: Global,
    structs: &mut Vec<DraftStruct>,
    rows: &RowTable,
    scope: &ScopeView<'_>,
    full: &FullName,
    response: &Option<Items<Parameter>>,
) -> Result<(), AllocError>
    ensures { OnOk result (structs.new.items ≡ structs.old.items ++ option_to_list (response_row rows.now (scope_view scope.now) full.now response.now)) }
{
    if let Some(list) = response {
        structs.push(parameters_row(alloc, rows, scope, full, list.as_slice())?)?;
    }
    Ok(())
}

/// Adds the structs of a method of the interface of this full name.
fn add_method(
    alloc: Global,
    structs: &mut Vec<DraftStruct>,
    rows: &RowTable,
    scope: &ScopeView<'_>,
    full: &OuterName,
    method: &Method,
) -> Result<(), AllocError>
    ensures { OnOk result (structs.new.items ≡ structs.old.items
        ++ method_structs rows.now (scope_view scope.now) (within full.now method.now.name.text) method.now) }
{
    let name = method.name.text.as_str();
    let request = full.inner_of(alloc, name, "request")?;
    let list = method.request.as_slice();
    structs.push(parameters_row(alloc, rows, scope, &request, list)?)?;
    let response = full.inner_of(alloc, name, "response")?;
    add_response(alloc, structs, rows, scope, &response, &method.response)
}

/// Adds the structs of methods of the interface of this full name, which is kept for all of them.
fn add_each_method(
    alloc: Global,
    structs: &mut Vec<DraftStruct>,
    rows: &RowTable,
    scope: &ScopeView<'_>,
    full: &OuterName,
    methods: &[&Method],
) -> Result<(), AllocError>
    ensures { OnOk result (structs.new.items ≡ structs.old.items
        ++ structs_of_methods rows.now (scope_view scope.now) full.now (map (λ m. m.now) methods.now)) }
{
    for method in methods {
        add_method(alloc, structs, rows, scope, full, method)?;
    }
    Ok(())
}

/// Adds the structs of the methods of the interface of this full name.
pub fn add_methods(
    alloc: Global,
    structs: &mut Vec<DraftStruct>,
    rows: &RowTable,
    scope: &ScopeView<'_>,
    full: &FullName,
    methods: &[&Method],
) -> Result<(), AllocError>
    ensures { OnOk result (structs.new.items ≡ structs.old.items
        ++ structs_of_methods rows.now (scope_view scope.now) full.now (map (λ m. m.now) methods.now)) }
{
    let outer = full.for_inner(alloc)?;
    add_each_method(alloc, structs, rows, scope, &outer, methods)
}
