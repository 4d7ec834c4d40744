//! The names that definitions and their members use.

ghost use Rattle.std.specs.Prelude.{◌≡◌, OnOk, Some};
ghost use Rattle.std.specs.List.{flat_map};
ghost use Rattle.mojom_files.specs.Refusals.{best_of};
ghost use Rattle.name_refusals.specs.Uses.{uses_in_struct, uses_in_union, uses_in_enum, uses_in_parameter, uses_in_interface};
ghost use Rattle.name_refusals.specs.Uses.{response_of, uses_in_item, uses_of};
ghost use Rattle.name_refusals.specs.NameRefusals.{refused_uses};

use crate::uses::{check_attributes, check_option, check_type, check_value};
use mj_base::Items;
use module_resolver::{Names, Place};
use mojom_ast::{
    Enumerator, InterfaceItem, InterfaceMember, Parameter, StructItem, StructMember, UnionField,
};
use mojom_files::{DefinitionView, ItemView, Refusal};
use std::alloc::{AllocError, Global};

/// Refuses names of a field of a struct, as `check_use` does; what is no field has none of its own.
fn check_field(
    alloc: Global,
    place: &Place<'_>,
    member: &StructMember,
    best: &mut Option<Refusal>,
) -> Result<(), AllocError>
    ensures { OnOk result (best.new ≡ best_of best.old (refused_uses place.now.files place.now.file (uses_in_struct place.now.enclosing member.now))) }
{
    match &member.item {
        StructItem::Field(field) => {
            let attributes = member.attributes.as_slice();
            check_attributes(alloc, place, attributes, best)?;
            check_type(alloc, place, &field.kind, best)?;
            check_option(alloc, place, &field.default, best)
        }
        StructItem::Const(_) | StructItem::Enum(_) => Ok(()),
    }
}

/// Refuses names of the fields of a struct, as `check_use` does.
fn check_fields(
    alloc: Global,
    place: &Place<'_>,
    members: &[StructMember],
    best: &mut Option<Refusal>,
) -> Result<(), AllocError>
    ensures { OnOk result (best.new ≡ best_of best.old
        (refused_uses place.now.files place.now.file (flat_map (uses_in_struct place.now.enclosing) members.now))) }
{
    for member in members {
        check_field(alloc, place, member, best)?;
    }
    Ok(())
}

/// Refuses names of the fields of a union, as `check_use` does.
fn check_union(
    alloc: Global,
    place: &Place<'_>,
    fields: &[UnionField],
    best: &mut Option<Refusal>,
) -> Result<(), AllocError>
    ensures { OnOk result (best.new ≡ best_of best.old
        (refused_uses place.now.files place.now.file (flat_map (uses_in_union place.now.enclosing) fields.now))) }
{
    for field in fields {
        let attributes = field.attributes.as_slice();
        check_attributes(alloc, place, attributes, best)?;
        check_type(alloc, place, &field.kind, best)?;
    }
    Ok(())
}

/// Refuses names of the enumerators of an enum, as `check_use` does.
fn check_enum(
    alloc: Global,
    place: &Place<'_>,
    enumerators: &[Enumerator],
    best: &mut Option<Refusal>,
) -> Result<(), AllocError>
    ensures { OnOk result (best.new ≡ best_of best.old
        (refused_uses place.now.files place.now.file (flat_map (uses_in_enum place.now.enclosing) enumerators.now))) }
{
    for enumerator in enumerators {
        let attributes = enumerator.attributes.as_slice();
        check_attributes(alloc, place, attributes, best)?;
        check_option(alloc, place, &enumerator.value, best)?;
    }
    Ok(())
}

/// Refuses names of parameters, as `check_use` does.
fn check_parameters(
    alloc: Global,
    place: &Place<'_>,
    parameters: &[Parameter],
    best: &mut Option<Refusal>,
) -> Result<(), AllocError>
    ensures { OnOk result (best.new ≡ best_of best.old
        (refused_uses place.now.files place.now.file (flat_map (uses_in_parameter place.now.enclosing) parameters.now))) }
{
    for parameter in parameters {
        let attributes = parameter.attributes.as_slice();
        check_attributes(alloc, place, attributes, best)?;
        check_type(alloc, place, &parameter.kind, best)?;
    }
    Ok(())
}

/// Refuses names of the parameters of a response where there is one, as `check_use` does.
fn check_response(
    alloc: Global,
    place: &Place<'_>,
    response: &Option<Items<Parameter>>,
    best: &mut Option<Refusal>,
) -> Result<(), AllocError>
    ensures { let uses = flat_map (uses_in_parameter place.now.enclosing) (response_of response.now) in
        OnOk result (best.new ≡ best_of best.old (refused_uses place.now.files place.now.file uses)) }
{
    match response {
        Some(parameters) => { check_parameters(alloc, place, parameters.as_slice(), best) }
        None => Ok(()),
    }
}

/// Refuses names of a method, as `check_use` does; what is no method has none of its own.
fn check_method(
    alloc: Global,
    place: &Place<'_>,
    member: &InterfaceMember,
    best: &mut Option<Refusal>,
) -> Result<(), AllocError>
    ensures { OnOk result (best.new ≡ best_of best.old (refused_uses place.now.files place.now.file (uses_in_interface place.now.enclosing member.now))) }
{
    match &member.item {
        InterfaceItem::Method(method) => {
            let attributes = member.attributes.as_slice();
            check_attributes(alloc, place, attributes, best)?;
            let request = method.request.as_slice();
            check_parameters(alloc, place, request, best)?;
            check_response(alloc, place, &method.response, best)
        }
        InterfaceItem::Const(_) | InterfaceItem::Enum(_) => Ok(()),
    }
}

/// Refuses names of the methods of an interface, as `check_use` does.
fn check_methods(
    alloc: Global,
    place: &Place<'_>,
    members: &[InterfaceMember],
    best: &mut Option<Refusal>,
) -> Result<(), AllocError>
    ensures { OnOk result (best.new ≡ best_of best.old
        (refused_uses place.now.files place.now.file (flat_map (uses_in_interface place.now.enclosing) members.now))) }
{
    for member in members {
        check_method(alloc, place, member, best)?;
    }
    Ok(())
}

/// Refuses names that stand in a definition, which stands here, as `check_use` does; this is within it.
fn check_within(
    alloc: Global,
    around: &Place<'_>,
    inner: &Place<'_>,
    view: &DefinitionView<'_>,
    best: &mut Option<Refusal>,
) -> Result<(), AllocError>
    requires files { inner.now.files ≡ around.now.files }
    requires file { inner.now.file ≡ around.now.file }
    requires outside { around.now.enclosing ≡ view.now.enclosing }
    requires inside { inner.now.enclosing ≡ Some view.now.full }
    ensures { OnOk result (best.new ≡ best_of best.old (refused_uses around.now.files around.now.file (uses_in_item view.now view.now.item))) }
{
    match view.item() {
        ItemView::Struct(item) => check_fields(alloc, inner, item.members.as_slice(), best),
        ItemView::Union(item) => check_union(alloc, inner, item.fields.as_slice(), best),
        ItemView::Enum(item) => check_enum(alloc, inner, item.enumerators.as_slice(), best),
        ItemView::Interface(item) => check_methods(alloc, inner, item.members.as_slice(), best),
        ItemView::Const(item) => {
            check_type(alloc, around, &item.kind, best)?;
            check_value(alloc, around, &item.value, best)
        }
    }
}

/// Refuses names that stand in a definition, which stands here, as `check_use` does.
fn check_item(
    alloc: Global,
    around: &Place<'_>,
    view: &DefinitionView<'_>,
    best: &mut Option<Refusal>,
) -> Result<(), AllocError>
    requires { around.now.enclosing ≡ view.now.enclosing }
    ensures { OnOk result (best.new ≡ best_of best.old (refused_uses around.now.files around.now.file (uses_in_item view.now view.now.item))) }
{
    let full = Some(view.full(alloc)?);
    let inner = around.within(&full);
    check_within(alloc, around, &inner, view, best)
}

/// Refuses names that a definition uses, as `check_use` does.
fn check_definition(
    alloc: Global,
    names: &Names,
    file: u32,
    view: &DefinitionView<'_>,
    best: &mut Option<Refusal>,
) -> Result<(), AllocError>
    ensures { OnOk result (best.new ≡ best_of best.old (refused_uses names.now.files file (uses_of view.now))) }
{
    let enclosing = view.enclosing(alloc)?;
    let around = names.place(file, &enclosing);
    check_attributes(alloc, &around, view.attributes(), best)?;
    check_item(alloc, &around, view, best)
}

/// Refuses names that definitions use, as `check_use` does.
pub fn check_definitions(
    alloc: Global,
    names: &Names,
    file: u32,
    views: &[DefinitionView<'_>],
    best: &mut Option<Refusal>,
) -> Result<(), AllocError>
    ensures { OnOk result (best.new ≡ best_of best.old (refused_uses names.now.files file (flat_map uses_of views.now))) }
{
    for view in views {
        check_definition(alloc, names, file, view, best)?;
    }
    Ok(())
}
