//! The members of definitions.

ghost use Rattle.std.specs.Prelude.{◌≡◌, ◌++◌, OnOk};
ghost use Rattle.std.specs.List.{flat_map};
ghost use Rattle.mojom_files.specs.Refusals.{best_of};
ghost use Rattle.name_refusals.specs.Uses.{response_of};
ghost use Rattle.const_eval.specs.Things.{numbered};
ghost use Rattle.const_eval.specs.Refused.{refused_struct_member, refused_union_field, refused_parameter};
ghost use Rattle.const_eval.specs.steps.Views.{site_at};
ghost use Rattle.const_eval.specs.Refused.{refused_parameters, refused_interface_member, refused_enumerator};

use crate::consts::Consts;
use crate::defaults::check_default;
use crate::lengths::check_lengths;
use crate::ordinals::{check_ordinals, parameter_members};
use crate::things::behind;
use crate::values::check_enumerator;
use crate::versions::check_versions;
use mj_base::Items;
use module_resolver::Place;
use mojom_ast::{
    Enumerator, InterfaceItem, InterfaceMember, Parameter, StructItem, StructMember, UnionField,
};
use mojom_files::Refusal;
use std::alloc::{AllocError, Global};

/// Tests a field of a struct; constants and enums in it are definitions of their own.
fn check_struct_member(
    alloc: Global,
    best: &mut Option<Refusal>,
    consts: &Consts,
    place: &Place<'_>,
    member: &StructMember,
) -> Result<(), AllocError>
    ensures { OnOk result (best.new ≡ best_of best.old (refused_struct_member (site_at consts.now place.now) place.now.enclosing member.now)) }
{
    let StructItem::Field(field) = &member.item else {
        return Ok(());
    };
    let attributes = member.attributes.as_slice();
    check_versions(alloc, best, consts, place, &field.name, attributes)?;
    check_lengths(best, place.file(), &field.kind);
    check_default(alloc, best, consts, place, field)
}

/// Tests the members of a struct, but for their ordinals.
pub fn check_struct_members(
    alloc: Global,
    best: &mut Option<Refusal>,
    consts: &Consts,
    place: &Place<'_>,
    members: &[StructMember],
) -> Result<(), AllocError>
    ensures { OnOk result (best.new ≡ best_of best.old (flat_map (refused_struct_member (site_at consts.now place.now) place.now.enclosing) members.now)) }
{
    for member in members {
        check_struct_member(alloc, best, consts, place, member)?;
    }
    Ok(())
}

/// Tests a field of a union.
fn check_union_field(
    alloc: Global,
    best: &mut Option<Refusal>,
    consts: &Consts,
    place: &Place<'_>,
    field: &UnionField,
) -> Result<(), AllocError>
    ensures { OnOk result (best.new ≡ best_of best.old (refused_union_field (site_at consts.now place.now) place.now.enclosing field.now)) }
{
    let attributes = field.attributes.as_slice();
    check_versions(alloc, best, consts, place, &field.name, attributes)?;
    check_lengths(best, place.file(), &field.kind);
    Ok(())
}

/// Tests the fields of a union, but for their ordinals.
pub fn check_union_fields(
    alloc: Global,
    best: &mut Option<Refusal>,
    consts: &Consts,
    place: &Place<'_>,
    fields: &[UnionField],
) -> Result<(), AllocError>
    ensures { OnOk result (best.new ≡ best_of best.old (flat_map (refused_union_field (site_at consts.now place.now) place.now.enclosing) fields.now)) }
{
    for field in fields {
        check_union_field(alloc, best, consts, place, field)?;
    }
    Ok(())
}

/// Tests a parameter.
fn check_parameter(
    alloc: Global,
    best: &mut Option<Refusal>,
    consts: &Consts,
    place: &Place<'_>,
    parameter: &Parameter,
) -> Result<(), AllocError>
    ensures { OnOk result (best.new ≡ best_of best.old (refused_parameter (site_at consts.now place.now) place.now.enclosing parameter.now)) }
{
    let attributes = parameter.attributes.as_slice();
    check_versions(alloc, best, consts, place, &parameter.name, attributes)?;
    check_lengths(best, place.file(), &parameter.kind);
    Ok(())
}

/// Tests parameters, but for their ordinals.
fn check_each_parameter(
    alloc: Global,
    best: &mut Option<Refusal>,
    consts: &Consts,
    place: &Place<'_>,
    parameters: &[Parameter],
) -> Result<(), AllocError>
    ensures { OnOk result (best.new ≡ best_of best.old (flat_map (refused_parameter (site_at consts.now place.now) place.now.enclosing) parameters.now)) }
{
    for parameter in parameters {
        check_parameter(alloc, best, consts, place, parameter)?;
    }
    Ok(())
}

/// Tests a list of parameters.
fn check_parameters(
    alloc: Global,
    best: &mut Option<Refusal>,
    consts: &Consts,
    place: &Place<'_>,
    parameters: &[Parameter],
) -> Result<(), AllocError>
    ensures { OnOk result (best.new ≡ best_of best.old (refused_parameters (site_at consts.now place.now) place.now.enclosing parameters.now)) }
{
    check_each_parameter(alloc, best, consts, place, parameters)?;
    let members = parameter_members(alloc, parameters)?;
    check_ordinals(best, place.file(), members.as_slice());
    Ok(())
}

/// The parameters of a response: none where there is no response.
fn response_of(response: &Option<Items<Parameter>>) -> &[Parameter]
    ensures { result.now ≡ response_of response.now }
{
    match response {
        Some(parameters) => parameters.as_slice(),
        None => &[],
    }
}

/// Tests a method; constants and enums in an interface are definitions of their own.
fn check_interface_member(
    alloc: Global,
    best: &mut Option<Refusal>,
    consts: &Consts,
    place: &Place<'_>,
    member: &InterfaceMember,
) -> Result<(), AllocError>
    ensures { OnOk result (best.new ≡ best_of best.old (refused_interface_member (site_at consts.now place.now) place.now.enclosing member.now)) }
{
    let InterfaceItem::Method(method) = &member.item else {
        return Ok(());
    };
    let attributes = member.attributes.as_slice();
    check_versions(alloc, best, consts, place, &method.name, attributes)?;
    check_parameters(alloc, best, consts, place, method.request.as_slice())?;
    check_parameters(alloc, best, consts, place, response_of(&method.response))
}

/// Tests the members of an interface, but for the ordinals of its methods.
pub fn check_interface_members(
    alloc: Global,
    best: &mut Option<Refusal>,
    consts: &Consts,
    place: &Place<'_>,
    members: &[InterfaceMember],
) -> Result<(), AllocError>
    ensures { OnOk result (best.new ≡ best_of best.old (flat_map (refused_interface_member (site_at consts.now place.now) place.now.enclosing) members.now)) }
{
    for member in members {
        check_interface_member(alloc, best, consts, place, member)?;
    }
    Ok(())
}

/// Tests the enumerators of an enum, the first of which is the thing of this number.
pub fn check_enumerators(
    alloc: Global,
    best: &mut Option<Refusal>,
    consts: &Consts,
    place: &Place<'_>,
    first: usize,
    enumerators: &[Enumerator],
) -> Result<(), AllocError>
    ensures { OnOk result (best.new ≡ best_of best.old
        (numbered (refused_enumerator (site_at consts.now place.now) place.now.enclosing) first enumerators.now)) }
{
    for (number, enumerator) in enumerators.iter().enumerate() {
        let thing = behind(first, number)?;
        check_enumerator(alloc, best, consts, place, thing, enumerator)?;
    }
    Ok(())
}
