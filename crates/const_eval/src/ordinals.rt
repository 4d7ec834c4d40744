//! The ordinals of members.

ghost use Rattle.std.specs.Prelude.{◌≡◌, ◌++◌, ◌<◌, ◌≤◌, ◌^◌, max, IfOk, map};
ghost use Rattle.mojom_files.specs.Refusals.{best_of};
ghost use Rattle.const_eval.specs.Refused.{ordinal_or, place_of_ordinal, refused_ordinals};
ghost use Rattle.const_eval.specs.steps.Views.{member_view};
ghost use Rattle.const_eval.specs.Refused.{struct_members, union_members, interface_members, parameter_members};

use crate::kinds::check_uint32;
use mojom_ast::{
    Identifier, InterfaceItem, InterfaceMember, Number, Parameter, StructItem, StructMember,
    UnionField,
};
use mojom_files::Refusal;
use std::alloc::{AllocError, Global};

/// A member that has an ordinal, which may be written.
#[derive(Clone, Copy)]
pub struct MemberView<'a> {
    name: &'a Identifier,
    ordinal: Option<Number>,
}

/// The ordinal of a member, where that of one without ordinal is this.
fn ordinal_or(next: u128, ordinal: Option<Number>) -> u128
    ensures value { result ≡ ordinal_or next ordinal }
    ensures small { result ≤ max next (2 ^ 64) }
{
    match ordinal {
        Some(ordinal) => ordinal.value as u128,
        None => next,
    }
}

/// Where the ordinal of a member stands.
fn place_of_ordinal(member: &MemberView<'_>) -> u64
    ensures { result ≡ place_of_ordinal (member_view member.now) }
{
    match member.ordinal {
        Some(ordinal) => ordinal.span.start,
        None => member.name.span.start,
    }
}

/// Tests the ordinals of members, the first of which has ordinal 0 where none is written.
pub fn check_ordinals(best: &mut Option<Refusal>, file: u32, members: &[MemberView<'_>])
    ensures { best.new ≡ best_of best.old (refused_ordinals file 0 (map member_view members.now)) }
{
    let mut next = 0;
    for member in members {
        let ordinal = ordinal_or(next, member.ordinal);
        check_uint32(best, file, place_of_ordinal(member), ordinal);
        next = ordinal + 1;
    }
}

/// The fields of a struct.
pub fn struct_members<'a>(
    alloc: Global,
    written: &'a [StructMember],
) -> Result<Vec<MemberView<'a>>, AllocError>
    ensures { IfOk result (λ members. map member_view members.items ≡ struct_members written.now) }
{
    let mut members = Vec::new(alloc);
    for member in written {
        if let StructItem::Field(field) = &member.item {
            members.push(MemberView {
                name: &field.name,
                ordinal: field.ordinal,
            })?;
        }
    }
    Ok(members)
}

/// The fields of a union.
pub fn union_members<'a>(
    alloc: Global,
    written: &'a [UnionField],
) -> Result<Vec<MemberView<'a>>, AllocError>
    ensures { IfOk result (λ members. map member_view members.items ≡ union_members written.now) }
{
    let mut members = Vec::new(alloc);
    for field in written {
        members.push(MemberView {
            name: &field.name,
            ordinal: field.ordinal,
        })?;
    }
    Ok(members)
}

/// The methods of an interface.
pub fn interface_members<'a>(
    alloc: Global,
    written: &'a [InterfaceMember],
) -> Result<Vec<MemberView<'a>>, AllocError>
    ensures { IfOk result (λ members. map member_view members.items ≡ interface_members written.now) }
{
    let mut members = Vec::new(alloc);
    for member in written {
        if let InterfaceItem::Method(method) = &member.item {
            members.push(MemberView {
                name: &method.name,
                ordinal: method.ordinal,
            })?;
        }
    }
    Ok(members)
}

/// The parameters of a list.
pub fn parameter_members<'a>(
    alloc: Global,
    written: &'a [Parameter],
) -> Result<Vec<MemberView<'a>>, AllocError>
    ensures { IfOk result (λ members. map member_view members.items ≡ parameter_members written.now) }
{
    let mut members = Vec::new(alloc);
    for parameter in written {
        members.push(MemberView {
            name: &parameter.name,
            ordinal: parameter.ordinal,
        })?;
    }
    Ok(members)
}
