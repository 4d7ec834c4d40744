//! The members of definitions that stand in lists, with their ordinals.

ghost use Rattle.std.specs.Prelude.{◌≡◌, map, IfOk};
ghost use Rattle.std.specs.List.{flat_map};
ghost use Rattle.kind_scope.specs.Members.{field_of, union_field_of, parameter_of, method_of, held, ordinal_at, numbered};
ghost use Rattle.kind_scope.specs.Views.{member_view, numbered_view};

use mojom_ast::{
    Attribute, Identifier, InterfaceItem, InterfaceMember, Number, Parameter, StructItem,
    StructMember, Type, UnionField, Value,
};
use std::alloc::{AllocError, Global};

/// A member of a list: a field, a method or a parameter. A method has no type. What a tree has of it
/// is lent from there.
#[derive(Clone, Copy)]
pub struct MemberView<'a> {
    pub name: &'a Identifier,
    pub attributes: &'a [Attribute],
    pub kind: Option<&'a Type>,
    pub ordinal: Option<Number>,
    pub default: Option<&'a Value>,
}

/// A member and its ordinal.
#[derive(Clone, Copy)]
pub struct NumberedView<'a> {
    pub member: MemberView<'a>,
    pub ordinal: u32,
}

/// The fields of a struct.
pub fn fields<'a>(
    alloc: Global,
    members: &'a [StructMember],
) -> Result<Vec<MemberView<'a>>, AllocError>
    ensures { IfOk result (λ found. map member_view found.items ≡ flat_map field_of members.now) }
{
    let mut found = Vec::new(alloc);
    for member in members {
        if let StructItem::Field(field) = &member.item {
            found.push(MemberView {
                name: &field.name,
                attributes: member.attributes.as_slice(),
                kind: Some(&field.kind),
                ordinal: field.ordinal,
                default: field.default.as_ref(),
            })?;
        }
    }
    Ok(found)
}

/// The fields of a union.
pub fn union_fields<'a>(
    alloc: Global,
    fields: &'a [UnionField],
) -> Result<Vec<MemberView<'a>>, AllocError>
    ensures { IfOk result (λ found. map member_view found.items ≡ map union_field_of fields.now) }
{
    let mut found = Vec::new(alloc);
    for field in fields {
        found.push(MemberView {
            name: &field.name,
            attributes: field.attributes.as_slice(),
            kind: Some(&field.kind),
            ordinal: field.ordinal,
            default: None,
        })?;
    }
    Ok(found)
}

/// The methods of an interface.
pub fn methods<'a>(
    alloc: Global,
    members: &'a [InterfaceMember],
) -> Result<Vec<MemberView<'a>>, AllocError>
    ensures { IfOk result (λ found. map member_view found.items ≡ flat_map method_of members.now) }
{
    let mut found = Vec::new(alloc);
    for member in members {
        if let InterfaceItem::Method(method) = &member.item {
            found.push(MemberView {
                name: &method.name,
                attributes: member.attributes.as_slice(),
                kind: None,
                ordinal: method.ordinal,
                default: None,
            })?;
        }
    }
    Ok(found)
}

/// The parameters of a list.
pub fn parameters<'a>(
    alloc: Global,
    parameters: &'a [Parameter],
) -> Result<Vec<MemberView<'a>>, AllocError>
    ensures { IfOk result (λ found. map member_view found.items ≡ map parameter_of parameters.now) }
{
    let mut found = Vec::new(alloc);
    for parameter in parameters {
        found.push(MemberView {
            name: &parameter.name,
            attributes: parameter.attributes.as_slice(),
            kind: Some(&parameter.kind),
            ordinal: parameter.ordinal,
            default: None,
        })?;
    }
    Ok(found)
}

/// A number as one of 32 bits: what is above counts as the greatest.
pub fn held(number: u64) -> u32
    ensures { result ≡ held number }
{
    number.min(0xFFFF_FFFF) as u32
}

/// The ordinal of a member: the one that is written, or else the next.
pub fn ordinal_at(next: u32, written: Option<Number>) -> u32
    ensures { result ≡ ordinal_at next written }
{
    match written {
        Some(number) => held(number.value),
        None => next,
    }
}

/// The members of a list with their ordinals.
pub fn numbered<'a>(
    alloc: Global,
    members: &[MemberView<'a>],
) -> Result<Vec<NumberedView<'a>>, AllocError>
    ensures { IfOk result (λ made. map numbered_view made.items ≡ numbered (map member_view members.now)) }
{
    let mut made = Vec::new(alloc);
    let mut next = 0;
    for member in members {
        let ordinal = ordinal_at(next, member.ordinal);
        made.push(NumberedView {
            member: *member,
            ordinal,
        })?;
        next = held(u64::from(ordinal) + 1);
    }
    Ok(made)
}
