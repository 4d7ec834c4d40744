//! The identifiers of lists of members.

ghost use Rattle.std.specs.Prelude.{◌≡◌, IfOk, map};
ghost use Rattle.std.specs.List.{flat_map};
ghost use Rattle.name_refusals.specs.NameRefusals.{field_name, method_name, parameter_names};

use mojom_ast::{
    Enumerator, Identifier, InterfaceItem, InterfaceMember, Parameter, StructItem, StructMember,
    UnionField,
};
use std::alloc::{AllocError, Global};

/// The identifiers of the fields of a struct.
pub fn field_names<'a>(
    alloc: Global,
    members: &'a [StructMember],
) -> Result<Vec<&'a Identifier>, AllocError>
    ensures { IfOk result (λ names. map (λ n. n.now) names.items ≡ flat_map (λ m. field_name m.item) members.now) }
{
    let mut names = Vec::new(alloc);
    for member in members {
        if let StructItem::Field(field) = &member.item {
            names.push(&field.name)?;
        }
    }
    Ok(names)
}

/// The identifiers of the fields of a union.
pub fn union_names<'a>(
    alloc: Global,
    fields: &'a [UnionField],
) -> Result<Vec<&'a Identifier>, AllocError>
    ensures { IfOk result (λ names. map (λ n. n.now) names.items ≡ map (λ f. f.name) fields.now) }
{
    let mut names = Vec::new(alloc);
    for field in fields {
        names.push(&field.name)?;
    }
    Ok(names)
}

/// The identifiers of enumerators.
pub fn enumerator_names<'a>(
    alloc: Global,
    enumerators: &'a [Enumerator],
) -> Result<Vec<&'a Identifier>, AllocError>
    ensures { IfOk result (λ names. map (λ n. n.now) names.items ≡ map (λ e. e.name) enumerators.now) }
{
    let mut names = Vec::new(alloc);
    for enumerator in enumerators {
        names.push(&enumerator.name)?;
    }
    Ok(names)
}

/// The identifiers of the methods of an interface.
pub fn method_names<'a>(
    alloc: Global,
    members: &'a [InterfaceMember],
) -> Result<Vec<&'a Identifier>, AllocError>
    ensures { IfOk result (λ names. map (λ n. n.now) names.items ≡ flat_map (λ m. method_name m.item) members.now) }
{
    let mut names = Vec::new(alloc);
    for member in members {
        if let InterfaceItem::Method(method) = &member.item {
            names.push(&method.name)?;
        }
    }
    Ok(names)
}

/// The identifiers of parameters.
pub fn parameter_names<'a>(
    alloc: Global,
    parameters: &'a [Parameter],
) -> Result<Vec<&'a Identifier>, AllocError>
    ensures { IfOk result (λ names. map (λ n. n.now) names.items ≡ parameter_names parameters.now) }
{
    let mut names = Vec::new(alloc);
    for parameter in parameters {
        names.push(&parameter.name)?;
    }
    Ok(names)
}
