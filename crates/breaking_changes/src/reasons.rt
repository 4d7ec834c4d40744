//! Why pairs are broken.

ghost use Rattle.std.specs.Prelude.{◌≡◌, None, slice_get, IfOk};
ghost use Rattle.std.specs.Option.{option_copied, option_map};
ghost use Rattle.compat_model.specs.Members.{first_found};
ghost use Rattle.compat_model.specs.Pairs.{of_both, name_for, named, struct_reason, union_reason, enum_reason, interface_reason, pair_reason};

use crate::enums::enum_change;
use crate::fields::struct_change;
use crate::interfaces::interface_change;
use crate::unions::union_change;
use compat_model::{Change, Pair, Reason};
use mj_base::FullName;
use mj_schema::{InterfaceRow, Schema};
use schema_rows::{find_enum, find_struct, find_union};
use std::alloc::{AllocError, Global};

/// The interface of a number; none exactly where the schema has none.
pub fn find_interface(schema: &Schema, number: u32) -> Option<&InterfaceRow>
    ensures { option_copied result ≡ slice_get schema.now.interfaces number }
{
    schema.interfaces.as_slice().get(number as usize)
}

/// The full name that goes with a change.
fn name_for<'a>(older: &'a FullName, newer: &'a FullName, change: Change) -> &'a FullName
    ensures { result.now ≡ name_for older.now newer.now change }
{
    match change {
        Change::EarlyField(_) => newer,
        _ => older,
    }
}

/// A change with its name.
fn named(
    alloc: Global,
    older: &FullName,
    newer: &FullName,
    change: Change,
) -> Result<Reason, AllocError>
    ensures { IfOk result (λ made. made ≡ named older.now newer.now change) }
{
    let name = name_for(older, newer, change).share(alloc)?;
    Ok(Reason { change, name })
}

/// A change with its name, where there is one.
fn reason_of(
    alloc: Global,
    older: &FullName,
    newer: &FullName,
    change: Option<Change>,
) -> Result<Option<Reason>, AllocError>
    ensures { IfOk result (λ made. made ≡ option_map (named older.now newer.now) change) }
{
    match change {
        Some(change) => Ok(Some(named(alloc, older, newer, change)?)),
        None => Ok(None),
    }
}

/// Why the structs of two numbers are broken.
fn struct_reason(
    alloc: Global,
    old: &Schema,
    new: &Schema,
    namesakes: &[Option<u32>],
    i: u32,
    j: u32,
) -> Result<Option<Reason>, AllocError>
    ensures { IfOk result (λ reason. reason
        ≡ of_both None (struct_reason namesakes.now) (slice_get old.now.structs i) (slice_get new.now.structs j)) }
{
    let Some(a) = find_struct(old, i) else {
        return Ok(None);
    };
    let Some(b) = find_struct(new, j) else {
        return Ok(None);
    };
    reason_of(alloc, &a.name, &b.name, struct_change(namesakes, a, b))
}

/// Why the unions of two numbers are broken.
fn union_reason(
    alloc: Global,
    old: &Schema,
    new: &Schema,
    namesakes: &[Option<u32>],
    i: u32,
    j: u32,
) -> Result<Option<Reason>, AllocError>
    ensures { IfOk result (λ reason. reason
        ≡ of_both None (union_reason namesakes.now) (slice_get old.now.unions i) (slice_get new.now.unions j)) }
{
    let Some(a) = find_union(old, i) else {
        return Ok(None);
    };
    let Some(b) = find_union(new, j) else {
        return Ok(None);
    };
    let change = union_change(alloc, namesakes, a, b)?;
    reason_of(alloc, &a.name, &b.name, change)
}

/// Why the enums of two numbers are broken.
fn enum_reason(
    alloc: Global,
    old: &Schema,
    new: &Schema,
    i: u32,
    j: u32,
) -> Result<Option<Reason>, AllocError>
    ensures { IfOk result (λ reason. reason ≡ of_both None enum_reason (slice_get old.now.enums i) (slice_get new.now.enums j)) }
{
    let Some(a) = find_enum(old, i) else {
        return Ok(None);
    };
    let Some(b) = find_enum(new, j) else {
        return Ok(None);
    };
    let change = enum_change(alloc, a, b)?;
    reason_of(alloc, &a.name, &b.name, change)
}

/// Why the interfaces of two numbers are broken.
fn interface_reason(
    alloc: Global,
    old: &Schema,
    new: &Schema,
    i: u32,
    j: u32,
) -> Result<Option<Reason>, AllocError>
    ensures { IfOk result (λ reason. reason
        ≡ of_both None interface_reason (slice_get old.now.interfaces i) (slice_get new.now.interfaces j)) }
{
    let Some(a) = find_interface(old, i) else {
        return Ok(None);
    };
    let Some(b) = find_interface(new, j) else {
        return Ok(None);
    };
    let change = interface_change(alloc, a, b)?;
    reason_of(alloc, &a.name, &b.name, change)
}

/// Why a pair is broken, where it is.
fn pair_reason(
    alloc: Global,
    old: &Schema,
    new: &Schema,
    namesakes: &[Option<u32>],
    pair: Pair,
) -> Result<Option<Reason>, AllocError>
    ensures { IfOk result (λ reason. reason ≡ pair_reason old.now new.now namesakes.now pair) }
{
    match pair {
        Pair::Structs(i, j) => struct_reason(alloc, old, new, namesakes, i, j),
        Pair::Unions(i, j) => union_reason(alloc, old, new, namesakes, i, j),
        Pair::Enums(i, j) => enum_reason(alloc, old, new, i, j),
        Pair::Interfaces(i, j) => interface_reason(alloc, old, new, i, j),
    }
}

/// The first reason of pairs.
pub fn first_reason(
    alloc: Global,
    old: &Schema,
    new: &Schema,
    namesakes: &[Option<u32>],
    pairs: &[Pair],
) -> Result<Option<Reason>, AllocError>
    ensures { IfOk result (λ reason. reason ≡ first_found (pair_reason old.now new.now namesakes.now) pairs.now) }
{
    for pair in pairs {
        if let Some(reason) = pair_reason(alloc, old, new, namesakes, *pair)? {
            return Ok(Some(reason));
        }
    }
    Ok(None)
}
