//! Which pairs follow from pairs.

ghost use Rattle.std.specs.Prelude.{◌≡◌, ◌++◌, [], slice_get, IfOk, OnOk};
ghost use Rattle.std.specs.List.{flat_map};
ghost use Rattle.compat_model.specs.Pairs.{of_both, struct_pairs, union_pairs, interface_pairs, follows};

use crate::fields::push_fields;
use crate::interfaces::push_methods;
use crate::reasons::find_interface;
use crate::unions::push_tags;
use compat_model::Pair;
use mj_schema::Schema;
use schema_rows::{find_struct, find_union};
use std::alloc::{AllocError, Global};

/// Adds the pairs that follow from the structs of two numbers.
fn push_structs(
    out: &mut Vec<Pair>,
    old: &Schema,
    new: &Schema,
    i: u32,
    j: u32,
) -> Result<(), AllocError>
    ensures { OnOk result (out.new.items ≡ out.old.items
        ++ of_both [] struct_pairs (slice_get old.now.structs i) (slice_get new.now.structs j)) }
{
    let Some(a) = find_struct(old, i) else {
        return Ok(());
    };
    let Some(b) = find_struct(new, j) else {
        return Ok(());
    };
    push_fields(out, a, b)
}

/// Adds the pairs that follow from the unions of two numbers.
fn push_unions(
    alloc: Global,
    out: &mut Vec<Pair>,
    old: &Schema,
    new: &Schema,
    i: u32,
    j: u32,
) -> Result<(), AllocError>
    ensures { OnOk result (out.new.items ≡ out.old.items
        ++ of_both [] union_pairs (slice_get old.now.unions i) (slice_get new.now.unions j)) }
{
    let Some(a) = find_union(old, i) else {
        return Ok(());
    };
    let Some(b) = find_union(new, j) else {
        return Ok(());
    };
    push_tags(alloc, out, a, b)
}

/// Adds the pairs that follow from the interfaces of two numbers.
fn push_interfaces(
    alloc: Global,
    out: &mut Vec<Pair>,
    old: &Schema,
    new: &Schema,
    i: u32,
    j: u32,
) -> Result<(), AllocError>
    ensures { OnOk result (out.new.items ≡ out.old.items
        ++ of_both [] interface_pairs (slice_get old.now.interfaces i) (slice_get new.now.interfaces j)) }
{
    let Some(a) = find_interface(old, i) else {
        return Ok(());
    };
    let Some(b) = find_interface(new, j) else {
        return Ok(());
    };
    push_methods(alloc, out, a, b)
}

/// Adds the pairs that follow from a pair.
fn push_following(
    alloc: Global,
    out: &mut Vec<Pair>,
    old: &Schema,
    new: &Schema,
    pair: Pair,
) -> Result<(), AllocError>
    ensures { OnOk result (out.new.items ≡ out.old.items ++ follows old.now new.now pair) }
{
    match pair {
        Pair::Structs(i, j) => push_structs(out, old, new, i, j),
        Pair::Unions(i, j) => push_unions(alloc, out, old, new, i, j),
        Pair::Enums(_, _) => Ok(()),
        Pair::Interfaces(i, j) => push_interfaces(alloc, out, old, new, i, j),
    }
}

/// Adds the pairs that follow from pairs.
fn push_each(
    alloc: Global,
    out: &mut Vec<Pair>,
    old: &Schema,
    new: &Schema,
    pairs: &[Pair],
) -> Result<(), AllocError>
    ensures { OnOk result (out.new.items ≡ out.old.items ++ flat_map (follows old.now new.now) pairs.now) }
{
    for pair in pairs {
        push_following(alloc, out, old, new, *pair)?;
    }
    Ok(())
}

/// The pairs that follow from pairs, in order.
pub fn all_following(
    alloc: Global,
    old: &Schema,
    new: &Schema,
    pairs: &[Pair],
) -> Result<Vec<Pair>, AllocError>
    ensures { IfOk result (λ made. made.items ≡ flat_map (follows old.now new.now) pairs.now) }
{
    let mut made = Vec::new(alloc);
    push_each(alloc, &mut made, old, new, pairs)?;
    Ok(made)
}
