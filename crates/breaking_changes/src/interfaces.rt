//! What a newer interface changes of an older one.

ghost use Rattle.std.specs.Prelude.{◌≡◌, ◌++◌, [], map, IfOk, OnOk};
ghost use Rattle.std.specs.List.{flat_map};
ghost use Rattle.mj_schema.specs.declared.rows.MethodRow.{MethodRow as method_row};
ghost use Rattle.compat_model.specs.Changes.{method_gone, response_changed, interface_change};
ghost use Rattle.compat_model.specs.Members.{first_found, ordinals_of};
ghost use Rattle.compat_model.specs.Pairs.{of_both, response_pair, message_pairs, method_pairs, interface_pairs};

use crate::fields::unless;
use crate::kinds::{is_same, push};
use crate::method_table::MethodTable;
use crate::rising::rising;
use compat_model::{Change, Pair};
use mj_schema::{InterfaceRow, MethodRow};
use std::alloc::{AllocError, Global};

/// The ordinals of methods, as the file has them.
fn ordinals_in(alloc: Global, methods: &[MethodRow]) -> Result<Vec<u32>, AllocError>
    ensures { IfOk result (λ made. made.items ≡ map (λ (method : method_row). method.ordinal) methods.now) }
{
    let mut made = Vec::new(alloc);
    for method in methods {
        made.push(method.ordinal)?;
    }
    Ok(made)
}

/// The ordinals of methods as they rise.
fn ordinals_of(alloc: Global, methods: &[MethodRow]) -> Result<Vec<u32>, AllocError>
    ensures { IfOk result (λ made. made.items ≡ ordinals_of methods.now) }
{
    let ordinals = ordinals_in(alloc, methods)?;
    let made = rising(alloc, ordinals.as_slice())?;
    Ok(made)
}

/// Whether the newer interface lacks a method.
fn method_gone(newer: &MethodTable<'_>, ordinal: u32) -> Option<Change>
    ensures { result ≡ method_gone newer.now ordinal }
{
    match newer.method_at(ordinal) {
        Some(_) => None,
        None => Some(Change::MethodGone(ordinal)),
    }
}

/// Whether one of the two methods of an ordinal has a response, and the other none.
fn response_changed(
    older: &MethodTable<'_>,
    newer: &MethodTable<'_>,
    ordinal: u32,
) -> Option<Change>
    ensures { result ≡ response_changed older.now newer.now ordinal }
{
    let m = older.method_at(ordinal)?;
    let n = newer.method_at(ordinal)?;
    unless(
        is_same(m.response.is_some(), n.response.is_some()),
        Change::ResponseChanged(ordinal),
    )
}

/// The first method that the newer interface lacks.
fn first_gone(newer: &MethodTable<'_>, ordinals: &[u32]) -> Option<Change>
    ensures { result ≡ first_found (method_gone newer.now) ordinals.now }
{
    for ordinal in ordinals {
        if let Some(change) = method_gone(newer, *ordinal) {
            return Some(change);
        }
    }
    None
}

/// The first method that has a response in one of the two alone.
fn first_changed(
    older: &MethodTable<'_>,
    newer: &MethodTable<'_>,
    ordinals: &[u32],
) -> Option<Change>
    ensures { result ≡ first_found (response_changed older.now newer.now) ordinals.now }
{
    for ordinal in ordinals {
        if let Some(change) = response_changed(older, newer, *ordinal) {
            return Some(change);
        }
    }
    None
}

/// What breaks two interfaces.
pub(crate) fn interface_change(
    alloc: Global,
    a: &InterfaceRow,
    b: &InterfaceRow,
) -> Result<Option<Change>, AllocError>
    ensures { IfOk result (λ change. change ≡ interface_change a.now b.now) }
{
    let older = MethodTable::new(alloc, a.methods.as_slice())?;
    let newer = MethodTable::new(alloc, b.methods.as_slice())?;
    let ordinals = ordinals_of(alloc, a.methods.as_slice())?;
    let gone = first_gone(&newer, ordinals.as_slice());
    let changed = first_changed(&older, &newer, ordinals.as_slice());
    Ok(gone.or(changed))
}

/// Adds the pair of two responses, where both are there.
fn push_response(out: &mut Vec<Pair>, old: Option<u32>, new: Option<u32>) -> Result<(), AllocError>
    ensures { OnOk result (out.new.items ≡ out.old.items ++ of_both [] response_pair old new) }
{
    let Some(i) = old else {
        return Ok(());
    };
    let Some(j) = new else {
        return Ok(());
    };
    push(out, Pair::Structs(i, j))
}

/// Adds the pairs that follow from two methods.
fn push_messages(out: &mut Vec<Pair>, m: &MethodRow, n: &MethodRow) -> Result<(), AllocError>
    ensures { OnOk result (out.new.items ≡ out.old.items ++ message_pairs m.now n.now) }
{
    push(out, Pair::Structs(m.request, n.request))?;
    push_response(out, m.response, n.response)
}

/// Adds the pairs that follow from an ordinal.
fn push_method(
    out: &mut Vec<Pair>,
    older: &MethodTable<'_>,
    newer: &MethodTable<'_>,
    ordinal: u32,
) -> Result<(), AllocError>
    ensures { OnOk result (out.new.items ≡ out.old.items ++ method_pairs older.now newer.now ordinal) }
{
    let Some(m) = older.method_at(ordinal) else {
        return Ok(());
    };
    let Some(n) = newer.method_at(ordinal) else {
        return Ok(());
    };
    push_messages(out, m, n)
}

/// Adds the pairs that follow from ordinals.
fn push_each(
    out: &mut Vec<Pair>,
    older: &MethodTable<'_>,
    newer: &MethodTable<'_>,
    ordinals: &[u32],
) -> Result<(), AllocError>
    ensures { OnOk result (out.new.items ≡ out.old.items ++ flat_map (method_pairs older.now newer.now) ordinals.now) }
{
    for ordinal in ordinals {
        push_method(out, older, newer, *ordinal)?;
    }
    Ok(())
}

/// Adds the pairs that follow from two interfaces.
pub(crate) fn push_methods(
    alloc: Global,
    out: &mut Vec<Pair>,
    a: &InterfaceRow,
    b: &InterfaceRow,
) -> Result<(), AllocError>
    ensures { OnOk result (out.new.items ≡ out.old.items ++ interface_pairs a.now b.now) }
{
    let older = MethodTable::new(alloc, a.methods.as_slice())?;
    let newer = MethodTable::new(alloc, b.methods.as_slice())?;
    let ordinals = ordinals_of(alloc, a.methods.as_slice())?;
    push_each(out, &older, &newer, ordinals.as_slice())
}
