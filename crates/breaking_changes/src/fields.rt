//! What a newer struct changes of an older one's fields.

ghost use Rattle.std.specs.Prelude.{◌≡◌, ◌++◌, slice_get, OnOk};
ghost use Rattle.std.specs.List.{flat_map};
ghost use Rattle.std.specs.Option.{option_copied};
ghost use Rattle.compat_model.specs.Changes.{field_gone, field_changed, field_moved, field_early, struct_change};
ghost use Rattle.compat_model.specs.Members.{first_found, unless};
ghost use Rattle.compat_model.specs.Pairs.{field_pairs, struct_pairs};

use crate::kinds::{kinds_fit, push_named};
use compat_model::{Change, Pair};
use mj_schema::{FieldRow, StructRow};
use schema_rows::newest_version;
use std::alloc::AllocError;

/// A change, unless a test holds.
pub(crate) fn unless(holds: bool, change: Change) -> Option<Change>
    ensures { result ≡ unless holds change }
{
    if holds { None } else { Some(change) }
}

/// The field of an ordinal.
fn field_at(fields: &[FieldRow], ordinal: u32) -> Option<&FieldRow>
    ensures { option_copied result ≡ slice_get fields.now ordinal }
{
    fields.get(ordinal as usize)
}

/// Whether the newer struct lacks a field.
fn field_gone(newer: &[FieldRow], field: &FieldRow) -> Option<Change>
    ensures { result ≡ field_gone newer.now field.now }
{
    match field_at(newer, field.ordinal) {
        Some(_) => None,
        None => Some(Change::FieldGone(field.ordinal)),
    }
}

/// Whether the kind of a field doesn't fit.
fn field_changed(namesakes: &[Option<u32>], newer: &[FieldRow], field: &FieldRow) -> Option<Change>
    ensures { result ≡ field_changed namesakes.now newer.now field.now }
{
    match field_at(newer, field.ordinal) {
        Some(other) => unless(
            kinds_fit(namesakes, field.kind.node(), other.kind.node()),
            Change::KindChanged(field.ordinal),
        ),
        None => None,
    }
}

/// Whether a field is there since another version.
fn field_moved(newer: &[FieldRow], field: &FieldRow) -> Option<Change>
    ensures { result ≡ field_moved newer.now field.now }
{
    match field_at(newer, field.ordinal) {
        Some(other) => unless(
            other.min_version == field.min_version,
            Change::VersionChanged(field.ordinal),
        ),
        None => None,
    }
}

/// Whether a field that the older struct lacks is there since a version that isn't above its newest.
fn field_early(newest: u32, older: &[FieldRow], field: &FieldRow) -> Option<Change>
    ensures { result ≡ field_early newest older.now field.now }
{
    match field_at(older, field.ordinal) {
        Some(_) => None,
        None => unless(
            newest < field.min_version,
            Change::EarlyField(field.ordinal),
        ),
    }
}

/// The first field that the newer struct lacks.
fn first_gone(older: &[FieldRow], newer: &[FieldRow]) -> Option<Change>
    ensures { result ≡ first_found (field_gone newer.now) older.now }
{
    for field in older {
        if let Some(change) = field_gone(newer, field) {
            return Some(change);
        }
    }
    None
}

/// The first field whose kind doesn't fit.
fn first_changed(
    namesakes: &[Option<u32>],
    older: &[FieldRow],
    newer: &[FieldRow],
) -> Option<Change>
    ensures { result ≡ first_found (field_changed namesakes.now newer.now) older.now }
{
    for field in older {
        if let Some(change) = field_changed(namesakes, newer, field) {
            return Some(change);
        }
    }
    None
}

/// The first field that is there since another version.
fn first_moved(older: &[FieldRow], newer: &[FieldRow]) -> Option<Change>
    ensures { result ≡ first_found (field_moved newer.now) older.now }
{
    for field in older {
        if let Some(change) = field_moved(newer, field) {
            return Some(change);
        }
    }
    None
}

/// The first field that is new, and there too early.
fn first_early(newest: u32, older: &[FieldRow], newer: &[FieldRow]) -> Option<Change>
    ensures { result ≡ first_found (field_early newest older.now) newer.now }
{
    for field in newer {
        if let Some(change) = field_early(newest, older, field) {
            return Some(change);
        }
    }
    None
}

/// What breaks two structs.
pub(crate) fn struct_change(
    namesakes: &[Option<u32>],
    a: &StructRow,
    b: &StructRow,
) -> Option<Change>
    ensures { result ≡ struct_change namesakes.now a.now b.now }
{
    let older = a.fields.as_slice();
    let newer = b.fields.as_slice();
    let gone = first_gone(older, newer);
    let changed = first_changed(namesakes, older, newer);
    let moved = first_moved(older, newer);
    let early = first_early(newest_version(a.versions.as_slice()), older, newer);
    gone.or(changed).or(moved).or(early)
}

/// Adds the pairs that follow from a field.
fn push_field(out: &mut Vec<Pair>, newer: &[FieldRow], field: &FieldRow) -> Result<(), AllocError>
    ensures { OnOk result (out.new.items ≡ out.old.items ++ field_pairs newer.now field.now) }
{
    match field_at(newer, field.ordinal) {
        Some(other) => push_named(out, field.kind.node(), other.kind.node()),
        None => Ok(()),
    }
}

/// Adds the pairs that follow from fields.
fn push_each(out: &mut Vec<Pair>, older: &[FieldRow], newer: &[FieldRow]) -> Result<(), AllocError>
    ensures { OnOk result (out.new.items ≡ out.old.items ++ flat_map (field_pairs newer.now) older.now) }
{
    for field in older {
        push_field(out, newer, field)?;
    }
    Ok(())
}

/// Adds the pairs that follow from two structs.
pub(crate) fn push_fields(
    out: &mut Vec<Pair>,
    a: &StructRow,
    b: &StructRow,
) -> Result<(), AllocError>
    ensures { OnOk result (out.new.items ≡ out.old.items ++ struct_pairs a.now b.now) }
{
    push_each(out, a.fields.as_slice(), b.fields.as_slice())
}
