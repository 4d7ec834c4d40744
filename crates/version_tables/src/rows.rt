//! One row for each version of a struct.

ghost use Rattle.std.specs.Prelude.{◌≡◌, ◌≤◌, ◌<◌, ◌^◌, ◌+◌, All, IfOk, IsTrue, length, map, max};
ghost use Rattle.mj_base.specs.Bytes.{rounded8};
ghost use Rattle.mj_schema.specs.declared.rows.DraftField.{DraftField};
ghost use Rattle.mj_schema.specs.declared.rows.VersionRow.{VersionRow};
ghost use Rattle.mj_schema.specs.Layout.{are_small, field_rows, never_fall, IsNear};
ghost use Rattle.mj_schema.specs.Versions.{bytes_of, flag_end, version_rows};

use mj_base::limits::MAX_FIELDS;
use mj_base::round8;
use mj_schema::{DraftField, Flag, Place, VersionRow};
use std::alloc::{AllocError, Global};

/// The rows of a struct that has these fields at these places: one for each version that occurs, 0
/// always among them, with the number of fields up to that version and the bytes of the struct,
/// header included. The versions of the fields never fall.
pub fn table(
    alloc: Global,
    fields: &[DraftField],
    places: &[Place],
) -> Result<Vec<VersionRow>, AllocError>
    requires few { length fields.now ≤ MAX_FIELDS }
    requires places { length places.now ≡ length fields.now }
    requires near { All IsNear places.now }
    requires rising { IsTrue (never_fall 0 (map (λ (field : DraftField). field.min_version) fields.now)) }
    ensures rows { IfOk result (λ rows. rows.items ≡ version_rows (field_rows 0 fields.now places.now)) }
    ensures small { IfOk result (λ _. IsTrue (are_small (map (λ (field : DraftField). field.min_version) fields.now))) }
{
    let mut rows = Vec::new(alloc);
    let mut version = 0;
    let mut end = 0;
    for (count, field) in fields.iter().enumerate() {
        let since = since(field);
        if since != version {
            rows.push(row(version, count, end))?;
            version = since;
        }
        end = end.max(end_of(field, places[count]));
    }
    rows.push(row(version, fields.len(), end))?;
    Ok(rows)
}

/// The version since which the struct has a field.
fn since(field: &DraftField) -> u32
    ensures { result ≡ field.now.min_version }
{
    field.min_version
}

/// The byte behind the parts of a field, counted from the end of the struct's header.
fn end_of(field: &DraftField, place: Place) -> u32
    requires { IsNear place }
    ensures value { result ≡ max (flag_end place.flag) (place.offset + bytes_of field.now.kind) }
    ensures near { result < 2 ^ 17 + 16 }
{
    flag_end(place.flag).max(place.offset + field.kind.size().div_ceil(8))
}

/// The byte behind a flag, 0 where there is none.
fn flag_end(flag: Option<Flag>) -> u32
    requires { flag_end flag ≤ 2 ^ 17 }
    ensures { result ≡ flag_end flag }
{
    match flag {
        Some(flag) => flag.offset + 1,
        None => 0,
    }
}

/// The row of a version that has so many fields, the last of which ends before this byte.
fn row(version: u32, fields: usize, end: u32) -> VersionRow
    requires few { fields ≤ MAX_FIELDS }
    requires near { end < 2 ^ 18 }
    ensures { result ≡ record { version = version; fields = fields; bytes = rounded8 (8 + end) } }
{
    VersionRow {
        version,
        fields: fields as u32,
        bytes: round8(8 + u64::from(end)) as u32,
    }
}
