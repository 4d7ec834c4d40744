//! The rows of structs and unions.

ghost use Rattle.std.specs.Prelude.{◌≡◌, map, IfOk};
ghost use Rattle.std.specs.Option.{option_copied};
ghost use Rattle.draft_rows.specs.Rows.{literal_in, kind_in, field_with, field_row, found_of, is_stable, struct_row, union_field_row, is_extensible, union_row};
ghost use Rattle.std.specs.Prelude.{option_and_then};
ghost use Rattle.kind_scope.specs.Views.{member_view, numbered_view, scope_view};

use crate::kind_of::kind_of;
use crate::literal::literal_in;
use crate::row_table::RowTable;
use kind_scope::{
    MemberView, NumberedView, ScopeView, along_ordinals, has_attribute, numbered, version_of,
};
use mj_base::{FullName, Items, Text};
use mj_schema::{DraftField, DraftStruct, Kind, Literal, UnionFieldRow, UnionFieldRows, UnionRow};
use mojom_ast::{Attribute, Type, Value};
use std::alloc::{AllocError, Global};

/// The kind of a member that has a type.
fn kind_in(
    alloc: Global,
    rows: &RowTable,
    scope: &ScopeView<'_>,
    kind: Option<&Type>,
) -> Result<Option<Kind>, AllocError>
    ensures { IfOk result (λ made. made ≡ kind_in rows.now (scope_view scope.now) (option_copied kind.entry)) }
{
    match kind {
        Some(kind) => kind_of(alloc, rows, scope, kind),
        None => Ok(None),
    }
}

/// The default of a field that has one.
fn default_in(
    alloc: Global,
    scope: &ScopeView<'_>,
    default: Option<&Value>,
) -> Result<Option<Literal>, AllocError>
    ensures { IfOk result (λ made. made ≡ option_and_then (literal_in (scope_view scope.now)) (option_copied default.entry)) }
{
    match default {
        Some(value) => literal_in(alloc, scope, value),
        None => Ok(None),
    }
}

/// The row of a field of this kind.
fn field_with(
    alloc: Global,
    scope: &ScopeView<'_>,
    member: &MemberView<'_>,
    kind: Kind,
) -> Result<DraftField, AllocError>
    ensures { IfOk result (λ made. made ≡ field_with (scope_view scope.now) (member_view member.now) kind) }
{
    let name = Text::from_str(alloc, member.name.text.as_str())?;
    let min_version = version_of(alloc, scope, member)?;
    let default = default_in(alloc, scope, member.default)?;
    Ok(DraftField {
        name,
        kind,
        min_version,
        default,
    })
}

/// The row of a field; none where its kind is none.
fn field_row(
    alloc: Global,
    rows: &RowTable,
    scope: &ScopeView<'_>,
    one: &NumberedView<'_>,
) -> Result<Option<DraftField>, AllocError>
    ensures { IfOk result (λ made. made ≡ field_row rows.now (scope_view scope.now) (numbered_view one.now)) }
{
    match kind_in(alloc, rows, scope, one.member.kind)? {
        Some(kind) => Ok(Some(field_with(alloc, scope, &one.member, kind)?)),
        None => Ok(None),
    }
}

/// The rows of fields.
fn field_rows(
    alloc: Global,
    rows: &RowTable,
    scope: &ScopeView<'_>,
    ones: &[NumberedView<'_>],
) -> Result<Items<DraftField>, AllocError>
    ensures { IfOk result (λ made. made ≡ found_of (field_row rows.now (scope_view scope.now)) (map numbered_view ones.now)) }
{
    let mut made = Vec::new(alloc);
    for one in ones {
        if let Some(row) = field_row(alloc, rows, scope, one)? {
            made.push(row)?;
        }
    }
    Ok(Items::from_vec(made))
}

/// Whether `[Stable]` stands among attributes.
pub fn is_stable(attributes: &[Attribute]) -> bool
    ensures { result ≡ is_stable attributes.now }
{
    has_attribute("Stable", attributes)
}

/// The struct of this full name and these members, stable or not, its fields along their ordinals.
pub fn struct_row(
    alloc: Global,
    rows: &RowTable,
    scope: &ScopeView<'_>,
    full: &FullName,
    stable: bool,
    members: &[MemberView<'_>],
) -> Result<DraftStruct, AllocError>
    ensures { IfOk result (λ made. made ≡ struct_row rows.now (scope_view scope.now) full.now stable (map member_view members.now)) }
{
    let ones = numbered(alloc, members)?;
    let sorted = along_ordinals(alloc, ones.as_slice())?;
    let fields = field_rows(alloc, rows, scope, sorted.as_slice())?;
    let name = full.share(alloc)?;
    Ok(DraftStruct {
        name,
        fields,
        stable,
    })
}

/// The row of a field of a union; none where its kind is none.
fn union_field_row(
    alloc: Global,
    rows: &RowTable,
    scope: &ScopeView<'_>,
    one: &NumberedView<'_>,
) -> Result<Option<UnionFieldRow>, AllocError>
    ensures { IfOk result (λ made. made ≡ union_field_row rows.now (scope_view scope.now) (numbered_view one.now)) }
{
    let Some(kind) = kind_in(alloc, rows, scope, one.member.kind)? else {
        return Ok(None);
    };
    let name = Text::from_str(alloc, one.member.name.text.as_str())?;
    let tag = one.ordinal;
    Ok(Some(UnionFieldRow { name, tag, kind }))
}

/// The rows of the fields of a union.
fn union_field_rows(
    alloc: Global,
    rows: &RowTable,
    scope: &ScopeView<'_>,
    ones: &[NumberedView<'_>],
) -> Result<UnionFieldRows, AllocError>
    ensures { IfOk result (λ made. made ≡ found_of (union_field_row rows.now (scope_view scope.now)) (map numbered_view ones.now)) }
{
    let mut made = Vec::new(alloc);
    for one in ones {
        if let Some(row) = union_field_row(alloc, rows, scope, one)? {
            made.push(row)?;
        }
    }
    let fields = UnionFieldRows::from_vec(alloc, made)?;
    Ok(fields)
}

/// Whether `[Extensible]` stands among attributes.
pub fn is_extensible(attributes: &[Attribute]) -> bool
    ensures { result ≡ is_extensible attributes.now }
{
    has_attribute("Extensible", attributes)
}

/// The union of this full name and these fields.
pub fn union_row(
    alloc: Global,
    rows: &RowTable,
    scope: &ScopeView<'_>,
    full: &FullName,
    attributes: &[Attribute],
    members: &[MemberView<'_>],
) -> Result<UnionRow, AllocError>
    ensures { IfOk result (λ made. made ≡ union_row rows.now (scope_view scope.now) full.now attributes.now (map member_view members.now)) }
{
    let ones = numbered(alloc, members)?;
    let fields = union_field_rows(alloc, rows, scope, ones.as_slice())?;
    let name = full.share(alloc)?;
    Ok(UnionRow {
        name,
        extensible: is_extensible(attributes),
        fields,
        stable: is_stable(attributes),
    })
}
