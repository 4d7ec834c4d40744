//! The rows of structs, unions and enums as files have them.

ghost use Rattle.std.specs.Prelude.{◌≡◌, map, IfOk};
ghost use Rattle.std.specs.List.{flat_map};
ghost use Rattle.draft_rows.specs.Rows.{is_stable, struct_row, union_row, valued, enum_row};
ghost use Rattle.kind_scope.specs.Members.{field_of, union_field_of};
ghost use Rattle.kind_scope.specs.Views.{scope_view};

use crate::enum_row::{enum_row, valued};
use crate::member_row::{is_stable, struct_row, union_row};
use crate::row_table::RowTable;
use kind_scope::{ScopeView, fields, union_fields};
use mj_base::FullName;
use mj_schema::{DraftStruct, EnumRow, UnionRow};
use mojom_ast::{Attribute, Enum, Struct, Union};
use std::alloc::{AllocError, Global};

/// The row of the struct of this full name.
pub fn row_of_struct(
    alloc: Global,
    rows: &RowTable,
    scope: &ScopeView<'_>,
    full: &FullName,
    attributes: &[Attribute],
    item: &Struct,
) -> Result<DraftStruct, AllocError>
    ensures { IfOk result (λ made.
        made ≡ struct_row rows.now (scope_view scope.now) full.now (is_stable attributes.now) (flat_map field_of item.now.members)) }
{
    let members = fields(alloc, item.members.as_slice())?;
    let stable = is_stable(attributes);
    struct_row(alloc, rows, scope, full, stable, members.as_slice())
}

/// The row of the union of this full name.
pub fn row_of_union(
    alloc: Global,
    rows: &RowTable,
    scope: &ScopeView<'_>,
    full: &FullName,
    attributes: &[Attribute],
    item: &Union,
) -> Result<UnionRow, AllocError>
    ensures { IfOk result (λ made. made ≡ union_row rows.now (scope_view scope.now) full.now attributes.now (map union_field_of item.now.fields)) }
{
    let members = union_fields(alloc, item.fields.as_slice())?;
    union_row(alloc, rows, scope, full, attributes, members.as_slice())
}

/// The row of the enum of this full name.
pub fn row_of_enum(
    alloc: Global,
    scope: &ScopeView<'_>,
    full: &FullName,
    attributes: &[Attribute],
    item: &Enum,
) -> Result<EnumRow, AllocError>
    ensures { IfOk result (λ made. made ≡ enum_row full.now attributes.now (valued (scope_view scope.now) item.now.enumerators)) }
{
    let ones = valued(alloc, scope, item.enumerators.as_slice())?;
    enum_row(alloc, full, attributes, ones.as_slice())
}
