//! Values in rows.

ghost use Rattle.std.specs.Prelude.{◌≡◌, IfOk};
ghost use Rattle.const_meanings.specs.Known.{known_view};
ghost use Rattle.draft_rows.specs.Rows.{literal_of, literal_in, const_row};
ghost use Rattle.kind_scope.specs.Views.{scope_view};

use crate::kind_of::kind_of;
use crate::row_table::RowTable;
use const_meanings::KnownView;
use kind_scope::{ScopeView, known_in};
use mj_base::{FullName, Items};
use mj_schema::{ConstRow, Literal};
use mojom_ast::{Const, Value};
use std::alloc::{AllocError, Global};

/// What a value is in a row; none exactly of float and double.
fn literal_of(alloc: Global, known: KnownView<'_>) -> Result<Option<Literal>, AllocError>
    ensures { IfOk result (λ made. made ≡ literal_of (known_view known.entry)) }
{
    match known {
        KnownView::Text(bytes) => {
            let bytes = Items::from_vec(Vec::from_slice(alloc, bytes)?);
            Ok(Some(Literal::Text(bytes)))
        }
        KnownView::Bool(value) => Ok(Some(Literal::Bool(value))),
        KnownView::Number(number) => Ok(Some(Literal::Whole(number))),
        KnownView::Float => Ok(None),
    }
}

/// What a value that is written is in a row, where it is one.
pub fn literal_in(
    alloc: Global,
    scope: &ScopeView<'_>,
    value: &Value,
) -> Result<Option<Literal>, AllocError>
    ensures { IfOk result (λ made. made ≡ literal_in (scope_view scope.now) value.now) }
{
    match known_in(alloc, scope, value)? {
        Some(known) => literal_of(alloc, known),
        None => Ok(None),
    }
}

/// The row of the constant of this full name; none where its kind or its value is none.
pub fn const_row(
    alloc: Global,
    rows: &RowTable,
    scope: &ScopeView<'_>,
    full: &FullName,
    item: &Const,
) -> Result<Option<ConstRow>, AllocError>
    ensures { IfOk result (λ made. made ≡ const_row rows.now (scope_view scope.now) full.now item.now) }
{
    let Some(kind) = kind_of(alloc, rows, scope, &item.kind)? else {
        return Ok(None);
    };
    let Some(value) = literal_in(alloc, scope, &item.value)? else {
        return Ok(None);
    };
    let name = full.share(alloc)?;
    Ok(Some(ConstRow { name, kind, value }))
}
