//! What is refused of enums.

ghost use Rattle.std.specs.Prelude.{◌≡◌, map, filter, OnOk, drop};
ghost use Rattle.mojom_files.specs.Refusals.{best_of};
ghost use Rattle.kind_scope.specs.Views.{scope_view};
ghost use Rattle.kind_scope.specs.Attributes.{is_default};
ghost use Rattle.kind_refusals.specs.KindRefusals.{refused_default, refused_enum};

use crate::list_check::check_count;
use crate::refuse::refuse;
use kind_scope::{ScopeView, is_default};
use mj_base::limits::MAX_ENUMERATORS;
use mojom_ast::{Enum, Enumerator};
use mojom_files::{NamedCause, Refusal};
use std::alloc::{AllocError, Global};

/// Notes the refusal of each enumerator with `[Default]` but the first.
fn check_defaults(
    alloc: Global,
    best: &mut Option<Refusal>,
    scope: &ScopeView<'_>,
    enumerators: &[Enumerator],
) -> Result<(), AllocError>
    ensures { OnOk result (best.new ≡ best_of best.old (map (refused_default (scope_view scope.now)) (drop 1 (filter is_default enumerators.now)))) }
{
    let mut is_later = false;
    for enumerator in enumerators {
        let is_marked = is_default(enumerator);
        let name = &enumerator.name;
        refuse(
            alloc,
            best,
            is_marked && is_later,
            scope,
            name,
            NamedCause::DoubleDefault,
        )?;
        is_later = is_later || is_marked;
    }
    Ok(())
}

/// Notes what is refused of an enum.
pub fn check_enum(
    alloc: Global,
    best: &mut Option<Refusal>,
    scope: &ScopeView<'_>,
    item: &Enum,
) -> Result<(), AllocError>
    ensures { OnOk result (best.new ≡ best_of best.old (refused_enum (scope_view scope.now) item.now)) }
{
    let enumerators = item.enumerators.as_slice();
    let count = enumerators.len();
    check_count(alloc, best, scope, &item.name, MAX_ENUMERATORS, count)?;
    refuse(
        alloc,
        best,
        count == 0,
        scope,
        &item.name,
        NamedCause::EmptyEnum,
    )?;
    check_defaults(alloc, best, scope, enumerators)
}
