//! What is refused of versions.

ghost use Rattle.std.specs.Prelude.{◌≡◌, map, IfOk, OnOk};
ghost use Rattle.std.specs.Option.{option_copied};
ghost use Rattle.mojom_ast.specs.TypeTrees.{base_view};
ghost use Rattle.mojom_files.specs.Refusals.{best_of};
ghost use Rattle.kind_scope.specs.Views.{numbered_view, scope_view};
ghost use Rattle.kind_refusals.specs.OrdinalRefusals.{refused_falls, is_behind, needs_null, refused_late};

use crate::meanings::is_object;
use crate::refuse::refuse;
use kind_scope::{MemberView, NumberedView, ScopeView, meant_in, version_of};
use mojom_ast::{BaseNode, Type};
use mojom_files::{NamedCause, Refusal};
use std::alloc::{AllocError, Global};

/// Notes the refusal of each version that is below the one before, along the ordinals.
pub fn check_falls(
    alloc: Global,
    best: &mut Option<Refusal>,
    scope: &ScopeView<'_>,
    members: &[NumberedView<'_>],
) -> Result<(), AllocError>
    ensures { OnOk result (best.new ≡ best_of best.old (refused_falls (scope_view scope.now) 0 (map numbered_view members.now))) }
{
    let mut before = 0;
    for one in members {
        let here = version_of(alloc, scope, &one.member)?;
        let cause = NamedCause::VersionFalls { before, here };
        refuse(alloc, best, here < before, scope, one.member.name, cause)?;
        before = here;
    }
    Ok(())
}

/// Whether this is string, an array, a map, a struct, a union, a handle or an endpoint.
fn is_behind(alloc: Global, scope: &ScopeView<'_>, base: &BaseNode) -> Result<bool, AllocError>
    ensures { IfOk result (λ answer. answer ≡ is_behind (scope_view scope.now) (base_view base.now)) }
{
    match base {
        BaseNode::Name(name) => {
            let meant = meant_in(alloc, scope, name.parts.as_slice())?;
            Ok(is_object(scope, meant))
        }
        _ => Ok(true),
    }
}

/// Whether a member of a later version needs `?`.
fn needs_null(alloc: Global, scope: &ScopeView<'_>, kind: Option<&Type>) -> Result<bool, AllocError>
    ensures { IfOk result (λ answer. answer ≡ needs_null (scope_view scope.now) (option_copied kind.entry)) }
{
    match kind {
        Some(kind) => {
            let node = kind.node();
            Ok(!node.nullable && is_behind(alloc, scope, &node.base)?)
        }
        None => Ok(false),
    }
}

/// Notes the refusal of a member of a later version whose kind can't be null.
pub fn check_late(
    alloc: Global,
    best: &mut Option<Refusal>,
    scope: &ScopeView<'_>,
    one: &NumberedView<'_>,
) -> Result<(), AllocError>
    ensures { OnOk result (best.new ≡ best_of best.old (refused_late (scope_view scope.now) (numbered_view one.now))) }
{
    let is_later = version_of(alloc, scope, &one.member)? > 0;
    let is_late = is_later && needs_null(alloc, scope, one.member.kind)?;
    refuse(
        alloc,
        best,
        is_late,
        scope,
        one.member.name,
        NamedCause::LateNotNullable,
    )
}
