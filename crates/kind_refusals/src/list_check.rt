//! What is refused of lists of members.

ghost use Rattle.std.specs.Prelude.{◌≡◌, map, OnOk};
ghost use Rattle.std.specs.List.{flat_map};
ghost use Rattle.mojom_files.specs.Refusals.{best_of};
ghost use Rattle.kind_scope.specs.Views.{member_view, numbered_view, scope_view};
ghost use Rattle.kind_refusals.specs.TypeRefusals.{refused_in_member};
ghost use Rattle.kind_refusals.specs.OrdinalRefusals.{refused_order, refused_late};
ghost use Rattle.kind_refusals.specs.KindRefusals.{refused_count, refused_numbers, refused_list};

use crate::list_sort::ListSort;
use crate::ordinals::{check_doubles, check_gap};
use crate::refuse::refuse;
use crate::type_check::check_member;
use crate::versions::{check_falls, check_late};
use kind_scope::{MemberView, NumberedView, ScopeView, along_ordinals, numbered};
use mojom_ast::Identifier;
use mojom_files::{NamedCause, Refusal};
use std::alloc::{AllocError, Global};

/// Notes the refusal of more members than there may be.
pub fn check_count(
    alloc: Global,
    best: &mut Option<Refusal>,
    scope: &ScopeView<'_>,
    owner: &Identifier,
    limit: usize,
    count: usize,
) -> Result<(), AllocError>
    ensures { OnOk result (best.new ≡ best_of best.old (refused_count (scope_view scope.now) owner.now limit count)) }
{
    refuse(
        alloc,
        best,
        count > limit,
        scope,
        owner,
        NamedCause::TooManyFields,
    )
}

/// Notes what is refused in the types of members: of `fields` of a struct or parameters, or else of others.
fn check_types(
    alloc: Global,
    best: &mut Option<Refusal>,
    scope: &ScopeView<'_>,
    fields: bool,
    members: &[MemberView<'_>],
) -> Result<(), AllocError>
    ensures { OnOk result (best.new ≡ best_of best.old (flat_map (refused_in_member (scope_view scope.now) fields) (map member_view members.now))) }
{
    for member in members {
        check_member(alloc, best, scope, fields, member)?;
    }
    Ok(())
}

/// Notes the refusals of gaps and of versions that fall.
fn check_order(
    alloc: Global,
    best: &mut Option<Refusal>,
    scope: &ScopeView<'_>,
    owner: &Identifier,
    members: &[NumberedView<'_>],
) -> Result<(), AllocError>
    ensures { OnOk result (best.new ≡ best_of best.old (refused_order (scope_view scope.now) owner.now (map numbered_view members.now))) }
{
    check_gap(alloc, best, scope, owner, members)?;
    let sorted = along_ordinals(alloc, members)?;
    check_falls(alloc, best, scope, sorted.as_slice())
}

/// Notes the refusals of members of later versions whose kinds can't be null.
fn check_each_late(
    alloc: Global,
    best: &mut Option<Refusal>,
    scope: &ScopeView<'_>,
    members: &[NumberedView<'_>],
) -> Result<(), AllocError>
    ensures { OnOk result (best.new ≡ best_of best.old (flat_map (refused_late (scope_view scope.now)) (map numbered_view members.now))) }
{
    for one in members {
        check_late(alloc, best, scope, one)?;
    }
    Ok(())
}

/// Notes what is refused of the ordinals and the versions of a list.
fn check_numbers(
    alloc: Global,
    best: &mut Option<Refusal>,
    scope: &ScopeView<'_>,
    owner: &Identifier,
    sort: ListSort,
    members: &[NumberedView<'_>],
) -> Result<(), AllocError>
    ensures { OnOk result (best.new ≡ best_of best.old (refused_numbers (scope_view scope.now) owner.now sort (map numbered_view members.now))) }
{
    let distinct = check_doubles(alloc, best, scope, members)?;
    if !sort.is_struct() {
        return Ok(());
    }
    if distinct {
        check_order(alloc, best, scope, owner, members)?;
    }
    check_each_late(alloc, best, scope, members)
}

/// Notes what is refused of a list of members of a definition or of a method.
pub fn check_list(
    alloc: Global,
    best: &mut Option<Refusal>,
    scope: &ScopeView<'_>,
    owner: &Identifier,
    sort: ListSort,
    members: &[MemberView<'_>],
) -> Result<(), AllocError>
    ensures { OnOk result (best.new ≡ best_of best.old (refused_list (scope_view scope.now) owner.now sort (map member_view members.now))) }
{
    check_count(alloc, best, scope, owner, sort.limit(), members.len())?;
    check_types(alloc, best, scope, sort.is_struct(), members)?;
    let ones = numbered(alloc, members)?;
    check_numbers(alloc, best, scope, owner, sort, ones.as_slice())
}
