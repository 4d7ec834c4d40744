//! What is refused of ordinals.

ghost use Rattle.std.specs.Prelude.{◌≡◌, ◌==◌, ◌||◌, ℕ, [], not, map, find, IfOk, OnOk};
ghost use Rattle.std.specs.List.{range_with_len};
ghost use Rattle.std.specs.BTreeSet.{contains};
ghost use Rattle.std.specs.Ordering.{nat_cmp};
ghost use Rattle.mojom_files.specs.Refusals.{best_of};
ghost use Rattle.kind_scope.specs.Views.{numbered_view, scope_view};
ghost use Rattle.kind_refusals.specs.OrdinalRefusals.{is_among, doubled, refused_doubles, ordinals_of, lacking, refused_gap};
ghost use Rattle.kind_refusals.specs.KindRefusals.{is_empty};

use crate::refuse::refuse;
use kind_scope::{NumberedView, ScopeView, held};
use mojom_ast::Identifier;
use mojom_files::{NamedCause, Refusal};
use std::alloc::{AllocError, Global};
use std::collections::BTreeSet;

/// Notes an ordinal; whether none like it was noted before.
fn note(seen: &mut BTreeSet<usize>, ordinal: usize) -> Result<bool, AllocError>
    ensures answer { IfOk result (λ is_new. is_new ≡ not (contains nat_cmp seen.old ordinal)) }
    ensures noted { OnOk result ((q : ℕ) → contains nat_cmp seen.new q ≡ contains nat_cmp seen.old q || (ordinal == q)) }
{
    Ok(seen.insert(ordinal)?)
}

/// Notes the refusal of each ordinal that stands twice; whether none does.
pub fn check_doubles(
    alloc: Global,
    best: &mut Option<Refusal>,
    scope: &ScopeView<'_>,
    members: &[NumberedView<'_>],
) -> Result<bool, AllocError>
    ensures kept { OnOk result (best.new ≡ best_of best.old (refused_doubles (scope_view scope.now) (map numbered_view members.now))) }
    ensures answer { IfOk result (λ distinct. distinct ≡ is_empty (doubled [] (map numbered_view members.now))) }
{
    let mut seen = BTreeSet::new(alloc);
    let mut distinct = true;
    for one in members {
        let is_new = note(&mut seen, one.ordinal as usize)?;
        let cause = NamedCause::OrdinalDouble(one.ordinal);
        refuse(alloc, best, !is_new, scope, one.member.name, cause)?;
        distinct = distinct && is_new;
    }
    Ok(distinct)
}

/// The ordinals of members.
fn ordinal_set(alloc: Global, members: &[NumberedView<'_>]) -> Result<BTreeSet<usize>, AllocError>
    ensures { IfOk result (λ seen. (q : ℕ) → contains nat_cmp seen q ≡ is_among (ordinals_of (map numbered_view members.now)) q) }
{
    let mut seen = BTreeSet::new(alloc);
    for one in members {
        note(&mut seen, one.ordinal as usize)?;
    }
    Ok(seen)
}

/// The least ordinal below a count that isn't among these.
fn first_lacking(seen: &BTreeSet<usize>, count: usize) -> Option<usize>
    ensures { result ≡ find (λ ordinal. not (contains nat_cmp seen.now ordinal)) (range_with_len 0 count) }
{
    (0..count).find(|ordinal| !seen.contains(ordinal))
}

/// The least ordinal below the number of members that none of them has.
fn lacking(alloc: Global, members: &[NumberedView<'_>]) -> Result<Option<usize>, AllocError>
    ensures { IfOk result (λ ordinal. ordinal ≡ lacking (map numbered_view members.now)) }
{
    let seen = ordinal_set(alloc, members)?;
    Ok(first_lacking(&seen, members.len()))
}

/// Notes the refusal of a gap in the ordinals of a struct or of a method's list.
pub fn check_gap(
    alloc: Global,
    best: &mut Option<Refusal>,
    scope: &ScopeView<'_>,
    owner: &Identifier,
    members: &[NumberedView<'_>],
) -> Result<(), AllocError>
    ensures { OnOk result (best.new ≡ best_of best.old (refused_gap (scope_view scope.now) owner.now (lacking (map numbered_view members.now)))) }
{
    match lacking(alloc, members)? {
        Some(ordinal) => {
            let cause = NamedCause::OrdinalGap(held(ordinal as u64));
            refuse(alloc, best, true, scope, owner, cause)
        }
        None => Ok(()),
    }
}
