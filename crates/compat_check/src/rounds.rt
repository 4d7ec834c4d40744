//! Pair after pair, until one is broken or none is left.

ghost use Rattle.std.specs.Prelude.{◌≡◌, ◌+◌, ◌<◌, ◌^◌, List, [], Some, None, length, IfOk};
ghost use Rattle.std.specs.List.{flat_map};
ghost use Rattle.compat_model.specs.declared.pair.Pair.{Pair as pair_name};
ghost use Rattle.compat_model.specs.declared.reason.Reason.{Reason as reason_name};
ghost use Rattle.compat_model.specs.Pairs.{follows};
ghost use Rattle.compat_model.specs.Verdicts.{namesakes as namesakes_of};
ghost use Rattle.compat_check.specs.steps.PairSets.{count, IsSetOf};
ghost use Rattle.compat_check.specs.steps.Rounds.{AtRound, Decides};
ghost use Rattle.compat_check.specs.steps.Skims.{Skims, with_seen};

use crate::keep::keep_new;
use crate::pair_set::{PairSet, count};
use breaking_changes::{all_following, first_reason};
use compat_model::{Pair, Reason};
use mj_schema::Schema;
use std::alloc::{AllocError, Global};

/// The pairs that follow from pairs and weren't seen before.
pub(crate) fn step(
    alloc: Global,
    old: &Schema,
    new: &Schema,
    seen: &mut PairSet,
    level: &[Pair],
) -> Result<Vec<Pair>, AllocError>
    ensures counted { IfOk result (λ kept. count seen.new ≡ count seen.old + length kept.items) }
    ensures skims { IfOk result (λ kept. (list : List pair_name) → IsSetOf seen.old list
        → Skims pair_name list kept.items (flat_map (follows old.now new.now) level.now)
        × IsSetOf seen.new (with_seen pair_name kept.items list)) }
{
    let following = all_following(alloc, old, new, level)?;
    let kept = keep_new(alloc, seen, following.as_slice())?;
    Ok(kept)
}

/// The pairs that follow from pairs and weren't seen before; none where a reason was found.
fn step_unless(
    alloc: Global,
    old: &Schema,
    new: &Schema,
    seen: &mut PairSet,
    found: &Option<Reason>,
    level: &[Pair],
) -> Result<Vec<Pair>, AllocError>
    ensures counted { IfOk result (λ kept. count seen.new ≡ count seen.old + length kept.items) }
    ensures stops { IfOk result (λ kept. (why : reason_name) → found.now ≡ Some why → kept.items ≡ []) }
    ensures goes { IfOk result (λ kept. found.now ≡ None → (list : List pair_name) → IsSetOf seen.old list
        → Skims pair_name list kept.items (flat_map (follows old.now new.now) level.now)
        × IsSetOf seen.new (with_seen pair_name kept.items list)) }
{
    match found {
        Some(_) => Ok(Vec::new(alloc)),
        None => {
            let kept = step(alloc, old, new, seen, level)?;
            Ok(kept)
        }
    }
}

/// The first reason there is, from pairs that one step more leads to and that weren't seen before. So
/// many pairs were seen before them, and so many with them. Round after round the pairs that follow and
/// weren't seen before are looked at.
pub(crate) fn search(
    alloc: Global,
    old: &Schema,
    new: &Schema,
    namesakes: &[Option<u32>],
    seen: &mut PairSet,
    start: Vec<Pair>,
    passed: usize,
    counted: usize,
) -> Result<Option<Reason>, AllocError>
    requires names { namesakes.now ≡ namesakes_of old.now new.now }
    requires round { AtRound old.now new.now seen.old start.items }
    requires counted { counted ≡ count seen.old }
    requires grown { counted ≡ passed + length start.items }
    requires small { counted < 2 ^ 63 }
    ensures { IfOk result (λ reason. Decides old.now new.now reason) }
{
    let mut reason = None;
    let mut level = start;
    let mut known = passed;
    let mut total = counted;
    'rounds: while known < total {
        let found = first_reason(alloc, old, new, namesakes, level.as_slice())?;
        let after = step_unless(alloc, old, new, seen, &found, level.as_slice())?;
        known = total;
        total = count(seen);
        reason = found;
        level = after;
    }
    Ok(reason)
}
