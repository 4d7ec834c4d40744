//! Pairs that weren't seen before.

ghost use Rattle.std.specs.Prelude.{◌≡◌, ◌+◌, List, length, IfOk};
ghost use Rattle.compat_model.specs.declared.pair.Pair.{Pair as pair_name};
ghost use Rattle.compat_check.specs.steps.PairSets.{count, IsSetOf};
ghost use Rattle.compat_check.specs.steps.Skims.{Skims, with_seen};

use crate::pair_set::{PairSet, note};
use compat_model::Pair;
use std::alloc::{AllocError, Global};

/// The pairs that weren't seen before, each once, in order; from then on they are seen.
pub(crate) fn keep_new(
    alloc: Global,
    seen: &mut PairSet,
    pairs: &[Pair],
) -> Result<Vec<Pair>, AllocError>
    ensures counted { IfOk result (λ kept. count seen.new ≡ count seen.old + length kept.items) }
    ensures skims { IfOk result (λ kept. (list : List pair_name) → IsSetOf seen.old list
        → Skims pair_name list kept.items pairs.now × IsSetOf seen.new (with_seen pair_name kept.items list)) }
{
    let mut kept = Vec::new(alloc);
    for pair in pairs {
        if note(seen, *pair)? {
            kept.push(*pair)?;
        }
    }
    Ok(kept)
}
