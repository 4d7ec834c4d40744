//! The comparison of two schemas.

ghost use Rattle.std.specs.Prelude.{ℕ, ◌≡◌, [], None, zero, IfOk};
ghost use Rattle.std.specs.List.{flat_map};
ghost use Rattle.compat_model.specs.declared.pair.Pair.{Pair as pair_name};
ghost use Rattle.compat_model.specs.Verdicts.{namesakes as namesakes_of, roots as roots_of, root_pairs, reason_at, Judges};
ghost use Rattle.compat_model.specs.declared.reason.Verdict.TheVariants.{Compatible};
ghost use Rattle.compat_laws.specs.Read.{ReadsStable};
ghost use Rattle.compat_check.specs.steps.PairSets.{IsSetOf};
ghost use Rattle.compat_check.specs.steps.Rounds.{Decides, verdict_by};
ghost use Rattle.compat_check.specs.steps.Skims.{Skims, with_seen};

use crate::keep::keep_new;
use crate::named_schema::NamedSchema;
use crate::pair_set::{PairSet, count, no_pairs};
use crate::roots::{all_root_pairs, first_root_reason, namesakes, roots};
use crate::rounds::{search, step};
use compat_model::{Pair, Reason, Root, Verdict};
use mj_schema::Schema;
use std::alloc::{AllocError, Global};

/// The pairs of roots, each once; they are seen.
fn begin(alloc: Global, seen: &mut PairSet, roots: &[Root]) -> Result<Vec<Pair>, AllocError>
    requires { seen.old.keys.keys ≡ [] }
    ensures { IfOk result (λ kept. Skims pair_name [] kept.items (flat_map root_pairs roots.now)
        × IsSetOf seen.new (with_seen pair_name kept.items [])) }
{
    let pairs = all_root_pairs(alloc, roots)?;
    let kept = keep_new(alloc, seen, pairs.as_slice())?;
    Ok(kept)
}

/// The first reason there is, where no root has one.
fn search_behind(
    alloc: Global,
    old: &Schema,
    new: &Schema,
    namesakes: &[Option<u32>],
    roots: &[Root],
) -> Result<Option<Reason>, AllocError>
    requires names { namesakes.now ≡ namesakes_of old.now new.now }
    requires roots { roots.now ≡ roots_of old.now new.now }
    requires none { reason_at old.now new.now zero ≡ None }
    ensures { IfOk result (λ reason. Decides old.now new.now reason) }
{
    let mut seen = no_pairs(alloc);
    let start = begin(alloc, &mut seen, roots)?;
    let passed = count(&seen);
    let level = step(alloc, old, new, &mut seen, start.as_slice())?;
    let counted = count(&seen);
    let reason = search(
        alloc, old, new, namesakes, &mut seen, level, passed, counted,
    )?;
    Ok(reason)
}

/// The first reason there is.
fn first_reason_of(
    alloc: Global,
    old: &Schema,
    new: &Schema,
    namesakes: &[Option<u32>],
    roots: &[Root],
) -> Result<Option<Reason>, AllocError>
    requires names { namesakes.now ≡ namesakes_of old.now new.now }
    requires roots { roots.now ≡ roots_of old.now new.now }
    ensures { IfOk result (λ reason. Decides old.now new.now reason) }
{
    let found = first_root_reason(alloc, old, new, namesakes, roots)?;
    match found {
        Some(reason) => Ok(Some(reason)),
        None => search_behind(alloc, old, new, namesakes, roots),
    }
}

/// What is answered, where so many definitions are stable.
fn verdict(reason: Option<Reason>, stable: usize) -> Result<Verdict, AllocError>
    ensures { IfOk result (λ verdict. verdict ≡ verdict_by reason stable) }
{
    match reason {
        Some(reason) => Ok(Verdict::Broken(reason)),
        None => {
            let Ok(stable) = u32::try_from(stable) else {
                return Err(AllocError);
            };
            Ok(Verdict::Compatible(stable))
        }
    }
}

/// Whether a newer schema reads what the stable definitions of an older one write, and else the first
/// reason why it doesn't.
pub fn compatible(alloc: Global, old: &Schema, new: &Schema) -> Result<Verdict, AllocError>
    ensures verdict { IfOk result (λ verdict. Judges old.now new.now verdict) }
    // Each message that the older schema writes for a stable interface is read by the newer one, as the same value with what it lacks.
    ensures reads { IfOk result (λ verdict. (stable : ℕ) → verdict ≡ Compatible stable → ReadsStable old.now new.now) }
{
    let named = NamedSchema::new(alloc, new)?;
    let names = namesakes(alloc, old, &named)?;
    let stable = roots(alloc, old, &named)?;
    let reason = first_reason_of(alloc, old, new, names.as_slice(), stable.as_slice())?;
    let made = verdict(reason, stable.len())?;
    Ok(made)
}
