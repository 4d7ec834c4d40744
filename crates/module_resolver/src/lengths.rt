//! Which numbers of dots full names have.

ghost use Rattle.std.specs.Prelude.{◌≡◌, ◌+◌, ℕ, ◌||◌, ◌==◌, Bool, false, get_or, if◌then◌else◌, IfOk, OnOk};
ghost use Rattle.module_resolver.specs.NameDots.{reached};
ghost use Rattle.module_resolver.specs.steps.Lengths.{IsLesser, limit_of};

use std::alloc::{AllocError, Global};

/// Marks a number.
pub(crate) fn mark(lengths: &mut Vec<bool>, len: usize) -> Result<(), AllocError>
    ensures { OnOk result ((k : ℕ) → get_or lengths.new.items k false ≡ (get_or lengths.old.items k false || (k == len))) }
{
    while lengths.len() <= len {
        lengths.push(false)?;
    }
    lengths[len] = true;
    Ok(())
}

/// The last number that is marked, where it was this one before.
fn last_marked(last: usize, len: usize, mark: bool) -> usize
    ensures { result ≡ (if mark then len else last) }
{
    if mark { len } else { last }
}

/// For each number the greatest that is marked and not above it; 0 where there is none.
pub(crate) fn lesser_of(alloc: Global, marks: &[bool]) -> Result<Vec<usize>, AllocError>
    ensures { IfOk result (λ lesser. IsLesser marks.now lesser.items) }
{
    let mut lesser = Vec::new(alloc);
    let mut last = 0;
    for (len, mark) in marks.iter().enumerate() {
        last = last_marked(last, len, *mark);
        lesser.push(last)?;
    }
    Ok(lesser)
}

/// The greatest number of dots of a full name that anything has, not above that of a name of so many in an
/// outer one of so many; or a number that is above those of all.
fn reached(lengths: &[usize], outer: usize, name: usize) -> usize
    ensures { result ≡ reached lengths.now (outer + name + 1) }
{
    let most = lengths.len();
    if most <= outer {
        return most;
    }
    if most - outer <= name {
        return most;
    }
    lengths.get(outer + name + 1).copied().unwrap_or(most)
}

/// How many dots an outer name, of no more than so many, may have where a full name that anything has is that
/// of a name of so many in it; none where none can.
pub(crate) fn limit_of(lengths: &[usize], outer: usize, name: usize) -> Option<usize>
    ensures { result ≡ limit_of lengths.now outer name }
{
    let known = reached(lengths, outer, name);
    if name < known {
        Some(known - name - 1)
    } else {
        None
    }
}
