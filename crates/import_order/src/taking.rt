//! The files that can be taken, each behind its imports.

ghost use Rattle.std.specs.Prelude.{◌≡◌, ◌<◌, ◌≤◌, ◌^◌, ◌+◌, ◌==◌, ◌&&◌, ◌||◌, nat_lt, if◌then◌else◌, ℕ, List, [], map, length, get_or, IfOk, OnOk};
ghost use Rattle.import_order.specs.Imports.{has, IsTakenWhole};
ghost use Rattle.import_order.specs.steps.Taking.{times, AreBelow, AreImports, AreImporters};

use crate::least::LeastFirst;
use crate::marked::Marked;
use mj_base::Items;
use std::alloc::{AllocError, Global};

/// So many empty lists.
fn empty_lists(alloc: Global, count: usize) -> Result<Vec<Items<u32>>, AllocError>
    ensures long { IfOk result (λ lists. length lists.items ≡ count) }
    ensures empty { IfOk result (λ lists. (k : ℕ) → get_or lists.items k [] ≡ []) }
{
    let mut lists = Vec::new(alloc);
    for _number in 0..count {
        lists.push(Items::new(alloc))?;
    }
    Ok(lists)
}

/// Notes a file at each of those that it imports.
fn note_imports(importers: &mut [Items<u32>], file: u32, imports: &[u32]) -> Result<(), AllocError>
    requires { AreBelow (length importers.old) imports.now }
    ensures { OnOk result ((one other : ℕ) → times one (get_or importers.new other []) ≡
        times one (get_or importers.old other []) + (if file == one then times other imports.now else 0)) }
{
    for other in imports {
        if importers[*other as usize].push(file).is_err() {
            return Err(AllocError);
        }
    }
    Ok(())
}

/// For each file the files that import it, each as often as it does.
fn all_importers(alloc: Global, imports: &[Items<u32>]) -> Result<Vec<Items<u32>>, AllocError>
    requires few { length imports.now < 2 ^ 32 }
    requires imports { AreImports imports.now }
    ensures long { IfOk result (λ importers. length importers.items ≡ length imports.now) }
    ensures are { IfOk result (λ importers. AreImporters imports.now importers.items) }
{
    let mut importers = empty_lists(alloc, imports.len())?;
    for (file, list) in imports.iter().enumerate() {
        note_imports(importers.as_mut_slice(), file as u32, list.as_slice())?;
    }
    Ok(importers)
}

/// How many imports each file has; those that have none are free.
fn count_imports(
    alloc: Global,
    imports: &[Items<u32>],
    free: &mut LeastFirst,
) -> Result<Vec<usize>, AllocError>
    requires few { length imports.now < 2 ^ 32 }
    requires none { free.old ≡ [] }
    ensures counts { IfOk result (λ left. left.items ≡ map (λ (list : List ℕ). length list) imports.now) }
    ensures free { OnOk result ((k : ℕ) → has free.new k ≡ (nat_lt k (length imports.now) && (length (get_or imports.now k []) == 0))) }
{
    let mut left = Vec::new(alloc);
    for (file, list) in imports.iter().enumerate() {
        left.push(list.len())?;
        if list.len() == 0 {
            free.insert(file as u32)?;
        }
    }
    Ok(left)
}

/// Counts down an import of each of these files; those that have none left are free.
fn count_down(
    left: &mut [usize],
    free: &mut LeastFirst,
    importers: &[u32],
) -> Result<(), AllocError>
    requires below { AreBelow (length left.old) importers.now }
    requires enough { (k : ℕ) → times k importers.now ≤ get_or left.old k 0 }
    ensures counts { OnOk result ((k : ℕ) → get_or left.new k 0 + times k importers.now ≡ get_or left.old k 0) }
    ensures free { OnOk result ((k : ℕ) → has free.new k ≡ (has free.old k || ((get_or left.new k 0 == 0) && has importers.now k))) }
{
    for file in importers {
        left[*file as usize] -= 1;
        if left[*file as usize] == 0 {
            free.insert(*file)?;
        }
    }
    Ok(())
}

/// The files that can be taken, again and again the first whose imports are all taken; the files that import each are given.
fn take_behind(
    alloc: Global,
    imports: &[Items<u32>],
    importers: &[Items<u32>],
) -> Result<Marked, AllocError>
    requires few { length imports.now < 2 ^ 32 }
    requires long { length importers.now ≡ length imports.now }
    requires are { AreImporters imports.now importers.now }
    ensures limit { IfOk result (λ taken. taken.limit ≡ length imports.now) }
    ensures whole { IfOk result (λ taken. IsTakenWhole imports.now taken.numbers) }
{
    let mut free = LeastFirst::new(alloc);
    let mut left = count_imports(alloc, imports, &mut free)?;
    let mut taken = Marked::new(alloc, imports.len())?;
    while let Some(file) = free.pop() {
        taken.push(file)?;
        let waiting = importers[file as usize].as_slice();
        count_down(left.as_mut_slice(), &mut free, waiting)?;
    }
    Ok(taken)
}

/// The files that can be taken, again and again the first whose imports are all taken.
pub(crate) fn take_all(alloc: Global, imports: &[Items<u32>]) -> Result<Marked, AllocError>
    requires few { length imports.now < 2 ^ 32 }
    requires imports { AreImports imports.now }
    ensures limit { IfOk result (λ taken. taken.limit ≡ length imports.now) }
    ensures whole { IfOk result (λ taken. IsTakenWhole imports.now taken.numbers) }
{
    let importers = all_importers(alloc, imports)?;
    take_behind(alloc, imports, importers.as_slice())
}
