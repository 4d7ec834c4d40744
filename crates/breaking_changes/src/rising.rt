//! Numbers as they rise, each once.

ghost use Rattle.std.specs.Prelude.{◌≡◌, IfOk, OnOk};
ghost use Rattle.std.specs.BTreeSet.{insert_key};
ghost use Rattle.std.specs.Ordering.{int_cmp, nat_cmp};
ghost use Rattle.compat_model.specs.Members.{rising, rising_signed};

use std::alloc::{AllocError, Global};
use std::collections::BTreeSet;

/// Adds a number where it isn't there.
fn note(found: &mut BTreeSet<u32>, number: u32) -> Result<(), AllocError>
    ensures { OnOk result (found.new.keys ≡ insert_key nat_cmp found.old.keys number) }
{
    found.insert(number)?;
    Ok(())
}

/// The set of these numbers.
fn number_set(alloc: Global, numbers: &[u32]) -> Result<BTreeSet<u32>, AllocError>
    ensures { IfOk result (λ found. found.keys ≡ rising numbers.now) }
{
    let mut found = BTreeSet::new(alloc);
    for number in numbers {
        note(&mut found, *number)?;
    }
    Ok(found)
}

/// The numbers of a set.
fn numbers_in(alloc: Global, found: &BTreeSet<u32>) -> Result<Vec<u32>, AllocError>
    ensures { IfOk result (λ made. made.items ≡ found.now.keys) }
{
    let mut made = Vec::new(alloc);
    for number in found.iter() {
        made.push(*number)?;
    }
    Ok(made)
}

/// These numbers as they rise, each once.
pub(crate) fn rising(alloc: Global, numbers: &[u32]) -> Result<Vec<u32>, AllocError>
    ensures { IfOk result (λ made. made.items ≡ rising numbers.now) }
{
    let found = number_set(alloc, numbers)?;
    numbers_in(alloc, &found)
}

/// Adds a number with a sign where it isn't there.
fn note_signed(found: &mut BTreeSet<i32>, number: i32) -> Result<(), AllocError>
    ensures { OnOk result (found.new.keys ≡ insert_key int_cmp found.old.keys number) }
{
    found.insert(number)?;
    Ok(())
}

/// The set of these numbers.
fn signed_set(alloc: Global, numbers: &[i32]) -> Result<BTreeSet<i32>, AllocError>
    ensures { IfOk result (λ found. found.keys ≡ rising_signed numbers.now) }
{
    let mut found = BTreeSet::new(alloc);
    for number in numbers {
        note_signed(&mut found, *number)?;
    }
    Ok(found)
}

/// The numbers of a set.
fn signed_in(alloc: Global, found: &BTreeSet<i32>) -> Result<Vec<i32>, AllocError>
    ensures { IfOk result (λ made. made.items ≡ found.now.keys) }
{
    let mut made = Vec::new(alloc);
    for number in found.iter() {
        made.push(*number)?;
    }
    Ok(made)
}

/// These numbers as they rise, each once.
pub(crate) fn rising_signed(alloc: Global, numbers: &[i32]) -> Result<Vec<i32>, AllocError>
    ensures { IfOk result (λ made. made.items ≡ rising_signed numbers.now) }
{
    let found = signed_set(alloc, numbers)?;
    signed_in(alloc, &found)
}
