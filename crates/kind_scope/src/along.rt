//! Members along their ordinals.

ghost use Rattle.std.specs.Prelude.{◌≡◌, map, IfOk};
ghost use Rattle.std.specs.BTreeMap.{values};
ghost use Rattle.kind_scope.specs.Views.{numbered_view};
ghost use Rattle.kind_scope.specs.Members.{along, along_ordinals};

use crate::member::NumberedView;
use std::alloc::{AllocError, Global};
use std::collections::BTreeMap;

/// The members by their ordinals: of two with one ordinal the later one.
fn by_ordinals<'a>(
    alloc: Global,
    members: &[NumberedView<'a>],
) -> Result<BTreeMap<u32, NumberedView<'a>>, AllocError>
    ensures { IfOk result (λ found. found.entries ≡ map (λ one. (one.ordinal, one)) (along (λ one. one.ordinal) members.now)) }
{
    let mut found = BTreeMap::new(alloc);
    for one in members {
        found.insert(one.ordinal, *one)?;
    }
    Ok(found)
}

/// What stands in an ordered map, in order.
fn values_of<'a>(
    alloc: Global,
    found: BTreeMap<u32, NumberedView<'a>>,
) -> Result<Vec<NumberedView<'a>>, AllocError>
    ensures { IfOk result (λ sorted. sorted.items ≡ values found.entry) }
{
    found.into_values().collect(alloc)
}

/// The members along their ordinals: of two with one ordinal the later one.
pub fn along_ordinals<'a>(
    alloc: Global,
    members: &[NumberedView<'a>],
) -> Result<Vec<NumberedView<'a>>, AllocError>
    ensures { IfOk result (λ sorted. map numbered_view sorted.items ≡ along_ordinals (map numbered_view members.now)) }
{
    let found = by_ordinals(alloc, members)?;
    let sorted = values_of(alloc, found)?;
    Ok(sorted)
}
