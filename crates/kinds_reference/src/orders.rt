//! Ordinals.

use names_reference::Member;
use std::alloc::{AllocError, Global};

/// The ordinal of each member of a list: as it is written, or else that of the one before and 1; the first 0.
pub fn ordinals_of(alloc: Global, members: &[Member<'_>]) -> Result<Vec<i128>, AllocError> {
    let mut ordinals = Vec::new(alloc);
    let mut next: i128 = 0;
    for member in members {
        let ordinal = match member.ordinal {
            Some(written) => i128::from(written.value),
            None => next,
        };
        ordinals.push(ordinal)?;
        next = ordinal.saturating_add(1);
    }
    Ok(ordinals)
}

/// Whether one of the first so many ordinals is this one.
pub fn is_among_first(ordinals: &[i128], count: usize, ordinal: i128) -> bool {
    let mut first = ordinals.iter().take(count);
    first.any(|other| *other == ordinal)
}

/// Whether an ordinal stands twice.
pub fn has_double(ordinals: &[i128]) -> bool {
    let mut numbered = ordinals.iter().enumerate();
    numbered.any(|(place, ordinal)| is_among_first(ordinals, place, *ordinal))
}

/// The least ordinal below the number of ordinals that is lacking.
pub fn gap(ordinals: &[i128]) -> Option<i128> {
    let mut wanted: i128 = 0;
    for _ in ordinals {
        if !ordinals.contains(&wanted) {
            return Some(wanted);
        }
        wanted = wanted.saturating_add(1);
    }
    None
}

/// The place in the list of the greatest ordinal below this one.
pub fn place_before(ordinals: &[i128], ordinal: i128) -> Option<usize> {
    let mut best: Option<(i128, usize)> = None;
    for (place, other) in ordinals.iter().enumerate() {
        let is_better = match best {
            Some((known, _)) => *other > known,
            None => true,
        };
        if is_better && *other < ordinal {
            best = Some((*other, place));
        }
    }
    best.map(|(_, place)| place)
}

/// The places in the list along the ordinals, where these are those from 0 on.
pub fn places_along(alloc: Global, ordinals: &[i128]) -> Result<Vec<usize>, AllocError> {
    let mut places = Vec::new(alloc);
    let mut wanted: i128 = 0;
    for _ in ordinals {
        if let Some(place) = ordinals.iter().position(|other| *other == wanted) {
            places.push(place)?;
        }
        wanted = wanted.saturating_add(1);
    }
    Ok(places)
}
