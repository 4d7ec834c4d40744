//! Where the keys of a list stand, found by halving.

ghost use Rattle.std.specs.Prelude.{◌≡◌, ℤ, List, position};
ghost use Rattle.std.specs.List.Sorted.{IsPermutation, IsSortedBy};
ghost use Rattle.std.specs.Ordering.{int_eq};
ghost use Rattle.mj_schema.specs.Places.{AreOrdered, is_before};

/// A key of a list, and the place of a row that has it.
#[derive(Clone, Copy)]
pub(crate) struct KeyPlace {
    pub key: i64,
    pub place: usize,
}

/// The places along their keys, and those of one key along the list.
pub(crate) fn in_order(mut places: Vec<KeyPlace>) -> Vec<KeyPlace>
    ensures all { IsPermutation places.items result.items }
    ensures rising { IsSortedBy is_before result.items }
{
    places.sort_unstable_by_key(|entry| (entry.key, entry.place));
    places
}

/// The first place of a key in a list whose places these are, in order; none exactly where the list
/// lacks the key.
pub(crate) fn place_of(places: &[KeyPlace], key: i64) -> Option<usize>
    ensures { (keys : List ℤ) → AreOrdered keys places.now → result ≡ position (λ other. int_eq other key) keys }
{
    let before = places.partition_point(|entry| entry.key < key);
    match places.get(before) {
        Some(entry) if entry.key == key => Some(entry.place),
        _ => None,
    }
}
