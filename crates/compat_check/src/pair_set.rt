//! The pairs that were seen.

ghost use Rattle.std.specs.Prelude.{◌≡◌, ◌+◌, ◌<◌, ◌^◌, [], true, not, if◌then◌else◌, IfOk, OnOk};
ghost use Rattle.compat_model.specs.declared.pair.Pair.{Pair as pair_name};
ghost use Rattle.compat_check.specs.steps.PairSets.{count, has_pair, is_pair, key_of};

use compat_model::Pair;
use std::alloc::{AllocError, Global};
use std::collections::BTreeSet;

/// A pair by numbers: its sort, and its rows.
#[derive(Clone, Copy, PartialEq, Eq, PartialOrd, Ord)]
pub(crate) struct Key {
    pub sort: u32,
    pub older: u32,
    pub newer: u32,
}

/// Pairs, each once.
#[derive(Drop)]
pub(crate) struct PairSet {
    pub keys: BTreeSet<Key>,
}

/// A pair by numbers.
fn key_of(pair: Pair) -> Key
    ensures { result ≡ key_of pair }
{
    match pair {
        Pair::Structs(older, newer) => Key {
            sort: 0,
            older,
            newer,
        },
        Pair::Unions(older, newer) => Key {
            sort: 1,
            older,
            newer,
        },
        Pair::Enums(older, newer) => Key {
            sort: 2,
            older,
            newer,
        },
        Pair::Interfaces(older, newer) => Key {
            sort: 3,
            older,
            newer,
        },
    }
}

/// No pairs. Takes no memory.
pub(crate) fn no_pairs(alloc: Global) -> PairSet
    ensures { result.keys.keys ≡ [] }
{
    PairSet {
        keys: BTreeSet::new(alloc),
    }
}

/// Notes a pair; whether it wasn't noted before.
pub(crate) fn note(seen: &mut PairSet, pair: Pair) -> Result<bool, AllocError>
    ensures answer { IfOk result (λ is_new. is_new ≡ not (has_pair seen.old pair)) }
    ensures counted { IfOk result (λ is_new. count seen.new ≡ count seen.old + (if is_new then 1 else 0)) }
    ensures noted { OnOk result ((q : pair_name) → has_pair seen.new q ≡ (if is_pair pair q then true else has_pair seen.old q)) }
{
    Ok(seen.keys.insert(key_of(pair))?)
}

/// How many pairs were noted.
pub(crate) fn count(seen: &PairSet) -> usize
    ensures value { result ≡ count seen.now }
    ensures small { result < 2 ^ 63 }
{
    seen.keys.len()
}
