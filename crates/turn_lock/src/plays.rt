//! The rule, and what each step on the table tells.

ghost use Rattle.turn_lock.specs.steps.Turning.{Turning, took, noted, gave, looked, dealing, newcomer, copy, joined, blank, opened};

use crate::entries::Entries;
use crate::view::View;
use atomic_table::{Join, Play, Split, TableRule};
use std::marker::PhantomData;
use std::snapshot::Snapshot;

/// The rule of a table with one turn over a value.
pub struct OneTurn<T> {
    value: PhantomData<T>,
}

impl<T: Entries> TableRule<T, View<T::Entry, T::Basis>, (Snapshot<T>, u64)> for OneTurn<T> {
    ghost holds = { λ key. Turning T.entries T.number T.basis T.lawful key.1 };

    ghost first = { λ key. opened (T.basis key.0.value) };
}

/// The turn is taken, where it is free, and the value with it.
pub(crate) struct Takes;

impl<T: Entries> Play<T, View<T::Entry, T::Basis>> for Takes {
    ghost then = { took T.entries T.number T.basis T.lawful };
}

/// The entry that the value has gained is noted.
pub(crate) struct Notes;

impl<T: Entries> Play<T, View<T::Entry, T::Basis>> for Notes {
    ghost then = { noted T.entries T.number T.basis T.lawful };
}

/// The turn and the value are given back.
pub(crate) struct Gives;

impl<T: Entries> Play<T, View<T::Entry, T::Basis>> for Gives {
    ghost then = { gave T.entries T.number T.basis T.lawful };
}

/// The whole list is seen.
pub(crate) struct Looks;

impl<T: Entries> Play<T, View<T::Entry, T::Basis>> for Looks {
    ghost then = { looked T.entries T.number T.basis T.lawful };
}

/// One more pass is handed out.
pub(crate) struct Deals;

impl<E, B> Split<View<E, B>> for Deals {
    ghost left = { dealing };

    ghost right = { newcomer };
}

/// A copy of what was seen, for another seat.
pub(crate) struct Copies;

impl<E, B> Split<View<E, B>> for Copies {
    ghost left = { λ v. v };

    ghost right = { copy };
}

/// A seat takes another in.
pub(crate) struct Joins;

impl<E, B> Join<View<E, B>> for Joins {
    ghost both = { joined };

    ghost spent = { blank };
}
