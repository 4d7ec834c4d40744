//! A turn and its passes.

ghost use Rattle.std.specs.Prelude.{◌≡◌};
ghost use Rattle.turn_lock.specs.Passing.{IsPass, mine_of};

use crate::entries::Entries;
use crate::plays::OneTurn;
use crate::view::View;
use atomic_table::{Seat, Table};
use std::alloc::Global;
use std::snapshot::Snapshot;

/// A seat at the table of a value.
pub type Place<T> = Seat<T, View<<T as Entries>::Entry, <T as Entries>::Basis>>;

/// The table of a value: two words and one slot, with the value that it was made of and the number of its passes as its key.
pub type Board<T> = Table<
    T,
    View<<T as Entries>::Entry, <T as Entries>::Basis>,
    (Snapshot<T>, u64),
    OneTurn<T>,
    Global,
>;

/// A pass of a turn, which must be spent. Contracts see its number, what it has seen of the list, and the entries that name it.
pub struct Pass<T: Entries> {
    pub number: u64,
    pub(crate) place: Seat<T, View<T::Entry, T::Basis>>,
    pub ghost idle: { IsPass place.me number (mine_of place.me.0.parts) },
}

/// A value that passes work on, one at a time. It must be closed. Threads may share it.
pub struct Turn<T: Entries> {
    pub(crate) board: Table<T, View<T::Entry, T::Basis>, (Snapshot<T>, u64), OneTurn<T>, Global>,
    pub ghost wide: { (board.shared.table_id.words ≡ 2) × (board.shared.table_id.slots ≡ 1) },
}
