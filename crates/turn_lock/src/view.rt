//! What a seat at the table knows. No value of these types is made: they stand in clauses alone.

use std::collections::LinkedList;

/// The number of a pass, and all entries that name it.
pub struct Part<E> {
    pub number: u64,
    pub mine: LinkedList<E>,
}

/// What was seen of the list, what a join keeps as seen by the other, whether the seat has the turn, and the passes that it has. One seat
/// hands out passes, and knows how many it has handed out.
pub struct View<E, B> {
    pub basis: Option<B>,
    pub seen: LinkedList<E>,
    pub old: LinkedList<E>,
    pub holds: bool,
    pub parts: LinkedList<Part<E>>,
    pub deals: bool,
    pub made: u64,
}
