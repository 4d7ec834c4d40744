//! Literals.

use mj_base::Items;

/// A literal of a constant or an enumerator.
#[derive(Drop)]
pub enum Literal {
    /// The bytes that a string stands for.
    Text(Items<u8>),
    Bool(bool),
    /// A number, without steps that count on from it.
    Number { negative: bool, magnitude: u64 },
    /// The value of a constant of `float` or `double`, whatever is written there: no kind takes it.
    Float,
}
