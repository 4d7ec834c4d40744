//! Where a value comes from.

use crate::literal::Literal;

/// Where the value of a thing, a constant or an enumerator, comes from. Things go by their numbers.
#[derive(Drop)]
pub enum Origin {
    /// It is written there.
    Written(Literal),
    /// It is that of another thing.
    Of(usize),
    /// It is the number after that of the thing before.
    Next,
    /// It has none: a name that means no constant and no enumerator, or a definition that is no constant.
    Missing,
}
