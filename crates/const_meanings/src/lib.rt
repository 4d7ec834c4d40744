//! What constants and enumerators mean, by numbers alone: where the value of each comes from, where that leads, and what
//! values are.
#![tactic(auto)]

mod known;
mod literal;
mod meaning;
mod origin;
mod reach;

pub use known::{KnownView, known_with, signed};
pub use literal::Literal;
pub use meaning::{Meaning, meanings, one_meaning};
pub use origin::Origin;
