//! What messages stand for, computed literally: pointers are followed first, into a tree, and everything
//! is judged afterwards, by a list of tests in their order. Plain, slow, and apart from the code that is
//! proved of the definitions. The program `check_messages` compares the two.
#![tactic(auto)]

mod bytes;
mod follow;
mod front;
mod judge;
mod list;
mod nodes;
mod rows;
mod same;
mod values;
mod whole;

pub use rows::is_nullable;
pub use same::are_same;
pub use whole::{Message, Outcome, read};
