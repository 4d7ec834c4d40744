//! A lock with passes. One pass at a time has the turn, and works on the value; what it adds to the value's list of entries is noted
//! under its number, so that each pass knows a beginning of the one list, with all that it has added itself.
#![tactic(auto)]

mod entries;
mod pass;
mod plays;
mod turn;
mod view;

pub use entries::Entries;
pub use pass::{Board, Pass, Turn};
pub use view::{Part, View};
