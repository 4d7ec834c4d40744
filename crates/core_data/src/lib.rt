//! Bytes that are moved at the tokens of data pipes.
#![tactic(auto)]

mod moving;
mod spot;

pub use moving::flow;
pub use spot::{Spot, other_token, same_side, side_asked};
