//! What a newer schema may change of an older one whose messages it is to read: pairs of their rows, what
//! breaks a pair, and what is answered of two schemas.
#![tactic(auto)]

mod pair;
mod reason;
mod root;

pub use pair::Pair;
pub use reason::{Change, Reason, Verdict};
pub use root::Root;
