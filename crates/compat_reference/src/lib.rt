//! What is answered of two schemas, computed literally: all pairs that are reached are listed with all reasons of each, and the first in
//! order is taken; and whether a value that was read agrees with the one that was written. It is plain, slow, and apart from the code
//! that is proved of the definitions. The program `check_compat` compares the two.
#![tactic(auto)]

mod agreed;
mod answer;
mod definitions;
mod found;
mod kinds;
mod members;
mod reasons;

pub use agreed::agrees;
pub use answer::{Answer, answer_of};
pub use found::Word;
