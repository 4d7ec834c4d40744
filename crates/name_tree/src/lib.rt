//! Trees of names: texts by the parts between their dots, so that what several texts begin with is kept once.
#![tactic(auto)]

mod tree;

pub use tree::NameTree;
