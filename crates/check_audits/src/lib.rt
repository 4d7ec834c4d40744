//! Compares what an audit says of texts with what is literally said of them: of the histories of small scripts, and of all that they
//! are where one word or one line is changed.
#![tactic(auto)]

mod compare;
mod engines;
mod judgement;
mod literal;
mod page;
mod subject;
mod tally;

pub use compare::run;
