//! Compares what is answered of two schemas with a literal reading of the rules: of small pairs of files, which are a file with each
//! choice for two of its parts. Where the newer one is compatible, values of all kinds are sealed under the older one, checked and read
//! under the newer one, and agree.
#![tactic(auto)]

mod bases;
mod carried;
mod choices;
mod compare;
mod files;
mod tally;
mod values;

pub use files::run;
