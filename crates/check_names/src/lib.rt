//! Compares what the stages on files, names, constants and kinds make of small sets of files with a literal reading of
//! the rules: the first refusal or the listing, and what names, constants and enumerators mean. The sets are those of
//! the files of cases that the words name, of which the answer is compared with what is wanted too, and where a word is
//! a number so many sets that are made.
#![tactic(auto)]

mod answer;
mod asked;
mod case;
pub mod compare;
mod literal;
mod made;
mod rows;
mod stages;
mod tally;

pub use asked::run;
