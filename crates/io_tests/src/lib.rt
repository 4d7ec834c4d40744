//! Each kind of file and of sink once, and spellings of the command line. They stand apart, since a crate with tests is
//! proved once more with them.
#![tactic(auto)]

#[cfg(test)]
mod file_tests;
#[cfg(test)]
mod words_tests;
