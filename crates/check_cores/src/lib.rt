//! Compares cores with the machine that is computed literally, and with the machine by names: of each walk, all lists of a few turns, each
//! done on a core and by names, and each reply, the end that is ready and what isn't gone read off the events by the literal one; and runs
//! of two groups of sequences, one of which is told the same on a core of its own.
#![tactic(auto)]

mod by_names;
mod compare;
mod groups;
mod held;
mod moves;
mod play;
mod tally;
mod two_groups;
mod values;
mod walked;
mod walks;

pub use walked::run;
