//! Makes hostile inputs by a number, of seeds that stand, and lets the proved code and the literal readings judge them:
//! messages, Mojom files, scripts, values and histories.
#![tactic(auto)]

mod edits;
mod files;
mod judge;
mod messages;
mod mojom;
mod scripts;
mod seeds;
mod tally;
mod texts;

pub use files::run;
