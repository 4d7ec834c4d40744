//! Runs scripts: the joins, the lines of the sequences in the order that is asked for, and then a take
//! wherever a message is ready, with automatic replies.
#![tactic(auto)]

mod agenda;
mod autos;
mod callbacks;
mod commands;
mod cut;
mod desks;
mod draining;
mod joins;
pub mod laws;
mod order;
mod plain;
mod run;
mod runner;
mod seat;
mod sequence;
mod single;
mod tracing;
mod worker;

pub use autos::reply_to;
pub use commands::serve;
pub use cut::Cut;
pub use desks::at_rest;
pub use draining::{Drained, cut_off, drain};
pub use joins::{Joint, settle};
pub use order::lines_of;
pub use plain::Plain;
pub use run::open_rooms;
pub use runner::{Ran, end, run_alone};
pub use seat::Seat;
pub use sequence::{Worked, work, work_on};
pub use tracing::{Followed, follow};
