//! Follows given events by a script: what its sequences ask, in the order in which the events say that these came, and what they are
//! told by the machine by names. Nobody has handles, and no core runs.
#![tactic(auto)]

mod draining;
mod following;
mod joins;
mod places;
mod settling;
mod turns;

pub use following::follow;
