//! The runtime as a library, as a caller uses it: a Mojom text is compiled, a value becomes a message and is
//! read again, and calls with jobs go over a pipe, on a core alone and from a seat at a hub.
#![tactic(auto)]

mod calls;
mod held;
mod market;
mod messages;
mod seated;
mod traded;

pub use market::run;
