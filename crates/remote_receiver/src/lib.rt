//! Calls with callbacks: a desk does the commands of a sequence, and runs the job that was given with a
//! call on the response to it.
#![tactic(auto)]

mod boxed;
mod call;
mod desk;
mod job;
mod jobs;
mod note;
mod rest;
mod told;

pub use boxed::{BoxedJob, Callback};
pub use call::{CallRefused, Sent};
pub use desk::Desk;
pub use job::{Answered, Job, Promise};
pub use note::Note;
pub use rest::Rest;
