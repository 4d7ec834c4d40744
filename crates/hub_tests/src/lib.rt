//! Sequences over one hub, each in a thread of its own. machine_tests runs four.
#![tactic(auto)]

mod pipes;
mod seats;

pub use pipes::{Row, make_pipes, work_rows, work_slice};
pub use seats::{Told, pipes_by_threads, side_by_side};
