//! The names of a script's sequences: what stands and is held under them, and what lines ask with it.
#![tactic(auto)]

mod copies;
mod counts;
mod held;
mod kept;
mod lines;
mod names;
mod no_memory;
mod rooms;
mod stands;
mod tokens;

pub use copies::copy_prepared;
pub use held::{Held, Retire};
pub use kept::Kept;
pub use lines::command_of;
pub use names::Names;
pub use no_memory::NoMemory;
pub use rooms::Rooms;
pub use stands::Stands;
