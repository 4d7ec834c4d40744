//! What a core keeps, and what that is of its history: pipes with the places of all handles, the routers of all ends,
//! what they keep of controls, all data pipes, and the rights that are with callers; what each step does to it, whom ends wait for,
//! and the controls that the machine writes.
#![tactic(auto)]

mod distinct;
pub mod emit;
mod entries;
mod goes;
mod left;
mod open_endpoint;
mod paused;
mod routers;
mod sides;
mod state;
mod tables;
mod things;

pub use distinct::{all_differ, is_distinct};
pub use endpoint_router::{Turn, enter_one};
pub use entries::Entering;
pub use goes::{Goes, goes_with};
pub use left::open_things;
pub use open_endpoint::open_at;
pub use paused::{forget_met, paused_by};
pub use routers::Routers;
pub use sides::other_side;
pub use state::{Rights, State, refuse};
pub use tables::Tables;
pub use things::{all_out, contains, is_out, put_all};
