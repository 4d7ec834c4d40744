//! Endpoints: for each end by their ids, where each is, and the requests that were sent from it.
#![tactic(auto)]

mod draws;
mod endpoints;
mod index;
pub mod laws;
mod place;
pub mod plain;
mod requests;
mod router;
mod row;
mod slot;
mod slots;
mod table;
mod turns;

pub use endpoints::Endpoints;
pub use router::{Router, enter_one};
pub use row::Row;
pub use table::EndpointTable;
pub use turns::Turn;
