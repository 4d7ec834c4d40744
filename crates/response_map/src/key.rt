//! The names of requests.

use mj_base::EndId;

/// A request: the end that it was sent from, the id of the endpoint there, and its number among the
/// requests of that endpoint. Ordered so.
#[derive(Clone, Copy, PartialEq, Eq, PartialOrd, Ord)]
pub struct Key {
    pub end: EndId,
    pub id: u32,
    pub request: u64,
}
