//! One endpoint of an end, with the requests that were sent from it.

ghost use Rattle.std.specs.Prelude.{◌≡◌, Some};
ghost use Rattle.endpoint_router.specs.Rows.{is_pending, row_of, row_seen};

use crate::requests::Requests;
use bind_model::{Endpoint, State};
use std::alloc::Global;

/// An endpoint, the number that its next request gets, and the requests that were sent from it and have
/// not ended.
#[derive(Drop)]
pub struct Row {
    pub(crate) endpoint: Endpoint,
    pub(crate) next_request: u64,
    pub(crate) requests: Requests,
}

impl Row {
    /// The row of an endpoint from which nothing was sent. Takes no memory.
    pub fn new(alloc: Global, endpoint: Endpoint) -> Row
        ensures { row_seen result ≡ row_of endpoint }
    {
        Row {
            endpoint,
            next_request: 1,
            requests: Requests::new(alloc),
        }
    }

    /// Its endpoint.
    pub fn endpoint(&self) -> Endpoint
        ensures { result ≡ self.now.endpoint }
    {
        self.endpoint
    }

    /// The number that its next request gets.
    pub fn next_request(&self) -> u64
        ensures { result ≡ self.now.next_request }
    {
        self.next_request
    }

    /// Whether a request of this method waits for its response. None does where the peer endpoint is
    /// known to be closed, or the endpoint itself is.
    pub fn is_pending(&self, request: u64, method: u32) -> bool
        ensures { result ≡ is_pending (Some (row_seen self.now)) request method }
    {
        match self.endpoint.state {
            State::Closed => false,
            State::Pending | State::Bound(_) => {
                !self.endpoint.peer_closed && self.requests.contains(request, method)
            }
        }
    }
}
