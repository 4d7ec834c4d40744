//! The requests of one endpoint that wait for their responses.

ghost use Rattle.std.specs.Prelude.{ℕ, ◌≡◌, ◌==◌, ◌&&◌, not, false, if◌then◌else◌, OnOk, IsTrue};
ghost use Rattle.endpoint_router.specs.Rows.{has_request, is_waiting};

use std::alloc::{AllocError, Global};
use std::collections::BTreeMap;
use std::marker::Model;

/// The requests that wait for their responses, each with its method; without one there is only a place.
/// Contracts see a list of numbers and methods.
#[derive(Drop)]
pub(crate) struct Requests {
    methods: BTreeMap<u64, Option<u32>>,
}

impl Model for Requests {
    ghost use Rattle.std.specs.Prelude.{ℕ, List, Option};

    ghost Value = { List (ℕ × Option ℕ) };

    ghost view = { λ requests. requests.methods.entries };
}

impl Requests {
    /// No requests. Takes no memory.
    pub(crate) fn new(alloc: Global) -> Requests
        ensures { (request method : ℕ) → is_waiting result request method ≡ false }
    {
        Requests {
            methods: BTreeMap::new(alloc),
        }
    }

    /// Whether a request of this method waits.
    pub(crate) fn contains(&self, request: u64, method: u32) -> bool
        ensures { result ≡ is_waiting self.now request method }
    {
        match self.methods.get(&request).copied().unwrap_or(None) {
            Some(waits) => waits == method,
            None => false,
        }
    }

    /// Makes a place for a request.
    pub(crate) fn reserve(&mut self, request: u64) -> Result<(), AllocError>
        ensures same { (number method : ℕ) → is_waiting self.new number method ≡ is_waiting self.old number method }
        ensures there { OnOk result (IsTrue (has_request self.new request)) }
    {
        self.methods.entry(request)?.or_insert(None);
        Ok(())
    }

    /// A request of this method waits from now on, for which there is a place.
    pub(crate) fn add(&mut self, request: u64, method: u32)
        requires { IsTrue (has_request self.old request) }
        ensures { (number asks_for : ℕ) → is_waiting self.new number asks_for
            ≡ (if request == number then method == asks_for else is_waiting self.old number asks_for) }
    {
        if let Some(waits) = self.methods.get_mut(&request) {
            *waits = Some(method);
        }
    }

    /// A request waits no longer.
    pub(crate) fn remove(&mut self, request: u64)
        ensures { (number method : ℕ) → is_waiting self.new number method ≡ (is_waiting self.old number method && not (request == number)) }
    {
        self.methods.remove(&request);
    }
}
