//! What runs on the response to a call.

ghost use Rattle.std.specs.Prelude.{ℕ};
ghost use Rattle.remote_receiver.specs.declared.job.Answered.{Answered as answered};

use bind_model::{Parameters, Stepper};
use mj_base::EndId;

/// The response to a request: the end and the endpoint there that the request was sent from, its number,
/// its method, and the parameters of the response.
#[derive(Drop)]
pub struct Answered {
    pub end: EndId,
    pub id: u32,
    pub request: u64,
    pub method: u32,
    pub value: Parameters,
}

/// What may come with a call. Contracts see what it promises of its answer to a response.
pub trait Promise: Drop {
    ghost promises: { Self → answered → ℕ → Type 0 };
}

/// Runs once at most, on the response to the call that it was given with, at a desk with this stepper.
pub trait Job<P: Stepper>: Promise {
    ghost use Rattle.remote_receiver.specs.Due.{IsDue};

    /// Runs on a response, which the last take by the stepper got. The job is spent by it.
    fn run(self, got: &Answered, stepper: &P) -> u64
        requires due { IsDue (P.me stepper.now) (P.seen stepper.now) got.now }
        ensures { Self.promises self got.now result };
}
