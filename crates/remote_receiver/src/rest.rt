//! A desk without its stepper.

ghost use Rattle.std.specs.Prelude.{◌≡◌, []};
ghost use Rattle.remote_receiver.specs.Held.{kept_of};
ghost use Rattle.remote_receiver.specs.Notes.{HasKept};
ghost use Rattle.remote_receiver.specs.Waits.{AreDrawn};

use crate::desk::Desk;
use crate::job::Promise;
use crate::jobs::Jobs;
use bind_model::Stepper;
use std::alloc::Global;

/// The jobs that wait and the notes of a desk at rest.
#[derive(Drop)]
pub struct Rest<C> {
    pub(crate) jobs: Jobs<C>,
}

impl<C: Promise> Rest<C> {
    /// A desk without jobs, at rest. Takes no memory.
    pub fn new(alloc: Global) -> Rest<C>
        ensures kept { HasKept C.promises [] (kept_of result.jobs) }
    {
        Rest {
            jobs: Jobs::new(alloc),
        }
    }
}

impl<C: Drop> Rest<C> {
    /// A desk with these jobs and notes. Its stepper has seen the calls that they were given with. Takes
    /// no memory.
    pub fn wake<P: Stepper>(self, stepper: P) -> Desk<C, P>
        requires { AreDrawn (P.seen stepper) self.jobs.waiting.callbacks }
        ensures stepper { result.stepper ≡ stepper }
        ensures kept { kept_of result.jobs ≡ kept_of self.jobs }
    {
        let Rest { jobs } = self;
        Desk { stepper, jobs }
    }
}
