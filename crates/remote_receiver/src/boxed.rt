//! Jobs that differ in kind.

ghost use Rattle.std.specs.Prelude.{◌≡◌};

use crate::job::{Answered, Job, Promise};
use bind_model::Stepper;

/// A boxed closure, which the caller makes.
pub type Callback = Box<dyn FnMut(&Answered) -> u64 + Send>;

/// A callback that may be called on any response, but not twice. It promises what the closure does.
#[derive(Drop)]
pub struct BoxedJob {
    pub run: Callback,
    ghost callable: { (got : _) → Callback.pre run got },
}

/// Calls a closure, which is spent by it.
fn call_once<F: FnOnce(&Answered) -> u64>(callback: F, got: &Answered) -> u64
    requires { F.pre callback got }
    ensures { (shown : _) × F.post callback shown result × (shown.now ≡ got.now) }
{
    callback(got)
}

impl Promise for BoxedJob {
    ghost promises = { λ job got note. (shown : _) × Callback.post job.run shown note × (shown.now ≡ got) };
}

impl<P: Stepper> Job<P> for BoxedJob {
    fn run(self, got: &Answered, _stepper: &P) -> u64 {
        let BoxedJob { run } = self;
        call_once(run, got)
    }
}
