//! The callbacks of a script's calls.

ghost use Rattle.std.specs.Prelude.{◌≡◌};
ghost use Rattle.bind_model.specs.WireOf.{wire_of};
ghost use Rattle.script_run.specs.AtDesk.{job_of_method};

use bind_model::Stepper;
use mj_schema::Schema;
use remote_receiver::{Answered, Job, Promise};
use wire_encoder::Prepared;

/// The callback of a script's call: it answers 0.
#[derive(Drop)]
pub struct Plain;

impl Promise for Plain {
    ghost promises = { λ job got note. note ≡ 0 };
}

impl<P: Stepper> Job<P> for Plain {
    fn run(self, _got: &Answered, _stepper: &P) -> u64 {
        0
    }
}

/// The callback that comes with a call: one with a response has one.
#[tactic(auto, unfolding(bind_model::specs::WireOf::wire_of))]
pub fn job_for(schema: &Schema, prepared: &Prepared) -> Option<Plain>
    ensures { result ≡ job_of_method (wire_of schema.now) prepared.now.target }
{
    let target = prepared.target;
    let _response = schema.method(target.interface, target.method)?.response?;
    Some(Plain)
}
