//! What holds of loads: this function does nothing.

ghost use Rattle.std.specs.Prelude.{◌≡◌, ℕ, List};
ghost use Rattle.mj_schema.specs.declared.schema.Schema.{Schema};
ghost use Rattle.bind_model.specs.declared.event.Event.{Event};
ghost use Rattle.load_run.specs.Commands.{IsLoad};

/// A law: of so many messages, by the numbers that are drawn behind one, a load has just one history: what is
/// told follows from what was asked before, and what is asked from what was told.
#[tactic(auto, using(crate::proofs::OneLoad::one_load))]
pub fn one_history()
    ensures { (schema : Schema) (seed messages : ℕ) (one other : List Event) → IsLoad schema seed messages one → IsLoad schema seed messages other
        → one ≡ other }
{}
