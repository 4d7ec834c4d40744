//! That something is answered.

ghost use Rattle.mj_schema.specs.declared.schema.Schema.{Schema};
ghost use Rattle.compat_model.specs.declared.reason.Verdict.{Verdict};
ghost use Rattle.compat_model.specs.Verdicts.{Judges};

/// A law of verdicts: of any two schemas there is one.
pub fn some_verdict()
    ensures { (old new : Schema) → (verdict : Verdict) × Judges old new verdict }
{}
