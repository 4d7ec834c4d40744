//! Laws of schemas that go on: a newer schema that is compatible with an older one reads each message that the older
//! one writes for a stable interface, a schema is compatible with itself, and of two schemas one thing is answered at most.
#![tactic(auto)]

ghost use Rattle.std.specs.Prelude.{◌≡◌, ℕ, Some, true, length, slice_get};
ghost use Rattle.mj_schema.specs.declared.rows.InterfaceRow.{InterfaceRow};
ghost use Rattle.mj_schema.specs.declared.schema.Schema.{Schema};
ghost use Rattle.compat_model.specs.declared.reason.Verdict.{Verdict};
ghost use Rattle.compat_model.specs.declared.reason.Verdict.TheVariants.{Compatible};
ghost use Rattle.compat_model.specs.Verdicts.{IsCompatible, Judges, roots};
ghost use Rattle.compat_laws.specs.Read.{AreUnmarked, ReadsAll};

/// A message of a stable interface that a compatible older schema wrote stands by the newer schema, at the interface
/// of that name, for the method of its ordinal and for its parameters with the defaults of those that it lacks: for
/// each side, head and value that can be written. This is a law and does nothing.
pub fn compatible_is_read()
    ensures { (old new : Schema) (interface : ℕ) (row : InterfaceRow) → IsCompatible old new → slice_get old.interfaces interface ≡ Some row
        → row.stable ≡ true → ReadsAll old new interface row }
{}

/// A schema is compatible with itself, unless a struct of a method is stable by itself: it reads what it writes. This
/// is a law and does nothing.
pub fn same_is_compatible()
    ensures { (schema : Schema) → AreUnmarked schema → Judges schema schema (Compatible (length (roots schema schema))) }
{}

/// Of two schemas one thing is answered at most. This is a law and does nothing.
pub fn one_verdict()
    ensures { (old new : Schema) (one two : Verdict) → Judges old new one → Judges old new two → one ≡ two }
{}
