//! A test by itself.

ghost use Rattle.std.specs.Prelude.{◌≡◌, [], ◌∷◌, OnOk, true};
ghost use Rattle.message_header.specs.steps.Judged.{Judges};
ghost use Rattle.wire_model.specs.Marks.{Test};

use mj_base::{Fault, FaultKind};

/// A test, and its fault where it fails.
pub fn judge(holds: bool, kind: FaultKind, at: u64) -> Result<(), Fault>
    ensures judged { Judges result (Test holds kind at ∷ []) }
    ensures passed { OnOk result (holds ≡ true) }
{
    if holds {
        Ok(())
    } else {
        Err(Fault { kind, at })
    }
}
