//! Which fault of a message is its first, said without what the walk keeps.
#![tactic(auto)]

ghost use Rattle.std.specs.Prelude.{◌≡◌, ◌↔◌, ℕ, List, Some};
ghost use Rattle.bounds_claims.specs.Runs.{first_fault, opening};
ghost use Rattle.first_faults.specs.FirstFault.{IsFirstFault};
ghost use Rattle.mj_base.specs.declared.fault.Fault.{Fault};
ghost use Rattle.wire_model.specs.Marks.{Mark};

/// The fault that is told is that of the first mark that isn't settled behind those before it: of the
/// first of this mark's tests that fails. This is a law and does nothing.
pub fn first_fault_is_first()
    ensures { (ms : List Mark) (start end handle_count id_count : ℕ) (fault : Fault) →
        (first_fault (opening start end handle_count id_count) ms ≡ Some fault) ↔ IsFirstFault ms start end handle_count id_count fault }
{}
