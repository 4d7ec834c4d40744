//! A message that has the same bytes as another wherever that one is read stands for the same.
#![tactic(auto)]

ghost use Rattle.std.specs.Prelude.{◌≡◌, ℕ, List, Some, option_and_then};
ghost use Rattle.mj_schema.specs.declared.schema.Schema.{Schema};
ghost use Rattle.wire_model.specs.Expected.{Stands, message_value, method_named, struct_of};
ghost use Rattle.wire_model.specs.declared.target.Expected.{Expected};
ghost use Rattle.same_messages.specs.Agree.{AgreesWhereRead};

/// What a message stands for depends on the bytes where it is read alone: another message that is at
/// least as long, and has the same bytes in the header, in the array of ids and in each object that
/// the first claims, stands with as many handles, and for the same. So nothing depends on bytes in
/// gaps, nor on any behind. This is a law and does nothing.
pub fn independent()
    ensures { (schema : Schema) (expected : Expected) (bytes other : List ℕ) (handle_count : ℕ)
        → Stands schema expected bytes handle_count → AgreesWhereRead schema expected bytes other
        → Stands schema expected other handle_count
        × ((number : ℕ) → option_and_then (struct_of expected.side) (method_named schema expected bytes) ≡ Some number
        → message_value schema other number ≡ message_value schema bytes number) }
{}
