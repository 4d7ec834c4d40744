//! Laws of messages that stand for a value: it is of its kind, and its text is read back.
#![tactic(auto)]

ghost use Rattle.std.specs.Prelude.{◌≡◌, ◌+◌, ◌≤◌, ℕ, false, List, Result, Some, option_and_then};
ghost use Rattle.mj_schema.specs.KindTrees.{StructKind};
ghost use Rattle.mj_schema.specs.declared.schema.Schema.{Schema};
ghost use Rattle.wire_model.specs.Depth.{IsOfKind, levels};
ghost use Rattle.wire_model.specs.Expected.{Stands, message_value, method_named, struct_of};
ghost use Rattle.wire_model.specs.Tight.{MAX_DEPTH};
ghost use Rattle.wire_model.specs.declared.target.Expected.{Expected};
ghost use Rattle.wire_model.specs.declared.value.Value.{Value};
ghost use Rattle.value_text.specs.Brackets.{MAX_BRACKETS};
ghost use Rattle.value_text.specs.Rules.{value};
ghost use Rattle.value_text.specs.Spelling.{spell};
ghost use Rattle.value_text.specs.Texts.{Tells, ReadsBack};
ghost use Rattle.value_text.specs.declared.text_error.TextError.{TextError};
ghost use Rattle.message_laws.specs.Filled.{AreBytes, IsFilledSchema};

/// What a version of a struct lacks reads as a value of its kind: this is a law of every schema and does
/// nothing.
pub fn schemas_are_filled()
    ensures { (schema : Schema) → IsFilledSchema schema }
{}

/// What a message stands for is a value of its kind, the struct that its method has for the side,
/// where what a version lacks reads as values of their kinds. It is at most `MAX_DEPTH` objects deep,
/// or one more, where a string that a version lacks reads as its default. This is a law and does
/// nothing.
pub fn of_its_kind()
    ensures { (schema : Schema) (expected : Expected) (bytes : List ℕ) (handle_count number : ℕ)
        → AreBytes bytes → Stands schema expected bytes handle_count
        → option_and_then (struct_of expected.side) (method_named schema expected bytes) ≡ Some number
        → IsOfKind schema (StructKind number false) (message_value schema bytes number).value
        × (levels false (message_value schema bytes number).value ≤ MAX_DEPTH + 1) }
{}

/// The text that is written of what a message stands for is read back as that value; no more than
/// 512 brackets are open in it at once. This is a law and does nothing.
pub fn decoded_text_is_read_back()
    ensures { (schema : Schema) (expected : Expected) (bytes : List ℕ) (handle_count number : ℕ) (read : Result Value TextError)
        → AreBytes bytes → Stands schema expected bytes handle_count
        → option_and_then (struct_of expected.side) (method_named schema expected bytes) ≡ Some number
        → Tells (value schema MAX_BRACKETS (StructKind number false)) (spell schema (StructKind number false) (message_value schema bytes number).value) read
        → ReadsBack (message_value schema bytes number).value read }
{}
