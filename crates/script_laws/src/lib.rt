//! That bytes are a script, or have a first refusal.
#![tactic(auto)]

ghost use Rattle.std.specs.Prelude.{ℕ, ◌<◌, ◌^◌, List, length};
ghost use Rattle.mj_schema.specs.declared.schema.Schema.{Schema};
ghost use Rattle.script_laws.specs.Answer.{HasAnswer};

use wire_encoder::laws::passed_is_encodable;

/// Bytes of which memory can hold a list are a script of a schema, or one of their lines is the first that is
/// refused, for a reason. By the laws of call_script they have one such answer alone. This is a law and does
/// nothing: it calls the law that it rests on.
pub fn some_answer()
    ensures { (schema : Schema) (bytes : List ℕ) → length bytes < 2 ^ 63 → HasAnswer schema bytes }
{
    passed_is_encodable();
}
