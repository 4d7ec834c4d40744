//! What is sealed stands.

ghost use Rattle.std.specs.Prelude.{◌≡◌, ℕ, Some, length};
ghost use Rattle.mj_schema.specs.Lookups.{method_in};
ghost use Rattle.mj_schema.specs.declared.rows.MethodRow.{MethodRow};
ghost use Rattle.mj_schema.specs.declared.schema.Schema.{Schema};
ghost use Rattle.wire_model.specs.Expected.{Stands, flags_of, struct_of};
ghost use Rattle.wire_model.specs.Message.{Head, IsHead};
ghost use Rattle.wire_model.specs.Tight.{IsEncodable, tight_message};
ghost use Rattle.wire_model.specs.Trees.{Trees};
ghost use Rattle.wire_model.specs.declared.target.Expected.{Expected};

/// The tight bytes of a value that fits, behind a header of the method, the side and the flags that are
/// expected, pass every test of a message. This is a law and does nothing.
pub fn tight_stands()
    ensures { (schema : Schema) (expected : Expected) (number handles : ℕ) (ts : Trees) (head : Head) (method : MethodRow)
        → IsHead head → IsEncodable schema number ts handles (length head.ids)
        → method_in schema.interfaces expected.interface head.name ≡ Some method
        → struct_of expected.side method ≡ Some number
        → head.flags ≡ flags_of expected.side method.response
        → Stands schema expected (tight_message schema number ts head) handles }
{}
