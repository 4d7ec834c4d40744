//! What a message that was checked is to those who read it: its marks hold, and its objects lie within the bytes.
#![tactic(auto)]

ghost use Rattle.std.specs.Prelude.{◌≤◌, ℕ, List};
ghost use Rattle.readable_marks.specs.Readable.{AreReadable};
ghost use Rattle.wire_model.specs.Marks.{Mark};
ghost use Rattle.wire_model.specs.Stands.{IsSettled};

/// The marks of a payload that is settled, and that ends within so many bytes, can be read: each test
/// holds, and each object ends within those bytes. This is a law and does nothing.
pub fn settled_is_readable()
    ensures { (ms : List Mark) (start end handles ids n : ℕ) → IsSettled ms start end handles ids → end ≤ n → AreReadable n ms }
{}
