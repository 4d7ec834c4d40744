//! Which slots may be null.

ghost use Rattle.std.specs.Prelude.{◌≡◌, ◌||◌, is_some};
ghost use Rattle.mj_schema.specs.KindTrees.{kind_view};
ghost use Rattle.wire_model.specs.Kinded.{is_nullable};

use mj_schema::{FieldRow, KindNode};

/// Whether a value of the kind may be null by itself.
fn is_nullable(kind: &KindNode) -> bool
    ensures { result ≡ is_nullable (kind_view kind.now) }
{
    match kind {
        KindNode::Bool { .. } | KindNode::Int { .. } | KindNode::Enum { .. } => false,
        KindNode::Text { nullable }
        | KindNode::Handle { nullable, .. }
        | KindNode::Array { nullable, .. }
        | KindNode::Map { nullable, .. }
        | KindNode::Struct { nullable, .. }
        | KindNode::Union { nullable, .. }
        | KindNode::Remote { nullable, .. }
        | KindNode::Receiver { nullable, .. }
        | KindNode::AssociatedRemote { nullable, .. }
        | KindNode::AssociatedReceiver { nullable, .. } => *nullable,
    }
}

/// Whether a slot may be null: it has a flag, or its kind may be null by itself.
pub fn may_be_null(flagged: bool, kind: &KindNode) -> bool
    ensures { result ≡ (flagged || is_nullable (kind_view kind.now)) }
{
    flagged || is_nullable(kind)
}

/// Whether the field has a flag.
pub fn has_flag(field: &FieldRow) -> bool
    ensures { result ≡ is_some field.now.flag }
{
    field.flag.is_some()
}
