//! The texts of parts that hold no parts.

ghost use Rattle.std.specs.Prelude.{◌≡◌, ◌++◌, IfOk, OnOk, false};
ghost use Rattle.mj_schema.specs.KindTrees.{KindTree};
ghost use Rattle.value_text.specs.Spelling.{spell};
ghost use Rattle.wire_model.specs.Trees.{view};
ghost use Rattle.wire_view.specs.PartValues.{tree_in};
ghost use Rattle.wire_view.specs.Parts.{is_object};

use mj_schema::{Kind, KindNode, Schema};
use std::alloc::{AllocError, Global};
use value_text::write_value;
use wire_model::Value;
use wire_view::Part;

/// A copy of bytes.
fn copied(alloc: Global, bytes: &[u8]) -> Result<Vec<u8>, AllocError>
    ensures { IfOk result (λ made. made.items ≡ bytes.now) }
{
    let mut made = Vec::with_capacity(alloc, bytes.len())?;
    made.extend_from_slice(bytes)?;
    Ok(made)
}

/// The value of a part that is no object.
#[tactic(auto, using(wire_view::proofs::ObjectFacts::no_leaf))]
fn leaf(alloc: Global, part: &Part<'_>) -> Result<Value, AllocError>
    ensures { IfOk result (λ value. is_object (tree_in part.now) ≡ false → view value ≡ tree_in part.now) }
{
    match part {
        Part::Null => Ok(Value::Null),
        Part::Bool(bool) => Ok(Value::Bool(*bool)),
        Part::Whole(number) => Ok(Value::Whole(*number)),
        Part::Text(text) => Ok(Value::Text(copied(alloc, text.as_bytes())?)),
        Part::Handle(index) => Ok(Value::Handle(*index)),
        Part::Remote { index, version } => Ok(Value::Remote {
            index: *index,
            version: *version,
        }),
        Part::Endpoint(index) => Ok(Value::Endpoint(*index)),
        Part::EndpointRemote { index, version } => Ok(Value::EndpointRemote {
            index: *index,
            version: *version,
        }),
        Part::Object(_) => Ok(Value::Null),
    }
}

/// Adds bytes.
fn push_all(out: &mut Vec<u8>, bytes: &[u8]) -> Result<(), AllocError>
    ensures { OnOk result (out.new.items ≡ out.old.items ++ bytes.now) }
{
    out.extend_from_slice(bytes)
}

/// Adds the text of a part that is no object, which is the same whatever its kind.
pub fn push_leaf(
    part: &Part<'_>,
    alloc: Global,
    schema: &Schema,
    out: &mut Vec<u8>,
) -> Result<(), AllocError>
    requires { is_object (tree_in part.now) ≡ false }
    ensures { OnOk result ((k : KindTree) → out.new.items ≡ out.old.items ++ spell schema.now k (tree_in part.now)) }
{
    let value = leaf(alloc, part)?;
    let kind = Kind::new(KindNode::Bool { nullable: false });
    let text = write_value(alloc, schema, &kind, &value)?;
    push_all(out, text.as_slice())
}
