//! Values that are added behind others, for which there is room.

ghost use Rattle.std.specs.Prelude.{◌≡◌, ◌+◌, ◌<◌, ◌∷◌, ◌++◌, [], List, map, OnOk, vec_len, vec_capacity};
ghost use Rattle.wire_model.specs.Trees.{Fields, Member, Tree, trees, view};

use std::alloc::{AllocError, Global};
use wire_model::Value;

/// Adds a value.
#[inline(always)]
#[tactic(auto, using(crate::proofs::Joining::viewed))]
pub fn add(values: &mut Vec<Value>, value: Value)
    requires room { vec_len values.old < vec_capacity values.old }
    ensures made { map view values.new.items ≡ map view values.old.items ++ view value ∷ [] }
    ensures room { (vec_len values.new ≡ vec_len values.old + 1) × (vec_capacity values.new ≡ vec_capacity values.old) }
{
    values.push_reserved(value);
}

/// Puts the last value into a union, which holds it under this tag.
pub fn put_into_union(alloc: Global, tag: u32, values: &mut Vec<Value>) -> Result<(), AllocError>
    requires some { 0 < vec_len values.old }
    ensures made { OnOk result ((before : List Tree) (held : Tree) → map view values.old.items ≡ before ++ held ∷ []
        → map view values.new.items ≡ before ++ Member tag held ∷ []) }
    ensures room { OnOk result ((vec_len values.new ≡ vec_len values.old) × (vec_capacity values.new ≡ vec_capacity values.old)) }
{
    let Some(held) = values.pop() else {
        unreachable!()
    };
    let value = Box::new(alloc, held)?;
    add(values, union_of(tag, value));
    Ok(())
}

/// The union that holds a value under a tag.
#[inline(always)]
fn union_of(tag: u32, value: Box<Value>) -> Value
    ensures { view result ≡ Member tag (view value.value) }
{
    Value::Union { tag, value }
}

/// The struct of these fields.
#[inline(always)]
pub fn struct_of(fields: Vec<Value>) -> Value
    ensures { view result ≡ Fields (trees (map view fields.items)) }
{
    Value::Struct(fields)
}
