//! Views of the objects at a place.

ghost use Rattle.std.specs.Prelude.{◌≡◌, ◌+◌, ◌≤◌, length, take, drop, slice_get, IfSome, Some, None, false};
ghost use Rattle.mj_base.specs.Bytes.{number32};
ghost use Rattle.mj_schema.specs.KindTrees.{kind_view, ArrayKind, MapKind, StructKind, UnionKind};
ghost use Rattle.wire_model.specs.Marks.{visit, object_marks, pointer_marks, found_union_marks};
ghost use Rattle.wire_model.specs.Texts.{valid_len};
ghost use Rattle.wire_model.specs.Values.{value, object_value, pointer_value, union_value, found_union_value};
ghost use Rattle.readable_marks.specs.Readable.{AreReadable};
ghost use Rattle.wire_view.specs.PartValues.{tree_in, object_in};
ghost use Rattle.wire_view.specs.Views.{tree_of, IsOf};

use crate::on::On;
use crate::parts::Part;
use crate::texts::Utf8;
use crate::view::View;
use mj_base::{le32, le64};
use mj_schema::{KindNode, Schema};
use schema_rows::{find_struct, find_union};

/// The string at a place.
#[inline(always)]
pub fn string_at(bytes: &[u8], at: u64) -> Utf8<'_>
    requires within { at + 8 + number32 bytes.now (at + 4) ≤ length bytes.now }
    requires valid { valid_len (take (number32 bytes.now (at + 4)) (drop (at + 8) bytes.now)) ≡ length
        (take (number32 bytes.now (at + 4)) (drop (at + 8) bytes.now)) }
    ensures { result.bytes.now ≡ take (number32 bytes.now (at + 4)) (drop (at + 8) bytes.now) }
{
    let count = le32(bytes, at + 4) as usize;
    let start = at as usize + 8;
    Utf8::new(&bytes[start..start + count])
}

/// The array of elements of a kind at a place.
#[inline(always)]
pub fn array_at<'a>(
    schema: &'a Schema,
    bytes: &'a [u8],
    at: u64,
    of: &'a KindNode,
    left: u32,
) -> View<'a>
    requires { AreReadable (length bytes.now) (object_marks (visit left schema.now bytes.now) schema.now bytes.now at
        (ArrayKind (kind_view of.now) None false)) }
    ensures value { tree_of result ≡ object_value (value left schema.now bytes.now) schema.now bytes.now at (ArrayKind (kind_view of.now) None false) }
    ensures kind { IsOf schema.now (Some (ArrayKind (kind_view of.now) None false)) result }
{
    View::standing(schema, bytes, at, left, On::Array(of), &[], 0)
}

/// The map at a place.
#[inline(always)]
pub fn map_at<'a>(
    schema: &'a Schema,
    bytes: &'a [u8],
    at: u64,
    key: &'a KindNode,
    one: &'a KindNode,
    left: u32,
) -> View<'a>
    requires { AreReadable (length bytes.now) (object_marks (visit left schema.now bytes.now) schema.now bytes.now at
        (MapKind (kind_view key.now) (kind_view one.now) false)) }
    ensures value { tree_of result ≡ object_value (value left schema.now bytes.now) schema.now bytes.now at
        (MapKind (kind_view key.now) (kind_view one.now) false) }
    ensures kind { IsOf schema.now (Some (MapKind (kind_view key.now) (kind_view one.now) false)) result }
{
    View::standing(schema, bytes, at, left, On::Map(key, one), &[], 0)
}

/// The struct of a number at a place; null where the schema has none.
#[inline(always)]
pub fn struct_at<'a>(
    schema: &'a Schema,
    bytes: &'a [u8],
    at: u64,
    number: u32,
    left: u32,
) -> Part<'a>
    requires { AreReadable (length bytes.now) (object_marks (visit left schema.now bytes.now) schema.now bytes.now at (StructKind number false)) }
    ensures value { tree_in result ≡ object_value (value left schema.now bytes.now) schema.now bytes.now at (StructKind number false) }
    ensures kind { IfSome (object_in result) (IsOf schema.now (Some (StructKind number false))) }
{
    match find_struct(schema, number) {
        Some(row) => Part::Object(View::of_struct(schema, bytes, at, left, number, row)),
        None => Part::Null,
    }
}

/// The union of a number at a place, where it isn't null; null where the schema has none.
#[inline(always)]
fn union_at<'a>(schema: &'a Schema, bytes: &'a [u8], at: u64, number: u32, left: u32) -> Part<'a>
    requires within { at + 16 ≤ length bytes.now }
    requires some { number32 bytes.now at ≡ 0 → ⊥ }
    requires readable { AreReadable (length bytes.now)
        (found_union_marks (visit left schema.now bytes.now) schema.now bytes.now at (slice_get schema.now.unions number)) }
    ensures value { tree_in result ≡ found_union_value (value left schema.now bytes.now) bytes.now at (slice_get schema.now.unions number) }
    ensures kind { IfSome (object_in result) (IsOf schema.now (Some (UnionKind number false))) }
{
    match find_union(schema, number) {
        Some(_) => Part::Object(View::standing(schema, bytes, at, left, On::Union(number), &[], 0)),
        None => Part::Null,
    }
}

/// The union of a number at a place, where size 0 is null.
#[inline(always)]
pub fn inline_at<'a>(
    schema: &'a Schema,
    bytes: &'a [u8],
    at: u64,
    number: u32,
    left: u32,
) -> Part<'a>
    requires within { at + 16 ≤ length bytes.now }
    requires readable { (number32 bytes.now at ≡ 0 → ⊥) → AreReadable (length bytes.now)
        (found_union_marks (visit left schema.now bytes.now) schema.now bytes.now at (slice_get schema.now.unions number)) }
    ensures value { tree_in result ≡ union_value (value left schema.now bytes.now) schema.now bytes.now at number }
    ensures kind { IfSome (object_in result) (IsOf schema.now (Some (UnionKind number false))) }
{
    if le32(bytes, at) == 0 {
        return Part::Null;
    }
    union_at(schema, bytes, at, number, left)
}

/// One of the two lists of a map, to which the pointer at a place leads.
#[tactic(auto, unfolding(wire_model::specs::Marks::pointer_marks, wire_model::specs::Marks::visit))]
#[inline(always)]
pub fn list_at<'a>(
    schema: &'a Schema,
    bytes: &'a [u8],
    at: u64,
    of: &'a KindNode,
    left: u32,
) -> View<'a>
    requires within { at + 8 ≤ length bytes.now }
    requires readable { AreReadable (length bytes.now)
        (pointer_marks (visit left schema.now bytes.now) bytes.now at (ArrayKind (kind_view of.now) None false) false) }
    ensures value { tree_of result ≡ pointer_value (value left schema.now bytes.now) bytes.now at (ArrayKind (kind_view of.now) None false) }
    ensures kind { IsOf schema.now (Some (ArrayKind (kind_view of.now) None false)) result }
{
    let pointer = le64(bytes, at);
    if pointer == 0 || left == 0 {
        unreachable!()
    }
    array_at(schema, bytes, at + pointer, of, left - 1)
}
