//! What lies in a slot.

ghost use Rattle.std.specs.Prelude.{◌≡◌, ◌+◌, ◌/◌, ◌<◌, ◌≤◌, length, IfSome, Some, None};
ghost use Rattle.std.specs.Option.{option_map};
ghost use Rattle.mj_schema.specs.KindTrees.{kind_view};
ghost use Rattle.mj_schema.specs.Versions.{bytes_of};
ghost use Rattle.wire_model.specs.Marks.{visit, object_marks, slot_marks, cell_marks, pointer_marks};
ghost use Rattle.wire_model.specs.Trees as trees;
ghost use Rattle.wire_model.specs.Values.{value, object_value, slot_value, cell_value, pointer_value, or_null};
ghost use Rattle.wire_model.specs.steps.Cells.{cell_size};
ghost use Rattle.readable_marks.specs.Readable.{AreReadable};
ghost use Rattle.wire_view.specs.PartValues.{tree_in, object_in};
ghost use Rattle.wire_view.specs.Parts.{text_of};
ghost use Rattle.wire_view.specs.Strings.{bytes_in};
ghost use Rattle.wire_view.specs.Views.{IsOf};

use crate::objects::{array_at, inline_at, map_at, string_at, struct_at};
use crate::parts::Part;
use crate::places::is_string;
use crate::texts::Utf8;
use mj_base::{le32, le64};
use mj_schema::{KindNode, Schema};
use wire_model::{NO_INDEX, bit_at, whole_at};

/// A handle or a receiver, or null.
#[inline(always)]
fn handle<'a>(index: u32) -> Part<'a>
    ensures value { tree_in result ≡ or_null index (trees.Handle index) }
    ensures leaf { object_in result ≡ None }
{
    if index == NO_INDEX {
        return Part::Null;
    }
    Part::Handle(index)
}

/// A remote, or null.
#[inline(always)]
fn remote<'a>(index: u32, version: u32) -> Part<'a>
    ensures value { tree_in result ≡ or_null index (trees.Remote index version) }
    ensures leaf { object_in result ≡ None }
{
    if index == NO_INDEX {
        return Part::Null;
    }
    Part::Remote { index, version }
}

/// The receiver of an associated endpoint, or null.
#[inline(always)]
fn endpoint<'a>(index: u32) -> Part<'a>
    ensures value { tree_in result ≡ or_null index (trees.Endpoint index) }
    ensures leaf { object_in result ≡ None }
{
    if index == NO_INDEX {
        return Part::Null;
    }
    Part::Endpoint(index)
}

/// The remote of an associated endpoint, or null.
#[inline(always)]
fn endpoint_remote<'a>(index: u32, version: u32) -> Part<'a>
    ensures value { tree_in result ≡ or_null index (trees.EndpointRemote index version) }
    ensures leaf { object_in result ≡ None }
{
    if index == NO_INDEX {
        return Part::Null;
    }
    Part::EndpointRemote { index, version }
}

/// What stands at a place, where at most `left` more levels of objects may be behind it.
#[tactic(auto, unfolding(wire_model::specs::Values::object_value))]
#[inline(always)]
fn object_at<'a>(
    schema: &'a Schema,
    bytes: &'a [u8],
    at: u64,
    kind: &'a KindNode,
    left: u32,
) -> Part<'a>
    requires { AreReadable (length bytes.now) (object_marks (visit left schema.now bytes.now) schema.now bytes.now at (kind_view kind.now)) }
    ensures value { tree_in result ≡ object_value (value left schema.now bytes.now) schema.now bytes.now at (kind_view kind.now) }
    ensures kind { IfSome (object_in result) (IsOf schema.now (Some (kind_view kind.now))) }
{
    match kind {
        KindNode::Text { .. } => Part::Text(string_at(bytes, at)),
        KindNode::Array { of, .. } => Part::Object(array_at(schema, bytes, at, of, left)),
        KindNode::Map { key, value, .. } => {
            Part::Object(map_at(schema, bytes, at, key, value, left))
        }
        KindNode::Struct { number, .. } => struct_at(schema, bytes, at, *number, left),
        KindNode::Union { number, .. } => inline_at(schema, bytes, at, *number, left),
        _ => Part::Null,
    }
}

/// A slot of a struct or of an array, at a byte and for a bool its bit, which has a union itself.
#[tactic(auto, unfolding(wire_model::specs::Marks::slot_marks, wire_model::specs::Values::slot_value))]
#[inline(always)]
pub fn slot_at<'a>(
    schema: &'a Schema,
    bytes: &'a [u8],
    at: u64,
    bit: u32,
    kind: &'a KindNode,
    left: u32,
) -> Part<'a>
    requires bit { bit < 8 }
    requires within { at + bytes_of (kind_view kind.now) ≤ length bytes.now }
    requires readable { AreReadable (length bytes.now) (slot_marks (visit left schema.now bytes.now) schema.now bytes.now at (kind_view kind.now)) }
    ensures value { tree_in result ≡ slot_value (value left schema.now bytes.now) schema.now bytes.now at bit (kind_view kind.now) }
    ensures kind { IfSome (object_in result) (IsOf schema.now (Some (kind_view kind.now))) }
{
    match kind {
        KindNode::Union { number, .. } => inline_at(schema, bytes, at, *number, left),
        _ => cell_at(schema, bytes, at, bit, kind, left),
    }
}

/// A slot in which a union stands behind a pointer.
#[tactic(auto, unfolding(wire_model::specs::Marks::cell_marks, wire_model::specs::Values::cell_value))]
#[inline(always)]
pub fn cell_at<'a>(
    schema: &'a Schema,
    bytes: &'a [u8],
    at: u64,
    bit: u32,
    kind: &'a KindNode,
    left: u32,
) -> Part<'a>
    requires bit { bit < 8 }
    requires within { at + (cell_size (kind_view kind.now) + 7) / 8 ≤ length bytes.now }
    requires readable { AreReadable (length bytes.now) (cell_marks (visit left schema.now bytes.now) schema.now bytes.now at (kind_view kind.now)) }
    ensures value { tree_in result ≡ cell_value (value left schema.now bytes.now) bytes.now at bit (kind_view kind.now) }
    ensures kind { IfSome (object_in result) (IsOf schema.now (Some (kind_view kind.now))) }
{
    match kind {
        KindNode::Bool { .. } => Part::Bool(bit_at(bytes, at, bit)),
        KindNode::Int { width, signed, .. } => Part::Whole(whole_at(bytes, at, *width, *signed)),
        KindNode::Enum { .. } => Part::Whole(i128::from(le32(bytes, at).cast_signed())),
        KindNode::Handle { .. } | KindNode::Receiver { .. } => handle(le32(bytes, at)),
        KindNode::Remote { .. } => remote(le32(bytes, at), le32(bytes, at + 4)),
        KindNode::AssociatedReceiver { .. } => endpoint(le32(bytes, at)),
        KindNode::AssociatedRemote { .. } => endpoint_remote(le32(bytes, at), le32(bytes, at + 4)),
        KindNode::Text { nullable }
        | KindNode::Array { nullable, .. }
        | KindNode::Map { nullable, .. }
        | KindNode::Struct { nullable, .. }
        | KindNode::Union { nullable, .. } => { behind(schema, bytes, at, kind, *nullable, left) }
    }
}

/// What the pointer at a place leads to, or null.
#[tactic(auto, unfolding(wire_model::specs::Marks::pointer_marks, wire_model::specs::Marks::visit, wire_model::specs::Values::pointer_value))]
#[inline(always)]
fn behind<'a>(
    schema: &'a Schema,
    bytes: &'a [u8],
    at: u64,
    kind: &'a KindNode,
    nullable: bool,
    left: u32,
) -> Part<'a>
    requires within { at + 8 ≤ length bytes.now }
    requires readable { AreReadable (length bytes.now) (pointer_marks (visit left schema.now bytes.now) bytes.now at (kind_view kind.now) nullable) }
    ensures value { tree_in result ≡ pointer_value (value left schema.now bytes.now) bytes.now at (kind_view kind.now) }
    ensures kind { IfSome (object_in result) (IsOf schema.now (Some (kind_view kind.now))) }
{
    let pointer = le64(bytes, at);
    if pointer == 0 && nullable {
        return Part::Null;
    }
    if pointer == 0 || left == 0 {
        unreachable!()
    }
    object_at(schema, bytes, at + pointer, kind, left - 1)
}

/// The string in a slot; none where it is null or no string.
#[inline(always)]
pub fn string_in<'a>(
    schema: &'a Schema,
    bytes: &'a [u8],
    at: u64,
    bit: u32,
    kind: &'a KindNode,
    left: u32,
) -> Option<Utf8<'a>>
    requires bit { bit < 8 }
    requires within { at + bytes_of (kind_view kind.now) ≤ length bytes.now }
    requires readable { AreReadable (length bytes.now) (slot_marks (visit left schema.now bytes.now) schema.now bytes.now at (kind_view kind.now)) }
    ensures { option_map bytes_in result ≡ text_of (slot_value (value left schema.now bytes.now) schema.now bytes.now at bit (kind_view kind.now)) }
{
    if is_string(kind) {
        slot_at(schema, bytes, at, bit, kind, left).as_string()
    } else {
        None
    }
}
