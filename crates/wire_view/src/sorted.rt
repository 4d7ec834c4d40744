//! Views of structs and of arrays, where what they are of is to be one.

ghost use Rattle.std.specs.Prelude.{◌≡◌, ◌+◌, ◌<◌, ◌≤◌, length, Some, option_and_then};
ghost use Rattle.std.specs.Option.{option_map};
ghost use Rattle.mj_schema.specs.KindTrees.{kind_view};
ghost use Rattle.mj_schema.specs.Versions.{bytes_of};
ghost use Rattle.wire_model.specs.Marks.{visit, slot_marks};
ghost use Rattle.wire_model.specs.Values.{value, slot_value};
ghost use Rattle.readable_marks.specs.Readable.{AreReadable};
ghost use Rattle.wire_view.specs.Parts.{held, is_array, is_struct, of_kind};
ghost use Rattle.wire_view.specs.SortedViews.{only, array_itself, array_seen, struct_itself, struct_seen};

use crate::array_view::ArrayView;
use crate::cells::slot_at;
use crate::places::{is_array, is_struct};
use crate::struct_view::StructView;
use crate::view::View;
use mj_schema::{KindNode, Schema};

/// The view that was found, if it is of a struct.
#[inline(always)]
fn struct_of<'a>(found: Option<View<'a>>) -> Option<StructView<'a>>
    ensures { option_map struct_itself result ≡ option_and_then (only is_struct) found.entry }
{
    match found {
        Some(view) => StructView::from_view(&view),
        None => None,
    }
}

/// The view of a struct in a slot; none where it is null or of another kind.
#[inline(always)]
pub fn struct_in<'a>(
    schema: &'a Schema,
    bytes: &'a [u8],
    at: u64,
    bit: u32,
    kind: &'a KindNode,
    left: u32,
) -> Option<StructView<'a>>
    requires bit { bit < 8 }
    requires within { at + bytes_of (kind_view kind.now) ≤ length bytes.now }
    requires readable { AreReadable (length bytes.now) (slot_marks (visit left schema.now bytes.now) schema.now bytes.now at (kind_view kind.now)) }
    ensures { option_map struct_seen result ≡ option_and_then held (of_kind is_struct (Some (kind_view kind.now))
        (Some (slot_value (value left schema.now bytes.now) schema.now bytes.now at bit (kind_view kind.now)))) }
{
    if is_struct(kind) {
        struct_of(slot_at(schema, bytes, at, bit, kind, left).as_object())
    } else {
        None
    }
}

/// The view that was found, if it is of an array.
#[inline(always)]
fn array_of<'a>(found: Option<View<'a>>) -> Option<ArrayView<'a>>
    ensures { option_map array_itself result ≡ option_and_then (only is_array) found.entry }
{
    match found {
        Some(view) => ArrayView::from_view(&view),
        None => None,
    }
}

/// The view of an array in a slot; none where it is null or of another kind.
#[inline(always)]
pub fn array_in<'a>(
    schema: &'a Schema,
    bytes: &'a [u8],
    at: u64,
    bit: u32,
    kind: &'a KindNode,
    left: u32,
) -> Option<ArrayView<'a>>
    requires bit { bit < 8 }
    requires within { at + bytes_of (kind_view kind.now) ≤ length bytes.now }
    requires readable { AreReadable (length bytes.now) (slot_marks (visit left schema.now bytes.now) schema.now bytes.now at (kind_view kind.now)) }
    ensures { option_map array_seen result ≡ option_and_then held (of_kind is_array (Some (kind_view kind.now))
        (Some (slot_value (value left schema.now bytes.now) schema.now bytes.now at bit (kind_view kind.now)))) }
{
    if is_array(kind) {
        array_of(slot_at(schema, bytes, at, bit, kind, left).as_object())
    } else {
        None
    }
}
