//! The walk through a message that was checked, which makes its value. Each value is added where it is
//! to lie, behind those before it, so that none is carried from call to call.

ghost use Rattle.std.specs.Prelude.{◌≡◌, ◌+◌, ◌*◌, ◌/◌, ◌<◌, ◌≤◌, ◌∷◌, ◌++◌, [], length, map, take, drop, slice_get, false, true};
ghost use Rattle.std.specs.Prelude.{All, IfOk, OnOk, IsTrue, None, ℕ, vec_len, vec_capacity};
ghost use Rattle.mj_base.specs.Bytes.{number32};
ghost use Rattle.mj_schema.specs.KindTrees.{kind_view, ArrayKind};
ghost use Rattle.mj_schema.specs.Sizes.{size_of};
ghost use Rattle.mj_schema.specs.Versions.{bytes_of, is_table};
ghost use Rattle.wire_model.specs.Marks.{visit, object_marks, struct_marks, map_marks, content_marks, slots_marks, slot_marks};
ghost use Rattle.wire_model.specs.Marks.{cell_marks, found_union_marks, pointer_marks};
ghost use Rattle.wire_model.specs.Readable.{IsReadableRow};
ghost use Rattle.wire_model.specs.Slots.{element_bytes, element_slots, field_slot};
ghost use Rattle.wire_model.specs.steps.Cells.{cell_size};
ghost use Rattle.wire_model.specs.Trees.{Trees, view, trees, Fields, Items, none};
ghost use Rattle.wire_model.specs.Values.{value, object_value, struct_value, slots_value, slot_value, cell_value, found_union_value, pointer_value};
ghost use Rattle.wire_model.specs.Tight.{marks_of, value_of};
ghost use Rattle.wire_decoder.specs.steps.Joined.{joined};
ghost use Rattle.readable_marks.specs.Readable.{AreReadable};
ghost use Rattle.readable_marks.specs.steps.Rooms.{EndsIn, field_marks, field_value};

use crate::absent::{add_absent, copied};
use crate::adding::{add, put_into_union, struct_of};
use crate::scalars::{endpoint, endpoint_remote, handle, remote};
use mj_base::limits::MAX_DEPTH;
use mj_base::{le32, le64};
use mj_schema::{FieldRow, KindNode, Schema, StructRow};
use schema_rows::{absent, find_struct, find_union, has_value, kind_in, present, size_of};
use std::alloc::{AllocError, Global};
use wire_model::{Value, bit_at, whole_at};

/// Adds what stands at a place, where at most `left` more levels of objects may be behind it.
#[cycle(decode)]
#[tactic(auto, unfolding(wire_model::specs::Marks::object_marks, wire_model::specs::Values::object_value))]
fn decode_object(
    alloc: Global,
    schema: &Schema,
    bytes: &[u8],
    at: u64,
    kind: &KindNode,
    left: u32,
    values: &mut Vec<Value>,
) -> Result<(), AllocError>
    requires readable { AreReadable (length bytes.now) (object_marks (visit left schema.now bytes.now) schema.now bytes.now at (kind_view kind.now)) }
    requires room { vec_len values.old < vec_capacity values.old }
    ensures made { OnOk result (map view values.new.items ≡ map view values.old.items
        ++ object_value (value left schema.now bytes.now) schema.now bytes.now at (kind_view kind.now) ∷ []) }
    ensures room { OnOk result ((vec_len values.new ≡ vec_len values.old + 1) × (vec_capacity values.new ≡ vec_capacity values.old)) }
{
    match kind {
        KindNode::Text { .. } => {
            let text = decode_text(alloc, bytes, at)?;
            add(values, Value::Text(text));
            Ok(())
        }
        KindNode::Array { of, .. } => {
            let elements = decode_array(alloc, schema, bytes, at, of, left)?;
            add(values, Value::List(elements));
            Ok(())
        }
        KindNode::Map { key, value, .. } => {
            let keys = decode_list(alloc, schema, bytes, at + 8, key, left)?;
            let held = decode_list(alloc, schema, bytes, at + 16, value, left)?;
            add(values, Value::Map { keys, values: held });
            Ok(())
        }
        KindNode::Struct { number, .. } => match find_struct(schema, *number) {
            Some(row) => {
                let fields = decode_struct(alloc, schema, bytes, at, row, left)?;
                add(values, struct_of(fields));
                Ok(())
            }
            None => {
                add(values, Value::Null);
                Ok(())
            }
        },
        KindNode::Union { .. } => decode_slot(alloc, schema, bytes, at, 0, kind, left, values),
        _ => {
            add(values, Value::Null);
            Ok(())
        }
    }
}

/// The bytes of a string.
#[inline(always)]
fn decode_text(alloc: Global, bytes: &[u8], at: u64) -> Result<Vec<u8>, AllocError>
    requires within { at + 8 + number32 bytes.now (at + 4) ≤ length bytes.now }
    ensures { IfOk result (λ text. text.items ≡ take (number32 bytes.now (at + 4)) (drop (at + 8) bytes.now)) }
{
    let count = le32(bytes, at + 4) as usize;
    let start = at as usize + 8;
    copied(alloc, &bytes[start..start + count])
}

/// The elements of an array.
#[inline(always)]
#[cycle(decode)]
fn decode_array(
    alloc: Global,
    schema: &Schema,
    bytes: &[u8],
    at: u64,
    of: &KindNode,
    left: u32,
) -> Result<Vec<Value>, AllocError>
    requires within { at + 8 + element_bytes (kind_view of.now) (number32 bytes.now (at + 4)) ≤ length bytes.now }
    requires readable { AreReadable (length bytes.now)
        (content_marks (visit left schema.now bytes.now) schema.now bytes.now (at + 8) (kind_view of.now) (number32 bytes.now (at + 4))) }
    ensures { IfOk result (λ made. trees (map view made.items) ≡
        slots_value (value left schema.now bytes.now) schema.now bytes.now (at + 8) (element_slots (kind_view of.now) 0 (number32 bytes.now (at + 4))) none) }
{
    let count = le32(bytes, at + 4);
    let mut elements = Vec::with_capacity(alloc, count as usize)?;
    decode_elements(alloc, schema, bytes, at + 8, of, count, left, &mut elements)?;
    Ok(elements)
}

/// Adds so many elements from a place on.
#[cycle(decode)]
fn decode_elements(
    alloc: Global,
    schema: &Schema,
    bytes: &[u8],
    base: u64,
    of: &KindNode,
    count: u32,
    left: u32,
    values: &mut Vec<Value>,
) -> Result<(), AllocError>
    requires within { base + element_bytes (kind_view of.now) count ≤ length bytes.now }
    requires readable { AreReadable (length bytes.now)
        (slots_marks (visit left schema.now bytes.now) schema.now bytes.now base (element_slots (kind_view of.now) 0 count)) }
    requires room { vec_len values.old + count ≤ vec_capacity values.old }
    ensures { OnOk result (joined (map view values.new.items) none ≡ joined (map view values.old.items)
        (slots_value (value left schema.now bytes.now) schema.now bytes.now base (element_slots (kind_view of.now) 0 count) none)) }
{
    let size = size_of(of);
    let mut place = 0;
    for _ in 0..count {
        let at = base + place / 8;
        let bit = (place % 8) as u32;
        decode_slot(alloc, schema, bytes, at, bit, of, left, values)?;
        place += size;
    }
    Ok(())
}

/// The elements of one of the two lists of a map, to which the pointer at a place leads.
#[cycle(decode)]
#[tactic(auto, unfolding(wire_model::specs::Marks::pointer_marks, wire_model::specs::Marks::visit))]
fn decode_list(
    alloc: Global,
    schema: &Schema,
    bytes: &[u8],
    at: u64,
    of: &KindNode,
    left: u32,
) -> Result<Vec<Value>, AllocError>
    requires within { at + 8 ≤ length bytes.now }
    requires readable { AreReadable (length bytes.now)
        (pointer_marks (visit left schema.now bytes.now) bytes.now at (ArrayKind (kind_view of.now) None false) false) }
    ensures { IfOk result (λ made. Items (trees (map view made.items)) ≡
        pointer_value (value left schema.now bytes.now) bytes.now at (ArrayKind (kind_view of.now) None false)) }
{
    let pointer = le64(bytes, at);
    if pointer == 0 || left == 0 {
        unreachable!()
    }
    let elements = decode_array(alloc, schema, bytes, at + pointer, of, left - 1)?;
    Ok(elements)
}

/// The fields of a struct: those of its version, and what the others read as. They are allocated once.
#[inline(always)]
#[cycle(decode)]
fn decode_struct(
    alloc: Global,
    schema: &Schema,
    bytes: &[u8],
    at: u64,
    row: &StructRow,
    left: u32,
) -> Result<Vec<Value>, AllocError>
    requires row { IsReadableRow row.now }
    requires rising { IsTrue (is_table row.now.versions) }
    requires readable { AreReadable (length bytes.now) (struct_marks (visit left schema.now bytes.now) schema.now bytes.now at row.now) }
    ensures { IfOk result (λ made. Fields (trees (map view made.items)) ≡
        struct_value (value left schema.now bytes.now) schema.now bytes.now at row.now (number32 bytes.now (at + 4))) }
{
    let version = le32(bytes, at + 4);
    let known = present(row, version);
    let mut fields = Vec::with_capacity(alloc, row.fields.len())?;
    decode_fields(alloc, schema, bytes, at + 8, known, left, &mut fields)?;
    add_absent(alloc, schema, &mut fields, absent(row, version))?;
    Ok(fields)
}

/// Adds the fields of a struct that its version has.
#[cycle(decode)]
fn decode_fields(
    alloc: Global,
    schema: &Schema,
    bytes: &[u8],
    base: u64,
    fields: &[FieldRow],
    left: u32,
    values: &mut Vec<Value>,
) -> Result<(), AllocError>
    requires within { All (EndsIn base (length bytes.now)) fields.now }
    requires readable { AreReadable (length bytes.now) (slots_marks (visit left schema.now bytes.now) schema.now bytes.now base (map field_slot fields.now)) }
    requires room { vec_len values.old + length fields.now ≤ vec_capacity values.old }
    ensures { OnOk result ((rest : Trees) → joined (map view values.new.items) rest ≡ joined (map view values.old.items)
        (slots_value (value left schema.now bytes.now) schema.now bytes.now base (map field_slot fields.now) rest)) }
{
    for field in fields {
        decode_field(alloc, schema, bytes, base, field, left, values)?;
    }
    Ok(())
}

/// Adds a field of a struct whose two numbers end at `base`. Where its flag is 0 it is null.
#[inline(always)]
#[cycle(decode)]
fn decode_field(
    alloc: Global,
    schema: &Schema,
    bytes: &[u8],
    base: u64,
    field: &FieldRow,
    left: u32,
    values: &mut Vec<Value>,
) -> Result<(), AllocError>
    requires within { EndsIn base (length bytes.now) field.now }
    requires readable { AreReadable (length bytes.now) (field_marks (visit left schema.now bytes.now) schema.now bytes.now base field.now) }
    requires room { vec_len values.old < vec_capacity values.old }
    ensures made { OnOk result (map view values.new.items ≡ map view values.old.items
        ++ field_value (value left schema.now bytes.now) schema.now bytes.now base field.now ∷ []) }
    ensures room { OnOk result ((vec_len values.new ≡ vec_len values.old + 1) × (vec_capacity values.new ≡ vec_capacity values.old)) }
{
    if !has_value(bytes, base, field.flag) {
        add(values, Value::Null);
        return Ok(());
    }
    let at = base + u64::from(field.offset);
    decode_slot(
        alloc,
        schema,
        bytes,
        at,
        field.bit,
        field.kind.node(),
        left,
        values,
    )
}

/// Adds a slot of a struct or of an array, at a byte and for a bool its bit, which has a union itself.
#[inline(always)]
#[cycle(decode)]
#[tactic(auto, unfolding(wire_model::specs::Marks::slot_marks, wire_model::specs::Values::slot_value, wire_model::specs::Values::union_value))]
fn decode_slot(
    alloc: Global,
    schema: &Schema,
    bytes: &[u8],
    at: u64,
    bit: u32,
    kind: &KindNode,
    left: u32,
    values: &mut Vec<Value>,
) -> Result<(), AllocError>
    requires bit { bit < 8 }
    requires within { at + bytes_of (kind_view kind.now) ≤ length bytes.now }
    requires readable { AreReadable (length bytes.now) (slot_marks (visit left schema.now bytes.now) schema.now bytes.now at (kind_view kind.now)) }
    requires room { vec_len values.old < vec_capacity values.old }
    ensures made { OnOk result (map view values.new.items ≡ map view values.old.items
        ++ slot_value (value left schema.now bytes.now) schema.now bytes.now at bit (kind_view kind.now) ∷ []) }
    ensures room { OnOk result ((vec_len values.new ≡ vec_len values.old + 1) × (vec_capacity values.new ≡ vec_capacity values.old)) }
{
    match kind {
        KindNode::Union { number, .. } => {
            if le32(bytes, at) == 0 {
                add(values, Value::Null);
                return Ok(());
            }
            decode_member(alloc, schema, bytes, at, *number, left, values)
        }
        _ => decode_cell(alloc, schema, bytes, at, bit, kind, left, values),
    }
}

/// Adds what a union holds under its tag, or a tag that it lacks.
#[cycle(decode)]
fn decode_member(
    alloc: Global,
    schema: &Schema,
    bytes: &[u8],
    at: u64,
    number: u32,
    left: u32,
    values: &mut Vec<Value>,
) -> Result<(), AllocError>
    requires within { at + 16 ≤ length bytes.now }
    requires readable { AreReadable (length bytes.now)
        (found_union_marks (visit left schema.now bytes.now) schema.now bytes.now at (slice_get schema.now.unions number)) }
    requires room { vec_len values.old < vec_capacity values.old }
    ensures made { OnOk result (map view values.new.items ≡ map view values.old.items
        ++ found_union_value (value left schema.now bytes.now) bytes.now at (slice_get schema.now.unions number) ∷ []) }
    ensures room { OnOk result ((vec_len values.new ≡ vec_len values.old + 1) × (vec_capacity values.new ≡ vec_capacity values.old)) }
{
    if find_union(schema, number).is_none() {
        add(values, Value::Null);
        return Ok(());
    }
    let tag = le32(bytes, at + 4);
    match kind_in(schema, number, tag) {
        Some(kind) => {
            decode_cell(alloc, schema, bytes, at + 8, 0, kind.node(), left, values)?;
            put_into_union(alloc, tag, values)
        }
        None => {
            add(values, Value::Unknown(tag));
            Ok(())
        }
    }
}

/// Adds a slot in which a union stands behind a pointer.
#[inline(always)]
#[cycle(decode)]
#[tactic(auto, unfolding(wire_model::specs::Marks::cell_marks, wire_model::specs::Values::cell_value))]
fn decode_cell(
    alloc: Global,
    schema: &Schema,
    bytes: &[u8],
    at: u64,
    bit: u32,
    kind: &KindNode,
    left: u32,
    values: &mut Vec<Value>,
) -> Result<(), AllocError>
    requires bit { bit < 8 }
    requires within { at + (cell_size (kind_view kind.now) + 7) / 8 ≤ length bytes.now }
    requires readable { AreReadable (length bytes.now) (cell_marks (visit left schema.now bytes.now) schema.now bytes.now at (kind_view kind.now)) }
    requires room { vec_len values.old < vec_capacity values.old }
    ensures made { OnOk result (map view values.new.items ≡ map view values.old.items
        ++ cell_value (value left schema.now bytes.now) bytes.now at bit (kind_view kind.now) ∷ []) }
    ensures room { OnOk result ((vec_len values.new ≡ vec_len values.old + 1) × (vec_capacity values.new ≡ vec_capacity values.old)) }
{
    match kind {
        KindNode::Bool { .. } => {
            add(values, Value::Bool(bit_at(bytes, at, bit)));
            Ok(())
        }
        KindNode::Int { width, signed, .. } => {
            add(values, Value::Whole(whole_at(bytes, at, *width, *signed)));
            Ok(())
        }
        KindNode::Enum { .. } => {
            add(
                values,
                Value::Whole(i128::from(le32(bytes, at).cast_signed())),
            );
            Ok(())
        }
        KindNode::Handle { .. } | KindNode::Receiver { .. } => {
            add(values, handle(le32(bytes, at)));
            Ok(())
        }
        KindNode::Remote { .. } => {
            add(values, remote(le32(bytes, at), le32(bytes, at + 4)));
            Ok(())
        }
        KindNode::AssociatedReceiver { .. } => {
            add(values, endpoint(le32(bytes, at)));
            Ok(())
        }
        KindNode::AssociatedRemote { .. } => {
            add(
                values,
                endpoint_remote(le32(bytes, at), le32(bytes, at + 4)),
            );
            Ok(())
        }
        KindNode::Text { nullable }
        | KindNode::Array { nullable, .. }
        | KindNode::Map { nullable, .. }
        | KindNode::Struct { nullable, .. }
        | KindNode::Union { nullable, .. } => {
            decode_pointer(alloc, schema, bytes, at, kind, *nullable, left, values)
        }
    }
}

/// Adds what the pointer at a place leads to, or null.
#[inline(always)]
#[cycle(decode)]
#[tactic(auto, unfolding(wire_model::specs::Marks::pointer_marks, wire_model::specs::Marks::visit, wire_model::specs::Values::pointer_value))]
fn decode_pointer(
    alloc: Global,
    schema: &Schema,
    bytes: &[u8],
    at: u64,
    kind: &KindNode,
    nullable: bool,
    left: u32,
    values: &mut Vec<Value>,
) -> Result<(), AllocError>
    requires within { at + 8 ≤ length bytes.now }
    requires readable { AreReadable (length bytes.now) (pointer_marks (visit left schema.now bytes.now) bytes.now at (kind_view kind.now) nullable) }
    requires room { vec_len values.old < vec_capacity values.old }
    ensures made { OnOk result (map view values.new.items ≡ map view values.old.items
        ++ pointer_value (value left schema.now bytes.now) bytes.now at (kind_view kind.now) ∷ []) }
    ensures room { OnOk result ((vec_len values.new ≡ vec_len values.old + 1) × (vec_capacity values.new ≡ vec_capacity values.old)) }
{
    let pointer = le64(bytes, at);
    if pointer == 0 && nullable {
        add(values, Value::Null);
        return Ok(());
    }
    if pointer == 0 || left == 0 {
        unreachable!()
    }
    decode_object(alloc, schema, bytes, at + pointer, kind, left - 1, values)?;
    Ok(())
}

/// The parameters that start at a place.
#[tactic(auto, unfolding(wire_model::specs::Values::value, wire_model::specs::Values::object_value))]
pub fn decode_parameters(
    alloc: Global,
    schema: &Schema,
    bytes: &[u8],
    start: u64,
    number: u32,
) -> Result<Value, AllocError>
    requires readable { AreReadable (length bytes.now) (marks_of schema.now bytes.now start number) }
    ensures { IfOk result (λ made. view made ≡ value_of schema.now bytes.now start number) }
{
    match find_struct(schema, number) {
        Some(row) => {
            let fields = decode_struct(alloc, schema, bytes, start, row, MAX_DEPTH - 1)?;
            Ok(struct_of(fields))
        }
        None => Ok(Value::Null),
    }
}
