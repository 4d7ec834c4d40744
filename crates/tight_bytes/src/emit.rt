//! The bytes of a value, object by object, in one pass.

ghost use Rattle.std.specs.Prelude.{◌≡◌, ◌+◌, ◌-◌, ◌*◌, ◌<◌, ◌≤◌, ◌^◌, ◌++◌, length, map, take, drop, IfOk, OnOk, None, true, false};
ghost use Rattle.mj_base.specs.Bytes.{bytes32, bytes64, rounded8};
ghost use Rattle.mj_schema.specs.KindTrees.{kind_view, ArrayKind, StructKind, TextKind};
ghost use Rattle.mj_schema.specs.Parts.{flag_place};
ghost use Rattle.mj_schema.specs.Sizes.{size_of};
ghost use Rattle.wire_model.specs.Bytes.{write};
ghost use Rattle.wire_model.specs.Cells.{put, put_cell, put_present, zeros, UNION_BYTES};
ghost use Rattle.wire_model.specs.Emit.{emit, body_of, behind, object, text_object};
ghost use Rattle.wire_model.specs.Slots.{element_slots, field_slot};
ghost use Rattle.wire_model.specs.Trees.{view, trees, Fields, Items, Member};
ghost use Rattle.tight_bytes.specs.steps.Flat.{is_flat};
ghost use Rattle.tight_bytes.specs.steps.Within.{AreWithin, FlagIn, shifted};

use crate::bytes::{le64, low32_pair, put_bytes};
use crate::put::{UNION_BYTES, is_value, put, put_bit, put_cell};
use crate::rows::{good_struct, member_kind, newest_size, newest_version};
use mj_schema::{FieldRow, Flag, KindNode, Schema};
use schema_rows::size_of;
use std::alloc::AllocError;
use wire_model::Value;

/// More bytes than any vector has.
const NO_ROOM: u128 = 1 << 60;

/// Zeros at the end.
fn push_zeros(count: usize, out: &mut Vec<u8>) -> Result<(), AllocError>
    requires { count ≤ 2 ^ 60 }
    ensures { OnOk result (out.new.items ≡ out.old.items ++ zeros count) }
{
    let end = out.len();
    out.resize(end + count, 0)
}

/// The two numbers of an object and the zeros of its slots at the end; where the zeros begin.
fn begin_object(
    first: u128,
    second: u128,
    size: usize,
    out: &mut Vec<u8>,
) -> Result<usize, AllocError>
    requires { size ≤ 2 ^ 60 }
    ensures items { OnOk result (out.new.items ≡ out.old.items ++ (bytes32 first ++ (bytes32 second ++ zeros size))) }
    ensures base { IfOk result (λ base. base ≡ length out.old.items + 8) }
    ensures room { IfOk result (λ base. length out.new.items ≡ base + size) }
{
    out.extend_from_slice(&low32_pair(first, second))?;
    let base = out.len();
    push_zeros(size, out)?;
    Ok(base)
}

/// A pointer to what will stand at the end.
fn put_distance(place: usize, out: &mut Vec<u8>)
    requires { place + 8 ≤ length out.old.items }
    ensures { out.new.items ≡ write out.old.items place (bytes64 (length out.old.items - place)) }
{
    let distance = (out.len() - place) as u64;
    put_bytes(out, place, &le64(distance));
}

/// What stands behind a slot, at the end: the first object and all behind it. `inline` says that the
/// slot has a union itself.
#[cycle(emit)]
#[tactic(auto, unfolding(wire_model::specs::Emit::emit))]
pub fn emit_value(
    value: &Value,
    kind: &KindNode,
    inline: bool,
    schema: &Schema,
    out: &mut Vec<u8>,
) -> Result<(), AllocError>
    ensures { OnOk result (out.new.items ≡ out.old.items ++ emit schema.now inline (kind_view kind.now) (view value.now)) }
{
    match value {
        Value::Text(text) => match kind {
            KindNode::Text { .. } => emit_text(text, out),
            _ => Ok(()),
        },
        Value::List(items) => match kind {
            KindNode::Array { of, .. } => emit_array(items, of, schema, out),
            _ => Ok(()),
        },
        Value::Map { keys, values } => match kind {
            KindNode::Map { key, value, .. } => {
                let base = begin_object(24, 0, 16, out)?;
                emit_list(keys, key, base, schema, out)?;
                emit_list(values, value, base + 8, schema, out)
            }
            _ => Ok(()),
        },
        Value::Struct(fields) => match kind {
            KindNode::Struct { number, .. } => emit_struct(fields, *number, schema, out),
            _ => Ok(()),
        },
        Value::Union { tag, value: member } => {
            emit_member(member, *tag, kind, inline, schema, out)
        }
        Value::Bool(_)
        | Value::Whole(_)
        | Value::Unknown(_)
        | Value::Handle(_)
        | Value::Remote { .. }
        | Value::Endpoint(_)
        | Value::EndpointRemote { .. }
        | Value::Null => Ok(()),
    }
}

/// A value in its slot; the next object will lie at the end.
fn put_slot(
    value: &Value,
    kind: &KindNode,
    base: usize,
    place: u64,
    schema: &Schema,
    out: &mut Vec<u8>,
)
    requires { 8 * base + place + size_of (kind_view kind.now) ≤ 8 * length out.old.items }
    ensures { out.new.items ≡ put schema.now (8 * base + place) (kind_view kind.now) (view value.now) out.old.items (length out.old.items) }
{
    let at = out.len();
    put(
        value,
        kind,
        base + (place / 8) as usize,
        (place % 8) as u32,
        at,
        schema,
        out,
    );
}

/// A value in its slot, and at the end what it points to.
#[cycle(emit)]
fn emit_slot(
    value: &Value,
    kind: &KindNode,
    base: usize,
    place: u64,
    schema: &Schema,
    out: &mut Vec<u8>,
) -> Result<(), AllocError>
    requires { 8 * base + place + size_of (kind_view kind.now) ≤ 8 * length out.old.items }
    ensures { OnOk result (out.new.items
        ≡ put schema.now (8 * base + place) (kind_view kind.now) (view value.now) out.old.items (length out.old.items)
        ++ emit schema.now true (kind_view kind.now) (view value.now)) }
{
    put_slot(value, kind, base, place, schema, out);
    if is_flat(value) {
        return Ok(());
    }
    emit_value(value, kind, true, schema, out)
}

/// Whether nothing stands behind a value.
fn is_flat(value: &Value) -> bool
    ensures { result ≡ is_flat (view value.now) }
{
    match value {
        Value::Text(_)
        | Value::List(_)
        | Value::Map { .. }
        | Value::Struct(_)
        | Value::Union { .. } => false,
        _ => true,
    }
}

/// Sets the flag of a field, where it has one and there is a value.
fn mark_present(value: &Value, flag: Option<Flag>, base: usize, out: &mut Vec<u8>)
    requires { FlagIn (shifted (8 * base) (flag_place flag)) (length out.old.items) }
    ensures { out.new.items ≡ put_present (shifted (8 * base) (flag_place flag)) (view value.now) out.old.items }
{
    if let Some(flag) = flag {
        let place = 8 * flag.offset as u64 + flag.bit as u64;
        let at = base + (place / 8) as usize;
        put_bit(is_value(value), at, (place % 8) as u32, out);
    }
}

/// A text.
fn emit_text(text: &[u8], out: &mut Vec<u8>) -> Result<(), AllocError>
    ensures { OnOk result (out.new.items ≡ out.old.items ++ text_object (TextKind false) text.now) }
{
    begin_text(text, out)?;
    push_zeros(7 - (text.len() + 7) % 8, out)
}

/// A text without the zeros behind it.
fn begin_text(text: &[u8], out: &mut Vec<u8>) -> Result<(), AllocError>
    ensures { OnOk result (out.new.items ≡ ((out.old.items ++ (bytes32 (8 + length text.now) ++ bytes32 (length text.now))) ++ text.now)) }
{
    let count = text.len() as u128;
    out.extend_from_slice(&low32_pair(8 + count, count))?;
    out.extend_from_slice(text)
}

/// What a union holds: in an object of its own with its tag, or where the slot has them, what stands
/// behind it alone.
#[cycle(emit)]
fn emit_member(
    member: &Value,
    tag: u32,
    kind: &KindNode,
    inline: bool,
    schema: &Schema,
    out: &mut Vec<u8>,
) -> Result<(), AllocError>
    ensures { OnOk result (out.new.items ≡ out.old.items ++ emit schema.now inline (kind_view kind.now) (Member tag (view member.now))) }
{
    let Some(kind) = member_kind(schema, kind, tag) else {
        return Ok(());
    };
    if inline {
        return emit_value(member, kind.node(), false, schema, out);
    }
    emit_pointed(member, tag, kind.node(), schema, out)
}

/// What a union holds, in its slot; the next object will lie at the end.
fn put_held(member: &Value, kind: &KindNode, base: usize, out: &mut Vec<u8>)
    requires { base + 8 ≤ length out.old.items }
    ensures { out.new.items ≡ put_cell (8 * base + 0) (kind_view kind.now) (view member.now) out.old.items (length out.old.items) }
{
    let at = out.len();
    put_cell(member, kind, base, 0, at, out);
}

/// What a union holds in an object of its own, and all behind it.
#[cycle(emit)]
fn emit_pointed(
    member: &Value,
    tag: u32,
    kind: &KindNode,
    schema: &Schema,
    out: &mut Vec<u8>,
) -> Result<(), AllocError>
    ensures { OnOk result (out.new.items ≡ out.old.items
        ++ object UNION_BYTES tag (put_cell 0 (kind_view kind.now) (view member.now) (zeros 8) 8)
        (emit schema.now false (kind_view kind.now) (view member.now))) }
{
    let base = begin_object(UNION_BYTES as u128, tag as u128, 8, out)?;
    put_held(member, kind, base, out);
    emit_value(member, kind, false, schema, out)
}

/// A list of a map: a pointer in its slot, and the array at the end.
#[cycle(emit)]
fn emit_list(
    items: &[Value],
    of: &KindNode,
    place: usize,
    schema: &Schema,
    out: &mut Vec<u8>,
) -> Result<(), AllocError>
    requires { place + 8 ≤ length out.old.items }
    ensures kept { OnOk result (length out.old.items ≤ length out.new.items) }
    ensures items { OnOk result (out.new.items ≡ write out.old.items place (bytes64 (length out.old.items - place))
        ++ emit schema.now true (ArrayKind (kind_view of.now) None false) (Items (trees (map view items.now)))) }
{
    put_distance(place, out);
    emit_array(items, of, schema, out)
}

/// An array, and all behind it.
#[cycle(emit)]
fn emit_array(
    items: &[Value],
    of: &KindNode,
    schema: &Schema,
    out: &mut Vec<u8>,
) -> Result<(), AllocError>
    ensures { OnOk result (out.new.items ≡ out.old.items
        ++ emit schema.now true (ArrayKind (kind_view of.now) None false) (Items (trees (map view items.now)))) }
{
    let count = items.len() as u128;
    let size = size_of(of);
    let bytes = (count * size as u128 + 7) / 8;
    let rounded = (bytes + 7) / 8 * 8;
    if rounded > NO_ROOM {
        return Err(AllocError);
    }
    let base = begin_object(8 + bytes, count, rounded as usize, out)?;
    emit_elements(items, of, base, size, schema, out)
}

/// The elements of an array whose zeros stand at the end.
#[cycle(emit)]
#[tactic(auto, using(crate::proofs::Emitting::element_fits))]
fn emit_elements(
    items: &[Value],
    of: &KindNode,
    base: usize,
    size: u64,
    schema: &Schema,
    out: &mut Vec<u8>,
) -> Result<(), AllocError>
    requires base { base ≤ length out.old.items }
    requires size { size ≡ size_of (kind_view of.now) }
    requires small { length out.old.items - base ≤ 2 ^ 60 }
    requires within { AreWithin (element_slots (kind_view of.now) 0 (length items.now)) (length out.old.items - base) }
    ensures { OnOk result (out.new.items ≡ take base out.old.items
        ++ (body_of schema.now (element_slots (kind_view of.now) 0 (length items.now)) (trees (map view items.now))
        (drop base out.old.items) (length out.old.items - base)
        ++ behind schema.now (element_slots (kind_view of.now) 0 (length items.now)) (trees (map view items.now)))) }
{
    let mut place = 0;
    for (i, item) in items.iter().enumerate() {
        emit_slot(item, of, base, place, schema, out)?;
        place += size;
    }
    Ok(())
}

/// A struct of its newest version, and all behind it.
#[cycle(emit)]
fn emit_struct(
    values: &[Value],
    number: u32,
    schema: &Schema,
    out: &mut Vec<u8>,
) -> Result<(), AllocError>
    ensures { OnOk result (out.new.items ≡ out.old.items ++ emit schema.now true (StructKind number false) (Fields (trees (map view values.now)))) }
{
    let Some(row) = good_struct(schema, number) else {
        return Ok(());
    };
    let version = newest_version(row);
    let size = newest_size(row);
    let base = begin_object(size as u128, version as u128, size as usize - 8, out)?;
    emit_fields(values, row.fields.as_slice(), base, schema, out)
}

/// The fields of a struct whose zeros stand at the end.
#[cycle(emit)]
#[tactic(auto, using(crate::proofs::Emitting::field_fits_marked, crate::proofs::Emitting::flag_fits))]
fn emit_fields(
    values: &[Value],
    fields: &[FieldRow],
    base: usize,
    schema: &Schema,
    out: &mut Vec<u8>,
) -> Result<(), AllocError>
    requires base { base ≤ length out.old.items }
    requires within { AreWithin (map field_slot fields.now) (length out.old.items - base) }
    ensures { OnOk result (out.new.items ≡ take base out.old.items
        ++ (body_of schema.now (map field_slot fields.now) (trees (map view values.now))
        (drop base out.old.items) (length out.old.items - base)
        ++ behind schema.now (map field_slot fields.now) (trees (map view values.now)))) }
{
    for (i, value) in values.iter().enumerate() {
        if i < fields.len() {
            let field = &fields[i];
            mark_present(value, field.flag, base, out);
            let place = 8 * field.offset as u64 + field.bit as u64;
            emit_slot(value, field.kind.node(), base, place, schema, out)?;
        }
    }
    Ok(())
}
