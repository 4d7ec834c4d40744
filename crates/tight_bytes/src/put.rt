//! Values in their slots.

ghost use Rattle.std.specs.Prelude.{◌≡◌, ◌+◌, ◌*◌, ◌<◌, ◌≤◌, length, Some};
ghost use Rattle.wire_model.specs.Bytes.{write, with_bit};
ghost use Rattle.mj_schema.specs.Sizes.{size_of, bits_of};
ghost use Rattle.wire_model.specs.Cells.{is_value, put, put_cell, put_flag, put_member, whole_bytes, int_bytes, index_bytes, remote_bytes, pointer_bytes};
ghost use Rattle.wire_model.specs.steps.Cells.{cell_size};
ghost use Rattle.mj_schema.specs.KindTrees.{kind_view};
ghost use Rattle.mj_schema.specs.Parts.{FLAG_KIND};
ghost use Rattle.wire_model.specs.Trees.{view};

use crate::bytes::{le32, le32_pair, le64, low16, low32, low64, put_bytes};
use crate::rows::member_kind;
use mj_schema::{KindNode, Schema, Width};
use wire_model::{NO_INDEX, Value};

/// The size that is written before the tag of a union.
pub(crate) const UNION_BYTES: u32 = 16;

/// Whether there is a value.
#[inline(always)]
pub fn is_value(value: &Value) -> bool
    ensures { result ≡ is_value (view value.now) }
{
    match value {
        Value::Null => false,
        _ => true,
    }
}

/// A byte with one bit set.
fn with_bit(byte: u8, bit: u32) -> u8
    requires { bit < 8 }
    ensures { result ≡ with_bit byte bit }
{
    let one = 1u8 << bit;
    if byte / one % 2 == 0 {
        byte + one
    } else {
        byte
    }
}

/// A bit of a byte, where it is to be set.
pub(crate) fn put_bit(flag: bool, offset: usize, bit: u32, out: &mut [u8])
    requires room { offset < length out.old }
    requires bit { bit < 8 }
    ensures { out.new ≡ put_flag (8 * offset + bit) FLAG_KIND flag out.old }
{
    if flag {
        out[offset] = with_bit(out[offset], bit);
    }
}

/// A bool, which sets its bit where it is true.
fn put_flag(flag: bool, kind: &KindNode, offset: usize, bit: u32, out: &mut [u8])
    requires room { offset < length out.old }
    requires bit { bit < 8 }
    ensures { out.new ≡ put_flag (8 * offset + bit) (kind_view kind.now) flag out.old }
{
    if let KindNode::Bool { .. } = kind {
        put_bit(flag, offset, bit, out);
    }
}

/// A number of a width, by its lowest bits.
fn put_int(bits: u128, width: Width, offset: usize, out: &mut [u8])
    requires { 8 * offset + bits_of width ≤ 8 * length out.old }
    ensures { out.new ≡ write out.old offset (int_bytes width bits) }
{
    match width {
        Width::Bits8 => put_bytes(out, offset, &[(bits % 256) as u8]),
        Width::Bits16 => put_bytes(out, offset, &low16(bits)),
        Width::Bits32 => put_bytes(out, offset, &low32(bits)),
        Width::Bits64 => put_bytes(out, offset, &low64(bits)),
    }
}

/// A number, by its two's complement.
fn put_whole(n: i128, kind: &KindNode, offset: usize, out: &mut [u8])
    requires { 8 * offset + cell_size (kind_view kind.now) ≤ 8 * length out.old }
    ensures { out.new ≡ write out.old offset (whole_bytes (kind_view kind.now) n) }
{
    let bits = n.cast_unsigned();
    match kind {
        KindNode::Int { width, .. } => put_int(bits, *width, offset, out),
        KindNode::Enum { .. } => put_bytes(out, offset, &low32(bits)),
        _ => put_bytes(out, offset, &[]),
    }
}

/// An index.
fn put_index(index: u32, kind: &KindNode, offset: usize, out: &mut [u8])
    requires { 8 * offset + cell_size (kind_view kind.now) ≤ 8 * length out.old }
    ensures { out.new ≡ write out.old offset (index_bytes (kind_view kind.now) index) }
{
    match kind {
        KindNode::Handle { .. }
        | KindNode::Receiver { .. }
        | KindNode::AssociatedReceiver { .. }
        | KindNode::Remote { .. }
        | KindNode::AssociatedRemote { .. } => put_bytes(out, offset, &le32(index)),
        _ => put_bytes(out, offset, &[]),
    }
}

/// An index and a version.
fn put_remote(index: u32, version: u32, kind: &KindNode, offset: usize, out: &mut [u8])
    requires { 8 * offset + cell_size (kind_view kind.now) ≤ 8 * length out.old }
    ensures { out.new ≡ write out.old offset (remote_bytes (kind_view kind.now) index version) }
{
    match kind {
        KindNode::Remote { .. } | KindNode::AssociatedRemote { .. } => {
            put_bytes(out, offset, &le32_pair(index, version))
        }
        _ => put_bytes(out, offset, &[]),
    }
}

/// A pointer to what lies at a distance from it.
fn put_pointer(distance: u64, kind: &KindNode, offset: usize, out: &mut [u8])
    requires { 8 * offset + cell_size (kind_view kind.now) ≤ 8 * length out.old }
    ensures { out.new ≡ write out.old offset (pointer_bytes (kind_view kind.now) distance) }
{
    match kind {
        KindNode::Text { .. }
        | KindNode::Array { .. }
        | KindNode::Map { .. }
        | KindNode::Struct { .. }
        | KindNode::Union { .. } => put_bytes(out, offset, &le64(distance)),
        _ => put_bytes(out, offset, &[]),
    }
}

/// A value that isn't an inline union.
#[tactic(auto, using(crate::proofs::Cells::place_of, crate::proofs::Cells::bit_of))]
pub(crate) fn put_cell(
    value: &Value,
    kind: &KindNode,
    offset: usize,
    bit: u32,
    at: usize,
    out: &mut [u8],
)
    requires room { (8 * offset + bit) + cell_size (kind_view kind.now) ≤ 8 * length out.old }
    requires bit { bit < 8 }
    requires behind { offset ≤ at }
    ensures { out.new ≡ put_cell (8 * offset + bit) (kind_view kind.now) (view value.now) out.old at }
{
    match value {
        Value::Bool(flag) => put_flag(*flag, kind, offset, bit, out),
        Value::Whole(n) => put_whole(*n, kind, offset, out),
        Value::Text(_)
        | Value::List(_)
        | Value::Map { .. }
        | Value::Struct(_)
        | Value::Union { .. } => { put_pointer((at - offset) as u64, kind, offset, out) }
        Value::Unknown(_) => put_bytes(out, offset, &[]),
        Value::Handle(index) | Value::Endpoint(index) => put_index(*index, kind, offset, out),
        Value::Remote { index, version } | Value::EndpointRemote { index, version } => {
            put_remote(*index, *version, kind, offset, out)
        }
        Value::Null => put_index(NO_INDEX, kind, offset, out),
    }
}

/// What a union holds, under its tag.
#[tactic(auto, using(crate::proofs::Cells::place_of, crate::proofs::Cells::past_tag))]
fn put_member(
    value: &Value,
    kind: &KindNode,
    tag: u32,
    offset: usize,
    bit: u32,
    at: usize,
    out: &mut [u8],
)
    requires room { (8 * offset + bit) + 128 ≤ 8 * length out.old }
    requires bit { bit < 8 }
    requires behind { offset + 8 ≤ at }
    ensures { out.new ≡ put_member (8 * offset + bit) (Some (kind_view kind.now)) tag (view value.now) out.old at }
{
    put_bytes(out, offset, &le32_pair(UNION_BYTES, tag));
    put_cell(value, kind, offset + 8, bit, at, out);
}

/// A value in its slot.
pub(crate) fn put(
    value: &Value,
    kind: &KindNode,
    offset: usize,
    bit: u32,
    at: usize,
    schema: &Schema,
    out: &mut [u8],
)
    requires room { (8 * offset + bit) + size_of (kind_view kind.now) ≤ 8 * length out.old }
    requires bit { bit < 8 }
    requires behind { at ≡ length out.old }
    ensures { out.new ≡ put schema.now (8 * offset + bit) (kind_view kind.now) (view value.now) out.old at }
{
    match value {
        Value::Union { tag, value: member } => match member_kind(schema, kind, *tag) {
            Some(kind) => put_member(member, kind.node(), *tag, offset, bit, at, out),
            None => (),
        },
        _ => put_cell(value, kind, offset, bit, at, out),
    }
}
