//! Where the parts of an object lie.

ghost use Rattle.std.specs.Prelude.{◌≡◌, ◌+◌, ◌≤◌, if◌then◌else◌, length, slice_get, None, true, false};
ghost use Rattle.std.specs.Option.{option_copied};
ghost use Rattle.mj_schema.specs.KindTrees.{kind_view, ArrayKind};
ghost use Rattle.mj_schema.specs.Sizes.{size_of};
ghost use Rattle.wire_view.specs.Parts.{is_array, is_bytes, is_string, is_struct};
ghost use Rattle.wire_view.specs.steps.Lists.{IsThere, bytes_behind};

use mj_base::{le32, le64};
use mj_schema::{FieldRow, KindNode, Width};
use schema_rows::size_of;

/// Where a part lies.
#[derive(Clone, Copy)]
pub enum Place<'a> {
    /// Nowhere: no part has this number.
    Nothing,
    /// It is a field whose flag is 0.
    Null,
    /// Nowhere, as it is a field that the object's version lacks.
    Absent(&'a FieldRow),
    /// In a slot of a struct or of an array: its byte, for a bool its bit there, and its kind.
    Slot {
        at: u64,
        bit: u32,
        kind: &'a KindNode,
    },
    /// In a union, in which a union stands behind a pointer.
    Member {
        at: u64,
        kind: &'a KindNode,
    },
    /// It is one of the two lists of a map, to which the pointer at a byte leads.
    List {
        at: u64,
        of: &'a KindNode,
    },
}

/// The field of an ordinal; none exactly where there is none.
#[inline(always)]
pub fn field_at(fields: &[FieldRow], i: u32) -> Option<&FieldRow>
    ensures { option_copied result ≡ slice_get fields.now i }
{
    fields.get(i as usize)
}

/// How many bits a slot of this kind takes. Integers, strings and structs are looked for first, and without
/// a call.
#[inline(always)]
pub fn slot_size(kind: &KindNode) -> u64
    ensures value { result ≡ size_of (kind_view kind.now) }
    ensures small { result ≤ 128 }
{
    match kind {
        KindNode::Int { width, .. } => u64::from(width.bits()),
        KindNode::Text { .. } | KindNode::Struct { .. } => 64,
        _ => any_size(kind),
    }
}

/// The same of all kinds. It stands by itself, so that a getter that meets one of those has no room to make
/// for the others.
#[inline(never)]
fn any_size(kind: &KindNode) -> u64
    ensures value { result ≡ size_of (kind_view kind.now) }
    ensures small { result ≤ 128 }
{
    size_of(kind)
}

/// Whether a kind is a string.
#[inline(always)]
pub fn is_string(kind: &KindNode) -> bool
    ensures { result ≡ is_string (kind_view kind.now) }
{
    match kind {
        KindNode::Text { .. } => true,
        _ => false,
    }
}

/// Whether a kind is an array.
#[inline(always)]
pub fn is_array(kind: &KindNode) -> bool
    ensures { result ≡ is_array (kind_view kind.now) }
{
    match kind {
        KindNode::Array { .. } => true,
        _ => false,
    }
}

/// Whether a kind is a struct.
#[inline(always)]
pub fn is_struct(kind: &KindNode) -> bool
    ensures { result ≡ is_struct (kind_view kind.now) }
{
    match kind {
        KindNode::Struct { .. } => true,
        _ => false,
    }
}

/// Whether a kind is an array of uint8.
fn is_bytes(kind: &KindNode) -> bool
    ensures { result ≡ is_bytes (kind_view kind.now) }
{
    match kind {
        KindNode::Array { of, .. } => is_byte(of),
        _ => false,
    }
}

/// Whether a kind is uint8.
fn is_byte(kind: &KindNode) -> bool
    ensures { result ≡ is_bytes (ArrayKind (kind_view kind.now) None false) }
{
    match kind {
        KindNode::Int {
            width: Width::Bits8,
            signed: false,
            nullable: false,
        } => true,
        _ => false,
    }
}

/// The bytes of the array to which the pointer at a place leads, if it isn't null.
fn bytes_behind(bytes: &[u8], at: u64) -> Option<&[u8]>
    requires within { at + 8 ≤ length bytes.now }
    requires there { IsThere bytes.now at }
    ensures { option_copied result ≡ bytes_behind bytes.now at }
{
    let pointer = le64(bytes, at);
    if pointer == 0 {
        return None;
    }
    let start = at + pointer;
    let count = le32(bytes, start + 4) as usize;
    let first = start as usize + 8;
    Some(&bytes[first..first + count])
}

/// The bytes of what a slot leads to, where it is an array of uint8 by its kind.
pub fn slot_bytes<'a>(bytes: &'a [u8], at: u64, kind: &KindNode) -> Option<&'a [u8]>
    requires { is_bytes (kind_view kind.now) ≡ true → (at + 8 ≤ length bytes.now) × IsThere bytes.now at }
    ensures { option_copied result ≡ (if is_bytes (kind_view kind.now) then bytes_behind bytes.now at else None) }
{
    if is_bytes(kind) {
        bytes_behind(bytes, at)
    } else {
        None
    }
}

/// The bytes of a list of a map, where its elements are uint8.
pub fn list_bytes<'a>(bytes: &'a [u8], at: u64, of: &KindNode) -> Option<&'a [u8]>
    requires { is_bytes (ArrayKind (kind_view of.now) None false) ≡ true → (at + 8 ≤ length bytes.now) × IsThere bytes.now at }
    ensures { option_copied result ≡ (if is_bytes (ArrayKind (kind_view of.now) None false) then bytes_behind bytes.now at else None) }
{
    if is_byte(of) {
        bytes_behind(bytes, at)
    } else {
        None
    }
}
