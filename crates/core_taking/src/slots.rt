//! What the value of a message says of the places of the ids that come with it.

ghost use Rattle.std.specs.Prelude.{ℕ, ◌≡◌, ◌<◌, false, length, map, replicate, slice_get, IfOk, None};
ghost use Rattle.std.specs.Option.{option_copied};
ghost use Rattle.mj_schema.specs.KindTrees.{StructKind, kind_view};
ghost use Rattle.mj_schema.specs.Layout.{kind_of};
ghost use Rattle.wire_encoder.specs.Checks.{checks};
ghost use Rattle.wire_model.specs.Rows.{member_kind, row_of};
ghost use Rattle.wire_model.specs.Trees.{trees, view};
ghost use Rattle.bind_model.specs.Machine.{endpoint_named};
ghost use Rattle.bind_model.specs.WireOf.{endpoints_named};
ghost use Rattle.core_taking.specs.Admits.{by_slot};
ghost use Rattle.core_taking.specs.steps.Slots.{array_names, each_names, field_names, filled, is_vacant, member_names};
ghost use Rattle.core_taking.specs.steps.Slots.{names, noted, receiver_names, remote_names, struct_names};

use mj_schema::{FieldRow, Kind, KindNode, Schema, StructRow};
use schema_rows::{find_struct, kind_in};
use std::alloc::{AllocError, Global};
use wire_encoder::{EndpointSide, WantedEndpoint};
use wire_model::Value;

/// Whether there is a place of this number of which nothing is said.
fn is_vacant(slots: &[Option<WantedEndpoint>], at: usize) -> bool
    ensures { result ≡ is_vacant (slice_get slots.now at) }
{
    match slots.get(at) {
        Some(None) => true,
        _ => false,
    }
}

/// Notes which endpoint stands at an index: the first that is named there counts, and there is no place
/// for an index past the end.
fn note(index: u32, wanted: WantedEndpoint, slots: &mut [Option<WantedEndpoint>])
    ensures { slots.new ≡ filled slots.old index wanted }
{
    let at = index as usize;
    if is_vacant(slots, at) {
        slots[at] = Some(wanted);
    }
}

/// Notes the receiver of an associated endpoint, where one is to be.
fn note_receiver(kind: &KindNode, index: u32, slots: &mut [Option<WantedEndpoint>])
    ensures { slots.new ≡ noted (receiver_names (kind_view kind.now) index) slots.old }
{
    match kind {
        KindNode::AssociatedReceiver { interface, .. } => {
            let wanted = WantedEndpoint {
                side: EndpointSide::Receiver,
                interface: *interface,
            };
            note(index, wanted, slots);
        }
        _ => {}
    }
}

/// Notes the remote of an associated endpoint, where one is to be.
fn note_remote(kind: &KindNode, index: u32, slots: &mut [Option<WantedEndpoint>])
    ensures { slots.new ≡ noted (remote_names (kind_view kind.now) index) slots.old }
{
    match kind {
        KindNode::AssociatedRemote { interface, .. } => {
            let wanted = WantedEndpoint {
                side: EndpointSide::Remote,
                interface: *interface,
            };
            note(index, wanted, slots);
        }
        _ => {}
    }
}

/// The row of a struct of this kind; none where there is none, and where the kind is no struct.
fn struct_row<'a>(schema: &'a Schema, kind: &KindNode) -> Option<&'a StructRow>
    ensures { option_copied result ≡ row_of schema.now (kind_view kind.now) }
{
    match kind {
        KindNode::Struct { number, .. } => find_struct(schema, *number),
        _ => None,
    }
}

/// The kind that a union of this kind holds under a tag; none where it lacks the tag, and where the
/// kind is no union.
fn member_kind<'a>(schema: &'a Schema, kind: &KindNode, tag: u32) -> Option<&'a Kind>
    ensures { option_copied result ≡ member_kind schema.now (kind_view kind.now) tag }
{
    match kind {
        KindNode::Union { number, .. } => kind_in(schema, *number, tag),
        _ => None,
    }
}

/// Notes the endpoints that a value of a kind names.
#[cycle(walk)]
fn note_value(value: &Value, kind: &KindNode, schema: &Schema, slots: &mut [Option<WantedEndpoint>])
    ensures { slots.new ≡ noted (names schema.now (kind_view kind.now) (view value.now)) slots.old }
{
    match value {
        Value::List(items) => note_array(items, kind, schema, slots),
        Value::Map { keys, values } => {
            if let KindNode::Map { key, value: of, .. } = kind {
                note_each(keys, key, schema, slots);
                note_each(values, of, schema, slots);
            }
        }
        Value::Struct(fields) => note_struct(fields, kind, schema, slots),
        Value::Union { tag, value: member } => note_member(member, *tag, kind, schema, slots),
        Value::Endpoint(index) => note_receiver(kind, *index, slots),
        Value::EndpointRemote { index, .. } => note_remote(kind, *index, slots),
        Value::Bool(_)
        | Value::Whole(_)
        | Value::Text(_)
        | Value::Unknown(_)
        | Value::Handle(_)
        | Value::Remote { .. }
        | Value::Null => {}
    }
}

/// Notes the endpoints that an array names.
#[cycle(walk)]
fn note_array(
    items: &[Value],
    kind: &KindNode,
    schema: &Schema,
    slots: &mut [Option<WantedEndpoint>],
)
    ensures { slots.new ≡ noted (array_names (kind_view kind.now) (λ of. each_names schema.now of (trees (map view items.now)))) slots.old }
{
    match kind {
        KindNode::Array { of, .. } => note_each(items, of, schema, slots),
        _ => {}
    }
}

/// Notes the endpoints that values of one kind name.
#[cycle(walk)]
fn note_each(items: &[Value], of: &KindNode, schema: &Schema, slots: &mut [Option<WantedEndpoint>])
    ensures { slots.new ≡ noted (each_names schema.now (kind_view of.now) (trees (map view items.now))) slots.old }
{
    for item in items {
        note_value(item, of, schema, slots);
    }
}

/// Notes the endpoints that a struct names.
#[cycle(walk)]
fn note_struct(
    values: &[Value],
    kind: &KindNode,
    schema: &Schema,
    slots: &mut [Option<WantedEndpoint>],
)
    ensures { slots.new ≡ noted (struct_names (row_of schema.now (kind_view kind.now))
        (λ ks. field_names schema.now ks (trees (map view values.now)))) slots.old }
{
    match struct_row(schema, kind) {
        Some(row) => note_fields(values, row.fields.as_slice(), schema, slots),
        None => {}
    }
}

/// Notes the endpoints that the fields of a struct name.
#[cycle(walk)]
fn note_fields(
    values: &[Value],
    fields: &[FieldRow],
    schema: &Schema,
    slots: &mut [Option<WantedEndpoint>],
)
    ensures { slots.new ≡ noted (field_names schema.now (map kind_of fields.now) (trees (map view values.now))) slots.old }
{
    for (i, value) in values.iter().enumerate() {
        if i < fields.len() {
            note_value(value, fields[i].kind.node(), schema, slots);
        }
    }
}

/// Notes the endpoints that a union which holds a value under a tag names.
#[cycle(walk)]
fn note_member(
    member: &Value,
    tag: u32,
    kind: &KindNode,
    schema: &Schema,
    slots: &mut [Option<WantedEndpoint>],
)
    ensures { slots.new ≡ noted (member_names (member_kind schema.now (kind_view kind.now) tag) (λ held. names schema.now held (view member.now))) slots.old }
{
    match member_kind(schema, kind, tag) {
        Some(held) => note_value(member, held.node(), schema, slots),
        None => {}
    }
}

/// Notes the endpoints that parameters name, which are a struct of this number.
fn note_parameters(
    value: &Value,
    number: u32,
    schema: &Schema,
    slots: &mut [Option<WantedEndpoint>],
)
    ensures { slots.new ≡ noted (names schema.now (StructKind number false) (view value.now)) slots.old }
{
    let kind = KindNode::Struct {
        number,
        nullable: false,
    };
    note_value(value, &kind, schema, slots);
}

/// So many places of which nothing is said.
fn vacant(alloc: Global, ids: usize) -> Result<Vec<Option<WantedEndpoint>>, AllocError>
    ensures { IfOk result (λ slots. slots.items ≡ replicate ids None) }
{
    let mut slots = Vec::new(alloc);
    for _ in 0..ids {
        slots.push(None)?;
    }
    Ok(slots)
}

/// What the parameters of a message, a struct of this number, say of the places of so many ids that come
/// with it: which endpoint stands there.
pub fn slots_of(
    alloc: Global,
    schema: &Schema,
    number: u32,
    value: &Value,
    ids: usize,
) -> Result<Vec<Option<WantedEndpoint>>, AllocError>
    ensures many { IfOk result (λ slots. length slots.items ≡ ids) }
    ensures named { IfOk result (λ slots. (k : ℕ) → k < ids
        → endpoint_named (endpoints_named (checks schema.now 0 false (StructKind number false) (view value.now))) k ≡ by_slot (slice_get slots.items k)) }
{
    let mut slots = vacant(alloc, ids)?;
    // Most messages have no ids: their values needn't be looked through.
    if ids > 0 {
        note_parameters(value, number, schema, &mut slots);
    }
    Ok(slots)
}
