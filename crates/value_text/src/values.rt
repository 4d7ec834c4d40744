//! Values of every kind.

ghost use Rattle.std.specs.Prelude.{◌≡◌, ◌∷◌, [], ◌<◌, ◌-◌, List, map, slice_get, Some, None, true, false};
ghost use Rattle.mj_schema.specs.KindTrees.{kind_view};
ghost use Rattle.wire_model.specs.Trees.{view};
ghost use Rattle.byte_rules.specs.Lang.{as_value, listed, exactly, rest_of, ◌▸◌};
ghost use Rattle.byte_rules.specs.Reading.{Gives};
ghost use Rattle.byte_rules.specs.steps.Reading.{gathered, with_front};
ghost use Rattle.value_text.specs.Rules.{slot_value, opened, elements, array, pair, pairs_of, fields, fields_after, structure, union, member};
ghost use Rattle.value_text.specs.steps.Reading.{inside, inner, has_room, base_at, more_of, pair_of, more_pairs_of, add_pairs};

use crate::entries::{Entries, list_of, map_of, struct_of};
use crate::rows::{has_flag, may_be_null};
use crate::scalars::{
    boolean, endpoint, endpoint_remote, enum_value, handle, int, null, remote, string, tag, unknown,
};
use byte_rules::{Stop, expect, is_next};
use mj_schema::{FieldRow, KindNode, Schema};
use schema_rows::{find_struct, find_union, kind_in};
use std::alloc::Global;
use wire_model::Value;

/// A value of a slot of the kind, which may have a flag, with so many brackets at most, and the bytes
/// after it.
#[cycle(value)]
#[tactic(auto, using(crate::proofs::KindReads::value_null, crate::proofs::KindReads::value_never_null, crate::proofs::KindReads::value_other))]
pub fn value<'a>(
    alloc: Global,
    schema: &Schema,
    left: u32,
    kind: &KindNode,
    flagged: bool,
    bytes: &'a [u8],
) -> Result<(Value, &'a [u8]), Stop>
    ensures { Gives (λ x. (view x.0, x.1.now)) result ((slot_value schema.now left flagged (kind_view kind.now)).read bytes.now) }
{
    if may_be_null(flagged, kind) && is_next(bytes, b'n') {
        return null(bytes);
    }
    base(alloc, schema, left, kind, bytes)
}

/// A value of the kind that isn't null, and the bytes after it.
#[cycle(value)]
fn base<'a>(
    alloc: Global,
    schema: &Schema,
    left: u32,
    kind: &KindNode,
    bytes: &'a [u8],
) -> Result<(Value, &'a [u8]), Stop>
    ensures { Gives (λ x. (view x.0, x.1.now)) result ((base_at schema.now left (kind_view kind.now)).read bytes.now) }
{
    match kind {
        KindNode::Bool { .. } => boolean(bytes),
        KindNode::Int { width, signed, .. } => int(*width, *signed, bytes),
        KindNode::Enum { number, .. } => enum_value(alloc, schema, *number, bytes),
        KindNode::Text { .. } => string(alloc, bytes),
        KindNode::Handle { .. } | KindNode::Receiver { .. } => handle(bytes),
        KindNode::Array { of, count, .. } => array(alloc, schema, left, of, *count, bytes),
        KindNode::Map { key, value, .. } => dictionary(alloc, schema, left, key, value, bytes),
        KindNode::Struct { number, .. } => structure(alloc, schema, left, *number, bytes),
        KindNode::Union { number, .. } => union(alloc, schema, left, *number, bytes),
        KindNode::Remote { .. } => remote(bytes),
        KindNode::AssociatedRemote { .. } => endpoint_remote(bytes),
        KindNode::AssociatedReceiver { .. } => endpoint(bytes),
    }
}

/// An array, and the bytes after it.
#[cycle(value)]
#[tactic(auto, using(crate::proofs::KindReads::opened_full, crate::proofs::KindReads::array_room))]
fn array<'a>(
    alloc: Global,
    schema: &Schema,
    left: u32,
    of: &KindNode,
    count: Option<u32>,
    bytes: &'a [u8],
) -> Result<(Value, &'a [u8]), Stop>
    ensures { Gives (λ x. (view x.0, x.1.now)) result
        ((opened (has_room left) 91 (array (inside schema.now left false (kind_view of.now)) count)).read bytes.now) }
{
    if left == 0 {
        return Err(Stop::Left(bytes.len()));
    }
    let rest = expect(bytes, b'[')?;
    let (items, rest) = elements(alloc, schema, left - 1, of, count, rest)?;
    Ok((list_of(items), rest))
}

/// The elements of an array up to the bracket, and the bytes after it.
#[cycle(value)]
fn elements<'a>(
    alloc: Global,
    schema: &Schema,
    left: u32,
    of: &KindNode,
    count: Option<u32>,
    bytes: &'a [u8],
) -> Result<(Vec<Value>, &'a [u8]), Stop>
    ensures { Gives (λ x. (map view x.0.items, x.1.now)) result ((elements (inner schema.now left (kind_view of.now)) count).read bytes.now) }
{
    match count {
        Some(count) => so_many(alloc, schema, left, of, count, bytes),
        None => list(alloc, schema, left, of, bytes),
    }
}

/// Values of a kind with commas between up to the bracket, and the bytes after it.
#[cycle(value)]
#[tactic(auto, using(crate::proofs::KindReads::first_and_more))]
fn list<'a>(
    alloc: Global,
    schema: &Schema,
    left: u32,
    of: &KindNode,
    bytes: &'a [u8],
) -> Result<(Vec<Value>, &'a [u8]), Stop>
    ensures { Gives (λ x. (map view x.0.items, x.1.now)) result ((listed 93 (inner schema.now left (kind_view of.now))).read bytes.now) }
{
    let mut items = Vec::new(alloc);
    if is_next(bytes, b']') {
        let rest = expect(bytes, b']')?;
        return Ok((items, rest));
    }
    let (first, rest) = value(alloc, schema, left, of, false, bytes)?;
    items.push(first)?;
    more(alloc, schema, left, of, items, rest)
}

/// So many values of a kind with commas between up to the bracket, and the bytes after it.
#[cycle(value)]
fn so_many<'a>(
    alloc: Global,
    schema: &Schema,
    left: u32,
    of: &KindNode,
    count: u32,
    bytes: &'a [u8],
) -> Result<(Vec<Value>, &'a [u8]), Stop>
    ensures { Gives (λ x. (map view x.0.items, x.1.now)) result ((exactly 93 count (inner schema.now left (kind_view of.now))).read bytes.now) }
{
    let mut items = Vec::new(alloc);
    if count == 0 {
        let rest = expect(bytes, b']')?;
        return Ok((items, rest));
    }
    let (first, rest) = value(alloc, schema, left, of, false, bytes)?;
    items.push(first)?;
    as_many(alloc, schema, left, of, count - 1, items, rest)
}

/// A comma and a value of a slot, which may have a flag.
#[cycle(value)]
fn next<'a>(
    alloc: Global,
    schema: &Schema,
    left: u32,
    of: &KindNode,
    flagged: bool,
    bytes: &'a [u8],
) -> Result<(Value, &'a [u8]), Stop>
    ensures { Gives (λ x. (view x.0, x.1.now)) result ((44 ▸ slot_value schema.now left flagged (kind_view of.now)).read bytes.now) }
{
    let rest = expect(bytes, b',')?;
    value(alloc, schema, left, of, flagged, rest)
}

/// Values, each after a comma, behind those of `items`, up to the bracket, and the bytes after it.
#[cycle(value)]
fn more<'a>(
    alloc: Global,
    schema: &Schema,
    left: u32,
    of: &KindNode,
    items: Vec<Value>,
    bytes: &'a [u8],
) -> Result<(Vec<Value>, &'a [u8]), Stop>
    ensures { Gives (λ x. (map view x.0.items, x.1.now)) result
        (with_front (λ t. t ∷ []) (map view items.items) ((more_of schema.now left (kind_view of.now)).read bytes.now)) }
{
    let mut items = items;
    let mut rest = bytes;
    for _ in 0..bytes.len() {
        if is_next(rest, b']') {
            let rest = expect(rest, b']')?;
            return Ok((items, rest));
        }
        let (item, after) = next(alloc, schema, left, of, false, rest)?;
        items.push(item)?;
        rest = after;
    }
    let rest = expect(rest, b']')?;
    Ok((items, rest))
}

/// So many values, each after a comma, behind those of `items`, and the bytes after the bracket.
#[cycle(value)]
fn as_many<'a>(
    alloc: Global,
    schema: &Schema,
    left: u32,
    of: &KindNode,
    count: u32,
    items: Vec<Value>,
    bytes: &'a [u8],
) -> Result<(Vec<Value>, &'a [u8]), Stop>
    ensures { Gives (λ x. (map view x.0.items, x.1.now)) result
        (with_front (λ t. t ∷ []) (map view items.items) ((rest_of 93 count (inner schema.now left (kind_view of.now))).read bytes.now)) }
{
    let mut items = items;
    let mut rest = bytes;
    for _ in 0..count {
        let (item, after) = next(alloc, schema, left, of, false, rest)?;
        items.push(item)?;
        rest = after;
    }
    let rest = expect(rest, b']')?;
    Ok((items, rest))
}

/// A map, and the bytes after it.
#[cycle(value)]
#[tactic(auto, using(crate::proofs::KindReads::opened_full))]
fn dictionary<'a>(
    alloc: Global,
    schema: &Schema,
    left: u32,
    key: &KindNode,
    one: &KindNode,
    bytes: &'a [u8],
) -> Result<(Value, &'a [u8]), Stop>
    ensures { Gives (λ x. (view x.0, x.1.now)) result
        ((opened (has_room left) 123
        (as_value pairs_of (listed 125 (pair (inside schema.now left false (kind_view key.now))
        (inside schema.now left false (kind_view one.now)))))).read bytes.now) }
{
    if left == 0 {
        return Err(Stop::Left(bytes.len()));
    }
    let rest = expect(bytes, b'{')?;
    let (pairs, rest) = pairs(alloc, schema, left - 1, key, one, rest)?;
    Ok((map_of(pairs), rest))
}

/// Pairs with commas between up to the bracket, and the bytes after it.
#[cycle(value)]
fn pairs<'a>(
    alloc: Global,
    schema: &Schema,
    left: u32,
    key: &KindNode,
    one: &KindNode,
    bytes: &'a [u8],
) -> Result<(Entries, &'a [u8]), Stop>
    ensures { Gives (λ x. ((map view x.0.keys.items, map view x.0.values.items), x.1.now)) result
        (gathered add_pairs ([], []) ((listed 125 (pair_of schema.now left (kind_view key.now) (kind_view one.now))).read bytes.now)) }
{
    let mut pairs = Entries {
        keys: Vec::new(alloc),
        values: Vec::new(alloc),
    };
    if is_next(bytes, b'}') {
        let rest = expect(bytes, b'}')?;
        return Ok((pairs, rest));
    }
    let (first, second, rest) = pair(alloc, schema, left, key, one, bytes)?;
    pairs.push(first, second)?;
    more_pairs(alloc, schema, left, key, one, pairs, rest)
}

/// A key and its value, and the bytes after them.
#[cycle(value)]
#[tactic(auto, unfolding(crate::specs::Rules::pair))]
fn pair<'a>(
    alloc: Global,
    schema: &Schema,
    left: u32,
    key: &KindNode,
    one: &KindNode,
    bytes: &'a [u8],
) -> Result<(Value, Value, &'a [u8]), Stop>
    ensures { Gives (λ x. ((view x.0, view x.1), x.2.now)) result ((pair_of schema.now left (kind_view key.now) (kind_view one.now)).read bytes.now) }
{
    let (first, rest) = value(alloc, schema, left, key, false, bytes)?;
    let rest = expect(rest, b':')?;
    let (second, rest) = value(alloc, schema, left, one, false, rest)?;
    Ok((first, second, rest))
}

/// A comma, a key and its value.
#[cycle(value)]
fn next_pair<'a>(
    alloc: Global,
    schema: &Schema,
    left: u32,
    key: &KindNode,
    one: &KindNode,
    bytes: &'a [u8],
) -> Result<(Value, Value, &'a [u8]), Stop>
    ensures { Gives (λ x. ((view x.0, view x.1), x.2.now)) result ((44 ▸ pair_of schema.now left (kind_view key.now) (kind_view one.now)).read bytes.now) }
{
    let rest = expect(bytes, b',')?;
    pair(alloc, schema, left, key, one, rest)
}

/// Pairs, each after a comma, behind those of `pairs`, up to the bracket, and the bytes after it.
#[cycle(value)]
fn more_pairs<'a>(
    alloc: Global,
    schema: &Schema,
    left: u32,
    key: &KindNode,
    one: &KindNode,
    pairs: Entries,
    bytes: &'a [u8],
) -> Result<(Entries, &'a [u8]), Stop>
    ensures { Gives (λ x. ((map view x.0.keys.items, map view x.0.values.items), x.1.now)) result
        (gathered add_pairs (map view pairs.keys.items, map view pairs.values.items)
        ((more_pairs_of schema.now left (kind_view key.now) (kind_view one.now)).read bytes.now)) }
{
    let mut pairs = pairs;
    let mut rest = bytes;
    for _ in 0..bytes.len() {
        if is_next(rest, b'}') {
            let rest = expect(rest, b'}')?;
            return Ok((pairs, rest));
        }
        let (first, second, after) = next_pair(alloc, schema, left, key, one, rest)?;
        pairs.push(first, second)?;
        rest = after;
    }
    let rest = expect(rest, b'}')?;
    Ok((pairs, rest))
}

/// A struct, and the bytes after it.
#[cycle(value)]
#[tactic(auto, using(crate::proofs::KindReads::opened_full, crate::proofs::KindReads::struct_room))]
fn structure<'a>(
    alloc: Global,
    schema: &Schema,
    left: u32,
    number: u32,
    bytes: &'a [u8],
) -> Result<(Value, &'a [u8]), Stop>
    ensures { Gives (λ x. (view x.0, x.1.now)) result
        ((opened (has_room left) 40 (structure (inside schema.now left) (slice_get schema.now.structs number))).read bytes.now) }
{
    if left == 0 {
        return Err(Stop::Left(bytes.len()));
    }
    let rest = expect(bytes, b'(')?;
    all_fields(alloc, schema, left - 1, number, rest)
}

/// The fields of a struct up to the bracket, and the bytes after it.
#[cycle(value)]
#[tactic(auto, using(crate::proofs::KindReads::never_read))]
fn all_fields<'a>(
    alloc: Global,
    schema: &Schema,
    left: u32,
    number: u32,
    bytes: &'a [u8],
) -> Result<(Value, &'a [u8]), Stop>
    ensures { Gives (λ x. (view x.0, x.1.now)) result ((structure (slot_value schema.now left) (slice_get schema.now.structs number)).read bytes.now) }
{
    let Some(row) = find_struct(schema, number) else {
        return Err(Stop::Left(bytes.len()));
    };
    let (values, rest) = fields(alloc, schema, left, row.fields.as_slice(), bytes)?;
    Ok((struct_of(values), rest))
}

/// A value for each field, and the bytes after the bracket.
#[cycle(value)]
#[tactic(auto, unfolding(crate::specs::Rules::fields), using(crate::proofs::KindReads::first_and_more))]
fn fields<'a>(
    alloc: Global,
    schema: &Schema,
    left: u32,
    row: &[FieldRow],
    bytes: &'a [u8],
) -> Result<(Vec<Value>, &'a [u8]), Stop>
    ensures { Gives (λ x. (map view x.0.items, x.1.now)) result ((fields (slot_value schema.now left) row.now).read bytes.now) }
{
    let mut values = Vec::new(alloc);
    match row {
        [field, others @ ..] => {
            let (first, rest) = value(
                alloc,
                schema,
                left,
                field.kind.node(),
                has_flag(field),
                bytes,
            )?;
            values.push(first)?;
            fields_after(alloc, schema, left, others, values, rest)
        }
        [] => {
            let rest = expect(bytes, b')')?;
            Ok((values, rest))
        }
    }
}

/// A comma and a value for each field, behind `values`, and the bytes after the bracket.
#[cycle(value)]
fn fields_after<'a>(
    alloc: Global,
    schema: &Schema,
    left: u32,
    row: &[FieldRow],
    values: Vec<Value>,
    bytes: &'a [u8],
) -> Result<(Vec<Value>, &'a [u8]), Stop>
    ensures { Gives (λ x. (map view x.0.items, x.1.now)) result
        (with_front (λ t. t ∷ []) (map view values.items) ((fields_after (slot_value schema.now left) row.now).read bytes.now)) }
{
    let mut values = values;
    let mut rest = bytes;
    for field in row {
        let (value, after) = next(
            alloc,
            schema,
            left,
            field.kind.node(),
            has_flag(field),
            rest,
        )?;
        values.push(value)?;
        rest = after;
    }
    let rest = expect(rest, b')')?;
    Ok((values, rest))
}

/// A union, and the bytes after it.
#[cycle(value)]
#[tactic(auto, using(crate::proofs::KindReads::opened_full, crate::proofs::KindReads::union_room))]
fn union<'a>(
    alloc: Global,
    schema: &Schema,
    left: u32,
    number: u32,
    bytes: &'a [u8],
) -> Result<(Value, &'a [u8]), Stop>
    ensures { Gives (λ x. (view x.0, x.1.now)) result
        ((opened (has_room left) 60 (union (inside schema.now left) (slice_get schema.now.unions number))).read bytes.now) }
{
    if left == 0 {
        return Err(Stop::Left(bytes.len()));
    }
    let rest = expect(bytes, b'<')?;
    tagged(alloc, schema, left - 1, number, rest)
}

/// A tag and what stands behind it, and the bytes after the bracket.
#[cycle(value)]
#[tactic(auto, using(crate::proofs::KindReads::never_read))]
fn tagged<'a>(
    alloc: Global,
    schema: &Schema,
    left: u32,
    number: u32,
    bytes: &'a [u8],
) -> Result<(Value, &'a [u8]), Stop>
    ensures { Gives (λ x. (view x.0, x.1.now)) result ((union (slot_value schema.now left) (slice_get schema.now.unions number)).read bytes.now) }
{
    let Some(row) = find_union(schema, number) else {
        return Err(Stop::Left(bytes.len()));
    };
    let (tag, rest) = tag(alloc, schema, number, row, bytes)?;
    match kind_in(schema, number, tag) {
        Some(kind) => member(alloc, schema, left, tag, kind.node(), rest),
        None => unknown(tag, rest),
    }
}

/// A colon and the value of this kind that a union holds, and the bytes after the bracket.
#[cycle(value)]
fn member<'a>(
    alloc: Global,
    schema: &Schema,
    left: u32,
    tag: u32,
    kind: &KindNode,
    bytes: &'a [u8],
) -> Result<(Value, &'a [u8]), Stop>
    ensures { Gives (λ x. (view x.0, x.1.now)) result ((member (slot_value schema.now left) tag (Some (kind_view kind.now))).read bytes.now) }
{
    let rest = expect(bytes, b':')?;
    let (held, rest) = value(alloc, schema, left, kind, false, rest)?;
    let rest = expect(rest, b'>')?;
    let value = Box::new(alloc, held)?;
    Ok((Value::Union { tag, value }, rest))
}
