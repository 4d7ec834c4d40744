//! What the getters of a view give, beside the parts of the value that it is to be of.

use mj_schema::{Kind, KindNode, Schema, Width};
use schema_rows::{find_struct, kind_in};
use std::alloc::{AllocError, Global};
use wire_model::Value;
use wire_view::{ArrayView, StructView, Utf8, View};

/// How many objects are compared at most: a message has 64 MiB, and each object takes 8 bytes.
const MOST_OBJECTS: u32 = 8_388_608;

/// A view, with the kind and the value that it is to have.
#[derive(Clone, Copy)]
struct Seen<'a> {
    view: View<'a>,
    kind: &'a KindNode,
    value: &'a Value,
}

/// The number that a value is.
fn number_of(value: &Value) -> Option<i128> {
    match value {
        Value::Bool(bool) => Some(i128::from(*bool)),
        Value::Whole(number) => Some(*number),
        Value::Handle(index) => Some(i128::from(*index)),
        Value::Remote { index, .. } => Some(i128::from(*index)),
        Value::Endpoint(index) => Some(i128::from(*index)),
        Value::EndpointRemote { index, .. } => Some(i128::from(*index)),
        _ => None,
    }
}

/// The version of a value that is a remote.
fn version_of(value: &Value) -> Option<u32> {
    match value {
        Value::Remote { version, .. } => Some(*version),
        Value::EndpointRemote { version, .. } => Some(*version),
        _ => None,
    }
}

/// Whether a value is a struct, an array, a map or a union.
fn is_object(value: &Value) -> bool {
    match value {
        Value::List(_) => true,
        Value::Map { .. } => true,
        Value::Struct(_) => true,
        Value::Union { .. } => true,
        Value::Unknown(_) => true,
        _ => false,
    }
}

/// Whether a text is that of a value; there is none where the value is no string.
fn is_text(found: Option<&str>, value: &Value) -> bool {
    match value {
        Value::Text(bytes) => match found {
            Some(text) => text.as_bytes() == bytes.as_slice(),
            None => false,
        },
        _ => found.is_none(),
    }
}

/// Whether a string is that of a value; there is none where the value is no string.
fn is_string(found: Option<Utf8<'_>>, value: &Value) -> bool {
    match value {
        Value::Text(bytes) => match found {
            Some(text) => text.as_bytes() == bytes.as_slice(),
            None => false,
        },
        _ => found.is_none(),
    }
}

/// Whether a value is a struct.
fn is_struct(value: &Value) -> bool {
    match value {
        Value::Struct(_) => true,
        _ => false,
    }
}

/// Whether a kind is uint8.
fn is_byte(kind: &KindNode) -> bool {
    match kind {
        KindNode::Int {
            width: Width::Bits8,
            signed: false,
            nullable: false,
        } => true,
        _ => false,
    }
}

/// Whether a kind is an array of uint8.
fn is_bytes(kind: &KindNode) -> bool {
    match kind {
        KindNode::Array { of, .. } => is_byte(of),
        _ => false,
    }
}

/// Whether bytes are values, one by one.
fn are_items(bytes: &[u8], items: &[Value]) -> bool {
    if bytes.len() != items.len() {
        return false;
    }
    for (byte, item) in bytes.iter().zip(items) {
        if number_of(item) != Some(i128::from(*byte)) {
            return false;
        }
    }
    true
}

/// Whether bytes are the elements of an array; there are none where its elements are no uint8.
fn are_bytes(found: Option<&[u8]>, items: &[Value], wanted: bool) -> bool {
    match found {
        Some(bytes) => wanted && are_items(bytes, items),
        None => !wanted,
    }
}

/// Whether a part has the bytes of a value.
fn has_bytes(view: View<'_>, i: u32, kind: &KindNode, value: &Value) -> bool {
    match value {
        Value::List(items) => are_bytes(view.bytes(i), items.as_slice(), is_bytes(kind)),
        _ => view.bytes(i).is_none(),
    }
}

/// Whether a part has the number, the version, the text and the bytes of a value.
fn has_leaf(view: View<'_>, i: u32, kind: &KindNode, value: &Value) -> bool {
    view.number(i) == number_of(value)
        && view.version(i) == version_of(value)
        && is_text(view.text(i), value)
        && is_string(view.string(i), value)
        && has_bytes(view, i, kind, value)
}

/// Whether no part has a number, by each getter.
fn has_nothing(view: View<'_>, i: u32) -> bool {
    view.part(i).is_none()
        && view.number(i).is_none()
        && view.version(i).is_none()
        && view.text(i).is_none()
        && view.string(i).is_none()
        && view.bytes(i).is_none()
        && view.child(i).is_none()
        && view.element(i, 0).is_none()
}

/// Whether a view is of no union, and has no part behind its last.
fn ends(view: View<'_>) -> bool {
    view.tag().is_none() && has_nothing(view, view.len())
}

/// Whether a view is of a union of this tag, so many parts and none under another tag.
fn has_tag(view: View<'_>, tag: u32, count: u32) -> bool {
    view.tag() == Some(tag)
        && view.len() == count
        && StructView::from_view(&view).is_none()
        && ArrayView::from_view(&view).is_none()
        && has_nothing(view, tag.wrapping_add(1))
        && (tag == 0 || has_nothing(view, 0))
}

/// Whether an array has these elements, by the getters of its own, and no more.
fn has_elements(array: &ArrayView<'_>, items: &[Value]) -> bool {
    if array.len() as usize != items.len() {
        return false;
    }
    let mut j = 0u32;
    for item in items {
        if array.number(j) != number_of(item) || array.item(j).is_some() != is_struct(item) {
            return false;
        }
        j = j.saturating_add(1);
    }
    array.number(j).is_none() && array.item(j).is_none()
}

/// Whether there is an array of these elements exactly where a value is a list.
fn is_list(found: Option<ArrayView<'_>>, value: &Value) -> bool {
    match value {
        Value::List(items) => match found {
            Some(array) => has_elements(&array, items.as_slice()),
            None => false,
        },
        _ => found.is_none(),
    }
}

/// Whether a struct has a field of this value, by the getters of its own.
fn has_field(view: &StructView<'_>, i: u32, value: &Value) -> bool {
    view.number(i) == number_of(value)
        && is_string(view.string(i), value)
        && is_list(view.array(i), value)
}

/// Whether there is a view exactly where a value is an object. It is compared later.
fn push_object<'a>(
    found: Option<View<'a>>,
    kind: &'a KindNode,
    value: &'a Value,
    later: &mut Vec<Seen<'a>>,
) -> Result<bool, AllocError> {
    match found {
        Some(view) => {
            later.push(Seen { view, kind, value })?;
            Ok(is_object(value))
        }
        None => Ok(!is_object(value)),
    }
}

/// Whether a part is an array of these elements.
fn has_list<'a>(
    view: View<'a>,
    i: u32,
    of: &'a KindNode,
    items: &'a [Value],
    later: &mut Vec<Seen<'a>>,
) -> Result<bool, AllocError> {
    let Some(list) = view.child(i) else {
        return Ok(false);
    };
    let count = list.len();
    if count as usize != items.len() || view.element(i, count).is_some() {
        return Ok(false);
    }
    if !are_bytes(view.bytes(i), items, is_byte(of)) {
        return Ok(false);
    }
    let mut j = 0u32;
    for item in items {
        if !has_leaf(list, j, of, item) || !push_object(view.element(i, j), of, item, later)? {
            return Ok(false);
        }
        j = j.saturating_add(1);
    }
    Ok(true)
}

/// Whether a part is of this kind and value.
fn has_part<'a>(
    view: View<'a>,
    i: u32,
    kind: &'a KindNode,
    value: &'a Value,
    later: &mut Vec<Seen<'a>>,
) -> Result<bool, AllocError> {
    if !has_leaf(view, i, kind, value) {
        return Ok(false);
    }
    match value {
        Value::List(items) => match kind {
            KindNode::Array { of, .. } => has_list(view, i, of, items.as_slice(), later),
            _ => Ok(false),
        },
        _ => {
            if view.element(i, 0).is_some() {
                return Ok(false);
            }
            push_object(view.child(i), kind, value, later)
        }
    }
}

/// Whether a struct has these fields.
fn has_fields<'a>(
    schema: &'a Schema,
    seen: Seen<'a>,
    fields: &'a [Value],
    later: &mut Vec<Seen<'a>>,
) -> Result<bool, AllocError> {
    let KindNode::Struct { number, .. } = seen.kind else {
        return Ok(false);
    };
    let Some(row) = find_struct(schema, *number) else {
        return Ok(false);
    };
    let Some(view) = StructView::from_view(&seen.view) else {
        return Ok(false);
    };
    if seen.view.len() as usize != fields.len() || !ends(seen.view) {
        return Ok(false);
    }
    if ArrayView::from_view(&seen.view).is_some() {
        return Ok(false);
    }
    let mut i = 0u32;
    for (field, value) in row.fields.as_slice().iter().zip(fields) {
        if !has_field(&view, i, value)
            || !has_part(view.as_view(), i, field.kind.node(), value, later)?
        {
            return Ok(false);
        }
        i = i.saturating_add(1);
    }
    Ok(true)
}

/// Whether an array has these elements.
fn has_items<'a>(
    seen: Seen<'a>,
    items: &'a [Value],
    later: &mut Vec<Seen<'a>>,
) -> Result<bool, AllocError> {
    let KindNode::Array { of, .. } = seen.kind else {
        return Ok(false);
    };
    let Some(array) = ArrayView::from_view(&seen.view) else {
        return Ok(false);
    };
    if !has_elements(&array, items) || !ends(seen.view) {
        return Ok(false);
    }
    if StructView::from_view(&seen.view).is_some() {
        return Ok(false);
    }
    let mut j = 0u32;
    for item in items {
        if !has_part(array.as_view(), j, of, item, later)? {
            return Ok(false);
        }
        j = j.saturating_add(1);
    }
    Ok(true)
}

/// Whether a map has these keys and values.
fn has_pairs<'a>(
    seen: Seen<'a>,
    keys: &'a [Value],
    values: &'a [Value],
    later: &mut Vec<Seen<'a>>,
) -> Result<bool, AllocError> {
    let KindNode::Map { key, value, .. } = seen.kind else {
        return Ok(false);
    };
    if StructView::from_view(&seen.view).is_some() || ArrayView::from_view(&seen.view).is_some() {
        return Ok(false);
    }
    if seen.view.len() != 2 || !ends(seen.view) {
        return Ok(false);
    }
    if !has_list(seen.view, 0, key, keys, later)? {
        return Ok(false);
    }
    has_list(seen.view, 1, value, values, later)
}

/// Whether a union holds this value under a tag.
fn has_member<'a>(
    schema: &'a Schema,
    seen: Seen<'a>,
    tag: u32,
    value: &'a Value,
    later: &mut Vec<Seen<'a>>,
) -> Result<bool, AllocError> {
    let KindNode::Union { number, .. } = seen.kind else {
        return Ok(false);
    };
    let Some(kind) = kind_in(schema, *number, tag) else {
        return Ok(false);
    };
    if !has_tag(seen.view, tag, 1) {
        return Ok(false);
    }
    has_part(seen.view, tag, kind.node(), value, later)
}

/// Whether a view has the parts of its value.
fn has_parts<'a>(
    schema: &'a Schema,
    seen: Seen<'a>,
    later: &mut Vec<Seen<'a>>,
) -> Result<bool, AllocError> {
    match seen.value {
        Value::Struct(fields) => has_fields(schema, seen, fields.as_slice(), later),
        Value::List(items) => has_items(seen, items.as_slice(), later),
        Value::Map { keys, values } => {
            has_pairs(seen, keys.as_slice(), values.as_slice(), later)
        }
        Value::Union { tag, value } => has_member(schema, seen, *tag, value, later),
        Value::Unknown(tag) => Ok(has_tag(seen.view, *tag, 0) && has_nothing(seen.view, *tag)),
        _ => Ok(false),
    }
}

/// Whether a view gives the parts of a value of this kind, by each getter.
pub fn gives<'a>(
    alloc: Global,
    schema: &'a Schema,
    view: View<'a>,
    kind: &'a Kind,
    value: &'a Value,
) -> Result<bool, AllocError> {
    let mut later = Vec::new(alloc);
    later.push(Seen {
        view,
        kind: kind.node(),
        value,
    })?;
    for _ in 0..MOST_OBJECTS {
        match later.pop() {
            None => return Ok(true),
            Some(seen) => {
                if !has_parts(schema, seen, &mut later)? {
                    return Ok(false);
                }
            }
        }
    }
    Ok(false)
}
