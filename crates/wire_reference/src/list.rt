//! The tests of a tree, in their order: a node's own, and then those of its parts.

use crate::bytes::{are_there, number32, number64, word};
use crate::follow::{MOST_DEPTH, MOST_DISTANCE};
use crate::judge::Test;
use crate::nodes::{Node, What};
use crate::rows::{goes_with, held, is_extensible, is_known, is_nullable, room};
use mj_base::FaultKind;
use mj_schema::{KindNode, Schema, StructRow};
use std::alloc::{AllocError, Global};

/// The index that says that there is none.
pub const NO_INDEX: u64 = 0xffff_ffff;

/// The tests of the index of a handle or of an id.
fn index_test(bytes: &[u8], at: u64, nullable: bool, is_id: bool) -> Test {
    let index = number32(bytes, at);
    match (index == NO_INDEX, is_id) {
        (true, false) => Test::new(nullable, FaultKind::UnexpectedInvalidHandle, at),
        (true, true) => Test::new(nullable, FaultKind::UnexpectedInvalidInterfaceId, at),
        (false, false) => Test::Handle { index, at },
        (false, true) => Test::Id { index, at },
    }
}

/// Adds the tests of a pointer.
fn add_pointer(
    bytes: &[u8],
    node: Node<'_>,
    nullable: bool,
    tests: &mut Vec<Test>,
) -> Result<(), AllocError> {
    let at = node.at;
    let distance = number64(bytes, at);
    if distance == 0 {
        let null = FaultKind::UnexpectedNullPointer;
        return Ok(tests.push(Test::new(nullable, null, at))?);
    }
    let is_near = distance <= MOST_DISTANCE;
    tests.push(Test::new(is_near, FaultKind::IllegalPointer, at))?;
    let is_shallow = node.depth < MOST_DEPTH;
    tests.push(Test::new(is_shallow, FaultKind::MaxRecursionDepth, at))?;
    Ok(())
}

/// The test of a union where it lies.
fn union_test(schema: &Schema, bytes: &[u8], at: u64, number: u32, nullable: bool) -> Test {
    if number32(bytes, at) == 0 {
        return Test::new(nullable, FaultKind::UnexpectedNullUnion, at);
    }
    let tag_at = at.saturating_add(4);
    let tag = number32(bytes, tag_at);
    let is_fine = held(schema, number, tag).is_some() || is_extensible(schema, number);
    Test::new(is_fine, FaultKind::UnknownUnionTag, tag_at)
}

/// Adds the tests of a slot that holds no union.
fn add_cell(
    schema: &Schema,
    bytes: &[u8],
    node: Node<'_>,
    kind: &KindNode,
    tests: &mut Vec<Test>,
) -> Result<(), AllocError> {
    let at = node.at;
    let nullable = is_nullable(kind);
    match kind {
        KindNode::Bool { .. } | KindNode::Int { .. } => {}
        KindNode::Enum { number, .. } => {
            let value = word(bytes, at).cast_signed();
            let is_fine = is_known(schema, *number, value);
            tests.push(Test::new(is_fine, FaultKind::UnknownEnumValue, at))?;
        }
        KindNode::Handle { .. } | KindNode::Remote { .. } | KindNode::Receiver { .. } => {
            tests.push(index_test(bytes, at, nullable, false))?;
        }
        KindNode::AssociatedRemote { .. } | KindNode::AssociatedReceiver { .. } => {
            tests.push(index_test(bytes, at, nullable, true))?;
        }
        _ => add_pointer(bytes, node, nullable, tests)?,
    }
    Ok(())
}

/// Adds the tests of the header of an object which has room for so much behind its two numbers: of an array its count
/// comes before the room of the whole, of a struct its version behind that.
fn add_header(
    bytes: &[u8],
    at: u64,
    extra: u64,
    fine: bool,
    kind: FaultKind,
    tests: &mut Vec<Test>,
) -> Result<(), AllocError> {
    let len = number32(bytes, at);
    tests.extend_from_slice(&[
        Test::new(at % 8 == 0, FaultKind::MisalignedObject, at),
        Test::Range { at, len: 8 },
        Test::new(len >= extra.saturating_add(8), kind, at),
    ])?;
    let whole = Test::Range { at, len };
    let right = Test::new(fine, kind, at);
    let both = if kind == FaultKind::UnexpectedArrayHeader {
        [right, whole]
    } else {
        [whole, right]
    };
    tests.extend_from_slice(&both)?;
    let end = at.saturating_add(len);
    tests.push(Test::Claim { end })?;
    Ok(())
}

/// Adds the tests of a struct's header.
fn add_struct(
    bytes: &[u8],
    at: u64,
    row: &StructRow,
    tests: &mut Vec<Test>,
) -> Result<(), AllocError> {
    let version = number32(bytes, at.saturating_add(4));
    let fine = goes_with(row, version, number32(bytes, at));
    add_header(bytes, at, 0, fine, FaultKind::UnexpectedStructHeader, tests)
}

/// Adds the tests of an array's header.
fn add_array(
    bytes: &[u8],
    at: u64,
    of: &KindNode,
    wanted: Option<u32>,
    tests: &mut Vec<Test>,
) -> Result<(), AllocError> {
    let count = number32(bytes, at.saturating_add(4));
    let fine = wanted.is_none_or(|wanted| u64::from(wanted) == count);
    let extra = room(of, count);
    add_header(
        bytes,
        at,
        extra,
        fine,
        FaultKind::UnexpectedArrayHeader,
        tests,
    )
}

/// Adds the tests of a map's header.
fn add_map(bytes: &[u8], at: u64, tests: &mut Vec<Test>) -> Result<(), AllocError> {
    let version = number32(bytes, at.saturating_add(4));
    let fine = number32(bytes, at) == 24 && version == 0;
    add_header(bytes, at, 0, fine, FaultKind::UnexpectedStructHeader, tests)
}

/// Adds the tests of a string.
fn add_text(bytes: &[u8], at: u64, tests: &mut Vec<Test>) -> Result<(), AllocError> {
    let count = number32(bytes, at.saturating_add(4));
    let kind = FaultKind::UnexpectedArrayHeader;
    add_header(bytes, at, count, true, kind, tests)?;
    let base = at.saturating_add(8);
    if !are_there(bytes, base, count) {
        return Ok(());
    }
    if let Err(error) = str::from_utf8(text_at(bytes, at)) {
        let bad = base.saturating_add(error.valid_up_to() as u64);
        tests.push(Test::new(false, FaultKind::BadUtf8, bad))?;
    }
    Ok(())
}

/// The bytes of the string at a place.
pub fn text_at(bytes: &[u8], at: u64) -> &[u8] {
    let count = number32(bytes, at.saturating_add(4));
    let base = at.saturating_add(8);
    let end = base.saturating_add(count);
    bytes.get(base as usize..end as usize).unwrap_or(&[])
}

/// Adds the tests of a union behind a pointer, which has 16 bytes whatever its size says.
fn add_pointed_union(at: u64, tests: &mut Vec<Test>) -> Result<(), AllocError> {
    let end = at.saturating_add(16);
    tests.extend_from_slice(&[
        Test::new(at % 8 == 0, FaultKind::MisalignedObject, at),
        Test::Range { at, len: 16 },
        Test::Claim { end },
    ])
}

/// Adds the tests of a node that come before those of its parts.
fn add_first(
    schema: &Schema,
    bytes: &[u8],
    node: Node<'_>,
    tests: &mut Vec<Test>,
) -> Result<(), AllocError> {
    let at = node.at;
    match node.what {
        What::Slot(KindNode::Union { number, nullable }) => {
            Ok(tests.push(union_test(schema, bytes, at, *number, *nullable))?)
        }
        What::Slot(kind) | What::Held(kind) => add_cell(schema, bytes, node, kind, tests),
        What::List(_) => add_pointer(bytes, node, false, tests),
        What::Struct(row) => add_struct(bytes, at, row, tests),
        What::Array { of, count } => add_array(bytes, at, of, count, tests),
        What::Map { .. } => add_map(bytes, at, tests),
        What::Text => add_text(bytes, at, tests),
        What::Union(_) => add_pointed_union(at, tests),
        What::Absent(_) | What::NoValue | What::Nothing => Ok(()),
    }
}

/// How many elements the array has to which a pointer leads.
fn count_behind(bytes: &[u8], at: u64) -> u64 {
    let target = at.saturating_add(number64(bytes, at));
    number32(bytes, target.saturating_add(4))
}

/// Adds the test of a node that comes behind those of its parts: a map has as many values as keys.
fn add_last(bytes: &[u8], node: Node<'_>, tests: &mut Vec<Test>) -> Result<(), AllocError> {
    if let What::Map { .. } = node.what {
        let keys = count_behind(bytes, node.at.saturating_add(8));
        let values = count_behind(bytes, node.at.saturating_add(16));
        let kind = FaultKind::DifferentSizedArraysInMap;
        tests.push(Test::new(keys == values, kind, node.at))?;
    }
    Ok(())
}

/// A step through the tree.
#[derive(Clone, Copy)]
enum Step {
    Enter(usize),
    Leave(usize),
}

/// Adds the steps through the parts of a node, the last first.
fn add_parts(node: Node<'_>, steps: &mut Vec<Step>) -> Result<(), AllocError> {
    for k in 0..node.parts {
        let behind = node.parts.saturating_sub(k).saturating_sub(1);
        steps.push(Step::Enter(node.first.saturating_add(behind)))?;
    }
    Ok(())
}

/// Adds the tests of a node that is entered, and the steps that follow.
fn enter(
    schema: &Schema,
    bytes: &[u8],
    place: usize,
    node: Node<'_>,
    tests: &mut Vec<Test>,
    steps: &mut Vec<Step>,
) -> Result<(), AllocError> {
    add_first(schema, bytes, node, tests)?;
    steps.push(Step::Leave(place))?;
    add_parts(node, steps)
}

/// Takes a step.
fn take(
    schema: &Schema,
    bytes: &[u8],
    nodes: &[Node<'_>],
    step: Step,
    tests: &mut Vec<Test>,
    steps: &mut Vec<Step>,
) -> Result<(), AllocError> {
    match step {
        Step::Enter(place) => match nodes.get(place) {
            Some(node) => enter(schema, bytes, place, *node, tests, steps),
            None => Ok(()),
        },
        Step::Leave(place) => match nodes.get(place) {
            Some(node) => add_last(bytes, *node, tests),
            None => Ok(()),
        },
    }
}

/// The tests of a tree.
pub fn tests_of(
    alloc: Global,
    schema: &Schema,
    bytes: &[u8],
    nodes: &[Node<'_>],
) -> Result<Vec<Test>, AllocError> {
    let mut tests = Vec::new(alloc);
    let mut steps = Vec::new(alloc);
    steps.push(Step::Enter(0))?;
    for _ in 0..nodes.len().saturating_mul(2) {
        let Some(step) = steps.pop() else {
            return Ok(tests);
        };
        take(schema, bytes, nodes, step, &mut tests, &mut steps)?;
    }
    Ok(tests)
}
