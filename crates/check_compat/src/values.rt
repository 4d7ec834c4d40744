//! Values of a kind, made by number: what they are made of is listed in the order in which it is written, and put together from the end.

use crate::choices::Choices;
use mj_schema::{EnumRow, Kind, KindNode, Schema};
use std::alloc::{AllocError, Global};
use wire_model::Value;
use wire_reference::is_nullable;

/// How many pieces a value has at most.
const MOST_PIECES: usize = 10_000;

/// A piece of a value: a whole one, or one of which so many parts stand behind it, a map's being the lists of its keys and values.
#[derive(Drop)]
enum Piece {
    Whole(Value),
    Struct(usize),
    List(usize),
    Map,
    Union(u32),
}

/// What is to be made: a value of a kind, or a list of so many.
#[derive(Clone, Copy)]
enum Wanted<'a> {
    One(&'a KindNode),
    Many(&'a KindNode, usize),
}

/// Choices, and how many handles and endpoints there are already.
#[derive(Clone, Copy)]
struct Draws {
    choices: Choices,
    handles: u32,
    endpoints: u32,
}

/// The next index, of which one more is taken.
fn next_index(index: &mut u32) -> u32 {
    let taken = *index;
    *index = taken.saturating_add(1);
    taken
}

/// An integer that has room in 8 bits.
fn whole(signed: bool, choice: usize) -> i128 {
    match (choice, signed) {
        (0, _) => 0,
        (1, _) => 100,
        (_, true) => -100,
        (_, false) => 200,
    }
}

/// A number of an enum: one of its members', or, where it is extensible, one that maybe none has.
fn enum_number(row: &EnumRow, draws: &mut Draws) -> i128 {
    let members = row.members.as_slice();
    let others = if row.extensible { 1 } else { 0 };
    let choice = draws.choices.below(members.len().saturating_add(others));
    match members.get(choice) {
        Some(member) => i128::from(member.number),
        None => 77,
    }
}

/// A string.
fn text(alloc: Global, choice: usize) -> Result<Value, AllocError> {
    let text = match choice {
        0 => "",
        1 => "a",
        _ => "several letters",
    };
    Ok(Value::Text(Vec::from_slice(alloc, text.as_bytes())?))
}

/// A value that holds no other.
fn flat_value(
    alloc: Global,
    schema: &Schema,
    kind: &KindNode,
    draws: &mut Draws,
) -> Result<Value, AllocError> {
    match kind {
        KindNode::Bool { .. } => Ok(Value::Bool(draws.choices.below(2) == 1)),
        KindNode::Int { signed, .. } => Ok(Value::Whole(whole(*signed, draws.choices.below(3)))),
        KindNode::Enum { number, .. } => match schema.enums.as_slice().get(*number as usize) {
            Some(row) => Ok(Value::Whole(enum_number(row, draws))),
            None => Ok(Value::Null),
        },
        KindNode::Text { .. } => text(alloc, draws.choices.below(3)),
        KindNode::Handle { .. } | KindNode::Receiver { .. } => {
            Ok(Value::Handle(next_index(&mut draws.handles)))
        }
        KindNode::Remote { .. } => Ok(Value::Remote {
            index: next_index(&mut draws.handles),
            version: 3,
        }),
        KindNode::AssociatedReceiver { .. } => Ok(Value::Endpoint(next_index(
            &mut draws.endpoints,
        ))),
        KindNode::AssociatedRemote { .. } => Ok(Value::EndpointRemote {
            index: next_index(&mut draws.endpoints),
            version: 5,
        }),
        _ => Ok(Value::Null),
    }
}

/// The piece of a struct, whose fields are wanted.
fn struct_piece<'a>(
    schema: &'a Schema,
    number: u32,
    wanted: &mut Vec<Wanted<'a>>,
) -> Result<Piece, AllocError> {
    let Some(row) = schema.structs.as_slice().get(number as usize) else {
        return Ok(Piece::Whole(Value::Null));
    };
    let fields = row.fields.as_slice();
    for place in (0..fields.len()).rev() {
        if let Some(field) = fields.get(place) {
            wanted.push(Wanted::One(field.kind.node()))?;
        }
    }
    Ok(Piece::Struct(fields.len()))
}

/// The piece of a union, of which one of what it may hold is wanted.
fn union_piece<'a>(
    schema: &'a Schema,
    number: u32,
    draws: &mut Draws,
    wanted: &mut Vec<Wanted<'a>>,
) -> Result<Piece, AllocError> {
    let Some(row) = schema.unions.as_slice().get(number as usize) else {
        return Ok(Piece::Whole(Value::Null));
    };
    let fields = row.fields.as_slice();
    let choice = draws.choices.below(fields.len());
    let Some(field) = fields.get(choice) else {
        return Ok(Piece::Whole(Value::Null));
    };
    wanted.push(Wanted::One(field.kind.node()))?;
    Ok(Piece::Union(field.tag))
}

/// A list of so many values of a kind is wanted.
fn want_many<'a>(
    kind: &'a KindNode,
    count: usize,
    wanted: &mut Vec<Wanted<'a>>,
) -> Result<(), AllocError> {
    Ok(wanted.push(Wanted::Many(kind, count))?)
}

/// The piece of a value of a kind; what it holds is wanted.
fn piece_of<'a>(
    alloc: Global,
    schema: &'a Schema,
    kind: &'a KindNode,
    draws: &mut Draws,
    wanted: &mut Vec<Wanted<'a>>,
) -> Result<Piece, AllocError> {
    if is_nullable(kind) && draws.choices.below(2) == 0 {
        return Ok(Piece::Whole(Value::Null));
    }
    match kind {
        KindNode::Struct { number, .. } => struct_piece(schema, *number, wanted),
        KindNode::Union { number, .. } => union_piece(schema, *number, draws, wanted),
        KindNode::Array { of, count, .. } => {
            let count = match count {
                Some(count) => *count as usize,
                None => draws.choices.below(3),
            };
            many_piece(of, count, wanted)
        }
        KindNode::Map { key, value, .. } => {
            let count = draws.choices.below(3);
            want_many(value, count, wanted)?;
            want_many(key, count, wanted)?;
            Ok(Piece::Map)
        }
        _ => Ok(Piece::Whole(flat_value(alloc, schema, kind, draws)?)),
    }
}

/// The piece of a list of so many values of a kind, which are wanted.
fn many_piece<'a>(
    kind: &'a KindNode,
    count: usize,
    wanted: &mut Vec<Wanted<'a>>,
) -> Result<Piece, AllocError> {
    for _ in 0..count {
        wanted.push(Wanted::One(kind))?;
    }
    Ok(Piece::List(count))
}

/// The pieces of a value of a kind, drawn by this number; none where they are too many.
fn pieces<'a>(
    alloc: Global,
    schema: &'a Schema,
    kind: &'a Kind,
    number: u64,
) -> Result<Option<Vec<Piece>>, AllocError> {
    let mut draws = Draws {
        choices: Choices {
            left: number.wrapping_mul(11_400_714_819_323_198_485),
        },
        handles: 0,
        endpoints: 0,
    };
    let mut pieces = Vec::new(alloc);
    let mut wanted = Vec::new(alloc);
    wanted.push(Wanted::One(kind.node()))?;
    for _ in 0..MOST_PIECES {
        let piece = match wanted.pop() {
            Some(Wanted::One(kind)) => piece_of(alloc, schema, kind, &mut draws, &mut wanted)?,
            Some(Wanted::Many(kind, count)) => many_piece(kind, count, &mut wanted)?,
            None => return Ok(Some(pieces)),
        };
        pieces.push(piece)?;
    }
    Ok(None)
}

/// The last so many values, the last of them first.
fn taken(alloc: Global, values: &mut Vec<Value>, count: usize) -> Result<Vec<Value>, AllocError> {
    let mut parts = Vec::new(alloc);
    for _ in 0..count {
        if let Some(value) = values.pop() {
            parts.push(value)?;
        }
    }
    Ok(parts)
}

/// The elements of a list.
fn elements(alloc: Global, list: Option<Value>) -> Vec<Value> {
    match list {
        Some(Value::List(elements)) => elements,
        _ => Vec::new(alloc),
    }
}

/// The value of a piece, whose parts are the last values, the first of them last.
fn value_of(alloc: Global, piece: Piece, values: &mut Vec<Value>) -> Result<Value, AllocError> {
    match piece {
        Piece::Whole(value) => Ok(value),
        Piece::Struct(count) => Ok(Value::Struct(taken(alloc, values, count)?)),
        Piece::List(count) => Ok(Value::List(taken(alloc, values, count)?)),
        Piece::Map => {
            let keys = elements(alloc, values.pop());
            let values = elements(alloc, values.pop());
            Ok(Value::Map { keys, values })
        }
        Piece::Union(tag) => {
            let held = values.pop().unwrap_or(Value::Null);
            Ok(Value::Union {
                tag,
                value: Box::new(alloc, held)?,
            })
        }
    }
}

/// The value of pieces, put together from the last one on.
fn put_together(alloc: Global, pieces: Vec<Piece>) -> Result<Value, AllocError> {
    let mut pieces = pieces;
    let mut values = Vec::new(alloc);
    for _ in 0..pieces.len() {
        if let Some(piece) = pieces.pop() {
            let value = value_of(alloc, piece, &mut values)?;
            values.push(value)?;
        }
    }
    Ok(values.pop().unwrap_or(Value::Null))
}

/// A value of the struct of a number, made by a number; none where it gets too large.
pub fn made(
    alloc: Global,
    schema: &Schema,
    parameters: u32,
    number: u64,
) -> Result<Option<Value>, AllocError> {
    let kind = Kind::new(KindNode::Struct {
        number: parameters,
        nullable: false,
    });
    match pieces(alloc, schema, &kind, number)? {
        Some(pieces) => Ok(Some(put_together(alloc, pieces)?)),
        None => Ok(None),
    }
}
