//! Kinds by the words of the file of layouts.

use mj_schema::{HandleSort, Kind, KindNode, Width};
use std::alloc::{AllocError, Global};

/// The kind that a word spells; none where it spells none.
pub fn kind_named(alloc: Global, word: &str) -> Result<Option<Kind>, AllocError> {
    let nullable = false;
    let kind = match word {
        "array<bool>" => KindNode::Array {
            of: Box::new(alloc, KindNode::Bool { nullable: false })?,
            count: None,
            nullable,
        },
        "map<int8,int8>" => KindNode::Map {
            key: Box::new(alloc, integer(Width::Bits8, false))?,
            value: Box::new(alloc, integer(Width::Bits8, false))?,
            nullable,
        },
        other => {
            let number = number_kind(other).or(flagged_kind(other));
            return Ok(
                number
                    .or(plain_kind(other))
                    .or(endpoint(other))
                    .map(Kind::new),
            );
        }
    };
    Ok(Some(Kind::new(kind)))
}

fn integer(width: Width, nullable: bool) -> KindNode {
    KindNode::Int {
        width,
        signed: true,
        nullable,
    }
}

/// A bool, an integer or an enum.
fn number_kind(word: &str) -> Option<KindNode> {
    let nullable = false;
    match word {
        "bool" => Some(KindNode::Bool { nullable }),
        "int8" | "uint8" => Some(integer(Width::Bits8, nullable)),
        "int16" => Some(integer(Width::Bits16, nullable)),
        "int32" | "uint32" => Some(integer(Width::Bits32, nullable)),
        "int64" => Some(integer(Width::Bits64, nullable)),
        "enum" => Some(KindNode::Enum {
            number: 0,
            nullable,
        }),
        _ => None,
    }
}

/// A bool, an integer or an enum that may be null.
fn flagged_kind(word: &str) -> Option<KindNode> {
    let nullable = true;
    match word {
        "bool?" => Some(KindNode::Bool { nullable }),
        "int8?" => Some(integer(Width::Bits8, nullable)),
        "int16?" => Some(integer(Width::Bits16, nullable)),
        "int32?" => Some(integer(Width::Bits32, nullable)),
        "int64?" => Some(integer(Width::Bits64, nullable)),
        "enum?" => Some(KindNode::Enum {
            number: 0,
            nullable,
        }),
        _ => None,
    }
}

/// Another kind that holds no other.
fn plain_kind(word: &str) -> Option<KindNode> {
    let nullable = false;
    let number = 0;
    match word {
        "string" => Some(KindNode::Text { nullable }),
        "struct" => Some(KindNode::Struct { number, nullable }),
        "union" => Some(KindNode::Union { number, nullable }),
        _ => None,
    }
}

/// A handle, or an end of an interface.
fn endpoint(word: &str) -> Option<KindNode> {
    let nullable = false;
    let interface = 0;
    match word {
        "handle" => Some(KindNode::Handle {
            sort: HandleSort::Any,
            nullable,
        }),
        "pending_remote" => Some(KindNode::Remote {
            interface,
            nullable,
        }),
        "pending_receiver" => Some(KindNode::Receiver {
            interface,
            nullable,
        }),
        "pending_associated_remote" => Some(KindNode::AssociatedRemote {
            interface,
            nullable,
        }),
        "pending_associated_receiver" => Some(KindNode::AssociatedReceiver {
            interface,
            nullable,
        }),
        _ => None,
    }
}
