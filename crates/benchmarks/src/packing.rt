//! How long the packing of a struct's fields takes.

ghost use Rattle.std.specs.Prelude.{◌≡◌, ◌≤◌, IfOk, length};

use field_packing::pack;
use mj_base::limits::MAX_FIELDS;
use mj_schema::{HandleSort, Kind, KindNode, Width};
use std::alloc::{AllocError, Global};
use std::io;
use std::io::Print;
use std::time::CpuClock;

/// How often each list is packed.
const ROUNDS: u32 = 1000;

fn integer(width: Width) -> KindNode {
    KindNode::Int {
        width,
        signed: true,
        nullable: false,
    }
}

/// The kinds in turn: small fields between large ones, so that holes are left and filled.
fn kind(place: usize) -> KindNode {
    let nullable = false;
    match place % 12 {
        0 | 3 | 7 => KindNode::Bool { nullable },
        1 | 10 => integer(Width::Bits8),
        2 => KindNode::Remote {
            interface: 0,
            nullable,
        },
        4 => integer(Width::Bits64),
        5 => integer(Width::Bits16),
        6 => KindNode::Union {
            number: 0,
            nullable,
        },
        8 => integer(Width::Bits32),
        9 => KindNode::Text { nullable },
        _ => KindNode::Handle {
            sort: HandleSort::Any,
            nullable,
        },
    }
}

fn kinds(alloc: Global, count: usize) -> Result<Vec<Kind>, AllocError>
    ensures { IfOk result (λ kinds. length kinds.items ≡ count) }
{
    let mut kinds = Vec::new(alloc);
    for place in 0..count {
        kinds.push(Kind::new(kind(place)))?;
    }
    Ok(kinds)
}

/// Prints the nanoseconds of one packing of so many fields.
fn time<R: Print + AllocGlobal + CpuClock>(rt: &R, count: usize) -> io::Result<()>
    requires { count ≤ MAX_FIELDS }
{
    let kinds = kinds(rt.alloc(), count)?;
    let start = rt.thread_cpu_time()?;
    for _ in 0..ROUNDS {
        let _places = pack(rt.alloc(), &kinds)?;
    }
    let end = rt.thread_cpu_time()?;
    let nanoseconds = end.saturating_sub(start).as_nanos() / u128::from(ROUNDS);
    println!(rt; "{count} fields: {nanoseconds} ns")
}

/// Times the packing of 256, 1,024 and 4,096 fields of mixed kinds.
pub fn time_all<R: Print + AllocGlobal + CpuClock>(rt: &R) -> io::Result<()> {
    time(rt, 256)?;
    time(rt, 1024)?;
    time(rt, MAX_FIELDS)
}
