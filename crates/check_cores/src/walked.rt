//! All walks and the runs of two groups, each compared.

use crate::compare::compare_walk;
use crate::groups::compare_groups;
use crate::tally::Tally;
use crate::two_groups::GROUP_DEFINITIONS;
use crate::walks::{DEFINITIONS, WALKS};
use mj_base::{Items, Text};
use mj_schema::Schema;
use mojom_compile::{Source, compile};
use std::alloc::{AllocError, Global};
use std::io;
use std::io::Print;
use std::sync::Arc;

/// The schema of definitions; none where they are refused.
fn schema_of(alloc: Global, definitions: &str) -> Result<Option<Schema>, AllocError> {
    let source = Source {
        name: Text::from_str(alloc, "t.mojom")?,
        bytes: Items::from_vec(Vec::from_slice(alloc, definitions.as_bytes())?),
    };
    Ok(compile(alloc, &[source]).ok())
}

/// Prints what came of a walk.
fn print_tally<R: Print>(rt: &R, name: &str, tally: &Tally) -> io::Result<()> {
    println!(rt;
        "{name}: {} lists, {} steps, {} differ",
        tally.lists, tally.steps, tally.differ
    )?;
    if let Some(first) = tally.first {
        let (told, wanted) = (first.told, first.wanted);
        println!(rt;
            "  list {}, turn {}: {told}, and not {wanted}",
            first.list, first.turn
        )?;
    }
    for count in &tally.counts {
        println!(rt; "  {} {}", count.times, count.reply)?;
    }
    Ok(())
}

/// Compares all walks over a schema, and prints what came of each.
fn compare_walks<R: Print + AllocGlobal>(rt: &R, schema: Schema) -> io::Result<Tally> {
    let schema = Arc::new(rt.alloc(), schema)?;
    let mut total = Tally::new(rt.alloc());
    for walk in &WALKS {
        let tally = compare_walk(rt.alloc(), &schema, walk)?;
        print_tally(rt, walk.name, &tally)?;
        total.add(&tally);
    }
    Ok(total)
}

/// Compares the runs of two groups, and prints what came of them; whether nothing differs.
fn run_groups<R: Print + AllocGlobal>(rt: &R) -> io::Result<bool> {
    let Some(schema) = schema_of(rt.alloc(), GROUP_DEFINITIONS)? else {
        println!(rt; "the definitions of two groups are refused")?;
        return Ok(false);
    };
    let schema = Arc::new(rt.alloc(), schema)?;
    let sums = compare_groups(rt.alloc(), &schema)?;
    println!(rt;
        "of two groups: {} runs, {} changed messages, {} replies to the other group, {} differ",
        sums.runs, sums.edits, sums.replies, sums.differ
    )?;
    Ok(sums.differ == 0)
}

/// Compares all walks and the runs of two groups, and prints what came of each; whether nothing differs.
pub fn run<R: Print + AllocGlobal>(rt: &R) -> io::Result<bool> {
    let Some(schema) = schema_of(rt.alloc(), DEFINITIONS)? else {
        println!(rt; "the definitions are refused")?;
        return Ok(false);
    };
    let total = compare_walks(rt, schema)?;
    println!(rt;
        "{} lists, {} steps, differ {}",
        total.lists, total.steps, total.differ
    )?;
    Ok(run_groups(rt)? && total.differ == 0)
}
