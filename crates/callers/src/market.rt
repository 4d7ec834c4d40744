//! A market: its text, its messages, and the calls over it.

use crate::calls::buy;
use crate::messages::{order, read, sealed};
use crate::seated::buy_seated;
use anyhow::{Result, bail};
use mj_base::{Items, Text};
use mj_schema::Schema;
use mojom_compile::{Source, compile};
use remote_receiver::Note;
use std::alloc::Global;
use std::io::Print;
use std::sync::{Arc, Wait};

/// What the calls are of.
const MARKET: &str = "module market;
interface Stall {
  Buy(string item, int32? count) => (int64 cents);
};
";

/// The tables of the text.
fn compiled(alloc: Global) -> Result<Schema> {
    let source = Source {
        name: Text::from_str(alloc, "market.mojom")?,
        bytes: Items::from_vec(Vec::from_slice(alloc, MARKET.as_bytes())?),
    };
    match compile(alloc, &[source]) {
        Ok(schema) => Ok(schema),
        Err(_) => bail!("market.mojom is refused"),
    }
}

/// Makes the message of an order and reads it again, whole and without its last eight bytes.
fn show_message<R: Print + AllocGlobal>(
    rt: &R,
    schema: &Schema,
    interface: u32,
    count: Option<i32>,
) -> Result<()> {
    let alloc = rt.alloc();
    let prepared = order(alloc, schema, interface, "tea", count)?;
    let bytes = sealed(alloc, &prepared)?;
    let cut = bytes.len().saturating_sub(8);
    for len in [bytes.len(), cut] {
        let front = bytes.get(..len).unwrap_or(&bytes);
        match read(alloc, schema, interface, front)? {
            Ok(text) => println!(rt; "{len} bytes say {text}")?,
            Err(fault) => println!(rt;
                "{len} bytes are refused: {:?} at {}",
                fault.kind, fault.at
            )?,
        }
    }
    Ok(())
}

/// Says what became of each job, and how many things aren't closed.
fn show_notes<R: Print + AllocGlobal>(rt: &R, notes: &[Note], left: usize) -> Result<()> {
    for note in notes {
        let request = note.key.request;
        if note.ran {
            println!(rt; "request {request}: its job got {} cents", note.note)?;
        } else {
            println!(rt; "request {request}: its job was dropped")?;
        }
    }
    println!(rt; "left open: {left}")?;
    Ok(())
}

/// Calls over a core, and from a seat at a hub, and says what became of each job.
fn show_calls<R: Print + AllocGlobal + Wait>(
    rt: &R,
    schema: &Arc<Schema>,
    interface: u32,
) -> Result<()> {
    let (notes, left) = buy(rt.alloc(), schema, interface)?;
    show_notes(rt, notes.as_slice(), left)?;
    println!(rt; "from a seat:")?;
    let (notes, left) = buy_seated(rt, rt.alloc(), schema, interface)?;
    show_notes(rt, notes.as_slice(), left)
}

/// Compiles the text, shows the messages of two orders and calls; prints what came of each.
pub fn run<R: Print + AllocGlobal + Wait>(rt: &R) -> Result<()> {
    let schema = Arc::new(rt.alloc(), compiled(rt.alloc())?)?;
    let Some(interface) = schema.find_interface("market.Stall") else {
        bail!("there is no market.Stall")
    };
    println!(rt; "market.Stall is interface {interface}")?;
    show_message(rt, &schema, interface, Some(3))?;
    show_message(rt, &schema, interface, None)?;
    show_calls(rt, &schema, interface)
}
