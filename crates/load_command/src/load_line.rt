//! The line of the numbers of a load.

ghost use Rattle.std.specs.Prelude.{◌≡◌, ◌≤◌, IfErr, IfOk};
ghost use Rattle.mojom_compile.specs.Schemas.{IsOfGiven, IsWhy};
ghost use Rattle.load_command.specs.LoadFile.{load_sources};
ghost use Rattle.load_command.specs.LoadLine.{Counted, HasCounts, counts_line};

use crate::load_file::load_schema;
use load_run::{Counts, load};
use mj_base::Items;
use mj_schema::Schema;
use mojom_compile::SchemaError;
use std::alloc::{AllocError, Global};
use std::sync::Arc;

/// The line of these numbers.
fn counts_text(alloc: Global, counts: Counts) -> Result<Items<u8>, AllocError>
    ensures { IfOk result (λ text. text ≡ counts_line counts) }
{
    let Counts {
        events,
        sent,
        got,
        ran,
        bytes,
    } = counts;
    let line = format!(in alloc;
        "events {events} sent {sent} got {got} ran {ran} bytes {bytes}\n"
    )?;
    let text = Vec::from_slice(alloc, line.as_bytes())?;
    Ok(Items::from_vec(text))
}

/// The line of a load over the schema of its file. The error is want of memory.
#[tactic(auto, using(crate::proofs::Counting::counted_so))]
fn run_load(
    alloc: Global,
    schema: Schema,
    seed: u64,
    messages: u64,
) -> Result<Items<u8>, SchemaError>
    requires { messages ≤ 1000000 }
    ensures text { IfOk result (Counted schema seed messages) }
    ensures memory { IfErr result (λ error. error ≡ SchemaError.Memory) }
{
    let Ok(schema) = Arc::new(alloc, schema) else {
        return Err(SchemaError::Memory);
    };
    let Ok(counts) = load(alloc, schema, seed, messages) else {
        return Err(SchemaError::Memory);
    };
    match counts_text(alloc, counts) {
        Ok(text) => Ok(text),
        Err(_) => Err(SchemaError::Memory),
    }
}

/// The line of the numbers of a load of so many messages, over the schema of its own file, which is in no
/// directory: they are drawn behind the seed. Or why that file has no schema; or want of memory.
pub fn load_text(alloc: Global, seed: u64, messages: u64) -> Result<Items<u8>, SchemaError>
    requires { messages ≤ 1000000 }
    ensures text { IfOk result (HasCounts seed messages) }
    ensures refused { IfErr result (IsWhy load_sources) }
    ensures given { IfErr result (IsOfGiven load_sources) }
{
    match load_schema(alloc) {
        Ok(schema) => run_load(alloc, schema, seed, messages),
        Err(error) => Err(error),
    }
}
