//! The Mojom file of a load.

ghost use Rattle.std.specs.Prelude.{◌≡◌, IfErr, IfOk};
ghost use Rattle.mojom_compile.specs.Schemas.{IsOfGiven, IsSchemaOfFiles, IsWhy};
ghost use Rattle.load_command.specs.LoadFile.{load_source, load_sources};

use mj_base::{Items, Text};
use mj_schema::Schema;
use mojom_compile::{SchemaError, Source, compile};
use std::alloc::{AllocError, Global};

/// The file: its name, and its bytes.
fn load_source(alloc: Global) -> Result<Source, AllocError>
    ensures { IfOk result (λ source. source ≡ load_source) }
{
    let text =
        "module load; interface Echo { Say(uint32 n, string s) => (uint32 n); Note(array<uint8> b); };";
    Ok(Source {
        name: Text::from_str(alloc, "load")?,
        bytes: Items::from_vec(Vec::from_slice(alloc, text.as_bytes())?),
    })
}

/// The schema of the file, or its refusal, as of any file.
pub fn load_schema(alloc: Global) -> Result<Schema, SchemaError>
    ensures schema { IfOk result (IsSchemaOfFiles load_sources) }
    ensures refused { IfErr result (IsWhy load_sources) }
    ensures given { IfErr result (IsOfGiven load_sources) }
{
    match load_source(alloc) {
        Ok(source) => compile(alloc, &[source]),
        Err(_) => Err(SchemaError::Memory),
    }
}
