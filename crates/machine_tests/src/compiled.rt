//! The tables of texts.

use mj_base::{Items, Text};
use mj_schema::Schema;
use mojom_compile::{Source, compile};
use std::alloc::{AllocError, Global};

/// The tables of a text; none where it is refused.
pub(crate) fn compiled(alloc: Global, text: &str) -> Result<Option<Schema>, AllocError> {
    let source = Source {
        name: Text::from_str(alloc, "t.mojom")?,
        bytes: Items::from_vec(Vec::from_slice(alloc, text.as_bytes())?),
    };
    Ok(compile(alloc, &[source]).ok())
}
