//! Schemas of files, and scripts over them.

use check_files::bytes_of;
use mj_base::limits::MAX_FILE_BYTES;
use mj_base::{Items, Text};
use mj_schema::Schema;
use mojom_compile::{Source, compile};
use std::alloc::AllocError;
use std::io;
use std::io::Print;
use std::sync::Arc;

/// The schema of a file; none where it can't be read or is refused, or where memory is wanting.
pub fn schema_at<R: std::rt::Files + AllocGlobal>(
    rt: &R,
    name: &str,
) -> Result<Option<Schema>, AllocError> {
    let Some(bytes) = bytes_of(rt, name, MAX_FILE_BYTES) else {
        return Ok(None);
    };
    let source = Source {
        name: Text::from_str(rt.alloc(), name)?,
        bytes: Items::from_vec(bytes),
    };
    Ok(compile(rt.alloc(), &[source]).ok())
}

/// The schema of a file, and the bytes of a script; none where one of them isn't there, which is said.
pub fn schema_and_script<R: std::rt::Files + Print + AllocGlobal>(
    rt: &R,
    mojom: &str,
    script: &str,
) -> io::Result<Option<(Arc<Schema>, Vec<u8>)>> {
    let Some(schema) = schema_at(rt, mojom)? else {
        println!(rt; "{mojom}: no schema")?;
        return Ok(None);
    };
    let Some(text) = bytes_of(rt, script, MAX_FILE_BYTES) else {
        println!(rt; "{script}: it can't be read")?;
        return Ok(None);
    };
    let schema = Arc::new(rt.alloc(), schema)?;
    Ok(Some((schema, text)))
}
