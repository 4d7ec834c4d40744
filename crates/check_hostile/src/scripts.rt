//! Scripts: either refused, or run as the literal machine runs them.

use call_script::{ScriptError, read_script};
use check_messages::compare::Verdict;
use check_runs::Played;
use mj_schema::Schema;
use std::alloc::{AllocError, Global};
use std::sync::Arc;

/// The most lines of a script, since the literal machine reads all events again for each.
const MOST_LINES: u32 = 30;

/// The first lines of bytes.
fn first_lines(bytes: &[u8]) -> &[u8] {
    let mut lines: u32 = 0;
    for (place, byte) in bytes.iter().enumerate() {
        if *byte == b'\n' {
            lines = lines.saturating_add(1);
            if lines >= MOST_LINES {
                return bytes.get(..place).unwrap_or(bytes);
            }
        }
    }
    bytes
}

/// Bytes that are no text are no script.
fn judge_bytes(alloc: Global, schema: &Schema, bytes: &[u8]) -> Result<Verdict, AllocError> {
    match read_script(alloc, schema, bytes) {
        Ok(_script) => Ok(Verdict::Differs),
        Err(ScriptError::Refused { .. }) => Ok(Verdict::Refused),
        Err(ScriptError::Memory) => Err(AllocError),
    }
}

/// Compares the run of a script's first lines in an order.
pub fn judge_script(
    alloc: Global,
    schema: &Arc<Schema>,
    bytes: &[u8],
    order: u64,
) -> Result<Verdict, AllocError> {
    let lines = first_lines(bytes);
    let Ok(text) = str::from_utf8(lines) else {
        return judge_bytes(alloc, schema, lines);
    };
    let Some(played) = Played::new(alloc, schema, text, order)? else {
        return Ok(Verdict::Refused);
    };
    if played.is_right(alloc)? {
        Ok(Verdict::Stands)
    } else {
        Ok(Verdict::Differs)
    }
}

/// Lets the reader of scripts alone judge bytes.
pub fn read_alone(alloc: Global, schema: &Schema, bytes: &[u8]) {
    let _script = read_script(alloc, schema, bytes).ok();
}
