//! Where texts differ.

ghost use Rattle.std.specs.Prelude.{◌≡◌, IfNone, IfOk, IfSome};
ghost use Rattle.history_audit.specs.Audited.{first_differing};
ghost use Rattle.history_audit.specs.steps.Said.{SaysFirst};

use bind_model::Event;
use history_text::push_event;
use mj_schema::Schema;
use std::alloc::{AllocError, Global};

/// How many of these events a text says, from its first line on.
pub fn count_said(
    alloc: Global,
    schema: &Schema,
    events: &[Event],
    bytes: &[u8],
) -> Result<usize, AllocError>
    ensures { IfOk result (SaysFirst schema.now events.now bytes.now) }
{
    let mut at = 0;
    let mut number = 0;
    for event in events {
        let mut line = Vec::new(alloc);
        push_event(alloc, &mut line, schema, number, event)?;
        if !bytes[at..].starts_with(line.as_slice()) {
            return Ok(number);
        }
        at += line.len();
        number += 1;
    }
    Ok(number)
}

/// The number, from 1, of the first line that differs; none where the texts are the same.
pub fn first_difference(bytes: &[u8], text: &[u8]) -> Option<u64>
    ensures same { IfNone result (bytes.now ≡ text.now) }
    ensures differs { IfSome result (λ line. (bytes.now ≡ text.now → ⊥) × (line ≡ first_differing 1 bytes.now text.now)) }
{
    let mut line = 1;
    for at in 0..bytes.len() {
        if at >= text.len() {
            return Some(line);
        }
        if bytes[at] != text[at] {
            return Some(line);
        }
        if bytes[at] == b'\n' {
            line += 1;
        }
    }
    if bytes.len() < text.len() {
        Some(line)
    } else {
        None
    }
}
