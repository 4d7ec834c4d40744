//! A text compared with the run that follows it.

ghost use Rattle.std.specs.Prelude.{◌≡◌, Ok, IfErr, IfOk, reverse};
ghost use Rattle.bind_model.specs.Left.{left};
ghost use Rattle.callback_laws.specs.Callbacks.{callbacks};
ghost use Rattle.call_script.specs.declared.script.Script.{Script as script_of};
ghost use Rattle.history_reader.specs.declared.printed.Printed.{Printed as printed_of};
ghost use Rattle.history_text.specs.History.{history_text};
ghost use Rattle.history_audit.specs.Audited.{Audits};
ghost use Rattle.history_audit.specs.steps.Said.{Compares, IsAudited};

use crate::auditing::{AuditError, AuditFinding};
use crate::texts::{count_said, first_difference};
use history_text::render;
use mj_schema::Schema;
use script_run::{Followed, Ran};
use std::alloc::{AllocError, Global};

/// The text of a run.
fn text_of(alloc: Global, schema: &Schema, ran: &Ran) -> Result<Vec<u8>, AllocError>
    ensures { IfOk result (λ text. text.items ≡ history_text schema.now ran.now.history.events ran.now.notes ran.now.left) }
{
    render(
        alloc,
        schema,
        &ran.history,
        ran.notes.as_slice(),
        ran.left.as_slice(),
    )
}

/// Compares a text whose events are those of a whole run with the run's text.
fn compare(
    alloc: Global,
    schema: &Schema,
    ran: &Ran,
    bytes: &[u8],
) -> Result<AuditFinding, AuditError>
    ensures compares { IfOk result (λ audit. (script : script_of) → ran.now.left ≡ left script.seqs (reverse ran.now.history.events)
        → ran.now.notes ≡ callbacks script.seqs ran.now.history.events → Compares schema.now script ran.now.history.events bytes.now audit) }
    ensures memory { IfErr result (λ error. error ≡ AuditError.Memory) }
{
    let Ok(text) = text_of(alloc, schema, ran) else {
        return Err(AuditError::Memory);
    };
    match first_difference(bytes, text.as_slice()) {
        None => Ok(AuditFinding::Sound(ran.history.len() as u64)),
        Some(line) => Ok(AuditFinding::Tail(line)),
    }
}

/// Judges a text that says so many events, by the run that follows them.
pub fn judge(
    alloc: Global,
    schema: &Schema,
    followed: &Followed,
    count: usize,
    bytes: &[u8],
) -> Result<AuditFinding, AuditError>
    ensures audits { IfOk result (λ audit. (script : script_of) (printed : printed_of)
        → IsAudited schema.now script printed bytes.now count followed.now → Audits schema.now script bytes.now (Ok audit)) }
    ensures memory { IfErr result (λ error. error ≡ AuditError.Memory) }
{
    let history = &followed.ran.history;
    let Ok(said) = count_said(alloc, schema, history.as_slice(), bytes) else {
        return Err(AuditError::Memory);
    };
    if said < count {
        return Ok(AuditFinding::Wrong(said as u64));
    }
    let whole = followed.whole;
    let size = history.len();
    if !whole {
        return Ok(AuditFinding::Short(count as u64));
    }
    if size != count {
        return Ok(AuditFinding::Short(count as u64));
    }
    compare(alloc, schema, &followed.ran, bytes)
}
