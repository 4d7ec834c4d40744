//! The audit of a text.

ghost use Rattle.std.specs.Prelude.{◌≡◌, ◌≤◌, ℕ, List, Err, IfErr, IfOk};
ghost use Rattle.std.specs.Arc.{arc_value};
ghost use Rattle.mj_base.specs.declared.limits.TheConstants.{MAX_FILE_BYTES};
ghost use Rattle.call_script.specs.Script.{IsScriptOf};
ghost use Rattle.call_script.specs.Sound.{IsScript};
ghost use Rattle.byte_rules.specs.Judged.{Spells};
ghost use Rattle.call_script.specs.declared.script.Script.{Script as script_of};
ghost use Rattle.history_reader.specs.Whole.{history as history_rule};
ghost use Rattle.line_parts.specs.Schemas.{IsPrintableSchema};
ghost use Rattle.history_audit.specs.Audited.{Audits};

use crate::judge::judge;
use call_script::Script;
use event_follow::follow;
use history_reader::{Printed, read_history};
use mj_schema::Schema;
use printed_runs::runs_in_any_order_can_be_printed;
use std::alloc::Global;
use std::sync::Arc;
use thiserror::Error;
use value_text::TextError;

/// What is said of a text.
#[derive(Clone, Copy)]
pub enum AuditFinding {
    /// It is that of a whole run, with so many events.
    Sound(u64),
    /// The event of this number is the first with which no run begins.
    Wrong(u64),
    /// Its events, of which there are so many, end before the run does.
    Short(u64),
    /// Its events are those of a whole run, and this line, from 1, is the first that differs from the run's.
    Tail(u64),
}

/// Why nothing is said of a text.
#[derive(Clone, Copy, Debug, Error)]
pub enum AuditError {
    /// The first byte with which no history's text goes on; at the end, the length.
    #[error("bad text at byte {at}")]
    BadText { at: u64 },
    /// Memory ran out, which may befall any text.
    #[error("out of memory")]
    Memory,
}

/// What a text says.
fn read(alloc: Global, schema: &Schema, bytes: &[u8]) -> Result<Printed, AuditError>
    ensures says { IfOk result (λ printed. Spells (history_rule schema.now) printed bytes.now) }
    ensures bad { (script : script_of) → IfErr result (λ error. Audits schema.now script bytes.now (Err error)) }
{
    match read_history(alloc, schema, bytes) {
        Ok(printed) => Ok(printed),
        Err(TextError::BadText { at }) => Err(AuditError::BadText { at }),
        Err(TextError::Memory) => Err(AuditError::Memory),
    }
}

/// Judges what a text says by a script over a schema that is shared.
fn audit_printed(
    alloc: Global,
    schema: &Schema,
    shared: Arc<Schema>,
    script: &Script,
    printed: &Printed,
    bytes: &[u8],
) -> Result<AuditFinding, AuditError>
    requires same { arc_value shared ≡ schema.now }
    requires words { IsPrintableSchema schema.now }
    requires sound { IsScript schema.now script.now }
    requires read { (source : List ℕ) × IsScriptOf schema.now source script.now }
    requires short { script.now.bytes ≤ MAX_FILE_BYTES }
    requires says { Spells (history_rule schema.now) printed.now bytes.now }
    ensures audits { Audits schema.now script.now bytes.now result }
{
    // A law, on which what is said of texts rests: it does nothing.
    runs_in_any_order_can_be_printed();
    let events = printed.events.as_slice();
    let count = printed.events.len();
    match follow(alloc, shared, script, events) {
        Ok(followed) => judge(alloc, schema, &followed, count, bytes),
        Err(_) => Err(AuditError::Memory),
    }
}

/// Judges a text by a script over a schema that is shared.
fn audit_over(
    alloc: Global,
    schema: &Schema,
    shared: Arc<Schema>,
    script: &Script,
    bytes: &[u8],
) -> Result<AuditFinding, AuditError>
    requires same { arc_value shared ≡ schema.now }
    requires words { IsPrintableSchema schema.now }
    requires sound { IsScript schema.now script.now }
    requires read { (source : List ℕ) × IsScriptOf schema.now source script.now }
    requires short { script.now.bytes ≤ MAX_FILE_BYTES }
    ensures audits { Audits schema.now script.now bytes.now result }
{
    match read(alloc, schema, bytes) {
        Ok(printed) => audit_printed(alloc, schema, shared, script, &printed, bytes),
        Err(error) => Err(error),
    }
}

/// Judges a text by a script: whether it is that of a run of the script, in whatever order its sequences did
/// their lines. What the script asks is looked up in tables of the events before, in the order in which the
/// text says that the sequences came, and what a run would print is compared: no core runs, and nobody has
/// handles. Takes time in proportion to the text and to a run, and to the logarithm of how much there is.
pub fn audit(
    alloc: Global,
    schema: Arc<Schema>,
    script: &Script,
    bytes: &[u8],
) -> Result<AuditFinding, AuditError>
    requires words { IsPrintableSchema (arc_value schema) }
    requires sound { IsScript (arc_value schema) script.now }
    requires read { (source : List ℕ) × IsScriptOf (arc_value schema) source script.now }
    requires short { script.now.bytes ≤ MAX_FILE_BYTES }
    ensures audits { Audits (arc_value schema) script.now bytes.now result }
{
    let Ok(shared) = Arc::try_clone(&schema) else {
        return Err(AuditError::Memory);
    };
    audit_over(alloc, &schema, shared, script, bytes)
}
