//! A script over a schema, by which texts are audited.

ghost use Rattle.std.specs.Prelude.{◌≤◌, length, IfOk, IfSome};
ghost use Rattle.std.specs.Arc.{arc_value};
ghost use Rattle.mj_base.specs.declared.limits.TheConstants.{MAX_FILE_BYTES};
ghost use Rattle.line_parts.specs.Schemas.{IsPrintableSchema};
ghost use Rattle.check_audits.specs.steps.Auditable.{IsAuditable};

use call_script::{Script, ScriptError, read_script};
use check_runs::walk::Walk;
use mj_base::limits::MAX_FILE_BYTES;
use mj_schema::Schema;
use mojom_compile::{Source, compile};
use std::alloc::{AllocError, Global};
use std::sync::Arc;

/// A script over a schema, which is shared with what runs the script and what audits by it.
#[derive(Drop)]
pub struct Subject {
    pub schema: Arc<Schema>,
    pub script: Script,
}

/// The schema of a file; none where it is refused.
fn schema_of(alloc: Global, source: Source) -> Option<Schema>
    ensures { IfSome result IsPrintableSchema }
{
    match compile(alloc, &[source]) {
        Ok(schema) => Some(schema),
        Err(_) => None,
    }
}

/// The script of bytes; none where they are no script.
fn script_of(alloc: Global, schema: &Schema, bytes: &[u8]) -> Result<Option<Script>, AllocError>
    requires words { IsPrintableSchema schema.now }
    requires short { length bytes.now ≤ MAX_FILE_BYTES }
    ensures { IfOk result (λ found. IfSome found (IsAuditable schema.now)) }
{
    match read_script(alloc, schema, bytes) {
        Ok(script) => Ok(Some(script)),
        Err(ScriptError::Refused { .. }) => Ok(None),
        Err(ScriptError::Memory) => Err(AllocError),
    }
}

/// A script over a schema that is shared from now on.
fn subject_over(
    alloc: Global,
    schema: Schema,
    script: Script,
) -> Result<Option<Subject>, AllocError>
    requires { IsAuditable schema script }
    ensures { IfOk result (λ found. IfSome found (λ subject. IsAuditable (arc_value subject.schema) subject.script)) }
{
    match Arc::new(alloc, schema) {
        Ok(shared) => Ok(Some(Subject {
            schema: shared,
            script,
        })),
        Err(_) => Err(AllocError),
    }
}

/// The script of bytes over a schema; none where they are no script.
fn subject_in(alloc: Global, schema: Schema, bytes: &[u8]) -> Result<Option<Subject>, AllocError>
    requires words { IsPrintableSchema schema }
    requires short { length bytes.now ≤ MAX_FILE_BYTES }
    ensures { IfOk result (λ found. IfSome found (λ subject. IsAuditable (arc_value subject.schema) subject.script)) }
{
    let Some(script) = script_of(alloc, &schema, bytes)? else {
        return Ok(None);
    };
    subject_over(alloc, schema, script)
}

/// The script of a walk's first lines over its definitions; none where these are refused, or the lines are no script.
pub fn subject_of(alloc: Global, walk: &Walk) -> Result<Option<Subject>, AllocError>
    ensures { IfOk result (λ found. IfSome found (λ subject. IsAuditable (arc_value subject.schema) subject.script)) }
{
    let text = walk.text(alloc, 0, 0)?;
    let source = walk.source(alloc)?;
    let bytes = text.as_bytes();
    if bytes.len() as u64 > MAX_FILE_BYTES {
        return Ok(None);
    }
    match schema_of(alloc, source) {
        Some(schema) => subject_in(alloc, schema, bytes),
        None => Ok(None),
    }
}
