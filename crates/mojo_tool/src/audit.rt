//! From a script, a history and the files to what an audit says of it, or to why it says nothing.

ghost use Rattle.std.specs.Prelude.{ℕ, ◌≡◌, ◌≤◌, ◌∷◌, [], ◌++◌, List, Ok, Some, map, IfOk, IfErr, OnOk};
ghost use Rattle.std.specs.Arc.{arc_value};
ghost use Rattle.mj_base.specs.declared.limits.TheConstants.{MAX_FILE_BYTES};
ghost use Rattle.mj_schema.specs.declared.schema.Schema.{Schema as schema_of};
ghost use Rattle.mj_io.specs.Outside.{FilesGoOn};
ghost use Rattle.call_script.specs.Script.{IsScriptOf};
ghost use Rattle.call_script.specs.Sound.{IsScript};
ghost use Rattle.call_script.specs.declared.script.Script.{Script as script_of};
ghost use Rattle.command_line.specs.Asked.{Audit as asks_audit, audit_words};
ghost use Rattle.history_audit.specs.Audited.{Audits};
ghost use Rattle.mojom_compile.specs.Schemas.{IsSchemaOfFiles};
ghost use Rattle.mojom_compile.specs.declared.source.Source.{Source as source};
ghost use Rattle.mojo_tool.specs.Work.{ComesTo, Gathering, Auditing, AuditingAll, Historying, Unsounds, audited};
ghost use Rattle.mojo_tool.specs.Answers.{FileAsks, IsSoundText, RefusedFrom};
ghost use Rattle.mojo_tool.specs.Lines.{sound_line};
ghost use Rattle.mojo_tool.specs.Fetched.{FetchedAll};
ghost use Rattle.mojo_tool.specs.steps.Audits.{IsEither, IsLateSound, LateAsks};
ghost use Rattle.mojo_tool.specs.steps.Made.{StoppedAfter, StoppedBoth, StoppedFrom, StoppedHistory};
ghost use Rattle.mojo_tool.specs.steps.Messages.{IsFileText, IsTextOfWork};
ghost use Rattle.mojo_tool.specs.steps.Stops.{Stops, StopsAt, IsOf};

use crate::check::fetch_schema;
use crate::decide::{Stop, fetch};
use crate::refusal::ToolRefusal;
use crate::run::read_script;
use call_script::Script;
use history_audit::{AuditError, AuditFinding, audit};
use mj_base::Items;
use mj_io::Files;
use mj_schema::Schema;
use mojom_print::{push_number, push_text};
use std::alloc::{AllocError, Global};
use std::sync::Arc;

/// How many events a history has that is sound.
fn sound_line(alloc: Global, events: u64) -> Result<Items<u8>, AllocError>
    ensures { IfOk result (λ text. text ≡ sound_line events) }
{
    let mut line = Vec::new(alloc);
    push_text(&mut line, "sound ")?;
    push_number(&mut line, events)?;
    push_text(&mut line, "\n")?;
    Ok(Items::from_vec(line))
}

/// The events of a history that is sound, or the refusal of one that isn't.
fn sound_events<'a>(answer: AuditFinding) -> Result<u64, Stop<'a>>
    ensures sound { IfOk result (λ events. answer ≡ AuditFinding.Sound events) }
    ensures unsound { IfErr result (λ stop. (stop ≡ Stop.Refused (ToolRefusal.Unsound answer)) × (Unsounds answer ≡ audited answer)) }
{
    match answer {
        AuditFinding::Sound(events) => Ok(events),
        AuditFinding::Wrong(_) => Err(Stop::Refused(ToolRefusal::Unsound(answer))),
        AuditFinding::Short(_) => Err(Stop::Refused(ToolRefusal::Unsound(answer))),
        AuditFinding::Tail(_) => Err(Stop::Refused(ToolRefusal::Unsound(answer))),
    }
}

/// The text of what an audit says.
fn say<'a>(alloc: Global, answer: AuditFinding) -> Result<Items<u8>, Stop<'a>>
    ensures text { IfOk result (λ text. (schema : schema_of) (script : script_of) (bytes : List ℕ)
        → Audits schema script bytes (Ok answer) → IsTextOfWork (Auditing schema script bytes) text) }
    ensures stop { IfErr result (λ stop. (schema : schema_of) (script : script_of) (bytes : List ℕ)
        → Audits schema script bytes (Ok answer) → StopsAt (Auditing schema script bytes) stop) }
    ensures named { IfErr result (IsOf (λ named. ⊥)) }
{
    match sound_events(answer) {
        Err(stop) => Err(stop),
        Ok(events) => match sound_line(alloc, events) {
            Ok(text) => Ok(text),
            Err(_) => Err(Stop::NoMemory),
        },
    }
}

/// What an audit says of a history's bytes, over a schema that is shared with its tables.
#[tactic(auto, using(crate::proofs::Histories::bad_stops))]
fn audit_shared<'a>(
    alloc: Global,
    schema: Arc<Schema>,
    script: &Script,
    bytes: &[u8],
) -> Result<Items<u8>, Stop<'a>>
    requires sound { IsScript (arc_value schema) script.now }
    requires short { script.now.bytes ≤ MAX_FILE_BYTES }
    requires read { (bytes : List ℕ) × IsScriptOf (arc_value schema) bytes script.now }
    requires compiled { (sources : List source) × IsSchemaOfFiles sources (arc_value schema) }
    ensures text { IfOk result (IsTextOfWork (Auditing (arc_value schema) script.now bytes.now)) }
    ensures stop { IfErr result (StopsAt (Auditing (arc_value schema) script.now bytes.now)) }
    ensures named { IfErr result (IsOf (λ named. ⊥)) }
{
    match audit(alloc, schema, script, bytes) {
        Ok(answer) => say(alloc, answer),
        Err(AuditError::BadText { at }) => Err(Stop::Refused(ToolRefusal::BadText(at))),
        Err(AuditError::Memory) => Err(Stop::NoMemory),
    }
}

/// What an audit says of a history's bytes.
fn audit_bytes<'a>(
    alloc: Global,
    schema: Schema,
    script: &Script,
    bytes: &[u8],
) -> Result<Items<u8>, Stop<'a>>
    requires sound { IsScript schema script.now }
    requires short { script.now.bytes ≤ MAX_FILE_BYTES }
    requires read { (bytes : List ℕ) × IsScriptOf schema bytes script.now }
    requires compiled { (sources : List source) × IsSchemaOfFiles sources schema }
    ensures text { IfOk result (IsTextOfWork (Auditing schema script.now bytes.now)) }
    ensures stop { IfErr result (StopsAt (Auditing schema script.now bytes.now)) }
    ensures named { IfErr result (IsOf (λ named. ⊥)) }
{
    match Arc::new(alloc, schema) {
        Ok(shared) => audit_shared(alloc, shared, script, bytes),
        Err(_) => Err(Stop::NoMemory),
    }
}

/// What an audit says of the history of that name.
fn audit_file<'a, F: Files>(
    alloc: Global,
    schema: Schema,
    script: &Script,
    name: &'a str,
    files: &mut F,
) -> Result<Items<u8>, Stop<'a>>
    requires sound { IsScript schema script.now }
    requires short { script.now.bytes ≤ MAX_FILE_BYTES }
    requires read { (bytes : List ℕ) × IsScriptOf schema bytes script.now }
    requires compiled { (sources : List source) × IsSchemaOfFiles sources schema }
    ensures on { FilesGoOn (F.state files.old) (F.state files.new) }
    ensures text { IfOk result (IsFileText name.now (Auditing schema script.now) (F.state files.old).read (F.state files.new).read
        (F.state files.old).held (λ files work. Historying files name.now schema script.now work)) }
    ensures stop { IfErr result (Stops (F.state files.old) (F.state files.new) (λ files work. Historying files name.now schema script.now work)) }
    ensures named { IfErr result (IsOf (λ named. named ≡ name.now)) }
    ensures whole { OnOk result (FetchedAll (name.now ∷ []) (F.state files.old).fetches (F.state files.new).fetches) }
    ensures stopped { IfErr result (StoppedHistory name.now (F.state files.old).fetches (F.state files.new).fetches) }
    ensures refused { IfErr result (StoppedFrom (FileAsks name.now (Auditing schema script.now) (F.state files.old).read (F.state files.new).read)) }
{
    match fetch(alloc, files, name) {
        Err(stop) => Err(stop),
        Ok(bytes) => audit_bytes(alloc, schema, script, bytes.as_slice()),
    }
}

/// What an audit says of a history by a script, both by their names.
fn audit_files<'a, F: Files>(
    alloc: Global,
    schema: Schema,
    script: &'a str,
    history: &'a str,
    files: &mut F,
) -> Result<Items<u8>, Stop<'a>>
    requires compiled { (sources : List source) × IsSchemaOfFiles sources schema }
    ensures on { FilesGoOn (F.state files.old) (F.state files.new) }
    ensures text { IfOk result (IsLateSound script.now history.now schema (F.state files.old).read (F.state files.new).read (F.state files.old).held
        (λ files work. AuditingAll files script.now history.now schema work)) }
    ensures stop { IfErr result (Stops (F.state files.old) (F.state files.new)
        (λ files work. AuditingAll files script.now history.now schema work)) }
    ensures named { IfErr result (IsOf (IsEither script.now history.now (F.state files.old).held schema)) }
    ensures whole { OnOk result (FetchedAll (script.now ∷ history.now ∷ []) (F.state files.old).fetches (F.state files.new).fetches) }
    ensures stopped { IfErr result (StoppedBoth script.now history.now (F.state files.old).fetches (F.state files.new).fetches) }
    ensures refused { IfErr result (StoppedFrom (LateAsks script.now history.now schema (F.state files.old).read (F.state files.new).read)) }
{
    match fetch(alloc, files, script) {
        Err(stop) => Err(stop),
        Ok(bytes) => match read_script(alloc, &schema, bytes.as_slice()) {
            Err(stop) => Err(stop),
            Ok(read) => audit_file(alloc, schema, &read, history, files),
        },
    }
}

/// What an audit says that the names and the files ask for.
pub fn decide_audit<'a, F: Files>(
    alloc: Global,
    script: &'a str,
    history: &'a str,
    names: &[&'a str],
    files: &mut F,
) -> Result<Items<u8>, Stop<'a>>
    ensures on { FilesGoOn (F.state files.old) (F.state files.new) }
    ensures text { IfOk result (IsSoundText (audit_words script.now history.now (map (λ name. name.now) names.now))
        (F.state files.old).read (F.state files.new).read (F.state files.old).held
        (λ files work. Gathering files (map (λ name. name.now) names.now) (AuditingAll files script.now history.now) work)) }
    ensures stop { IfErr result (Stops (F.state files.old) (F.state files.new)
        (λ files work. Gathering files (map (λ name. name.now) names.now) (AuditingAll files script.now history.now) work)) }
    ensures reached { IfErr result (IsOf (ComesTo (Some (asks_audit (audit_words script.now history.now (map (λ name. name.now) names.now))))
        (F.state files.old).held)) }
    ensures whole { OnOk result (FetchedAll (map (λ name. name.now) names.now ++ script.now ∷ history.now ∷ [])
        (F.state files.old).fetches (F.state files.new).fetches) }
    ensures stopped { IfErr result (StoppedAfter (map (λ name. name.now) names.now) (script.now ∷ history.now ∷ [])
        (F.state files.old).fetches (F.state files.new).fetches) }
    ensures refused { IfErr result (StoppedFrom (RefusedFrom (Some (asks_audit (audit_words script.now history.now (map (λ name. name.now) names.now))))
        (F.state files.old).read (F.state files.new).read)) }
{
    match fetch_schema(alloc, names, files) {
        Err(stop) => Err(stop),
        Ok(schema) => audit_files(alloc, schema, script, history, files),
    }
}
