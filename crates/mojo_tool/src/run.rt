//! From a script, an order and the files to the text of its history, or to why there is none.

ghost use Rattle.std.specs.Prelude.{ℕ, ◌≡◌, ◌≤◌, ◌∷◌, [], ◌++◌, List, Some, length, map, IfOk, IfErr, OnOk};
ghost use Rattle.std.specs.Arc.{arc_value};
ghost use Rattle.mj_io.specs.Outside.{FilesGoOn};
ghost use Rattle.call_script.specs.Script.{IsScriptOf};
ghost use Rattle.call_script.specs.Sound.{IsScript};
ghost use Rattle.command_line.specs.Asked.{Run, run_words};
ghost use Rattle.mojom_compile.specs.Schemas.{IsSchemaOfFiles};
ghost use Rattle.mojom_compile.specs.declared.source.Source.{Source as source};
ghost use Rattle.mojo_tool.specs.Work.{ComesTo, Reading, Scripting, Running};
ghost use Rattle.mojo_tool.specs.Answers.{FileAsks, IsTextOf, IsRunText, RefusedFrom};
ghost use Rattle.mojo_tool.specs.Fetched.{FetchedAll};
ghost use Rattle.mojo_tool.specs.steps.Made.{StoppedLate, StoppedAfter, StoppedFrom};
ghost use Rattle.mojo_tool.specs.steps.Messages.{IsScriptText};
ghost use Rattle.mojo_tool.specs.steps.Stops.{Stops, IsOf, NoScript};

use crate::check::fetch_schema;
use crate::decide::{Stop, fetch};
use crate::refusal::ToolRefusal;
use call_script::{Script, ScriptError};
use history_text::render;
use mj_base::Items;
use mj_base::limits::MAX_FILE_BYTES;
use mj_io::Files;
use mj_schema::Schema;
use script_run::run_alone;
use std::alloc::Global;
use std::sync::Arc;
use wire_encoder::laws::passed_is_encodable;

/// The script that the bytes are.
pub fn read_script<'a>(alloc: Global, schema: &Schema, bytes: &[u8]) -> Result<Script, Stop<'a>>
    ensures script { IfOk result (IsScriptOf schema.now bytes.now) }
    ensures sound { IfOk result (IsScript schema.now) }
    ensures counted { IfOk result (λ script. script.bytes ≡ length bytes.now) }
    ensures stop { IfErr result (NoScript schema.now bytes.now) }
    ensures named { IfErr result (IsOf (λ named. ⊥)) }
{
    match call_script::read_script(alloc, schema, bytes) {
        Ok(script) => Ok(script),
        Err(ScriptError::Refused { line, why }) => {
            Err(Stop::Refused(ToolRefusal::RefusedLine(line, why)))
        }
        Err(ScriptError::Memory) => Err(Stop::NoMemory),
    }
}

/// The text of the script's history, where its sequences go on by this order. The error is want of memory.
#[tactic(auto, using(crate::proofs::Ran::text_of_run))]
fn run<'a>(
    alloc: Global,
    schema: Schema,
    script: &Script,
    order: u64,
) -> Result<Items<u8>, Stop<'a>>
    requires sound { IsScript schema script.now }
    requires short { script.now.bytes ≤ MAX_FILE_BYTES }
    requires read { (bytes : List ℕ) × IsScriptOf schema bytes script.now }
    requires compiled { (sources : List source) × IsSchemaOfFiles sources schema }
    ensures text { IfOk result (IsTextOf schema script.now (Some order)) }
    ensures memory { IfErr result (λ stop. stop ≡ Stop.NoMemory) }
{
    // A law, on which those of texts and replies rest: it does nothing.
    passed_is_encodable();
    let Ok(schema) = Arc::new(alloc, schema) else {
        return Err(Stop::NoMemory);
    };
    let Ok(shared) = Arc::try_clone(&schema) else {
        return Err(Stop::NoMemory);
    };
    let Ok(ran) = run_alone(alloc, shared, script, order) else {
        return Err(Stop::NoMemory);
    };
    let (notes, left) = (ran.notes.as_slice(), ran.left.as_slice());
    match render(alloc, &schema, &ran.history, notes, left) {
        Ok(text) => Ok(Items::from_vec(text)),
        Err(_) => Err(Stop::NoMemory),
    }
}

/// The text that a script's name and an order ask for.
fn decide_script<'a, F: Files>(
    alloc: Global,
    name: &'a str,
    order: u64,
    schema: Schema,
    files: &mut F,
) -> Result<Items<u8>, Stop<'a>>
    requires compiled { (sources : List source) × IsSchemaOfFiles sources schema }
    ensures on { FilesGoOn (F.state files.old) (F.state files.new) }
    ensures text { IfOk result (IsScriptText schema (Some order) name.now (F.state files.old).read (F.state files.new).read (F.state files.old).held
        (λ files work. Scripting files name.now (Some order) schema work)) }
    ensures stop { IfErr result (Stops (F.state files.old) (F.state files.new) (λ files work. Scripting files name.now (Some order) schema work)) }
    ensures named { IfErr result (IsOf (λ named. named ≡ name.now)) }
    ensures whole { OnOk result (FetchedAll (name.now ∷ []) (F.state files.old).fetches (F.state files.new).fetches) }
    ensures stopped { IfErr result (StoppedLate name.now (F.state files.old).fetches (F.state files.new).fetches) }
    ensures refused { IfErr result (StoppedFrom (FileAsks name.now (Reading schema (Some order)) (F.state files.old).read (F.state files.new).read)) }
{
    match fetch(alloc, files, name) {
        Err(stop) => Err(stop),
        Ok(bytes) => match read_script(alloc, &schema, bytes.as_slice()) {
            Err(stop) => Err(stop),
            Ok(script) => run(alloc, schema, &script, order),
        },
    }
}

/// The text of a run that the names, the order and the files ask for.
pub fn decide_run<'a, F: Files>(
    alloc: Global,
    script: &'a str,
    order: u64,
    names: &[&'a str],
    files: &mut F,
) -> Result<Items<u8>, Stop<'a>>
    ensures on { FilesGoOn (F.state files.old) (F.state files.new) }
    ensures text { IfOk result (IsRunText (run_words script.now (Some order) (map (λ name. name.now) names.now))
        (F.state files.old).read (F.state files.new).read (F.state files.old).held
        (λ files work. Running files (run_words script.now (Some order) (map (λ name. name.now) names.now)) work)) }
    ensures stop { IfErr result (Stops (F.state files.old) (F.state files.new)
        (λ files work. Running files (run_words script.now (Some order) (map (λ name. name.now) names.now)) work)) }
    ensures reached { IfErr result (IsOf (ComesTo (Some (Run (run_words script.now (Some order) (map (λ name. name.now) names.now))))
        (F.state files.old).held)) }
    ensures whole { OnOk result (FetchedAll (map (λ name. name.now) names.now ++ script.now ∷ []) (F.state files.old).fetches (F.state files.new).fetches) }
    ensures stopped { IfErr result (StoppedAfter (map (λ name. name.now) names.now) (script.now ∷ [])
        (F.state files.old).fetches (F.state files.new).fetches) }
    ensures refused { IfErr result (StoppedFrom (RefusedFrom (Some (Run (run_words script.now (Some order) (map (λ name. name.now) names.now))))
        (F.state files.old).read (F.state files.new).read)) }
{
    match fetch_schema(alloc, names, files) {
        Err(stop) => Err(stop),
        Ok(schema) => decide_script(alloc, script, order, schema, files),
    }
}
