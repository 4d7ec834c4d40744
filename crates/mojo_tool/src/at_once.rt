//! A script whose sequences have a thread each: from it and the files to the text of its history, or to why there is none.

ghost use Rattle.std.specs.Prelude.{ℕ, ◌≡◌, ◌≤◌, ◌∷◌, [], ◌++◌, List, Some, None, map, IfOk, IfErr, OnOk};
ghost use Rattle.std.specs.Arc.{arc_value};
ghost use Rattle.mj_io.specs.Outside.{FilesGoOn};
ghost use Rattle.call_script.specs.Script.{IsScriptOf};
ghost use Rattle.call_script.specs.Sound.{IsScript};
ghost use Rattle.command_line.specs.Asked.{Run, run_words};
ghost use Rattle.mojom_compile.specs.Schemas.{IsSchemaOfFiles};
ghost use Rattle.mojom_compile.specs.declared.source.Source.{Source as source};
ghost use Rattle.mojo_tool.specs.Work.{ComesTo, Reading, Scripting, Running};
ghost use Rattle.mojo_tool.specs.Answers.{FileAsks, IsTextOf, IsRunText, RefusedFrom};
ghost use Rattle.mojo_tool.specs.Fetched.{FetchedAll};
ghost use Rattle.mojo_tool.specs.steps.Made.{StoppedLate, StoppedAfter, StoppedFrom};
ghost use Rattle.mojo_tool.specs.steps.Messages.{IsScriptText};
ghost use Rattle.mojo_tool.specs.steps.Stops.{Stops, IsOf};

use crate::check::fetch_schema;
use crate::decide::{Stop, fetch};
use crate::run::read_script;
use call_script::Script;
use history_text::render;
use mj_base::Items;
use mj_base::limits::MAX_FILE_BYTES;
use mj_io::Files;
use mj_schema::Schema;
use std::alloc::Global;
use std::sync::{Arc, Wait};
use std::thread::Threads;
use step_gate::{Gate, Gates};
use threaded_run::run_at_once;
use wire_encoder::laws::passed_is_encodable;

/// The text of the script's history, with a thread for each of its sequences. The error is want of memory.
#[tactic(auto, using(crate::proofs::Ran::text_of_run))]
fn run<'a, R: Wait + Threads + Sync, G: Gate + Send + Drop, K: Gates<G>>(
    rt: &R,
    alloc: Global,
    schema: Schema,
    script: &Script,
    gates: &K,
) -> Result<Items<u8>, Stop<'a>>
    requires sound { IsScript schema script.now }
    requires short { script.now.bytes ≤ MAX_FILE_BYTES }
    requires read { (bytes : List ℕ) × IsScriptOf schema bytes script.now }
    requires compiled { (sources : List source) × IsSchemaOfFiles sources schema }
    ensures text { IfOk result (IsTextOf schema script.now None) }
    ensures memory { IfErr result (λ stop. stop ≡ Stop.NoMemory) }
{
    // A law, on which those of texts and replies rest: it does nothing.
    passed_is_encodable();
    let Ok(schema) = Arc::new(alloc, schema) else {
        return Err(Stop::NoMemory);
    };
    let Ok(shared) = Arc::try_clone(&schema) else {
        return Err(Stop::NoMemory);
    };
    let Ok(ran) = run_at_once(rt, alloc, shared, script, gates) else {
        return Err(Stop::NoMemory);
    };
    let (notes, left) = (ran.notes.as_slice(), ran.left.as_slice());
    match render(alloc, &schema, &ran.history, notes, left) {
        Ok(text) => Ok(Items::from_vec(text)),
        Err(_) => Err(Stop::NoMemory),
    }
}

/// The text that a script's name asks for.
fn decide_script<'a, F: Files, R: Wait + Threads + Sync, G: Gate + Send + Drop, K: Gates<G>>(
    rt: &R,
    alloc: Global,
    name: &'a str,
    schema: Schema,
    files: &mut F,
    gates: &K,
) -> Result<Items<u8>, Stop<'a>>
    requires compiled { (sources : List source) × IsSchemaOfFiles sources schema }
    ensures on { FilesGoOn (F.state files.old) (F.state files.new) }
    ensures text { IfOk result (IsScriptText schema None name.now (F.state files.old).read (F.state files.new).read (F.state files.old).held
        (λ files work. Scripting files name.now None schema work)) }
    ensures stop { IfErr result (Stops (F.state files.old) (F.state files.new) (λ files work. Scripting files name.now None schema work)) }
    ensures named { IfErr result (IsOf (λ named. named ≡ name.now)) }
    ensures whole { OnOk result (FetchedAll (name.now ∷ []) (F.state files.old).fetches (F.state files.new).fetches) }
    ensures stopped { IfErr result (StoppedLate name.now (F.state files.old).fetches (F.state files.new).fetches) }
    ensures refused { IfErr result (StoppedFrom (FileAsks name.now (Reading schema None) (F.state files.old).read (F.state files.new).read)) }
{
    match fetch(alloc, files, name) {
        Err(stop) => Err(stop),
        Ok(bytes) => match read_script(alloc, &schema, bytes.as_slice()) {
            Err(stop) => Err(stop),
            Ok(script) => run(rt, alloc, schema, &script, gates),
        },
    }
}

/// The text of a run with threads that the names and the files ask for.
pub fn decide_at_once<'a, F: Files, R: Wait + Threads + Sync, G: Gate + Send + Drop, K: Gates<G>>(
    rt: &R,
    alloc: Global,
    script: &'a str,
    names: &[&'a str],
    files: &mut F,
    gates: &K,
) -> Result<Items<u8>, Stop<'a>>
    ensures on { FilesGoOn (F.state files.old) (F.state files.new) }
    ensures text { IfOk result (IsRunText (run_words script.now None (map (λ name. name.now) names.now))
        (F.state files.old).read (F.state files.new).read (F.state files.old).held
        (λ files work. Running files (run_words script.now None (map (λ name. name.now) names.now)) work)) }
    ensures stop { IfErr result (Stops (F.state files.old) (F.state files.new)
        (λ files work. Running files (run_words script.now None (map (λ name. name.now) names.now)) work)) }
    ensures reached { IfErr result (IsOf (ComesTo (Some (Run (run_words script.now None (map (λ name. name.now) names.now))))
        (F.state files.old).held)) }
    ensures whole { OnOk result (FetchedAll (map (λ name. name.now) names.now ++ script.now ∷ []) (F.state files.old).fetches (F.state files.new).fetches) }
    ensures stopped { IfErr result (StoppedAfter (map (λ name. name.now) names.now) (script.now ∷ [])
        (F.state files.old).fetches (F.state files.new).fetches) }
    ensures refused { IfErr result (StoppedFrom (RefusedFrom (Some (Run (run_words script.now None (map (λ name. name.now) names.now))))
        (F.state files.old).read (F.state files.new).read)) }
{
    match fetch_schema(alloc, names, files) {
        Err(stop) => Err(stop),
        Ok(schema) => decide_script(rt, alloc, script, schema, files, gates),
    }
}
