//! From the names and the files to their schema and the text of its tables, or to why there is none.

ghost use Rattle.std.specs.Prelude.{◌≡◌, ◌∷◌, [], ◌++◌, List, Some, length, map, IfOk, IfErr, OnOk};
ghost use Rattle.mj_io.specs.Outside.{FilesGoOn};
ghost use Rattle.mojom_compile.specs.Schemas.{IsSchemaOfFiles};
ghost use Rattle.mojom_compile.specs.declared.source.Source.{Source as compiled_source};
ghost use Rattle.schema_text.specs.Listing.{listing};
ghost use Rattle.command_line.specs.Asked.{Check};
ghost use Rattle.mojo_tool.specs.Work.{ComesTo, Checking, IsAmong};
ghost use Rattle.mojo_tool.specs.Answers.{AreRefused, IsCheckText, IsSchemaRead, RefusedFrom, read_as};
ghost use Rattle.mojo_tool.specs.Fetched.{FetchedAll, FetchedFront};
ghost use Rattle.mojo_tool.specs.steps.Made.{IsFetchedOnto, StoppedFrom, StoppedSo, StoppedEarly, StoppedAfter, Unfetched};
ghost use Rattle.mojo_tool.specs.steps.Stops.{Stops, IsOf, NotFetched};
ghost use Rattle.mojo_tool.specs.steps.Fetches.{AreBytes, HaveSchemaOver, IsNumbered, NotAllFetched, NotTabled, NoSchema};

use crate::decide::{Stop, fetch};
use crate::refusal::ToolRefusal;
use mj_base::{Items, Text};
use mj_io::Files;
use mj_schema::Schema;
use mojom_compile::{SchemaError, Source};
use std::alloc::{AllocError, Global};

/// A file behind others, as it was fetched.
fn push_source(
    alloc: Global,
    name: &str,
    bytes: Vec<u8>,
    sources: &mut Vec<Source>,
) -> Result<(), AllocError>
    ensures { OnOk result (sources.new.items ≡ sources.old.items ++ record { name = name.now; bytes = bytes.items } ∷ []) }
{
    let name = Text::from_str(alloc, name)?;
    sources.push(Source {
        name,
        bytes: Items::from_vec(bytes),
    })?;
    Ok(())
}

/// Fetches the file of that name, behind others.
#[tactic(auto, using(crate::proofs::Fetching::onto, crate::proofs::Made::front_all))]
fn fetch_onto<'a, F: Files>(
    alloc: Global,
    name: &'a str,
    files: &mut F,
    sources: &mut Vec<Source>,
) -> Result<(), Stop<'a>>
    ensures on { FilesGoOn (F.state files.old) (F.state files.new) }
    ensures sources { OnOk result (IsFetchedOnto (F.state files.old).held (F.state files.old).read (F.state files.new).read
        name.now sources.old.items sources.new.items) }
    ensures stop { IfErr result (NotFetched (F.state files.old) (F.state files.new) name.now) }
    ensures whole { OnOk result (FetchedAll (name.now ∷ []) (F.state files.old).fetches (F.state files.new).fetches) }
    ensures stopped { IfErr result (StoppedSo (λ work. Unfetched (name.now ∷ []) work (F.state files.old).fetches (F.state files.new).fetches)
        (FetchedFront (name.now ∷ []) (F.state files.old).fetches (F.state files.new).fetches)) }
    ensures long { IfErr result (StoppedFrom (λ work. ⊥)) }
{
    match fetch(alloc, files, name) {
        Err(stop) => Err(stop),
        Ok(bytes) => match push_source(alloc, name, bytes, sources) {
            Ok(()) => Ok(()),
            Err(_) => Err(Stop::NoMemory),
        },
    }
}

/// The files of these names, in their order.
pub fn fetch_all<'a, F: Files>(
    alloc: Global,
    names: &[&'a str],
    files: &mut F,
) -> Result<Vec<Source>, Stop<'a>>
    ensures on { FilesGoOn (F.state files.old) (F.state files.new) }
    ensures sources { IfOk result (λ sources. AreBytes (F.state files.old).held (map (λ name. name.now) names.now) sources.items) }
    ensures named { IfOk result (λ sources. map (λ source. source.name) sources.items ≡ map (λ name. name.now) names.now) }
    ensures came { IfOk result (λ sources. (F.state files.new).read ≡ (F.state files.old).read ++ map read_as sources.items) }
    ensures stop { IfErr result (NotAllFetched (F.state files.old) (F.state files.new) (map (λ name. name.now) names.now)) }
    ensures whole { OnOk result (FetchedAll (map (λ name. name.now) names.now) (F.state files.old).fetches (F.state files.new).fetches) }
    ensures stopped { IfErr result (StoppedEarly (map (λ name. name.now) names.now) (F.state files.old).fetches (F.state files.new).fetches) }
    ensures long { IfErr result (StoppedFrom (λ work. ⊥)) }
{
    let mut sources = Vec::new(alloc);
    for name in names {
        fetch_onto(alloc, *name, files, &mut sources)?;
    }
    Ok(sources)
}

/// The refusal of the file that is refused, by its name.
pub fn refused<'a>(names: &[&'a str], error: SchemaError) -> Stop<'a>
    requires { IsNumbered (length names.now) error }
    ensures { NotTabled (map (λ name. name.now) names.now) error result }
{
    match error {
        SchemaError::Unread { file, refusal } => {
            Stop::Refused(ToolRefusal::Refused(names[file as usize], refusal))
        }
        SchemaError::Refused(refusal) => Stop::Refused(ToolRefusal::Rejected {
            name: names[refusal.file as usize],
            at: refusal.at,
            cause: refusal.cause,
        }),
        SchemaError::Memory => Stop::NoMemory,
    }
}

/// The schema of the files of these names.
pub fn fetch_schema<'a, F: Files>(
    alloc: Global,
    names: &[&'a str],
    files: &mut F,
) -> Result<Schema, Stop<'a>>
    ensures on { FilesGoOn (F.state files.old) (F.state files.new) }
    ensures schema { IfOk result (HaveSchemaOver (F.state files.old).held (map (λ name. name.now) names.now)) }
    ensures compiled { IfOk result (λ schema. (sources : List compiled_source) × IsSchemaOfFiles sources schema) }
    ensures from { IfOk result (IsSchemaRead (map (λ name. name.now) names.now) (F.state files.old).read (F.state files.new).read) }
    ensures stop { IfErr result (NoSchema (F.state files.old) (F.state files.new) (map (λ name. name.now) names.now)) }
    ensures among { IfErr result (IsOf (IsAmong (map (λ name. name.now) names.now))) }
    ensures whole { OnOk result (FetchedAll (map (λ name. name.now) names.now) (F.state files.old).fetches (F.state files.new).fetches) }
    ensures stopped { IfErr result (StoppedEarly (map (λ name. name.now) names.now) (F.state files.old).fetches (F.state files.new).fetches) }
    ensures refused { IfErr result (StoppedFrom (AreRefused (map (λ name. name.now) names.now) (F.state files.old).read (F.state files.new).read)) }
{
    match fetch_all(alloc, names, files) {
        Err(stop) => Err(stop),
        Ok(fetched) => match mojom_compile::compile(alloc, fetched.as_slice()) {
            Ok(schema) => Ok(schema),
            Err(error) => Err(refused(names, error)),
        },
    }
}

/// The text of the tables of the files of these names.
#[tactic(auto, using(crate::proofs::Made::all_alone, crate::proofs::Made::front_all))]
pub fn decide_check<'a, F: Files>(
    alloc: Global,
    names: &[&'a str],
    files: &mut F,
) -> Result<Items<u8>, Stop<'a>>
    ensures on { FilesGoOn (F.state files.old) (F.state files.new) }
    ensures text { IfOk result (IsCheckText (map (λ name. name.now) names.now) (F.state files.old).read (F.state files.new).read (F.state files.old).held
        (λ files work. Checking files (map (λ name. name.now) names.now) work)) }
    ensures stop { IfErr result (λ stop. Stops (F.state files.old) (F.state files.new)
        (λ files work. Checking files (map (λ name. name.now) names.now) work) stop) }
    ensures reached { IfErr result (IsOf (ComesTo (Some (Check (map (λ name. name.now) names.now))) (F.state files.old).held)) }
    ensures whole { OnOk result (FetchedAll (map (λ name. name.now) names.now ++ []) (F.state files.old).fetches (F.state files.new).fetches) }
    ensures stopped { IfErr result (StoppedAfter (map (λ name. name.now) names.now) [] (F.state files.old).fetches (F.state files.new).fetches) }
    ensures refused { IfErr result (StoppedFrom (RefusedFrom (Some (Check (map (λ name. name.now) names.now)))
        (F.state files.old).read (F.state files.new).read)) }
{
    match fetch_schema(alloc, names, files) {
        Err(stop) => Err(stop),
        Ok(schema) => match schema_text::listing(alloc, &schema) {
            Ok(text) => Ok(Items::from_vec(text)),
            Err(_) => Err(Stop::NoMemory),
        },
    }
}
