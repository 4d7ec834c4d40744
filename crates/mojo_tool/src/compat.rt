//! From two names and their files to whether the newer one reads what the older one writes, or to why not.

ghost use Rattle.std.specs.Prelude.{◌≡◌, ◌≤◌, ◌∷◌, [], ◌++◌, length, map, take, drop, Some, IfOk, IfErr, OnOk};
ghost use Rattle.mj_io.specs.Outside.{FilesGoOn};
ghost use Rattle.mojom_compile.specs.Schemas.{IsSchemaOfFiles};
ghost use Rattle.command_line.specs.Asked.{Compat};
ghost use Rattle.mojo_tool.specs.Work.{ComesTo, Comparing, FetchingAll, IsAmong, Pairing, Tabling};
ghost use Rattle.mojo_tool.specs.Answers.{IsCompatText, RefusedFrom, read_as};
ghost use Rattle.mojo_tool.specs.Fetched.{FetchedAll};
ghost use Rattle.mojo_tool.specs.Lines.{compatible_line};
ghost use Rattle.mojo_tool.specs.steps.Fetches.{AreBytes, NotAllFetched};
ghost use Rattle.mojo_tool.specs.steps.Made.{StoppedAfter, StoppedEarly, StoppedFrom};
ghost use Rattle.mojo_tool.specs.steps.Pairs.{IsReadsText, SaysBroken, SaysText, Untabled};
ghost use Rattle.mojo_tool.specs.steps.Stops.{Stops, StopsAt, IsOf};

use crate::check::{fetch_all, refused};
use crate::decide::Stop;
use crate::refusal::ToolRefusal;
use compat_check::compatible;
use compat_model::Verdict;
use mj_base::Items;
use mj_io::Files;
use mj_schema::Schema;
use mojom_compile::Source;
use mojom_print::{push_number, push_text};
use std::alloc::{AllocError, Global};

/// The line of files that are compatible.
fn compatible_line(alloc: Global, stable: u32) -> Result<Items<u8>, AllocError>
    ensures { IfOk result (λ text. text ≡ compatible_line stable) }
{
    let mut line = Vec::new(alloc);
    push_text(&mut line, "compatible ")?;
    push_number(&mut line, stable as u64)?;
    push_text(&mut line, "\n")?;
    Ok(Items::from_vec(line))
}

/// The text of a verdict, or why there is none.
fn say<'a>(alloc: Global, verdict: Verdict) -> Result<Items<u8>, Stop<'a>>
    ensures text { IfOk result (SaysText verdict) }
    ensures stop { IfErr result (SaysBroken verdict) }
    ensures named { IfErr result (IsOf (λ named. ⊥)) }
{
    match verdict {
        Verdict::Compatible(stable) => match compatible_line(alloc, stable) {
            Ok(text) => Ok(text),
            Err(_) => Err(Stop::NoMemory),
        },
        Verdict::Broken(reason) => Err(Stop::Refused(ToolRefusal::Incompatible(reason))),
    }
}

/// What is answered of two schemas.
fn judge<'a>(alloc: Global, old: &Schema, new: &Schema) -> Result<Items<u8>, Stop<'a>>
    ensures text { IfOk result (IsReadsText (Comparing old.now new.now)) }
    ensures stop { IfErr result (StopsAt (Comparing old.now new.now)) }
    ensures named { IfErr result (IsOf (λ named. ⊥)) }
{
    match compatible(alloc, old, new) {
        Err(_) => Err(Stop::NoMemory),
        Ok(verdict) => say(alloc, verdict),
    }
}

/// The schema of one file by itself.
fn table_alone<'a>(alloc: Global, name: &'a str, sources: &[Source]) -> Result<Schema, Stop<'a>>
    requires { map (λ source. source.name) sources.now ≡ name.now ∷ [] }
    ensures schema { IfOk result (IsSchemaOfFiles sources.now) }
    ensures stop { IfErr result (StopsAt (Untabled sources.now)) }
    ensures named { IfErr result (IsOf (λ named. named ≡ name.now)) }
{
    match mojom_compile::compile(alloc, sources) {
        Ok(schema) => Ok(schema),
        Err(error) => {
            let names = [name];
            Err(refused(names.as_slice(), error))
        }
    }
}

/// What is answered of an older schema and a newer file.
fn compare_with<'a>(
    alloc: Global,
    older: &Schema,
    name: &'a str,
    sources: &[Source],
) -> Result<Items<u8>, Stop<'a>>
    requires { map (λ source. source.name) sources.now ≡ name.now ∷ [] }
    ensures text { IfOk result (IsReadsText (Tabling (Comparing older.now) sources.now)) }
    ensures stop { IfErr result (StopsAt (Tabling (Comparing older.now) sources.now)) }
    ensures named { IfErr result (IsOf (λ named. named ≡ name.now)) }
{
    match table_alone(alloc, name, sources) {
        Err(stop) => Err(stop),
        Ok(newer) => judge(alloc, older, &newer),
    }
}

/// The first of sources.
fn front(sources: &[Source]) -> &[Source]
    requires { 1 ≤ length sources.now }
    ensures { result.now ≡ take 1 sources.now }
{
    &sources[..1]
}

/// The sources behind the first.
fn rest(sources: &[Source]) -> &[Source]
    requires { 1 ≤ length sources.now }
    ensures { result.now ≡ drop 1 sources.now }
{
    &sources[1..]
}

/// What is answered of two files, each by itself, the older one first.
fn compare<'a>(
    alloc: Global,
    old: &'a str,
    new: &'a str,
    fetched: &[Source],
) -> Result<Items<u8>, Stop<'a>>
    requires { map (λ source. source.name) fetched.now ≡ old.now ∷ new.now ∷ [] }
    ensures text { IfOk result (IsReadsText (Pairing fetched.now)) }
    ensures stop { IfErr result (StopsAt (Pairing fetched.now)) }
    ensures named { IfErr result (IsOf (IsAmong (old.now ∷ new.now ∷ []))) }
{
    match table_alone(alloc, old, front(fetched)) {
        Err(stop) => Err(stop),
        Ok(older) => compare_with(alloc, &older, new, rest(fetched)),
    }
}

/// Two files, in their order.
fn fetch_two<'a, F: Files>(
    alloc: Global,
    old: &'a str,
    new: &'a str,
    files: &mut F,
) -> Result<Vec<Source>, Stop<'a>>
    ensures on { FilesGoOn (F.state files.old) (F.state files.new) }
    ensures sources { IfOk result (λ sources. AreBytes (F.state files.old).held (old.now ∷ new.now ∷ []) sources.items) }
    ensures named { IfOk result (λ sources. map (λ source. source.name) sources.items ≡ old.now ∷ new.now ∷ []) }
    ensures came { IfOk result (λ sources. (F.state files.new).read ≡ (F.state files.old).read ++ map read_as sources.items) }
    ensures stop { IfErr result (NotAllFetched (F.state files.old) (F.state files.new) (old.now ∷ new.now ∷ [])) }
    ensures whole { OnOk result (FetchedAll (old.now ∷ new.now ∷ []) (F.state files.old).fetches (F.state files.new).fetches) }
    ensures stopped { IfErr result (StoppedEarly (old.now ∷ new.now ∷ []) (F.state files.old).fetches (F.state files.new).fetches) }
    ensures long { IfErr result (StoppedFrom (λ work. ⊥)) }
{
    let names = [old, new];
    fetch_all(alloc, names.as_slice(), files)
}

/// Whether the file of one name reads what that of another writes, or why not.
pub fn decide_compat<'a, F: Files>(
    alloc: Global,
    old: &'a str,
    new: &'a str,
    files: &mut F,
) -> Result<Items<u8>, Stop<'a>>
    ensures on { FilesGoOn (F.state files.old) (F.state files.new) }
    ensures text { IfOk result (IsCompatText (old.now ∷ new.now ∷ []) (F.state files.old).read (F.state files.new).read (F.state files.old).held
        (λ files work. FetchingAll files (old.now ∷ new.now ∷ []) [] Pairing work)) }
    ensures stop { IfErr result (Stops (F.state files.old) (F.state files.new)
        (λ files work. FetchingAll files (old.now ∷ new.now ∷ []) [] Pairing work)) }
    ensures reached { IfErr result (IsOf (ComesTo (Some (Compat old.now new.now)) (F.state files.old).held)) }
    ensures whole { OnOk result (FetchedAll ((old.now ∷ new.now ∷ []) ++ []) (F.state files.old).fetches (F.state files.new).fetches) }
    ensures stopped { IfErr result (StoppedAfter (old.now ∷ new.now ∷ []) [] (F.state files.old).fetches (F.state files.new).fetches) }
    ensures refused { IfErr result (StoppedFrom (RefusedFrom (Some (Compat old.now new.now)) (F.state files.old).read (F.state files.new).read)) }
{
    match fetch_two(alloc, old, new, files) {
        Err(stop) => Err(stop),
        Ok(fetched) => compare(alloc, old, new, fetched.as_slice()),
    }
}
