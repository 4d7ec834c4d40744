//! From the names and the files to the text, or to why there is none.

ghost use Rattle.std.specs.Prelude.{◌≡◌, ◌≤◌, ◌∷◌, [], ◌++◌, ℕ, List, length, Some, IfOk, IfErr, OnOk};
ghost use Rattle.mj_io.specs.Outside.{FilesGoOn};
ghost use Rattle.mojom_compile.specs.Compiled.{IsParsed, IsUnread};
ghost use Rattle.mojom_print.specs.FileText.{file_text};
ghost use Rattle.command_line.specs.Asked.{Print, asked_of};
ghost use Rattle.mojo_tool.specs.Work.{ComesTo, IsWork, Printing};
ghost use Rattle.mojo_tool.specs.Answers.{IsPrintText, IsRightText, RefusedFrom};
ghost use Rattle.mojo_tool.specs.Fetched.{FetchedAll, mojoms_of, last_of};
ghost use Rattle.mojo_tool.specs.steps.Made.{EndedWith, StoppedAfter, StoppedFrom};
ghost use Rattle.mojo_tool.specs.steps.Stops.{Stops, IsOf, HasBytes, NotFetched, NotCompiled};

use crate::audit::decide_audit;
use crate::check::decide_check;
use crate::compat::decide_compat;
use crate::decode::decide_decode;
use crate::encode::decide_encode;
use crate::load::decide_load;
use crate::refusal::ToolRefusal;
use crate::run::decide_run;
use command_line::Command;
use mj_base::Items;
use mj_base::limits::MAX_FILE_BYTES;
use mj_io::{Fetched, Files, FilesError};
use mojom_ast::File;
use mojom_compile::CompileError;
use std::alloc::Global;

/// Why there is no text.
#[derive(Drop)]
pub enum Stop<'a> {
    Refused(ToolRefusal<'a>),
    /// The file of this name could not be read.
    ReadFault(&'a str),
    NoMemory,
}

/// The bytes of the file of that name.
pub fn fetch<'a, F: Files>(alloc: Global, files: &mut F, name: &'a str) -> Result<Vec<u8>, Stop<'a>>
    ensures on { FilesGoOn (F.state files.old) (F.state files.new) }
    ensures bytes { IfOk result (λ bytes. HasBytes (F.state files.old).held name.now bytes.items) }
    ensures short { IfOk result (λ bytes. length bytes.items ≤ MAX_FILE_BYTES) }
    ensures stop { IfErr result (λ stop. NotFetched (F.state files.old) (F.state files.new) name.now stop) }
    ensures named { IfErr result (IsOf (λ named. named ≡ name.now)) }
    ensures whole { OnOk result (FetchedAll (name.now ∷ []) (F.state files.old).fetches (F.state files.new).fetches) }
    ensures came { IfOk result (λ bytes. (F.state files.new).read ≡ (F.state files.old).read ++ record { name = name.now; bytes = bytes.items } ∷ []) }
    ensures ended { IfErr result (λ stop. EndedWith name.now stop (F.state files.old).fetches (F.state files.new).fetches) }
{
    let mut bytes = Vec::new(alloc);
    match files.fetch(alloc, name, MAX_FILE_BYTES, &mut bytes) {
        Ok(Fetched::Whole) => Ok(bytes),
        Ok(Fetched::Longer) => Err(Stop::Refused(ToolRefusal::FileTooLong(name))),
        Err(FilesError::Failed) => Err(Stop::ReadFault(name)),
        Err(FilesError::Memory) => Err(Stop::NoMemory),
    }
}

/// The tree of the Mojom file of that name.
fn read_tree<'a>(alloc: Global, name: &'a str, bytes: &[u8]) -> Result<File, Stop<'a>>
    ensures tree { IfOk result (λ tree. IsParsed bytes.now tree) }
    ensures stop { IfErr result (NotCompiled (IsUnread bytes.now) name.now) }
    ensures named { IfErr result (IsOf (λ named. named ≡ name.now)) }
{
    match mojom_compile::read(alloc, bytes) {
        Ok(tree) => Ok(tree),
        Err(CompileError::Refused(refusal)) => {
            Err(Stop::Refused(ToolRefusal::Refused(name, refusal)))
        }
        Err(CompileError::Memory) => Err(Stop::NoMemory),
    }
}

/// The canonical text of the tree.
fn spell<'a>(alloc: Global, tree: &File) -> Result<Items<u8>, Stop<'a>>
    ensures text { IfOk result (λ text. text ≡ file_text tree.now) }
    ensures memory { IfErr result (λ stop. stop ≡ Stop.NoMemory) }
{
    match mojom_print::spell(alloc, tree) {
        Ok(text) => Ok(Items::from_vec(text)),
        Err(_) => Err(Stop::NoMemory),
    }
}

/// The canonical text of the file of that name.
fn decide_print<'a, F: Files>(
    alloc: Global,
    name: &'a str,
    files: &mut F,
) -> Result<Items<u8>, Stop<'a>>
    ensures on { FilesGoOn (F.state files.old) (F.state files.new) }
    ensures text { IfOk result (λ text. IsPrintText name.now (F.state files.old).read (F.state files.new).read (F.state files.old).held
        (λ files work. Printing files name.now work) text) }
    ensures stop { IfErr result (λ stop. Stops (F.state files.old) (F.state files.new) (λ files work. Printing files name.now work) stop) }
    ensures reached { IfErr result (IsOf (ComesTo (Some (Print name.now)) (F.state files.old).held)) }
    ensures whole { OnOk result (FetchedAll (name.now ∷ []) (F.state files.old).fetches (F.state files.new).fetches) }
    ensures stopped { IfErr result (StoppedAfter (name.now ∷ []) [] (F.state files.old).fetches (F.state files.new).fetches) }
    ensures refused { IfErr result (StoppedFrom (RefusedFrom (Some (Print name.now)) (F.state files.old).read (F.state files.new).read)) }
{
    match fetch(alloc, files, name) {
        Err(stop) => Err(stop),
        Ok(bytes) => match read_tree(alloc, name, bytes.as_slice()) {
            Err(stop) => Err(stop),
            Ok(tree) => spell(alloc, &tree),
        },
    }
}

/// The text that the command and the files ask for.
pub fn decide<'a, F: Files>(
    alloc: Global,
    command: Command<'a>,
    files: &mut F,
) -> Result<Items<u8>, Stop<'a>>
    ensures on { FilesGoOn (F.state files.old) (F.state files.new) }
    ensures text { IfOk result (λ text. IsRightText (Some (asked_of command.entry)) (F.state files.old).read (F.state files.new).read
        (F.state files.old).held (IsWork (Some (asked_of command.entry))) text) }
    ensures stop { IfErr result (λ stop. Stops (F.state files.old) (F.state files.new) (IsWork (Some (asked_of command.entry))) stop) }
    ensures reached { IfErr result (IsOf (ComesTo (Some (asked_of command.entry)) (F.state files.old).held)) }
    ensures whole { OnOk result (FetchedAll (mojoms_of (asked_of command.entry) ++ last_of (asked_of command.entry))
        (F.state files.old).fetches (F.state files.new).fetches) }
    ensures stopped { IfErr result (StoppedAfter (mojoms_of (asked_of command.entry)) (last_of (asked_of command.entry))
        (F.state files.old).fetches (F.state files.new).fetches) }
    ensures refused { IfErr result (StoppedFrom (RefusedFrom (Some (asked_of command.entry)) (F.state files.old).read (F.state files.new).read)) }
{
    match command {
        Command::Run {
            script,
            order,
            files: names,
        } => decide_run(alloc, script, order, names.as_slice(), files),
        Command::Print { file } => decide_print(alloc, file, files),
        Command::Check { files: names } => decide_check(alloc, names.as_slice(), files),
        Command::Encode {
            method,
            side,
            value,
            files: names,
        } => decide_encode(alloc, method, side, value, names.as_slice(), files),
        Command::Decode {
            interface,
            side,
            handles,
            message,
            files: names,
        } => decide_decode(
            alloc,
            interface,
            side,
            handles,
            message,
            names.as_slice(),
            files,
        ),
        Command::Load { seed, messages } => decide_load(alloc, seed, messages),
        Command::Audit {
            script,
            history,
            files: names,
        } => decide_audit(alloc, script, history, names.as_slice(), files),
        Command::Compat { old, new } => decide_compat(alloc, old, new, files),
    }
}
