//! The top call.

ghost use Rattle.std.specs.Prelude.{◌≡◌, ◌⊎◌, ℕ, List, map, string_bytes, Some, None, IfErr, IfNone, IfOk, IfSome};
ghost use Rattle.command_line.specs.Asked.{AsksThreads, asked_of, at_once_of, command_of};
ghost use Rattle.line_parts.specs.Schemas.{IsPrintableSchema};
ghost use Rattle.mj_io.specs.Outside.{Named, SinkState};
ghost use Rattle.mj_schema.specs.declared.schema.Schema.{Schema};
ghost use Rattle.mojom_ast.specs.declared.file.File.{File};
ghost use Rattle.mojom_compile.specs.Compiled.{IsParsed};
ghost use Rattle.mojom_compile.specs.Schemas.{IsSchemaOfFiles};
ghost use Rattle.mojom_compile.specs.declared.source.Source.{Source};
ghost use Rattle.same_messages.specs.Agree.{AgreesWhereRead};
ghost use Rattle.wire_model.specs.Expected.{Stands};
ghost use Rattle.wire_model.specs.declared.target.Expected.{Expected};
ghost use Rattle.mojo_tool.specs.Again.{PrintsAgain};
ghost use Rattle.mojo_tool.specs.Answers.{Answers, Seen, code_of, WroteOrFailed};
ghost use Rattle.mojo_tool.specs.Complete.{IsComplete, HaveTooManyRows};
ghost use Rattle.mojo_tool.specs.steps.Reports.{Printed, Reported};
ghost use Rattle.mojo_tool.specs.Lines.{refusal_text, error_line, read_text};
ghost use Rattle.mojo_tool.specs.Work.{Work, IsWork, Judging};
ghost use Rattle.mojo_tool.specs.declared.status.Status.{Status};

use crate::at_once::decide_at_once;
use crate::decide::{Stop, decide};
use crate::refusal::{ToolRefusal, push_refusal};
use crate::status::Status;
use command_line::{Command, RunAtOnce, Words, WordsError, read_words};
use mj_io::{Files, Sink, write_all};
use mojom_print::push_text;
use printed_runs::runs_in_any_order_can_be_printed;
use script_laws::some_answer;
use sealed_laws::sealed_is_read;
use std::alloc::{AllocError, Global};
use std::sync::Wait;
use std::thread::Threads;
use step_gate::{Gate, Gates};

/// Writes a text to standard error. A fault of it changes nothing.
fn complain<E: Sink>(err: &mut E, text: &[u8])
    ensures { WroteOrFailed (E.state err.old) (E.state err.new) text.now }
{
    if write_all(err, text).is_err() {
        // The text is lost.
    }
}

/// Writes the text.
fn print<O: Sink>(out: &mut O, text: &[u8]) -> Status
    ensures { Printed (O.state out.old) (O.state out.new) text.now result }
{
    match write_all(out, text) {
        Ok(()) => Status::Done,
        Err(_) => Status::WriteFault,
    }
}

/// The line of a refusal.
fn refusal_line(alloc: Global, refusal: &ToolRefusal) -> Result<Vec<u8>, AllocError>
    ensures { IfOk result (λ line. line.items ≡ error_line (refusal_text refusal.now)) }
{
    let mut line = Vec::new(alloc);
    push_text(&mut line, "error: ")?;
    push_refusal(&mut line, refusal)?;
    push_text(&mut line, "\n")?;
    Ok(line)
}

/// The line of a file that could not be read.
fn read_line(alloc: Global, name: &str) -> Result<String, AllocError>
    ensures { IfOk result (λ line. string_bytes line ≡ error_line (read_text name.now)) }
{
    format!(in alloc; "error: read {name}\n")
}

/// Says why there is no text.
fn report<E: Sink>(alloc: Global, err: &mut E, stop: Stop) -> Status
    ensures { Reported stop.entry (E.state err.old) (E.state err.new) result }
{
    match stop {
        Stop::Refused(refusal) => match refusal_line(alloc, &refusal) {
            Ok(line) => {
                complain(err, line.as_slice());
                Status::Refused
            }
            Err(_) => Status::NoMemory,
        },
        Stop::ReadFault(name) => match read_line(alloc, name) {
            Ok(line) => {
                complain(err, line.as_bytes());
                Status::ReadFault
            }
            Err(_) => Status::NoMemory,
        },
        Stop::NoMemory => Status::NoMemory,
    }
}

/// What is done on one thread.
fn on_one_thread<F: Files, O: Sink, E: Sink>(
    alloc: Global,
    command: Command<'_>,
    files: &mut F,
    out: &mut O,
    err: &mut E,
) -> Status
    ensures { (words : List (List ℕ)) → Some (asked_of command.entry) ≡ command_of words → Answers (record {
      words = words;
      files_before = F.state files.old;
      files = F.state files.new;
      out_before = O.state out.old;
      out = O.state out.new;
      err_before = E.state err.old;
      err = E.state err.new;
    }) result }
{
    match decide(alloc, command, files) {
        Ok(text) => print(out, text.as_slice()),
        Err(stop) => report(alloc, err, stop),
    }
}

/// A run with a thread for each sequence.
fn on_threads<
    R: Wait + Threads + Sync,
    F: Files,
    O: Sink,
    E: Sink,
    G: Gate + Send + Drop,
    K: Gates<G>,
>(
    rt: &R,
    alloc: Global,
    run: RunAtOnce<'_>,
    files: &mut F,
    out: &mut O,
    err: &mut E,
    gates: &K,
) -> Status
    ensures { (words : List (List ℕ)) → Some (at_once_of run.entry) ≡ command_of words → Answers (record {
      words = words;
      files_before = F.state files.old;
      files = F.state files.new;
      out_before = O.state out.old;
      out = O.state out.new;
      err_before = E.state err.old;
      err = E.state err.new;
    }) result }
{
    match decide_at_once(rt, alloc, run.script, run.files.as_slice(), files, gates) {
        Ok(text) => print(out, text.as_slice()),
        Err(stop) => report(alloc, err, stop),
    }
}

/// All but a run with threads, which comes back where the words ask for one: then nothing was fetched or written.
#[tactic(auto, using(crate::proofs::Reporting::short_at_once))]
fn alone<'a, F: Files, O: Sink, E: Sink>(
    alloc: Global,
    words: &'a [String],
    files: &mut F,
    out: &mut O,
    err: &mut E,
) -> Result<Status, RunAtOnce<'a>>
    ensures wrong_use { IfOk result (λ status. command_of (map string_bytes words.now) ≡ None
        → (status ≡ Status.WrongUse) ⊎ (status ≡ Status.NoMemory)) }
    ensures threads { IfOk result (λ status. AsksThreads (command_of (map string_bytes words.now)) → status ≡ Status.NoMemory) }
    ensures answers { IfOk result (Answers (record {
      words = map string_bytes words.now;
      files_before = F.state files.old;
      files = F.state files.new;
      out_before = O.state out.old;
      out = O.state out.new;
      err_before = E.state err.old;
      err = E.state err.new;
    })) }
    ensures at_once { IfErr result (λ run. Some (at_once_of run) ≡ command_of (map string_bytes words.now)) }
    ensures same { IfErr result (λ run. (F.state files.new ≡ F.state files.old) × (O.state out.new ≡ O.state out.old)
        × (E.state err.new ≡ E.state err.old)) }
{
    match read_words(alloc, words) {
        Ok(read) => match read {
            Words::AtOnce(run) => Err(run),
            Words::Alone(command) => Ok(on_one_thread(alloc, command, files, out, err)),
        },
        Err(WordsError::WrongUse(text)) => {
            complain(err, text.as_bytes());
            Ok(Status::WrongUse)
        }
        Err(WordsError::Memory) => Ok(Status::NoMemory),
    }
}

/// The program for all words but those of a run with threads: for them it answers none, and nothing
/// was fetched or written.
///
/// The words begin with the program's name. The status is 0 where all was done, and else: 1 the
/// first refusal that the files give, with its line on `err`; 2 the words are no command, or ask for
/// help, and `err` has what is wrong or the help, a text that only tests look at; 3 a file could not
/// be read, with its line on `err`; 4 `out` failed, and has a front of the text; 5 want of memory. At
/// 0, 4 and 5 nothing is written to `err`, and at 2 no file is fetched; else the files that the
/// words name are fetched in their order, once for each word, up to the first with which the call
/// can't go on, and no other.
pub fn mojo_alone<F: Files, O: Sink, E: Sink>(
    alloc: Global,
    words: &[String],
    files: &mut F,
    out: &mut O,
    err: &mut E,
) -> Option<u8>
    ensures wrong_use { command_of (map string_bytes words.now) ≡ None → (result ≡ Some 2) ⊎ (result ≡ Some 5) }
    ensures answers { IfSome result (λ code. (status : Status) × (code ≡ code_of status) × Answers (record {
      words = map string_bytes words.now;
      files_before = F.state files.old;
      files = F.state files.new;
      out_before = O.state out.old;
      out = O.state out.new;
      err_before = E.state err.old;
      err = E.state err.new;
    }) status) }
    ensures threads { AsksThreads (command_of (map string_bytes words.now)) → (result ≡ None) ⊎ (result ≡ Some 5) }
    ensures none { IfNone result (AsksThreads (command_of (map string_bytes words.now)) × (F.state files.new ≡ F.state files.old)
        × (O.state out.new ≡ O.state out.old) × (E.state err.new ≡ E.state err.old)) }
{
    match alone(alloc, words, files, out, err) {
        Ok(status) => Some(status.code()),
        Err(_run) => None,
    }
}

/// The whole program: what `mojo_alone` does, and runs with threads, which may wait. If it returns,
/// a run with threads keeps the same laws; its sequences may have had their turns in whatever order.
///
/// `words` begin with the program's name. `gates` makes for each sequence of a run with threads the
/// gate that stands round its steps.
pub fn mojo_main<
    R: Wait + Threads + Sync,
    F: Files,
    O: Sink,
    E: Sink,
    G: Gate + Send + Drop,
    K: Gates<G>,
>(rt: &R, alloc: Global, words: &[String], files: &mut F, out: &mut O, err: &mut E, gates: &K) -> u8
    ensures wrong_use { command_of (map string_bytes words.now) ≡ None → (result ≡ 2) ⊎ (result ≡ 5) }
    ensures answers { (status : Status) × (result ≡ code_of status) × Answers (record {
      words = map string_bytes words.now;
      files_before = F.state files.old;
      files = F.state files.new;
      out_before = O.state out.old;
      out = O.state out.new;
      err_before = E.state err.old;
      err = E.state err.new;
    }) status }
{
    match alone(alloc, words, files, out, err) {
        Ok(status) => status.code(),
        Err(run) => on_threads(rt, alloc, run, files, out, err, gates).code(),
    }
}

/// A law of the answers. Where the files say what they hold and no fault was counted on a file that
/// is there: a run or a text that is asked for is done (0), if `out` didn't fail; a refusal that is
/// asked for is answered by its own line (1), and a name that isn't there by its own (3), whatever
/// befell `err`. The only other status is 5, for want of memory. It calls the law that it rests on.
pub fn complete()
    ensures { (s : Seen) (status : Status) → Answers s status → IsComplete s status }
{
    runs_in_any_order_can_be_printed();
}

/// A law of the words: over the same files they ask for one work at most. It calls the law that it rests on.
pub fn one_work()
    ensures { (words : List (List ℕ)) (files : List Named) (work other : Work) → IsWork (command_of words) files work
        → IsWork (command_of words) files other → work ≡ other }
{
    runs_in_any_order_can_be_printed();
}

/// A law of the words: over files that say what they hold there is a work that they ask for, but where
/// the Mojom files have more rows than a schema can have. It calls the laws that it rests on.
pub fn some_work()
    ensures { (words : List (List ℕ)) (files : List Named) → ((work : Work) × IsWork (command_of words) files work)
        ⊎ HaveTooManyRows files (command_of words) }
{
    some_answer();
    sealed_is_read();
    runs_in_any_order_can_be_printed();
}

/// A law of printed texts: where a file has a tree, the text that is printed of it has a tree too, and
/// that tree's text is the same text, so that a print of a print changes nothing. It is a law of
/// trees and texts: one longer than `MAX_FILE_BYTES` is refused by its length.
pub fn prints_again()
    ensures { (bytes : List ℕ) (tree : File) → IsParsed bytes tree → PrintsAgain tree }
{}

/// A law of schemas: that of files has names and numbers that a text can say, so that what holds of runs over
/// such a schema holds of those over it.
pub fn schemas_of_files_can_be_printed()
    ensures { (sources : List Source) (schema : Schema) → IsSchemaOfFiles sources schema → IsPrintableSchema schema }
{}

/// A law of messages: what `decode` shows of a message that stands it shows of any other with the same bytes wherever that one is
/// read, though it be longer.
pub fn same_bytes_are_shown()
    ensures { (schema : Schema) (expected : Expected) (name : List ℕ) (handles : ℕ) (bytes other : List ℕ) (work : Work)
        → Stands schema expected bytes handles → AgreesWhereRead schema expected bytes other
        → Judging schema expected name handles bytes work → Judging schema expected name handles other work }
{}
