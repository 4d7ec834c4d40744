//! Reads a whole script.

ghost use Rattle.std.specs.Prelude.{◌≡◌, ◌∷◌, IfOk, Err, length, map, ℕ};
ghost use Rattle.script_forms.specs.Forms.{IsForm, AreSequences, is_setup, answers};
ghost use Rattle.call_script.specs.Script.{IsScriptOf, IsFirstRefusal};
ghost use Rattle.call_script.specs.Sound.{IsScript};
ghost use Rattle.call_script.specs.declared.script_error.LineRefusal.{LineRefusal};
ghost use Rattle.call_script.specs.declared.script_error.ScriptError.TheVariants as errors;
ghost use Rattle.call_script.specs.steps.Commands.{part_view};
ghost use Rattle.script_forms.specs.Views.{form_view};
ghost use Rattle.call_script.specs.steps.Interfaces.{IsIndexed};
ghost use Rattle.script_words.specs.Words.{words_now};
ghost use Rattle.call_script.specs.steps.Names.{Adds, Sets};
ghost use Rattle.call_script.specs.steps.Lines.{Pushes, TakesForm, ReadsOn, AnswersBehind, AnswersAll, error_of};

use crate::additions::{Part, part_of};
use crate::commands::Stop;
use crate::indexed_schema::{IndexedSchema, index};
use crate::name_table::{NameTable, add_all, add_method, add_own, no_names};
use crate::script::{AutoReply, Line, Script};
use crate::script_error::{LineRefusal, ScriptError};
use mj_base::Items;
use mj_base::limits::MAX_SCRIPT_LINES;
use mj_schema::Schema;
use script_forms::{Form, Said, read_form, sequences_of};
use script_words::{Words, text_words};
use std::alloc::{AllocError, Global};

/// What has been read: the names that are set, the methods that are answered by themselves and how, the
/// lines that ask, and whether one of a sequence is among them.
#[derive(Drop)]
pub(crate) struct Reader {
    pub names: NameTable,
    pub methods: NameTable,
    pub autos: Vec<AutoReply>,
    pub lines: Vec<Line>,
    pub started: bool,
}

/// Whether a line is of the setup.
fn is_setup(form: &Form) -> bool
    ensures { result ≡ is_setup (form_view form.now) }
{
    match form {
        Form::Join(_, _, _, _) | Form::Auto(_, _, _) => true,
        Form::Of(_, _) => false,
    }
}

/// Adds the names that a line sets, in order; false where one is set already.
fn set_names(alloc: Global, table: &mut NameTable, form: &Form) -> Result<bool, AllocError>
    requires { IsForm (form_view form.now) }
    ensures { IfOk result (λ added. Sets table.old table.new (form_view form.now) added) }
{
    match form {
        Form::Join(_, _, first, second) => add_all(alloc, table, &[*first, *second]),
        Form::Of(seq, Said::Pipe(first, second)) => {
            add_own(alloc, table, *seq, &[*first, *second])
        }
        Form::Of(seq, Said::Data(_, producer, consumer)) => {
            add_own(alloc, table, *seq, &[*producer, *consumer])
        }
        Form::Of(seq, Said::Mint(_, name)) => add_own(alloc, table, *seq, &[*name]),
        Form::Of(seq, Said::Associate(_, _, _, name)) => add_own(alloc, table, *seq, &[*name]),
        Form::Of(seq, Said::Take(_, names)) => add_own(alloc, table, *seq, *names),
        Form::Auto(_, _, _) | Form::Of(_, _) => Ok(true),
    }
}

/// Notes the method that a line lets be answered; false where its sequence answers it already.
fn note_method(alloc: Global, table: &mut NameTable, form: &Form) -> Result<bool, AllocError>
    requires { IsForm (form_view form.now) }
    ensures { IfOk result (λ added. Adds table.old table.new (answers (form_view form.now)) added) }
{
    match form {
        Form::Auto(seq, method, _) => add_method(alloc, table, *seq, *method),
        Form::Join(_, _, _, _) | Form::Of(_, _) => Ok(true),
    }
}

/// Adds what a line adds, and notes whether it is one of a sequence.
fn push_part(reader: &mut Reader, part: Part, started: bool) -> Result<(), Stop>
    ensures { Pushes reader.old reader.new (part_view part) started result }
{
    let pushed = match part {
        Part::Line(line) => reader.lines.push(line).is_ok(),
        Part::Reply(reply) => reader.autos.push(reply).is_ok(),
    };
    if !pushed {
        return Err(Stop::Memory);
    }
    reader.started = started;
    Ok(())
}

/// Reads a line of a form that may stand here.
fn take_form(
    alloc: Global,
    indexed: &IndexedSchema,
    reader: &mut Reader,
    number: u32,
    form: &Form,
) -> Result<(), Stop>
    requires indexed { IsIndexed indexed.now }
    requires form { IsForm (form_view form.now) }
    ensures { TakesForm indexed.now.schema.now reader.old reader.new (form_view form.now) number result }
{
    let count = reader.names.numbers.len();
    match set_names(alloc, &mut reader.names, form) {
        Ok(true) => {}
        Ok(false) => return Err(Stop::Refused(LineRefusal::DoubleName)),
        Err(_) => return Err(Stop::Memory),
    }
    match note_method(alloc, &mut reader.methods, form) {
        Ok(true) => {}
        Ok(false) => return Err(Stop::Refused(LineRefusal::DoubleName)),
        Err(_) => return Err(Stop::Memory),
    }
    let part = part_of(alloc, indexed, &reader.names, count, number, form)?;
    if number as usize > MAX_SCRIPT_LINES {
        return Err(Stop::Refused(LineRefusal::TooManyLines));
    }
    push_part(reader, part, !is_setup(form))
}

/// Reads a line of these words.
fn read_line(
    alloc: Global,
    indexed: &IndexedSchema,
    seqs: u32,
    reader: &mut Reader,
    number: u32,
    words: &[&[u8]],
) -> Result<(), Stop>
    requires { IsIndexed indexed.now }
    ensures { ReadsOn indexed.now.schema.now seqs reader.old reader.new (map (λ word. word.now) words.now) number result }
{
    let form = match read_form(alloc, seqs, words) {
        Ok(Some(form)) => form,
        Ok(None) => return Err(Stop::Refused(LineRefusal::BadLine)),
        Err(_) => return Err(Stop::Memory),
    };
    if is_setup(&form) && reader.started {
        return Err(Stop::Refused(LineRefusal::BadLine));
    }
    take_form(alloc, indexed, reader, number, &form)
}

/// The error of a stop at the line of this number.
fn error_of(number: u32, stop: Stop) -> ScriptError
    ensures { result ≡ error_of number stop }
{
    match stop {
        Stop::Refused(why) => ScriptError::Refused { line: number, why },
        Stop::Memory => ScriptError::Memory,
    }
}

/// The script of these lines behind the first, of so many sequences, by numbered interfaces. All lines
/// have so many bytes.
fn read_numbered(
    alloc: Global,
    indexed: &IndexedSchema,
    seqs: u32,
    lines: &[Words],
    bytes: usize,
) -> Result<Script, ScriptError>
    requires indexed { IsIndexed indexed.now }
    requires count { AreSequences seqs }
    ensures answers { AnswersBehind indexed.now.schema.now seqs (map words_now lines.now) result }
    ensures counted { IfOk result (λ script. script.bytes ≡ bytes) }
{
    let mut reader = Reader {
        names: no_names(alloc),
        methods: no_names(alloc),
        autos: Vec::new(alloc),
        lines: Vec::new(alloc),
        started: false,
    };
    let mut number = 2;
    for line in lines {
        let words = line.words.as_slice();
        if let Err(stop) = read_line(alloc, indexed, seqs, &mut reader, number, words) {
            return Err(error_of(number, stop));
        }
        number += 1;
    }
    Ok(Script {
        seqs,
        names: reader.names.numbers.len(),
        bytes,
        autos: Items::from_vec(reader.autos),
        lines: Items::from_vec(reader.lines),
    })
}

/// The script of these lines behind the first, of so many sequences. All lines have so many bytes.
fn read_lines(
    alloc: Global,
    schema: &Schema,
    seqs: u32,
    lines: &[Words],
    bytes: usize,
) -> Result<Script, ScriptError>
    requires { AreSequences seqs }
    ensures answers { AnswersBehind schema.now seqs (map words_now lines.now) result }
    ensures counted { IfOk result (λ script. script.bytes ≡ bytes) }
{
    match index(alloc, schema) {
        Ok(indexed) => read_numbered(alloc, &indexed, seqs, lines, bytes),
        Err(_) => Err(ScriptError::Memory),
    }
}

/// The script of these lines behind the first, which is of these words. All lines have so many bytes.
fn read_with(
    alloc: Global,
    schema: &Schema,
    first: &[&[u8]],
    lines: &[Words],
    bytes: usize,
) -> Result<Script, ScriptError>
    ensures answers { AnswersAll schema.now (map (λ word. word.now) first.now ∷ map words_now lines.now) result }
    ensures counted { IfOk result (λ script. script.bytes ≡ bytes) }
{
    match sequences_of(alloc, first) {
        Ok(Some(seqs)) => read_lines(alloc, schema, seqs, lines, bytes),
        Ok(None) => Err(ScriptError::Refused {
            line: 1,
            why: LineRefusal::BadLine,
        }),
        Err(_) => Err(ScriptError::Memory),
    }
}

/// The script of these lines, which have so many bytes.
fn read_all(
    alloc: Global,
    schema: &Schema,
    lines: &[Words],
    bytes: usize,
) -> Result<Script, ScriptError>
    ensures answers { AnswersAll schema.now (map words_now lines.now) result }
    ensures counted { IfOk result (λ script. script.bytes ≡ bytes) }
{
    match lines.split_first() {
        Some((first, rest)) => read_with(alloc, schema, first.words.as_slice(), rest, bytes),
        None => Err(ScriptError::Refused {
            line: 1,
            why: LineRefusal::BadLine,
        }),
    }
}

/// Reads a script for this schema: the first line says how many sequences there are, from 1 to 16; then
/// lines join pipes and let methods be answered; and then lines of the sequences follow, in any order;
/// 65,536 lines at most in all. The script keeps how many bytes the text has. Takes time in proportion to the text and the interfaces, times the
/// methods of an interface that a call's word is compared with.
///
/// # Errors
///
/// `Refused` with the first line that is refused, and `Memory` where memory ran out.
pub fn read_script(alloc: Global, schema: &Schema, bytes: &[u8]) -> Result<Script, ScriptError>
    ensures ok { IfOk result (IsScriptOf schema.now bytes.now) }
    ensures sound { IfOk result (IsScript schema.now) }
    ensures counted { IfOk result (λ script. script.bytes ≡ length bytes.now) }
    ensures refused { (line : ℕ) (why : LineRefusal) → result ≡ Err (errors.Refused line why)
        → IsFirstRefusal schema.now bytes.now line why }
{
    match text_words(alloc, bytes) {
        Ok(lines) => read_all(alloc, schema, lines.as_slice(), bytes.len()),
        Err(_) => Err(ScriptError::Memory),
    }
}
