//! Why files, a value, a message or a history are refused.

ghost use Rattle.std.specs.Prelude.{◌≡◌, ◌++◌, codes, decimal, OnOk};
ghost use Rattle.std.specs.Fmt.{signed_decimal};
ghost use Rattle.history_text.specs.Words.{fault_word};
ghost use Rattle.mojo_tool.specs.Lines.{refusal_text, line_refusal_name, unfit_text, unsound_text, path_text, steps_text, number_text, reason_text};

use crate::cause_text::{push_cause, push_named, push_signed};
use call_script::LineRefusal;
use compat_model::{Change, Reason};
use history_audit::AuditFinding;
use history_text::fault_word;
use mj_base::Fault;
use mojom_compile::FileRefusal;
use mojom_files::Cause;
use mojom_print::{push_number, push_text};
use std::alloc::AllocError;
use wire_encoder::PrepareError;

/// Why a file is refused, with its name as it was given; or why a value, a message or a history is.
#[derive(Drop)]
pub enum ToolRefusal<'a> {
    /// The line of this number, from 1, is the first of the script that is refused.
    RefusedLine(u32, LineRefusal),
    /// The file has more than `MAX_FILE_BYTES` bytes.
    FileTooLong(&'a str),
    /// The Mojom file is refused at a place: it has no tree.
    Refused(&'a str, FileRefusal),
    /// A name, a constant or a kind of the Mojom file is refused at a place, in bytes from 0.
    Rejected {
        name: &'a str,
        at: u64,
        cause: Cause,
    },
    /// No interface has this name, or no method has it, or the method has no response.
    UnknownName(&'a str),
    /// The text is no value of the method's parameters, or no history's: the place of its first wrong byte, from 0.
    BadText(u64),
    /// The value isn't written as a message.
    Unfit(PrepareError),
    /// The file isn't hexadecimal.
    BadHex,
    /// The message stands for nothing.
    Faulty(Fault),
    /// The history's text isn't that of a run: what is said of it.
    Unsound(AuditFinding),
    /// The newer file doesn't read what the stable definitions of the older one write.
    Incompatible(Reason),
}

/// Writes the name of a file and a place there.
fn push_place(out: &mut Vec<u8>, name: &str, at: u64) -> Result<(), AllocError>
    ensures { OnOk result (out.new.items ≡ out.old.items ++ (name.now ++ (codes ":" ++ (decimal at ++ codes ": ")))) }
{
    push_text(out, name)?;
    push_text(out, ":")?;
    push_number(out, at)?;
    push_text(out, ": ")
}

/// The name of a reason why a line is refused.
fn line_refusal_name(why: LineRefusal) -> &'static str
    ensures { result.now ≡ line_refusal_name why }
{
    match why {
        LineRefusal::BadLine => "BadLine",
        LineRefusal::DoubleName => "DoubleName",
        LineRefusal::UnknownName => "UnknownName",
        LineRefusal::BadValue => "BadValue",
        LineRefusal::TooManyLines => "TooManyLines",
    }
}

/// Writes the refusal of a line of a script.
fn push_line(out: &mut Vec<u8>, line: u32, why: LineRefusal) -> Result<(), AllocError>
    ensures { OnOk result (out.new.items ≡ out.old.items ++ (codes "script " ++ (decimal line ++ (codes ": " ++ line_refusal_name why)))) }
{
    push_text(out, "script ")?;
    push_number(out, line as u64)?;
    push_named(out, ": ", line_refusal_name(why))
}

/// Writes steps, with a dot before each.
fn push_steps(out: &mut Vec<u8>, steps: &[u64]) -> Result<(), AllocError>
    ensures { OnOk result (out.new.items ≡ out.old.items ++ steps_text steps.now) }
{
    for step in steps {
        push_text(out, ".")?;
        push_number(out, *step)?;
    }
    Ok(())
}

/// Writes a path, with dots between its steps.
fn push_path(out: &mut Vec<u8>, path: &[u64]) -> Result<(), AllocError>
    ensures { OnOk result (out.new.items ≡ out.old.items ++ path_text path.now) }
{
    match path {
        [step, steps @ ..] => {
            push_number(out, *step)?;
            push_steps(out, steps)
        }
        [] => Ok(()),
    }
}

/// Writes why a value isn't written as a message.
fn push_unfit(out: &mut Vec<u8>, why: &PrepareError) -> Result<(), AllocError>
    ensures { OnOk result (out.new.items ≡ out.old.items ++ unfit_text why.now) }
{
    match why {
        PrepareError::Misfit { path } => {
            push_text(out, "Misfit ")?;
            push_path(out, path.as_slice())
        }
        PrepareError::TooDeep { .. } => push_text(out, "TooDeep"),
        PrepareError::TooManyHandles { .. } => push_text(out, "TooManyHandles"),
        PrepareError::TooLong => push_text(out, "TooLong"),
        PrepareError::Memory => Ok(()),
    }
}

/// Writes a fault and its place.
fn push_fault(out: &mut Vec<u8>, fault: &Fault) -> Result<(), AllocError>
    ensures { OnOk result (out.new.items ≡ out.old.items ++ (fault_word fault.now.kind ++ (codes " " ++ decimal fault.now.at))) }
{
    push_named(out, fault_word(fault.kind), " ")?;
    push_number(out, fault.at)
}

/// Writes why a history's text isn't that of a run.
fn push_unsound(out: &mut Vec<u8>, answer: AuditFinding) -> Result<(), AllocError>
    ensures { OnOk result (out.new.items ≡ out.old.items ++ unsound_text answer) }
{
    match answer {
        AuditFinding::Sound(_) => Ok(()),
        AuditFinding::Wrong(event) => {
            push_text(out, "Wrong ")?;
            push_number(out, event)
        }
        AuditFinding::Short(events) => {
            push_text(out, "Short ")?;
            push_number(out, events)
        }
        AuditFinding::Tail(line) => {
            push_text(out, "Tail ")?;
            push_number(out, line)
        }
    }
}

/// Writes a blank and a number.
fn push_behind(out: &mut Vec<u8>, number: u32) -> Result<(), AllocError>
    ensures { OnOk result (out.new.items ≡ out.old.items ++ (codes " " ++ decimal number)) }
{
    push_text(out, " ")?;
    push_number(out, number as u64)
}

/// Writes a blank and a number, with its sign where it is negative.
fn push_signed_behind(out: &mut Vec<u8>, number: i32) -> Result<(), AllocError>
    ensures { OnOk result (out.new.items ≡ out.old.items ++ (codes " " ++ signed_decimal number)) }
{
    push_text(out, " ")?;
    push_signed(out, i128::from(number))
}

/// Writes the number behind a change, with a blank before it.
fn push_change(out: &mut Vec<u8>, change: Change) -> Result<(), AllocError>
    ensures { OnOk result (out.new.items ≡ out.old.items ++ number_text change) }
{
    match change {
        Change::Missing => Ok(()),
        Change::NotStable => Ok(()),
        Change::ExtensibleGone => Ok(()),
        Change::MemberGone(number) => push_signed_behind(out, number),
        Change::TagGone(tag) => push_behind(out, tag),
        Change::MethodGone(ordinal) => push_behind(out, ordinal),
        Change::ResponseChanged(ordinal) => push_behind(out, ordinal),
        Change::FieldGone(ordinal) => push_behind(out, ordinal),
        Change::KindChanged(ordinal) => push_behind(out, ordinal),
        Change::VersionChanged(ordinal) => push_behind(out, ordinal),
        Change::EarlyField(ordinal) => push_behind(out, ordinal),
    }
}

/// Writes why a newer file doesn't read an older one's messages.
fn push_reason(out: &mut Vec<u8>, reason: &Reason) -> Result<(), AllocError>
    ensures { OnOk result (out.new.items ≡ out.old.items ++ reason_text reason.now) }
{
    push_named(out, reason.change.word(), " ")?;
    reason.name.push_to(out)?;
    push_change(out, reason.change)
}

/// Writes why files, a value, a message or a history are refused.
pub fn push_refusal(out: &mut Vec<u8>, refusal: &ToolRefusal<'_>) -> Result<(), AllocError>
    ensures { OnOk result (out.new.items ≡ out.old.items ++ refusal_text refusal.now) }
{
    match refusal {
        ToolRefusal::RefusedLine(line, why) => push_line(out, *line, *why),
        ToolRefusal::FileTooLong(name) => push_named(out, "FileTooLong ", name),
        ToolRefusal::Refused(name, refusal) => {
            push_place(out, name, refusal.at)?;
            let cause = refusal.cause;
            let text = format!(in *out.allocator(); "{cause}")?;
            push_text(out, text.as_str())
        }
        ToolRefusal::Rejected { name, at, cause } => {
            push_place(out, name, *at)?;
            push_cause(out, cause)
        }
        ToolRefusal::UnknownName(name) => push_named(out, "UnknownName ", name),
        ToolRefusal::BadText(at) => {
            push_text(out, "BadText ")?;
            push_number(out, *at)
        }
        ToolRefusal::Unfit(why) => push_unfit(out, why),
        ToolRefusal::BadHex => push_text(out, "BadHex"),
        ToolRefusal::Faulty(fault) => push_fault(out, fault),
        ToolRefusal::Unsound(answer) => push_unsound(out, *answer),
        ToolRefusal::Incompatible(reason) => {
            push_text(out, "Incompatible ")?;
            push_reason(out, reason)
        }
    }
}
