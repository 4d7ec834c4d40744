//! From an interface, a message and the files to its method and value, or to why there is none.

ghost use Rattle.std.specs.Prelude.{◌≡◌, ◌∷◌, [], ◌++◌, Some, map, IfOk, IfErr, OnOk};
ghost use Rattle.command_line.specs.Asked.{Decode, decode_words};
ghost use Rattle.mj_io.specs.Outside.{FilesGoOn};
ghost use Rattle.mojo_tool.specs.Work.{ComesTo, Fetching, Gathering, Decoding, Showing, Judging, IsShown};
ghost use Rattle.mojo_tool.specs.Answers.{DecodesFrom, FileAsks, IsMessageText, RefusedFrom};
ghost use Rattle.mojo_tool.specs.Lines.{shown_line};
ghost use Rattle.mojo_tool.specs.Fetched.{FetchedAll};
ghost use Rattle.mojo_tool.specs.steps.Made.{StoppedLate, StoppedAfter, StoppedFrom};
ghost use Rattle.mojo_tool.specs.steps.Messages.{IsFileText, IsTextOfWork};
ghost use Rattle.mojo_tool.specs.steps.Stops.{Stops, StopsAt, IsOf};

use crate::check::fetch_schema;
use crate::decide::{Stop, fetch};
use crate::line_end::without_line_end;
use crate::lookup::side_of;
use crate::refusal::ToolRefusal;
use call_script::parameters_kind;
use command_line::Side;
use hex::FromHexError;
use message_validator::{Checked, check};
use mj_base::Items;
use mj_io::Files;
use mj_schema::Schema;
use mojom_print::{push_number, push_text};
use std::alloc::{AllocError, Global};
use view_text::write_view;
use wire_model::Expected;
use wire_view::root;

/// A message's method, request id and value.
fn shown_line(
    alloc: Global,
    interface: &str,
    method: &str,
    request: u64,
    value: &[u8],
) -> Result<Items<u8>, AllocError>
    ensures { IfOk result (λ text. text ≡ shown_line interface.now method.now request value.now) }
{
    let mut line = Vec::new(alloc);
    push_text(&mut line, interface)?;
    push_text(&mut line, ".")?;
    push_text(&mut line, method)?;
    push_text(&mut line, " ")?;
    push_number(&mut line, request)?;
    push_text(&mut line, " ")?;
    line.extend_from_slice(value)?;
    line.push(b'\n')?;
    Ok(Items::from_vec(line))
}

/// The text of a message that was checked, written from its bytes. The error is want of memory.
fn show<'a>(alloc: Global, name: &str, checked: &Checked<'_>) -> Result<Items<u8>, Stop<'a>>
    ensures text { IfOk result (IsTextOfWork (IsShown checked.now.schema.now checked.now.expected name.now checked.now.bytes.now)) }
    ensures memory { IfErr result (λ stop. stop ≡ Stop.NoMemory) }
{
    let found = checked
        .schema
        .method(checked.expected.interface, checked.method);
    // A message that was checked names a method.
    let Some(method) = found else { unreachable!() };
    let kind = parameters_kind(checked.number);
    let view = root(checked);
    let Ok(text) = write_view(alloc, checked.schema, &kind, &view) else {
        return Err(Stop::NoMemory);
    };
    match shown_line(
        alloc,
        name,
        method.name.as_str(),
        checked.request,
        text.as_slice(),
    ) {
        Ok(line) => Ok(line),
        Err(_) => Err(Stop::NoMemory),
    }
}

/// The text of a message's value, or its first fault.
fn decode_message<'a>(
    alloc: Global,
    schema: &Schema,
    expected: Expected,
    name: &str,
    handles: u32,
    message: &[u8],
) -> Result<Items<u8>, Stop<'a>>
    ensures text { IfOk result (IsTextOfWork (Judging schema.now expected name.now handles message.now)) }
    ensures stop { IfErr result (StopsAt (Judging schema.now expected name.now handles message.now)) }
    ensures named { IfErr result (IsOf (λ named. ⊥)) }
{
    match check(schema, expected, message, handles) {
        Ok(checked) => show(alloc, name, &checked),
        Err(fault) => Err(Stop::Refused(ToolRefusal::Faulty(fault))),
    }
}

/// The text that a message's file asks for by its bytes.
#[tactic(auto, using(crate::proofs::Shown::no_hex))]
fn decode_bytes<'a>(
    alloc: Global,
    schema: &Schema,
    expected: Expected,
    name: &str,
    handles: u32,
    bytes: &[u8],
) -> Result<Items<u8>, Stop<'a>>
    ensures text { IfOk result (IsTextOfWork (Showing schema.now expected name.now handles bytes.now)) }
    ensures stop { IfErr result (StopsAt (Showing schema.now expected name.now handles bytes.now)) }
    ensures named { IfErr result (IsOf (λ named. ⊥)) }
{
    match hex::decode(alloc, without_line_end(bytes)) {
        Ok(message) => decode_message(alloc, schema, expected, name, handles, message.as_slice()),
        Err(FromHexError::OutOfMemory) => Err(Stop::NoMemory),
        Err(_) => Err(Stop::Refused(ToolRefusal::BadHex)),
    }
}

/// The text that a message's name asks for.
fn decode_file<'a, F: Files>(
    alloc: Global,
    schema: &Schema,
    expected: Expected,
    name: &str,
    handles: u32,
    message: &'a str,
    files: &mut F,
) -> Result<Items<u8>, Stop<'a>>
    ensures on { FilesGoOn (F.state files.old) (F.state files.new) }
    ensures text { IfOk result (IsFileText message.now (Showing schema.now expected name.now handles) (F.state files.old).read (F.state files.new).read
        (F.state files.old).held
        (λ files work. Fetching files message.now (Showing schema.now expected name.now handles) work)) }
    ensures stop { IfErr result (Stops (F.state files.old) (F.state files.new)
        (λ files work. Fetching files message.now (Showing schema.now expected name.now handles) work)) }
    ensures named { IfErr result (IsOf (λ named. named ≡ message.now)) }
    ensures whole { OnOk result (FetchedAll (message.now ∷ []) (F.state files.old).fetches (F.state files.new).fetches) }
    ensures stopped { IfErr result (StoppedLate message.now (F.state files.old).fetches (F.state files.new).fetches) }
    ensures refused { IfErr result (StoppedFrom (FileAsks message.now (Showing schema.now expected name.now handles)
        (F.state files.old).read (F.state files.new).read)) }
{
    match fetch(alloc, files, message) {
        Err(stop) => Err(stop),
        Ok(bytes) => decode_bytes(alloc, schema, expected, name, handles, bytes.as_slice()),
    }
}

/// The text of the value that an interface, a message and the files ask for.
pub fn decide_decode<'a, F: Files>(
    alloc: Global,
    interface: &'a str,
    side: Side,
    handles: u32,
    message: &'a str,
    names: &[&'a str],
    files: &mut F,
) -> Result<Items<u8>, Stop<'a>>
    ensures on { FilesGoOn (F.state files.old) (F.state files.new) }
    ensures text { IfOk result (IsMessageText (map (λ name. name.now) names.now) message.now
        (DecodesFrom (decode_words interface.now side handles message.now (map (λ name. name.now) names.now)))
        (F.state files.old).read (F.state files.new).read (F.state files.old).held
        (λ files work. Gathering files (map (λ name. name.now) names.now)
        (Decoding files (decode_words interface.now side handles message.now (map (λ name. name.now) names.now))) work)) }
    ensures stop { IfErr result (Stops (F.state files.old) (F.state files.new)
        (λ files work. Gathering files (map (λ name. name.now) names.now)
        (Decoding files (decode_words interface.now side handles message.now (map (λ name. name.now) names.now))) work)) }
    ensures reached { IfErr result (IsOf (ComesTo (Some (Decode (decode_words interface.now side handles message.now (map (λ name. name.now) names.now))))
        (F.state files.old).held)) }
    ensures whole { OnOk result (FetchedAll (map (λ name. name.now) names.now ++ message.now ∷ []) (F.state files.old).fetches (F.state files.new).fetches) }
    ensures stopped { IfErr result (StoppedAfter (map (λ name. name.now) names.now) (message.now ∷ [])
        (F.state files.old).fetches (F.state files.new).fetches) }
    ensures refused { IfErr result (StoppedFrom (RefusedFrom
        (Some (Decode (decode_words interface.now side handles message.now (map (λ name. name.now) names.now))))
        (F.state files.old).read (F.state files.new).read)) }
{
    match fetch_schema(alloc, names, files) {
        Err(stop) => Err(stop),
        Ok(schema) => match schema.find_interface(interface) {
            None => Err(Stop::Refused(ToolRefusal::UnknownName(interface))),
            Some(number) => {
                let expected = Expected {
                    interface: number,
                    side: side_of(side),
                };
                decode_file(alloc, &schema, expected, interface, handles, message, files)
            }
        },
    }
}
