//! From a method, the text of a value and the files to a message, or to why there is none.

ghost use Rattle.std.specs.Prelude.{◌≡◌, ◌≤◌, ◌∷◌, [], ◌++◌, Some, map, IfOk, IfErr, OnOk};
ghost use Rattle.command_line.specs.Asked.{Encode, encode_words};
ghost use Rattle.mj_io.specs.Outside.{FilesGoOn};
ghost use Rattle.wire_encoder.specs.Prepared.{HasTarget, IsPrepared, parameters_of};
ghost use Rattle.wire_model.specs.Stands.{up_from};
ghost use Rattle.wire_model.specs.Trees.{view};
ghost use Rattle.mojo_tool.specs.Work.{ComesTo, Encodes, Fetching, Gathering, Encoding, Preparing, Writing};
ghost use Rattle.mojo_tool.specs.Answers.{EncodesFrom, FileAsks, IsMessageText, RefusedFrom};
ghost use Rattle.mojo_tool.specs.Lines.{hex_line};
ghost use Rattle.mojo_tool.specs.Fetched.{FetchedAll};
ghost use Rattle.mojo_tool.specs.steps.Made.{StoppedLate, StoppedAfter, StoppedFrom};
ghost use Rattle.mojo_tool.specs.steps.Messages.{IsFileText, IsTextOfWork, unfit_stop};
ghost use Rattle.mojo_tool.specs.steps.Stops.{Stops, StopsAt, IsOf};

use crate::check::fetch_schema;
use crate::decide::{Stop, fetch};
use crate::line_end::without_line_end;
use crate::lookup::{message_named, side_of};
use crate::refusal::ToolRefusal;
use call_script::parameters_kind;
use command_line::Side;
use mj_base::Items;
use mj_io::Files;
use mj_schema::Schema;
use sealed_laws::sealed_is_read;
use std::alloc::{AllocError, Global};
use value_text::{TextError, read_value};
use wire_encoder::{Head, PrepareError, Prepared, prepare, seal};
use wire_model::{Target, Value};

/// The ids 1, 2, 3 and so on.
#[tactic(auto, using(crate::proofs::Sealed::up_more))]
fn ids(alloc: Global, count: usize) -> Result<Vec<u32>, AllocError>
    requires { count ≤ 64 }
    ensures { IfOk result (λ ids. ids.items ≡ up_from 1 count) }
{
    let mut ids = Vec::new(alloc);
    for number in 0..count {
        ids.push(number as u32 + 1)?;
    }
    Ok(ids)
}

/// The message of a prepared value, with the interface id 0 and the request id 1. It is let through and read
/// as the value.
fn sealed(alloc: Global, schema: &Schema, prepared: &Prepared) -> Result<Vec<u8>, AllocError>
    requires there { HasTarget schema.now prepared.now.target }
    requires prepared { IsPrepared schema.now prepared.now }
    ensures { IfOk result (λ bytes. Preparing schema.now prepared.now.target (view prepared.now.value) (Encodes bytes.items)) }
{
    // A law, on which this rests: it does nothing.
    sealed_is_read();
    // Its ordinal has 32 bits, once it is read.
    let _method = prepared.target.method;
    let ids = ids(alloc, prepared.endpoints.len())?;
    let head = Head {
        interface_id: 0,
        request_id: 1,
        moment: None,
        ids: ids.as_slice(),
    };
    let message = seal(alloc, prepared, &head)?;
    Ok(message)
}

/// A message in hexadecimal.
fn hex_line(alloc: Global, message: Vec<u8>) -> Result<Items<u8>, AllocError>
    ensures { IfOk result (λ text. text ≡ hex_line message.items) }
{
    let digits = hex::encode(alloc, message)?;
    let mut line = Vec::new(alloc);
    line.extend_from_slice(digits.as_bytes())?;
    line.push(b'\n')?;
    Ok(Items::from_vec(line))
}

/// Why there is no text of a value that isn't prepared.
fn unfit_stop<'a>(error: PrepareError) -> Stop<'a>
    ensures { result ≡ unfit_stop error }
{
    match error {
        PrepareError::Misfit { path } => {
            Stop::Refused(ToolRefusal::Unfit(PrepareError::Misfit { path }))
        }
        PrepareError::TooDeep { path } => {
            Stop::Refused(ToolRefusal::Unfit(PrepareError::TooDeep { path }))
        }
        PrepareError::TooManyHandles { path } => {
            Stop::Refused(ToolRefusal::Unfit(PrepareError::TooManyHandles { path }))
        }
        PrepareError::TooLong => Stop::Refused(ToolRefusal::Unfit(PrepareError::TooLong)),
        PrepareError::Memory => Stop::NoMemory,
    }
}

/// The text of the message of a value.
#[tactic(auto, using(crate::proofs::Sealed::unfit_stops, crate::proofs::Sealed::unnamed, crate::proofs::Sealed::target_there, crate::proofs::Sealed::encoded))]
fn encode_value<'a>(
    alloc: Global,
    schema: &Schema,
    target: Target,
    value: Value,
) -> Result<Items<u8>, Stop<'a>>
    requires { HasTarget schema.now target }
    ensures text { IfOk result (IsTextOfWork (Preparing schema.now target (view value))) }
    ensures stop { IfErr result (StopsAt (Preparing schema.now target (view value))) }
    ensures named { IfErr result (IsOf (λ named. ⊥)) }
{
    let prepared = match prepare(alloc, schema, target, value) {
        Ok(prepared) => prepared,
        Err((error, _)) => return Err(unfit_stop(error)),
    };
    let Ok(message) = sealed(alloc, schema, &prepared) else {
        return Err(Stop::NoMemory);
    };
    match hex_line(alloc, message) {
        Ok(text) => Ok(text),
        Err(_) => Err(Stop::NoMemory),
    }
}

/// The text that a value's file asks for by its bytes.
#[tactic(auto, using(crate::proofs::Sealed::value_bad))]
fn encode_bytes<'a>(
    alloc: Global,
    schema: &Schema,
    target: Target,
    number: u32,
    bytes: &[u8],
) -> Result<Items<u8>, Stop<'a>>
    requires { parameters_of schema.now target ≡ Some number }
    ensures text { IfOk result (IsTextOfWork (Writing schema.now (target, number) bytes.now)) }
    ensures stop { IfErr result (StopsAt (Writing schema.now (target, number) bytes.now)) }
    ensures named { IfErr result (IsOf (λ named. ⊥)) }
{
    let kind = parameters_kind(number);
    match read_value(alloc, schema, &kind, without_line_end(bytes)) {
        Ok(value) => encode_value(alloc, schema, target, value),
        Err(TextError::BadText { at }) => Err(Stop::Refused(ToolRefusal::BadText(at))),
        Err(TextError::Memory) => Err(Stop::NoMemory),
    }
}

/// The text that a value's name asks for.
fn encode_file<'a, F: Files>(
    alloc: Global,
    schema: &Schema,
    target: Target,
    number: u32,
    name: &'a str,
    files: &mut F,
) -> Result<Items<u8>, Stop<'a>>
    requires { parameters_of schema.now target ≡ Some number }
    ensures on { FilesGoOn (F.state files.old) (F.state files.new) }
    ensures text { IfOk result (IsFileText name.now (Writing schema.now (target, number)) (F.state files.old).read (F.state files.new).read
        (F.state files.old).held (λ files work. Fetching files name.now (Writing schema.now (target, number)) work)) }
    ensures stop { IfErr result (Stops (F.state files.old) (F.state files.new)
        (λ files work. Fetching files name.now (Writing schema.now (target, number)) work)) }
    ensures named { IfErr result (IsOf (λ named. named ≡ name.now)) }
    ensures whole { OnOk result (FetchedAll (name.now ∷ []) (F.state files.old).fetches (F.state files.new).fetches) }
    ensures stopped { IfErr result (StoppedLate name.now (F.state files.old).fetches (F.state files.new).fetches) }
    ensures refused { IfErr result (StoppedFrom (FileAsks name.now (Writing schema.now (target, number)) (F.state files.old).read (F.state files.new).read)) }
{
    match fetch(alloc, files, name) {
        Err(stop) => Err(stop),
        Ok(bytes) => encode_bytes(alloc, schema, target, number, bytes.as_slice()),
    }
}

/// The text of the message that a method, a value and the files ask for.
pub fn decide_encode<'a, F: Files>(
    alloc: Global,
    method: &'a str,
    side: Side,
    value: &'a str,
    names: &[&'a str],
    files: &mut F,
) -> Result<Items<u8>, Stop<'a>>
    ensures on { FilesGoOn (F.state files.old) (F.state files.new) }
    ensures text { IfOk result (IsMessageText (map (λ name. name.now) names.now) value.now
        (EncodesFrom (encode_words method.now side value.now (map (λ name. name.now) names.now)))
        (F.state files.old).read (F.state files.new).read (F.state files.old).held
        (λ files work. Gathering files (map (λ name. name.now) names.now)
        (Encoding files (encode_words method.now side value.now (map (λ name. name.now) names.now))) work)) }
    ensures stop { IfErr result (Stops (F.state files.old) (F.state files.new)
        (λ files work. Gathering files (map (λ name. name.now) names.now)
        (Encoding files (encode_words method.now side value.now (map (λ name. name.now) names.now))) work)) }
    ensures reached { IfErr result (IsOf (ComesTo (Some (Encode (encode_words method.now side value.now (map (λ name. name.now) names.now))))
        (F.state files.old).held)) }
    ensures whole { OnOk result (FetchedAll (map (λ name. name.now) names.now ++ value.now ∷ []) (F.state files.old).fetches (F.state files.new).fetches) }
    ensures stopped { IfErr result (StoppedAfter (map (λ name. name.now) names.now) (value.now ∷ [])
        (F.state files.old).fetches (F.state files.new).fetches) }
    ensures refused { IfErr result (StoppedFrom (RefusedFrom
        (Some (Encode (encode_words method.now side value.now (map (λ name. name.now) names.now)))) (F.state files.old).read (F.state files.new).read)) }
{
    match fetch_schema(alloc, names, files) {
        Err(stop) => Err(stop),
        Ok(schema) => match message_named(&schema, side_of(side), method) {
            None => Err(Stop::Refused(ToolRefusal::UnknownName(method))),
            Some((target, number)) => encode_file(alloc, &schema, target, number, value, files),
        },
    }
}
