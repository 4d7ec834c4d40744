//! Commands about data pipes.

ghost use Rattle.byte_rules.specs.Reading.{Gives};
ghost use Rattle.history_reader.specs.Flows.{data_pipe, put, get, begin_put, end_put, begin_get, end_get, flow_after};

use crate::arrows::{asks, asks_behind};
use bind_model::{Asked, Flow};
use byte_rules::{Stop, expect};
use line_parts::hexadecimal::hexadecimal;
use line_parts::ids::thing;
use std::alloc::Global;
use value_text::index;

/// The word of what is asked of a data pipe; true where all is asked for.
#[derive(Clone, Copy)]
pub(crate) enum FlowWord {
    Put(bool),
    Get(bool),
    BeginPut,
    EndPut,
    BeginGet,
    EndGet,
}

/// How many bytes a new data pipe holds.
#[tactic(auto, unfolding(crate::specs::Flows::data_pipe))]
pub(crate) fn data_pipe(bytes: &[u8]) -> Result<(Asked, &[u8]), Stop>
    ensures { Gives (λ x. (x.0, x.1.now)) result (data_pipe.read bytes.now) }
{
    let rest = expect(bytes, b' ')?;
    let (size, rest) = index(rest)?;
    asks(Asked::Data(size), rest)
}

/// A producer, and the bytes that are put in.
#[tactic(auto, unfolding(crate::specs::Flows::put))]
fn put(alloc: Global, all: bool, bytes: &[u8]) -> Result<(Asked, &[u8]), Stop>
    ensures { Gives (λ x. (x.0, x.1.now)) result ((put all).read bytes.now) }
{
    let rest = expect(bytes, b' ')?;
    let (thing, rest) = thing(rest)?;
    let rest = expect(rest, b' ')?;
    let (moved, rest) = hexadecimal(alloc, b' ', rest)?;
    asks_behind(Asked::Flow(thing, Flow::Put(moved, all)), rest)
}

/// A consumer, and how many bytes are got.
#[tactic(auto, unfolding(crate::specs::Flows::get))]
fn get(all: bool, bytes: &[u8]) -> Result<(Asked, &[u8]), Stop>
    ensures { Gives (λ x. (x.0, x.1.now)) result ((get all).read bytes.now) }
{
    let rest = expect(bytes, b' ')?;
    let (thing, rest) = thing(rest)?;
    let rest = expect(rest, b' ')?;
    let (count, rest) = index(rest)?;
    asks(Asked::Flow(thing, Flow::Get(count, all)), rest)
}

/// A producer that bytes are put in at where they lie.
#[tactic(auto, unfolding(crate::specs::Flows::begin_put))]
fn begin_put(bytes: &[u8]) -> Result<(Asked, &[u8]), Stop>
    ensures { Gives (λ x. (x.0, x.1.now)) result (begin_put.read bytes.now) }
{
    let rest = expect(bytes, b' ')?;
    let (thing, rest) = thing(rest)?;
    asks(Asked::Flow(thing, Flow::BeginPut), rest)
}

/// A producer, and the bytes that were put in where they lie.
#[tactic(auto, unfolding(crate::specs::Flows::end_put))]
fn end_put(alloc: Global, bytes: &[u8]) -> Result<(Asked, &[u8]), Stop>
    ensures { Gives (λ x. (x.0, x.1.now)) result (end_put.read bytes.now) }
{
    let rest = expect(bytes, b' ')?;
    let (thing, rest) = thing(rest)?;
    let rest = expect(rest, b' ')?;
    let (moved, rest) = hexadecimal(alloc, b' ', rest)?;
    asks_behind(Asked::Flow(thing, Flow::EndPut(moved)), rest)
}

/// A consumer that bytes are read at where they lie.
#[tactic(auto, unfolding(crate::specs::Flows::begin_get))]
fn begin_get(bytes: &[u8]) -> Result<(Asked, &[u8]), Stop>
    ensures { Gives (λ x. (x.0, x.1.now)) result (begin_get.read bytes.now) }
{
    let rest = expect(bytes, b' ')?;
    let (thing, rest) = thing(rest)?;
    asks(Asked::Flow(thing, Flow::BeginGet), rest)
}

/// A consumer, and how many bytes were read where they lie.
#[tactic(auto, unfolding(crate::specs::Flows::end_get))]
fn end_get(bytes: &[u8]) -> Result<(Asked, &[u8]), Stop>
    ensures { Gives (λ x. (x.0, x.1.now)) result (end_get.read bytes.now) }
{
    let rest = expect(bytes, b' ')?;
    let (thing, rest) = thing(rest)?;
    let rest = expect(rest, b' ')?;
    let (count, rest) = index(rest)?;
    asks(Asked::Flow(thing, Flow::EndGet(count)), rest)
}

/// What stands behind the word of what is asked of a data pipe.
pub(crate) fn flow_after(
    alloc: Global,
    word: FlowWord,
    bytes: &[u8],
) -> Result<(Asked, &[u8]), Stop>
    ensures { Gives (λ x. (x.0, x.1.now)) result ((flow_after word).read bytes.now) }
{
    match word {
        FlowWord::Put(all) => put(alloc, all, bytes),
        FlowWord::Get(all) => get(all, bytes),
        FlowWord::BeginPut => begin_put(bytes),
        FlowWord::EndPut => end_put(alloc, bytes),
        FlowWord::BeginGet => begin_get(bytes),
        FlowWord::EndGet => end_get(bytes),
    }
}
