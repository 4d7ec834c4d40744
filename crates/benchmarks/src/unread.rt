//! How long takes are where messages lie unread at many ends.

ghost use Rattle.std.specs.Prelude.{◌≡◌, ◌<◌};
ghost use Rattle.bind_model.specs.Plain.{IsOf};

use crate::timing::{nanoseconds_each, now};
use bind_core::Core;
use bind_model::{Command, Refused, Reply};
use handle_table::{Ended, Handle, Handles};
use mj_base::{EndId, Items, SeqId, Text, push_le32};
use mj_schema::Schema;
use mojom_compile::{Source, compile};
use std::alloc::{AllocError, Global};
use std::io;
use std::io::Print;
use std::sync::Arc;
use std::time::{CpuClock, Duration};
use wire_encoder::EndpointSide;

/// The one sequence.
const ONLY: SeqId = SeqId(0);

/// The words of the message that lies unread: it tells that an endpoint is closed, so nothing comes out of it.
const WORDS: [u32; 10] = [24, 0, 4_294_967_295, 0, 0, 0, 16, 0, 1, 5];

/// How many ends there are, and how many messages lie at each.
const SHAPES: [(u32, u32); 5] = [
    (250, 4000),
    (1000, 1000),
    (10_000, 25),
    (10_000, 50),
    (10_000, 100),
];

/// Why the takes don't begin or go on: something else was told, a command came back, or memory was wanting.
enum Stopped {
    Told(Reply),
    Back(Refused),
    Left(Handle),
    Memory,
}

impl Stopped {
    /// Lets it go, once all is over.
    fn retire(self, over: &Ended) {
        match self {
            Stopped::Told(reply) => reply.retire(over),
            Stopped::Back(refused) => refused.retire(over),
            Stopped::Left(handle) => handle.retire(over),
            Stopped::Memory => {}
        }
    }
}

/// A schema with one interface; none without memory.
fn schema_of(alloc: Global) -> Result<Option<Schema>, AllocError> {
    let text = "interface P { Say(uint32 n); };";
    let source = Source {
        name: Text::from_str(alloc, "unread")?,
        bytes: Items::from_vec(Vec::from_slice(alloc, text.as_bytes())?),
    };
    Ok(compile(alloc, &[source]).ok())
}

/// The bytes of the message.
fn message(alloc: Global) -> Result<Items<u8>, AllocError> {
    let mut bytes = Vec::new(alloc);
    for word in WORDS.as_slice() {
        push_le32(&mut bytes, *word)?;
    }
    Ok(Items::from_vec(bytes))
}

/// Does a command.
fn step(core: &mut Core, alloc: Global, command: Command) -> Result<Reply, Stopped>
    requires some { 0 < core.old.seqs }
    requires prepared { IsOf core.old.schema command }
    ensures { core.new.seqs ≡ core.old.seqs }
{
    match core.step(alloc, ONLY, command) {
        Ok(reply) => Ok(reply),
        Err(refused) => Err(Stopped::Back(refused)),
    }
}

/// Makes a pipe: the end to read from. The other one is kept.
fn make_pipe(core: &mut Core, alloc: Global, writers: &mut Vec<Handle>) -> Result<Handle, Stopped>
    requires { 0 < core.old.seqs }
    ensures { core.new.seqs ≡ core.old.seqs }
{
    if writers.reserve(1).is_err() {
        return Err(Stopped::Memory);
    }
    let mut items = match step(core, alloc, Command::Pipe)? {
        Reply::Made(handles) => handles.into_vec(),
        other => return Err(Stopped::Told(other)),
    };
    if items.len() != 2 {
        return Err(Stopped::Told(Reply::Made(Handles::from_vec(items))));
    }
    let writer = items.remove(0);
    let reader = items.remove(0);
    items.destroy_empty();
    writers.push_reserved(writer);
    Ok(reader)
}

/// Binds an end.
fn bind(core: &mut Core, alloc: Global, reader: Handle) -> Result<EndId, Stopped>
    requires { 0 < core.old.seqs }
    ensures { core.new.seqs ≡ core.old.seqs }
{
    match step(
        core,
        alloc,
        Command::Bind(reader, EndpointSide::Receiver, 0),
    )? {
        Reply::Bound(end) => Ok(end),
        other => Err(Stopped::Told(other)),
    }
}

/// Writes the message from an end, which comes back.
fn write(core: &mut Core, alloc: Global, writer: Handle) -> Result<Handle, Stopped>
    requires { 0 < core.old.seqs }
    ensures { core.new.seqs ≡ core.old.seqs }
{
    let Ok(bytes) = message(alloc) else {
        return Err(Stopped::Left(writer));
    };
    let handles = Handles::from_vec(Vec::new(alloc));
    match step(core, alloc, Command::Raw(writer, bytes, handles))? {
        Reply::Wrote(handle) => Ok(handle),
        other => Err(Stopped::Told(other)),
    }
}

/// Writes the message so many times from an end, which comes back.
fn write_times(
    core: &mut Core,
    alloc: Global,
    writer: Handle,
    times: u32,
) -> Result<Handle, Stopped>
    requires { 0 < core.old.seqs }
    ensures { core.new.seqs ≡ core.old.seqs }
{
    let mut handle = writer;
    for _ in 0..times {
        handle = write(core, alloc, handle)?;
    }
    Ok(handle)
}

/// Writes the message so many times from the last of these ends.
fn write_last(
    core: &mut Core,
    alloc: Global,
    writers: &mut Vec<Handle>,
    times: u32,
) -> Result<(), Stopped>
    requires { 0 < core.old.seqs }
    ensures { core.new.seqs ≡ core.old.seqs }
{
    let Some(writer) = writers.pop() else {
        return Ok(());
    };
    let writer = write_times(core, alloc, writer, times)?;
    match writers.push(writer) {
        Ok(()) => Ok(()),
        Err(failed) => Err(Stopped::Left(failed.value)),
    }
}

/// Makes so many ends, each with so many unread messages.
fn make_ends(
    core: &mut Core,
    alloc: Global,
    ends: u32,
    each: u32,
    writers: &mut Vec<Handle>,
    readers: &mut Vec<EndId>,
) -> Result<(), Stopped>
    requires { 0 < core.old.seqs }
    ensures { core.new.seqs ≡ core.old.seqs }
{
    for _ in 0..ends {
        let reader = make_pipe(core, alloc, writers)?;
        let end = bind(core, alloc, reader)?;
        if readers.push(end).is_err() {
            return Err(Stopped::Memory);
        }
        write_last(core, alloc, writers, each)?;
    }
    Ok(())
}

/// Takes a message at an end, behind a look for the end that is ready.
fn take(core: &mut Core, alloc: Global, end: EndId) -> Result<(), Stopped>
    requires { 0 < core.old.seqs }
    ensures { core.new.seqs ≡ core.old.seqs }
{
    let _ready = core.ready();
    match step(core, alloc, Command::Take(end))? {
        Reply::Control(_) => Ok(()),
        other => Err(Stopped::Told(other)),
    }
}

/// Takes a message at each of these ends.
fn take_each(core: &mut Core, alloc: Global, ends: &[EndId]) -> Result<(), Stopped>
    requires { 0 < core.old.seqs }
    ensures { core.new.seqs ≡ core.old.seqs }
{
    for end in ends {
        take(core, alloc, *end)?;
    }
    Ok(())
}

/// Takes so many messages at each of these ends, at all in turn.
fn take_all(core: &mut Core, alloc: Global, ends: &[EndId], each: u32) -> Result<(), Stopped>
    requires { 0 < core.old.seqs }
    ensures { core.new.seqs ≡ core.old.seqs }
{
    for _ in 0..each {
        take_each(core, alloc, ends)?;
    }
    Ok(())
}

/// Prints what a take took.
fn show<R: Print>(rt: &R, ends: u32, each: u32, whole: bool, taken: Duration) -> io::Result<()> {
    if !whole {
        return println!(rt; "{ends} ends: no memory for the messages");
    }
    let messages = u64::from(ends).saturating_mul(u64::from(each));
    println!(rt;
        "{messages} unread messages over {ends} ends: {} ns a take",
        nanoseconds_each(Some(taken), messages)
    )
}

/// Prints how long the takes are where so many messages lie at each of so many ends.
fn time<R: Print + AllocGlobal + CpuClock>(
    rt: &R,
    schema: Arc<Schema>,
    ends: u32,
    each: u32,
) -> io::Result<()> {
    let alloc = rt.alloc();
    let mut core = Core::new(alloc, schema, 1);
    let mut writers = Vec::new(alloc);
    let mut readers = Vec::new(alloc);
    let made = make_ends(&mut core, alloc, ends, each, &mut writers, &mut readers);
    let start = now(rt);
    let took = match made {
        Ok(()) => take_all(&mut core, alloc, readers.as_slice(), each),
        Err(stopped) => Err(stopped),
    };
    let end = now(rt);
    let (_history, over) = core.end();
    Handles::from_vec(writers).retire(&over);
    let whole = match took {
        Ok(()) => true,
        Err(stopped) => {
            stopped.retire(&over);
            false
        }
    };
    show(rt, ends, each, whole, end?.saturating_sub(start?))
}

/// Times takes at ends with unread messages: of as many messages at more ends, and of more messages at as many ends.
pub fn time_all<R: Print + AllocGlobal + CpuClock>(rt: &R) -> io::Result<()> {
    let Some(schema) = schema_of(rt.alloc())? else {
        return println!(rt; "no memory for a schema");
    };
    let shared = Arc::new(rt.alloc(), schema)?;
    for (ends, each) in SHAPES.as_slice() {
        match Arc::try_clone(&shared) {
            Ok(schema) => time(rt, schema, *ends, *each)?,
            Err(_) => println!(rt; "no memory for a schema")?,
        }
    }
    Ok(())
}
