//! A pass alone at its hub, which takes what it wrote itself.

ghost use Rattle.std.specs.Prelude.{ℕ, ◌≡◌, Some, slice_get};
ghost use Rattle.bind_hub.specs.Hubs.{schema_in, seqs_in};
ghost use Rattle.bind_hub.specs.Passes.{IsPassOf};
ghost use Rattle.bind_model.specs.Plain.{IsOf};

use crate::compiled::compiled;
use bind_hub::{Hub, Pass, Seat};
use bind_model::{Command, History, Received, Reply};
use check_files::word_bytes;
use handle_table::{Handle, Handles};
use mj_base::{EndId, Items};
use mj_schema::Schema;
use std::alloc::{AllocError, Global};
use std::process::Abort;
use std::sync::{Arc, Wait};
use std::test::Fail;
use wire_encoder::EndpointSide;
use wire_model::Value;

/// An interface whose one message says a number.
const LISTENER: &str = "interface P { Say(uint32 n); };";

/// The bytes of a message that says 7.
fn message(alloc: Global) -> Result<Items<u8>, AllocError> {
    let bytes = word_bytes(alloc, &[24, 0, 0, 0, 0, 0, 16, 0, 7, 0])?;
    Ok(Items::from_vec(bytes))
}

/// Does a command, for which there is memory and room.
fn step<R: Wait>(rt: &impl Abort, alloc: Global, seat: &mut Seat<'_, R>, command: Command) -> Reply
    requires prepared { IsOf (schema_in seat.old.hub.now) command }
    ensures hub { seat.new.hub.now ≡ seat.old.hub.now }
    ensures number { seat.new.pass.number ≡ seat.old.pass.number }
{
    match seat.hub.step(seat.rt, alloc, &mut seat.pass, command) {
        Ok(reply) => reply,
        Err(_refused) => panic!(rt; "no event"),
    }
}

/// The two ends that were made.
fn made(rt: &impl Abort, reply: Reply) -> (Handle, Handle) {
    let mut items = match reply {
        Reply::Made(handles) => handles.into_vec(),
        _other => panic!(rt; "no pipe"),
    };
    if items.len() != 2 {
        panic!(rt; "not two ends");
    }
    let first = items.remove(0);
    let second = items.remove(0);
    items.destroy_empty();
    (first, second)
}

/// The end that was bound.
fn bound(rt: &impl Abort, reply: Reply) -> EndId {
    match reply {
        Reply::Bound(end) => end,
        _other => panic!(rt; "not bound"),
    }
}

/// The end that bytes were written from.
fn wrote(rt: &impl Abort, reply: Reply) -> Handle {
    match reply {
        Reply::Wrote(handle) => handle,
        _other => panic!(rt; "not written"),
    }
}

/// What was taken.
fn taken(rt: &impl Abort, reply: Reply) -> Received {
    match reply {
        Reply::Got(received) => received,
        _other => panic!(rt; "not taken"),
    }
}

/// Writes a message at one end of a new pipe and takes it at the other: the handle of the first end, and what was taken.
fn write_and_take<R: Wait>(
    rt: &impl Abort,
    alloc: Global,
    seat: &mut Seat<'_, R>,
    message: Items<u8>,
) -> (Handle, Received)
    ensures hub { seat.new.hub.now ≡ seat.old.hub.now }
    ensures number { seat.new.pass.number ≡ seat.old.pass.number }
{
    let (x, y) = made(rt, step(rt, alloc, seat, Command::Pipe));
    let bind = Command::Bind(y, EndpointSide::Receiver, 0);
    let end = bound(rt, step(rt, alloc, seat, bind));
    let raw = Command::Raw(x, message, Handles::from_vec(Vec::new(alloc)));
    let x = wrote(rt, step(rt, alloc, seat, raw));
    let got = taken(rt, step(rt, alloc, seat, Command::Take(end)));
    (x, got)
}

/// The last of some passes writes and takes: the passes again, the handle of the end that it wrote at, and what it took.
fn work_alone<'h, R: Abort + Wait>(
    rt: &'h R,
    alloc: Global,
    hub: &'h Hub,
    passes: Vec<Pass>,
    message: Items<u8>,
) -> (Vec<Pass>, Handle, Received)
    requires passes { (k : ℕ) (p : _) → slice_get passes.items k ≡ Some p
        → IsPassOf hub.now.turn.board.shared.table_id (schema_in hub.now) (seqs_in hub.now) p.number p.place.table_id p.place.me.0 }
    ensures passes { (k : ℕ) (q : _) → slice_get result.0.items k ≡ Some q → IsPassOf hub.now.turn.board.shared.table_id (schema_in hub.now) (seqs_in hub.now)
        q.number q.place.table_id q.place.me.0 }
    ensures each { (k : ℕ) (p : _) → slice_get passes.items k ≡ Some p → (j : ℕ) × (q : _) × (slice_get result.0.items j ≡ Some q) × (q.number ≡ p.number) }
{
    let mut passes = passes;
    let Some(pass) = passes.pop() else {
        panic!(rt; "no pass");
    };
    let mut seat = Seat::new(hub, rt, pass);
    let (x, got) = write_and_take(rt, alloc, &mut seat, message);
    let back = seat.into_pass();
    passes.push_reserved(back);
    (passes, x, got)
}

/// Whether the message said this number.
fn says(got: &Received, number: i128) -> bool {
    match got.parameters.value() {
        Value::Struct(fields) => match fields.as_slice() {
            [Value::Whole(said)] => *said == number,
            _ => false,
        },
        _ => false,
    }
}

/// The one pass of a hub writes a message and takes it: the history, and whether it took this number.
fn written_and_taken<R: Abort + Wait>(
    rt: &R,
    alloc: Global,
    schema: Arc<Schema>,
    message: Items<u8>,
    number: i128,
) -> (History, bool) {
    let Ok((hub, passes)) = Hub::start(alloc, schema, 1) else {
        panic!(rt; "no memory");
    };
    let (passes, x, got) = work_alone(rt, alloc, &hub, passes, message);
    let is_taken = says(&got, number);
    let core = hub.close(passes);
    let (history, over) = core.end();
    x.retire(&over);
    got.retire(&over);
    (history, is_taken)
}

// It has seen its own events at its next turn.
#[test]
fn a_pass_takes_what_it_wrote(rt: HostRuntime) -> Result<(), Fail> {
    let alloc = rt.alloc();
    let Some(schema) = compiled(alloc, LISTENER)? else {
        panic!(rt; "the interface is refused");
    };
    let schema = Arc::new(alloc, schema)?;
    let (history, is_taken) = written_and_taken(&rt, alloc, schema, message(alloc)?, 7);
    assert!(rt; is_taken);
    assert_eq!(rt; history.len(), 4);
    Ok(())
}
