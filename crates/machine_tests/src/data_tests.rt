//! A data pipe at a desk: its tokens come back with each reply.

use crate::desk_tests::{Adds, schema_of};
use bind_core::{Alone, Core};
use bind_model::{Flow, Flowed, Refused, Reply};
use handle_table::Handle;
use mj_base::{Items, SeqId};
use remote_receiver::Desk;
use std::process::Abort;
use std::sync::Arc;
use std::test::Fail;

/// The producer and the consumer that were made.
fn made(rt: &impl Abort, outcome: Result<Reply, Refused>) -> (Handle, Handle) {
    let mut items = match outcome {
        Ok(Reply::Made(handles)) => handles.into_vec(),
        _other => panic!(rt; "no data pipe"),
    };
    if items.len() != 2 {
        panic!(rt; "not two tokens");
    }
    let producer = items.remove(0);
    let consumer = items.remove(0);
    items.destroy_empty();
    (producer, consumer)
}

/// The token where bytes were moved, and what was told.
fn flowed(rt: &impl Abort, outcome: Result<Reply, Refused>) -> (Handle, Flowed) {
    match outcome {
        Ok(Reply::Flowed(handle, flowed)) => (handle, flowed),
        _other => panic!(rt; "not moved"),
    }
}

#[test]
fn bytes_go_through_a_data_pipe(rt: HostRuntime) -> Result<(), Fail> {
    let alloc = rt.alloc();
    let bytes = Items::from_vec(Vec::from_slice(alloc, b"abcde")?);
    let schema = Arc::new(alloc, schema_of(alloc, 0)?)?;
    let mut core = Core::new(alloc, schema, 1);
    let stepper = Alone {
        core: &mut core,
        seq: SeqId(0),
    };
    let mut desk: Desk<Adds, Alone> = Desk::new(alloc, stepper);
    let (producer, consumer) = made(&rt, desk.data(alloc, 4));
    let (producer, told) = flowed(&rt, desk.flow(alloc, producer, Flow::Put(bytes, false)));
    assert!(rt; matches!(&told, Flowed::Put(4)));
    let (consumer, told) = flowed(&rt, desk.flow(alloc, consumer, Flow::BeginGet));
    assert!(rt; matches!(&told, Flowed::View(got) if got.as_slice() == b"abcd".as_slice()));
    let (_stepper, _notes) = desk.finish();
    let (_history, over) = core.end();
    producer.retire(&over);
    consumer.retire(&over);
    Ok(())
}
