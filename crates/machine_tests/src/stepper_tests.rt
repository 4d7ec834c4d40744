//! A core through a stepper: a command that is done, and one that is refused and comes back.

ghost use Rattle.std.specs.Prelude.{◌≡◌, ◌<◌};
ghost use Rattle.bind_model.specs.Plain.{IsOf};

use bind_core::{Alone, Core};
use bind_model::{Command, Reply, Stepper, Why};
use mj_base::{Items, SeqId};
use mj_schema::Schema;
use std::alloc::Global;
use std::process::Abort;
use std::sync::Arc;
use std::test::Fail;

/// A schema without definitions.
pub(crate) fn no_definitions(alloc: Global) -> Schema {
    Schema {
        structs: Items::new(alloc),
        unions: Items::new(alloc),
        enums: Items::new(alloc),
        interfaces: Items::new(alloc),
        consts: Items::new(alloc),
        order: Items::new(alloc),
    }
}

/// Does a command, for which there is memory and room.
fn step<S: Stepper>(rt: &impl Abort, stepper: &mut S, alloc: Global, command: Command) -> Reply
    requires seq { (S.me stepper.old).0 < S.seqs stepper.old }
    requires prepared { IsOf (S.schema stepper.old) command }
    ensures same { (S.seqs stepper.new ≡ S.seqs stepper.old) × (S.me stepper.new ≡ S.me stepper.old) }
{
    match stepper.step(alloc, command) {
        Ok(reply) => reply,
        Err(_refused) => panic!(rt; "no event"),
    }
}

#[test]
fn a_core_is_stepped(rt: HostRuntime) -> Result<(), Fail> {
    let alloc = rt.alloc();
    let schema = Arc::new(alloc, no_definitions(alloc))?;
    let mut core = Core::new(alloc, schema, 1);
    let mut stepper = Alone {
        core: &mut core,
        seq: SeqId(0),
    };
    assert!(rt; stepper.seq() == SeqId(0));
    match step(&rt, &mut stepper, alloc, Command::Join(SeqId(1))) {
        Reply::No(Why::NoName, Command::Join(SeqId(1))) => {}
        _other => panic!(rt; "joined with no sequence"),
    }
    let made = step(&rt, &mut stepper, alloc, Command::Pipe);
    assert!(rt; matches!(&made, Reply::Made(_)));
    let (history, over) = core.end();
    made.retire(&over);
    assert_eq!(rt; history.len(), 2);
    Ok(())
}
