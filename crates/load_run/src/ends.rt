//! The ends of the two pipes, from when they are made to when they are bound.

ghost use Rattle.std.specs.Prelude.{◌≡◌, ◌<◌, ◌∷◌, List, OnOk, length, reverse};
ghost use Rattle.mj_base.specs.declared.limits.TheConstants.{MAX_EVENTS};
ghost use Rattle.handle_table.specs.declared.thing.Thing.{Thing as thing_of};
ghost use Rattle.handle_table.specs.declared.thing.Thing.TheVariants.{End};
ghost use Rattle.bind_model.specs.Plain.{told_of};
ghost use Rattle.bind_model.specs.Replies.{serials};
ghost use Rattle.bind_model.specs.declared.asked.Asked.TheVariants as asks;
ghost use Rattle.bind_model.specs.declared.told.Told.TheVariants as tells;
ghost use Rattle.script_names.specs.Rooms.{HasPlaces, HasRoomBehind};
ghost use Rattle.script_run.specs.Draining.{HasRested};
ghost use Rattle.load_run.specs.Commands.{end_of};
ghost use Rattle.load_run.specs.steps.Doing.{AskedOne, Joined};

use crate::asking::{ask, keep_reply, tell};
use crate::seat::BoxedCore;
use bind_model::{Command, Reply};
use handle_table::{Ended, Handle, Handles};
use mj_base::{EndId, SeqId};
use mj_schema::Schema;
use remote_receiver::Rest;
use script_names::{NoMemory, Rooms};
use script_run::Plain;
use std::alloc::Global;
use wire_encoder::EndpointSide;

/// The end of its pair's pipe that a sequence has.
pub fn end_of(seq: SeqId) -> EndId
    ensures { result ≡ end_of seq }
{
    EndId {
        seq: seq.0,
        serial: 0,
    }
}

/// The ends of both pipes that aren't bound yet.
pub(crate) struct Ends {
    pub first: Vec<Handle>,
    pub second: Vec<Handle>,
}

impl Ends {
    /// Lets them go, once all is over.
    pub fn retire(self, over: &Ended) {
        let Ends { first, second } = self;
        Handles::from_vec(first).retire(over);
        Handles::from_vec(second).retire(over);
    }
}

/// The ends that come with the reply to a join.
fn ends_made(rooms: &mut Rooms, alloc: Global, reply: Reply) -> (Vec<Handle>, Result<(), NoMemory>)
    requires places { HasPlaces 2 rooms.old }
    requires room { HasRoomBehind reply rooms.old }
    ensures { (things : List thing_of) → told_of reply ≡ tells.Made things → OnOk result.1 (result.0.items ≡ things) }
{
    match reply {
        Reply::Made(handles) => (handles.into_vec(), Ok(())),
        // A join of sequences that are there is told nothing else.
        other => {
            keep_reply(rooms, alloc, other);
            (Vec::new(alloc), Err(NoMemory))
        }
    }
}

/// Makes a pipe, whose second end is for another sequence: its ends. Neither sequence has made one before.
pub fn join(
    core: BoxedCore,
    rest: Rest<Plain>,
    rooms: &mut Rooms,
    alloc: Global,
    schema: &Schema,
    seq: SeqId,
    other: SeqId,
) -> (BoxedCore, Rest<Plain>, Vec<Handle>, Result<(), NoMemory>)
    requires seq { seq.0 < core.seqs }
    requires schema { core.schema ≡ schema.now }
    requires rested { HasRested core seq rest }
    requires few { length core.events < MAX_EVENTS }
    requires there { other.0 < core.seqs }
    requires apart { seq.0 < other.0 }
    requires first { serials (reverse core.events) seq.0 ≡ 0 }
    requires second { serials (reverse core.events) other.0 ≡ 0 }
    ensures joined { OnOk result.3 (Joined seq other core result.0 result.2.items) }
    ensures rested { OnOk result.3 (HasRested result.0 seq result.1) }
{
    if rooms.make_place().is_err() {
        return (core, rest, Vec::new(alloc), Err(NoMemory));
    }
    let command = Command::Join(other);
    let (core, rest, told) = ask(core, rest, rooms, alloc, schema, seq, command);
    match told {
        Ok(reply) => {
            let (ends, done) = ends_made(rooms, alloc, reply);
            (core, rest, ends, done)
        }
        Err(NoMemory) => (core, rest, Vec::new(alloc), Err(NoMemory)),
    }
}

/// Binds the first of some ends, which is the sequence's, as a side of an interface.
pub fn bind(
    core: BoxedCore,
    rest: Rest<Plain>,
    rooms: &mut Rooms,
    ends: &mut Vec<Handle>,
    alloc: Global,
    schema: &Schema,
    seq: SeqId,
    side: EndpointSide,
    interface: u32,
) -> (BoxedCore, Rest<Plain>, Result<(), NoMemory>)
    requires seq { seq.0 < core.seqs }
    requires schema { core.schema ≡ schema.now }
    requires rested { HasRested core seq rest }
    requires few { length core.events < MAX_EVENTS }
    requires ends { (more : List thing_of) × (ends.old.items ≡ End (end_of seq) ∷ more) }
    ensures one { OnOk result.2 (AskedOne seq (asks.Bind (End (end_of seq)) side interface) core result.0) }
    ensures rested { OnOk result.2 (HasRested result.0 seq result.1) }
    ensures more { OnOk result.2 ((more : List thing_of) → ends.old.items ≡ End (end_of seq) ∷ more → ends.new.items ≡ more) }
{
    if rooms.make_place().is_err() {
        return (core, rest, Err(NoMemory));
    }
    let command = Command::Bind(ends.remove(0), side, interface);
    let (core, rest, told) = tell(core, rest, rooms, alloc, schema, seq, command);
    match told {
        Ok(_found) => (core, rest, Ok(())),
        Err(NoMemory) => (core, rest, Err(NoMemory)),
    }
}
