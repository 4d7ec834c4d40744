//! The start of a load: two pipes are made, and their four ends are bound.

ghost use Rattle.std.specs.Prelude.{◌≡◌, ◌<◌, ◌≤◌, ◌+◌, ◌++◌, ◌∷◌, [], OnOk, length, reverse};
ghost use Rattle.mj_base.specs.declared.limits.TheConstants.{MAX_EVENTS};
ghost use Rattle.handle_table.specs.declared.thing.Thing.TheVariants.{End};
ghost use Rattle.bind_model.specs.Replies.{serials};
ghost use Rattle.bind_model.specs.declared.asked.Asked.TheVariants as asks;
ghost use Rattle.wire_encoder.specs.declared.endpoint.EndpointSide.TheVariants as sides;
ghost use Rattle.load_run.specs.Commands.{SEQUENCES, caller, end_of, start, taker};
ghost use Rattle.load_run.specs.steps.Doing.{AskedAll, AskedOne, HasAll, HasBoth, HaveEnds, HaveTakers, Joined, binds, joins};

use crate::ends::{Ends, bind, join};
use crate::pairs::{Pair, Pairs, caller, taker};
use crate::seat::BoxedCore;
use handle_table::Handle;
use mj_schema::Schema;
use script_names::{NoMemory, Rooms};
use std::alloc::Global;
use wire_encoder::EndpointSide;

/// Makes the pipe of a pair: its ends. Neither of its sequences has made one before.
fn join_pair(
    core: BoxedCore,
    pair: Pair,
    rooms: &mut Rooms,
    alloc: Global,
    schema: &Schema,
    is_second: bool,
) -> (BoxedCore, Pair, Vec<Handle>, Result<(), NoMemory>)
    requires seqs { core.seqs ≡ SEQUENCES }
    requires schema { core.schema ≡ schema.now }
    requires rested { HasBoth core is_second pair }
    requires few { length core.events < MAX_EVENTS }
    requires first { serials (reverse core.events) (caller is_second).0 ≡ 0 }
    requires second { serials (reverse core.events) (taker is_second).0 ≡ 0 }
    ensures joined { OnOk result.3 (Joined (caller is_second) (taker is_second) core result.0 result.2.items) }
    ensures rested { OnOk result.3 (HasBoth result.0 is_second result.1) }
{
    let Pair {
        caller: rest,
        taker: other,
    } = pair;
    let seq = caller(is_second);
    let with = taker(is_second);
    let (core, rest, ends, done) = join(core, rest, rooms, alloc, schema, seq, with);
    let pair = Pair {
        caller: rest,
        taker: other,
    };
    (core, pair, ends, done)
}

/// Makes both pipes: their ends.
fn join_both(
    core: BoxedCore,
    pairs: Pairs,
    rooms: &mut Rooms,
    alloc: Global,
    schema: &Schema,
) -> (BoxedCore, Pairs, Ends, Result<(), NoMemory>)
    requires seqs { core.seqs ≡ SEQUENCES }
    requires schema { core.schema ≡ schema.now }
    requires rested { HasAll core pairs }
    requires none { core.events ≡ [] }
    ensures joined { OnOk result.3 (AskedAll joins core result.0) }
    ensures ends { OnOk result.3 (HaveEnds result.2) }
    ensures rested { OnOk result.3 (HasAll result.0 result.1) }
{
    let Pairs { first, second } = pairs;
    let (core, first, ends, done) = join_pair(core, first, rooms, alloc, schema, false);
    if let Err(NoMemory) = done {
        let second_ends = Vec::new(alloc);
        return (
            core,
            Pairs { first, second },
            Ends {
                first: ends,
                second: second_ends,
            },
            Err(NoMemory),
        );
    }
    let (last, second, others, done) = join_pair(core, second, rooms, alloc, schema, true);
    (
        last,
        Pairs { first, second },
        Ends {
            first: ends,
            second: others,
        },
        done,
    )
}

/// Binds the end of a pair's caller as a remote.
fn bind_caller(
    core: BoxedCore,
    pair: Pair,
    rooms: &mut Rooms,
    ends: &mut Vec<Handle>,
    alloc: Global,
    schema: &Schema,
    is_second: bool,
    interface: u32,
) -> (BoxedCore, Pair, Result<(), NoMemory>)
    requires seqs { core.seqs ≡ SEQUENCES }
    requires schema { core.schema ≡ schema.now }
    requires rested { HasBoth core is_second pair }
    requires few { length core.events < MAX_EVENTS }
    requires ends { ends.old.items ≡ End (end_of (caller is_second)) ∷ End (end_of (taker is_second)) ∷ [] }
    ensures one { OnOk result.2 (AskedOne (caller is_second) (asks.Bind (End (end_of (caller is_second))) sides.Remote interface) core result.0) }
    ensures ends { OnOk result.2 (ends.new.items ≡ End (end_of (taker is_second)) ∷ []) }
    ensures rested { OnOk result.2 (HasBoth result.0 is_second result.1) }
{
    let Pair {
        caller: rest,
        taker,
    } = pair;
    let seq = caller(is_second);
    let side = EndpointSide::Remote;
    let (core, caller, done) = bind(core, rest, rooms, ends, alloc, schema, seq, side, interface);
    (core, Pair { caller, taker }, done)
}

/// Binds the end of the other one as a receiver.
fn bind_taker(
    core: BoxedCore,
    pair: Pair,
    rooms: &mut Rooms,
    ends: &mut Vec<Handle>,
    alloc: Global,
    schema: &Schema,
    is_second: bool,
    interface: u32,
) -> (BoxedCore, Pair, Result<(), NoMemory>)
    requires seqs { core.seqs ≡ SEQUENCES }
    requires schema { core.schema ≡ schema.now }
    requires rested { HasBoth core is_second pair }
    requires few { length core.events < MAX_EVENTS }
    requires ends { ends.old.items ≡ End (end_of (taker is_second)) ∷ [] }
    ensures one { OnOk result.2 (AskedOne (taker is_second) (asks.Bind (End (end_of (taker is_second))) sides.Receiver interface) core result.0) }
    ensures rested { OnOk result.2 (HasBoth result.0 is_second result.1) }
{
    let Pair {
        caller,
        taker: rest,
    } = pair;
    let seq = taker(is_second);
    let side = EndpointSide::Receiver;
    let (core, taker, done) = bind(core, rest, rooms, ends, alloc, schema, seq, side, interface);
    (core, Pair { caller, taker }, done)
}

/// Binds the callers' ends, one after the other.
fn bind_callers(
    core: BoxedCore,
    pairs: Pairs,
    rooms: &mut Rooms,
    ends: &mut Ends,
    alloc: Global,
    schema: &Schema,
    interface: u32,
) -> (BoxedCore, Pairs, Result<(), NoMemory>)
    requires seqs { core.seqs ≡ SEQUENCES }
    requires schema { core.schema ≡ schema.now }
    requires rested { HasAll core pairs }
    requires few { length core.events + 2 ≤ MAX_EVENTS }
    requires ends { HaveEnds ends.old }
    ensures asked { OnOk result.2 (AskedAll (binds caller sides.Remote interface) core result.0) }
    ensures ends { OnOk result.2 (HaveTakers ends.new) }
    ensures rested { OnOk result.2 (HasAll result.0 result.1) }
{
    let Pairs { first, second } = pairs;
    let held = &mut ends.first;
    let (core, first, done) = bind_caller(
        core, first, rooms, held, alloc, schema, false, interface,
    );
    if let Err(NoMemory) = done {
        return (core, Pairs { first, second }, Err(NoMemory));
    }
    let held = &mut ends.second;
    let (last, second, done) = bind_caller(
        core, second, rooms, held, alloc, schema, true, interface,
    );
    (last, Pairs { first, second }, done)
}

/// Binds the others' ends, one after the other.
fn bind_takers(
    core: BoxedCore,
    pairs: Pairs,
    rooms: &mut Rooms,
    ends: &mut Ends,
    alloc: Global,
    schema: &Schema,
    interface: u32,
) -> (BoxedCore, Pairs, Result<(), NoMemory>)
    requires seqs { core.seqs ≡ SEQUENCES }
    requires schema { core.schema ≡ schema.now }
    requires rested { HasAll core pairs }
    requires few { length core.events + 2 ≤ MAX_EVENTS }
    requires ends { HaveTakers ends.old }
    ensures asked { OnOk result.2 (AskedAll (binds taker sides.Receiver interface) core result.0) }
    ensures rested { OnOk result.2 (HasAll result.0 result.1) }
{
    let Pairs { first, second } = pairs;
    let held = &mut ends.first;
    let (core, first, done) = bind_taker(core, first, rooms, held, alloc, schema, false, interface);
    if let Err(NoMemory) = done {
        return (core, Pairs { first, second }, Err(NoMemory));
    }
    let held = &mut ends.second;
    let (last, second, done) = bind_taker(
        core, second, rooms, held, alloc, schema, true, interface,
    );
    (last, Pairs { first, second }, done)
}

/// Binds all four ends.
fn bind_all(
    core: BoxedCore,
    pairs: Pairs,
    rooms: &mut Rooms,
    ends: &mut Ends,
    alloc: Global,
    schema: &Schema,
    interface: u32,
) -> (BoxedCore, Pairs, Result<(), NoMemory>)
    requires seqs { core.seqs ≡ SEQUENCES }
    requires schema { core.schema ≡ schema.now }
    requires rested { HasAll core pairs }
    requires few { length core.events + 4 ≤ MAX_EVENTS }
    requires ends { HaveEnds ends.old }
    ensures asked { OnOk result.2 (AskedAll (binds caller sides.Remote interface ++ binds taker sides.Receiver interface) core result.0) }
    ensures rested { OnOk result.2 (HasAll result.0 result.1) }
{
    let (core, pairs, done) = bind_callers(core, pairs, rooms, ends, alloc, schema, interface);
    match done {
        Ok(()) => bind_takers(core, pairs, rooms, ends, alloc, schema, interface),
        Err(NoMemory) => (core, pairs, Err(NoMemory)),
    }
}

/// Makes both pipes and binds their ends: the ends that aren't bound, where there was no memory.
pub fn start(
    core: BoxedCore,
    pairs: Pairs,
    rooms: &mut Rooms,
    alloc: Global,
    schema: &Schema,
    interface: u32,
) -> (BoxedCore, Pairs, Ends, Result<(), NoMemory>)
    requires seqs { core.seqs ≡ SEQUENCES }
    requires schema { core.schema ≡ schema.now }
    requires rested { HasAll core pairs }
    requires none { core.events ≡ [] }
    ensures asked { OnOk result.3 (AskedAll (start interface) core result.0) }
    ensures rested { OnOk result.3 (HasAll result.0 result.1) }
{
    let (core, pairs, ends, done) = join_both(core, pairs, rooms, alloc, schema);
    let mut ends = ends;
    match done {
        Ok(()) => {
            let (core, pairs, done) = bind_all(
                core, pairs, rooms, &mut ends, alloc, schema, interface,
            );
            (core, pairs, ends, done)
        }
        Err(NoMemory) => (core, pairs, ends, Err(NoMemory)),
    }
}
