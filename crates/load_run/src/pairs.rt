//! The desks of the two pairs, at rest, and what a pair does together.

ghost use Rattle.std.specs.Prelude.{◌≡◌, ◌<◌, ◌+◌, IfOk, OnOk, length};
ghost use Rattle.mj_base.specs.declared.limits.TheConstants.{MAX_EVENTS};
ghost use Rattle.wire_encoder.specs.Prepared.{IsPrepared};
ghost use Rattle.wire_model.specs.Trees.{view};
ghost use Rattle.bind_model.specs.declared.asked.Asked.TheVariants as asks;
ghost use Rattle.bind_model.specs.declared.endpoint.ResponderId.{ResponderId as responder_id};
ghost use Rattle.script_names.specs.Settling.{EndsWith};
ghost use Rattle.load_run.specs.Commands.{SEQUENCES, alone, caller, end_of, taker};
ghost use Rattle.load_run.specs.steps.Doing.{Answered, AskedOne, HasBoth, IsLast, ToldOne};

use crate::asking;
use crate::seat::BoxedCore;
use bind_model::ResponderId;
use mj_base::SeqId;
use mj_schema::Schema;
use remote_receiver::Rest;
use script_names::{NoMemory, Rooms};
use script_run::Plain;
use std::alloc::Global;
use wire_encoder::Prepared;

/// The desks of a pair: of the sequence that calls, and of the one that takes and answers.
#[derive(Drop)]
pub(crate) struct Pair {
    pub caller: Rest<Plain>,
    pub taker: Rest<Plain>,
}

/// Those of both pairs.
#[derive(Drop)]
pub(crate) struct Pairs {
    pub first: Pair,
    pub second: Pair,
}

/// The sequence that calls in the first pair, or in the second.
pub fn caller(is_second: bool) -> SeqId
    ensures { result ≡ caller is_second }
{
    if is_second { SeqId(2) } else { SeqId(0) }
}

/// The one that takes and answers.
pub fn taker(is_second: bool) -> SeqId
    ensures { result ≡ taker is_second }
{
    if is_second { SeqId(3) } else { SeqId(1) }
}

/// The caller of a pair calls with a request that was prepared.
pub fn call(
    core: BoxedCore,
    pair: Pair,
    rooms: &mut Rooms,
    alloc: Global,
    schema: &Schema,
    is_second: bool,
    prepared: Prepared,
) -> (BoxedCore, Pair, Result<(), NoMemory>)
    requires seqs { core.seqs ≡ SEQUENCES }
    requires schema { core.schema ≡ schema.now }
    requires prepared { IsPrepared core.schema prepared }
    requires rested { HasBoth core is_second pair }
    requires few { length core.events < MAX_EVENTS }
    ensures one { OnOk result.2 (AskedOne (caller is_second)
        (asks.Call (end_of (caller is_second)) 0 (alone prepared.target (view prepared.value))) core result.0) }
    ensures rested { OnOk result.2 (HasBoth result.0 is_second result.1) }
{
    let Pair {
        caller: rest,
        taker,
    } = pair;
    let seq = caller(is_second);
    let (core, caller, done) = asking::call(core, rest, rooms, alloc, schema, seq, prepared);
    (core, Pair { caller, taker }, done)
}

/// The other one takes: the right to answer, by its name, which is then the last one held.
pub fn receive(
    core: BoxedCore,
    pair: Pair,
    rooms: &mut Rooms,
    alloc: Global,
    schema: &Schema,
    is_second: bool,
) -> (BoxedCore, Pair, Result<Option<ResponderId>, NoMemory>)
    requires seqs { core.seqs ≡ SEQUENCES }
    requires schema { core.schema ≡ schema.now }
    requires rested { HasBoth core is_second pair }
    requires few { length core.events < MAX_EVENTS }
    ensures took { IfOk result.2 (λ found. ToldOne (taker is_second) (asks.Take (end_of (taker is_second))) found core result.0) }
    ensures rested { OnOk result.2 (HasBoth result.0 is_second result.1) }
    ensures last { IfOk result.2 (IsLast rooms.new) }
{
    let Pair {
        caller,
        taker: rest,
    } = pair;
    let seq = taker(is_second);
    let (core, taker, found) = asking::take(core, rest, rooms, alloc, schema, seq);
    (core, Pair { caller, taker }, found)
}

/// It answers with the last right to answer that is held, and a response that was prepared.
fn answer(
    core: BoxedCore,
    pair: Pair,
    rooms: &mut Rooms,
    alloc: Global,
    schema: &Schema,
    is_second: bool,
    prepared: Prepared,
) -> (BoxedCore, Pair, Result<(), NoMemory>)
    requires seqs { core.seqs ≡ SEQUENCES }
    requires schema { core.schema ≡ schema.now }
    requires prepared { IsPrepared core.schema prepared }
    requires rested { HasBoth core is_second pair }
    requires few { length core.events < MAX_EVENTS }
    requires last { (r : responder_id) × EndsWith r rooms.old.responders.others.items }
    ensures one { OnOk result.2 ((r : responder_id) → EndsWith r rooms.old.responders.others.items
        → AskedOne (taker is_second) (asks.Answer r (alone prepared.target (view prepared.value))) core result.0) }
    ensures rested { OnOk result.2 (HasBoth result.0 is_second result.1) }
{
    let Pair {
        caller,
        taker: rest,
    } = pair;
    let seq = taker(is_second);
    let (core, taker, done) = asking::answer(core, rest, rooms, alloc, schema, seq, prepared);
    (core, Pair { caller, taker }, done)
}

/// The caller takes the response.
fn hear(
    core: BoxedCore,
    pair: Pair,
    rooms: &mut Rooms,
    alloc: Global,
    schema: &Schema,
    is_second: bool,
) -> (BoxedCore, Pair, Result<(), NoMemory>)
    requires seqs { core.seqs ≡ SEQUENCES }
    requires schema { core.schema ≡ schema.now }
    requires rested { HasBoth core is_second pair }
    requires few { length core.events < MAX_EVENTS }
    ensures one { OnOk result.2 (AskedOne (caller is_second) (asks.Take (end_of (caller is_second))) core result.0) }
    ensures rested { OnOk result.2 (HasBoth result.0 is_second result.1) }
{
    let Pair {
        caller: rest,
        taker,
    } = pair;
    let seq = caller(is_second);
    let (core, caller, found) = asking::take(core, rest, rooms, alloc, schema, seq);
    let pair = Pair { caller, taker };
    match found {
        Ok(_found) => (core, pair, Ok(())),
        Err(NoMemory) => (core, pair, Err(NoMemory)),
    }
}

/// It answers with the last right to answer that is held, and the caller takes the response.
pub fn reply(
    core: BoxedCore,
    pair: Pair,
    rooms: &mut Rooms,
    alloc: Global,
    schema: &Schema,
    is_second: bool,
    prepared: Prepared,
) -> (BoxedCore, Pair, Result<(), NoMemory>)
    requires seqs { core.seqs ≡ SEQUENCES }
    requires schema { core.schema ≡ schema.now }
    requires prepared { IsPrepared core.schema prepared }
    requires rested { HasBoth core is_second pair }
    requires few { length core.events + 1 < MAX_EVENTS }
    requires last { (r : responder_id) × EndsWith r rooms.old.responders.others.items }
    ensures both { OnOk result.2 ((r : responder_id) → EndsWith r rooms.old.responders.others.items
        → Answered is_second r (alone prepared.target (view prepared.value)) core result.0) }
    ensures rested { OnOk result.2 (HasBoth result.0 is_second result.1) }
{
    let (core, pair, done) = answer(core, pair, rooms, alloc, schema, is_second, prepared);
    match done {
        Ok(()) => hear(core, pair, rooms, alloc, schema, is_second),
        Err(NoMemory) => (core, pair, Err(NoMemory)),
    }
}
