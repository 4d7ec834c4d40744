//! A whole load.

ghost use Rattle.std.specs.Prelude.{◌≡◌, ◌≤◌, ◌+◌, [], Bool, true, false, IfOk, OnOk, length};
ghost use Rattle.std.specs.Arc.{arc_value};
ghost use Rattle.mj_base.specs.declared.limits.TheConstants.{MAX_EVENTS};
ghost use Rattle.mj_schema.specs.declared.schema.Schema.{Schema as schema_of};
ghost use Rattle.load_run.specs.Commands.{SEQUENCES};
ghost use Rattle.load_run.specs.Counts.{AreLoadCounts};
ghost use Rattle.load_run.specs.Messages.{targets_in};
ghost use Rattle.load_run.specs.steps.Doing.{AreThere, HasAll, HasBoth, IsAfter, Went};

use crate::counts::{Counts, counted};
use crate::ends::Ends;
use crate::messages::{Message, message_of, next_draw};
use crate::pairs::{Pair, Pairs};
use crate::seat::{BoxedCore, new_core};
use crate::sending::send;
use crate::start::start;
use crate::targets::{Targets, targets_in};
use mj_schema::Schema;
use remote_receiver::Rest;
use script_names::{NoMemory, Rooms};
use std::alloc::Global;
use std::sync::Arc;

/// The desks of a pair, which have no callbacks. Takes no memory.
fn new_pair(alloc: Global) -> Pair
    ensures { (schema : schema_of) (second : Bool) → HasBoth (record { schema = schema; seqs = SEQUENCES; events = [] }) second result }
{
    let caller = Rest::new(alloc);
    let taker = Rest::new(alloc);
    Pair { caller, taker }
}

/// The desks of both. Takes no memory.
fn new_pairs(alloc: Global) -> Pairs
    ensures { (schema : schema_of) → HasAll (record { schema = schema; seqs = SEQUENCES; events = [] }) result }
{
    let first = new_pair(alloc);
    let second = new_pair(alloc);
    Pairs { first, second }
}

/// Sends a message of the first pair.
fn send_first(
    core: BoxedCore,
    pairs: Pairs,
    rooms: &mut Rooms,
    alloc: Global,
    schema: &Schema,
    targets: Targets,
    message: Message,
) -> (BoxedCore, Pairs, Result<(), NoMemory>)
    requires seqs { core.seqs ≡ SEQUENCES }
    requires schema { core.schema ≡ schema.now }
    requires targets { targets ≡ targets_in schema.now }
    requires there { AreThere schema.now targets }
    requires rested { HasAll core pairs }
    requires few { length core.events + 4 ≤ MAX_EVENTS }
    requires whose { message.is_second ≡ false }
    ensures went { OnOk result.2 (Went schema.now message core result.0) }
    ensures rested { OnOk result.2 (HasAll result.0 result.1) }
{
    let Pairs { first, second } = pairs;
    let (core, first, done) = send(core, first, rooms, alloc, schema, targets, message);
    (core, Pairs { first, second }, done)
}

/// Sends a message of the second pair.
fn send_second(
    core: BoxedCore,
    pairs: Pairs,
    rooms: &mut Rooms,
    alloc: Global,
    schema: &Schema,
    targets: Targets,
    message: Message,
) -> (BoxedCore, Pairs, Result<(), NoMemory>)
    requires seqs { core.seqs ≡ SEQUENCES }
    requires schema { core.schema ≡ schema.now }
    requires targets { targets ≡ targets_in schema.now }
    requires there { AreThere schema.now targets }
    requires rested { HasAll core pairs }
    requires few { length core.events + 4 ≤ MAX_EVENTS }
    requires whose { message.is_second ≡ true }
    ensures went { OnOk result.2 (Went schema.now message core result.0) }
    ensures rested { OnOk result.2 (HasAll result.0 result.1) }
{
    let Pairs { first, second } = pairs;
    let (core, second, done) = send(core, second, rooms, alloc, schema, targets, message);
    (core, Pairs { first, second }, done)
}

/// Sends a message over its pair.
fn send_over(
    core: BoxedCore,
    pairs: Pairs,
    rooms: &mut Rooms,
    alloc: Global,
    schema: &Schema,
    targets: Targets,
    message: Message,
) -> (BoxedCore, Pairs, Result<(), NoMemory>)
    requires seqs { core.seqs ≡ SEQUENCES }
    requires schema { core.schema ≡ schema.now }
    requires targets { targets ≡ targets_in schema.now }
    requires there { AreThere schema.now targets }
    requires rested { HasAll core pairs }
    requires few { length core.events + 4 ≤ MAX_EVENTS }
    ensures went { OnOk result.2 (Went schema.now message core result.0) }
    ensures rested { OnOk result.2 (HasAll result.0 result.1) }
{
    if message.is_second {
        send_second(core, pairs, rooms, alloc, schema, targets, message)
    } else {
        send_first(core, pairs, rooms, alloc, schema, targets, message)
    }
}

/// Sends so many messages, by the numbers that are drawn behind the one that is given.
fn send_all(
    core: BoxedCore,
    pairs: Pairs,
    rooms: &mut Rooms,
    alloc: Global,
    schema: &Schema,
    targets: Targets,
    seed: u64,
    messages: u64,
) -> (BoxedCore, Pairs, Result<(), NoMemory>)
    requires targets { targets ≡ targets_in schema.now }
    requires there { AreThere schema.now targets }
    requires messages { messages ≤ 1000000 }
    requires started { IsAfter schema.now seed 0 core pairs }
    ensures { OnOk result.2 (IsAfter schema.now seed messages result.0 result.1) }
{
    let mut core = core;
    let mut pairs = pairs;
    let mut draw = seed;
    for number in 0..messages {
        let next = next_draw(draw);
        let message = message_of(number, next);
        let (back, rests, done) = send_over(core, pairs, rooms, alloc, schema, targets, message);
        core = back;
        pairs = rests;
        draw = next;
        if let Err(NoMemory) = done {
            return (core, pairs, Err(NoMemory));
        }
    }
    (core, pairs, Ok(()))
}

/// The messages, and the counts.
fn go_on(
    core: BoxedCore,
    pairs: Pairs,
    rooms: &mut Rooms,
    alloc: Global,
    schema: &Schema,
    targets: Targets,
    seed: u64,
    messages: u64,
) -> (BoxedCore, Result<Counts, NoMemory>)
    requires targets { targets ≡ targets_in schema.now }
    requires there { AreThere schema.now targets }
    requires messages { messages ≤ 1000000 }
    requires started { IsAfter schema.now seed 0 core pairs }
    ensures { IfOk result.1 (AreLoadCounts schema.now seed messages) }
{
    let (core, pairs, done) = send_all(core, pairs, rooms, alloc, schema, targets, seed, messages);
    match done {
        Ok(()) => {
            let (core, counts) = counted(core, pairs);
            (core, Ok(counts))
        }
        Err(NoMemory) => (core, Err(NoMemory)),
    }
}

/// The start, the messages, and the counts. The ends that aren't bound are left, where there was no memory.
fn run(
    core: BoxedCore,
    pairs: Pairs,
    rooms: &mut Rooms,
    alloc: Global,
    schema: &Schema,
    seed: u64,
    messages: u64,
) -> (BoxedCore, Ends, Result<Counts, NoMemory>)
    requires schema { core.schema ≡ schema.now }
    requires seqs { core.seqs ≡ SEQUENCES }
    requires none { core.events ≡ [] }
    requires rested { HasAll core pairs }
    requires messages { messages ≤ 1000000 }
    ensures { IfOk result.2 (AreLoadCounts core.schema seed messages) }
{
    let targets = targets_in(schema);
    let (core, pairs, ends, done) = start(core, pairs, rooms, alloc, schema, targets.interface);
    match done {
        Ok(()) => {
            let (core, counts) = go_on(core, pairs, rooms, alloc, schema, targets, seed, messages);
            (core, ends, counts)
        }
        Err(NoMemory) => (core, ends, Err(NoMemory)),
    }
}

/// Runs a load over the schema of its file: two pairs of sequences, each with a pipe; so many messages, by
/// numbers that are drawn behind this one; and for each the call, the take, and where it is answered the answer
/// and the take of that, on which the callback of the call runs. The numbers are those of the history that
/// the core keeps; it has fewer than 16,777,216 events. The error is want of memory. Takes time, and
/// memory, in proportion to the messages.
pub fn load(
    alloc: Global,
    schema: Arc<Schema>,
    seed: u64,
    messages: u64,
) -> Result<Counts, NoMemory>
    requires { messages ≤ 1000000 }
    ensures { IfOk result (AreLoadCounts (arc_value schema) seed messages) }
{
    let Ok(shared) = Arc::try_clone(&schema) else {
        return Err(NoMemory);
    };
    let Ok(core) = new_core(alloc, shared) else {
        return Err(NoMemory);
    };
    let mut rooms = Rooms::new(alloc);
    let pairs = new_pairs(alloc);
    let (core, ends, counts) = run(core, pairs, &mut rooms, alloc, &schema, seed, messages);
    let (_history, over) = core.into_core().end();
    rooms.retire(&over);
    ends.retire(&over);
    counts
}
