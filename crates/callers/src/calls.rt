//! Calls with jobs, by a sequence that has both ends of a pipe: over a core of its own, or whatever else does commands.

ghost use Rattle.std.specs.Prelude.{◌≡◌, ◌<◌, true};
ghost use Rattle.std.specs.Arc.{arc_value};
ghost use Rattle.bind_model.specs.WireOf.{wire_of};
ghost use Rattle.wire_encoder.specs.Prepared.{IsPrepared};

use crate::held::{Held, Stopped};
use crate::messages::{bill, order, whole_in};
use crate::traded::{Traded, settle};
use anyhow::{Result, anyhow};
use bind_core::{Alone, Core};
use bind_model::{Command, PendingList, Reply, Stepper, ToClose};
use handle_table::Handles;
use mj_base::{EndId, SeqId};
use mj_schema::Schema;
use remote_receiver::{Answered, BoxedJob, Callback, Desk, Note};
use std::alloc::Global;
use std::mem;
use std::sync::Arc;
use wire_encoder::{EndpointSide, Prepared};

/// Binds one of the ends that are held as a side of an interface.
fn bind<P: Stepper>(
    desk: &mut Desk<BoxedJob, P>,
    alloc: Global,
    held: &mut Held,
    side: EndpointSide,
    interface: u32,
) -> Result<EndId, Stopped>
    requires seq { (P.me desk.old.stepper).0 < P.seqs desk.old.stepper }
    ensures same { (P.schema desk.new.stepper ≡ P.schema desk.old.stepper) × (P.seqs desk.new.stepper ≡ P.seqs desk.old.stepper)
        × (P.me desk.new.stepper ≡ P.me desk.old.stepper) }
    ensures home { P.home desk.new.stepper ≡ P.home desk.old.stepper }
{
    let Some(handle) = held.ends.pop() else {
        return Err(Stopped::Error(anyhow!("both ends are bound")));
    };
    match desk.step(alloc, Command::Bind(handle, side, interface))? {
        Reply::Bound(end) => Ok(end),
        other => Err(Stopped::Told(other)),
    }
}

/// The cents that a response says; 0 where it says none.
pub fn cents_of(got: &Answered) -> u64 {
    let cents = whole_in(got.value.value(), 0).unwrap_or(0);
    u64::try_from(cents).unwrap_or(0)
}

/// Calls with a job: the number of the request.
fn call<P: Stepper>(
    desk: &mut Desk<BoxedJob, P>,
    alloc: Global,
    from: EndId,
    request: Prepared,
    job: BoxedJob,
) -> Result<u64, Stopped>
    requires seq { (P.me desk.old.stepper).0 < P.seqs desk.old.stepper }
    requires prepared { IsPrepared (P.schema desk.old.stepper) request }
    requires responds { (wire_of (P.schema desk.old.stepper)).responds request.target.interface request.target.method ≡ true }
    ensures same { (P.schema desk.new.stepper ≡ P.schema desk.old.stepper) × (P.seqs desk.new.stepper ≡ P.seqs desk.old.stepper)
        × (P.me desk.new.stepper ≡ P.me desk.old.stepper) }
    ensures home { P.home desk.new.stepper ≡ P.home desk.old.stepper }
{
    let (handles, pendings) = (no_handles(alloc), PendingList::new(alloc));
    let sent = desk.call(alloc, from, 0, request, handles, pendings, Some(job), None)?;
    Ok(sent.request)
}

/// No handles.
pub fn no_handles(alloc: Global) -> Handles {
    Handles::from_vec(Vec::new(alloc))
}

/// Takes a message, and keeps what came with it. The job that waits for it runs.
fn take<P: Stepper>(
    desk: &mut Desk<BoxedJob, P>,
    alloc: Global,
    held: &mut Held,
    end: EndId,
) -> Result<(), Stopped>
    requires seq { (P.me desk.old.stepper).0 < P.seqs desk.old.stepper }
    ensures same { (P.schema desk.new.stepper ≡ P.schema desk.old.stepper) × (P.seqs desk.new.stepper ≡ P.seqs desk.old.stepper)
        × (P.me desk.new.stepper ≡ P.me desk.old.stepper) }
    ensures home { P.home desk.new.stepper ≡ P.home desk.old.stepper }
{
    match desk.take(alloc, end)? {
        Reply::Got(received) => Ok(held.got.push(received)?),
        other => Err(Stopped::Told(other)),
    }
}

/// Answers the order that was got last.
fn answer<P: Stepper>(
    desk: &mut Desk<BoxedJob, P>,
    alloc: Global,
    schema: &Schema,
    interface: u32,
    held: &mut Held,
) -> Result<(), Stopped>
    requires seq { (P.me desk.old.stepper).0 < P.seqs desk.old.stepper }
    requires schema { P.schema desk.old.stepper ≡ schema.now }
    ensures same { (P.schema desk.new.stepper ≡ P.schema desk.old.stepper) × (P.seqs desk.new.stepper ≡ P.seqs desk.old.stepper)
        × (P.me desk.new.stepper ≡ P.me desk.old.stepper) }
    ensures home { P.home desk.new.stepper ≡ P.home desk.old.stepper }
{
    let Some(got) = held.got.last_mut() else {
        return Err(Stopped::Error(anyhow!("nothing was got")));
    };
    let response = bill(alloc, schema, interface, got.parameters.value())?;
    let Some(responder) = mem::replace(&mut got.responder, None) else {
        return Err(Stopped::Error(anyhow!("it wants no answer")));
    };
    let (handles, pendings) = (no_handles(alloc), PendingList::new(alloc));
    match desk.reply(alloc, responder, response, handles, pendings, None)? {
        Reply::Sent(_, _) => Ok(()),
        other => Err(Stopped::Told(other)),
    }
}

/// Closes an end. The jobs that wait there are dropped.
fn close<P: Stepper>(desk: &mut Desk<BoxedJob, P>, alloc: Global, end: EndId) -> Result<(), Stopped>
    requires seq { (P.me desk.old.stepper).0 < P.seqs desk.old.stepper }
    ensures same { (P.schema desk.new.stepper ≡ P.schema desk.old.stepper) × (P.seqs desk.new.stepper ≡ P.seqs desk.old.stepper)
        × (P.me desk.new.stepper ≡ P.me desk.old.stepper) }
    ensures home { P.home desk.new.stepper ≡ P.home desk.old.stepper }
{
    match desk.step(alloc, Command::Close(ToClose::Endpoint(end, 0)))? {
        Reply::Closed(_) => Ok(()),
        other => Err(Stopped::Told(other)),
    }
}

/// Orders twice, with two jobs. The stall answers the first order, and then both ends are closed.
fn trade<P: Stepper>(
    desk: &mut Desk<BoxedJob, P>,
    alloc: Global,
    schema: &Schema,
    interface: u32,
    held: &mut Held,
    jobs: (BoxedJob, BoxedJob),
) -> Result<(), Stopped>
    requires seq { (P.me desk.old.stepper).0 < P.seqs desk.old.stepper }
    requires schema { P.schema desk.old.stepper ≡ schema.now }
    ensures { P.home desk.new.stepper ≡ P.home desk.old.stepper }
{
    let (first, second) = jobs;
    let client = bind(desk, alloc, held, EndpointSide::Remote, interface)?;
    let stall = bind(desk, alloc, held, EndpointSide::Receiver, interface)?;
    let tea = order(alloc, schema, interface, "tea", Some(3))?;
    call(desk, alloc, client, tea, first)?;
    let jam = order(alloc, schema, interface, "jam", None)?;
    call(desk, alloc, client, jam, second)?;
    take(desk, alloc, held, stall)?;
    answer(desk, alloc, schema, interface, held)?;
    take(desk, alloc, held, client)?;
    close(desk, alloc, client)?;
    close(desk, alloc, stall)
}

/// Makes a pipe: its ends are held.
fn pipe<P: Stepper>(desk: &mut Desk<BoxedJob, P>, alloc: Global) -> Result<Held, Stopped>
    requires seq { (P.me desk.old.stepper).0 < P.seqs desk.old.stepper }
    ensures same { (P.schema desk.new.stepper ≡ P.schema desk.old.stepper) × (P.seqs desk.new.stepper ≡ P.seqs desk.old.stepper)
        × (P.me desk.new.stepper ≡ P.me desk.old.stepper) }
    ensures home { P.home desk.new.stepper ≡ P.home desk.old.stepper }
{
    match desk.step(alloc, Command::Pipe)? {
        Reply::Made(ends) => Ok(Held::new(alloc, ends)),
        other => Err(Stopped::Told(other)),
    }
}

/// Makes a pipe and trades over it: what is held then, and how it ended.
fn attempt<P: Stepper>(
    desk: &mut Desk<BoxedJob, P>,
    alloc: Global,
    schema: &Schema,
    interface: u32,
    jobs: (BoxedJob, BoxedJob),
) -> (Held, Result<(), Stopped>)
    requires seq { (P.me desk.old.stepper).0 < P.seqs desk.old.stepper }
    requires schema { P.schema desk.old.stepper ≡ schema.now }
    ensures { P.home desk.new.stepper ≡ P.home desk.old.stepper }
{
    match pipe(desk, alloc) {
        Ok(held) => {
            let mut held = held;
            let outcome = trade(desk, alloc, schema, interface, &mut held, jobs);
            (held, outcome)
        }
        Err(stopped) => (Held::new(alloc, no_handles(alloc)), Err(stopped)),
    }
}

/// Trades at a desk over a stepper, which comes back at the core where it was.
pub fn deal<P: Stepper>(
    stepper: P,
    alloc: Global,
    schema: &Schema,
    interface: u32,
    jobs: (BoxedJob, BoxedJob),
) -> (P, Traded)
    requires seq { (P.me stepper).0 < P.seqs stepper }
    requires schema { P.schema stepper ≡ schema.now }
    ensures { P.home result.0 ≡ P.home stepper }
{
    let mut desk = Desk::new(alloc, stepper);
    let (held, outcome) = attempt(&mut desk, alloc, schema, interface, jobs);
    let (back, notes) = desk.finish();
    let traded = Traded {
        notes,
        held,
        outcome,
    };
    (back, traded)
}

/// Trades over a new core: a note for each job, and how many things aren't closed. A job that ran noted the
/// cents of its response.
pub fn buy(alloc: Global, schema: &Arc<Schema>, interface: u32) -> Result<(Vec<Note>, usize)> {
    let first: Callback = Box::new(alloc, |got: &Answered| cents_of(got))?;
    let second: Callback = Box::new(alloc, |got: &Answered| cents_of(got))?;
    let jobs = (BoxedJob { run: first }, BoxedJob { run: second });
    let mut core = Core::new(alloc, Arc::try_clone(schema)?, 1);
    let alone = Alone {
        core: &mut core,
        seq: SeqId(0),
    };
    let (_alone, traded) = deal(alone, alloc, schema, interface, jobs);
    settle(alloc, core, traded)
}
