//! Calls with jobs over a core: they run on the responses, or are dropped.

ghost use Rattle.std.specs.Prelude.{◌≡◌, ◌<◌, [], ◌∷◌, codes, Some, IfOk, IfSome, true};
ghost use Rattle.mj_schema.specs.Layout.{IsLaidOut};
ghost use Rattle.wire_encoder.specs.Prepared.{HasTarget, IsPrepared};
ghost use Rattle.bind_model.specs.Plain.{IsOf};
ghost use Rattle.bind_model.specs.WireOf.{wire_of};
ghost use Rattle.remote_receiver.specs.Calls.{IsOther};

use bind_core::{Alone, Core};
use bind_model::{Command, PendingList, Received, Reply, Stepper, ToClose, Why};
use handle_table::{Handles, Thing, TokenId, TokenSort};
use mj_base::{EndId, FullName, Items, SeqId, Text};
use mj_schema::{DefinitionRow, InterfaceRow, MethodRow, RowSort, Schema, StructRow, VersionRow};
use remote_receiver::{Answered, BoxedJob, CallRefused, Callback, Desk, Job, Note, Promise};
use response_map::Key;
use std::alloc::{AllocError, Global};
use std::process::Abort;
use std::sync::Arc;
use std::sync::atomic::{AtomicU64, Ordering};
use std::test::Fail;
use wire_encoder::{EndpointSide, Prepared, prepare};
use wire_model::{MessageSide, Target, Value};

/// Answers the number of its request and what it was made with.
#[derive(Drop)]
pub(crate) struct Adds {
    more: u32,
}

impl Promise for Adds {
    ghost promises = { λ job got note. Unit {0} };
}

impl<P: Stepper> Job<P> for Adds {
    fn run(self, got: &Answered, _stepper: &P) -> u64 {
        let Adds { more } = self;
        got.request.wrapping_mul(100).wrapping_add(u64::from(more))
    }
}

/// A struct without fields.
fn empty_struct(alloc: Global, name: &str) -> Result<StructRow, AllocError>
    ensures name { IfOk result (λ row. row.name ≡ name.now) }
    ensures empty { IfOk result (λ row. row.fields ≡ []) }
    ensures laid_out { IfOk result IsLaidOut }
{
    let version = VersionRow {
        version: 0,
        fields: 0,
        bytes: 8,
    };
    Ok(StructRow {
        name: FullName::own(Text::from_str(alloc, name)?),
        fields: Items::new(alloc),
        versions: Items::from_vec(vec![in alloc; version]?),
        stable: false,
    })
}

/// An interface of this version, of one method without parameters, with a response.
fn one_method(alloc: Global, version: u32) -> Result<InterfaceRow, AllocError>
    ensures name { IfOk result (λ row. row.name ≡ codes "t.P") }
    ensures methods { IfOk result (λ row. row.methods ≡ record { name = codes "Ask"; ordinal = 0; request = 0; response = Some 1 } ∷ []) }
{
    let ask = MethodRow {
        name: Text::from_str(alloc, "Ask")?,
        ordinal: 0,
        request: 0,
        response: Some(1),
    };
    Ok(InterfaceRow {
        name: FullName::own(Text::from_str(alloc, "t.P")?),
        methods: Items::from_vec(vec![in alloc; ask]?),
        version,
        stable: false,
    })
}

/// The row of the interface.
const INTERFACE: DefinitionRow = DefinitionRow {
    sort: RowSort::Interface,
    number: 0,
};

/// The row of the struct of its method's parameters.
const REQUEST: DefinitionRow = DefinitionRow {
    sort: RowSort::Struct,
    number: 0,
};

/// The row of the struct of the response.
const RESPONSE: DefinitionRow = DefinitionRow {
    sort: RowSort::Struct,
    number: 1,
};

/// The schema of `module t; interface P { Ask() => (); };`, of this version.
pub(crate) fn schema_of(alloc: Global, version: u32) -> Result<Schema, AllocError> {
    let ask = empty_struct(alloc, "t.P.Ask.request")?;
    let asked = empty_struct(alloc, "t.P.Ask.response")?;
    Ok(Schema {
        structs: Items::from_vec(vec![in alloc; ask, asked]?),
        unions: Items::new(alloc),
        enums: Items::new(alloc),
        interfaces: Items::from_vec(vec![in alloc; one_method(alloc, version)?]?),
        consts: Items::new(alloc),
        order: Items::from_vec(vec![in alloc; INTERFACE, REQUEST, RESPONSE]?),
    })
}

/// A message of the first interface's first method, which has a response.
#[tactic(auto, unfolding(bind_model::specs::WireOf::wire_of))]
fn target_of(schema: &Schema, side: MessageSide) -> Option<Target>
    ensures there { IfSome result (HasTarget schema.now) }
    ensures responds { IfSome result (λ target. (wire_of schema.now).responds target.interface target.method ≡ true) }
{
    let method = schema.method(0, 0)?;
    let response = method.response?;
    let _number = match side {
        MessageSide::Request => method.request,
        MessageSide::Response => response,
    };
    Some(Target {
        interface: 0,
        method: 0,
        side,
    })
}

/// Such a message, without parameters.
fn message(rt: &impl Abort, alloc: Global, schema: &Schema, side: MessageSide) -> Prepared
    ensures prepared { IsPrepared schema.now result }
    ensures responds { (wire_of schema.now).responds result.target.interface result.target.method ≡ true }
{
    let Some(target) = target_of(schema, side) else {
        panic!(rt; "no response")
    };
    match prepare(alloc, schema, target, Value::Struct(Vec::new(alloc))) {
        Ok(prepared) => prepared,
        Err(_error) => panic!(rt; "not prepared"),
    }
}

/// No handles.
fn no_handles(alloc: Global) -> Handles {
    Handles::from_vec(Vec::new(alloc))
}

/// Does a command that is neither a call nor a take.
fn done<C: Promise, P: Stepper>(
    rt: &impl Abort,
    desk: &mut Desk<C, P>,
    alloc: Global,
    command: Command,
) -> Reply
    requires seq { (P.me desk.old.stepper).0 < P.seqs desk.old.stepper }
    requires prepared { IsOf (P.schema desk.old.stepper) command }
    requires other { IsOther command }
    ensures same { (P.schema desk.new.stepper ≡ P.schema desk.old.stepper) × (P.seqs desk.new.stepper ≡ P.seqs desk.old.stepper)
        × (P.me desk.new.stepper ≡ P.me desk.old.stepper) }
{
    match desk.step(alloc, command) {
        Ok(reply) => reply,
        Err(_refused) => panic!(rt; "refused"),
    }
}

/// The ends of a new pipe, bound as the sides of interface 0.
pub(crate) fn bound<C: Promise, P: Stepper>(
    rt: &impl Abort,
    desk: &mut Desk<C, P>,
    alloc: Global,
) -> (EndId, EndId)
    requires seq { (P.me desk.old.stepper).0 < P.seqs desk.old.stepper }
    ensures same { (P.schema desk.new.stepper ≡ P.schema desk.old.stepper) × (P.seqs desk.new.stepper ≡ P.seqs desk.old.stepper)
        × (P.me desk.new.stepper ≡ P.me desk.old.stepper) }
{
    let mut items = match done(rt, desk, alloc, Command::Pipe) {
        Reply::Made(handles) => handles.into_vec(),
        _other => panic!(rt; "no pipe"),
    };
    if items.len() != 2 {
        panic!(rt; "not two ends");
    }
    let first = items.remove(0);
    let second = items.remove(0);
    items.destroy_empty();
    let from = match done(
        rt,
        desk,
        alloc,
        Command::Bind(first, EndpointSide::Remote, 0),
    ) {
        Reply::Bound(end) => end,
        _other => panic!(rt; "not bound"),
    };
    let to = match done(
        rt,
        desk,
        alloc,
        Command::Bind(second, EndpointSide::Receiver, 0),
    ) {
        Reply::Bound(end) => end,
        _other => panic!(rt; "not bound"),
    };
    (from, to)
}

/// Calls with a job: the number of the request.
fn called<C: Promise, P: Stepper>(
    rt: &impl Abort,
    desk: &mut Desk<C, P>,
    alloc: Global,
    from: EndId,
    call: Prepared,
    job: C,
) -> u64
    requires seq { (P.me desk.old.stepper).0 < P.seqs desk.old.stepper }
    requires prepared { IsPrepared (P.schema desk.old.stepper) call }
    requires responds { (wire_of (P.schema desk.old.stepper)).responds call.target.interface call.target.method ≡ true }
    ensures same { (P.schema desk.new.stepper ≡ P.schema desk.old.stepper) × (P.seqs desk.new.stepper ≡ P.seqs desk.old.stepper)
        × (P.me desk.new.stepper ≡ P.me desk.old.stepper) }
{
    match desk.call(
        alloc,
        from,
        0,
        call,
        no_handles(alloc),
        PendingList::new(alloc),
        Some(job),
        None,
    ) {
        Ok(sent) => sent.request,
        Err(_refused) => panic!(rt; "not sent"),
    }
}

/// The value and the handles of a call that carries no pending.
fn sent_with(rt: &impl Abort, command: Command) -> (Prepared, Handles) {
    match command {
        Command::Call(_, _, value, handles, pendings, _) => {
            let items = pendings.into_vec();
            if !items.is_empty() {
                panic!(rt; "pendings came out");
            }
            items.destroy_empty();
            (value, handles)
        }
        _other => panic!(rt; "not a call"),
    }
}

/// Calls with a job and a token that the method doesn't take: what comes back, of the value, the token and the job.
fn handed_back<C: Promise, P: Stepper>(
    rt: &impl Abort,
    desk: &mut Desk<C, P>,
    alloc: Global,
    from: EndId,
    call: Prepared,
    token: Handles,
    job: C,
) -> (Prepared, Handles, C)
    requires seq { (P.me desk.old.stepper).0 < P.seqs desk.old.stepper }
    requires prepared { IsPrepared (P.schema desk.old.stepper) call }
    requires responds { (wire_of (P.schema desk.old.stepper)).responds call.target.interface call.target.method ≡ true }
    ensures same { (P.schema desk.new.stepper ≡ P.schema desk.old.stepper) × (P.seqs desk.new.stepper ≡ P.seqs desk.old.stepper)
        × (P.me desk.new.stepper ≡ P.me desk.old.stepper) }
{
    match desk.call(
        alloc,
        from,
        0,
        call,
        token,
        PendingList::new(alloc),
        Some(job),
        None,
    ) {
        Err(CallRefused::No(Why::WrongTokens, command, job)) => match job {
            Some(job) => {
                let (value, handles) = sent_with(rt, command);
                (value, handles, job)
            }
            None => panic!(rt; "no job came back"),
        },
        _other => panic!(rt; "not refused so"),
    }
}

/// What a take got.
fn taken<C: Job<P>, P: Stepper>(
    rt: &impl Abort,
    desk: &mut Desk<C, P>,
    alloc: Global,
    end: EndId,
) -> Received
    requires seq { (P.me desk.old.stepper).0 < P.seqs desk.old.stepper }
    ensures same { (P.schema desk.new.stepper ≡ P.schema desk.old.stepper) × (P.seqs desk.new.stepper ≡ P.seqs desk.old.stepper)
        × (P.me desk.new.stepper ≡ P.me desk.old.stepper) }
{
    match desk.take(alloc, end) {
        Ok(Reply::Got(received)) => received,
        _other => panic!(rt; "nothing got"),
    }
}

/// Takes a request, and answers it.
fn answered<C: Job<P>, P: Stepper>(
    rt: &impl Abort,
    desk: &mut Desk<C, P>,
    alloc: Global,
    to: EndId,
    response: Prepared,
)
    requires seq { (P.me desk.old.stepper).0 < P.seqs desk.old.stepper }
    requires prepared { IsPrepared (P.schema desk.old.stepper) response }
    ensures same { (P.schema desk.new.stepper ≡ P.schema desk.old.stepper) × (P.seqs desk.new.stepper ≡ P.seqs desk.old.stepper)
        × (P.me desk.new.stepper ≡ P.me desk.old.stepper) }
{
    let Received {
        id: _,
        target: _,
        parameters: _,
        request: _,
        handles,
        pendings,
        responder,
        gone: _,
        moment: _,
    } = taken(rt, desk, alloc, to);
    let items = handles.into_vec();
    if !items.is_empty() {
        panic!(rt; "handles came out");
    }
    items.destroy_empty();
    let items = pendings.into_vec();
    if !items.is_empty() {
        panic!(rt; "pendings came out");
    }
    items.destroy_empty();
    let Some(responder) = responder else {
        panic!(rt; "no responder")
    };
    match desk.reply(
        alloc,
        responder,
        response,
        no_handles(alloc),
        PendingList::new(alloc),
        None,
    ) {
        Ok(Reply::Sent(_, _)) => {}
        _other => panic!(rt; "not answered"),
    }
}

/// Closes the endpoint 0 of an end.
fn closed<C: Promise, P: Stepper>(rt: &impl Abort, desk: &mut Desk<C, P>, alloc: Global, end: EndId)
    requires seq { (P.me desk.old.stepper).0 < P.seqs desk.old.stepper }
    ensures same { (P.schema desk.new.stepper ≡ P.schema desk.old.stepper) × (P.seqs desk.new.stepper ≡ P.seqs desk.old.stepper)
        × (P.me desk.new.stepper ≡ P.me desk.old.stepper) }
{
    match done(rt, desk, alloc, Command::Close(ToClose::Endpoint(end, 0))) {
        Reply::Closed(_) => {}
        _other => panic!(rt; "not closed"),
    }
}

/// What became of the job of a request from the endpoint 0 of an end.
fn note(end: EndId, request: u64, ran: bool, told: u64) -> Note {
    Note {
        key: Key {
            end,
            id: 0,
            request,
        },
        ran,
        note: told,
    }
}

/// A job that counts its runs.
fn counting(alloc: Global, runs: &Arc<AtomicU64>) -> Result<BoxedJob, Fail> {
    let runs = Arc::try_clone(runs)?;
    let run: Callback = Box::new(
        alloc,
        move |_got: &Answered| runs.fetch_add(1, Ordering::SeqCst),
    )?;
    Ok(BoxedJob { run })
}

#[test]
fn a_job_runs_on_its_response_though_its_desk_rests_between(rt: HostRuntime) -> Result<(), Fail> {
    let alloc = rt.alloc();
    let schema = Arc::new(alloc, schema_of(alloc, 0)?)?;
    let call = message(&rt, alloc, &schema, MessageSide::Request);
    let response = message(&rt, alloc, &schema, MessageSide::Response);
    let mut core = Core::new(alloc, schema, 1);
    let stepper = Alone {
        core: &mut core,
        seq: SeqId(0),
    };
    let mut desk: Desk<Adds, Alone> = Desk::new(alloc, stepper);
    let (from, to) = bound(&rt, &mut desk, alloc);
    called(&rt, &mut desk, alloc, from, call, Adds { more: 7 });
    answered(&rt, &mut desk, alloc, to, response);
    let (stepper, rest) = desk.rest();
    let mut desk = rest.wake(stepper);
    let got = taken(&rt, &mut desk, alloc, from);
    let (_stepper, notes) = desk.finish();
    let (_history, over) = core.end();
    got.retire(&over);
    let want = [note(from, 1, true, 107)];
    assert!(rt; notes.as_slice() == want.as_slice());
    Ok(())
}

#[test]
fn a_refused_call_hands_back_its_job_its_value_and_its_token(rt: HostRuntime) -> Result<(), Fail> {
    let alloc = rt.alloc();
    let schema = Arc::new(alloc, schema_of(alloc, 0)?)?;
    let first = message(&rt, alloc, &schema, MessageSide::Request);
    let second = message(&rt, alloc, &schema, MessageSide::Request);
    let mut core = Core::new(alloc, schema, 1);
    let stepper = Alone {
        core: &mut core,
        seq: SeqId(0),
    };
    let mut desk: Desk<Adds, Alone> = Desk::new(alloc, stepper);
    let (from, _to) = bound(&rt, &mut desk, alloc);
    let token = match done(&rt, &mut desk, alloc, Command::Mint(TokenSort::Platform)) {
        Reply::Made(handles) => handles,
        _other => panic!(&rt; "no token"),
    };
    let job = Adds { more: 7 };
    let (value, token, job) = handed_back(&rt, &mut desk, alloc, from, first, token, job);
    let more = job.more;
    // The job that came back goes with another call: no number was drawn for the refused one, and no job waits for it.
    called(&rt, &mut desk, alloc, from, second, job);
    let (_stepper, notes) = desk.finish();
    let (_history, over) = core.end();
    let is_token = match token.as_slice() {
        [handle] => handle.thing() == Thing::Token(TokenId { seq: 0, serial: 0 }),
        _ => false,
    };
    token.retire(&over);
    assert!(rt; is_token && more == 7);
    assert_eq!(rt;
        value.payload.as_slice(),
        [8u8, 0, 0, 0, 0, 0, 0, 0].as_slice()
    );
    let want = [note(from, 1, false, 0)];
    assert!(rt; notes.as_slice() == want.as_slice());
    Ok(())
}

#[test]
fn a_boxed_job_that_counts_its_runs_is_dropped_unrun_at_a_disconnect(
    rt: HostRuntime,
) -> Result<(), Fail> {
    let alloc = rt.alloc();
    let runs = Arc::new(alloc, AtomicU64::new(0))?;
    let runs_once = counting(alloc, &runs)?;
    let never_runs = counting(alloc, &runs)?;
    let schema = Arc::new(alloc, schema_of(alloc, 0)?)?;
    let first = message(&rt, alloc, &schema, MessageSide::Request);
    let second = message(&rt, alloc, &schema, MessageSide::Request);
    let response = message(&rt, alloc, &schema, MessageSide::Response);
    let mut core = Core::new(alloc, schema, 1);
    let stepper = Alone {
        core: &mut core,
        seq: SeqId(0),
    };
    let mut desk: Desk<BoxedJob, Alone> = Desk::new(alloc, stepper);
    let (from, to) = bound(&rt, &mut desk, alloc);
    called(&rt, &mut desk, alloc, from, first, runs_once);
    called(&rt, &mut desk, alloc, from, second, never_runs);
    answered(&rt, &mut desk, alloc, to, response);
    let got = taken(&rt, &mut desk, alloc, from);
    closed(&rt, &mut desk, alloc, to);
    match desk.take(alloc, from) {
        Ok(Reply::No(Why::PeerClosed, Command::Take(_))) => {}
        _other => panic!(&rt; "not peer-closed"),
    }
    let (_stepper, notes) = desk.finish();
    let (_history, over) = core.end();
    got.retire(&over);
    let want = [note(from, 1, true, 0), note(from, 2, false, 0)];
    assert_eq!(rt; runs.load(Ordering::SeqCst), 1);
    assert!(rt; notes.as_slice() == want.as_slice());
    Ok(())
}
