//! The desk itself.

ghost use Rattle.std.specs.Prelude.{◌≡◌, ◌<◌, [], None, is_some, IfOk, IfErr, OnErr};
ghost use Rattle.std.specs.FinMap as map;
ghost use Rattle.bind_model.specs.WireOf.{wire_of};
ghost use Rattle.bind_model.specs.Plain.{IsOf};
ghost use Rattle.bind_model.specs.Seen.{Saw, Waited};
ghost use Rattle.bind_model.specs.declared.asked.Notice.TheVariants.{Query, Require, Flush};
ghost use Rattle.bind_model.specs.declared.commands.Command.TheVariants.{Answer, Call, Data, Flow as a_flow, Notify, Pause, Take};
ghost use Rattle.bind_model.specs.declared.commands.Reply.TheVariants as replies;
ghost use Rattle.wire_encoder.specs.Prepared.{IsPrepared};
ghost use Rattle.remote_receiver.specs.Calls.{IsOther, NotSent};
ghost use Rattle.remote_receiver.specs.Held.{kept_of};
ghost use Rattle.remote_receiver.specs.Notes.{AreNotes, Follows, HasKept};
ghost use Rattle.remote_receiver.specs.Stepped.{step_of};
ghost use Rattle.remote_receiver.specs.Waits.{AreDrawn};

use crate::call::{CallRefused, Sent};
use crate::job::{Job, Promise};
use crate::jobs::Jobs;
use crate::note::Note;
use crate::rest::Rest;
use crate::told::{ended_by, tell_closed, tell_taken};
use bind_model::{Command, Flow, Notice, PendingList, Refused, Reply, Responder, Stepper};
use handle_table::{Handle, Handles};
use mj_base::EndId;
use response_map::Key;
use std::alloc::Global;
use wire_encoder::Prepared;

/// Does the commands of a sequence, and runs the job that came with a call on the response to it. A job
/// is dropped, and doesn't run, where a reply shows that its endpoint is over.
pub struct Desk<C, P: Stepper> {
    pub(crate) stepper: P,
    pub(crate) jobs: Jobs<C>,
    ghost drawn: { AreDrawn (P.seen stepper) jobs.waiting.callbacks },
}

// No job can be run here.
impl<C: Drop, P: Stepper> Desk<C, P> {
    /// Its stepper.
    pub fn stepper(&self) -> &P
        ensures { result.now ≡ self.now.stepper }
    {
        &self.stepper
    }

    /// Does a command, and tells the jobs nothing of it.
    fn advance(&mut self, alloc: Global, command: Command) -> Result<Reply, Refused>
        requires seq { (P.me self.old.stepper).0 < P.seqs self.old.stepper }
        requires prepared { IsOf (P.schema self.old.stepper) command }
        ensures same { (P.schema self.new.stepper ≡ P.schema self.old.stepper) × (P.seqs self.new.stepper ≡ P.seqs self.old.stepper)
            × (P.alone self.new.stepper ≡ P.alone self.old.stepper) × (P.me self.new.stepper ≡ P.me self.old.stepper) }
        ensures home { P.home self.new.stepper ≡ P.home self.old.stepper }
        ensures event { IfOk result (λ reply. Saw (P.schema self.old.stepper) (P.seqs self.old.stepper) (P.alone self.old.stepper)
            (P.me self.old.stepper) (P.seen self.old.stepper) (P.seen self.new.stepper) command reply) }
        ensures refused { IfErr result (λ refused. Waited (P.schema self.old.stepper) (P.seqs self.old.stepper) (P.alone self.old.stepper)
            (P.me self.old.stepper) (P.seen self.old.stepper) (P.seen self.new.stepper) command refused) }
        ensures jobs { self.new.jobs ≡ self.old.jobs }
    {
        self.stepper.step(alloc, command)
    }

    /// Puts it to rest: its stepper, and its jobs and notes. Takes no memory.
    pub fn rest(self) -> (P, Rest<C>)
        ensures stepper { result.0 ≡ self.stepper }
        ensures kept { kept_of result.1.jobs ≡ kept_of self.jobs }
        ensures drawn { AreDrawn (P.seen result.0) result.1.jobs.waiting.callbacks }
    {
        let Desk { stepper, jobs } = self;
        (stepper, Rest { jobs })
    }

    /// Ends it: its stepper, and the note of each job. The jobs that still wait are dropped, and don't run.
    /// Takes no memory.
    pub fn finish(self) -> (P, Vec<Note>)
        ensures stepper { result.0 ≡ self.stepper }
        ensures notes { result.1.items ≡ (kept_of self.jobs).notes }
    {
        let Desk { stepper, jobs } = self;
        let Jobs { waiting, notes } = jobs;
        drop(waiting);
        (stepper, notes)
    }
}

// Nor here, where clauses speak of what it promises.
impl<C: Promise, P: Stepper> Desk<C, P> {
    /// A desk without jobs. Takes no memory.
    pub fn new(alloc: Global, stepper: P) -> Desk<C, P>
        ensures stepper { result.stepper ≡ stepper }
        ensures kept { HasKept C.promises [] (kept_of result.jobs) }
    {
        Desk {
            stepper,
            jobs: Jobs::new(alloc),
        }
    }

    /// Calls from the endpoint of this id at an end, with a job exactly where the method has a response.
    /// The moment is carried, and has no other effect. Where the call isn't sent, the command and the job
    /// come back.
    pub fn call(
        &mut self,
        alloc: Global,
        end: EndId,
        id: u32,
        prepared: Prepared,
        handles: Handles,
        pendings: PendingList,
        job: Option<C>,
        moment: Option<i64>,
    ) -> Result<Sent, CallRefused<C>>
        requires seq { (P.me self.old.stepper).0 < P.seqs self.old.stepper }
        requires prepared { IsPrepared (P.schema self.old.stepper) prepared }
        requires job { is_some job ≡ (wire_of (P.schema self.old.stepper)).responds prepared.target.interface prepared.target.method }
        ensures same { (P.schema self.new.stepper ≡ P.schema self.old.stepper) × (P.seqs self.new.stepper ≡ P.seqs self.old.stepper)
            × (P.alone self.new.stepper ≡ P.alone self.old.stepper) × (P.me self.new.stepper ≡ P.me self.old.stepper) }
        ensures home { P.home self.new.stepper ≡ P.home self.old.stepper }
        ensures event { IfOk result (λ sent. Saw (P.schema self.old.stepper) (P.seqs self.old.stepper) (P.alone self.old.stepper)
            (P.me self.old.stepper) (P.seen self.old.stepper) (P.seen self.new.stepper)
            (Call end id prepared handles pendings moment) (replies.Sent sent.request sent.bytes)) }
        ensures kept { IfOk result (λ sent. Follows C.promises (kept_of self.old.jobs)
            (step_of (Call end id prepared handles pendings moment) (replies.Sent sent.request sent.bytes) job) (kept_of self.new.jobs)) }
        ensures refused { IfErr result (λ refused. NotSent (P.schema self.old.stepper) (P.seqs self.old.stepper) (P.alone self.old.stepper)
            (P.me self.old.stepper) (P.seen self.old.stepper) (P.seen self.new.stepper) (Call end id prepared handles pendings moment) job refused) }
        ensures unsent { OnErr result (kept_of self.new.jobs ≡ kept_of self.old.jobs) }
    {
        let command = Command::Call(end, id, prepared, handles, pendings, moment);
        if self.jobs.reserve().is_err() {
            return Err(CallRefused::Memory(command, job));
        }
        match self.advance(alloc, command) {
            Ok(reply) => match reply {
                Reply::Sent(request, bytes) => {
                    self.jobs.keep(Key { end, id, request }, job);
                    Ok(Sent { request, bytes })
                }
                Reply::No(why, command) => Err(CallRefused::No(why, command, job)),
                // A call is told nothing else.
                _other => unreachable!(),
            },
            Err(Refused::Memory(command)) => Err(CallRefused::Memory(command, job)),
            Err(Refused::Spent(command)) => Err(CallRefused::Spent(command, job)),
        }
    }

    /// Does a command that is neither a call nor a take.
    pub fn step(&mut self, alloc: Global, command: Command) -> Result<Reply, Refused>
        requires seq { (P.me self.old.stepper).0 < P.seqs self.old.stepper }
        requires prepared { IsOf (P.schema self.old.stepper) command }
        requires other { IsOther command }
        ensures same { (P.schema self.new.stepper ≡ P.schema self.old.stepper) × (P.seqs self.new.stepper ≡ P.seqs self.old.stepper)
            × (P.alone self.new.stepper ≡ P.alone self.old.stepper) × (P.me self.new.stepper ≡ P.me self.old.stepper) }
        ensures home { P.home self.new.stepper ≡ P.home self.old.stepper }
        ensures event { IfOk result (λ reply. Saw (P.schema self.old.stepper) (P.seqs self.old.stepper) (P.alone self.old.stepper)
            (P.me self.old.stepper) (P.seen self.old.stepper) (P.seen self.new.stepper) command reply) }
        ensures kept { IfOk result (λ reply. Follows C.promises (kept_of self.old.jobs) (step_of command reply None) (kept_of self.new.jobs)) }
        ensures refused { IfErr result (λ refused. Waited (P.schema self.old.stepper) (P.seqs self.old.stepper) (P.alone self.old.stepper)
            (P.me self.old.stepper) (P.seen self.old.stepper) (P.seen self.new.stepper) command refused) }
        ensures unmoved { OnErr result (kept_of self.new.jobs ≡ kept_of self.old.jobs) }
    {
        let ends = ended_by(&command);
        let reply = self.advance(alloc, command)?;
        tell_closed(&mut self.jobs, ends, &reply);
        Ok(reply)
    }

    /// Answers a request. The moment is carried, and has no other effect.
    pub fn reply(
        &mut self,
        alloc: Global,
        responder: Responder,
        prepared: Prepared,
        handles: Handles,
        pendings: PendingList,
        moment: Option<i64>,
    ) -> Result<Reply, Refused>
        requires seq { (P.me self.old.stepper).0 < P.seqs self.old.stepper }
        requires prepared { IsPrepared (P.schema self.old.stepper) prepared }
        ensures same { (P.schema self.new.stepper ≡ P.schema self.old.stepper) × (P.seqs self.new.stepper ≡ P.seqs self.old.stepper)
            × (P.alone self.new.stepper ≡ P.alone self.old.stepper) × (P.me self.new.stepper ≡ P.me self.old.stepper) }
        ensures home { P.home self.new.stepper ≡ P.home self.old.stepper }
        ensures event { IfOk result (λ reply. Saw (P.schema self.old.stepper) (P.seqs self.old.stepper) (P.alone self.old.stepper)
            (P.me self.old.stepper) (P.seen self.old.stepper) (P.seen self.new.stepper) (Answer responder prepared handles pendings moment) reply) }
        ensures kept { IfOk result (λ reply. Follows C.promises (kept_of self.old.jobs)
            (step_of (Answer responder prepared handles pendings moment) reply None) (kept_of self.new.jobs)) }
        ensures refused { IfErr result (λ refused. Waited (P.schema self.old.stepper) (P.seqs self.old.stepper) (P.alone self.old.stepper)
            (P.me self.old.stepper) (P.seen self.old.stepper) (P.seen self.new.stepper) (Answer responder prepared handles pendings moment) refused) }
        ensures unmoved { OnErr result (kept_of self.new.jobs ≡ kept_of self.old.jobs) }
    {
        self.step(
            alloc,
            Command::Answer(responder, prepared, handles, pendings, moment),
        )
    }

    /// Asks for the version of the receiver that the endpoint of this id at an end speaks to. A later take is
    /// told it.
    pub fn query(&mut self, alloc: Global, end: EndId, id: u32) -> Result<Reply, Refused>
        requires { (P.me self.old.stepper).0 < P.seqs self.old.stepper }
        ensures same { (P.schema self.new.stepper ≡ P.schema self.old.stepper) × (P.seqs self.new.stepper ≡ P.seqs self.old.stepper)
            × (P.alone self.new.stepper ≡ P.alone self.old.stepper) × (P.me self.new.stepper ≡ P.me self.old.stepper) }
        ensures home { P.home self.new.stepper ≡ P.home self.old.stepper }
        ensures event { IfOk result (λ reply. Saw (P.schema self.old.stepper) (P.seqs self.old.stepper) (P.alone self.old.stepper)
            (P.me self.old.stepper) (P.seen self.old.stepper) (P.seen self.new.stepper) (Notify end (Query id)) reply) }
        ensures kept { IfOk result (λ reply. Follows C.promises (kept_of self.old.jobs) (step_of (Notify end (Query id)) reply None) (kept_of self.new.jobs)) }
        ensures refused { IfErr result (λ refused. Waited (P.schema self.old.stepper) (P.seqs self.old.stepper) (P.alone self.old.stepper)
            (P.me self.old.stepper) (P.seen self.old.stepper) (P.seen self.new.stepper) (Notify end (Query id)) refused) }
        ensures unmoved { OnErr result (kept_of self.new.jobs ≡ kept_of self.old.jobs) }
    {
        self.step(alloc, Command::Notify(end, Notice::Query(id)))
    }

    /// Requires this version of the receiver that the endpoint of this id at an end speaks to: where its
    /// interface has an older one, its end is closed as it takes this.
    pub fn require(
        &mut self,
        alloc: Global,
        end: EndId,
        id: u32,
        version: u32,
    ) -> Result<Reply, Refused>
        requires { (P.me self.old.stepper).0 < P.seqs self.old.stepper }
        ensures same { (P.schema self.new.stepper ≡ P.schema self.old.stepper) × (P.seqs self.new.stepper ≡ P.seqs self.old.stepper)
            × (P.alone self.new.stepper ≡ P.alone self.old.stepper) × (P.me self.new.stepper ≡ P.me self.old.stepper) }
        ensures home { P.home self.new.stepper ≡ P.home self.old.stepper }
        ensures event { IfOk result (λ reply. Saw (P.schema self.old.stepper) (P.seqs self.old.stepper) (P.alone self.old.stepper)
            (P.me self.old.stepper) (P.seen self.old.stepper) (P.seen self.new.stepper) (Notify end (Require id version)) reply) }
        ensures kept { IfOk result (λ reply. Follows C.promises (kept_of self.old.jobs)
            (step_of (Notify end (Require id version)) reply None) (kept_of self.new.jobs)) }
        ensures refused { IfErr result (λ refused. Waited (P.schema self.old.stepper) (P.seqs self.old.stepper) (P.alone self.old.stepper)
            (P.me self.old.stepper) (P.seen self.old.stepper) (P.seen self.new.stepper) (Notify end (Require id version)) refused) }
        ensures unmoved { OnErr result (kept_of self.new.jobs ≡ kept_of self.old.jobs) }
    {
        self.step(alloc, Command::Notify(end, Notice::Require(id, version)))
    }

    /// Writes a flush from an end, behind all that was written from it before. The reply has its number.
    pub fn flush(&mut self, alloc: Global, end: EndId) -> Result<Reply, Refused>
        requires { (P.me self.old.stepper).0 < P.seqs self.old.stepper }
        ensures same { (P.schema self.new.stepper ≡ P.schema self.old.stepper) × (P.seqs self.new.stepper ≡ P.seqs self.old.stepper)
            × (P.alone self.new.stepper ≡ P.alone self.old.stepper) × (P.me self.new.stepper ≡ P.me self.old.stepper) }
        ensures home { P.home self.new.stepper ≡ P.home self.old.stepper }
        ensures event { IfOk result (λ reply. Saw (P.schema self.old.stepper) (P.seqs self.old.stepper) (P.alone self.old.stepper)
            (P.me self.old.stepper) (P.seen self.old.stepper) (P.seen self.new.stepper) (Notify end Flush) reply) }
        ensures kept { IfOk result (λ reply. Follows C.promises (kept_of self.old.jobs) (step_of (Notify end Flush) reply None) (kept_of self.new.jobs)) }
        ensures refused { IfErr result (λ refused. Waited (P.schema self.old.stepper) (P.seqs self.old.stepper) (P.alone self.old.stepper)
            (P.me self.old.stepper) (P.seen self.old.stepper) (P.seen self.new.stepper) (Notify end Flush) refused) }
        ensures unmoved { OnErr result (kept_of self.new.jobs ≡ kept_of self.old.jobs) }
    {
        self.step(alloc, Command::Notify(end, Notice::Flush))
    }

    /// Has an end take nothing until another has consumed the flush of this number, or is closed.
    pub fn pause(
        &mut self,
        alloc: Global,
        end: EndId,
        other: EndId,
        flush: u32,
    ) -> Result<Reply, Refused>
        requires { (P.me self.old.stepper).0 < P.seqs self.old.stepper }
        ensures same { (P.schema self.new.stepper ≡ P.schema self.old.stepper) × (P.seqs self.new.stepper ≡ P.seqs self.old.stepper)
            × (P.alone self.new.stepper ≡ P.alone self.old.stepper) × (P.me self.new.stepper ≡ P.me self.old.stepper) }
        ensures home { P.home self.new.stepper ≡ P.home self.old.stepper }
        ensures event { IfOk result (λ reply. Saw (P.schema self.old.stepper) (P.seqs self.old.stepper) (P.alone self.old.stepper)
            (P.me self.old.stepper) (P.seen self.old.stepper) (P.seen self.new.stepper) (Pause end other flush) reply) }
        ensures kept { IfOk result (λ reply. Follows C.promises (kept_of self.old.jobs) (step_of (Pause end other flush) reply None) (kept_of self.new.jobs)) }
        ensures refused { IfErr result (λ refused. Waited (P.schema self.old.stepper) (P.seqs self.old.stepper) (P.alone self.old.stepper)
            (P.me self.old.stepper) (P.seen self.old.stepper) (P.seen self.new.stepper) (Pause end other flush) refused) }
        ensures unmoved { OnErr result (kept_of self.new.jobs ≡ kept_of self.old.jobs) }
    {
        self.step(alloc, Command::Pause(end, other, flush))
    }

    /// Makes a data pipe, which holds so many bytes at most.
    pub fn data(&mut self, alloc: Global, size: u32) -> Result<Reply, Refused>
        requires { (P.me self.old.stepper).0 < P.seqs self.old.stepper }
        ensures same { (P.schema self.new.stepper ≡ P.schema self.old.stepper) × (P.seqs self.new.stepper ≡ P.seqs self.old.stepper)
            × (P.alone self.new.stepper ≡ P.alone self.old.stepper) × (P.me self.new.stepper ≡ P.me self.old.stepper) }
        ensures home { P.home self.new.stepper ≡ P.home self.old.stepper }
        ensures event { IfOk result (λ reply. Saw (P.schema self.old.stepper) (P.seqs self.old.stepper) (P.alone self.old.stepper)
            (P.me self.old.stepper) (P.seen self.old.stepper) (P.seen self.new.stepper) (Data size) reply) }
        ensures kept { IfOk result (λ reply. Follows C.promises (kept_of self.old.jobs) (step_of (Data size) reply None) (kept_of self.new.jobs)) }
        ensures refused { IfErr result (λ refused. Waited (P.schema self.old.stepper) (P.seqs self.old.stepper) (P.alone self.old.stepper)
            (P.me self.old.stepper) (P.seen self.old.stepper) (P.seen self.new.stepper) (Data size) refused) }
        ensures unmoved { OnErr result (kept_of self.new.jobs ≡ kept_of self.old.jobs) }
    {
        self.step(alloc, Command::Data(size))
    }

    /// Moves bytes at the producer or the consumer of a data pipe, or begins or ends that.
    pub fn flow(&mut self, alloc: Global, handle: Handle, flow: Flow) -> Result<Reply, Refused>
        requires { (P.me self.old.stepper).0 < P.seqs self.old.stepper }
        ensures same { (P.schema self.new.stepper ≡ P.schema self.old.stepper) × (P.seqs self.new.stepper ≡ P.seqs self.old.stepper)
            × (P.alone self.new.stepper ≡ P.alone self.old.stepper) × (P.me self.new.stepper ≡ P.me self.old.stepper) }
        ensures home { P.home self.new.stepper ≡ P.home self.old.stepper }
        ensures event { IfOk result (λ reply. Saw (P.schema self.old.stepper) (P.seqs self.old.stepper) (P.alone self.old.stepper)
            (P.me self.old.stepper) (P.seen self.old.stepper) (P.seen self.new.stepper) (a_flow handle flow) reply) }
        ensures kept { IfOk result (λ reply. Follows C.promises (kept_of self.old.jobs) (step_of (a_flow handle flow) reply None) (kept_of self.new.jobs)) }
        ensures refused { IfErr result (λ refused. Waited (P.schema self.old.stepper) (P.seqs self.old.stepper) (P.alone self.old.stepper)
            (P.me self.old.stepper) (P.seen self.old.stepper) (P.seen self.new.stepper) (a_flow handle flow) refused) }
        ensures unmoved { OnErr result (kept_of self.new.jobs ≡ kept_of self.old.jobs) }
    {
        self.step(alloc, Command::Flow(handle, flow))
    }
}

impl<C: Job<P>, P: Stepper> Desk<C, P> {
    /// Takes the oldest unread message at an end. The job that waits for it runs on it.
    pub fn take(&mut self, alloc: Global, end: EndId) -> Result<Reply, Refused>
        requires { (P.me self.old.stepper).0 < P.seqs self.old.stepper }
        ensures same { (P.schema self.new.stepper ≡ P.schema self.old.stepper) × (P.seqs self.new.stepper ≡ P.seqs self.old.stepper)
            × (P.alone self.new.stepper ≡ P.alone self.old.stepper) × (P.me self.new.stepper ≡ P.me self.old.stepper) }
        ensures home { P.home self.new.stepper ≡ P.home self.old.stepper }
        ensures event { IfOk result (λ reply. Saw (P.schema self.old.stepper) (P.seqs self.old.stepper) (P.alone self.old.stepper)
            (P.me self.old.stepper) (P.seen self.old.stepper) (P.seen self.new.stepper) (Take end) reply) }
        ensures kept { IfOk result (λ reply. Follows C.promises (kept_of self.old.jobs) (step_of (Take end) reply None) (kept_of self.new.jobs)) }
        ensures refused { IfErr result (λ refused. Waited (P.schema self.old.stepper) (P.seqs self.old.stepper) (P.alone self.old.stepper)
            (P.me self.old.stepper) (P.seen self.old.stepper) (P.seen self.new.stepper) (Take end) refused) }
        ensures unmoved { OnErr result (kept_of self.new.jobs ≡ kept_of self.old.jobs) }
    {
        let reply = self.advance(alloc, Command::Take(end))?;
        Ok(tell_taken(&mut self.jobs, &self.stepper, end, reply))
    }
}
