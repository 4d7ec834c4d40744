//! The jobs of a desk and their notes.

ghost use Rattle.std.specs.Prelude.{◌≡◌, ◌<◌, ◌++◌, [], ◌∷◌, not, length, None, IfSome, OnOk, vec_len, vec_capacity};
ghost use Rattle.std.specs.FinMap as map;
ghost use Rattle.response_map.specs.Keys.{is_of_end, is_of_endpoint};
ghost use Rattle.remote_receiver.specs.Notes.{unrun};
ghost use Rattle.remote_receiver.specs.Stepped.{key_of};
ghost use Rattle.remote_receiver.specs.Waits.{AreNoted, IsPartOf};

use crate::job::{Answered, Job};
use crate::note::Note;
use bind_model::Stepper;
use mj_base::EndId;
use response_map::{Key, ResponseMap};
use std::alloc::{AllocError, Global};

/// A job that waits for the response to its request, and the number of its note.
#[derive(Drop)]
pub(crate) struct Waiting<C> {
    pub job: C,
    pub at: usize,
}

/// The jobs that wait, each under its request, and one note for each job that was given, in order. The
/// notes of those that wait say that they didn't run.
#[derive(Drop)]
pub(crate) struct Jobs<C> {
    pub waiting: ResponseMap<Waiting<C>>,
    pub notes: Vec<Note>,
    ghost noted: { AreNoted waiting.callbacks notes.items },
}

impl<C> Jobs<C> {
    /// No jobs. Takes no memory.
    pub(crate) fn new(alloc: Global) -> Jobs<C>
        ensures waiting { result.waiting.callbacks ≡ map.empty }
        ensures notes { result.notes.items ≡ [] }
    {
        Jobs {
            waiting: ResponseMap::new(alloc),
            notes: Vec::new(alloc),
        }
    }
}

impl<C: Drop> Jobs<C> {
    ghost use Rattle.remote_receiver.specs.Held.{kept_of};
    ghost use Rattle.remote_receiver.specs.steps.Doing.{Keeps};

    /// Makes room for one job more and its note.
    pub(crate) fn reserve(&mut self) -> Result<(), AllocError>
        ensures same { kept_of self.new ≡ kept_of self.old }
        ensures spare { OnOk result (0 < self.new.waiting.spare) }
        ensures room { OnOk result (vec_len self.new.notes < vec_capacity self.new.notes) }
    {
        self.notes.reserve(1)?;
        self.waiting.reserve()
    }

    /// Keeps the job of a request that has none, with its note. Takes no memory.
    pub(crate) fn put(&mut self, key: Key, job: C)
        requires spare { 0 < self.old.waiting.spare }
        requires room { vec_len self.old.notes < vec_capacity self.old.notes }
        requires absent { map.get self.old.waiting.callbacks key ≡ None }
        ensures waiting { self.new.waiting.callbacks
            ≡ map.insert self.old.waiting.callbacks key (record { job = job; at = length self.old.notes.items }) }
        ensures notes { self.new.notes.items ≡ self.old.notes.items ++ unrun key ∷ [] }
    {
        let at = self.notes.len();
        self.notes.push_reserved(Note {
            key,
            ran: false,
            note: 0,
        });
        self.waiting.put(key, Waiting { job, at });
    }

    /// Keeps the job that came with a call that was sent, if one came. Takes no memory.
    pub(crate) fn keep(&mut self, key: Key, job: Option<C>)
        requires spare { 0 < self.old.waiting.spare }
        requires room { vec_len self.old.notes < vec_capacity self.old.notes }
        requires absent { IfSome job (λ given. map.get self.old.waiting.callbacks key ≡ None) }
        ensures { Keeps key job (kept_of self.old) (kept_of self.new) }
    {
        if let Some(job) = job {
            self.put(key, job);
        }
    }

    /// Drops the jobs of an endpoint, and runs none.
    pub(crate) fn drop_endpoint(&mut self, end: EndId, id: u32)
        ensures waiting { self.new.waiting.callbacks
            ≡ map.retain_keys self.old.waiting.callbacks (λ key. not (is_of_endpoint end id key)) }
        ensures notes { self.new.notes.items ≡ self.old.notes.items }
        ensures part { IsPartOf self.old.waiting.callbacks self.new.waiting.callbacks }
    {
        self.waiting.drop_endpoint(end, id);
    }

    /// Drops the jobs of an end, and runs none.
    pub(crate) fn drop_end(&mut self, end: EndId)
        ensures waiting { self.new.waiting.callbacks
            ≡ map.retain_keys self.old.waiting.callbacks (λ key. not (is_of_end end key)) }
        ensures notes { self.new.notes.items ≡ self.old.notes.items }
        ensures part { IsPartOf self.old.waiting.callbacks self.new.waiting.callbacks }
    {
        self.waiting.drop_end(end);
    }
}

impl<C> Jobs<C> {
    ghost use Rattle.remote_receiver.specs.Due.{IsDue};
    ghost use Rattle.remote_receiver.specs.Held.{kept_of};
    ghost use Rattle.remote_receiver.specs.steps.Doing.{Heard};

    /// Runs the job that waits for a response, which the last take got, if there is one.
    pub(crate) fn hear<P: Stepper>(&mut self, got: &Answered, stepper: &P)
    where
        C: Job<P>,
        requires due { IsDue (P.me stepper.now) (P.seen stepper.now) got.now }
        ensures heard { Heard C.promises got.now (kept_of self.old) (kept_of self.new) }
        ensures part { IsPartOf self.old.waiting.callbacks self.new.waiting.callbacks }
    {
        let key = Key {
            end: got.end,
            id: got.id,
            request: got.request,
        };
        if let Some(Waiting { job, at }) = self.waiting.take(key) {
            let note = job.run(got, stepper);
            self.notes[at] = Note {
                key,
                ran: true,
                note,
            };
        }
    }
}
