//! All that an end keeps of controls.

ghost use Rattle.std.specs.Prelude.{ℕ, ◌≡◌, ◌<◌, OnOk, OnErr, IsTrue};
ghost use Rattle.mj_base.specs.declared.limits.TheConstants.{MAX_EVENTS};
ghost use Rattle.end_notices.specs.Seen.{has_room, none_seen, seen_of, with_met, with_notice, with_wait, without_query, without_wait};

use crate::met::MetFlushes;
use crate::queries::Queries;
use crate::waits::{Wait, Waits};
use bind_model::Notice;
use std::alloc::{AllocError, Global};

/// The queries of an end that wait for a version, how many flushes it wrote, those that it consumed, and
/// what it waits for, in the order in which it was told to. Waits in front that are met may be forgotten.
#[derive(Drop)]
pub struct Notices {
    pub(crate) queries: Queries,
    pub(crate) flushes: u32,
    pub(crate) met: MetFlushes,
    pub(crate) waits: Waits,
}

impl Notices {
    /// Those of a new end: none. Takes no memory.
    pub(crate) fn new(alloc: Global) -> Notices
        ensures { seen_of result ≡ none_seen }
    {
        let queries = Queries::new(alloc);
        let met = MetFlushes::new(alloc);
        Notices {
            queries,
            flushes: 0,
            met,
            waits: Waits::new(alloc),
        }
    }

    /// How many queries wait at the endpoint of an id.
    pub fn queries(&self, id: u32) -> u32
        ensures { result ≡ (seen_of self.now).queries id }
    {
        self.queries.count(id)
    }

    /// How many flushes were written.
    pub fn flushes(&self) -> u32
        ensures { result ≡ (seen_of self.now).flushes }
    {
        self.flushes
    }

    /// Whether the flush of a number was consumed.
    pub fn has_met(&self, flush: u32) -> bool
        ensures { result ≡ (seen_of self.now).met flush }
    {
        self.met.has(flush)
    }

    /// What the end waits for, in order.
    pub fn waits(&self) -> &[Wait]
        ensures { result.now ≡ (seen_of self.now).waits }
    {
        self.waits.as_slice()
    }

    /// Makes a place for the query that a notice may be.
    pub(crate) fn reserve(&mut self, notice: Notice) -> Result<(), AllocError>
        ensures same { seen_of self.new ≡ seen_of self.old }
        ensures room { OnOk result (IsTrue (has_room notice self.new)) }
    {
        match notice {
            Notice::Query(id) => self.queries.reserve(id),
            Notice::Require(_, _) | Notice::Flush => Ok(()),
        }
    }

    /// Notes that a notice was written.
    pub(crate) fn note(&mut self, notice: Notice)
        requires room { IsTrue (has_room notice self.old) }
        requires queries { (id : ℕ) → (seen_of self.old).queries id < MAX_EVENTS }
        requires flushes { (seen_of self.old).flushes < MAX_EVENTS }
        ensures { seen_of self.new ≡ with_notice notice (seen_of self.old) }
    {
        match notice {
            Notice::Query(id) => self.queries.ask(id),
            Notice::Require(_, _) => {}
            Notice::Flush => self.flushes += 1,
        }
    }

    /// Notes that a query that waited at the endpoint of an id has its version.
    pub(crate) fn answer(&mut self, id: u32)
        requires { 0 < (seen_of self.old).queries id }
        ensures { seen_of self.new ≡ without_query id (seen_of self.old) }
    {
        self.queries.answer(id);
    }

    /// Notes that the flush of a number was consumed. Without memory nothing changes.
    pub(crate) fn meet(&mut self, flush: u32) -> Result<(), AllocError>
        ensures ok { OnOk result (seen_of self.new ≡ with_met flush (seen_of self.old)) }
        ensures err { OnErr result (seen_of self.new ≡ seen_of self.old) }
    {
        self.met.meet(flush)
    }

    /// Notes what the end waits for besides. Without memory nothing changes.
    pub(crate) fn wait(&mut self, wait: Wait) -> Result<(), AllocError>
        ensures ok { OnOk result (seen_of self.new ≡ with_wait wait (seen_of self.old)) }
        ensures err { OnErr result (seen_of self.new ≡ seen_of self.old) }
    {
        self.waits.push(wait)
    }

    /// Forgets the first that the end waits for, where there is one.
    pub(crate) fn forget(&mut self)
        ensures { seen_of self.new ≡ without_wait (seen_of self.old) }
    {
        self.waits.forget();
    }
}
