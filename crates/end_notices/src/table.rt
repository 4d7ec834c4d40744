//! What ends keep of controls, in one table.

ghost use Rattle.std.specs.Prelude.{ℕ, ◌≡◌, ◌<◌, [], length, IsTrue, OnOk, OnErr};
ghost use Rattle.mj_base.specs.declared.limits.TheConstants.{MAX_EVENTS};
ghost use Rattle.std.specs.List.{slice_get};
ghost use Rattle.std.specs.Option.{option_copied};
ghost use Rattle.end_notices.specs.Seen.{with_met, with_notice, with_wait, without_query, without_wait};
ghost use Rattle.end_notices.specs.Table.{AllSame, BecomesAt, can_note, has_line, line_of, notices_at};

use crate::notices::Notices;
use crate::waits::Wait;
use bind_model::Notice;
use mj_base::EndId;
use std::alloc::{AllocError, Global};
use std::collections::BTreeMap;
use std::marker::Model;

/// For each end what it keeps of controls; one that never wrote or consumed any may have no line.
#[derive(Drop)]
pub struct NoticeTable {
    ends: BTreeMap<EndId, Notices>,
}

impl Model for NoticeTable {
    ghost use Rattle.std.specs.Prelude.{List};
    ghost use Rattle.mj_base.specs.declared.ids.EndId.{EndId};
    ghost use Rattle.end_notices.specs.declared.notices.Notices.{Notices};

    ghost Value = { List (EndId × Notices) };

    ghost view = { λ table. table.ends.entries };
}

impl NoticeTable {
    /// No ends. Takes no memory.
    pub fn new(alloc: Global) -> NoticeTable
        ensures { result ≡ [] }
    {
        NoticeTable {
            ends: BTreeMap::new(alloc),
        }
    }

    /// What an end keeps, where it has a line.
    pub fn get(&self, end: EndId) -> Option<&Notices>
        ensures { option_copied result ≡ line_of self.now end }
    {
        self.ends.get(&end)
    }

    /// How many queries wait at the endpoint of an id at an end.
    pub fn queries(&self, end: EndId, id: u32) -> u32
        ensures { result ≡ (notices_at self.now end).queries id }
    {
        match self.get(end) {
            Some(notices) => notices.queries(id),
            None => 0,
        }
    }

    /// How many flushes an end wrote.
    pub fn flushes(&self, end: EndId) -> u32
        ensures { result ≡ (notices_at self.now end).flushes }
    {
        match self.get(end) {
            Some(notices) => notices.flushes(),
            None => 0,
        }
    }

    /// Whether an end has consumed the flush of a number.
    pub fn has_met(&self, end: EndId, flush: u32) -> bool
        ensures { result ≡ (notices_at self.now end).met flush }
    {
        match self.get(end) {
            Some(notices) => notices.has_met(flush),
            None => false,
        }
    }

    /// Whether an end has a line.
    fn has_line(&self, end: EndId) -> bool
        ensures { result ≡ has_line self.now end }
    {
        self.get(end).is_some()
    }

    /// Makes a line for an end.
    fn place(&mut self, alloc: Global, end: EndId) -> Result<(), AllocError>
        ensures same { AllSame self.old self.new }
        ensures there { OnOk result (IsTrue (has_line self.new end)) }
    {
        if self.has_line(end) {
            return Ok(());
        }
        self.ends.insert(end, Notices::new(alloc))?;
        Ok(())
    }

    /// Makes a place in the line of an end for the query that a notice may be.
    fn reserve_in(&mut self, end: EndId, notice: Notice) -> Result<(), AllocError>
        requires { IsTrue (has_line self.old end) }
        ensures same { AllSame self.old self.new }
        ensures room { OnOk result (IsTrue (can_note self.new end notice)) }
    {
        match self.ends.get_mut(&end) {
            Some(notices) => notices.reserve(notice),
            None => Ok(()),
        }
    }

    /// Makes a place for what is noted of a notice of an end.
    pub fn reserve(&mut self, alloc: Global, end: EndId, notice: Notice) -> Result<(), AllocError>
        ensures same { AllSame self.old self.new }
        ensures room { OnOk result (IsTrue (can_note self.new end notice)) }
    {
        self.place(alloc, end)?;
        self.reserve_in(end, notice)
    }

    /// Notes that an end wrote a notice, for which there is a place.
    pub fn note(&mut self, end: EndId, notice: Notice)
        requires room { IsTrue (can_note self.old end notice) }
        requires queries { (id : ℕ) → (notices_at self.old end).queries id < MAX_EVENTS }
        requires flushes { (notices_at self.old end).flushes < MAX_EVENTS }
        ensures { BecomesAt (with_notice notice) end self.old self.new }
    {
        if let Some(notices) = self.ends.get_mut(&end) {
            notices.note(notice);
        }
    }

    /// Notes that a query that waited at the endpoint of an id at an end has its version.
    pub fn answer(&mut self, end: EndId, id: u32)
        requires { 0 < (notices_at self.old end).queries id }
        ensures { BecomesAt (without_query id) end self.old self.new }
    {
        if let Some(notices) = self.ends.get_mut(&end) {
            notices.answer(id);
        }
    }

    /// Notes in the line of an end that it consumed the flush of a number.
    fn meet_in(&mut self, end: EndId, flush: u32) -> Result<(), AllocError>
        requires { IsTrue (has_line self.old end) }
        ensures ok { OnOk result (BecomesAt (with_met flush) end self.old self.new) }
        ensures err { OnErr result (AllSame self.old self.new) }
    {
        match self.ends.get_mut(&end) {
            Some(notices) => notices.meet(flush),
            None => Ok(()),
        }
    }

    /// Notes that an end consumed the flush of a number. Without memory nothing changes.
    pub fn meet(&mut self, alloc: Global, end: EndId, flush: u32) -> Result<(), AllocError>
        ensures ok { OnOk result (BecomesAt (with_met flush) end self.old self.new) }
        ensures err { OnErr result (AllSame self.old self.new) }
    {
        self.place(alloc, end)?;
        self.meet_in(end, flush)
    }

    /// Notes in the line of an end what it waits for besides.
    fn wait_in(&mut self, end: EndId, wait: Wait) -> Result<(), AllocError>
        requires { IsTrue (has_line self.old end) }
        ensures ok { OnOk result (BecomesAt (with_wait wait) end self.old self.new) }
        ensures err { OnErr result (AllSame self.old self.new) }
    {
        match self.ends.get_mut(&end) {
            Some(notices) => notices.wait(wait),
            None => Ok(()),
        }
    }

    /// Notes what an end waits for besides. Without memory nothing changes.
    pub fn wait(&mut self, alloc: Global, end: EndId, wait: Wait) -> Result<(), AllocError>
        ensures ok { OnOk result (BecomesAt (with_wait wait) end self.old self.new) }
        ensures err { OnErr result (AllSame self.old self.new) }
    {
        self.place(alloc, end)?;
        self.wait_in(end, wait)
    }

    /// The first that an end waits for, of what isn't forgotten.
    pub fn first_wait(&self, end: EndId) -> Option<Wait>
        ensures { result ≡ slice_get (notices_at self.now end).waits 0 }
    {
        match self.get(end) {
            Some(notices) => notices.waits().first().copied(),
            None => None,
        }
    }

    /// How much an end waits for, of what isn't forgotten.
    pub fn count_waits(&self, end: EndId) -> usize
        ensures { result ≡ length (notices_at self.now end).waits }
    {
        match self.get(end) {
            Some(notices) => notices.waits().len(),
            None => 0,
        }
    }

    /// Forgets the first that an end waits for, where there is one.
    pub fn forget(&mut self, end: EndId)
        ensures { BecomesAt without_wait end self.old self.new }
    {
        if let Some(notices) = self.ends.get_mut(&end) {
            notices.forget();
        }
    }
}
