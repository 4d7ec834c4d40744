//! What was compared.

use bind_model::{BadWhy, Got, Told};
use past_reference::refusals::refusal;
use std::alloc::{AllocError, Global};
use wire_model::MessageSide;

/// A reply, and how often it was told.
#[derive(Clone, Copy)]
pub struct Count {
    pub reply: &'static str,
    pub times: u64,
}

/// A step that differs: the list and the turn in it, both counted from 0, and what was told and wanted.
#[derive(Clone, Copy)]
pub struct Difference {
    pub list: u64,
    pub turn: usize,
    pub told: &'static str,
    pub wanted: &'static str,
}

/// How many lists of turns there were, how many steps were compared, how many of these differ, and which replies
/// were told.
#[derive(Drop)]
pub struct Tally {
    pub lists: u64,
    pub steps: u64,
    pub differ: u64,
    pub first: Option<Difference>,
    pub counts: Vec<Count>,
}

/// The word for what is wrong with a message.
fn flaw(why: BadWhy) -> &'static str {
    match why {
        BadWhy::Message(_) => "bad message",
        BadWhy::Unasked(_) => "bad unasked",
        BadWhy::StrangeId(_) => "bad strange id",
        BadWhy::TooOld(_) => "bad too old",
    }
}

/// The word for what a take got.
fn got_word(got: &Got) -> &'static str {
    match got.target.side {
        MessageSide::Request => "got",
        MessageSide::Response => "got response",
    }
}

/// The word for a reply.
fn word(told: &Told) -> &'static str {
    match told {
        Told::Made(_) => "made",
        Told::Bound(_) => "bound",
        Told::Associated(_) => "associated",
        Told::Attached(_) => "attached",
        Told::Sent(_, _) => "sent",
        Told::Wrote(_) => "wrote",
        Told::Taken(got) => got_word(got.get()),
        Told::Dropped(_, _) => "dropped",
        Told::Control(_) => "control",
        Told::Notified(_) => "notified",
        Told::Pausing => "pausing",
        Told::Flowed(_, _) => "flowed",
        Told::Bad(why, _) => flaw(*why),
        Told::Closed(_) => "closed",
        Told::Skipped => "skipped",
        Told::No(why) => refusal(*why),
    }
}

impl Tally {
    /// Nothing was compared.
    pub fn new(alloc: Global) -> Tally {
        Tally {
            lists: 0,
            steps: 0,
            differ: 0,
            first: None,
            counts: Vec::new(alloc),
        }
    }

    /// Counts a reply once more.
    fn count(&mut self, reply: &'static str) -> Result<(), AllocError> {
        for count in &mut self.counts {
            if count.reply == reply {
                count.times = count.times.saturating_add(1);
                return Ok(());
            }
        }
        Ok(self.counts.push(Count { reply, times: 1 })?)
    }

    /// One step more, of the turn of a place, with the reply that was told and the one that was wanted.
    pub fn add_step(
        &mut self,
        turn: usize,
        told: &Told,
        wanted: &Told,
        is_right: bool,
    ) -> Result<(), AllocError> {
        self.steps = self.steps.saturating_add(1);
        if !is_right {
            self.differ = self.differ.saturating_add(1);
            if self.first.is_none() {
                self.first = Some(Difference {
                    list: self.lists.saturating_sub(1),
                    turn,
                    told: word(told),
                    wanted: word(wanted),
                });
            }
        }
        self.count(word(wanted))
    }

    /// Those of another tally too, without the replies.
    pub fn add(&mut self, other: &Tally) {
        self.lists = self.lists.saturating_add(other.lists);
        self.steps = self.steps.saturating_add(other.steps);
        self.differ = self.differ.saturating_add(other.differ);
    }
}
