//! What was compared.

use bind_model::{Event, Got, Told};
use past_reference::refusals::refusal;
use std::alloc::{AllocError, Global};
use wire_model::MessageSide;

/// A reply, and how often it was told.
#[derive(Clone, Copy)]
pub struct Count {
    pub reply: &'static str,
    pub times: u64,
}

/// How many texts, scripts and events there were, how many scripts differ, and which replies were told.
#[derive(Drop)]
pub struct Tally {
    pub texts: u64,
    pub scripts: u64,
    pub events: u64,
    pub differ: u64,
    pub counts: Vec<Count>,
}

/// The word for what a take got.
fn got_word(got: &Got) -> &'static str {
    match got.target.side {
        MessageSide::Request => "got",
        MessageSide::Response => "got response",
    }
}

/// The word for a reply.
fn word(told: &Told) -> &'static str {
    match told {
        Told::Made(_) => "made",
        Told::Bound(_) => "bound",
        Told::Sent(_, _) => "sent",
        Told::Taken(got) => got_word(got.get()),
        Told::Dropped(_, _) => "dropped",
        Told::Bad(_, _) => "bad",
        Told::Closed(_) => "closed",
        Told::Skipped => "skipped",
        Told::No(why) => refusal(*why),
        Told::Associated(_) => "associated",
        Told::Attached(_) => "attached",
        Told::Wrote(_) => "wrote",
        Told::Control(_) => "control",
        Told::Notified(_) => "notified",
        Told::Pausing => "pausing",
        Told::Flowed(_, _) => "flowed",
    }
}

impl Tally {
    /// Nothing was compared.
    pub fn new(alloc: Global) -> Tally {
        Tally {
            texts: 0,
            scripts: 0,
            events: 0,
            differ: 0,
            counts: Vec::new(alloc),
        }
    }

    /// So many replies more of a word.
    fn count(&mut self, reply: &'static str, times: u64) -> Result<(), AllocError> {
        for count in &mut self.counts {
            if count.reply == reply {
                count.times = count.times.saturating_add(times);
                return Ok(());
            }
        }
        Ok(self.counts.push(Count { reply, times })?)
    }

    /// One script more, which has these events.
    pub fn add_script(&mut self, events: &[Event], is_right: bool) -> Result<(), AllocError> {
        self.scripts = self.scripts.saturating_add(1);
        if !is_right {
            self.differ = self.differ.saturating_add(1);
        }
        self.events = self.events.saturating_add(events.len() as u64);
        for event in events {
            self.count(word(&event.told), 1)?;
        }
        Ok(())
    }

    /// Those of another tally too.
    pub fn add(&mut self, other: &Tally) {
        self.texts = self.texts.saturating_add(other.texts);
        self.scripts = self.scripts.saturating_add(other.scripts);
        self.events = self.events.saturating_add(other.events);
        self.differ = self.differ.saturating_add(other.differ);
    }
}
