//! The ends that all sequences made, in the plain form: each has a list of its own unread messages.

ghost use Rattle.std.specs.Prelude.{◌≡◌, ◌-◌, ◌<◌, ◌==◌, ◌++◌, ℕ, [], ◌∷◌, length, nat_le, take, OnOk, OnErr, IfErr, if◌then◌else◌};
ghost use Rattle.std.specs.Option.{option_copied};
ghost use Rattle.mj_base.specs.declared.limits.TheConstants.{MAX_UNREAD_MESSAGES};
ghost use Rattle.handle_table.specs.Numbered.{listed, changed_at};
ghost use Rattle.message_pipe.specs.Ends.{end_of, peer_of, shut, with_message, without_front, unread_at};
ghost use Rattle.message_pipe.specs.Pairs.{with_pair};
ghost use Rattle.message_pipe.specs.Mail.{front_of, weighs};

use crate::end_list::EndList;
use crate::queues::Queues;
use message_pipe::{Message, PipeEnd};
use mj_base::EndId;
use std::alloc::{AllocError, Global};
use std::marker::Model;

/// For each sequence, the ends that it made. Contracts see a list for each; a sequence that made nothing
/// may have none.
#[derive(Drop)]
pub struct Ends {
    sequences: Vec<EndList>,
}

impl Model for Ends {
    ghost use Rattle.std.specs.Prelude.{List};
    ghost use Rattle.message_pipe.specs.declared.pipe_end.PipeEnd.{PipeEnd};

    ghost Value = { List (List PipeEnd) };

    ghost view = { λ ends. ends.sequences.items };
}

impl Ends {
    /// Nothing was made.
    pub fn new(alloc: Global) -> Ends
        ensures { result ≡ [] }
    {
        Ends {
            sequences: Vec::new(alloc),
        }
    }

    /// An end; none where it was never made.
    fn get(&self, end: EndId) -> Option<&PipeEnd>
        ensures { option_copied result ≡ end_of self.now end }
    {
        self.sequences.get(end.seq as usize)?.get(end.serial)
    }

    /// The other end of an end's pipe; none exactly where the end was never made.
    pub fn peer(&self, end: EndId) -> Option<EndId>
        ensures { result ≡ peer_of (end_of self.now end) }
    {
        let found = self.get(end)?;
        Some(found.peer)
    }

    /// Whether 4,096 messages that weren't emitted lie unread at an end.
    pub fn is_full(&self, end: EndId) -> bool
        ensures { result ≡ nat_le MAX_UNREAD_MESSAGES (weighs (unread_at self.now end)) }
    {
        match self.get(end) {
            Some(found) => found.unread.is_full(),
            None => false,
        }
    }

    /// Makes a list for each sequence up to this one.
    fn grow(&mut self, alloc: Global, seq: u32) -> Result<(), AllocError>
        ensures same { (s : ℕ) → listed self.new s ≡ listed self.old s }
        ensures there { OnOk result (seq < length self.new) }
    {
        while self.sequences.len() <= seq as usize {
            self.sequences.push(EndList::new(alloc))?;
        }
        Ok(())
    }

    /// One end more of a sequence.
    fn push(&mut self, alloc: Global, seq: u32, end: PipeEnd) -> Result<(), AllocError>
        ensures ok { OnOk result ((s : ℕ) → listed self.new s ≡ (if seq == s then listed self.old s ++ end ∷ [] else listed self.old s)) }
        ensures err { OnErr result ((s : ℕ) → listed self.new s ≡ listed self.old s) }
    {
        self.grow(alloc, seq)?;
        self.sequences[seq as usize].push(end)
    }

    /// Takes the last end of a sequence away again.
    fn pop(&mut self, seq: u32)
        ensures { (s : ℕ) → listed self.new s ≡ (if seq == s then take (length (listed self.old s) - 1) (listed self.old s) else listed self.old s) }
    {
        let at = seq as usize;
        if at < self.sequences.len() {
            self.sequences[at].pop();
        }
    }

    /// One message more at an end. Without memory it comes back.
    pub fn push_message(&mut self, end: EndId, message: Message) -> Result<(), Message>
        requires { end.serial < length (listed self.old end.seq) }
        ensures ok { OnOk result ((s : ℕ) → listed self.new s
            ≡ (if end.seq == s then changed_at (with_message message) end.serial (listed self.old s) else listed self.old s)) }
        ensures err { IfErr result (λ back. (back ≡ message) × (self.new ≡ self.old)) }
    {
        self.sequences[end.seq as usize].push_message(end.serial, message)
    }

    /// Takes the oldest message at an end away.
    pub fn pop_message(&mut self, end: EndId) -> Option<Message>
        requires { end.serial < length (listed self.old end.seq) }
        ensures front { result ≡ front_of (unread_at self.old end) }
        ensures rest { (s : ℕ) → listed self.new s ≡ (if end.seq == s then changed_at without_front end.serial (listed self.old s) else listed self.old s) }
    {
        self.sequences[end.seq as usize].pop_message(end.serial)
    }

    /// Closes an end, where it was made.
    pub fn shut(&mut self, end: EndId)
        ensures { (s : ℕ) → listed self.new s ≡ (if end.seq == s then changed_at shut end.serial (listed self.old s) else listed self.old s) }
    {
        let at = end.seq as usize;
        if at < self.sequences.len() {
            self.sequences[at].shut(end.serial);
        }
    }

    /// Two ends, each the other's peer.
    pub fn push_pair(&mut self, alloc: Global, one: EndId, other: EndId) -> Result<(), AllocError>
        ensures ok { OnOk result ((s : ℕ) → listed self.new s ≡ with_pair one other s (listed self.old s)) }
        ensures err { OnErr result ((s : ℕ) → listed self.new s ≡ listed self.old s) }
    {
        self.push(alloc, one.seq, PipeEnd::new(alloc, other))?;
        match self.push(alloc, other.seq, PipeEnd::new(alloc, one)) {
            Ok(()) => Ok(()),
            Err(error) => {
                self.pop(one.seq);
                Err(error)
            }
        }
    }
}

impl Queues for Ends {
    ghost contents = { λ ends x. end_of ends x };

    fn has_end(&self, end: EndId) -> bool {
        self.peer(end).is_some()
    }

    fn has_no_room(&self, end: EndId) -> bool {
        self.is_full(end)
    }

    fn write(&mut self, end: EndId, message: Message) -> Result<(), Message> {
        self.push_message(end, message)
    }

    fn read(&mut self, end: EndId) -> Option<Message> {
        self.pop_message(end)
    }

    fn close(&mut self, end: EndId) {
        self.shut(end);
    }
}
