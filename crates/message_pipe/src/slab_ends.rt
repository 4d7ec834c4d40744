//! The ends that all sequences made, with all of their unread messages in one slab.

ghost use Rattle.std.specs.Prelude.{List, ◌≡◌, ◌+◌, ◌-◌, ◌<◌, ◌==◌, ◌++◌, ℕ, [], ◌∷◌, drop, length, nat_le, take, true, OnOk, OnErr, IfErr, if◌then◌else◌};
ghost use Rattle.std.specs.Option.{option_copied, option_map};
ghost use Rattle.mj_base.specs.declared.ids.EndId.{EndId as end_id};
ghost use Rattle.mj_base.specs.declared.limits.TheConstants.{MAX_UNREAD_MESSAGES};
ghost use Rattle.handle_table.specs.Numbered.{listed, changed_at};
ghost use Rattle.message_pipe.specs.Ends.{closed_by, end_of, is_closed, peer_of, shut, unread_at, with_message, with_messages, without_front};
ghost use Rattle.message_pipe.specs.Mail.{are_emitted, front_of, handles_of, weighs};
ghost use Rattle.message_pipe.specs.Pairs.{with_pair};
ghost use Rattle.message_pipe.specs.declared.pipe_end.PipeEnd.{PipeEnd as end_row};

use crate::message::Message;
use crate::queueing::{add_at, enter, enter_all, forget_at, forget_last};
use crate::slots::{look, removed, removed_counted};
use crate::step_count::Steps;
use handle_table::Thing;
use mj_base::EndId;
use queued_keys::KeyedEnds;
use slab::Slab;
use std::alloc::{AllocError, Global};
use std::marker::Model;
use std::sync::ledger::Ledger;

/// Ends with the keys of what lies unread at them, and the slab in which the messages of all ends stand under
/// their keys. Contracts see, for each sequence, the ends that it made, with their messages.
#[derive(Drop)]
pub struct SlabEnds {
    keys: KeyedEnds,
    messages: Slab<Message>,
}

impl Model for SlabEnds {
    ghost use Rattle.std.specs.Prelude.{List};
    ghost use Rattle.message_pipe.specs.declared.pipe_end.PipeEnd.{PipeEnd};
    ghost use Rattle.message_pipe.specs.Slots.{AllKept, seen_ends};

    ghost Value = { List (List PipeEnd) };

    ghost view = { λ ends. seen_ends ends.messages ends.keys };

    ghost invariant = { λ ends. AllKept ends.messages ends.keys };
}

impl SlabEnds {
    /// Nothing was made. Takes no memory.
    pub fn new(alloc: Global) -> SlabEnds
        ensures { result ≡ [] }
    {
        let keys = KeyedEnds::new(alloc);
        let messages = Slab::new(alloc);
        SlabEnds { keys, messages }
    }

    /// The other end of an end's pipe; none exactly where the end was never made.
    pub fn peer(&self, end: EndId) -> Option<EndId>
        ensures { result ≡ peer_of (end_of self.now end) }
    {
        self.keys.peer(end)
    }

    /// Whether an end is closed.
    pub(crate) fn is_closed(&self, end: EndId) -> bool
        ensures { result ≡ is_closed (end_of self.now end) }
    {
        self.keys.is_closed(end)
    }

    /// Whether 4,096 messages that weren't emitted lie unread at an end.
    pub fn is_full(&self, end: EndId) -> bool
        ensures { result ≡ nat_le MAX_UNREAD_MESSAGES (weighs (unread_at self.now end)) }
    {
        self.keys.is_full(end)
    }

    /// The oldest unread message at an end.
    pub(crate) fn front(&self, end: EndId) -> Option<&Message>
        ensures { option_copied result ≡ front_of (unread_at self.now end) }
    {
        let key = self.keys.front(end);
        look(&self.messages, key)
    }

    /// Adds what the handles of the messages at an end, behind the first so many, are of, in order.
    pub(crate) fn add_handles(
        &self,
        end: EndId,
        skipped: usize,
        into: &mut Vec<Thing>,
    ) -> Result<(), AllocError>
        ensures { OnOk result (into.new.items ≡ into.old.items ++ handles_of (drop skipped (unread_at self.now end))) }
    {
        add_at(&self.keys, &self.messages, end, skipped, into)
    }

    /// Two ends, each the other's peer.
    pub fn push_pair(&mut self, alloc: Global, one: EndId, other: EndId) -> Result<(), AllocError>
        ensures ok { OnOk result ((s : ℕ) → listed self.new s ≡ with_pair one other s (listed self.old s)) }
        ensures err { OnErr result ((s : ℕ) → listed self.new s ≡ listed self.old s) }
    {
        self.keys.push_pair(alloc, one, other)
    }

    /// Takes the last end of a sequence away again, and lets what lies unread at it go.
    fn pop(&mut self, seq: u32)
        ensures { (s : ℕ) → listed self.new s ≡ (if seq == s then take (length (listed self.old s) - 1) (listed self.old s) else listed self.old s) }
    {
        forget_last(&self.keys, &mut self.messages, seq);
        self.keys.pop(seq);
    }

    /// Takes two ends away again that were just made.
    pub(crate) fn pop_pair(&mut self, one: EndId, other: EndId)
        ensures { (before : List (List end_row)) → ((s : ℕ) → listed self.old s ≡ with_pair one other s (listed before s))
            → (s : ℕ) → listed self.new s ≡ listed before s }
    {
        self.pop(other.seq);
        self.pop(one.seq);
    }

    /// One message more at an end. Without memory it comes back, and so it does where its place in the slab would be
    /// past 4,294,967,295.
    pub fn push_message(&mut self, end: EndId, message: Message) -> Result<(), Message>
        requires { end.serial < length (listed self.old end.seq) }
        ensures ok { OnOk result ((s : ℕ) → listed self.new s
            ≡ (if end.seq == s then changed_at (with_message message) end.serial (listed self.old s) else listed self.old s)) }
        ensures err { IfErr result (λ back. (back ≡ message) × (self.new ≡ self.old)) }
    {
        enter(&mut self.keys, &mut self.messages, end, message)
    }

    /// More messages at an end, all of them emitted. Without memory, or where a place would be past 4,294,967,295,
    /// nothing changes.
    pub(crate) fn push_emitted(
        &mut self,
        end: EndId,
        messages: Vec<Message>,
    ) -> Result<(), AllocError>
        requires there { end.serial < length (listed self.old end.seq) }
        requires emitted { are_emitted messages.items ≡ true }
        ensures ok { OnOk result ((s : ℕ) → listed self.new s
            ≡ (if end.seq == s then changed_at (with_messages messages.items) end.serial (listed self.old s) else listed self.old s)) }
        ensures err { OnErr result (self.new ≡ self.old) }
    {
        enter_all(&mut self.keys, &mut self.messages, end, messages)
    }

    /// Takes the oldest message at an end away.
    pub fn pop_message(&mut self, end: EndId) -> Option<Message>
        requires { end.serial < length (listed self.old end.seq) }
        ensures front { result ≡ front_of (unread_at self.old end) }
        ensures rest { (s : ℕ) → listed self.new s ≡ (if end.seq == s then changed_at without_front end.serial (listed self.old s) else listed self.old s) }
    {
        let key = self.keys.pop_key(end);
        removed(&mut self.messages, key)
    }

    /// The same, with a step for the look-up by key.
    pub(crate) fn pop_counted<L: Ledger>(
        &mut self,
        end: EndId,
        steps: &mut Steps<L>,
    ) -> Option<Message>
        requires { end.serial < length (listed self.old end.seq) }
        ensures front { result ≡ front_of (unread_at self.old end) }
        ensures rest { (s : ℕ) → listed self.new s ≡ (if end.seq == s then changed_at without_front end.serial (listed self.old s) else listed self.old s) }
        ensures steps { steps.new ≡ steps.old + 1 }
    {
        let key = self.keys.pop_key(end);
        removed_counted(&mut self.messages, key, steps)
    }

    /// Closes an end, where it was made, and lets what lies unread at it go.
    pub fn shut(&mut self, end: EndId)
        ensures { (s : ℕ) → listed self.new s ≡ (if end.seq == s then changed_at shut end.serial (listed self.old s) else listed self.old s) }
    {
        forget_at(&self.keys, &mut self.messages, end);
        self.keys.shut(end);
    }

    /// Closes an end where the thing is one that was made.
    pub(crate) fn shut_thing(&mut self, thing: Thing)
        ensures ends { (x : end_id) → end_of self.new x ≡ option_map (closed_by (thing ∷ []) x) (end_of self.old x) }
        ensures counts { (s : ℕ) → length (listed self.new s) ≡ length (listed self.old s) }
    {
        if let Thing::End(end) = thing {
            self.shut(end);
        }
    }
}
