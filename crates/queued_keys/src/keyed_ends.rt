//! The ends that all sequences made.

ghost use Rattle.std.specs.Prelude.{◌≡◌, ◌-◌, ◌<◌, ◌==◌, ◌++◌, ℕ, [], ◌∷◌, length, nat_le, slice_get, take, true, OnOk, OnErr, IfErr, if◌then◌else◌};
ghost use Rattle.std.specs.Option.{option_copied};
ghost use Rattle.mj_base.specs.declared.limits.TheConstants.{MAX_UNREAD_MESSAGES};
ghost use Rattle.handle_table.specs.Numbered.{listed, changed_at};
ghost use Rattle.queued_keys.specs.Ends.{end_of, is_closed, keys_at, peer_of, shut, with_key, with_keys, without_front};
ghost use Rattle.queued_keys.specs.Keys.{are_emitted, front_of, weighs};
ghost use Rattle.queued_keys.specs.Pairs.{with_pair};

use crate::key::Key;
use crate::keyed_end::KeyedEnd;
use crate::keyed_list::KeyedList;
use mj_base::EndId;
use std::alloc::{AllocError, Global};
use std::collections::VecDeque;
use std::marker::Model;

/// For each sequence, the ends that it made. Contracts see a list for each; a sequence that made nothing
/// may have none.
#[derive(Drop)]
pub struct KeyedEnds {
    sequences: Vec<KeyedList>,
}

impl Model for KeyedEnds {
    ghost use Rattle.std.specs.Prelude.{List};
    ghost use Rattle.queued_keys.specs.declared.keyed_end.KeyedEnd.{KeyedEnd};

    ghost Value = { List (List KeyedEnd) };

    ghost view = { λ ends. ends.sequences.items };
}

impl KeyedEnds {
    /// Nothing was made. Takes no memory.
    pub fn new(alloc: Global) -> KeyedEnds
        ensures { result ≡ [] }
    {
        KeyedEnds {
            sequences: Vec::new(alloc),
        }
    }

    /// An end; none where it was never made.
    pub fn get(&self, end: EndId) -> Option<&KeyedEnd>
        ensures { option_copied result ≡ end_of self.now end }
    {
        self.sequences.get(end.seq as usize)?.get(end.serial)
    }

    /// The last end that a sequence made; none where it made nothing.
    pub fn last(&self, seq: u32) -> Option<&KeyedEnd>
        ensures { option_copied result ≡ slice_get (listed self.now seq) (length (listed self.now seq) - 1) }
    {
        self.sequences.get(seq as usize)?.last()
    }

    /// The other end of an end's pipe; none exactly where the end was never made.
    pub fn peer(&self, end: EndId) -> Option<EndId>
        ensures { result ≡ peer_of (end_of self.now end) }
    {
        let found = self.get(end)?;
        Some(found.peer)
    }

    /// Whether an end is closed.
    pub fn is_closed(&self, end: EndId) -> bool
        ensures { result ≡ is_closed (end_of self.now end) }
    {
        match self.get(end) {
            Some(found) => found.closed,
            None => false,
        }
    }

    /// Whether 4,096 keys of messages that weren't emitted stand at an end.
    pub fn is_full(&self, end: EndId) -> bool
        ensures { result ≡ nat_le MAX_UNREAD_MESSAGES (weighs (keys_at self.now end)) }
    {
        match self.get(end) {
            Some(found) => found.unread.is_full(),
            None => false,
        }
    }

    /// The oldest key at an end.
    pub fn front(&self, end: EndId) -> Option<Key>
        ensures { result ≡ front_of (keys_at self.now end) }
    {
        self.get(end)?.unread.front().copied()
    }

    /// Makes a list for each sequence up to this one.
    fn grow(&mut self, alloc: Global, seq: u32) -> Result<(), AllocError>
        ensures same { (s : ℕ) → listed self.new s ≡ listed self.old s }
        ensures there { OnOk result (seq < length self.new) }
    {
        while self.sequences.len() <= seq as usize {
            self.sequences.push(KeyedList::new(alloc))?;
        }
        Ok(())
    }

    /// One end more of a sequence.
    fn push(&mut self, alloc: Global, seq: u32, end: KeyedEnd) -> Result<(), AllocError>
        ensures ok { OnOk result ((s : ℕ) → listed self.new s ≡ (if seq == s then listed self.old s ++ end ∷ [] else listed self.old s)) }
        ensures err { OnErr result ((s : ℕ) → listed self.new s ≡ listed self.old s) }
    {
        self.grow(alloc, seq)?;
        self.sequences[seq as usize].push(end)
    }

    /// Takes the last end of a sequence away again.
    pub fn pop(&mut self, seq: u32)
        ensures { (s : ℕ) → listed self.new s ≡ (if seq == s then take (length (listed self.old s) - 1) (listed self.old s) else listed self.old s) }
    {
        let at = seq as usize;
        if at < self.sequences.len() {
            self.sequences[at].pop();
        }
    }

    /// One key more at an end. Without memory it comes back.
    pub fn push_key(&mut self, end: EndId, key: Key) -> Result<(), Key>
        requires { end.serial < length (listed self.old end.seq) }
        ensures ok { OnOk result ((s : ℕ) → listed self.new s
            ≡ (if end.seq == s then changed_at (with_key key) end.serial (listed self.old s) else listed self.old s)) }
        ensures err { IfErr result (λ back. (back ≡ key) × (self.new ≡ self.old)) }
    {
        self.sequences[end.seq as usize].push_key(end.serial, key)
    }

    /// More keys at an end, all of emitted messages. Without memory they stay where they are.
    pub fn append(&mut self, end: EndId, more: &mut VecDeque<Key>) -> Result<(), AllocError>
        requires there { end.serial < length (listed self.old end.seq) }
        requires emitted { are_emitted more.old.items ≡ true }
        ensures ok { OnOk result ((s : ℕ) → listed self.new s
            ≡ (if end.seq == s then changed_at (with_keys more.old.items) end.serial (listed self.old s) else listed self.old s)) }
        ensures err { OnErr result (self.new ≡ self.old) }
        ensures stay { OnErr result (more.new.items ≡ more.old.items) }
    {
        self.sequences[end.seq as usize].append(end.serial, more)
    }

    /// Takes the oldest key at an end away.
    pub fn pop_key(&mut self, end: EndId) -> Option<Key>
        requires { end.serial < length (listed self.old end.seq) }
        ensures front { result ≡ front_of (keys_at self.old end) }
        ensures rest { (s : ℕ) → listed self.new s ≡ (if end.seq == s then changed_at without_front end.serial (listed self.old s) else listed self.old s) }
    {
        self.sequences[end.seq as usize].pop_key(end.serial)
    }

    /// Closes an end, where it was made.
    pub fn shut(&mut self, end: EndId)
        ensures { (s : ℕ) → listed self.new s ≡ (if end.seq == s then changed_at shut end.serial (listed self.old s) else listed self.old s) }
    {
        let at = end.seq as usize;
        if at < self.sequences.len() {
            self.sequences[at].shut(end.serial);
        }
    }

    /// Two ends, each the other's peer.
    pub fn push_pair(&mut self, alloc: Global, one: EndId, other: EndId) -> Result<(), AllocError>
        ensures ok { OnOk result ((s : ℕ) → listed self.new s ≡ with_pair one other s (listed self.old s)) }
        ensures err { OnErr result ((s : ℕ) → listed self.new s ≡ listed self.old s) }
    {
        self.push(alloc, one.seq, KeyedEnd::new(alloc, other))?;
        match self.push(alloc, other.seq, KeyedEnd::new(alloc, one)) {
            Ok(()) => Ok(()),
            Err(error) => {
                self.pop(one.seq);
                Err(error)
            }
        }
    }
}
