//! The keys of what lies unread at an end.

ghost use Rattle.std.specs.Prelude.{◌≡◌, ◌+◌, ◌++◌, [], ◌∷◌, drop, nat_le, true, OnOk, OnErr, IfErr};
ghost use Rattle.std.specs.Option.{option_copied};
ghost use Rattle.mj_base.specs.declared.limits.TheConstants.{MAX_UNREAD_MESSAGES};
ghost use Rattle.queued_keys.specs.Keys.{are_emitted, front_of, weighs};

use crate::key::Key;
use mj_base::limits::MAX_UNREAD_MESSAGES;
use std::alloc::{AllocError, Global};
use std::collections::VecDeque;
use std::marker::Model;

/// Keys of unread messages, the oldest first. Contracts see them in order.
#[derive(Drop)]
pub struct KeyQueue {
    keys: VecDeque<Key>,
    /// How many are of messages that weren't emitted.
    counted: usize,
}

impl Model for KeyQueue {
    ghost use Rattle.std.specs.Prelude.{List, ◌≡◌};
    ghost use Rattle.queued_keys.specs.declared.key.Key.{Key};
    ghost use Rattle.queued_keys.specs.Keys.{weighs};

    ghost Value = { List Key };

    ghost view = { λ queue. queue.keys.items };

    ghost invariant = { λ queue. queue.counted ≡ weighs queue.keys.items };
}

impl KeyQueue {
    /// No keys. Takes no memory.
    pub(crate) fn new(alloc: Global) -> KeyQueue
        ensures { result ≡ [] }
    {
        KeyQueue {
            keys: VecDeque::new(alloc),
            counted: 0,
        }
    }

    /// The keys in a row, to look at.
    pub fn as_deque(&self) -> &VecDeque<Key>
        ensures { result.now.items ≡ self.now }
    {
        &self.keys
    }

    /// The oldest key.
    pub(crate) fn front(&self) -> Option<&Key>
        ensures { option_copied result ≡ front_of self.now }
    {
        self.keys.front()
    }

    /// Whether 4,096 keys of messages that weren't emitted stand here.
    pub(crate) fn is_full(&self) -> bool
        ensures { result ≡ nat_le MAX_UNREAD_MESSAGES (weighs self.now) }
    {
        MAX_UNREAD_MESSAGES <= self.counted
    }

    /// One key more, at the end. Without memory it comes back.
    pub(crate) fn push(&mut self, key: Key) -> Result<(), Key>
        ensures ok { OnOk result (self.new ≡ self.old ++ key ∷ []) }
        ensures err { IfErr result (λ back. (back ≡ key) × (self.new ≡ self.old)) }
    {
        let emitted = key.emitted;
        if let Err(failed) = self.keys.push_back(key) {
            return Err(failed.value);
        }
        if !emitted {
            self.counted += 1;
        }
        Ok(())
    }

    /// More keys at the end, all of emitted messages. Without memory they stay where they are.
    pub(crate) fn append(&mut self, more: &mut VecDeque<Key>) -> Result<(), AllocError>
        requires { are_emitted more.old.items ≡ true }
        ensures ok { OnOk result (self.new ≡ self.old ++ more.old.items) }
        ensures err { OnErr result (self.new ≡ self.old) }
        ensures stay { OnErr result (more.new.items ≡ more.old.items) }
    {
        self.keys.append(more)
    }

    /// Takes the oldest key away.
    pub(crate) fn pop(&mut self) -> Option<Key>
        ensures front { result ≡ front_of self.old }
        ensures rest { self.new ≡ drop 1 self.old }
    {
        let key = self.keys.pop_front()?;
        if !key.emitted {
            self.counted -= 1;
        }
        Some(key)
    }

    /// Lets all keys go.
    pub(crate) fn clear(&mut self)
        ensures { self.new ≡ [] }
    {
        self.keys.clear();
        self.counted = 0;
    }
}
