//! The ends that one sequence made.

ghost use Rattle.std.specs.Prelude.{◌≡◌, ◌-◌, ◌<◌, ◌++◌, [], ◌∷◌, length, slice_get, take, true, OnOk, OnErr, IfErr};
ghost use Rattle.std.specs.Option.{option_copied};
ghost use Rattle.handle_table.specs.Numbered.{changed_at};
ghost use Rattle.queued_keys.specs.Ends.{keys_of, shut, with_key, with_keys, without_front};
ghost use Rattle.queued_keys.specs.Keys.{are_emitted, front_of};

use crate::key::Key;
use crate::keyed_end::KeyedEnd;
use std::alloc::{AllocError, Global};
use std::collections::VecDeque;
use std::marker::Model;

/// Ends, each at its number. Contracts see them in order.
#[derive(Drop)]
pub(crate) struct KeyedList {
    items: Vec<KeyedEnd>,
}

impl Model for KeyedList {
    ghost use Rattle.std.specs.Prelude.{List};
    ghost use Rattle.queued_keys.specs.declared.keyed_end.KeyedEnd.{KeyedEnd};

    ghost Value = { List KeyedEnd };

    ghost view = { λ list. list.items.items };
}

impl KeyedList {
    /// Nothing was made.
    pub(crate) fn new(alloc: Global) -> KeyedList
        ensures { result ≡ [] }
    {
        KeyedList {
            items: Vec::new(alloc),
        }
    }

    /// The end of a number; none where it was never made.
    pub(crate) fn get(&self, number: u32) -> Option<&KeyedEnd>
        ensures { option_copied result ≡ slice_get self.now number }
    {
        self.items.get(number as usize)
    }

    /// The last end; none where nothing was made.
    pub(crate) fn last(&self) -> Option<&KeyedEnd>
        ensures { option_copied result ≡ slice_get self.now (length self.now - 1) }
    {
        self.items.as_slice().last()
    }

    /// One end more.
    pub(crate) fn push(&mut self, end: KeyedEnd) -> Result<(), AllocError>
        ensures ok { OnOk result (self.new ≡ self.old ++ end ∷ []) }
        ensures err { OnErr result (self.new ≡ self.old) }
    {
        self.items.push(end)?;
        Ok(())
    }

    /// Takes the last end away again.
    pub(crate) fn pop(&mut self)
        ensures { self.new ≡ take (length self.old - 1) self.old }
    {
        let _last = self.items.pop();
    }

    /// One key more at an end. Without memory it comes back.
    pub(crate) fn push_key(&mut self, number: u32, key: Key) -> Result<(), Key>
        requires { number < length self.old }
        ensures ok { OnOk result (self.new ≡ changed_at (with_key key) number self.old) }
        ensures err { IfErr result (λ back. (back ≡ key) × (self.new ≡ self.old)) }
    {
        self.items[number as usize].push(key)
    }

    /// More keys at an end, all of emitted messages. Without memory they stay where they are.
    pub(crate) fn append(&mut self, number: u32, more: &mut VecDeque<Key>) -> Result<(), AllocError>
        requires there { number < length self.old }
        requires emitted { are_emitted more.old.items ≡ true }
        ensures ok { OnOk result (self.new ≡ changed_at (with_keys more.old.items) number self.old) }
        ensures err { OnErr result (self.new ≡ self.old) }
        ensures stay { OnErr result (more.new.items ≡ more.old.items) }
    {
        self.items[number as usize].append(more)
    }

    /// Takes the oldest key at an end away.
    pub(crate) fn pop_key(&mut self, number: u32) -> Option<Key>
        requires { number < length self.old }
        ensures front { result ≡ front_of (keys_of (slice_get self.old number)) }
        ensures rest { self.new ≡ changed_at without_front number self.old }
    {
        self.items[number as usize].pop()
    }

    /// Closes an end, where it was made.
    pub(crate) fn shut(&mut self, number: u32)
        ensures { self.new ≡ changed_at shut number self.old }
    {
        let at = number as usize;
        if at < self.items.len() {
            self.items[at].shut();
        }
    }
}
