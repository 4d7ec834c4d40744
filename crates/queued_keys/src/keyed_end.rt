//! One end of a pipe.

ghost use Rattle.std.specs.Prelude.{◌≡◌, true, OnOk, OnErr, IfErr};
ghost use Rattle.queued_keys.specs.Ends.{open_end, shut, with_key, with_keys, without_front};
ghost use Rattle.queued_keys.specs.Keys.{are_emitted, front_of};

use crate::key::Key;
use crate::key_queue::KeyQueue;
use mj_base::EndId;
use std::alloc::{AllocError, Global};
use std::collections::VecDeque;

/// An end: the other end of its pipe, whether it is closed, and the keys of what lies unread at it.
#[derive(Drop)]
pub struct KeyedEnd {
    pub peer: EndId,
    pub closed: bool,
    pub unread: KeyQueue,
}

impl KeyedEnd {
    /// An open end of which this is the other.
    pub(crate) fn new(alloc: Global, peer: EndId) -> KeyedEnd
        ensures { result ≡ open_end peer }
    {
        KeyedEnd {
            peer,
            closed: false,
            unread: KeyQueue::new(alloc),
        }
    }

    /// One key more. Without memory it comes back.
    pub(crate) fn push(&mut self, key: Key) -> Result<(), Key>
        ensures ok { OnOk result (self.new ≡ with_key key self.old) }
        ensures err { IfErr result (λ back. (back ≡ key) × (self.new ≡ self.old)) }
    {
        self.unread.push(key)
    }

    /// More keys, all of emitted messages. Without memory they stay where they are.
    pub(crate) fn append(&mut self, more: &mut VecDeque<Key>) -> Result<(), AllocError>
        requires { are_emitted more.old.items ≡ true }
        ensures ok { OnOk result (self.new ≡ with_keys more.old.items self.old) }
        ensures err { OnErr result (self.new ≡ self.old) }
        ensures stay { OnErr result (more.new.items ≡ more.old.items) }
    {
        self.unread.append(more)
    }

    /// Takes the oldest key away.
    pub(crate) fn pop(&mut self) -> Option<Key>
        ensures front { result ≡ front_of self.old.unread }
        ensures rest { self.new ≡ without_front self.old }
    {
        self.unread.pop()
    }

    /// Closes it: no key stands at it any more.
    pub(crate) fn shut(&mut self)
        ensures { self.new ≡ shut self.old }
    {
        self.closed = true;
        self.unread.clear();
    }
}
