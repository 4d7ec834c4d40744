//! The ends that one sequence made.

ghost use Rattle.std.specs.Prelude.{◌≡◌, ◌-◌, ◌<◌, ◌++◌, [], ◌∷◌, length, slice_get, take, OnOk, OnErr, IfErr};
ghost use Rattle.std.specs.Option.{option_copied};
ghost use Rattle.handle_table.specs.Numbered.{changed_at};
ghost use Rattle.message_pipe.specs.Ends.{shut, with_message, without_front, unread_of};
ghost use Rattle.message_pipe.specs.Mail.{front_of};

use message_pipe::{Message, PipeEnd};
use std::alloc::{AllocError, Global};
use std::marker::Model;

/// Ends, each at its number. Contracts see them in order.
#[derive(Drop)]
pub(crate) struct EndList {
    items: Vec<PipeEnd>,
}

impl Model for EndList {
    ghost use Rattle.std.specs.Prelude.{List};
    ghost use Rattle.message_pipe.specs.declared.pipe_end.PipeEnd.{PipeEnd};

    ghost Value = { List PipeEnd };

    ghost view = { λ list. list.items.items };
}

impl EndList {
    /// Nothing was made.
    pub(crate) fn new(alloc: Global) -> EndList
        ensures { result ≡ [] }
    {
        EndList {
            items: Vec::new(alloc),
        }
    }

    /// The end of a number; none where it was never made.
    pub(crate) fn get(&self, number: u32) -> Option<&PipeEnd>
        ensures { option_copied result ≡ slice_get self.now number }
    {
        self.items.get(number as usize)
    }

    /// One end more.
    pub(crate) fn push(&mut self, end: PipeEnd) -> Result<(), AllocError>
        ensures ok { OnOk result (self.new ≡ self.old ++ end ∷ []) }
        ensures err { OnErr result (self.new ≡ self.old) }
    {
        self.items.push(end)?;
        Ok(())
    }

    /// Takes the last end away again.
    pub(crate) fn pop(&mut self)
        ensures { self.new ≡ take (length self.old - 1) self.old }
    {
        let _last = self.items.pop();
    }

    /// One message more at an end. Without memory it comes back.
    pub(crate) fn push_message(&mut self, number: u32, message: Message) -> Result<(), Message>
        requires { number < length self.old }
        ensures ok { OnOk result (self.new ≡ changed_at (with_message message) number self.old) }
        ensures err { IfErr result (λ back. (back ≡ message) × (self.new ≡ self.old)) }
    {
        self.items[number as usize].push(message)
    }

    /// Takes the oldest message at an end away.
    pub(crate) fn pop_message(&mut self, number: u32) -> Option<Message>
        requires { number < length self.old }
        ensures front { result ≡ front_of (unread_of (slice_get self.old number)) }
        ensures rest { self.new ≡ changed_at without_front number self.old }
    {
        self.items[number as usize].pop()
    }

    /// Closes an end, where it was made.
    pub(crate) fn shut(&mut self, number: u32)
        ensures { self.new ≡ changed_at shut number self.old }
    {
        let at = number as usize;
        if at < self.items.len() {
            self.items[at].shut();
        }
    }
}
