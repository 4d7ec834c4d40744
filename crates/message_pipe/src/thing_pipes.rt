//! All pipes, by the names of their things.

ghost use Rattle.std.specs.Prelude.{◌≡◌, ◌-◌, ◌<◌, ◌^◌, ◌∷◌, [], true, IfOk, IfErr, OnOk, OnErr, IsSome, nat_le};
ghost use Rattle.std.specs.Option.{option_copied};
ghost use Rattle.mj_base.specs.declared.limits.TheConstants.{MAX_UNREAD_MESSAGES};
ghost use Rattle.handle_table.specs.declared.thing.Thing.TheVariants.{End};
ghost use Rattle.mj_base.specs.declared.ids.EndId.{EndId as end_id};
ghost use Rattle.handle_table.specs.Places.{tokens_made, place_of};
ghost use Rattle.message_pipe.specs.Contents.{Becomes, Closes, MakesPipe, MakesToken, MakesTokens, Puts, Same};
ghost use Rattle.message_pipe.specs.Ends.{carried_in, end_of, is_closed, peer_of, spread, unread_at, with_message, with_messages, without_front};
ghost use Rattle.message_pipe.specs.Mail.{are_emitted, front_of, weighs};

use crate::cascade::goes_with;
use crate::message::Message;
use crate::slab_ends::SlabEnds;
use handle_table::{Place, PlaceTable, Thing};
use mj_base::{EndId, SeqId};
use std::alloc::{AllocError, Global};
use std::marker::Model;

/// Message pipes, and where their ends and all tokens are, of whom nobody has a handle: who has them says
/// himself what is done with which thing. Contracts see what they see of pipes with handles.
#[derive(Drop)]
pub struct ThingPipes {
    ends: SlabEnds,
    table: PlaceTable,
    made: usize,
}

impl Model for ThingPipes {
    ghost use Rattle.message_pipe.specs.Contents.{Contents};
    ghost use Rattle.message_pipe.specs.Numbers.{Numbers};

    ghost Value = { Contents };

    ghost view = { λ pipes. record { ends = pipes.ends; table = pipes.table; made = pipes.made } };

    ghost invariant = { λ pipes. Numbers pipes.ends pipes.table pipes.made };
}

impl ThingPipes {
    /// No pipes. Takes no memory.
    pub fn new(alloc: Global) -> ThingPipes
        ensures { result ≡ record { ends = []; table = record { ends = []; tokens = [] }; made = 0 } }
    {
        ThingPipes {
            ends: SlabEnds::new(alloc),
            table: PlaceTable::new(alloc),
            made: 0,
        }
    }

    /// Where all things are.
    pub fn places(&self) -> &PlaceTable
        ensures { result.now ≡ self.now.table }
    {
        &self.table
    }

    /// Where a thing is; none exactly where it was never made.
    pub fn place(&self, thing: Thing) -> Option<Place>
        ensures { result ≡ place_of self.now.table thing }
    {
        self.table.place(thing)
    }

    /// How many tokens a sequence made.
    pub fn tokens_made(&self, seq: SeqId) -> usize
        ensures { result ≡ tokens_made self.now.table seq.0 }
    {
        self.table.tokens_made(seq)
    }

    /// The other end of an end's pipe; none exactly where the end was never made.
    pub fn peer(&self, end: EndId) -> Option<EndId>
        ensures { result ≡ peer_of (end_of self.now.ends end) }
    {
        self.ends.peer(end)
    }

    /// Whether an end is closed.
    pub fn is_closed(&self, end: EndId) -> bool
        ensures { result ≡ is_closed (end_of self.now.ends end) }
    {
        self.ends.is_closed(end)
    }

    /// Whether 4,096 messages that weren't emitted lie unread at an end.
    pub fn is_full(&self, end: EndId) -> bool
        ensures { result ≡ nat_le MAX_UNREAD_MESSAGES (weighs (unread_at self.now.ends end)) }
    {
        self.ends.is_full(end)
    }

    /// The oldest unread message at an end.
    pub fn front(&self, end: EndId) -> Option<&Message>
        ensures { option_copied result ≡ front_of (unread_at self.now.ends end) }
    {
        self.ends.front(end)
    }

    /// Makes a pipe: its first end of one sequence, its second of another or of the same. Without memory
    /// nothing changes.
    pub fn make(
        &mut self,
        alloc: Global,
        first: SeqId,
        second: SeqId,
    ) -> Result<(Thing, Thing), AllocError>
        requires { self.old.made < 2 ^ 32 - 2 }
        ensures ok { IfOk result (λ pipe. (one : end_id) × (other : end_id) × (pipe.0 ≡ End one) × (pipe.1 ≡ End other)
            × MakesPipe first.0 second.0 one other self.old self.new) }
        ensures err { OnErr result (Same self.old self.new) }
    {
        let one = EndId {
            seq: first.0,
            serial: self.table.ends_made(first) as u32,
        };
        let other = EndId {
            seq: second.0,
            serial: self.table.ends_made(second) as u32 + u32::from(first.0 == second.0),
        };
        self.ends.push_pair(alloc, one, other)?;
        match self.table.make_pipe(alloc, first, second) {
            Ok(pipe) => {
                self.made += 2;
                Ok(pipe)
            }
            Err(error) => {
                self.ends.pop_pair(one, other);
                Err(error)
            }
        }
    }

    /// Makes a token of a sequence. Without memory nothing changes.
    pub fn mint(&mut self, alloc: Global, seq: SeqId) -> Result<Thing, AllocError>
        requires { self.old.made < 2 ^ 32 - 2 }
        ensures ok { IfOk result (λ token. MakesToken seq.0 token self.old self.new) }
        ensures err { OnErr result (Same self.old self.new) }
    {
        let token = self.table.make(alloc, seq)?;
        self.made += 1;
        Ok(token)
    }

    /// Makes two tokens of a sequence, the second with the next number. Without memory nothing changes.
    pub fn mint_two(&mut self, alloc: Global, seq: SeqId) -> Result<(Thing, Thing), AllocError>
        requires { self.old.made < 2 ^ 32 - 2 }
        ensures ok { IfOk result (λ two. MakesTokens seq.0 two.0 two.1 self.old self.new) }
        ensures err { OnErr result (Same self.old self.new) }
    {
        let two = self.table.make_two(alloc, seq)?;
        self.made += 2;
        Ok(two)
    }

    /// Writes a message for reading at an end that was made, however many lie there already. Without memory
    /// it comes back.
    pub fn push(&mut self, end: EndId, message: Message) -> Result<(), Message>
        requires { IsSome (end_of self.old.ends end) }
        ensures ok { OnOk result (Becomes end (with_message message) self.old self.new) }
        ensures err { IfErr result (λ back. (back ≡ message) × (self.new ≡ self.old)) }
    {
        self.ends.push_message(end, message)
    }

    /// Writes messages that the machine emitted for reading at an end that was made, in one step and
    /// however many lie there already. Without memory nothing changes.
    pub fn push_emitted(&mut self, end: EndId, messages: Vec<Message>) -> Result<(), AllocError>
        requires there { IsSome (end_of self.old.ends end) }
        requires emitted { are_emitted messages.items ≡ true }
        ensures ok { OnOk result (Becomes end (with_messages messages.items) self.old self.new) }
        ensures err { OnErr result (self.new ≡ self.old) }
    {
        self.ends.push_emitted(end, messages)
    }

    /// Takes the oldest unread message at an end away; none exactly where nothing is unread.
    pub fn pop_front(&mut self, end: EndId) -> Option<Message>
        requires { IsSome (end_of self.old.ends end) }
        ensures front { result ≡ front_of (unread_at self.old.ends end) }
        ensures rest { Becomes end without_front self.old self.new }
    {
        self.ends.pop_message(end)
    }

    /// Moves a thing that was made to a place.
    pub fn put(&mut self, thing: Thing, place: Place)
        ensures { Puts thing place self.old self.new }
    {
        self.table.set(thing, place);
    }

    /// All that goes with these, breadth first: each end is followed, behind those that wait, by what the
    /// handles of its unread messages are of. At `read_at` the oldest message is passed over. Nothing is
    /// closed yet.
    pub fn goes_with(
        &self,
        start: Vec<Thing>,
        read_at: Option<EndId>,
    ) -> Result<Vec<Thing>, AllocError>
        ensures { IfOk result (λ goes. goes.items ≡ spread (carried_in self.now.ends read_at) self.now.made start.items) }
    {
        goes_with(&self.ends, read_at, start, self.made)
    }

    /// Closes a thing, wherever it is.
    fn shut(&mut self, thing: Thing)
        ensures { Closes (thing ∷ []) self.old self.new }
    {
        self.ends.shut_thing(thing);
        self.table.set(thing, Place::Closed);
    }

    /// Closes these: nothing lies at their ends any more.
    pub fn close(&mut self, things: &[Thing])
        ensures { Closes things.now self.old self.new }
    {
        for thing in things {
            self.shut(*thing);
        }
    }
}
