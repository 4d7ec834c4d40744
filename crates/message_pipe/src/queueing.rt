//! Messages in a slab with the queues of their keys: what comes in, and what goes.

ghost use Rattle.std.specs.Prelude.{◌≡◌, ◌-◌, ◌<◌, ◌==◌, ◌++◌, ℕ, [], ◌∷◌, drop, length, slice_get, true, OnOk, OnErr, IfErr, if◌then◌else◌};
ghost use Rattle.std.specs.Option.{option_copied};
ghost use Rattle.slab.specs.Slab.{HasRoomFor, SameValues};
ghost use Rattle.handle_table.specs.Numbered.{listed, changed_at};
ghost use Rattle.queued_keys.specs.Ends.{keys_at, keys_of, with_keys};
ghost use Rattle.queued_keys.specs.Keys as keys_of_queues;
ghost use Rattle.message_pipe.specs.Mail.{are_emitted, handles_of};
ghost use Rattle.message_pipe.specs.Slots.{messages_of};
ghost use Rattle.message_pipe.specs.steps.SlotChanges.{Enters, Loses};

use crate::message::Message;
use crate::slots::{add_queued, forget, ready, store_all};
use handle_table::Thing;
use mj_base::EndId;
use queued_keys::{Key, KeyedEnd, KeyedEnds};
use slab::Slab;
use std::alloc::AllocError;
use std::collections::VecDeque;

/// Queues the next key of a slab at an end, and puts its message there. Without memory it comes back.
fn queue(
    keys: &mut KeyedEnds,
    messages: &mut Slab<Message>,
    end: EndId,
    key: Key,
    message: Message,
) -> Result<(), Message>
    requires there { end.serial < length (listed keys.old end.seq) }
    requires key { (key.at ≡ messages.old.vacant_key) × (key.emitted ≡ message.emitted) }
    requires room { HasRoomFor messages.old 1 }
    ensures ok { OnOk result (Enters end (message ∷ []) keys.old keys.new messages.old messages.new) }
    ensures err { IfErr result (λ back. (back ≡ message) × (keys.new ≡ keys.old) × (messages.new ≡ messages.old)) }
{
    match keys.push_key(end, key) {
        Ok(()) => {
            messages.insert_reserved(message);
            Ok(())
        }
        Err(_key) => Err(message),
    }
}

/// One message more at an end that was made. Without memory it comes back.
pub(crate) fn enter(
    keys: &mut KeyedEnds,
    messages: &mut Slab<Message>,
    end: EndId,
    message: Message,
) -> Result<(), Message>
    requires { end.serial < length (listed keys.old end.seq) }
    ensures ok { OnOk result (Enters end (message ∷ []) keys.old keys.new messages.old messages.new) }
    ensures err { IfErr result (λ back. (back ≡ message) × (keys.new ≡ keys.old) × SameValues messages.old messages.new) }
{
    match ready(messages, message.emitted) {
        Some(key) => queue(keys, messages, end, key, message),
        None => Err(message),
    }
}

/// Queues keys of emitted messages at an end. Without memory their messages go again.
fn queue_all(
    keys: &mut KeyedEnds,
    messages: &mut Slab<Message>,
    end: EndId,
    stored: VecDeque<Key>,
) -> Result<(), AllocError>
    requires there { end.serial < length (listed keys.old end.seq) }
    requires emitted { keys_of_queues.are_emitted stored.items ≡ true }
    ensures ok { OnOk result ((messages.new ≡ messages.old) × ((s : ℕ) → listed keys.new s
        ≡ (if end.seq == s then changed_at (with_keys stored.items) end.serial (listed keys.old s) else listed keys.old s))) }
    ensures err { OnErr result ((keys.new ≡ keys.old) × Loses messages.old messages.new stored.items) }
{
    let mut left = stored;
    match keys.append(end, &mut left) {
        Ok(()) => Ok(()),
        Err(error) => {
            forget(messages, &left);
            Err(error)
        }
    }
}

/// More messages at an end that was made, all of them emitted. Without memory nothing changes.
pub(crate) fn enter_all(
    keys: &mut KeyedEnds,
    messages: &mut Slab<Message>,
    end: EndId,
    more: Vec<Message>,
) -> Result<(), AllocError>
    requires there { end.serial < length (listed keys.old end.seq) }
    requires emitted { are_emitted more.items ≡ true }
    ensures ok { OnOk result (Enters end more.items keys.old keys.new messages.old messages.new) }
    ensures err { OnErr result ((keys.new ≡ keys.old) × SameValues messages.old messages.new) }
{
    let alloc = *more.allocator();
    let mut stored = VecDeque::with_capacity(alloc, more.len())?;
    match store_all(messages, more, &mut stored) {
        Ok(()) => queue_all(keys, messages, end, stored),
        Err(error) => {
            forget(messages, &stored);
            Err(error)
        }
    }
}

/// Takes the messages of the keys of an end away, where there is one.
fn forget_found(messages: &mut Slab<Message>, found: Option<&KeyedEnd>)
    ensures { Loses messages.old messages.new (keys_of (option_copied found.entry)) }
{
    match found {
        Some(end) => forget(messages, end.unread.as_deque()),
        None => {}
    }
}

/// Takes all messages at an end away.
pub(crate) fn forget_at(keys: &KeyedEnds, messages: &mut Slab<Message>, end: EndId)
    ensures { Loses messages.old messages.new (keys_at keys.now end) }
{
    forget_found(messages, keys.get(end));
}

/// Takes all messages at the last end of a sequence away.
pub(crate) fn forget_last(keys: &KeyedEnds, messages: &mut Slab<Message>, seq: u32)
    ensures { Loses messages.old messages.new (keys_of (slice_get (listed keys.now seq) (length (listed keys.now seq) - 1))) }
{
    forget_found(messages, keys.last(seq));
}

/// Adds what the handles of the messages at an end, behind the first so many, are of, in order.
pub(crate) fn add_at(
    keys: &KeyedEnds,
    messages: &Slab<Message>,
    end: EndId,
    skipped: usize,
    into: &mut Vec<Thing>,
) -> Result<(), AllocError>
    ensures { OnOk result (into.new.items ≡ into.old.items ++ handles_of (messages_of messages.now (drop skipped (keys_at keys.now end)))) }
{
    match keys.get(end) {
        Some(found) => add_queued(messages, found.unread.as_deque(), skipped, into),
        None => Ok(()),
    }
}
