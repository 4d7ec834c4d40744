//! Messages in a slab, and their keys.

ghost use Rattle.std.specs.Prelude.{◌≡◌, ◌+◌, ◌++◌, List, [], ◌∷◌, drop, IfOk, IfErr, IfSome, OnOk, OnErr, OnSome};
ghost use Rattle.std.specs.Option.{option_copied, option_to_list};
ghost use Rattle.slab.specs.Slab.{HasRoomFor, SameValues};
ghost use Rattle.queued_keys.specs.declared.key.Key.{Key as a_key};
ghost use Rattle.message_pipe.specs.Mail.{handles_of};
ghost use Rattle.message_pipe.specs.declared.message.Message.{Message as a_message};
ghost use Rattle.message_pipe.specs.Slots.{message_of, messages_of};
ghost use Rattle.message_pipe.specs.steps.SlotChanges.{Gains, Loses, found_in};

use crate::message::Message;
use crate::step_count::Steps;
use handle_table::Thing;
use queued_keys::Key;
use slab::Slab;
use std::alloc::AllocError;
use std::collections::VecDeque;
use std::sync::ledger::Ledger;

/// The message of a key, where there is one.
pub(crate) fn look(messages: &Slab<Message>, key: Option<Key>) -> Option<&Message>
    ensures { option_copied result ≡ found_in messages.now key }
{
    match key {
        Some(found) => messages.get(found.at as usize),
        None => None,
    }
}

/// The key under which the next message will stand, with room for it; none without memory, or where its
/// place would be past 4,294,967,295.
pub(crate) fn ready(messages: &mut Slab<Message>, emitted: bool) -> Option<Key>
    ensures key { IfSome result (λ key. (key.at ≡ messages.new.vacant_key) × (key.emitted ≡ emitted)) }
    ensures room { OnSome result (HasRoomFor messages.new 1) }
    ensures same { messages.new ≡ record messages.old { capacity = messages.new.capacity } }
{
    if messages.reserve(1).is_err() {
        return None;
    }
    let at = messages.vacant_key();
    if at > u32::MAX as usize {
        return None;
    }
    Some(Key {
        at: at as u32,
        emitted,
    })
}

/// Puts a message under a key of its own. Without memory it comes back.
fn store(messages: &mut Slab<Message>, message: Message) -> Result<Key, Message>
    ensures ok { IfOk result (λ key. Gains messages.old messages.new (key ∷ []) (message ∷ [])) }
    ensures err { IfErr result (λ back. (back ≡ message) × SameValues messages.old messages.new) }
{
    match ready(messages, message.emitted) {
        Some(key) => {
            messages.insert_reserved(message);
            Ok(key)
        }
        None => Err(message),
    }
}

/// Puts a message under a key of its own, behind those that were put before.
fn store_next(
    messages: &mut Slab<Message>,
    message: Message,
    stored: &mut VecDeque<Key>,
) -> Result<(), AllocError>
    ensures ok { OnOk result ((key : a_key) × (stored.new.items ≡ stored.old.items ++ key ∷ [])
        × Gains messages.old messages.new (key ∷ []) (message ∷ [])) }
    ensures err { OnErr result ((stored.new.items ≡ stored.old.items) × SameValues messages.old messages.new) }
{
    if stored.reserve(1).is_err() {
        return Err(AllocError);
    }
    match store(messages, message) {
        Ok(key) => {
            stored.push_back_reserved(key);
            Ok(())
        }
        Err(_back) => Err(AllocError),
    }
}

/// Puts messages under keys of their own, which are noted in order. Without memory for all of them some
/// stand there, with their keys.
pub(crate) fn store_all(
    messages: &mut Slab<Message>,
    more: Vec<Message>,
    stored: &mut VecDeque<Key>,
) -> Result<(), AllocError>
    requires { stored.old.items ≡ [] }
    ensures ok { OnOk result (Gains messages.old messages.new stored.new.items more.items) }
    ensures err { OnErr result ((done : List a_message) × Gains messages.old messages.new stored.new.items done) }
{
    let mut rest = VecDeque::from_vec(more);
    while let Some(message) = rest.pop_front() {
        store_next(messages, message, stored)?;
    }
    Ok(())
}

/// Takes a message from under its key: one look-up.
pub(crate) fn removed(messages: &mut Slab<Message>, key: Option<Key>) -> Option<Message>
    ensures value { result ≡ found_in messages.old key }
    ensures loses { Loses messages.old messages.new (option_to_list key) }
{
    match key {
        Some(found) => messages.try_remove(found.at as usize),
        None => None,
    }
}

/// The same, with a step for the look-up: one too where there is no key.
pub(crate) fn removed_counted<L: Ledger>(
    messages: &mut Slab<Message>,
    key: Option<Key>,
    steps: &mut Steps<L>,
) -> Option<Message>
    ensures value { result ≡ found_in messages.old key }
    ensures loses { Loses messages.old messages.new (option_to_list key) }
    ensures steps { steps.new ≡ steps.old + 1 }
{
    steps.tick();
    removed(messages, key)
}

/// Takes the messages of keys away.
pub(crate) fn forget(messages: &mut Slab<Message>, keys: &VecDeque<Key>)
    ensures { Loses messages.old messages.new keys.now.items }
{
    for number in 0..keys.len() {
        let key = keys[number];
        messages.try_remove(key.at as usize);
    }
}

/// Adds what the handles of the message of a key are of.
fn add_of(messages: &Slab<Message>, key: Key, into: &mut Vec<Thing>) -> Result<(), AllocError>
    ensures { OnOk result (into.new.items ≡ into.old.items ++ (message_of messages.now key).handles) }
{
    match messages.get(key.at as usize) {
        Some(message) => into.extend_from_slice(message.handles.as_slice()),
        None => Ok(()),
    }
}

/// Adds what the handles of the messages of keys, behind the first so many, are of, in order.
pub(crate) fn add_queued(
    messages: &Slab<Message>,
    keys: &VecDeque<Key>,
    skipped: usize,
    into: &mut Vec<Thing>,
) -> Result<(), AllocError>
    ensures { OnOk result (into.new.items ≡ into.old.items ++ handles_of (messages_of messages.now (drop skipped keys.now.items))) }
{
    for number in skipped..keys.len() {
        let key = keys[number];
        add_of(messages, key, into)?;
    }
    Ok(())
}
