//! The words that a schema has.

ghost use Rattle.std.specs.Prelude.{◌≡◌, ◌==◌, ◌++◌, ◌∷◌, [], ◌<◌, ◌^◌, not, length, find, codes, IfOk, OnOk};
ghost use Rattle.std.specs.List.{flat_map, list_all};
ghost use Rattle.std.specs.Option.{option_copied};
ghost use Rattle.std.specs.Str.{bytes_eq};
ghost use Rattle.wire_model.specs.Expected.{struct_of};
ghost use Rattle.byte_rules.specs.Among.{among};
ghost use Rattle.byte_rules.specs.Reading.{Gives};
ghost use Rattle.line_parts.specs.Signs.{blank};
ghost use Rattle.line_parts.specs.Names.{is_word, that_are_words, interfaces_from, message_in, messages_from, names_of};
ghost use Rattle.line_parts.specs.Names.{meaning, texts, named};

use byte_rules::{Stop, nearer};
use mj_base::Items;
use mj_schema::{InterfaceRow, MethodRow, Schema};
use std::alloc::{AllocError, Global};
use wire_model::{MessageSide, Target};

/// A message of a method: what it is for, and the number of the struct of its parameters.
#[derive(Clone, Copy)]
pub struct Message {
    pub target: Target,
    pub parameters: u32,
}

/// A word, and what it names.
#[derive(Drop)]
pub struct Entry<T> {
    pub text: Items<u8>,
    pub value: T,
}

/// The words of the interfaces of a schema, and those of the messages of their methods.
#[derive(Drop)]
pub struct Names {
    pub interfaces: Items<Entry<u32>>,
    pub requests: Items<Entry<Message>>,
    pub responses: Items<Entry<Message>>,
}

/// Whether the text has no blank.
fn has_no_blank(text: &[u8]) -> bool
    ensures { result ≡ list_all (λ c. not (c == blank)) text.now }
{
    text.iter().all(|byte| *byte != b' ')
}

/// Whether the text is some bytes without a blank.
fn is_word(text: &[u8]) -> bool
    ensures { result ≡ is_word text.now }
{
    match text.split_first() {
        None => false,
        Some((first, rest)) => *first != b' ' && has_no_blank(rest),
    }
}

/// Adds what a text names, where the text is a word.
fn push_word<T: Copy>(words: &mut Vec<Entry<T>>, text: Vec<u8>, value: T) -> Result<(), AllocError>
    ensures { OnOk result (words.new.items ≡ words.old.items ++ that_are_words (record { text = text.items; value = value } ∷ [])) }
{
    if is_word(text.as_slice()) {
        let text = Items::from_vec(text);
        words.push(Entry { text, value })?;
    }
    Ok(())
}

/// The words of interfaces, by their numbers.
fn interface_words(alloc: Global, rows: &[InterfaceRow]) -> Result<Vec<Entry<u32>>, AllocError>
    requires { length rows.now < 2 ^ 32 }
    ensures { IfOk result (λ words. words.items ≡ that_are_words (interfaces_from 0 rows.now)) }
{
    let mut words = Vec::new(alloc);
    for (number, row) in rows.iter().enumerate() {
        let full = row.name.full(alloc)?;
        let text = Vec::from_slice(alloc, full.as_str().as_bytes())?;
        push_word(&mut words, text, number as u32)?;
    }
    Ok(words)
}

/// The number of the struct that a method has for a side.
fn struct_of(side: MessageSide, method: &MethodRow) -> Option<u32>
    ensures { result ≡ struct_of side method.now }
{
    match side {
        MessageSide::Request => Some(method.request),
        MessageSide::Response => method.response,
    }
}

/// An interface's name, a dot and a method's name.
fn message_text(alloc: Global, interface: &[u8], method: &[u8]) -> Result<Vec<u8>, AllocError>
    ensures { IfOk result (λ text. text.items ≡ interface.now ++ (codes "." ++ method.now)) }
{
    let mut text = Vec::from_slice(alloc, interface)?;
    text.push(b'.')?;
    text.extend_from_slice(method)?;
    Ok(text)
}

/// Adds the word of a message of a method, where the method has this side.
fn push_message(
    alloc: Global,
    words: &mut Vec<Entry<Message>>,
    side: MessageSide,
    interface: u32,
    name: &[u8],
    method: &MethodRow,
) -> Result<(), AllocError>
    ensures { OnOk result (words.new.items ≡ words.old.items
        ++ that_are_words (message_in side interface name.now method.now (struct_of side method.now))) }
{
    let Some(parameters) = struct_of(side, method) else {
        return Ok(());
    };
    let target = Target {
        interface,
        method: method.ordinal,
        side,
    };
    let text = message_text(alloc, name, method.name.as_str().as_bytes())?;
    push_word(words, text, Message { target, parameters })
}

/// Adds the words of the messages of this side of the methods of an interface.
fn push_messages(
    alloc: Global,
    words: &mut Vec<Entry<Message>>,
    side: MessageSide,
    interface: u32,
    row: &InterfaceRow,
) -> Result<(), AllocError>
    ensures { OnOk result (words.new.items ≡ words.old.items
        ++ that_are_words (flat_map (λ method. message_in side interface row.now.name method (struct_of side method)) row.now.methods)) }
{
    let full = row.name.full(alloc)?;
    let name = full.as_str().as_bytes();
    for method in row.methods.as_slice() {
        push_message(alloc, words, side, interface, name, method)?;
    }
    Ok(())
}

/// The words of the messages of this side.
fn message_words(
    alloc: Global,
    side: MessageSide,
    rows: &[InterfaceRow],
) -> Result<Vec<Entry<Message>>, AllocError>
    requires { length rows.now < 2 ^ 32 }
    ensures { IfOk result (λ words. words.items ≡ that_are_words (messages_from side 0 rows.now)) }
{
    let mut words = Vec::new(alloc);
    for (number, row) in rows.iter().enumerate() {
        push_messages(alloc, &mut words, side, number as u32, row)?;
    }
    Ok(words)
}

/// All words of a schema.
pub fn names_of(alloc: Global, schema: &Schema) -> Result<Names, AllocError>
    ensures { IfOk result (λ names. names ≡ names_of schema.now) }
{
    let rows = schema.interfaces.as_slice();
    let interfaces = interface_words(alloc, rows)?;
    let requests = message_words(alloc, MessageSide::Request, rows)?;
    let responses = message_words(alloc, MessageSide::Response, rows)?;
    Ok(Names {
        interfaces: Items::from_vec(interfaces),
        requests: Items::from_vec(requests),
        responses: Items::from_vec(responses),
    })
}

/// The word of one of the entries that the bytes begin with, and the bytes after it.
fn text_of<'a, T>(entries: &[Entry<T>], bytes: &'a [u8]) -> Result<(&'a [u8], &'a [u8]), Stop>
    ensures { Gives (λ x. (x.0.now, x.1.now)) result ((among [] (λ text. text) (texts entries.now)).read bytes.now) }
{
    let mut near = (0, None);
    for entry in entries {
        near = nearer(near, (), entry.text.as_slice(), bytes);
    }
    match near.1 {
        Some(()) => Ok((&bytes[..near.0], &bytes[near.0..])),
        None => Err(Stop::Left(bytes.len() - near.0)),
    }
}

/// The first entry with this word.
fn entry_of<'a, T>(entries: &'a [Entry<T>], text: &[u8]) -> Option<&'a Entry<T>>
    ensures { option_copied result ≡ find (λ entry. bytes_eq entry.text text.now) entries.now }
{
    entries.iter().find(|entry| entry.text.as_slice() == text)
}

/// What a word means: of two entries with one word the first.
fn meaning<T: Copy>(entries: &[Entry<T>], text: &[u8]) -> Option<T>
    ensures { result ≡ meaning entries.now text.now }
{
    let entry = entry_of(entries, text)?;
    Some(entry.value)
}

/// What the word means that the bytes begin with, and the bytes after it.
pub fn named<'a, T: Copy>(
    entries: &[Entry<T>],
    bytes: &'a [u8],
) -> Result<(Option<T>, &'a [u8]), Stop>
    ensures { Gives (λ x. (x.0, x.1.now)) result ((named entries.now).read bytes.now) }
{
    let (text, rest) = text_of(entries, bytes)?;
    Ok((meaning(entries, text), rest))
}

impl Names {
    ghost use Rattle.std.specs.Prelude.{◌≡◌};
    ghost use Rattle.byte_rules.specs.Reading.{Gives};
    ghost use Rattle.line_parts.specs.Names.{messages_of, interface};

    /// The words of the messages of a side.
    pub fn messages(&self, side: MessageSide) -> &[Entry<Message>]
        ensures { result.now ≡ messages_of self.now side }
    {
        match side {
            MessageSide::Request => self.requests.as_slice(),
            MessageSide::Response => self.responses.as_slice(),
        }
    }

    /// The number of the interface whose name the bytes begin with, and the bytes after it.
    pub fn interface<'a>(&self, bytes: &'a [u8]) -> Result<(u32, &'a [u8]), Stop>
        ensures { Gives (λ x. (x.0, x.1.now)) result ((interface self.now).read bytes.now) }
    {
        let (found, rest) = named(self.interfaces.as_slice(), bytes)?;
        Ok((found.unwrap_or(0), rest))
    }
}
