//! The interfaces and methods that words name.

ghost use Rattle.std.specs.Prelude.{◌≡◌, ◌<◌, true, false, length, option_map};
ghost use Rattle.std.specs.Option.{option_copied};
ghost use Rattle.std.specs.Str.{IsAscii};
ghost use Rattle.wire_encoder.specs.Prepared.{parameters_of};
ghost use Rattle.call_script.specs.Targets.{methods_of, method_named, target_in, target_named, message_named};
ghost use Rattle.call_script.specs.Targets.{later_dot, last_dot, split_word, target_between};
ghost use Rattle.script_words.specs.Letters.{is_method_word};
ghost use Rattle.call_script.specs.steps.Interfaces.{IsIndexed};
ghost use Rattle.mj_schema.specs.KindTrees.{StructKind};

use crate::indexed_schema::{IndexedSchema, interface_named};
use mj_schema::{Kind, KindNode, MethodRow, Schema};
use wire_model::{MessageSide, Target};

/// The kind of the parameters of a struct's number.
pub fn parameters_kind(number: u32) -> Kind
    ensures { result ≡ StructKind number false }
{
    Kind::new(KindNode::Struct {
        number,
        nullable: false,
    })
}

/// The methods of the interface of a number.
fn methods_of(schema: &Schema, interface: u32) -> &[MethodRow]
    ensures { result.now ≡ methods_of schema.now interface }
{
    match schema.interfaces.as_slice().get(interface as usize) {
        Some(row) => row.methods.as_slice(),
        None => &[],
    }
}

/// The method of a name among these.
fn method_named<'a>(methods: &'a [MethodRow], name: &[u8]) -> Option<&'a MethodRow>
    ensures { option_copied result ≡ method_named methods.now name.now }
{
    methods
        .iter()
        .find(|method| method.name.as_str().as_bytes() == name)
}

/// A message of the method of a name in the interface of a number.
pub fn target_in(schema: &Schema, side: MessageSide, name: &[u8], interface: u32) -> Option<Target>
    ensures { result ≡ target_in schema.now side name.now interface }
{
    let method = method_named(methods_of(schema, interface), name)?;
    Some(Target {
        interface,
        method: method.ordinal,
        side,
    })
}

/// The place of the last dot, where one byte more is looked at.
fn later_dot(word: &[u8], place: usize, before: Option<usize>) -> Option<usize>
    requires { place < length word.now }
    ensures { result ≡ later_dot word.now place before }
{
    if word[place] == b'.' {
        Some(place)
    } else {
        before
    }
}

/// The place of the last dot of a word.
#[tactic(auto, using(crate::proofs::Dots::dot_more))]
fn last_dot(word: &[u8]) -> Option<usize>
    ensures { result ≡ last_dot word.now (length word.now) }
{
    let mut last = None;
    for place in 0..word.len() {
        last = later_dot(word, place, last);
    }
    last
}

/// All before the last dot of a word, and the rest.
#[tactic(auto, using(crate::proofs::Dots::dot_within))]
pub fn split_word(word: &[u8]) -> Option<(&[u8], &[u8])>
    ensures { option_map (λ parts. (parts.0.now, parts.1.now)) result ≡ split_word word.now }
{
    match last_dot(word) {
        Some(place) => Some((&word[..place], &word[place + 1..])),
        None => None,
    }
}

/// A message of the method of a name in the interface of a full name.
fn target_between(
    indexed: &IndexedSchema,
    side: MessageSide,
    interface: &[u8],
    method: &[u8],
) -> Option<Target>
    requires indexed { IsIndexed indexed.now }
    requires text { IsAscii interface.now }
    ensures { result ≡ target_between indexed.now.schema.now side (interface.now, method.now) }
{
    let number = interface_named(indexed, interface)?;
    target_in(indexed.schema, side, method, number)
}

/// What a word names: the interface is all before its last dot, the method the rest.
#[tactic(auto, using(crate::proofs::Dots::target_is, crate::proofs::Dots::no_target))]
fn target_named(indexed: &IndexedSchema, side: MessageSide, word: &[u8]) -> Option<Target>
    requires indexed { IsIndexed indexed.now }
    requires word { is_method_word word.now ≡ true }
    ensures { result ≡ target_named indexed.now.schema.now side word.now }
{
    match split_word(word) {
        Some((interface, method)) => target_between(indexed, side, interface, method),
        None => None,
    }
}

/// The number of the struct of a target's parameters.
pub fn parameters_of(schema: &Schema, target: Target) -> Option<u32>
    ensures { result ≡ parameters_of schema.now target }
{
    let method = schema.method(target.interface, target.method)?;
    match target.side {
        MessageSide::Request => Some(method.request),
        MessageSide::Response => method.response,
    }
}

/// The message that a word names, with the number of the struct of its parameters.
pub(crate) fn message_named(
    indexed: &IndexedSchema,
    side: MessageSide,
    word: &[u8],
) -> Option<(Target, u32)>
    requires indexed { IsIndexed indexed.now }
    requires word { is_method_word word.now ≡ true }
    ensures { result ≡ message_named indexed.now.schema.now side word.now }
{
    let target = target_named(indexed, side, word)?;
    let number = parameters_of(indexed.schema, target)?;
    Some((target, number))
}
