//! The interface and the method that words name.

ghost use Rattle.std.specs.Prelude.{◌≡◌};
ghost use Rattle.call_script.specs.Targets.{target_named, message_named, target_between};
ghost use Rattle.mojo_tool.specs.Targets.{side_of};

use call_script::{parameters_of, split_word, target_in};
use command_line::Side;
use mj_schema::Schema;
use wire_model::{MessageSide, Target};

/// Which message of a method the words mean.
pub fn side_of(side: Side) -> MessageSide
    ensures { result ≡ side_of side }
{
    match side {
        Side::Request => MessageSide::Request,
        Side::Response => MessageSide::Response,
    }
}

/// A message of the method of a name in the interface of a full name.
fn target_between(
    schema: &Schema,
    side: MessageSide,
    interface: &[u8],
    method: &[u8],
) -> Option<Target>
    ensures { result ≡ target_between schema.now side (interface.now, method.now) }
{
    let number = schema.find_interface_of(interface)?;
    target_in(schema, side, method, number)
}

/// What a word names: the interface is all before its last dot, the method the rest.
#[tactic(auto, using(call_script::proofs::Dots::target_is, call_script::proofs::Dots::no_target))]
fn target_named(schema: &Schema, side: MessageSide, word: &str) -> Option<Target>
    ensures { result ≡ target_named schema.now side word.now }
{
    match split_word(word.as_bytes()) {
        Some((interface, method)) => target_between(schema, side, interface, method),
        None => None,
    }
}

/// The message that a word names, with the number of the struct of its parameters.
pub fn message_named(schema: &Schema, side: MessageSide, word: &str) -> Option<(Target, u32)>
    ensures { result ≡ message_named schema.now side word.now }
{
    let target = target_named(schema, side, word)?;
    let number = parameters_of(schema, target)?;
    Some((target, number))
}
