//! Words that stand in several lines.

ghost use Rattle.std.specs.Prelude.{◌≡◌, ◌&&◌, map};
ghost use Rattle.script_words.specs.Letters.{is_name, are_names};
ghost use Rattle.script_forms.specs.steps.Sayings.{SpellsSide, SpellsSort};

use handle_table::TokenSort;
use script_words::{are_names, is_name};
use wire_encoder::EndpointSide;

/// The sort of a token.
pub(crate) fn sort_of(word: &[u8]) -> Option<TokenSort>
    ensures { SpellsSort word.now result }
{
    if word == b"shared_buffer".as_slice() {
        Some(TokenSort::SharedBuffer)
    } else if word == b"platform".as_slice() {
        Some(TokenSort::Platform)
    } else {
        None
    }
}

/// A side of an endpoint.
pub(crate) fn side_of(word: &[u8]) -> Option<EndpointSide>
    ensures { SpellsSide word.now result }
{
    if word == b"remote".as_slice() {
        Some(EndpointSide::Remote)
    } else if word == b"receiver".as_slice() {
        Some(EndpointSide::Receiver)
    } else {
        None
    }
}

/// Whether both words are names.
pub(crate) fn are_two_names(first: &[u8], second: &[u8]) -> bool
    ensures { result ≡ (is_name first.now && is_name second.now) }
{
    is_name(first) && is_name(second)
}

/// Whether the word and all the others are names.
pub(crate) fn is_named_list(first: &[u8], rest: &[&[u8]]) -> bool
    ensures { result ≡ (is_name first.now && are_names (map (λ word. word.now) rest.now)) }
{
    is_name(first) && are_names(rest)
}
