//! What a part is.

ghost use Rattle.std.specs.Prelude.{◌≡◌};
ghost use Rattle.std.specs.Option.{option_copied, option_map};

use crate::texts::Utf8;
use crate::view::View;

/// A part of an object, or a field that reads as its default.
#[derive(Clone, Copy)]
pub enum Part<'a> {
    Null,
    Bool(bool),
    /// An integer, or the number of a member of an enum.
    Whole(i128),
    Text(Utf8<'a>),
    /// A handle or a receiver, by its index among the message's handles.
    Handle(u32),
    /// A remote: its index among the message's handles, and its version.
    Remote { index: u32, version: u32 },
    /// A receiver of an associated endpoint, by its index among the header's ids.
    Endpoint(u32),
    /// A remote of an associated endpoint: its index among the header's ids, and its version.
    EndpointRemote { index: u32, version: u32 },
    /// A struct, an array, a map or a union.
    Object(View<'a>),
}

impl<'a> Part<'a> {
    ghost use Rattle.wire_view.specs.PartValues.{tree_in, object_in};
    ghost use Rattle.wire_view.specs.Parts.{number_of, version_of, text_of, held};
    ghost use Rattle.wire_view.specs.Strings.{bytes_in};
    ghost use Rattle.wire_view.specs.Views.{tree_of};

    /// The number that it is: a bool as 0 or 1, an integer, an enum or an index.
    #[tactic(auto, using(crate::proofs::ObjectFacts::no_number))]
    #[inline(always)]
    pub fn as_number(&self) -> Option<i128>
        ensures { result ≡ number_of (tree_in self.now) }
    {
        match self {
            Part::Bool(bool) => Some(i128::from(*bool)),
            Part::Whole(number) => Some(*number),
            Part::Handle(index) => Some(i128::from(*index)),
            Part::Remote { index, .. } => Some(i128::from(*index)),
            Part::Endpoint(index) => Some(i128::from(*index)),
            Part::EndpointRemote { index, .. } => Some(i128::from(*index)),
            Part::Null => None,
            Part::Text(_) => None,
            Part::Object(_) => None,
        }
    }

    /// The version of a remote.
    #[tactic(auto, using(crate::proofs::ObjectFacts::no_version))]
    #[inline(always)]
    pub fn as_version(&self) -> Option<u32>
        ensures { result ≡ version_of (tree_in self.now) }
    {
        match self {
            Part::Remote { version, .. } => Some(*version),
            Part::EndpointRemote { version, .. } => Some(*version),
            Part::Object(_) => None,
            _ => None,
        }
    }

    /// The string that it is.
    #[tactic(auto, using(crate::proofs::ObjectFacts::no_text))]
    #[inline(always)]
    pub fn as_text(&self) -> Option<&'a str>
        ensures { option_copied result ≡ text_of (tree_in self.now) }
    {
        match self {
            Part::Text(text) => Some(text.as_str()),
            Part::Object(_) => None,
            _ => None,
        }
    }

    /// The string that it is, where it lies.
    #[tactic(auto, using(crate::proofs::ObjectFacts::no_text))]
    #[inline(always)]
    pub fn as_string(&self) -> Option<Utf8<'a>>
        ensures { option_map bytes_in result ≡ text_of (tree_in self.now) }
    {
        match self {
            Part::Text(text) => Some(*text),
            Part::Object(_) => None,
            _ => None,
        }
    }

    /// The object that it is.
    #[tactic(auto, using(crate::proofs::ObjectFacts::is_held))]
    #[inline(always)]
    pub fn as_object(&self) -> Option<View<'a>>
        ensures value { option_map tree_of result ≡ held (tree_in self.now) }
        ensures same { result ≡ object_in self.now }
    {
        match self {
            Part::Object(view) => Some(*view),
            _ => None,
        }
    }
}
