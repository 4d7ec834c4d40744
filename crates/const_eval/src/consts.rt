//! What constants and enumerators mean, and what values are.

use crate::file_things::{FileThings, thing_of};
use const_meanings::{KnownView, Meaning, Origin, known_with, signed};
use mj_base::Items;
use module_resolver::{Place, Target};
use mojom_ast::Value;
use mojom_files::dotted;
use std::alloc::{AllocError, Global};

/// What each constant and enumerator of files means. Things, which are the definitions and the
/// enumerators, go by number over the files in the order given.
#[derive(Drop)]
pub struct Consts {
    /// Where the things of each file stand.
    pub files: Items<FileThings>,
    /// Where the value of each thing comes from.
    pub origins: Items<Origin>,
    /// What each thing means.
    pub meanings: Items<Meaning>,
}

impl Consts {
    ghost use Rattle.std.specs.Prelude.{◌≡◌, IfOk};
    ghost use Rattle.std.specs.Option.{option_map};
    ghost use Rattle.const_meanings.specs.Known.{known_view};
    ghost use Rattle.const_eval.specs.Consts.{value_at, is_circular, value_of_target, value_in};

    /// What the thing of this number is; none exactly where it has no value.
    pub fn value_at(&self, thing: usize) -> Option<KnownView<'_>>
        ensures { option_map known_view result ≡ value_at self.now thing }
    {
        let Meaning::Value { last, more } = *self.meanings.as_slice().get(thing)? else {
            return None;
        };
        let Origin::Written(literal) = self.origins.as_slice().get(last)? else {
            return None;
        };
        known_with(literal, more)
    }

    /// Whether the thing of this number needs itself.
    pub fn is_circular(&self, thing: usize) -> bool
        ensures { result ≡ is_circular self.now thing }
    {
        matches!(self.meanings.as_slice().get(thing), Some(Meaning::Circular))
    }

    /// What a name is that means this; none exactly where that has no value.
    pub fn value_of_target(&self, target: Target) -> Option<KnownView<'_>>
        ensures { option_map known_view result ≡ value_of_target self.now target }
    {
        self.value_at(thing_of(self.files.as_slice(), target)?)
    }

    /// What a value is that stands here: a literal is itself, and a name what it means. None exactly for a
    /// name that has no value.
    pub fn value_of<'a>(
        &'a self,
        alloc: Global,
        place: &Place<'_>,
        value: &'a Value,
    ) -> Result<Option<KnownView<'a>>, AllocError>
        ensures { IfOk result (λ found. option_map known_view found ≡ value_in self.now place.now.files place.now.file place.now.enclosing value.now) }
    {
        match value {
            Value::String(written) => Ok(Some(KnownView::Text(written.bytes.as_slice()))),
            Value::Bool { value, .. } => Ok(Some(KnownView::Bool(*value))),
            Value::Number {
                negative,
                magnitude,
                ..
            } => Ok(Some(KnownView::Number(signed(*negative, *magnitude)))),
            Value::Name(name) => {
                let text = dotted(alloc, name.parts.as_slice())?;
                match place.look_up(text.as_str()) {
                    Some(target) => Ok(self.value_of_target(target)),
                    None => Ok(None),
                }
            }
        }
    }
}
