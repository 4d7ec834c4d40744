//! The fronts of a module's name.

ghost use Rattle.std.specs.Prelude.{◌≡◌, reverse};

use crate::dot_counts::front_dots;
use mojom_ast::Identifier;
use std::alloc::{AllocError, Global};
use std::marker::Model;

/// The text of a name and of each shorter front of it, the longest first: the text itself, where in it
/// each of them ends, and how many dots each of them has.
#[derive(Drop)]
pub struct Fronts {
    whole: String,
    ends: Vec<usize>,
    dots: Vec<usize>,
}

/// These, the last first.
pub(crate) fn reversed<T>(mut items: Vec<T>) -> Vec<T>
    ensures { result.items ≡ reverse items.items }
{
    items.as_mut_slice().reverse();
    items
}

impl Model for Fronts {
    ghost use Rattle.std.specs.Prelude.{List, ℕ, string_bytes};
    ghost use Rattle.module_resolver.specs.steps.Cuts.{cut_at, AreFronts};

    ghost Value = { List (List ℕ) };

    ghost view = { λ f. cut_at (string_bytes f.whole) f.ends.items };

    ghost invariant = { λ f. AreFronts (string_bytes f.whole) f.ends.items f.dots.items };
}

impl Fronts {
    ghost use Rattle.std.specs.Prelude.{◌≡◌, ◌<◌, ◌≤◌, ℕ, [], length, get_or, IfOk};
    ghost use Rattle.module_resolver.specs.NamesOf.{fronts_of};
    ghost use Rattle.module_resolver.specs.NameDots.{dots_in};

    /// No fronts. Takes no memory.
    pub(crate) fn none(alloc: Global) -> Fronts
        ensures { result ≡ [] }
    {
        Fronts {
            whole: String::new(alloc),
            ends: Vec::new(alloc),
            dots: Vec::new(alloc),
        }
    }

    /// The fronts of the name with these parts.
    pub(crate) fn new(alloc: Global, parts: &[Identifier]) -> Result<Fronts, AllocError>
        ensures { IfOk result (λ fronts. fronts ≡ fronts_of parts.now) }
    {
        let [first, rest @ ..] = parts else {
            return Ok(Fronts::none(alloc));
        };
        let mut whole = String::from_str(alloc, first.text.as_str())?;
        let mut ends = Vec::new(alloc);
        for part in rest {
            ends.push(whole.as_str().len())?;
            whole.push_str(".")?;
            whole.push_str(part.text.as_str())?;
        }
        ends.push(whole.as_str().len())?;
        let dots = front_dots(alloc, parts)?;
        Ok(Fronts {
            whole,
            ends: reversed(ends),
            dots,
        })
    }

    /// The whole name; an empty text where there are no fronts. Look-ups are faster by it, and what they
    /// answer doesn't depend on it.
    pub(crate) fn whole(&self) -> &str {
        self.whole.as_str()
    }

    /// How many fronts there are.
    pub fn len(&self) -> usize
        ensures { result ≡ length self.now }
    {
        self.ends.len()
    }

    /// The front of this number.
    pub(crate) fn at(&self, number: usize) -> &str
        requires { number < length self.now }
        ensures { result.now ≡ get_or self.now number [] }
    {
        &self.whole.as_str()[..self.ends[number]]
    }

    /// How many dots the front of this number has; none behind it has more.
    pub(crate) fn dots_at(&self, number: usize) -> usize
        requires { number < length self.now }
        ensures { (k : ℕ) → number ≤ k → k < length self.now → dots_in (get_or self.now k []) ≤ result }
    {
        self.dots[number]
    }

    /// The number of the first front, from this number on, of at most so many dots; the number of all
    /// fronts where there is none.
    pub(crate) fn first_within(&self, number: usize, limit: usize) -> usize
        requires { number < length self.now }
        ensures from { number ≤ result }
        ensures bound { result ≤ length self.now }
        ensures before { (k : ℕ) → number ≤ k → k < result → limit < dots_in (get_or self.now k []) }
    {
        let mut low = number;
        let mut high = self.dots.len();
        while low < high {
            let middle = low + (high - low) / 2;
            if self.dots[middle] > limit {
                low = middle + 1;
            } else {
                high = middle;
            }
        }
        low
    }
}
