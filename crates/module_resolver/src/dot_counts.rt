//! How many dots the fronts of a name have.

ghost use Rattle.std.specs.Prelude.{◌≡◌, reverse, map, IfOk};
ghost use Rattle.module_resolver.specs.NamesOf.{texts_from, fronts_of};
ghost use Rattle.module_resolver.specs.steps.Cuts.{Falls};
ghost use Rattle.module_resolver.specs.NameDots.{dots_in};

use crate::dots::{count_within, dots_in};
use crate::fronts::reversed;
use mojom_ast::Identifier;
use std::alloc::{AllocError, Global};

/// How many dots a name has after each of its parts, the shortest front first.
fn dots_from(
    alloc: Global,
    first: &Identifier,
    rest: &[Identifier],
) -> Result<Vec<usize>, AllocError>
    ensures are { IfOk result (λ dots. map dots_in (texts_from first.now.text rest.now) ≡ dots.items) }
    ensures falls { IfOk result (λ dots. Falls (reverse dots.items)) }
{
    let mut count = dots_in(first.text.as_str());
    let mut dots = Vec::new(alloc);
    for part in rest {
        dots.push(count)?;
        count = count_within(count, dots_in(part.text.as_str()))?;
    }
    dots.push(count)?;
    Ok(dots)
}

/// How many dots the fronts of the name with these parts have, the longest first.
pub(crate) fn front_dots(alloc: Global, parts: &[Identifier]) -> Result<Vec<usize>, AllocError>
    ensures are { IfOk result (λ dots. map dots_in (fronts_of parts.now) ≡ dots.items) }
    ensures falls { IfOk result (λ dots. Falls dots.items) }
{
    let [first, rest @ ..] = parts else {
        return Ok(Vec::new(alloc));
    };
    let dots = dots_from(alloc, first, rest)?;
    Ok(reversed(dots))
}
