//! Controls that are written from an end, and what waits for them.

ghost use Rattle.std.specs.Prelude.{IfOk, map, codes};
ghost use Rattle.script_forms.specs.steps.Sayings.{SpellsSaid};

use crate::form::Said;
use crate::numbers::{endpoint, number};
use crate::parts::are_two_names;
use bind_model::Notice;
use script_words::{is_name, one_word, three_words, two_words};
use std::alloc::{AllocError, Global};

/// What stands behind `query`.
pub(crate) fn query_of<'w, 'a>(
    alloc: Global,
    words: &'w [&'a [u8]],
) -> Result<Option<Said<'w, 'a>>, AllocError>
    ensures { IfOk result (λ found. SpellsSaid (codes "query") (map (λ word. word.now) words.now) found) }
{
    let Some(word) = one_word(words) else {
        return Ok(None);
    };
    match endpoint(alloc, word)? {
        Some(at) => Ok(Some(Said::Notify(at.name, Notice::Query(at.id)))),
        None => Ok(None),
    }
}

/// What stands behind `require`.
pub(crate) fn require_of<'w, 'a>(
    alloc: Global,
    words: &'w [&'a [u8]],
) -> Result<Option<Said<'w, 'a>>, AllocError>
    ensures { IfOk result (λ found. SpellsSaid (codes "require") (map (λ word. word.now) words.now) found) }
{
    let Some((word, digits)) = two_words(words) else {
        return Ok(None);
    };
    let Some(at) = endpoint(alloc, word)? else {
        return Ok(None);
    };
    match number(alloc, digits)? {
        Some(version) => Ok(Some(Said::Notify(at.name, Notice::Require(at.id, version)))),
        None => Ok(None),
    }
}

/// What stands behind `flush`.
pub(crate) fn flush_of<'w, 'a>(words: &'w [&'a [u8]]) -> Option<Said<'w, 'a>>
    ensures { SpellsSaid (codes "flush") (map (λ word. word.now) words.now) result }
{
    let Some(end) = one_word(words) else {
        return None;
    };
    if is_name(end) {
        Some(Said::Notify(end, Notice::Flush))
    } else {
        None
    }
}

/// What stands behind `pause`.
pub(crate) fn pause_of<'w, 'a>(
    alloc: Global,
    words: &'w [&'a [u8]],
) -> Result<Option<Said<'w, 'a>>, AllocError>
    ensures { IfOk result (λ found. SpellsSaid (codes "pause") (map (λ word. word.now) words.now) found) }
{
    let Some((end, other, digits)) = three_words(words) else {
        return Ok(None);
    };
    if !are_two_names(end, other) {
        return Ok(None);
    }
    match number(alloc, digits)? {
        Some(flush) => Ok(Some(Said::Pause(end, other, flush))),
        None => Ok(None),
    }
}
