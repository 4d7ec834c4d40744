//! Lists of things, and of pending endpoints.

ghost use Rattle.std.specs.Prelude.{◌∷◌, []};
ghost use Rattle.byte_rules.specs.Lang.{many, ◌▸◌};
ghost use Rattle.byte_rules.specs.Reading.{Gives};
ghost use Rattle.byte_rules.specs.steps.Reading.{with_front};
ghost use Rattle.line_parts.specs.Signs.{comma, closes};
ghost use Rattle.line_parts.specs.Ids.{thing, pending};
ghost use Rattle.line_parts.specs.Lists.{things, pendings};

use crate::ids::{pending, thing};
use bind_model::PendingId;
use byte_rules::{Stop, expect, is_next};
use handle_table::Thing;
use mj_base::Items;
use std::alloc::Global;

/// A comma and a thing.
fn next_thing(bytes: &[u8]) -> Result<(Thing, &[u8]), Stop>
    ensures { Gives (λ x. (x.0, x.1.now)) result ((comma ▸ thing).read bytes.now) }
{
    let rest = expect(bytes, b',')?;
    thing(rest)
}

/// Things, each after a comma, behind those of `items`, up to the bracket, and the bytes after it.
fn more_things(items: Vec<Thing>, bytes: &[u8]) -> Result<(Vec<Thing>, &[u8]), Stop>
    ensures { Gives (λ x. (x.0.items, x.1.now)) result (with_front (λ t. t ∷ []) items.items ((many closes (comma ▸ thing)).read bytes.now)) }
{
    let mut items = items;
    let mut rest = bytes;
    for _ in 0..bytes.len() {
        if is_next(rest, b']') {
            let rest = expect(rest, b']')?;
            return Ok((items, rest));
        }
        let (item, after) = next_thing(rest)?;
        items.push(item)?;
        rest = after;
    }
    let rest = expect(rest, b']')?;
    Ok((items, rest))
}

/// A list of things, and the bytes after it.
#[tactic(auto, unfolding(crate::specs::Lists::things), using(crate::proofs::ListReads::first_and_more))]
pub fn things(alloc: Global, bytes: &[u8]) -> Result<(Items<Thing>, &[u8]), Stop>
    ensures { Gives (λ x. (x.0, x.1.now)) result (things.read bytes.now) }
{
    let rest = expect(bytes, b'[')?;
    let mut items = Vec::new(alloc);
    if is_next(rest, b']') {
        let rest = expect(rest, b']')?;
        return Ok((Items::from_vec(items), rest));
    }
    let (first, rest) = thing(rest)?;
    items.push(first)?;
    let (items, rest) = more_things(items, rest)?;
    Ok((Items::from_vec(items), rest))
}

/// A comma and a pending endpoint.
fn next_pending(bytes: &[u8]) -> Result<(PendingId, &[u8]), Stop>
    ensures { Gives (λ x. (x.0, x.1.now)) result ((comma ▸ pending).read bytes.now) }
{
    let rest = expect(bytes, b',')?;
    pending(rest)
}

/// Pending endpoints, each after a comma, behind those of `items`, up to the bracket, and the bytes
/// after it.
fn more_pendings(items: Vec<PendingId>, bytes: &[u8]) -> Result<(Vec<PendingId>, &[u8]), Stop>
    ensures { Gives (λ x. (x.0.items, x.1.now)) result (with_front (λ t. t ∷ []) items.items ((many closes (comma ▸ pending)).read bytes.now)) }
{
    let mut items = items;
    let mut rest = bytes;
    for _ in 0..bytes.len() {
        if is_next(rest, b']') {
            let rest = expect(rest, b']')?;
            return Ok((items, rest));
        }
        let (item, after) = next_pending(rest)?;
        items.push(item)?;
        rest = after;
    }
    let rest = expect(rest, b']')?;
    Ok((items, rest))
}

/// A list of pending endpoints, and the bytes after it.
#[tactic(auto, unfolding(crate::specs::Lists::pendings), using(crate::proofs::ListReads::first_and_more))]
pub fn pendings(alloc: Global, bytes: &[u8]) -> Result<(Items<PendingId>, &[u8]), Stop>
    ensures { Gives (λ x. (x.0, x.1.now)) result (pendings.read bytes.now) }
{
    let rest = expect(bytes, b'[')?;
    let mut items = Vec::new(alloc);
    if is_next(rest, b']') {
        let rest = expect(rest, b']')?;
        return Ok((Items::from_vec(items), rest));
    }
    let (first, rest) = pending(rest)?;
    items.push(first)?;
    let (items, rest) = more_pendings(items, rest)?;
    Ok((Items::from_vec(items), rest))
}
