//! Handles and then pending endpoints, in one list.

ghost use Rattle.std.specs.Prelude.{◌≡◌, ◌++◌, OnOk};
ghost use Rattle.byte_rules.specs.Lang.{◌▸◌};
ghost use Rattle.byte_rules.specs.Reading.{Gives};
ghost use Rattle.line_parts.specs.Signs.{comma};
ghost use Rattle.line_parts.specs.Lists.{is_pending, item, handle_in, pending_in, more_items, tokens};
ghost use Rattle.line_parts.specs.steps.Reading.{with_items};

use crate::ids::{pending, thing};
use bind_model::PendingId;
use byte_rules::{Stop, expect, is_next};
use handle_table::Thing;
use std::alloc::{AllocError, Global};

/// A handle or a pending endpoint.
#[derive(Clone, Copy)]
pub enum Item {
    Handle(Thing),
    Pending(PendingId),
}

/// The handles and the pending endpoints of a list.
#[derive(Drop)]
pub struct Listed {
    pub handles: Vec<Thing>,
    pub pendings: Vec<PendingId>,
}

/// Whether the item is a pending endpoint.
fn is_pending(item: Item) -> bool
    ensures { result ≡ is_pending item }
{
    match item {
        Item::Handle(_) => false,
        Item::Pending(_) => true,
    }
}

/// Adds an item.
fn push(tokens: &mut Listed, item: Item) -> Result<(), AllocError>
    ensures handles { OnOk result (tokens.new.handles.items ≡ tokens.old.handles.items ++ handle_in item) }
    ensures pendings { OnOk result (tokens.new.pendings.items ≡ tokens.old.pendings.items ++ pending_in item) }
{
    match item {
        Item::Handle(thing) => tokens.handles.push(thing)?,
        Item::Pending(pending) => tokens.pendings.push(pending)?,
    }
    Ok(())
}

/// A pending endpoint, or a handle where none was seen, and the bytes after it.
#[tactic(auto, unfolding(crate::specs::Lists::item), using(crate::proofs::ItemReads::item_pending, crate::proofs::ItemReads::item_handle))]
fn handle_or_pending(seen: bool, bytes: &[u8]) -> Result<(Item, &[u8]), Stop>
    ensures { Gives (λ x. (x.0, x.1.now)) result ((item seen).read bytes.now) }
{
    if seen || is_next(bytes, b'p') {
        let (pending, rest) = pending(bytes)?;
        return Ok((Item::Pending(pending), rest));
    }
    let (thing, rest) = thing(bytes)?;
    Ok((Item::Handle(thing), rest))
}

/// A comma and an item.
fn next_item(seen: bool, bytes: &[u8]) -> Result<(Item, &[u8]), Stop>
    ensures { Gives (λ x. (x.0, x.1.now)) result ((comma ▸ item seen).read bytes.now) }
{
    let rest = expect(bytes, b',')?;
    handle_or_pending(seen, rest)
}

/// Items, each after a comma, behind those of `tokens`, up to the bracket, and the bytes after it.
fn more_items(seen: bool, tokens: Listed, bytes: &[u8]) -> Result<(Listed, &[u8]), Stop>
    ensures { Gives (λ x. ((x.0.handles.items, x.0.pendings.items), x.1.now)) result
        (with_items (tokens.handles.items, tokens.pendings.items) ((more_items seen).read bytes.now)) }
{
    let mut seen = seen;
    let mut tokens = tokens;
    let mut rest = bytes;
    for _ in 0..bytes.len() {
        if is_next(rest, b']') {
            let rest = expect(rest, b']')?;
            return Ok((tokens, rest));
        }
        let (item, after) = next_item(seen, rest)?;
        push(&mut tokens, item)?;
        seen = is_pending(item);
        rest = after;
    }
    let rest = expect(rest, b']')?;
    Ok((tokens, rest))
}

/// A list of handles and then pending endpoints, and the bytes after it.
#[tactic(auto, unfolding(crate::specs::Lists::tokens), using(crate::proofs::ItemReads::first_item))]
pub fn tokens(alloc: Global, bytes: &[u8]) -> Result<(Listed, &[u8]), Stop>
    ensures { Gives (λ x. ((x.0.handles.items, x.0.pendings.items), x.1.now)) result (tokens.read bytes.now) }
{
    let rest = expect(bytes, b'[')?;
    let mut tokens = Listed {
        handles: Vec::new(alloc),
        pendings: Vec::new(alloc),
    };
    if is_next(rest, b']') {
        let rest = expect(rest, b']')?;
        return Ok((tokens, rest));
    }
    let (first, rest) = handle_or_pending(false, rest)?;
    push(&mut tokens, first)?;
    more_items(is_pending(first), tokens, rest)
}
