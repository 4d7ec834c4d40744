//! Raw bytes: a message that nothing is known of, from an end that isn't bound.

ghost use Rattle.std.specs.Prelude.{◌≡◌, false, Ok, IfOk, OnOk};
ghost use Rattle.bind_model.specs.declared.asked.Asked.TheVariants as asks;
ghost use Rattle.core_sending.specs.steps.Raw.{all_out_with, raw_way, raw_way_from};
ghost use Rattle.core_state.specs.Doing.{HasRoom};
ghost use Rattle.event_tables.specs.AsCore.{Steps, state_of};

use crate::carrying::put_all;
use crate::looks::{all_out, is_out};
use crate::tables::{EventTables, refuse};
use crate::ways::{put_message, way_to};
use bind_model::limits::{MAX_RAW_BYTES, MAX_RAW_HANDLES};
use bind_model::{Asked, Event, Told, Why};
use core_sending::raw::{end_written, message_of};
use core_state::contains;
use handle_table::{Place, Thing};
use message_pipe::ThingPipes;
use mj_base::{EndId, Items, SeqId};
use std::alloc::{AllocError, Global};

/// Whether somebody has a thing and all others, and none stands twice.
fn all_out_with(
    alloc: Global,
    pipes: &ThingPipes,
    thing: Thing,
    things: &[Thing],
) -> Result<bool, AllocError>
    ensures { IfOk result (λ own. own ≡ all_out_with pipes.now thing things.now) }
{
    if !is_out(pipes, thing) || contains(things, thing) {
        return Ok(false);
    }
    all_out(alloc, pipes, things)
}

/// The end that so many bytes go to from a thing, or why they aren't written.
fn way_from(
    tables: &EventTables,
    thing: Thing,
    bytes: usize,
    things: &[Thing],
) -> Result<EndId, Why>
    ensures { result ≡ raw_way_from thing bytes things.now tables.now.pipes tables.now.tables.flows }
{
    let end = match thing {
        Thing::End(end) => end,
        Thing::Token(_) => return Err(Why::NotPipe),
    };
    if bytes as u64 > MAX_RAW_BYTES {
        return Err(Why::TooLong);
    }
    if things.len() > MAX_RAW_HANDLES {
        return Err(Why::TooManyHandles);
    }
    way_to(&tables.pipes, &tables.tables.flows, end, false, things)
}

/// The end that raw bytes go to, or why they aren't written. It is told whether somebody has all things.
fn way(
    tables: &EventTables,
    thing: Thing,
    bytes: &Items<u8>,
    things: &[Thing],
    own: bool,
) -> Result<EndId, Why>
    ensures { result ≡ raw_way thing bytes.now things.now own tables.now.pipes tables.now.tables.flows }
{
    if !own {
        return Err(Why::NoName);
    }
    way_from(tables, thing, bytes.len(), things)
}

/// Writes bytes from an end that isn't bound, as they are, or notes why they aren't written.
pub fn raw(
    tables: &mut EventTables,
    alloc: Global,
    seq: SeqId,
    thing: Thing,
    bytes: Items<u8>,
    things: Items<Thing>,
) -> Result<(), AllocError>
    requires { HasRoom (state_of tables.old) seq }
    ensures { OnOk result (Steps tables.old tables.new seq (asks.Raw thing bytes things)) }
{
    let own = all_out_with(alloc, &tables.pipes, thing, things.as_slice())?;
    match way(tables, thing, &bytes, things.as_slice(), own) {
        Ok(peer) => write(tables, alloc, seq, thing, bytes, things, peer),
        Err(why) => {
            refuse(tables, seq, Asked::Raw(thing, bytes, things), why);
            Ok(())
        }
    }
}

/// Writes raw bytes that nothing refuses.
fn write(
    tables: &mut EventTables,
    alloc: Global,
    seq: SeqId,
    thing: Thing,
    bytes: Items<u8>,
    things: Items<Thing>,
    peer: EndId,
) -> Result<(), AllocError>
    requires able { HasRoom (state_of tables.old) seq }
    requires free { raw_way thing bytes things (all_out_with tables.old.pipes thing things) tables.old.pipes tables.old.tables.flows ≡ Ok peer }
    ensures { OnOk result (Steps tables.old tables.new seq (asks.Raw thing bytes things)) }
{
    let message = message_of(alloc, &bytes, &things)?;
    put_message(&mut tables.pipes, peer, message)?;
    put_all(&mut tables.pipes, things.as_slice(), Place::Unread(peer));
    tables.log.push_reserved(Event {
        seq,
        asked: Asked::Raw(thing, bytes, things),
        told: Told::Wrote(end_written(thing)),
    });
    Ok(())
}
