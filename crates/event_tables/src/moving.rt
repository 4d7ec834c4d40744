//! Bytes that are moved at the tokens of data pipes.

ghost use Rattle.std.specs.Prelude.{◌≡◌, OnOk, Ok};
ghost use Rattle.bind_model.specs.declared.asked.Asked.TheVariants as asks;
ghost use Rattle.core_data.specs.steps.Moved.{with_bytes};
ghost use Rattle.core_data.specs.Spots.{is_shut_at, spot_in};
ghost use Rattle.core_state.specs.Agreement.{Holds};
ghost use Rattle.core_state.specs.Doing.{HasRoom};
ghost use Rattle.event_tables.specs.AsCore.{Steps, state_of};
ghost use Rattle.event_tables.specs.steps.Moving.{SaysWhy};

use crate::looks::is_out;
use crate::tables::{EventTables, refuse};
use bind_model::{Asked, Event, Flow, Flowed, Told, Why};
use core_data::{Spot, other_token, same_side, side_asked};
use data_pipe::DataRefused;
use handle_table::{Place, Thing, TokenId};
use message_pipe::ThingPipes;
use mj_base::{Items, SeqId};
use std::alloc::{AllocError, Global};

/// Whether a token is closed.
fn is_shut(pipes: &ThingPipes, token: TokenId) -> bool
    ensures { result ≡ is_shut_at pipes.now token }
{
    match pipes.place(Thing::Token(token)) {
        Some(Place::Closed) => true,
        _ => false,
    }
}

/// Where this is asked, or why nothing is moved: nobody has the thing, or it is of no data pipe, or of its
/// other side.
fn find_spot(tables: &EventTables, thing: Thing, flow: &Flow) -> Result<Spot, Why>
    requires { Holds (state_of tables.now) }
    ensures { result ≡ spot_in (state_of tables.now) thing flow.now }
{
    if !is_out(&tables.pipes, thing) {
        return Err(Why::NoName);
    }
    let Thing::Token(token) = thing else {
        return Err(Why::NotData);
    };
    let Some(found) = tables.tables.flows.find(token) else {
        return Err(Why::NotData);
    };
    if !same_side(found.side, side_asked(flow)) {
        return Err(Why::NotData);
    }
    Ok(Spot {
        token,
        producer: found.producer,
        gone: is_shut(&tables.pipes, other_token(found)),
    })
}

/// Moves bytes at the producer or the consumer of a data pipe, or begins or ends that.
pub fn flow(
    tables: &mut EventTables,
    alloc: Global,
    seq: SeqId,
    thing: Thing,
    flow: Flow,
) -> Result<(), AllocError>
    requires { HasRoom (state_of tables.old) seq }
    ensures { OnOk result (Steps tables.old tables.new seq (asks.Flow thing flow)) }
{
    match find_spot(tables, thing, &flow) {
        Ok(at) => move_at(tables, alloc, seq, thing, flow, at),
        Err(why) => {
            refuse(tables, seq, Asked::Flow(thing, flow), why);
            Ok(())
        }
    }
}

/// The same that is told, with these bytes.
fn with_bytes(bytes: Items<u8>, flowed: &Flowed) -> Flowed
    ensures { result ≡ with_bytes bytes flowed.now }
{
    match flowed {
        Flowed::Put(count) => Flowed::Put(*count),
        Flowed::Bytes(_) => Flowed::Bytes(bytes),
        Flowed::Space(count) => Flowed::Space(*count),
        Flowed::View(_) => Flowed::View(bytes),
        Flowed::Ended => Flowed::Ended,
    }
}

/// Notes what a data pipe refuses, or says that memory is wanting.
fn unmoved(
    tables: &mut EventTables,
    seq: SeqId,
    thing: Thing,
    flow: Flow,
    token: TokenId,
    cause: DataRefused,
) -> Result<(), AllocError>
    requires able { HasRoom (state_of tables.old) seq }
    requires why { SaysWhy (state_of tables.old) seq thing flow token cause }
    ensures { OnOk result (Steps tables.old tables.new seq (asks.Flow thing flow)) }
{
    match cause {
        DataRefused::No(why) => {
            refuse(tables, seq, Asked::Flow(thing, flow), why.at(token));
            Ok(())
        }
        DataRefused::Memory => Err(AllocError),
    }
}

/// Moves bytes at a token of the side that is asked, or notes why its data pipe doesn't.
fn move_at(
    tables: &mut EventTables,
    alloc: Global,
    seq: SeqId,
    thing: Thing,
    flow: Flow,
    at: Spot,
) -> Result<(), AllocError>
    requires able { HasRoom (state_of tables.old) seq }
    requires there { spot_in (state_of tables.old) thing flow ≡ Ok at }
    ensures { OnOk result (Steps tables.old tables.new seq (asks.Flow thing flow)) }
{
    let bytes = tables.tables.flows.told_bytes(alloc, at.producer, &flow)?;
    match tables.tables.flows.flow(alloc, at.producer, &flow, at.gone) {
        Ok(flowed) => {
            tables.log.push_reserved(Event {
                seq,
                asked: Asked::Flow(Thing::Token(at.token), flow),
                told: Told::Flowed(at.token, with_bytes(bytes, &flowed)),
            });
            Ok(())
        }
        Err(refused) => unmoved(tables, seq, thing, flow, at.token, refused),
    }
}
