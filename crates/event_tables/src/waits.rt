//! Ends that are told to wait for others.

ghost use Rattle.std.specs.Prelude.{◌≡◌, None, OnOk};
ghost use Rattle.bind_model.specs.declared.asked.Asked.TheVariants as asks;
ghost use Rattle.core_sending.specs.Pausing.{no_pause};
ghost use Rattle.core_state.specs.Doing.{HasRoom};
ghost use Rattle.event_tables.specs.AsCore.{Steps, state_of};

use crate::tables::{EventTables, refuse};
use bind_model::{Asked, Event, Told, Why};
use core_sending::pause::{elsewhere, is_same, or_why};
use end_notices::Wait;
use mj_base::{EndId, SeqId};
use std::alloc::{AllocError, Global};

/// Why an end doesn't wait for another.
fn why_not(tables: &EventTables, seq: SeqId, end: EndId, other: EndId) -> Option<Why>
    ensures { result ≡ no_pause (state_of tables.now) seq end other }
{
    let Some(main) = tables.endpoints.find(end, 0) else {
        return Some(Why::NoName);
    };
    let Some(far) = tables.endpoints.find(other, 0) else {
        return Some(Why::NoName);
    };
    if tables.pipes.is_closed(end) {
        return Some(Why::Disconnected);
    }
    let there = if tables.pipes.is_closed(other) {
        None
    } else {
        elsewhere(seq, far)
    };
    let itself = if is_same(end, other) {
        Some(Why::SelfPause)
    } else {
        None
    };
    or_why(elsewhere(seq, main), or_why(there, itself))
}

/// Has an end take nothing until another has consumed the flush of this number, or is closed; or notes why
/// it doesn't wait.
pub fn pause(
    tables: &mut EventTables,
    alloc: Global,
    seq: SeqId,
    end: EndId,
    other: EndId,
    flush: u32,
) -> Result<(), AllocError>
    requires { HasRoom (state_of tables.old) seq }
    ensures { OnOk result (Steps tables.old tables.new seq (asks.Pause end other flush)) }
{
    match why_not(tables, seq, end, other) {
        None => wait(tables, alloc, seq, end, other, flush),
        Some(why) => {
            refuse(tables, seq, Asked::Pause(end, other, flush), why);
            Ok(())
        }
    }
}

/// Has an end wait that nothing keeps from it.
fn wait(
    tables: &mut EventTables,
    alloc: Global,
    seq: SeqId,
    end: EndId,
    other: EndId,
    flush: u32,
) -> Result<(), AllocError>
    requires able { HasRoom (state_of tables.old) seq }
    requires free { no_pause (state_of tables.old) seq end other ≡ None }
    ensures { OnOk result (Steps tables.old tables.new seq (asks.Pause end other flush)) }
{
    tables
        .tables
        .notices
        .wait(alloc, end, Wait { end: other, flush })?;
    tables.log.push_reserved(Event {
        seq,
        asked: Asked::Pause(end, other, flush),
        told: Told::Pausing,
    });
    Ok(())
}
