//! The five numbers of a load, counted in its history.

ghost use Rattle.std.specs.Prelude.{◌≡◌, ◌≤◌, ◌<◌, ◌+◌, ◌^◌, if◌then◌else◌, length};
ghost use Rattle.std.specs.List.{count_by, sum_by};
ghost use Rattle.mj_base.specs.declared.limits.TheConstants.{MAX_EVENTS};
ghost use Rattle.bind_model.specs.Replies.{Legal};
ghost use Rattle.bind_model.specs.Seen.{own_of};
ghost use Rattle.bind_model.specs.WireOf.{wire_of};
ghost use Rattle.bind_model.specs.declared.event.Event.{Event as event_in};
ghost use Rattle.callback_laws.specs.Callbacks.{callbacks_in};
ghost use Rattle.load_run.specs.Commands.{SEQUENCES, caller, taker};
ghost use Rattle.load_run.specs.Counts.{AreCounted, bytes_of, is_got, is_sent, ran_below, ran_of};
ghost use Rattle.load_run.specs.steps.Doing.{HasAll, HasBoth};

use crate::desks::finish;
use crate::pairs::{Pair, Pairs, caller, taker};
use crate::seat::BoxedCore;
use bind_model::{Event, Told};

/// The numbers of a load: its events, the messages written, those got, the callbacks that ran, and the bytes
/// of all messages written. What is a sum has 128 bits, so that none is cut off.
#[derive(Clone, Copy)]
pub struct Counts {
    pub events: u64,
    pub sent: u64,
    pub got: u64,
    pub ran: u128,
    pub bytes: u128,
}

/// Whether a message was written.
fn is_sent(told: &Told) -> bool
    ensures { result ≡ is_sent told.now }
{
    matches!(told, Told::Sent(_, _))
}

/// Whether a message was got.
fn is_got(told: &Told) -> bool
    ensures { result ≡ is_got told.now }
{
    matches!(told, Told::Taken(_))
}

/// 1 where a message was written, and else 0.
fn sent_in(told: &Told) -> u64
    ensures { result ≡ (if is_sent told.now then 1 else 0) }
{
    if is_sent(told) { 1 } else { 0 }
}

/// 1 where a message was got, and else 0.
fn got_in(told: &Told) -> u64
    ensures { result ≡ (if is_got told.now then 1 else 0) }
{
    if is_got(told) { 1 } else { 0 }
}

/// How many bytes were written.
fn bytes_of(told: &Told) -> usize
    ensures { result ≡ bytes_of told.now }
{
    match told {
        Told::Sent(_, bytes) => bytes.len(),
        Told::Made(_)
        | Told::Bound(_)
        | Told::Associated(_)
        | Told::Attached(_)
        | Told::Wrote(_)
        | Told::Taken(_)
        | Told::Dropped(_, _)
        | Told::Control(_)
        | Told::Bad(_, _)
        | Told::Closed(_)
        | Told::Notified(_)
        | Told::Pausing
        | Told::Flowed(_, _)
        | Told::Skipped
        | Told::No(_) => 0,
    }
}

/// How many events there are.
fn count_events(events: &[Event]) -> u64
    ensures { result ≡ length events.now }
{
    events.len() as u64
}

/// How many messages were written.
fn count_sent(events: &[Event]) -> u64
    ensures { result ≡ count_by (λ (event : event_in). is_sent event.told) events.now }
{
    let mut count = 0;
    for event in events {
        count += sent_in(&event.told);
    }
    count
}

/// How many messages were got.
fn count_got(events: &[Event]) -> u64
    ensures { result ≡ count_by (λ (event : event_in). is_got event.told) events.now }
{
    let mut count = 0;
    for event in events {
        count += got_in(&event.told);
    }
    count
}

/// How many bytes all messages have that were written.
fn count_bytes(events: &[Event]) -> u128
    ensures { result ≡ sum_by (λ (event : event_in). bytes_of event.told) events.now }
{
    let mut bytes = 0;
    for event in events {
        bytes += bytes_of(&event.told) as u128;
    }
    bytes
}

/// Ends the desks of a pair: the core, and how many of their callbacks ran.
fn finish_pair(core: BoxedCore, pair: Pair, is_second: bool) -> (BoxedCore, u128)
    requires rested { HasBoth core is_second pair }
    requires legal { Legal (wire_of core.schema) core.seqs core.events }
    requires few { length core.events ≤ MAX_EVENTS }
    ensures core { result.0 ≡ core }
    ensures ran { result.1 ≡ ran_of (callbacks_in (own_of (caller is_second) core.events)) + ran_of (callbacks_in (own_of (taker is_second) core.events)) }
    ensures small { result.1 < 2 ^ 65 }
{
    let Pair {
        caller: first,
        taker: second,
    } = pair;
    let seq = caller(is_second);
    let (core, one) = finish(core, seq, first);
    let other = taker(is_second);
    let (last, two) = finish(core, other, second);
    (last, one as u128 + two as u128)
}

/// Ends the desks: the core, and how many callbacks ran.
fn count_ran(core: BoxedCore, pairs: Pairs) -> (BoxedCore, u128)
    requires rested { HasAll core pairs }
    requires legal { Legal (wire_of core.schema) core.seqs core.events }
    requires few { length core.events ≤ MAX_EVENTS }
    ensures core { result.0 ≡ core }
    ensures ran { result.1 ≡ ran_below SEQUENCES core.events }
{
    let Pairs { first, second } = pairs;
    let (core, one) = finish_pair(core, first, false);
    let (last, two) = finish_pair(core, second, true);
    (last, one + two)
}

/// Ends the desks, and counts: the core, and the numbers of its history.
pub fn counted(core: BoxedCore, pairs: Pairs) -> (BoxedCore, Counts)
    requires rested { HasAll core pairs }
    ensures legal { Legal (wire_of core.schema) core.seqs core.events }
    ensures counted { AreCounted core.events result.1 }
{
    // Its events are legal.
    let _history = core.history();
    let (core, ran) = count_ran(core, pairs);
    let history = core.history().as_slice();
    let events = count_events(history);
    let sent = count_sent(history);
    let got = count_got(history);
    let bytes = count_bytes(history);
    let counts = Counts {
        events,
        sent,
        got,
        ran,
        bytes,
    };
    (core, counts)
}
