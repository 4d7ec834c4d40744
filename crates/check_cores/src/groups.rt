//! Runs of two groups of sequences over one core: the first takes messages that were changed, and the second is to be told what it
//! is told on a core of its own, however the turns of both stand between one another.

ghost use Rattle.std.specs.Prelude.{◌≡◌};
ghost use Rattle.std.specs.Arc.{arc_value};

use crate::compare::{core_of, play};
use crate::held::Held;
use crate::moves::{Move, Turn};
use crate::two_groups::{EDITS, Finding, G, GROUP, NO_THINGS};
use bind_core::Core;
use bind_model::{BadWhy, Told};
use handle_table::{Ended, Thing};
use mj_base::EndId;
use mj_schema::Schema;
use past_reference::same::are_same_told;
use std::alloc::{AllocError, Global};
use std::sync::Arc;
use wire_encoder::EndpointSide::Receiver;

/// How many sequences a core has, and the first of those of the second group.
const SEQUENCES: u32 = 4;

const SECOND_GROUP: u32 = 2;

/// Before which of the first group's turns the second one begins, and how many of the first come between two of the second.
const STARTS: &[usize] = &[0, 3, 41, 78];

const PACES: &[usize] = &[0, 1, 3, 40];

/// More takes than are ready when all turns are done.
const MOST_DRAINED: u32 = 100;

/// How many runs there were, how many takes of messages that were changed, how many replies to the second group, and how much of all
/// that isn't as it is to be.
#[derive(Clone, Copy)]
pub struct Sums {
    pub runs: u64,
    pub edits: u64,
    pub replies: u64,
    pub differ: u64,
}

impl Sums {
    /// One thing more that was to be so.
    fn note(&mut self, is_right: bool) {
        if !is_right {
            self.differ = self.differ.saturating_add(1);
        }
    }

    /// One take more of a message that was changed.
    fn add_edit(&mut self, is_right: bool) {
        self.edits = self.edits.saturating_add(1);
        self.note(is_right);
    }

    /// One reply more to the second group.
    fn add_reply(&mut self, is_right: bool) {
        self.replies = self.replies.saturating_add(1);
        self.note(is_right);
    }
}

/// The turns of the first group: each message that was changed goes over a pipe of its own, since a bad one closes its end.
fn first_turns(alloc: Global) -> Result<Vec<Turn>, AllocError> {
    let mut turns = Vec::new(alloc);
    let mut serial: u32 = 0;
    for edit in EDITS {
        let from = EndId { seq: 0, serial };
        let to = EndId { seq: 1, serial };
        turns.push(Turn(0, Move::Join(1)))?;
        turns.push(Turn(1, Move::Bind(Thing::End(to), Receiver, G)))?;
        turns.push(Turn(0, Move::Raw(Thing::End(from), edit.message, NO_THINGS)))?;
        turns.push(Turn(1, Move::Take(to)))?;
        serial = serial.saturating_add(1);
    }
    Ok(turns)
}

/// The turns of both groups, the second one's among the first one's from a place on, with so many of these between two.
fn merged(
    alloc: Global,
    first: &[Turn],
    start: usize,
    pace: usize,
) -> Result<Vec<Turn>, AllocError> {
    let mut turns = Vec::from_slice(alloc, first)?;
    let mut at = start;
    for turn in GROUP {
        if at < turns.len() {
            turns.insert(at, *turn)?;
        } else {
            turns.push(*turn)?;
        }
        at = at.saturating_add(pace).saturating_add(1);
    }
    Ok(turns)
}

/// Whether the newest reply of a core finds at an end's message what is to be found there.
fn is_found(core: &Core, end: EndId) -> bool {
    let events = core.history().as_slice();
    let Some((event, _before)) = events.split_last() else {
        return false;
    };
    let Some(edit) = EDITS.get(end.serial as usize) else {
        return false;
    };
    match &event.told {
        Told::Bad(BadWhy::Message(fault), _) => edit.finding == Finding::Bad(fault.kind, fault.at),
        Told::Taken(_) => edit.finding == Finding::Got,
        _ => false,
    }
}

/// Whether the newest replies of two cores are the same.
fn are_told_same(alloc: Global, one: &Core, two: &Core) -> Result<bool, AllocError> {
    let Some((event, _before)) = one.history().as_slice().split_last() else {
        return Ok(false);
    };
    let Some((other, _others)) = two.history().as_slice().split_last() else {
        return Ok(false);
    };
    are_same_told(alloc, &event.told, &other.told)
}

/// Does a turn on a core, and one of the second group on the other core too, where nobody else does anything.
fn do_turn(
    core: &mut Core,
    held: &mut Held<'_>,
    alone: &mut Core,
    apart: &mut Held<'_>,
    alloc: Global,
    schema: &Schema,
    turn: Turn,
    sums: &mut Sums,
) -> Result<(), AllocError>
    requires core { (core.old.schema ≡ schema.now) × (core.old.seqs ≡ SEQUENCES) }
    requires alone { (alone.old.schema ≡ schema.now) × (alone.old.seqs ≡ SEQUENCES) }
    ensures core { (core.new.schema ≡ core.old.schema) × (core.new.seqs ≡ core.old.seqs) }
    ensures alone { (alone.new.schema ≡ alone.old.schema) × (alone.new.seqs ≡ alone.old.seqs) }
{
    let Turn(seq, step) = turn;
    let is_done = play(core, held, alloc, schema, SEQUENCES, turn)?;
    if seq >= SECOND_GROUP {
        let is_done_alone = play(alone, apart, alloc, schema, SEQUENCES, turn)?;
        let is_same = are_told_same(alloc, core, alone)?;
        sums.add_reply(is_done && is_done_alone && is_same);
        return Ok(());
    }
    match step {
        Move::Take(end) => sums.add_edit(is_done && is_found(core, end)),
        _ => sums.note(is_done),
    }
    Ok(())
}

/// Takes what is ready on a core until nothing is, and the same on the other one where it is the second group's; there nothing is
/// ready then either.
fn drain(
    core: &mut Core,
    held: &mut Held<'_>,
    alone: &mut Core,
    apart: &mut Held<'_>,
    alloc: Global,
    schema: &Schema,
    sums: &mut Sums,
) -> Result<(), AllocError>
    requires core { (core.old.schema ≡ schema.now) × (core.old.seqs ≡ SEQUENCES) }
    requires alone { (alone.old.schema ≡ schema.now) × (alone.old.seqs ≡ SEQUENCES) }
{
    for _ in 0..MOST_DRAINED {
        let Some((seq, end)) = core.ready() else {
            sums.note(alone.ready().is_none());
            return Ok(());
        };
        let turn = Turn(seq.0, Move::Take(end));
        do_turn(core, held, alone, apart, alloc, schema, turn, sums)?;
    }
    sums.note(false);
    Ok(())
}

/// Does turns on a core, those of the second group on the other core too, and then takes what is ready.
fn do_turns(
    core: &mut Core,
    held: &mut Held<'_>,
    alone: &mut Core,
    apart: &mut Held<'_>,
    alloc: Global,
    schema: &Schema,
    turns: &[Turn],
    sums: &mut Sums,
) -> Result<(), AllocError>
    requires core { (core.old.schema ≡ schema.now) × (core.old.seqs ≡ SEQUENCES) }
    requires alone { (alone.old.schema ≡ schema.now) × (alone.old.seqs ≡ SEQUENCES) }
{
    for turn in turns {
        do_turn(core, held, alone, apart, alloc, schema, *turn, sums)?;
    }
    drain(core, held, alone, apart, alloc, schema, sums)
}

/// Does turns on a core beside a new one that is the second group's own.
fn beside_alone(
    core: &mut Core,
    held: &mut Held<'_>,
    alloc: Global,
    schema: &Arc<Schema>,
    spare: &Ended,
    turns: &[Turn],
    sums: &mut Sums,
) -> Result<(), AllocError>
    requires core { (core.old.schema ≡ arc_value schema.now) × (core.old.seqs ≡ SEQUENCES) }
{
    let mut alone = core_of(alloc, schema, SEQUENCES)?;
    let mut apart = Held::new(alloc, spare);
    let done = do_turns(
        core, held, &mut alone, &mut apart, alloc, schema, turns, sums,
    );
    let (_history, over) = alone.end();
    apart.retire(&over);
    done
}

/// Does turns on two new cores, and compares what the second group is told.
fn compare_run(
    alloc: Global,
    schema: &Arc<Schema>,
    spare: &Ended,
    turns: &[Turn],
    sums: &mut Sums,
) -> Result<(), AllocError> {
    let mut core = core_of(alloc, schema, SEQUENCES)?;
    let mut held = Held::new(alloc, spare);
    sums.runs = sums.runs.saturating_add(1);
    let done = beside_alone(&mut core, &mut held, alloc, schema, spare, turns, sums);
    let (_history, over) = core.end();
    held.retire(&over);
    done
}

/// Compares the runs in which the second group begins at a place, one of each pace.
fn compare_from(
    alloc: Global,
    schema: &Arc<Schema>,
    spare: &Ended,
    first: &[Turn],
    start: usize,
    sums: &mut Sums,
) -> Result<(), AllocError> {
    for pace in PACES {
        let turns = merged(alloc, first, start, *pace)?;
        compare_run(alloc, schema, spare, &turns, sums)?;
    }
    Ok(())
}

/// Compares all runs of two groups.
pub fn compare_groups(alloc: Global, schema: &Arc<Schema>) -> Result<Sums, AllocError> {
    let first = first_turns(alloc)?;
    let (_history, spare) = core_of(alloc, schema, SEQUENCES)?.end();
    let mut sums = Sums {
        runs: 0,
        edits: 0,
        replies: 0,
        differ: 0,
    };
    for start in STARTS {
        compare_from(alloc, schema, &spare, &first, *start, &mut sums)?;
    }
    Ok(sums)
}
