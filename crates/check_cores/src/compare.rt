//! Comparing a core with the literal machine, and with the machine by names, step by step.

ghost use Rattle.std.specs.Prelude.{◌≡◌, ◌<◌, IfOk};
ghost use Rattle.std.specs.Arc.{arc_value};
ghost use Rattle.bind_model.specs.Plain.{IsOf};
ghost use Rattle.core_state.specs.Agreement.{schema_of};
ghost use Rattle.event_tables.specs.AsCore.{state_of};
ghost use Rattle.event_steps.specs.Standing.{Stands};

use crate::by_names::{are_alike, do_named, machine_of, plain_of};
use crate::held::Held;
use crate::moves::{Turn, Walk};
use crate::play::command_of;
use crate::tally::Tally;
use bind_core::Core;
use bind_model::{Command, Event, Refused};
use bind_reference::{answer, left, ready};
use event_steps::Machine;
use handle_table::Ended;
use mj_base::SeqId;
use mj_schema::Schema;
use past_reference::same::are_same_told;
use std::alloc::{AllocError, Global};
use std::sync::Arc;

/// How many sequences a core of a walk has.
const SEQUENCES: u32 = 2;

/// Does a command on a core.
fn do_command(
    core: &mut Core,
    held: &mut Held<'_>,
    alloc: Global,
    seq: SeqId,
    command: Command,
) -> Result<(), AllocError>
    requires seq { seq.0 < core.old.seqs }
    requires prepared { IsOf core.old.schema command }
    ensures same { (core.new.schema ≡ core.old.schema) × (core.new.seqs ≡ core.old.seqs) }
{
    match core.step(alloc, seq, command) {
        Ok(reply) => held.put(reply),
        Err(Refused::Memory(command) | Refused::Spent(command)) => {
            held.put_back(command);
            return Err(AllocError);
        }
    }
    if held.is_short {
        return Err(AllocError);
    }
    Ok(())
}

/// Does a turn on a core of so many sequences; it isn't done where something that it takes isn't held.
pub fn play(
    core: &mut Core,
    held: &mut Held<'_>,
    alloc: Global,
    schema: &Schema,
    seqs: u32,
    turn: Turn,
) -> Result<bool, AllocError>
    requires core { (core.old.schema ≡ schema.now) × (core.old.seqs ≡ seqs) }
    ensures same { (core.new.schema ≡ core.old.schema) × (core.new.seqs ≡ core.old.seqs) }
{
    let Turn(seq, step) = turn;
    if seq >= seqs {
        return Ok(false);
    }
    let Some(command) = command_of(held, alloc, schema, step)? else {
        return Ok(false);
    };
    do_command(core, held, alloc, SeqId(seq), command)?;
    Ok(true)
}

/// Does a turn on a core and on the machine by names; it isn't done where something that it takes isn't held.
fn play_both(
    core: &mut Core,
    machine: &mut Machine,
    held: &mut Held<'_>,
    alloc: Global,
    schema: &Schema,
    turn: Turn,
) -> Result<bool, AllocError>
    requires core { (core.old.schema ≡ schema.now) × (core.old.seqs ≡ SEQUENCES) }
    requires machine { Stands machine.old × (schema_of (state_of machine.old.tables) ≡ schema.now) × (machine.old.tables.seqs ≡ SEQUENCES) }
    ensures core { (core.new.schema ≡ core.old.schema) × (core.new.seqs ≡ core.old.seqs) }
    ensures machine { IfOk result (λ done. Stands machine.new × (schema_of (state_of machine.new.tables) ≡ schema.now)
        × (machine.new.tables.seqs ≡ SEQUENCES)) }
{
    let Turn(seq, step) = turn;
    if seq >= SEQUENCES {
        return Ok(false);
    }
    let Some(command) = command_of(held, alloc, schema, step)? else {
        return Ok(false);
    };
    let Ok(plain) = plain_of(alloc, &command) else {
        held.put_back(command);
        return Err(AllocError);
    };
    do_command(core, held, alloc, SeqId(seq), command)?;
    do_named(machine, alloc, SeqId(seq), plain)?;
    Ok(true)
}

/// Whether what isn't gone of a core is what the events leave.
fn has_left(core: &Core, alloc: Global, events: &[Event]) -> Result<bool, AllocError> {
    let found = core.left(alloc)?;
    let wanted = left(alloc, SEQUENCES, events)?;
    Ok(found == wanted)
}

/// Compares the newest reply of a core, to the turn of a place, which end is ready then, and what isn't gone, with what the events say,
/// and with what the machine by names has, where that is from this place on.
fn compare(
    core: &Core,
    machine: &Machine,
    alloc: Global,
    schema: &Schema,
    turn: usize,
    from: usize,
    tally: &mut Tally,
) -> Result<(), AllocError>
    requires { Stands machine.now }
{
    if turn < from {
        return Ok(());
    }
    let events = core.history().as_slice();
    let Some((event, past)) = events.split_last() else {
        return Ok(());
    };
    let is_ready = core.ready() == ready(alloc, schema, events)?;
    let is_left = has_left(core, alloc, events)?;
    let wanted = answer(alloc, schema, SEQUENCES, past, event.seq, &event.asked)?;
    let is_told = are_same_told(alloc, &event.told, &wanted)?;
    let is_alike = are_alike(core, machine, alloc)?;
    let is_right = is_told && is_ready && is_left && is_alike;
    tally.add_step(turn, &event.told, &wanted, is_right)
}

/// Does turns on a core and on the machine by names until one isn't done, and compares those from a place on.
fn do_turns(
    core: &mut Core,
    machine: &mut Machine,
    held: &mut Held<'_>,
    alloc: Global,
    schema: &Schema,
    turns: &[Turn],
    from: usize,
    tally: &mut Tally,
) -> Result<(), AllocError>
    requires core { (core.old.schema ≡ schema.now) × (core.old.seqs ≡ SEQUENCES) }
    requires machine { Stands machine.old × (schema_of (state_of machine.old.tables) ≡ schema.now) × (machine.old.tables.seqs ≡ SEQUENCES) }
{
    for (place, turn) in turns.iter().enumerate() {
        if !play_both(core, machine, held, alloc, schema, *turn)? {
            return Ok(());
        }
        compare(core, machine, alloc, schema, place, from, tally)?;
    }
    Ok(())
}

/// A core of so many sequences that shares a schema.
pub fn core_of(alloc: Global, schema: &Arc<Schema>, seqs: u32) -> Result<Core, AllocError>
    ensures { IfOk result (λ core. (core.schema ≡ arc_value schema.now) × (core.seqs ≡ seqs)) }
{
    match Arc::try_clone(schema) {
        Ok(shared) => Ok(Core::new(alloc, shared, seqs)),
        Err(_) => Err(AllocError),
    }
}

/// Does turns on a new core and a new machine by names, and compares those from a place on.
fn compare_list(
    alloc: Global,
    schema: &Arc<Schema>,
    spare: &Ended,
    turns: &[Turn],
    from: usize,
    tally: &mut Tally,
) -> Result<(), AllocError> {
    let mut machine = machine_of(alloc, schema, SEQUENCES)?;
    let mut core = core_of(alloc, schema, SEQUENCES)?;
    let mut held = Held::new(alloc, spare);
    tally.lists = tally.lists.saturating_add(1);
    let done = do_turns(
        &mut core,
        &mut machine,
        &mut held,
        alloc,
        schema,
        turns,
        from,
        tally,
    );
    let (_history, over) = core.end();
    held.retire(&over);
    done
}

/// The turns of a number of a walk, whose digits are the places in the alphabet, and from which of them on no list
/// of a lesser number begins with them.
fn turns_of(alloc: Global, walk: &Walk, number: usize) -> Result<(Vec<Turn>, usize), AllocError> {
    let mut digits = Vec::new(alloc);
    let mut rest = number;
    for _ in 0..walk.length {
        digits.push(rest.checked_rem(walk.alphabet.len()).unwrap_or(0))?;
        rest = rest.checked_div(walk.alphabet.len()).unwrap_or(0);
    }
    let mut turns = Vec::from_slice(alloc, walk.opening)?;
    for digit in digits.iter().rev() {
        if let Some(turn) = walk.alphabet.get(*digit) {
            turns.push(*turn)?;
        }
    }
    let from = match digits.iter().position(|digit| *digit != 0) {
        Some(zeros) => turns.len().saturating_sub(zeros).saturating_sub(1),
        None => 0,
    };
    Ok((turns, from))
}

/// Compares all lists of turns of a walk.
pub fn compare_walk(alloc: Global, schema: &Arc<Schema>, walk: &Walk) -> Result<Tally, AllocError> {
    let mut tally = Tally::new(alloc);
    let (_history, spare) = core_of(alloc, schema, SEQUENCES)?.end();
    for number in 0..walk.count() {
        let (turns, from) = turns_of(alloc, walk, number)?;
        compare_list(alloc, schema, &spare, &turns, from, &mut tally)?;
    }
    Ok(tally)
}
