//! Runs in which one sequence waits for a step of another: with its first step for the other's first, so that no order
//! of whole sequences passes both ways, and for the other's last.

ghost use Rattle.std.specs.Prelude.{◌≤◌};
ghost use Rattle.std.specs.Arc.{arc_value};
ghost use Rattle.mj_base.specs.declared.limits.TheConstants.{MAX_FILE_BYTES};
ghost use Rattle.call_script.specs.Sound.{IsScript};

use crate::at_once::{Wanted, is_wanted, run_text, script_of, wanted_run};
use crate::gate::{Hold, HoldingGates, Holds};
use crate::walk::walks;
use bind_model::{Asked, Event};
use call_script::Script;
use mj_schema::Schema;
use std::alloc::{AllocError, Global};
use std::sync::{Arc, Wait};
use std::thread::Threads;

/// How many such runs there are.
pub const HELD_RUNS: u64 = 4;

/// Two sequences that are joined to themselves, and one that does nothing. Each of the two takes what it sent itself.
const WALK: &str = "walk of sequences that are held
file module t;
file interface P { Say(uint32 n); };
first seqs 3
first join 1 1 a b
first join 2 2 c d
first 1: bind a remote t.P
first 1: bind b receiver t.P
first 1: call a#0 t.P.Say (7)
first 1: take b
first 2: bind c remote t.P
first 2: bind d receiver t.P
first 2: call c#0 t.P.Say (8)
first 2: take d
";

/// Whether the first event of the held sequence behind the joins stands behind the step that it waits for.
fn is_behind(events: &[Event], hold: Hold) -> bool {
    let mut done: u64 = 0;
    for event in events {
        if matches!(event.asked, Asked::Join(_)) {
            continue;
        }
        if event.seq.0 == hold.held {
            return done > hold.step;
        }
        if event.seq.0 == hold.until {
            done = done.saturating_add(1);
        }
    }
    false
}

/// Whether a run that is wanted has its events as the held sequence was to let them come.
fn is_right(wanted: Option<&Wanted>, text: &[u8], hold: Hold) -> bool {
    match wanted {
        Some(run) => is_wanted(wanted, text) && is_behind(run.history.as_slice(), hold),
        None => false,
    }
}

/// Runs a script in which a sequence is held; whether the other's step came, and the run is right.
fn run_held<R: Wait + Threads + Sync>(
    rt: &R,
    alloc: Global,
    schema: &Arc<Schema>,
    script: &Script,
    hold: Hold,
) -> Result<bool, AllocError>
    requires script { IsScript (arc_value schema.now) script.now }
    requires short { script.now.bytes ≤ MAX_FILE_BYTES }
{
    let holds = Holds::new(hold);
    let gates = HoldingGates { holds: &holds };
    let text = run_text(rt, alloc, schema, script, &gates)?;
    let wanted = wanted_run(alloc, schema, script, &text)?;
    Ok(!holds.is_missed() && is_right(wanted.as_ref(), &text, hold))
}

/// Runs a script in each way in which a sequence is held; how many of these runs were right.
fn count_right<R: Wait + Threads + Sync>(
    rt: &R,
    alloc: Global,
    schema: &Arc<Schema>,
    text: &str,
) -> Result<u64, AllocError> {
    let mut right: u64 = 0;
    let Some(script) = script_of(alloc, schema, text)? else {
        return Ok(0);
    };
    for (held, until, step) in [(1u32, 2u32, 0u64), (2, 1, 0), (1, 2, 3), (2, 1, 3)] {
        let hold = Hold { held, until, step };
        if run_held(rt, alloc, schema, &script, hold)? {
            right = right.saturating_add(1);
        }
    }
    Ok(right)
}

/// Runs the walk's script in each way in which a sequence is held; how many of these runs were right.
pub fn held_runs<R: Wait + Threads + Sync>(rt: &R, alloc: Global) -> Result<u64, AllocError> {
    let walks = walks(alloc, WALK)?;
    let Some(walk) = walks.as_slice().first() else {
        return Ok(0);
    };
    let Some(schema) = walk.schema(alloc)? else {
        return Ok(0);
    };
    let schema = Arc::new(alloc, schema)?;
    let text = walk.text(alloc, 0, 0)?;
    count_right(rt, alloc, &schema, text.as_str())
}
