//! How many events a second a script's run has: on one thread, and with a thread for each sequence.

ghost use Rattle.std.specs.Prelude.{◌≤◌};
ghost use Rattle.std.specs.Arc.{arc_value};
ghost use Rattle.call_script.specs.Sound.{IsScript};

use crate::files::schema_and_script;
use crate::running::{ran_of, script_of};
use crate::timing::ROUNDS;
use call_script::Script;
use mj_base::limits::MAX_FILE_BYTES;
use mj_schema::Schema;
use script_run::Ran;
use std::alloc::Global;
use std::io;
use std::io::Print;
use std::sync::{Arc, Wait};
use std::thread::Threads;
use std::time::{Clock, Duration};
use step_gate::OpenGates;
use threaded_run::run_at_once;

/// What a run leaves that has a thread for each sequence; none without memory.
fn ran_at_once<R: Wait + Threads + Sync>(
    rt: &R,
    alloc: Global,
    schema: &Arc<Schema>,
    script: &Script,
) -> Option<Ran>
    requires script { IsScript (arc_value schema.now) script.now }
    requires short { script.now.bytes ≤ MAX_FILE_BYTES }
{
    let Ok(shared) = Arc::try_clone(schema) else {
        return None;
    };
    match run_at_once(rt, alloc, shared, script, &OpenGates) {
        Ok(ran) => Some(ran),
        Err(_) => None,
    }
}

/// How many events a second a run has that took so long.
fn pace(ran: &Ran, taken: Duration) -> u128 {
    u128::from(ran.history.len() as u64)
        .saturating_mul(1_000_000_000)
        .checked_div(taken.as_nanos())
        .unwrap_or(0)
}

/// The most events a second that a script's runs have, in some rounds; none without memory.
fn best_pace<R: AllocGlobal + Clock + Wait + Threads + Sync>(
    rt: &R,
    schema: &Arc<Schema>,
    script: &Script,
    at_once: bool,
) -> io::Result<Option<u128>>
    requires script { IsScript (arc_value schema.now) script.now }
    requires short { script.now.bytes ≤ MAX_FILE_BYTES }
{
    let mut best = 0u128;
    for _ in 0..ROUNDS {
        let start = rt.monotonic()?;
        let ran = if at_once {
            ran_at_once(rt, rt.alloc(), schema, script)
        } else {
            ran_of(rt.alloc(), schema, script)
        };
        let taken = rt.monotonic()?.saturating_sub(start);
        let Some(ran) = ran else {
            return Ok(None);
        };
        let found = pace(&ran, taken);
        if found > best {
            best = found;
        }
    }
    Ok(Some(best))
}

/// Prints how many events a second the script of a text has.
fn time<R: Print + AllocGlobal + Clock + Wait + Threads + Sync>(
    rt: &R,
    schema: &Arc<Schema>,
    text: &[u8],
) -> io::Result<()> {
    let Some(script) = script_of(rt.alloc(), schema, text) else {
        return println!(rt; "the script is refused");
    };
    let alone = best_pace(rt, schema, &script, false)?.unwrap_or(0);
    let at_once = best_pace(rt, schema, &script, true)?.unwrap_or(0);
    let seqs = script.seqs;
    println!(rt;
        "{seqs} sequences: {alone} events a second on one thread, {at_once} with a thread for each"
    )
}

/// Times the script of a file, over the schema of another.
pub fn time_files<R: std::rt::Files + Print + AllocGlobal + Clock + Wait + Threads + Sync>(
    rt: &R,
    mojom: &str,
    script: &str,
) -> io::Result<()> {
    match schema_and_script(rt, mojom, script)? {
        Some((schema, text)) => time(rt, &schema, &text),
        None => Ok(()),
    }
}
