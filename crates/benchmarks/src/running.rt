//! How long runs take: scripts are read, run, and their histories written.

ghost use Rattle.std.specs.Prelude.{◌≤◌, IfSome};
ghost use Rattle.std.specs.Arc.{arc_value};
ghost use Rattle.call_script.specs.Sound.{IsScript};

use crate::files::schema_and_script;
use crate::timing::{ROUNDS, least, nanoseconds_each, now};
use call_script::{Script, read_script};
use history_text::render;
use mj_base::limits::MAX_FILE_BYTES;
use mj_schema::Schema;
use script_run::{Ran, run_alone};
use std::alloc::Global;
use std::io;
use std::io::Print;
use std::sync::Arc;
use std::time::{CpuClock, Duration};

/// The order of the runs, which changes nothing where a script has one sequence.
const ORDER: u64 = 0;

/// The script of a text; none where a line is refused, or where no file has room for it.
pub fn script_of(alloc: Global, schema: &Schema, text: &[u8]) -> Option<Script>
    ensures script { IfSome result (IsScript schema.now) }
    ensures short { IfSome result (λ script. script.bytes ≤ MAX_FILE_BYTES) }
{
    match read_script(alloc, schema, text) {
        Ok(script) if script.bytes as u64 <= MAX_FILE_BYTES => Some(script),
        Ok(_) | Err(_) => None,
    }
}

/// What the run of a script leaves; none without memory.
pub fn ran_of(alloc: Global, schema: &Arc<Schema>, script: &Script) -> Option<Ran>
    requires script { IsScript (arc_value schema.now) script.now }
    requires short { script.now.bytes ≤ MAX_FILE_BYTES }
{
    let Ok(shared) = Arc::try_clone(schema) else {
        return None;
    };
    match run_alone(alloc, shared, script, ORDER) {
        Ok(ran) => Some(ran),
        Err(_) => None,
    }
}

/// The least time of reading a script.
fn time_read<R: AllocGlobal + CpuClock>(
    rt: &R,
    schema: &Schema,
    text: &[u8],
) -> io::Result<Option<Duration>> {
    let mut best = None;
    for _ in 0..ROUNDS {
        let start = now(rt)?;
        let _script = script_of(rt.alloc(), schema, text);
        best = least(best, start, now(rt)?);
    }
    Ok(best)
}

/// The least time of running a script.
fn time_run<R: AllocGlobal + CpuClock>(
    rt: &R,
    schema: &Arc<Schema>,
    script: &Script,
) -> io::Result<Option<Duration>>
    requires script { IsScript (arc_value schema.now) script.now }
    requires short { script.now.bytes ≤ MAX_FILE_BYTES }
{
    let mut best = None;
    for _ in 0..ROUNDS {
        let start = now(rt)?;
        let _ran = ran_of(rt.alloc(), schema, script);
        best = least(best, start, now(rt)?);
    }
    Ok(best)
}

/// The least time of writing a history.
fn time_render<R: AllocGlobal + CpuClock>(
    rt: &R,
    schema: &Schema,
    ran: &Ran,
) -> io::Result<Option<Duration>> {
    let mut best = None;
    for _ in 0..ROUNDS {
        let start = now(rt)?;
        let _text = render(
            rt.alloc(),
            schema,
            &ran.history,
            ran.notes.as_slice(),
            ran.left.as_slice(),
        )?;
        best = least(best, start, now(rt)?);
    }
    Ok(best)
}

/// The least times of the three steps.
#[derive(Clone, Copy)]
struct Times {
    read: Option<Duration>,
    run: Option<Duration>,
    rendered: Option<Duration>,
}

/// Prints what an event takes, and how many events a second that makes.
fn show<R: Print>(rt: &R, lines: usize, events: u64, times: Times) -> io::Result<()> {
    let read = nanoseconds_each(times.read, events);
    let run = nanoseconds_each(times.run, events);
    let rendered = nanoseconds_each(times.rendered, events);
    let each = read.saturating_add(run).saturating_add(rendered);
    println!(rt;
        "{lines} lines, {events} events: read in {read} ns an event, run in {run}, written in {rendered}: {} events a second",
        1_000_000_000u128.checked_div(each).unwrap_or(0)
    )
}

/// Prints how long the script of a text takes.
fn time<R: Print + AllocGlobal + CpuClock>(
    rt: &R,
    schema: &Arc<Schema>,
    text: &[u8],
) -> io::Result<()> {
    let alloc = rt.alloc();
    let Some(script) = script_of(alloc, schema, text) else {
        return println!(rt; "the script is refused");
    };
    let Some(ran) = ran_of(alloc, schema, &script) else {
        return println!(rt; "no memory for the run");
    };
    let times = Times {
        read: time_read(rt, schema, text)?,
        run: time_run(rt, schema, &script)?,
        rendered: time_render(rt, schema, &ran)?,
    };
    let lines = script.lines.len().saturating_add(1);
    show(rt, lines, ran.history.len() as u64, times)
}

/// Times the script of a file, over the schema of another.
pub fn time_files<R: std::rt::Files + Print + AllocGlobal + CpuClock>(
    rt: &R,
    mojom: &str,
    script: &str,
) -> io::Result<()> {
    match schema_and_script(rt, mojom, script)? {
        Some((schema, text)) => time(rt, &schema, &text),
        None => Ok(()),
    }
}
