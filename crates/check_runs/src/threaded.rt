//! All walks of the files with a thread for each sequence, each script as often as its walk says. What the literal
//! machine makes by the turns of a history that was printed has to be that very text.

ghost use Rattle.std.specs.Prelude.{◌≤◌};
ghost use Rattle.std.specs.Arc.{arc_value};
ghost use Rattle.mj_base.specs.declared.limits.TheConstants.{MAX_FILE_BYTES};
ghost use Rattle.call_script.specs.Sound.{IsScript};

use crate::at_once::{Wanted, is_wanted, run_text, script_of, wanted_run};
use crate::held::{HELD_RUNS, held_runs};
use crate::walk::{Walk, walks};
use call_script::Script;
use check_files::text_of;
use mj_schema::Schema;
use std::alloc::AllocError;
use std::io;
use std::io::Print;
use std::sync::{Arc, Wait};
use std::thread::Threads;
use step_gate::OpenGates;

/// How many texts, scripts, runs and different histories of a script there were, and how many histories are not those
/// that are wanted.
#[derive(Clone, Copy, Default)]
struct Counts {
    texts: u64,
    scripts: u64,
    runs: u64,
    histories: u64,
    differ: u64,
}

impl Counts {
    /// Those of others too.
    fn add(&mut self, other: Counts) {
        self.texts = self.texts.saturating_add(other.texts);
        self.scripts = self.scripts.saturating_add(other.scripts);
        self.runs = self.runs.saturating_add(other.runs);
        self.histories = self.histories.saturating_add(other.histories);
        self.differ = self.differ.saturating_add(other.differ);
    }
}

/// Prints a script, the history that came of it, and the one that is wanted.
fn print_both<R: Print>(
    rt: &R,
    script: &str,
    came: &[u8],
    wanted: Option<&Wanted>,
) -> io::Result<()> {
    println!(rt; "the script:\n{script}")?;
    println!(rt; "the run:\n{}", str::from_utf8(came).unwrap_or(""))?;
    match wanted {
        Some(wanted) => { println!(rt; "wanted:\n{}", str::from_utf8(&wanted.text).unwrap_or("")) }
        None => println!(rt; "no history of the script has these turns"),
    }
}

/// Compares the history of a run with what it should be. The first of a walk that differs is printed.
fn judge<R: Print + AllocGlobal>(
    rt: &R,
    schema: &Schema,
    text: &str,
    script: &Script,
    came: &[u8],
    counts: &mut Counts,
) -> io::Result<()> {
    let wanted = wanted_run(rt.alloc(), schema, script, came)?;
    if is_wanted(wanted.as_ref(), came) {
        return Ok(());
    }
    counts.differ = counts.differ.saturating_add(1);
    if counts.differ == 1 {
        print_both(rt, text, came, wanted.as_ref())?;
    }
    Ok(())
}

/// Whether a text is among others.
fn is_among(texts: &[Vec<u8>], text: &[u8]) -> bool {
    texts.iter().any(|other| other.as_slice() == text)
}

/// Adds a text to others.
fn keep(texts: &mut Vec<Vec<u8>>, text: Vec<u8>) -> Result<(), AllocError> {
    Ok(texts.push(text)?)
}

/// Runs a script once more, and compares its history, unless it came before.
fn compare_run<R: Print + AllocGlobal + Wait + Threads + Sync>(
    rt: &R,
    schema: &Arc<Schema>,
    text: &str,
    script: &Script,
    seen: &mut Vec<Vec<u8>>,
    counts: &mut Counts,
) -> io::Result<()>
    requires script { IsScript (arc_value schema.now) script.now }
    requires short { script.now.bytes ≤ MAX_FILE_BYTES }
{
    let came = run_text(rt, rt.alloc(), schema, script, &OpenGates)?;
    counts.runs = counts.runs.saturating_add(1);
    if is_among(seen, &came) {
        return Ok(());
    }
    counts.histories = counts.histories.saturating_add(1);
    judge(rt, schema, text, script, &came, counts)?;
    Ok(keep(seen, came)?)
}

/// Compares so many runs of a text, if it is a script.
fn compare_text<R: Print + AllocGlobal + Wait + Threads + Sync>(
    rt: &R,
    schema: &Arc<Schema>,
    text: &str,
    times: u64,
    counts: &mut Counts,
) -> io::Result<()> {
    counts.texts = counts.texts.saturating_add(1);
    let Some(script) = script_of(rt.alloc(), schema, text)? else {
        return Ok(());
    };
    counts.scripts = counts.scripts.saturating_add(1);
    let mut seen = Vec::new(rt.alloc());
    for _ in 0..times {
        compare_run(rt, schema, text, &script, &mut seen, counts)?;
    }
    Ok(())
}

/// Compares so many runs of each text of a walk with so many lines behind the first ones.
fn compare_texts<R: Print + AllocGlobal + Wait + Threads + Sync>(
    rt: &R,
    schema: &Arc<Schema>,
    walk: &Walk,
    lines: u32,
    times: u64,
    counts: &mut Counts,
) -> io::Result<()> {
    for number in 0..walk.count(lines) {
        let text = walk.text(rt.alloc(), lines, number)?;
        compare_text(rt, schema, text.as_str(), times, counts)?;
    }
    Ok(())
}

/// Compares so many runs of each text of a walk.
fn compare_walk<R: Print + AllocGlobal + Wait + Threads + Sync>(
    rt: &R,
    schema: Schema,
    walk: &Walk,
    times: u64,
) -> io::Result<Counts> {
    let schema = Arc::new(rt.alloc(), schema)?;
    let mut counts = Counts::default();
    for lines in 0..=walk.most {
        compare_texts(rt, &schema, walk, lines, times, &mut counts)?;
    }
    Ok(counts)
}

/// Prints what came of a walk; how many different histories only where the runs are more, since no two calls have the same.
fn print_counts<R: Print>(rt: &R, name: &str, counts: Counts, more: Option<u64>) -> io::Result<()> {
    println!(rt;
        "{name}: {} texts, {} scripts, {} runs, {} differ",
        counts.texts, counts.scripts, counts.runs, counts.differ
    )?;
    if more.is_some() {
        println!(rt; "  {} histories", counts.histories)?;
    }
    Ok(())
}

/// Compares the walks of a text, and prints what came of each.
fn compare_walks<R: Print + AllocGlobal + Wait + Threads + Sync>(
    rt: &R,
    text: &str,
    more: Option<u64>,
    total: &mut Counts,
) -> io::Result<()> {
    for walk in &walks(rt.alloc(), text)? {
        match walk.schema(rt.alloc())? {
            Some(schema) => {
                let times = walk.threads.saturating_mul(more.unwrap_or(1));
                let counts = compare_walk(rt, schema, walk, times)?;
                print_counts(rt, walk.name.as_str(), counts, more)?;
                total.add(counts);
            }
            None => {
                total.differ = total.differ.saturating_add(1);
                println!(rt; "{}: its definitions are refused", walk.name.as_str())?;
            }
        }
    }
    Ok(())
}

/// Compares the walks of a file.
fn compare_file<R: std::rt::Files + Print + AllocGlobal + Wait + Threads + Sync>(
    rt: &R,
    name: &str,
    more: Option<u64>,
    total: &mut Counts,
) -> io::Result<()> {
    match text_of(rt, name)? {
        Some(text) => compare_walks(rt, text.as_str(), more, total),
        None => {
            total.differ = total.differ.saturating_add(1);
            Ok(())
        }
    }
}

/// Makes the runs in which a sequence is held, and prints what came of them.
fn compare_held<R: Print + AllocGlobal + Wait + Threads + Sync>(
    rt: &R,
    total: &mut Counts,
) -> io::Result<()> {
    let right = held_runs(rt, rt.alloc())?;
    let differ = HELD_RUNS.saturating_sub(right);
    total.runs = total.runs.saturating_add(HELD_RUNS);
    total.differ = total.differ.saturating_add(differ);
    println!(rt;
        "of sequences that are held: {} runs, {} differ",
        HELD_RUNS, differ
    )
}

/// The first number among words.
fn number_in(words: &[String]) -> Option<u64> {
    for word in words {
        if let Ok(number) = word.as_str().parse::<u64>() {
            return Some(number);
        }
    }
    None
}

/// Compares the walks of each file that the words name, with so many times as many runs where one of the words is a
/// number, and prints what came of each; whether nothing differs.
pub fn run_threads<R: std::rt::Files + Print + AllocGlobal + Wait + Threads + Sync>(
    rt: &R,
    words: &[String],
) -> io::Result<bool> {
    let more = number_in(words);
    let mut total = Counts::default();
    for word in words {
        if word.as_str().parse::<u64>().is_err() {
            compare_file(rt, word.as_str(), more, &mut total)?;
        }
    }
    compare_held(rt, &mut total)?;
    println!(rt;
        "{} scripts, {} runs with threads, {} differences",
        total.scripts, total.runs, total.differ
    )?;
    Ok(total.differ == 0)
}
