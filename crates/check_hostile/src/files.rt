//! The inputs that words ask for: `NUMBER [times] FILE ..`, so many inputs of the seeds of the files, each of which is to stand itself.

use crate::edits::hostile;
use crate::judge::{judge, judge_alone};
use crate::seeds::{InputSort, Seed, Seeds, schemas_of};
use crate::tally::Tally;
use check_files::{Draws, text_of};
use check_messages::compare::Verdict;
use mj_schema::Schema;
use std::alloc::{AllocError, Global};
use std::io;
use std::io::Print;
use std::sync::Arc;
use std::time::{CpuClock, Duration};

/// In how many orders scripts are run.
const ORDERS: u64 = 8;

/// The seeds, and the schemas that they are over.
#[derive(Drop)]
struct Ground {
    seeds: Vec<Seed>,
    schemas: Vec<Arc<Schema>>,
}

/// Reads the seeds of a text. Prints lines that have no form.
fn read_text<R: Print + AllocGlobal>(
    rt: &R,
    text: &str,
    seeds: &mut Seeds,
    tally: &mut Tally,
) -> io::Result<()> {
    for line in text.lines() {
        if !Seeds::take(seeds, rt.alloc(), line)? {
            tally.differs();
            println!(rt; "this line has no form: {line}")?;
        }
    }
    Ok(())
}

/// Reads the seeds of the files that words name; `times` names none.
fn read_files<R: std::rt::Files + Print + AllocGlobal>(
    rt: &R,
    words: &[String],
    tally: &mut Tally,
) -> io::Result<Seeds> {
    let mut seeds = Seeds::new(rt.alloc());
    for word in words {
        let name = word.as_str();
        if name == "times" {
            continue;
        }
        match text_of(rt, name)? {
            Some(text) => read_text(rt, text.as_str(), &mut seeds, tally)?,
            None => tally.differs(),
        }
    }
    Ok(seeds)
}

/// The seeds without the Mojom files that the others are over.
fn without_over(alloc: Global, seeds: Vec<Seed>) -> Result<Vec<Seed>, AllocError> {
    let mut kept = Vec::new(alloc);
    for seed in seeds {
        if seed.sort != InputSort::Over {
            kept.push(seed)?;
        }
    }
    Ok(kept)
}

/// Judges each seed as it is, and prints those that don't stand.
fn judge_seeds<R: Print + AllocGlobal>(
    rt: &R,
    ground: &Ground,
    tally: &mut Tally,
) -> io::Result<()> {
    let schemas = ground.schemas.as_slice();
    for (place, seed) in ground.seeds.iter().enumerate() {
        let verdict = judge(rt.alloc(), schemas, seed, seed.bytes.as_slice(), 0)?;
        if verdict != Verdict::Stands {
            tally.differs();
            println!(rt; "seed {place}, of {}, doesn't stand", seed.sort.word())?;
        }
    }
    Ok(())
}

/// The bytes of a number that are made of a seed's.
fn made(alloc: Global, seeds: &[Seed], seed: &Seed, number: u64) -> Result<Vec<u8>, AllocError> {
    let mut draws = Draws::new(number);
    let other = match seeds.get(draws.below(seeds.len())) {
        Some(other) => other,
        None => seed,
    };
    let (bytes, others) = (seed.bytes.as_slice(), other.bytes.as_slice());
    hostile(alloc, &mut draws, bytes, others)
}

/// How long the proved code takes for bytes by itself; no time where times aren't wanted.
fn time_alone<R: AllocGlobal + CpuClock>(
    rt: &R,
    ground: &Ground,
    seed: &Seed,
    bytes: &[u8],
    has_times: bool,
) -> io::Result<Duration> {
    if !has_times {
        return Ok(Duration::ZERO);
    }
    let start = rt.thread_cpu_time()?;
    judge_alone(rt.alloc(), ground.schemas.as_slice(), seed, bytes)?;
    let end = rt.thread_cpu_time()?;
    Ok(end.saturating_sub(start))
}

/// Judges the input of a number, and prints it where it differs.
fn judge_made<R: Print + AllocGlobal + CpuClock>(
    rt: &R,
    ground: &Ground,
    number: u64,
    has_times: bool,
    tally: &mut Tally,
) -> io::Result<()> {
    let (seeds, schemas) = (ground.seeds.as_slice(), ground.schemas.as_slice());
    let place = number.checked_rem(seeds.len() as u64).unwrap_or(0) as usize;
    let Some(seed) = seeds.get(place) else {
        tally.differs();
        return Ok(());
    };
    let bytes = made(rt.alloc(), seeds, seed, number)?;
    let text = bytes.as_slice();
    let order = number % ORDERS;
    let verdict = judge(rt.alloc(), schemas, seed, text, order)?;
    let word = seed.sort.word();
    if verdict == Verdict::Differs {
        println!(rt;
            "input {number}, of {word}, differs: {}",
            text.escape_ascii()
        )?;
    }
    let taken = time_alone(rt, ground, seed, text, has_times)?;
    tally.add(word, verdict, taken, text.len())?;
    Ok(())
}

/// Judges so many inputs, and prints what came of them.
fn judge_all<R: Print + AllocGlobal + CpuClock>(
    rt: &R,
    ground: &Ground,
    count: u64,
    has_times: bool,
    tally: &mut Tally,
) -> io::Result<()> {
    judge_seeds(rt, ground, tally)?;
    for number in 0..count {
        judge_made(rt, ground, number, has_times, tally)?;
    }
    tally.print(rt, has_times)?;
    println!(rt;
        "{} inputs of {} seeds, {} differ",
        tally.inputs,
        ground.seeds.len(),
        tally.differ
    )
}

/// Judges what the words ask for, and prints what came of it; whether nothing differs.
pub fn run<R: std::rt::Files + Print + AllocGlobal + CpuClock>(
    rt: &R,
    words: &[String],
) -> io::Result<bool> {
    let [first, names @ ..] = words else {
        println!(rt; "usage: check_hostile NUMBER [times] FILE ..")?;
        return Ok(false);
    };
    let Ok(count) = first.as_str().parse::<u64>() else {
        println!(rt; "{}: it is no number", first.as_str())?;
        return Ok(false);
    };
    let has_times = names.iter().any(|name| name.as_str() == "times");
    let mut tally = Tally::new(rt.alloc());
    let seeds = read_files(rt, names, &mut tally)?.into_items();
    let Some(schemas) = schemas_of(rt.alloc(), seeds.as_slice())? else {
        println!(rt; "a Mojom file that others are over is refused")?;
        return Ok(false);
    };
    let seeds = without_over(rt.alloc(), seeds)?;
    let ground = Ground { seeds, schemas };
    judge_all(rt, &ground, count, has_times, &mut tally)?;
    Ok(tally.differ == 0)
}
