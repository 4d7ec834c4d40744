//! How long turns on a plain value take: of one thread alone, and of threads that wait for one another.

ghost use Rattle.std.specs.Prelude.{ℕ, ◌≡◌, ◌<◌, ◌++◌, ◌∷◌, [], IfNone, IfSome, length, slice_index_or};
ghost use Rattle.turn_lock.specs.Passing.{IsOf};

use crate::timing::{ROUNDS, least};
use std::io;
use std::io::Print;
use std::sync::Wait;
use std::thread::{Threads, for_each_mut};
use std::time::{Clock, Duration};
use turn_lock::{Entries, Pass, Turn};

/// How many turns there are in a round, of all threads together.
const TURNS: u64 = 240_000;

/// The numbers of passes that turns have added, and how many turns added nothing.
#[derive(Drop)]
pub struct Tally {
    pub added: Vec<u64>,
    pub others: u64,
}

impl Tally {
    /// Adds the number of a pass, if it is to be added and there is memory.
    fn step(&mut self, number: u64, adds: bool) -> Option<u64>
        ensures some { IfSome result (λ added. (self.new.added.items ≡ self.old.added.items ++ added ∷ []) × (added ≡ number)) }
        ensures none { IfNone result (self.new.added.items ≡ self.old.added.items) }
    {
        if !adds {
            self.others = self.others.wrapping_add(1);
            return None;
        }
        match self.added.push(number) {
            Ok(()) => Some(number),
            Err(_) => None,
        }
    }
}

impl Entries for Tally {
    type Entry = u64;

    type Basis = ();

    ghost entries = { λ tally. tally.added.items };

    ghost number = { λ added. added };

    ghost basis = { λ _. tt };

    ghost lawful = { λ _ _. Unit {0} };

    fn count(&self) -> u64 {
        self.added.len() as u64
    }
}

/// A pass has so many turns.
fn take_turns<W: Wait>(rt: &W, turn: &Turn<Tally>, pass: &mut Pass<Tally>, times: u64, adds: bool)
    requires at { pass.old.place.table_id ≡ turn.now.board.shared.table_id }
    ensures number { pass.new.number ≡ pass.old.number }
    ensures pass { IsOf pass.old.place.table_id pass.old.place.me.0.basis pass.new.place.table_id pass.new.place.me }
{
    for _ in 0..times {
        let number = pass.number;
        turn.with(
            rt,
            pass,
            number,
            |tally: &mut Tally, number: u64| -> Option<u64> { tally.step(number, adds) },
        );
    }
}

/// Each pass has so many turns, in a thread of its own.
fn side_by_side<R: Wait + Threads + Sync>(
    rt: &R,
    turn: &Turn<Tally>,
    passes: &mut [Pass<Tally>],
    times: u64,
    adds: bool,
)
    requires at { (k : ℕ) (d : _) → k < length passes.old
        → (slice_index_or passes.old k d).place.table_id ≡ turn.now.board.shared.table_id }
    ensures len { length passes.new ≡ length passes.old }
    ensures each { (k : ℕ) (d : _) → k < length passes.old → ((slice_index_or passes.new k d).number ≡ (slice_index_or passes.old k d).number)
        × IsOf (slice_index_or passes.old k d).place.table_id (slice_index_or passes.old k d).place.me.0.basis
        (slice_index_or passes.new k d).place.table_id (slice_index_or passes.new k d).place.me }
{
    let threads = passes.len();
    if threads == 0 {
        return;
    }
    for_each_mut(
        rt,
        passes,
        threads,
        &|_k: usize, pass: &mut Pass<Tally>|
            requires { pass.old.place.table_id ≡ turn.now.board.shared.table_id }
            ensures { (pass.new.number ≡ pass.old.number)
                × IsOf pass.old.place.table_id pass.old.place.me.0.basis pass.new.place.table_id pass.new.place.me }
        {
            take_turns(rt, turn, pass, times, adds);
        },
    );
}

/// The same for a list of passes.
fn take_all<R: Wait + Threads + Sync>(
    rt: &R,
    turn: &Turn<Tally>,
    passes: &mut Vec<Pass<Tally>>,
    times: u64,
    adds: bool,
)
    requires at { (k : ℕ) (d : _) → k < length passes.old.items
        → (slice_index_or passes.old.items k d).place.table_id ≡ turn.now.board.shared.table_id }
    ensures len { length passes.new.items ≡ length passes.old.items }
    ensures each { (k : ℕ) (d : _) → k < length passes.old.items
        → ((slice_index_or passes.new.items k d).number ≡ (slice_index_or passes.old.items k d).number)
        × IsOf (slice_index_or passes.old.items k d).place.table_id (slice_index_or passes.old.items k d).place.me.0.basis
        (slice_index_or passes.new.items k d).place.table_id (slice_index_or passes.new.items k d).place.me }
{
    side_by_side(rt, turn, passes.as_mut_slice(), times, adds);
}

/// The time of a round, whose turns so many threads share; none without memory.
fn time_round<R: AllocGlobal + Clock + Wait + Threads + Sync>(
    rt: &R,
    threads: usize,
    adds: bool,
) -> io::Result<Option<Duration>>
    requires some { 0 < threads }
{
    let tally = Tally {
        added: Vec::new(rt.alloc()),
        others: 0,
    };
    let Ok((turn, mut passes)) = Turn::new(rt.alloc(), tally, threads) else {
        return Ok(None);
    };
    let times = TURNS.checked_div(threads as u64).unwrap_or(0);
    let start = rt.monotonic();
    take_all(rt, &turn, &mut passes, times, adds);
    let end = rt.monotonic();
    turn.close(passes);
    Ok(Some(end?.saturating_sub(start?)))
}

/// The tenths of a nanosecond that a turn takes in the quickest of some rounds; none without memory.
fn least_tenths<R: AllocGlobal + Clock + Wait + Threads + Sync>(
    rt: &R,
    threads: usize,
    adds: bool,
) -> io::Result<Option<u128>>
    requires some { 0 < threads }
{
    let mut best = None;
    for _ in 0..ROUNDS {
        let Some(taken) = time_round(rt, threads, adds)? else {
            return Ok(None);
        };
        best = least(best, Duration::ZERO, taken);
    }
    let nanoseconds = best.unwrap_or(Duration::ZERO).as_nanos();
    Ok(
        nanoseconds
            .saturating_mul(10)
            .checked_div(u128::from(TURNS)),
    )
}

/// Prints how long the turns of so many threads take.
fn time<R: Print + AllocGlobal + Clock + Wait + Threads + Sync>(
    rt: &R,
    threads: usize,
) -> io::Result<()>
    requires some { 0 < threads }
{
    let none = least_tenths(rt, threads, false)?.unwrap_or(0);
    let one = least_tenths(rt, threads, true)?.unwrap_or(0);
    println!(rt;
        "{threads} threads: {}.{} ns a turn that adds nothing, {}.{} one that adds an entry",
        none / 10,
        none % 10,
        one / 10,
        one % 10
    )
}

/// Times the turns of one thread alone, and of 2 and 4 threads.
pub fn time_all<R: Print + AllocGlobal + Clock + Wait + Threads + Sync>(rt: &R) -> io::Result<()> {
    time(rt, 1)?;
    time(rt, 2)?;
    time(rt, 4)
}
