//! Sequences that each make 100 pipes over one hub, in threads of their own.

ghost use Rattle.std.specs.Prelude.{ℕ, ◌≡◌, ◌<◌, length, slice_index_or};
ghost use Rattle.std.specs.Thread.{IsSync};

use bind_hub::Seat;
use bind_model::{Command, Refused, Reply};
use std::alloc::Global;
use std::sync::Wait;
use std::thread::{Threads, for_each_mut};

/// A sequence at its hub, and all that it was told.
pub struct Row<'h, R: Wait> {
    pub seat: Seat<'h, R>,
    pub told: Vec<Result<Reply, Refused>>,
}

/// Makes 100 pipes, if there is memory for what is told.
pub fn make_pipes<R: Wait>(
    alloc: Global,
    seat: &mut Seat<'_, R>,
    told: &mut Vec<Result<Reply, Refused>>,
)
    ensures hub { seat.new.hub.now ≡ seat.old.hub.now }
    ensures number { seat.new.pass.number ≡ seat.old.pass.number }
{
    if told.reserve(100).is_err() {
        return;
    }
    for _ in 0..100u64 {
        told.push_reserved(seat.hub.step(seat.rt, alloc, &mut seat.pass, Command::Pipe));
    }
}

/// Lets each sequence make its pipes in a thread of its own.
pub fn work_slice<'h, R: Wait + Threads + Sync>(rt: &R, alloc: Global, rows: &mut [Row<'h, R>])
    ensures len { length rows.new ≡ length rows.old }
    ensures each { (k : ℕ) (d : _) → k < length rows.old → ((slice_index_or rows.new k d).seat.hub.now ≡ (slice_index_or rows.old k d).seat.hub.now)
        × ((slice_index_or rows.new k d).seat.pass.number ≡ (slice_index_or rows.old k d).seat.pass.number) }
{
    let threads = rows.len();
    if threads == 0 {
        return;
    }
    for_each_mut(
        rt,
        rows,
        threads,
        &|_k: usize, row: &mut Row<'_, R>|
            requires { IsSync R.row }
            ensures { (row.new.seat.hub.now ≡ row.old.seat.hub.now) × (row.new.seat.pass.number ≡ row.old.seat.pass.number) }
        {
            make_pipes(alloc, &mut row.seat, &mut row.told);
        },
    );
}

/// The same for a list of rows.
pub fn work_rows<'h, R: Wait + Threads + Sync>(rt: &R, alloc: Global, rows: &mut Vec<Row<'h, R>>)
    ensures len { length rows.new.items ≡ length rows.old.items }
    ensures each { (k : ℕ) (d : _) → k < length rows.old.items
        → ((slice_index_or rows.new.items k d).seat.hub.now ≡ (slice_index_or rows.old.items k d).seat.hub.now)
        × ((slice_index_or rows.new.items k d).seat.pass.number ≡ (slice_index_or rows.old.items k d).seat.pass.number) }
{
    work_slice(rt, alloc, rows.as_mut_slice());
}
