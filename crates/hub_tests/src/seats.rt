//! Seats for all passes of a hub, and the passes again.

ghost use Rattle.std.specs.Prelude.{ℕ, ◌≡◌, ◌<◌, ◌≤◌, [], Some, length, slice_get, IfSome, vec_capacity};
ghost use Rattle.std.specs.Arc.{arc_value};
ghost use Rattle.bind_model.specs.Replies.{Legal};
ghost use Rattle.bind_model.specs.WireOf.{wire_of};
ghost use Rattle.bind_hub.specs.Hubs.{schema_in, seqs_in};
ghost use Rattle.bind_hub.specs.Passes.{IsPassOf};

use crate::pipes::{Row, work_rows};
use bind_hub::{Hub, Pass, Seat};
use bind_model::{History, Refused, Reply};
use handle_table::Ended;
use mj_schema::Schema;
use std::alloc::Global;
use std::sync::{Arc, Wait};
use std::thread::Threads;

/// All that a sequence was told.
pub type Told = Vec<Result<Reply, Refused>>;

/// Seats for all passes, in a list that has room for them.
fn seat_all<'h, R: Wait>(
    rt: &'h R,
    alloc: Global,
    hub: &'h Hub,
    passes: &mut Vec<Pass>,
    rows: &mut Vec<Row<'h, R>>,
)
    requires room { (rows.old.items ≡ []) × (length passes.old.items ≤ vec_capacity rows.old) }
    requires passes { (k : ℕ) (p : _) → slice_get passes.old.items k ≡ Some p
        → IsPassOf hub.now.turn.board.shared.table_id (schema_in hub.now) (seqs_in hub.now) p.number p.place.table_id p.place.me.0 }
    ensures empty { (passes.new.items ≡ []) × (vec_capacity passes.new ≡ vec_capacity passes.old) × (length rows.new.items ≡ length passes.old.items) }
    ensures hub { (j : ℕ) (row : _) → slice_get rows.new.items j ≡ Some row → row.seat.hub.now ≡ hub.now }
    ensures each { (k : ℕ) (p : _) → slice_get passes.old.items k ≡ Some p → (j : ℕ) × (row : _) × (slice_get rows.new.items j ≡ Some row)
        × (row.seat.pass ≡ p) }
{
    while let Some(pass) = passes.pop() {
        let seat = Seat::new(hub, rt, pass);
        rows.push_reserved(Row {
            seat,
            told: Vec::new(alloc),
        });
    }
}

/// The passes of all seats again, and what was told.
fn rise_all<R: Wait>(rows: &mut Vec<Row<'_, R>>, passes: &mut Vec<Pass>, told: &mut Vec<Told>)
    requires room { (passes.old.items ≡ []) × (length rows.old.items ≤ vec_capacity passes.old) }
    requires told { (told.old.items ≡ []) × (length rows.old.items ≤ vec_capacity told.old) }
    ensures empty { rows.new.items ≡ [] }
    ensures each { (j : ℕ) (row : _) → slice_get rows.old.items j ≡ Some row → (k : ℕ) × (slice_get passes.new.items k ≡ Some row.seat.pass) }
    ensures back { (k : ℕ) (p : _) → slice_get passes.new.items k ≡ Some p → (j : ℕ) × (row : _) × (slice_get rows.old.items j ≡ Some row)
        × (row.seat.pass ≡ p) }
{
    while let Some(row) = rows.pop() {
        let Row { seat, told: some } = row;
        passes.push_reserved(seat.into_pass());
        told.push_reserved(some);
    }
}

/// Lets each pass make its pipes in a thread of its own: the passes again, and what was told.
pub fn side_by_side<R: Wait + Threads + Sync>(
    rt: &R,
    alloc: Global,
    hub: &Hub,
    passes: Vec<Pass>,
) -> (Vec<Pass>, Vec<Told>)
    requires passes { (k : ℕ) (p : _) → slice_get passes.items k ≡ Some p
        → IsPassOf hub.now.turn.board.shared.table_id (schema_in hub.now) (seqs_in hub.now) p.number p.place.table_id p.place.me.0 }
    ensures passes { (k : ℕ) (q : _) → slice_get result.0.items k ≡ Some q → IsPassOf hub.now.turn.board.shared.table_id (schema_in hub.now) (seqs_in hub.now)
        q.number q.place.table_id q.place.me.0 }
    ensures each { (k : ℕ) (p : _) → slice_get passes.items k ≡ Some p → (j : ℕ) × (q : _) × (slice_get result.0.items j ≡ Some q) × (q.number ≡ p.number) }
{
    let mut passes = passes;
    let mut told = Vec::new(alloc);
    let Ok(mut rows) = Vec::with_capacity(alloc, passes.len()) else {
        return (passes, told);
    };
    if told.reserve(passes.len()).is_err() {
        rows.destroy_empty();
        return (passes, told);
    }
    seat_all(rt, alloc, hub, &mut passes, &mut rows);
    work_rows(rt, alloc, &mut rows);
    rise_all(&mut rows, &mut passes, &mut told);
    rows.destroy_empty();
    (passes, told)
}

/// Lets what one sequence was told go, once all is over.
fn let_go(told: Told, over: &Ended) {
    let mut told = told;
    while let Some(one) = told.pop() {
        match one {
            Ok(reply) => reply.retire(over),
            Err(refused) => refused.retire(over),
        }
    }
    told.destroy_empty();
}

/// The same of all sequences.
fn let_all_go(told: Vec<Told>, over: &Ended) {
    let mut told = told;
    while let Some(one) = told.pop() {
        let_go(one, over);
    }
    told.destroy_empty();
}

/// The history of so many sequences that each made 100 pipes in a thread of its own.
pub fn pipes_by_threads<R: Wait + Threads + Sync>(
    rt: &R,
    alloc: Global,
    schema: Arc<Schema>,
    seqs: u32,
) -> Option<History>
    requires some { 0 < seqs }
    ensures legal { IfSome result (λ history. Legal (wire_of (arc_value schema)) seqs history.events) }
{
    let Ok((hub, passes)) = Hub::start(alloc, schema, seqs) else {
        return None;
    };
    let (passes, told) = side_by_side(rt, alloc, &hub, passes);
    let core = hub.close(passes);
    let (history, over) = core.end();
    let_all_go(told, &over);
    Some(history)
}
