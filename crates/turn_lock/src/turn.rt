//! The turn itself: it is taken, the operation runs, its entry is noted, and the turn is given back.

ghost use Rattle.std.specs.Prelude.{◌≡◌, ℕ, ◌<◌, ◌^◌, ◌==◌, not, false, [], ◌∷◌, length, IfOk, IfErr, List, Some, slice_get};
ghost use Rattle.turn_lock.specs.Given.{TakesGiven, ReturnsGiven};
ghost use Rattle.turn_lock.specs.Passing.{IsPass, Suits, Adds, Ran, Learns, Closes, IsOf, IsFresh, mine_of};
ghost use Rattle.turn_lock.specs.steps.Turning.{HasNumber, Knows, holding, grown, releasing, dealing, newcomer};
ghost use Rattle.turn_lock.specs.steps.Turns.{IsDealer, IsIdle, HasValue, Gained, Matches, learned, Settles, Rejoined};

use crate::entries::Entries;
use crate::pass::{Board, Pass, Place, Turn};
use crate::plays::{Copies, Deals, Gives, Joins, Looks, Notes, Takes};
use atomic_table::{Refused, Table};
use std::alloc::{AllocError, AllocFailed, Global};
use std::snapshot::Snapshot;
use std::sync::Wait;

/// A table for the value, with the words that say how many entries it has and whether a pass has the turn; and the seat that hands out
/// passes. Without memory the value comes back.
fn lay<T: Entries>(alloc: Global, value: T, seats: u64) -> Result<(Board<T>, Place<T>), T>
    requires { T.entries value ≡ [] }
    ensures ok { IfOk result (λ t. (t.0.shared.table_id.words ≡ 2) × (t.0.shared.table_id.slots ≡ 1) × (t.1.table_id ≡ t.0.shared.table_id)
        × IsDealer t.1.me × (t.1.me.0.made ≡ 0) × (t.1.me.0.parts ≡ []) × (t.1.me.0.seen ≡ []) × (t.1.me.0.basis ≡ Some (T.basis value))
        × (t.0.shared.key.0.value ≡ value) × (t.0.shared.key.1 ≡ seats)) }
    ensures err { IfErr result (λ x. x ≡ value) }
{
    let _ = value.count();
    let about = (Snapshot::of(&value), seats);
    let mut slots = Vec::new(alloc);
    if let Err(failed) = slots.push(value) {
        let AllocFailed { value } = failed;
        slots.destroy_empty();
        return Err(value);
    }
    match Table::new(alloc, &[0, 0], slots, &about) {
        Ok(made) => Ok(made),
        Err(Refused { mut slots }) => {
            let Some(value) = slots.pop() else {
                unreachable!()
            };
            slots.destroy_empty();
            Err(value)
        }
    }
}

/// Waits until the turn is free, and takes it with the value. The turn's word is 2 then, since others may wait too.
fn wait_for<T: Entries, W: Wait>(rt: &W, board: &Board<T>, seat: &mut Place<T>)
    requires table { (seat.old.table_id ≡ board.now.shared.table_id) × (board.now.shared.table_id.words ≡ 2) }
    requires pass { (n : ℕ) × (mine : List T.Entry) × IsPass seat.old.me n mine }
    ensures table { (seat.new.table_id ≡ seat.old.table_id) }
    ensures took { HasValue seat.new.me (λ y. (seat.new.me.0 ≡ holding T.entries T.number T.basis T.lawful seat.old.me.0 (T.entries y))
        × Knows T.entries T.number T.basis T.lawful seat.old.me.0 (T.entries y)
        × ((b : T.Basis) → seat.old.me.0.basis ≡ Some b → b ≡ T.basis y)) }
{
    for _ in rt.forever() {
        if board.shared.swap::<Takes>(seat, 1, 2) == 0 {
            return;
        }
        board.shared.park(rt, 1, 2);
    }
    unreachable!()
}

/// Takes the turn with the value, where it is free at once with a word of 1; where it isn't, waits for it.
fn take<T: Entries, W: Wait>(rt: &W, board: &Board<T>, seat: &mut Place<T>)
    requires table { (seat.old.table_id ≡ board.now.shared.table_id) × (board.now.shared.table_id.words ≡ 2) }
    requires pass { (n : ℕ) × (mine : List T.Entry) × IsPass seat.old.me n mine }
    ensures table { (seat.new.table_id ≡ seat.old.table_id) }
    ensures took { HasValue seat.new.me (λ y. (seat.new.me.0 ≡ holding T.entries T.number T.basis T.lawful seat.old.me.0 (T.entries y))
        × Knows T.entries T.number T.basis T.lawful seat.old.me.0 (T.entries y)
        × ((b : T.Basis) → seat.old.me.0.basis ≡ Some b → b ≡ T.basis y)) }
{
    if board.shared.compare_exchange::<Takes>(seat, 1, 0, 1) != 0 {
        wait_for(rt, board, seat);
    }
}

/// Runs the operation on the value that is out with the seat, and says whether the number of entries changed.
fn run<T: Entries, A, R, F: FnOnce(&mut T, A) -> R>(
    board: &Board<T>,
    seat: &mut Place<T>,
    given: A,
    op: F,
) -> (R, bool)
    requires table { seat.old.table_id ≡ board.now.shared.table_id }
    requires value { HasValue seat.old.me (λ y. TakesGiven F.FnOnce op given y) }
    ensures table { (seat.new.table_id ≡ seat.old.table_id) × (seat.new.me.0 ≡ seat.old.me.0) }
    ensures value { HasValue seat.old.me (λ y. HasValue seat.new.me (λ z. ReturnsGiven F.FnOnce op given y result.0 z
        × (result.1 ≡ not (length (T.entries y) == length (T.entries z))) × (length (T.entries z) < 2 ^ 64)
        × T.lawful (T.basis z) (T.entries z))) }
{
    let value = seat.slot_mut(&board.shared, 0);
    let before = value.count();
    let result = op(&mut *value, given);
    let after = value.count();
    (result, before != after)
}

/// Notes the one entry that the value has gained.
fn note<T: Entries>(board: &Board<T>, seat: &mut Place<T>)
    requires table { (seat.old.table_id ≡ board.now.shared.table_id) × (board.now.shared.table_id.words ≡ 2) }
    requires value { HasValue seat.old.me (λ y. Gained T.entries T.number T.basis T.lawful seat.old.me.0 y) }
    ensures table { seat.new.table_id ≡ seat.old.table_id }
    ensures value { HasValue seat.old.me (λ y. seat.new.me
        ≡ (grown T.entries T.number T.basis T.lawful seat.old.me.0 (T.entries y), (0, y) ∷ [])) }
{
    board.shared.fetch_add::<Notes>(seat, 0, 1);
}

/// Gives the turn and the value back, and wakes one that waits, where one may.
fn give<T: Entries>(board: &Board<T>, seat: &mut Place<T>)
    requires table { (seat.old.table_id ≡ board.now.shared.table_id) × (board.now.shared.table_id.words ≡ 2) }
    requires value { HasValue seat.old.me (λ y. Matches T.entries T.number T.basis T.lawful seat.old.me.0 y) }
    ensures table { seat.new.table_id ≡ seat.old.table_id }
    ensures value { seat.new.me ≡ (releasing T.entries T.number T.basis T.lawful seat.old.me.0, []) }
{
    if board.shared.swap::<Gives>(seat, 1, 0) == 2 {
        board.shared.wake_one(1);
    }
}

/// The other seat sees all that this one has seen.
fn show<T: Entries>(board: &Board<T>, from: &mut Place<T>, to: &mut Place<T>)
    requires table { (from.old.table_id ≡ board.now.shared.table_id) × (to.old.table_id ≡ board.now.shared.table_id)
        × (board.now.shared.table_id.words ≡ 2) }
    requires rests { to.old.me.0.holds ≡ false }
    ensures table { (from.new.table_id ≡ from.old.table_id) × (to.new.table_id ≡ to.old.table_id) }
    ensures from { from.new.me ≡ from.old.me }
    ensures to { (log : List T.Entry)
        × (to.new.me ≡ (learned T.entries T.number T.basis T.lawful to.old.me.0 from.old.me.0.seen log, to.old.me.1))
        × Learns T.entries T.number T.basis T.lawful to.old.me.0 from.old.me.0.seen log }
{
    let copy = board.shared.split_seat::<Copies>(from);
    board.shared.join_seat::<Joins>(to, copy);
    board.shared.load::<Looks>(to, 0);
}

/// Takes a pass in.
fn rejoin<T: Entries>(board: &Board<T>, seat: &mut Place<T>, pass: Pass<T>)
    requires table { (seat.old.table_id ≡ board.now.shared.table_id) × (pass.place.table_id ≡ board.now.shared.table_id)
        × (board.now.shared.table_id.words ≡ 2) }
    requires idle { IsIdle seat.old.me }
    ensures table { seat.new.table_id ≡ seat.old.table_id }
    ensures empty { seat.new.me.1 ≡ [] }
    ensures joined { Rejoined T.entries T.number T.basis T.lawful seat.old.me.0 seat.new.me.0 pass.number pass.place.me.0.seen
        (mine_of pass.place.me.0.parts) }
{
    let Pass { number: _, place } = pass;
    board.shared.join_seat::<Joins>(seat, place);
    board.shared.load::<Looks>(seat, 0);
}

/// Takes the value out of a table that nobody shares any more.
fn unlay<T: Entries>(board: Board<T>, seat: Place<T>) -> T
    requires table { (seat.table_id ≡ board.shared.table_id) × (board.shared.table_id.slots ≡ 1) }
    requires idle { IsIdle seat.me }
    requires all { (n : ℕ) → n < board.shared.key.1 → HasNumber n seat.me.0.parts }
    ensures value { Knows T.entries T.number T.basis T.lawful seat.me.0 (T.entries result)
        × (seat.me.0.basis ≡ Some (T.basis result)) }
{
    let mut closed = board.close_with(seat);
    let value = closed.take(0);
    closed.free();
    value
}

/// Hands out the next pass.
fn deal<T: Entries>(board: &Board<T>, dealer: &mut Place<T>, number: u64) -> Pass<T>
    requires table { (dealer.old.table_id ≡ board.now.shared.table_id) × (board.now.shared.table_id.words ≡ 2) }
    requires dealer { IsDealer dealer.old.me }
    requires room { dealer.old.me.0.made < board.now.shared.key.1 }
    requires number { dealer.old.me.0.made ≡ number }
    ensures table { dealer.new.table_id ≡ dealer.old.table_id }
    ensures dealer { dealer.new.me ≡ (dealing dealer.old.me.0, dealer.old.me.1) }
    ensures pass { (result.place.table_id ≡ dealer.old.table_id) × (result.place.me ≡ (newcomer dealer.old.me.0, [])) }
    ensures number { result.number ≡ number }
{
    let place = board.shared.split_seat::<Deals>(dealer);
    Pass { number, place }
}

/// Notes the entry that the value has gained, if it has, and gives the turn back.
fn settle<T: Entries>(board: &Board<T>, seat: &mut Place<T>, grew: bool)
    requires table { (seat.old.table_id ≡ board.now.shared.table_id) × (board.now.shared.table_id.words ≡ 2) }
    requires value { HasValue seat.old.me (λ y. Settles T.entries T.number T.basis T.lawful seat.old.me.0 y grew) }
    ensures table { seat.new.table_id ≡ seat.old.table_id }
    ensures value { HasValue seat.old.me (λ y. seat.new.me ≡ (
      releasing T.entries T.number T.basis T.lawful
          (grown T.entries T.number T.basis T.lawful seat.old.me.0 (T.entries y)),
      [],
    )) }
{
    if grew {
        note(board, seat);
    }
    give(board, seat);
}

impl<T: Entries> Turn<T> {
    /// A turn over a value with no entries, and its passes, numbered from 0. Without memory the value comes back.
    pub fn new(
        alloc: Global,
        value: T,
        seats: usize,
    ) -> Result<(Turn<T>, Vec<Pass<T>>), (T, AllocError)>
        requires { T.entries value ≡ [] }
        ensures turn { IfOk result (λ t. (t.0.board.shared.key.0.value ≡ value) × (t.0.board.shared.key.1 ≡ seats)) }
        ensures passes { IfOk result (λ t. (length t.1.items ≡ seats) × ((k : ℕ) (p : _) → slice_get t.1.items k ≡ Some p
            → (p.number ≡ k) × IsFresh t.0.board.shared.table_id (Some (T.basis value)) k p.place.table_id p.place.me)) }
        ensures err { IfErr result (λ x. x.0 ≡ value) }
    {
        let Ok(mut passes) = Vec::with_capacity(alloc, seats) else {
            return Err((value, AllocError));
        };
        match lay(alloc, value, seats as u64) {
            Err(value) => {
                passes.destroy_empty();
                Err((value, AllocError))
            }
            Ok((board, mut dealer)) => {
                for _ in 0..seats {
                    let number = passes.len() as u64;
                    let pass = deal(&board, &mut dealer, number);
                    if let Err(failed) = passes.push(pass) {
                        let AllocFailed { value: _value } = failed;
                        let Pass {
                            number: _,
                            place: _place,
                        } = _value;
                        unreachable!()
                    }
                }
                Ok((Turn { board }, passes))
            }
        }
    }

    /// Waits until the turn is free, and runs the operation on the value and on what is given, which may be what must be spent. The
    /// operation adds no entry, or one that names the pass, and may count on a lawful list that begins with what the pass has seen and
    /// has of it just its own entries.
    pub fn with<A, R, W: Wait, F: FnOnce(&mut T, A) -> R>(
        &self,
        rt: &W,
        pass: &mut Pass<T>,
        given: A,
        op: F,
    ) -> R
        requires pass { pass.old.place.table_id ≡ self.now.board.shared.table_id }
        requires op { (x : T) → Suits T.entries T.number T.basis T.lawful pass.old.place.me.0.basis pass.old.number pass.old.place.me.0.seen
            (mine_of pass.old.place.me.0.parts) x
            → TakesGiven F.FnOnce op given x }
        requires adds { (x : T) (r : R) (z : T)
            → Suits T.entries T.number T.basis T.lawful pass.old.place.me.0.basis pass.old.number pass.old.place.me.0.seen
            (mine_of pass.old.place.me.0.parts) x
            → ReturnsGiven F.FnOnce op given x r z → Adds T.entries T.number T.basis T.lawful pass.old.number x z }
        ensures pass { IsOf pass.old.place.table_id pass.old.place.me.0.basis pass.new.place.table_id pass.new.place.me }
        ensures number { pass.new.number ≡ pass.old.number }
        // What was seen then is the whole list at that turn.
        ensures ran { Ran T.entries T.number T.basis T.lawful (ReturnsGiven F.FnOnce op given) pass.old.place.me.0.basis pass.old.number
            pass.old.place.me.0.seen (mine_of pass.old.place.me.0.parts) result pass.new.place.me.0.seen (mine_of pass.new.place.me.0.parts) }
    {
        take(rt, &self.board, &mut pass.place);
        let (result, grew) = run(&self.board, &mut pass.place, given, op);
        settle(&self.board, &mut pass.place, grew);
        result
    }

    /// Each pass then has seen all that both had. Waits for nobody.
    pub fn meet(&self, one: &mut Pass<T>, two: &mut Pass<T>)
        requires one { one.old.place.table_id ≡ self.now.board.shared.table_id }
        requires two { two.old.place.table_id ≡ self.now.board.shared.table_id }
        ensures one { IsOf one.old.place.table_id one.old.place.me.0.basis one.new.place.table_id one.new.place.me
            × (one.new.number ≡ one.old.number) × (one.new.place.me.0.parts ≡ one.old.place.me.0.parts)
            × Learns T.entries T.number T.basis T.lawful one.old.place.me.0 two.old.place.me.0.seen one.new.place.me.0.seen }
        ensures two { IsOf two.old.place.table_id two.old.place.me.0.basis two.new.place.table_id two.new.place.me
            × (two.new.number ≡ two.old.number) × (two.new.place.me.0.parts ≡ two.old.place.me.0.parts)
            × Learns T.entries T.number T.basis T.lawful two.old.place.me.0 one.old.place.me.0.seen two.new.place.me.0.seen }
    {
        show(&self.board, &mut one.place, &mut two.place);
        show(&self.board, &mut two.place, &mut one.place);
    }

    /// Takes all passes in, and gives the value: its list begins with what each has seen, and has of each just its own entries.
    pub fn close(self, mut passes: Vec<Pass<T>>) -> T
        requires some { 0 < self.board.shared.key.1 }
        requires passes { (k : ℕ) (p : _) → slice_get passes.items k ≡ Some p
            → IsOf self.board.shared.table_id (Some (T.basis self.board.shared.key.0.value)) p.place.table_id p.place.me }
        requires all { (n : ℕ) → n < self.board.shared.key.1
            → (k : ℕ) × (p : _) × (slice_get passes.items k ≡ Some p) × (p.number ≡ n) }
        ensures value { (T.basis result ≡ T.basis self.board.shared.key.0.value) × T.lawful (T.basis result) (T.entries result) }
        ensures passes { (k : ℕ) (p : _) → slice_get passes.items k ≡ Some p
            → Closes T.entries T.number T.basis T.lawful p.number p.place.me.0.seen (mine_of p.place.me.0.parts) result }
    {
        let Turn { board } = self;
        let Some(first) = passes.pop() else {
            unreachable!()
        };
        let Pass {
            number: _,
            place: mut seat,
        } = first;
        while let Some(pass) = passes.pop() {
            rejoin(&board, &mut seat, pass);
        }
        passes.destroy_empty();
        unlay(board, seat)
    }
}
