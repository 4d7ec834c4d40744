//! Places in slots: by an index of names each is found, made and changed.

ghost use Rattle.std.specs.Prelude.{◌≡◌, ◌+◌, ◌<◌, true, None, if◌then◌else◌, OnOk, OnErr, IsSome, IsTrue, is_some};
ghost use Rattle.std.specs.Option.{option_copied, option_map};
ghost use Rattle.mj_base.specs.declared.ids.EndId.{EndId as end_id};
ghost use Rattle.mj_base.specs.declared.limits.TheConstants.{MAX_EVENTS};
ghost use Rattle.handle_table.specs.Things.{same_end};
ghost use Rattle.bind_model.specs.Machine.{is_remote};
ghost use Rattle.endpoint_router.specs.Rows.{has_room, is_pending, next_number, row_seen, seen_in};
ghost use Rattle.endpoint_router.specs.Table.{drawn_of, is_counted};
ghost use Rattle.endpoint_router.specs.Turns.{turn_of};
ghost use Rattle.endpoint_router.specs.Slots.{AreCounted, AreNamed, IsIndexed};
ghost use Rattle.endpoint_router.specs.steps.SlotChanges.{Becomes, Enters, IsKept, MayTurn, Places, Puts, RowsStay};
ghost use Rattle.endpoint_router.specs.Slots.{key_in, row_there, slot_at};
ghost use Rattle.endpoint_router.specs.steps.SlotChanges.{endpoint_by, own_by, row_by, seen_by};

use crate::draws::Draws;
use crate::index::Index;
use crate::place;
use crate::row::Row;
use crate::slot::Placed;
use crate::turns::Turn;
use bind_model::limits::REMOTE_IDS;
use bind_model::{Endpoint, EndpointName};
use mj_base::EndId;
use slab::Slab;
use std::alloc::AllocError;
use wire_encoder::EndpointSide;

/// The row in the slot of a key.
fn row_at(rows: &Slab<Placed>, key: usize) -> Option<&Row>
    ensures { option_map row_seen (option_copied result) ≡ seen_in (row_there (slot_at rows.now.slots key)) }
{
    match rows.get(key) {
        Some(placed) => placed.row(),
        None => None,
    }
}

/// The row of the endpoint of an id at an end; none where the id isn't there.
fn row<'a>(index: &Index, rows: &'a Slab<Placed>, end: EndId, id: u32) -> Option<&'a Row>
    ensures { option_map row_seen (option_copied result) ≡ seen_by index.now rows.now.slots end id }
{
    match index.key(end, id) {
        Some(key) => row_at(rows, key),
        None => None,
    }
}

/// The endpoint of an id at an end; none where the id isn't there.
pub(crate) fn find(index: &Index, rows: &Slab<Placed>, end: EndId, id: u32) -> Option<Endpoint>
    ensures { result ≡ endpoint_by index.now rows.now.slots end id }
{
    let found = row(index, rows, end, id)?;
    Some(found.endpoint())
}

/// The number that the next request of the endpoint of an id at an end gets; 0 where the id isn't there.
pub(crate) fn next_request(index: &Index, rows: &Slab<Placed>, end: EndId, id: u32) -> u64
    ensures { result ≡ next_number (seen_by index.now rows.now.slots end id) }
{
    match row(index, rows, end, id) {
        Some(found) => found.next_request(),
        None => 0,
    }
}

/// Whether a request of this method waits at the endpoint of an id at an end.
pub(crate) fn is_asked(
    index: &Index,
    rows: &Slab<Placed>,
    end: EndId,
    id: u32,
    request: u64,
    method: u32,
) -> bool
    ensures { result ≡ is_pending (seen_by index.now rows.now.slots end id) request method }
{
    match row(index, rows, end, id) {
        Some(found) => found.is_pending(request, method),
        None => false,
    }
}

/// Whether an end is a remote: the side of its endpoint 0.
fn is_remote(index: &Index, rows: &Slab<Placed>, end: EndId) -> bool
    ensures { result ≡ is_remote (endpoint_by index.now rows.now.slots end 0) }
{
    match find(index, rows, end, 0) {
        Some(main) => match main.side {
            EndpointSide::Remote => true,
            EndpointSide::Receiver => false,
        },
        None => false,
    }
}

/// The id that an end makes next.
pub(crate) fn next_id(index: &Index, rows: &Slab<Placed>, drawn: &Draws, end: EndId) -> u32
    requires { drawn_of drawn.now end < MAX_EVENTS }
    ensures { result ≡ own_by index.now rows.now.slots drawn.now end }
{
    let own = drawn.count(end) + 1;
    if is_remote(index, rows, end) {
        own + REMOTE_IDS
    } else {
        own
    }
}

/// Makes a place for the endpoint of an id at an end that has none. The key is named before its slot is filled, so
/// that without memory nothing changes.
fn add_place(
    index: &mut Index,
    rows: &mut Slab<Placed>,
    end: EndId,
    id: u32,
) -> Result<(), AllocError>
    requires named { AreNamed index.old rows.old.slots }
    requires absent { key_in index.old end id ≡ None }
    ensures ok { OnOk result (Places end id index.old rows.old.slots index.new rows.new.slots) }
    ensures err { OnErr result ((index.new ≡ index.old) × (rows.new.slots ≡ rows.old.slots)) }
{
    rows.reserve(1)?;
    let key = rows.vacant_key();
    index.add(end, id, key)?;
    let name = EndpointName { end, id };
    rows.insert_reserved(Placed { name, row: None });
    Ok(())
}

/// Sees that the endpoint of an id at an end has a place. Without memory nothing changes.
fn make_place(
    index: &mut Index,
    rows: &mut Slab<Placed>,
    end: EndId,
    id: u32,
) -> Result<(), AllocError>
    requires { AreNamed index.old rows.old.slots }
    ensures ok { OnOk result (Places end id index.old rows.old.slots index.new rows.new.slots) }
    ensures err { OnErr result ((index.new ≡ index.old) × (rows.new.slots ≡ rows.old.slots)) }
{
    match index.key(end, id) {
        Some(_) => Ok(()),
        None => add_place(index, rows, end, id),
    }
}

/// Makes a place for the endpoint of an id at an end, and one for how many ids the end drew. Without memory no name
/// and no slot changes.
pub(crate) fn reserve(
    index: &mut Index,
    rows: &mut Slab<Placed>,
    drawn: &mut Draws,
    end: EndId,
    id: u32,
) -> Result<(), AllocError>
    requires { IsIndexed index.old rows.old.slots drawn.old }
    ensures sound { IsIndexed index.new rows.new.slots drawn.new }
    ensures same { IsKept index.old rows.old.slots drawn.old index.new rows.new.slots drawn.new }
    ensures there { OnOk result (is_some (key_in index.new end id) ≡ true) }
    ensures err { OnErr result ((index.new ≡ index.old) × (rows.new.slots ≡ rows.old.slots)) }
{
    drawn.make_count(end)?;
    make_place(index, rows, end, id)
}

/// Puts a row in the place of the endpoint of an id at an end.
pub(crate) fn put(index: &Index, rows: &mut Slab<Placed>, end: EndId, id: u32, row: Row)
    requires named { AreNamed index.now rows.old.slots }
    requires place { is_some (key_in index.now end id) ≡ true }
    ensures { Puts (row_seen row) end id index.now rows.old.slots rows.new.slots }
{
    match index.key(end, id) {
        Some(key) => {
            let placed = &mut rows[key];
            place::put(&mut placed.row, row);
        }
        None => {}
    }
}

/// Enters a row under an id at an end. Without memory no name and no slot changes.
pub(crate) fn enter(
    index: &mut Index,
    rows: &mut Slab<Placed>,
    drawn: &mut Draws,
    end: EndId,
    id: u32,
    row: Row,
) -> Result<(), AllocError>
    requires { IsIndexed index.old rows.old.slots drawn.old }
    ensures sound { IsIndexed index.new rows.new.slots drawn.new }
    ensures counts { (x : end_id) → drawn_of drawn.new x ≡ drawn_of drawn.old x }
    ensures ok { OnOk result (Enters (row_seen row) end id index.old rows.old.slots index.new rows.new.slots) }
    ensures err { OnErr result ((index.new ≡ index.old) × (rows.new.slots ≡ rows.old.slots)) }
{
    reserve(index, rows, drawn, end, id)?;
    put(index, rows, end, id, row);
    Ok(())
}

/// Counts one more id that an end drew.
fn count_one(drawn: &mut Draws, end: EndId)
    requires few { drawn_of drawn.old end < MAX_EVENTS }
    requires there { is_counted drawn.old end ≡ true }
    ensures counts { (x : end_id) → drawn_of drawn.new x ≡ (if same_end end x then drawn_of drawn.old x + 1 else drawn_of drawn.old x) }
    ensures keeps { (x : end_id) → is_counted drawn.old x ≡ true → is_counted drawn.new x ≡ true }
{
    let own = drawn.count(end);
    drawn.set(end, own + 1);
}

/// Puts a row in the place of the id that an end makes next, and counts that id.
pub(crate) fn associate(
    index: &Index,
    rows: &mut Slab<Placed>,
    drawn: &mut Draws,
    end: EndId,
    row: Row,
)
    requires sound { IsIndexed index.now rows.old.slots drawn.old }
    requires few { drawn_of drawn.old end < MAX_EVENTS }
    requires place { is_some (key_in index.now end (own_by index.now rows.old.slots drawn.old end)) ≡ true }
    ensures rows { Puts (row_seen row) end (own_by index.now rows.old.slots drawn.old end) index.now rows.old.slots rows.new.slots }
    ensures counted { AreCounted index.now drawn.new }
    ensures counts { (x : end_id) → drawn_of drawn.new x ≡ (if same_end end x then drawn_of drawn.old x + 1 else drawn_of drawn.old x) }
{
    let id = next_id(index, rows, drawn, end);
    count_one(drawn, end);
    put(index, rows, end, id, row);
}

/// Has the endpoint of an id at an end turn so.
pub(crate) fn turn(index: &Index, rows: &mut Slab<Placed>, end: EndId, id: u32, turn: Turn)
    requires named { AreNamed index.now rows.old.slots }
    requires may { MayTurn (row_by index.now rows.old.slots end id) turn }
    ensures { Becomes (option_map (turn_of turn)) end id index.now rows.old.slots rows.new.slots }
{
    match index.key(end, id) {
        Some(key) => {
            let placed = &mut rows[key];
            place::turn(&mut placed.row, turn);
        }
        None => {}
    }
}

/// Makes a place for the next request of the endpoint of an id at an end.
pub(crate) fn reserve_draw(
    index: &Index,
    rows: &mut Slab<Placed>,
    end: EndId,
    id: u32,
) -> Result<(), AllocError>
    requires named { AreNamed index.now rows.old.slots }
    requires there { IsSome (seen_by index.now rows.old.slots end id) }
    ensures rows { RowsStay index.now rows.old.slots rows.new.slots }
    ensures named { AreNamed index.now rows.new.slots }
    ensures room { OnOk result (IsTrue (has_room (row_by index.now rows.new.slots end id))) }
{
    match index.key(end, id) {
        Some(key) => {
            let placed = &mut rows[key];
            place::reserve(&mut placed.row)
        }
        None => Ok(()),
    }
}
