//! What isn't closed.

ghost use Rattle.std.specs.Prelude.{ℕ, ◌≡◌, ◌<◌, ◌^◌, ◌++◌, IfOk, OnOk, Some};
ghost use Rattle.core_state.specs.Agreement.{is_shut};
ghost use Rattle.core_state.specs.Numbering.{numbered, count_by, all_by, all_made, open_in};
ghost use Rattle.core_state.specs.declared.left.Sort.{Sort as sorts};

use handle_table::{Place, PlaceTable, Thing, TokenId};
use mj_base::EndId;
use std::alloc::{AllocError, Global};

/// What sequences number: their ends and their tokens, each by itself.
#[derive(Clone, Copy)]
pub enum Sort {
    Ends,
    Tokens,
}

/// A thing by the sequence that made it and its number there.
fn numbered(sort: Sort, seq: u32, serial: u32) -> Thing
    ensures { result ≡ numbered sort seq serial }
{
    match sort {
        Sort::Ends => Thing::End(EndId { seq, serial }),
        Sort::Tokens => Thing::Token(TokenId { seq, serial }),
    }
}

/// Whether what is at this place is closed.
fn is_shut(place: Place) -> bool
    ensures { result ≡ is_shut (Some place) }
{
    match place {
        Place::Closed => true,
        Place::Out | Place::Unread(_) | Place::Bound => false,
    }
}

/// Adds what a sequence made and what isn't closed.
fn push_open(
    places: &PlaceTable,
    sort: Sort,
    seq: u32,
    left: &mut Vec<Thing>,
) -> Result<(), AllocError>
    requires { count_by sort places.now seq < 2 ^ 32 }
    ensures { OnOk result (left.new.items ≡ left.old.items ++ open_in places.now (all_by sort places.now seq)) }
{
    let mut serial = 0;
    while let Some(place) = places.place(numbered(sort, seq, serial)) {
        if !is_shut(place) {
            left.push(numbered(sort, seq, serial))?;
        }
        serial += 1;
    }
    Ok(())
}

/// Adds what these sequences made and what isn't closed, by sequence and by number.
fn push_all(
    places: &PlaceTable,
    sort: Sort,
    seqs: u32,
    left: &mut Vec<Thing>,
) -> Result<(), AllocError>
    requires { (seq : ℕ) → count_by sort places.now seq < 2 ^ 32 }
    ensures { OnOk result (left.new.items ≡ left.old.items ++ open_in places.now (all_made sort places.now seqs)) }
{
    for seq in 0..seqs {
        push_open(places, sort, seq, left)?;
    }
    Ok(())
}

/// What isn't closed of what these sequences made: the ends before the tokens, both by sequence and by number.
pub fn open_things(places: &PlaceTable, alloc: Global, seqs: u32) -> Result<Vec<Thing>, AllocError>
    requires { (sort : sorts) (seq : ℕ) → count_by sort places.now seq < 2 ^ 32 }
    ensures { IfOk result (λ things. things.items
        ≡ open_in places.now (all_made Sort.Ends places.now seqs) ++ open_in places.now (all_made Sort.Tokens places.now seqs)) }
{
    let mut things = Vec::new(alloc);
    push_all(places, Sort::Ends, seqs, &mut things)?;
    push_all(places, Sort::Tokens, seqs, &mut things)?;
    Ok(things)
}
