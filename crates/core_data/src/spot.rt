//! Where bytes are moved.

ghost use Rattle.std.specs.Prelude.{◌≡◌, ◌<◌, ◌-◌, ◌^◌};
ghost use Rattle.core_state.specs.Agreement.{Holds};
ghost use Rattle.core_data.specs.Spots.{is_shut_at, other_token, same_side, side_asked, spot_in};

use bind_model::{Flow, Why};
use core_state::{State, is_out};
use data_pipe::{DataToken, Side};
use handle_table::{Place, Thing, TokenId};
use message_pipe::Pipes;

/// A token of a data pipe: its name, that of the producer, and whether the other side is gone.
#[derive(Clone, Copy)]
pub struct Spot {
    pub token: TokenId,
    pub producer: TokenId,
    pub gone: bool,
}

/// The side that something is asked of.
pub fn side_asked(flow: &Flow) -> Side
    ensures { result ≡ side_asked flow.now }
{
    match flow {
        Flow::Put(_, _) | Flow::BeginPut | Flow::EndPut(_) => Side::Producer,
        Flow::Get(_, _) | Flow::BeginGet | Flow::EndGet(_) => Side::Consumer,
    }
}

/// Whether two sides are one.
pub fn same_side(one: Side, other: Side) -> bool
    ensures { result ≡ same_side one other }
{
    match (one, other) {
        (Side::Producer, Side::Producer) | (Side::Consumer, Side::Consumer) => true,
        (Side::Producer, Side::Consumer) | (Side::Consumer, Side::Producer) => false,
    }
}

/// The token of the other side.
pub fn other_token(found: DataToken) -> TokenId
    requires { found.producer.serial < 2 ^ 32 - 1 }
    ensures { result ≡ other_token found }
{
    match found.side {
        Side::Producer => TokenId {
            seq: found.producer.seq,
            serial: found.producer.serial + 1,
        },
        Side::Consumer => found.producer,
    }
}

/// Whether a token is closed.
fn is_shut(pipes: &Pipes, token: TokenId) -> bool
    ensures { result ≡ is_shut_at pipes.now token }
{
    match pipes.place(Thing::Token(token)) {
        Some(Place::Closed) => true,
        _ => false,
    }
}

/// Where this is asked, or why nothing is moved: its handle isn't with a caller, or is of no data pipe, or of
/// its other side.
pub(crate) fn find_spot(state: &State, thing: Thing, flow: &Flow) -> Result<Spot, Why>
    requires { Holds state.now }
    ensures { result ≡ spot_in state.now thing flow.now }
{
    if !is_out(&state.pipes, thing) {
        return Err(Why::NoName);
    }
    let Thing::Token(token) = thing else {
        return Err(Why::NotData);
    };
    let Some(found) = state.tables.flows.find(token) else {
        return Err(Why::NotData);
    };
    if !same_side(found.side, side_asked(flow)) {
        return Err(Why::NotData);
    }
    Ok(Spot {
        token,
        producer: found.producer,
        gone: is_shut(&state.pipes, other_token(found)),
    })
}
