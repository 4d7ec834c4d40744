//! New tokens.

ghost use Rattle.std.specs.Prelude.{◌≡◌, IfOk, IfErr, OnErr};
ghost use Rattle.core_state.specs.Doing.{CanDo, Done, HasRoom, Undone};
ghost use Rattle.core_ends.specs.steps.Unchanged.{Stays};

use bind_model::{Asked, Command, Event, Refused, Reply, Told};
use core_state::State;
use handle_table::{Handle, Handles, Thing, TokenSort};
use mj_base::{Items, SeqId};
use std::alloc::{AllocError, Global};

/// Makes a token.
pub fn mint(state: &mut State, alloc: Global, seq: SeqId, sort: TokenSort) -> Result<Reply, Refused>
    requires { CanDo state.old seq (Command.Mint sort) }
    ensures done { IfOk result (λ reply. Done state.old state.new seq (Command.Mint sort) reply) }
    ensures undone { IfErr result (λ refused. Undone state.old state.new (Command.Mint sort) refused) }
{
    match make(state, alloc, seq, sort) {
        Ok(handles) => Ok(Reply::Made(handles)),
        Err(_) => Err(Refused::Memory(Command::Mint(sort))),
    }
}

/// Makes a token and notes it.
fn make(
    state: &mut State,
    alloc: Global,
    seq: SeqId,
    sort: TokenSort,
) -> Result<Handles, AllocError>
    requires { HasRoom state.old seq }
    ensures done { IfOk result (λ handles. Done state.old state.new seq (Command.Mint sort) (Reply.Made handles)) }
    ensures undone { OnErr result (Stays state.old state.new) }
{
    let mut things: Vec<Thing> = Vec::with_capacity(alloc, 1)?;
    let mut handles: Vec<Handle> = Vec::with_capacity(alloc, 1)?;
    match state.pipes.mint(alloc, seq) {
        Ok(handle) => {
            things.push_reserved(handle.thing());
            handles.push_reserved(handle);
            state.log.push_reserved(Event {
                seq,
                asked: Asked::Mint(sort),
                told: Told::Made(Items::from_vec(things)),
            });
            Ok(Handles::from_vec(handles))
        }
        Err(error) => {
            handles.destroy_empty();
            Err(error)
        }
    }
}
