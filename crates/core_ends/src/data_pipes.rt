//! New data pipes.

ghost use Rattle.std.specs.Prelude.{◌≡◌, ◌<◌, ◌≤◌, ◌-◌, ◌^◌, Some, None, IfOk, IfErr, OnOk, OnErr, Ok};
ghost use Rattle.handle_table.specs.Places.{tokens_made};
ghost use Rattle.message_pipe.specs.Contents.{MakesTokens, Same};
ghost use Rattle.data_pipe.specs.Moving.{made};
ghost use Rattle.data_pipe.specs.Table.{line_of, AllStay, Becomes};
ghost use Rattle.core_state.specs.Doing.{CanDo, Done, HasRoom, Undone};
ghost use Rattle.core_ends.specs.steps.Tokens.{next_token};
ghost use Rattle.core_ends.specs.steps.Unchanged.{Stays};

use bind_model::{Asked, Command, Event, Refused, Reply, Told, Why};
use core_state::{State, refuse};
use data_pipe::{DataPipe, DataRefused, DataTable};
use handle_table::{Handle, Handles, Thing, TokenId};
use message_pipe::Pipes;
use mj_base::{Items, SeqId};
use std::alloc::{AllocError, Global};

/// Makes a data pipe, which holds so many bytes at most.
pub fn data(state: &mut State, alloc: Global, seq: SeqId, size: u32) -> Result<Reply, Refused>
    requires { CanDo state.old seq (Command.Data size) }
    ensures done { IfOk result (λ reply. Done state.old state.new seq (Command.Data size) reply) }
    ensures undone { IfErr result (λ refused. Undone state.old state.new (Command.Data size) refused) }
{
    match DataPipe::new(alloc, size) {
        Ok(pipe) => match make(state, alloc, seq, size, pipe) {
            Ok(handles) => Ok(Reply::Made(handles)),
            Err(_) => Err(Refused::Memory(Command::Data(size))),
        },
        Err(DataRefused::No(_)) => {
            let asked = Asked::Data(size);
            refuse(state, seq, asked, Why::BadSize(size), Command::Data(size))
        }
        Err(DataRefused::Memory) => Err(Refused::Memory(Command::Data(size))),
    }
}

/// The token that a sequence makes next.
fn next_token(pipes: &Pipes, seq: SeqId) -> TokenId
    requires { tokens_made pipes.now.table seq.0 < 2 ^ 32 }
    ensures { result ≡ next_token pipes.now seq.0 }
{
    TokenId {
        seq: seq.0,
        serial: pipes.tokens_made(seq) as u32,
    }
}

/// Enters a data pipe, and makes its two tokens. Without memory nothing changes.
fn tokens(
    pipes: &mut Pipes,
    flows: &mut DataTable,
    alloc: Global,
    seq: SeqId,
    pipe: DataPipe,
) -> Result<(Handle, Handle), AllocError>
    requires few { pipes.old.made < 2 ^ 32 - 2 }
    requires count { tokens_made pipes.old.table seq.0 ≤ pipes.old.made }
    requires fresh { line_of flows.old (next_token pipes.old seq.0) ≡ None }
    ensures made { IfOk result (λ two. MakesTokens seq.0 two.0 two.1 pipes.old pipes.new) }
    ensures entered { OnOk result (Becomes (next_token pipes.old seq.0) (Some pipe) flows.old flows.new) }
    ensures unmade { OnErr result (Same pipes.old pipes.new) }
    ensures left { OnErr result (AllStay flows.old flows.new) }
{
    let producer = next_token(pipes, seq);
    flows.enter(producer, pipe)?;
    match pipes.mint_two(alloc, seq) {
        Ok(two) => Ok(two),
        Err(error) => {
            flows.remove(producer);
            Err(error)
        }
    }
}

/// Makes a data pipe and notes it.
fn make(
    state: &mut State,
    alloc: Global,
    seq: SeqId,
    size: u32,
    pipe: DataPipe,
) -> Result<Handles, AllocError>
    requires able { HasRoom state.old seq }
    requires pipe { made size ≡ Ok pipe }
    ensures done { IfOk result (λ handles. Done state.old state.new seq (Command.Data size) (Reply.Made handles)) }
    ensures undone { OnErr result (Stays state.old state.new) }
{
    let mut things: Vec<Thing> = Vec::with_capacity(alloc, 2)?;
    let mut handles: Vec<Handle> = Vec::with_capacity(alloc, 2)?;
    match tokens(&mut state.pipes, &mut state.tables.flows, alloc, seq, pipe) {
        Ok(two) => {
            let (producer, consumer) = two;
            things.push_reserved(producer.thing());
            things.push_reserved(consumer.thing());
            handles.push_reserved(producer);
            handles.push_reserved(consumer);
            state.log.push_reserved(Event {
                seq,
                asked: Asked::Data(size),
                told: Told::Made(Items::from_vec(things)),
            });
            Ok(Handles::from_vec(handles))
        }
        Err(error) => {
            handles.destroy_empty();
            Err(error)
        }
    }
}
