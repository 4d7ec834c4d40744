//! New pipes, tokens and data pipes.

ghost use Rattle.std.specs.Prelude.{◌≡◌, ◌<◌, ◌^◌, ◌∷◌, [], IfOk, OnOk, Ok};
ghost use Rattle.handle_table.specs.Places.{tokens_made};
ghost use Rattle.data_pipe.specs.Moving.{made};
ghost use Rattle.bind_model.specs.Plain.{asked_of};
ghost use Rattle.bind_model.specs.Replies.{joined};
ghost use Rattle.bind_model.specs.declared.asked.Asked.TheVariants as asks;
ghost use Rattle.bind_model.specs.declared.commands.Command.{Command as any_command};
ghost use Rattle.core_ends.specs.steps.Tokens.{next_token};
ghost use Rattle.core_state.specs.Doing.{HasRoom, told_to};
ghost use Rattle.event_tables.specs.AsCore.{Steps, past_by, state_of};

use crate::tables::{EventTables, refuse};
use bind_model::{Asked, Event, Told, Why};
use data_pipe::{DataPipe, DataRefused};
use handle_table::{Thing, TokenId, TokenSort};
use message_pipe::ThingPipes;
use mj_base::{Items, SeqId};
use std::alloc::{AllocError, Global};

/// A list of one thing.
fn one_of(alloc: Global, thing: Thing) -> Result<Items<Thing>, AllocError>
    ensures { IfOk result (λ things. things ≡ thing ∷ []) }
{
    let mut things = Vec::new(alloc);
    things.push(thing)?;
    Ok(Items::from_vec(things))
}

/// A list of two things.
fn two_of(alloc: Global, one: Thing, other: Thing) -> Result<Items<Thing>, AllocError>
    ensures { IfOk result (λ things. things ≡ one ∷ other ∷ []) }
{
    let mut things = Vec::new(alloc);
    things.push(one)?;
    things.push(other)?;
    Ok(Items::from_vec(things))
}

/// Makes a pipe and notes it, where nothing refuses what was asked.
fn make(
    tables: &mut EventTables,
    alloc: Global,
    seq: SeqId,
    other: SeqId,
    asked: Asked,
) -> Result<(), AllocError>
    requires able { HasRoom (state_of tables.old) seq }
    requires told { told_to (state_of tables.old) seq asked ≡ joined (past_by tables.old) seq.0 other.0 }
    ensures { OnOk result ((command : any_command) → asked ≡ asked_of command → Steps tables.old tables.new seq asked) }
{
    let pipe = tables.pipes.make(alloc, seq, other)?;
    let things = two_of(alloc, pipe.0, pipe.1)?;
    tables.log.push_reserved(Event {
        seq,
        asked,
        told: Told::Made(things),
    });
    Ok(())
}

/// Makes a pipe.
pub fn pipe(tables: &mut EventTables, alloc: Global, seq: SeqId) -> Result<(), AllocError>
    requires { HasRoom (state_of tables.old) seq }
    ensures { OnOk result (Steps tables.old tables.new seq asks.Pipe) }
{
    make(tables, alloc, seq, seq, Asked::Pipe)
}

/// Makes a pipe, whose second end is numbered by the other sequence.
pub fn join(
    tables: &mut EventTables,
    alloc: Global,
    seq: SeqId,
    other: SeqId,
) -> Result<(), AllocError>
    requires { HasRoom (state_of tables.old) seq }
    ensures { OnOk result (Steps tables.old tables.new seq (asks.Join other)) }
{
    let asked = Asked::Join(other);
    if other.0 >= tables.seqs {
        refuse(tables, seq, asked, Why::NoName);
        return Ok(());
    }
    make(tables, alloc, seq, other, asked)
}

/// Makes a token.
pub fn mint(
    tables: &mut EventTables,
    alloc: Global,
    seq: SeqId,
    sort: TokenSort,
) -> Result<(), AllocError>
    requires { HasRoom (state_of tables.old) seq }
    ensures { OnOk result (Steps tables.old tables.new seq (asks.Mint sort)) }
{
    let token = tables.pipes.mint(alloc, seq)?;
    let things = one_of(alloc, token)?;
    tables.log.push_reserved(Event {
        seq,
        asked: Asked::Mint(sort),
        told: Told::Made(things),
    });
    Ok(())
}

/// Makes a data pipe, which holds so many bytes at most.
pub fn data(
    tables: &mut EventTables,
    alloc: Global,
    seq: SeqId,
    size: u32,
) -> Result<(), AllocError>
    requires { HasRoom (state_of tables.old) seq }
    ensures { OnOk result (Steps tables.old tables.new seq (asks.Data size)) }
{
    match DataPipe::new(alloc, size) {
        Ok(pipe) => make_data(tables, alloc, seq, size, pipe),
        Err(DataRefused::No(_)) => {
            refuse(tables, seq, Asked::Data(size), Why::BadSize(size));
            Ok(())
        }
        Err(DataRefused::Memory) => Err(AllocError),
    }
}

/// The token that a sequence makes next.
fn next_token(pipes: &ThingPipes, seq: SeqId) -> TokenId
    requires { tokens_made pipes.now.table seq.0 < 2 ^ 32 }
    ensures { result ≡ next_token pipes.now seq.0 }
{
    TokenId {
        seq: seq.0,
        serial: pipes.tokens_made(seq) as u32,
    }
}

/// Enters a data pipe, makes its two tokens, and notes it.
fn make_data(
    tables: &mut EventTables,
    alloc: Global,
    seq: SeqId,
    size: u32,
    pipe: DataPipe,
) -> Result<(), AllocError>
    requires able { HasRoom (state_of tables.old) seq }
    requires pipe { made size ≡ Ok pipe }
    ensures { OnOk result (Steps tables.old tables.new seq (asks.Data size)) }
{
    let producer = next_token(&tables.pipes, seq);
    tables.tables.flows.enter(producer, pipe)?;
    let two = tables.pipes.mint_two(alloc, seq)?;
    let things = two_of(alloc, two.0, two.1)?;
    tables.log.push_reserved(Event {
        seq,
        asked: Asked::Data(size),
        told: Told::Made(things),
    });
    Ok(())
}
