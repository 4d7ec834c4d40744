//! New pipes.

ghost use Rattle.std.specs.Prelude.{◌≡◌, IfOk, IfErr, OnErr};
ghost use Rattle.bind_model.specs.Replies.{joined};
ghost use Rattle.bind_model.specs.Plain.{asked_of};
ghost use Rattle.bind_model.specs.declared.commands.Command.{Command as any_command};
ghost use Rattle.core_state.specs.Agreement.{past_of};
ghost use Rattle.core_state.specs.Doing.{CanDo, Done, HasRoom, Undone, told_to};
ghost use Rattle.core_ends.specs.steps.Unchanged.{Stays};

use bind_model::{Asked, Command, Event, Refused, Reply, Told, Why};
use core_state::{State, refuse};
use handle_table::{Handle, Handles, Thing};
use mj_base::{Items, SeqId};
use std::alloc::{AllocError, Global};

/// Makes a pipe.
pub fn pipe(state: &mut State, alloc: Global, seq: SeqId) -> Result<Reply, Refused>
    requires { CanDo state.old seq Command.Pipe }
    ensures done { IfOk result (λ reply. Done state.old state.new seq Command.Pipe reply) }
    ensures undone { IfErr result (λ refused. Undone state.old state.new Command.Pipe refused) }
{
    match make(state, alloc, seq, seq, Asked::Pipe) {
        Ok(handles) => Ok(Reply::Made(handles)),
        Err(_) => Err(Refused::Memory(Command::Pipe)),
    }
}

/// Makes a pipe, whose second end is numbered by the other sequence.
pub fn join(state: &mut State, alloc: Global, seq: SeqId, other: SeqId) -> Result<Reply, Refused>
    requires { CanDo state.old seq (Command.Join other) }
    ensures done { IfOk result (λ reply. Done state.old state.new seq (Command.Join other) reply) }
    ensures undone { IfErr result (λ refused. Undone state.old state.new (Command.Join other) refused) }
{
    let asked = Asked::Join(other);
    if other.0 >= state.seqs {
        return refuse(state, seq, asked, Why::NoName, Command::Join(other));
    }
    match make(state, alloc, seq, other, asked) {
        Ok(handles) => Ok(Reply::Made(handles)),
        Err(_) => Err(Refused::Memory(Command::Join(other))),
    }
}

/// Makes a pipe and notes it, where nothing refuses what was asked.
fn make(
    state: &mut State,
    alloc: Global,
    seq: SeqId,
    other: SeqId,
    asked: Asked,
) -> Result<Handles, AllocError>
    requires able { HasRoom state.old seq }
    requires told { told_to state.old seq asked ≡ joined (past_of state.old) seq.0 other.0 }
    ensures done { IfOk result (λ handles. (command : any_command) → asked ≡ asked_of command → Done state.old state.new seq command (Reply.Made handles)) }
    ensures undone { OnErr result (Stays state.old state.new) }
{
    let mut things: Vec<Thing> = Vec::with_capacity(alloc, 2)?;
    let mut handles: Vec<Handle> = Vec::with_capacity(alloc, 2)?;
    match state.pipes.make(alloc, seq, other) {
        Ok(pipe) => {
            let (one, two) = pipe;
            things.push_reserved(one.thing());
            things.push_reserved(two.thing());
            handles.push_reserved(one);
            handles.push_reserved(two);
            state.log.push_reserved(Event {
                seq,
                asked,
                told: Told::Made(Items::from_vec(things)),
            });
            Ok(Handles::from_vec(handles))
        }
        Err(error) => {
            handles.destroy_empty();
            Err(error)
        }
    }
}
