//! All that a core keeps, and how a refusal is noted.

ghost use Rattle.std.specs.Prelude.{◌≡◌, IfOk, IfErr};
ghost use Rattle.bind_model.specs.declared.told.Told.{Told};
ghost use Rattle.bind_model.specs.Plain.{asked_of};
ghost use Rattle.core_state.specs.Doing.{CanDo, Done, Undone, told_in};

use crate::routers::Routers;
use crate::tables::Tables;
use bind_model::{Asked, Command, Event, History, Pendings, Refused, Reply, Responders, Told, Why};
use message_pipe::Pipes;
use mj_base::SeqId;
use mj_schema::Schema;
use std::sync::Arc;

/// The rights that are with callers: to answer requests, and to bind endpoints or send them.
#[derive(Drop)]
pub struct Rights {
    pub responders: Responders,
    pub pendings: Pendings,
}

/// The schema, how many sequences there are, all events, the pipes with the places of all handles, the
/// routers of ends, what is kept of controls and of data pipes, and the rights that are with callers.
pub struct State {
    pub schema: Arc<Schema>,
    pub seqs: u32,
    pub log: History,
    pub pipes: Pipes,
    pub endpoints: Routers,
    pub tables: Tables,
    pub rights: Rights,
}

/// Notes a refusal.
pub fn refuse(
    state: &mut State,
    seq: SeqId,
    asked: Asked,
    why: Why,
    command: Command,
) -> Result<Reply, Refused>
    requires can { CanDo state.old seq command }
    requires asked { asked ≡ asked_of command }
    requires why { told_in state.old seq command ≡ Told.No why }
    ensures done { IfOk result (λ reply. Done state.old state.new seq command reply) }
    ensures undone { IfErr result (λ refused. Undone state.old state.new command refused) }
{
    state.log.push_reserved(Event {
        seq,
        asked,
        told: Told::No(why),
    });
    Ok(Reply::No(why, command))
}
