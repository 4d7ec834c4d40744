//! The core itself.

ghost use Rattle.std.specs.Prelude.{◌≡◌, ◌<◌, ◌≤◌, ◌++◌, [], ◌∷◌, length, reverse, IfOk, IfErr, OnOk};
ghost use Rattle.std.specs.Arc.{arc_value};
ghost use Rattle.bind_model.specs.Flushes.{FlushesNumbered, AllBehind};
ghost use Rattle.bind_model.specs.Laws.{OnePlace, OwnResponses, AllOfAskers, InOrder, AllStand, AllUnpaused, DataInOrder};
ghost use Rattle.bind_model.specs.Origins.{HaveWriters};
ghost use Rattle.bind_model.specs.Ready.{ready};
ghost use Rattle.bind_model.specs.Replies.{Legal};
ghost use Rattle.bind_model.specs.WireOf.{wire_of};
ghost use Rattle.bind_model.specs.Left.{left};
ghost use Rattle.bind_model.specs.Plain.{asked_of, told_of, HandsBack, HandsPendings, HandsResponders, command_of, IsSpentAt, IsOf};
ghost use Rattle.ending_laws.specs.Closings.{AllGotOpen};
ghost use Rattle.ending_laws.specs.Endings.{AllInTime};
ghost use Rattle.group_laws.specs.Apart.{GroupsApart};
ghost use Rattle.reply_laws.specs.Once.{AllFirst};
ghost use Rattle.reply_laws.specs.Own.{AllOwn};
ghost use Rattle.bind_core.specs.Play.{told_at};

use crate::end_set::EndSet;
use crate::waiting::Waiting;
use crate::waits::{forget_all, least_woken};
use crate::watch::{end_named, unwatch, watch};
use crate::{commands, left};
use bind_model::{Command, History, Pendings, Refused, Reply, Responders};
use core_state::{Rights, Routers, State, Tables};
use handle_table::{Ended, Thing};
use message_pipe::Pipes;
use mj_base::limits::MAX_EVENTS;
use mj_base::{EndId, SeqId};
use mj_schema::Schema;
use std::alloc::{AllocError, Global};
use std::marker::Model;
use std::sync::Arc;
use wire_encoder::laws::passed_is_encodable;

/// A core: it does the commands of its sequences, and keeps their history. Contracts see its schema,
/// how many sequences it has, and all events.
pub struct Core {
    state: State,
    // Each end where a take is ready, but for those of the last event, and maybe others: `ready` need not walk over
    // all ends.
    watched: EndSet,
    // Each end that waits, by what ends its waits.
    waiting: Waiting,
}

impl Model for Core {
    ghost use Rattle.std.specs.Coded.{codes};
    ghost use Rattle.mj_schema.specs.contracts.schema.Schema as schema;
    ghost use Rattle.bind_core.specs.Play.{Play};
    ghost use Rattle.bind_core.specs.Covers.{Stands};
    ghost use Rattle.core_state.specs.Agreement.{schema_of};
    ghost use Rattle.kept_values.specs.steps.TreeCodes.{tree_code};

    ghost Value = { Play };

    ghost coded = { Prim.hlevel (codes, schema.the_row.coded, tree_code (Prim.hlevel codes)) };

    ghost view = { λ core. record { schema = schema_of core.state; seqs = core.state.seqs; events = core.state.log.events } };

    ghost invariant = { λ core. Stands core.state core.watched core.waiting };
}

/// Hands a command back: for want of memory, unless the history is full.
fn hand_back(state: &State, command: Command) -> Refused
    ensures back { command_of result ≡ command }
    ensures spent { IsSpentAt (length state.now.log.events) result }
{
    if state.log.len() >= MAX_EVENTS {
        Refused::Spent(command)
    } else {
        Refused::Memory(command)
    }
}

impl Core {
    /// A core of this schema, with no events. Takes no memory.
    pub fn new(alloc: Global, schema: Arc<Schema>, seqs: u32) -> Core
        ensures { result ≡ record { schema = arc_value schema; seqs = seqs; events = [] } }
    {
        Core {
            state: State {
                schema,
                seqs,
                log: History::new(alloc),
                pipes: Pipes::new(alloc),
                endpoints: Routers::new(alloc),
                tables: Tables::new(alloc),
                rights: Rights {
                    responders: Responders::new(alloc),
                    pendings: Pendings::new(alloc),
                },
            },
            watched: EndSet::new(alloc),
            waiting: Waiting::new(alloc),
        }
    }

    /// Does one command of a sequence: the history gains it with the reply that the events before
    /// give, or, without memory or with 16,777,216 events, nothing happens and the command comes back.
    pub fn step(&mut self, alloc: Global, seq: SeqId, command: Command) -> Result<Reply, Refused>
        requires seq { seq.0 < self.old.seqs }
        requires prepared { IsOf self.old.schema command }
        ensures same { (self.new.schema ≡ self.old.schema) × (self.new.seqs ≡ self.old.seqs) }
        // The history gains this one event, with the reply that the events before it give.
        ensures event { IfOk result (λ reply. self.new.events ≡
            self.old.events ++ record { seq = seq; asked = asked_of command; told = told_at self.old seq command } ∷ []) }
        ensures told { IfOk result (λ reply. told_of reply ≡ told_at self.old seq command) }
        ensures back { IfOk result (λ reply. HandsBack command reply) }
        // It hands out the responder that the event gives, and no other.
        ensures responders { IfOk result (λ reply. HandsResponders (wire_of self.old.schema) command reply) }
        // It hands out the pending that the event gives, and no other.
        ensures pendings { IfOk result (λ reply. HandsPendings (wire_of self.old.schema) (reverse self.new.events) command reply) }
        ensures refused { IfErr result (λ refused. (command_of refused ≡ command) × (self.new ≡ self.old)) }
        // It is spent exactly where 16,777,216 events stand.
        ensures room { OnOk result (length self.old.events < MAX_EVENTS) }
        ensures spent { IfErr result (λ refused. IsSpentAt (length self.old.events) refused) }
    {
        let end = end_named(&command);
        let Ok(looked) = watch(
            &mut self.watched,
            &mut self.waiting,
            &self.state,
            alloc,
            &command,
        ) else {
            return Err(hand_back(&self.state, command));
        };
        forget_all(
            &mut self.state.tables.notices,
            &self.state.pipes,
            looked.as_slice(),
            end,
        );
        let outcome = commands::step(&mut self.state, alloc, seq, command);
        unwatch(&mut self.watched, &self.state, end, &outcome);
        outcome
    }

    /// All events so far.
    pub fn history(&self) -> &History
        ensures events { result.now.events ≡ self.now.events }
        // Each reply is the one that the events before it give.
        ensures legal { Legal (wire_of self.now.schema) self.now.seqs self.now.events }
        // It is never longer than a history may be.
        ensures few { length self.now.events ≤ MAX_EVENTS }
        // Each thing that was made has one place: with a caller, in an unread message, bound, or gone.
        ensures one_place { OnePlace (wire_of self.now.schema) (reverse self.now.events) }
        // At each end the messages are consumed in the order in which they were written, while it is open.
        ensures in_order { InOrder (wire_of self.now.schema) (reverse self.now.events) }
        // What is got is what the message stands for, at an endpoint bound on the sequence that takes.
        ensures all_stand { AllStand (wire_of self.now.schema) (reverse self.now.events) }
        // Requests are numbered, no two responses got have one number, and each was asked for.
        ensures own_responses { OwnResponses (reverse self.now.events) }
        // A response is got by the sequence that asked for it.
        ensures of_askers { AllOfAskers (reverse self.now.events) }
        // Each message is the one that its writer says.
        ensures have_writers { HaveWriters (wire_of self.now.schema) (reverse self.now.events) }
        // What a take gets was sent by its peer, where nothing was written raw on its pipe: a request by a call, and a
        // response by the answer to the request. It is the value that was sent, where that fits its method.
        ensures all_own { AllOwn self.now.schema (reverse self.now.events) }
        // An answer that is sent is the first to its request, where nothing was written raw on its pipe.
        ensures all_first { AllFirst (reverse self.now.events) }
        // No response is got at an endpoint that a reply has shown to be over.
        ensures all_in_time { AllInTime (wire_of self.now.schema) (reverse self.now.events) }
        // Nothing is got at an endpoint that was closed, nor at an end that is gone.
        ensures all_got_open { AllGotOpen (reverse self.now.events) }
        // A paused end takes nothing: what is consumed there comes after all that its waits are for.
        ensures all_unpaused { AllUnpaused (reverse self.now.events) }
        // The flushes of an end have the numbers 1, 2, 3 and so on.
        ensures flushes_numbered { FlushesNumbered (reverse self.now.events) }
        // A flush that is consumed has all behind it that was written there before it, where nothing was written raw.
        ensures all_behind { AllBehind (wire_of self.now.schema) (reverse self.now.events) }
        // What comes out of a data pipe is the beginning of what went in, and it holds the rest.
        ensures data_in_order { DataInOrder (reverse self.now.events) }
        // Where no command links a group of sequences with others, its events alone are a legal history.
        ensures groups_apart { GroupsApart (wire_of self.now.schema) self.now.seqs (reverse self.now.events) }
    {
        passed_is_encodable();
        &self.state.log
    }

    /// The least end where a take would consume a message or find it bad, behind the sequence that takes
    /// there; none exactly where there is no such end. An end that waits for another isn't such. Takes no
    /// memory.
    pub fn ready(&self) -> Option<(SeqId, EndId)>
        ensures { result ≡ ready (wire_of self.now.schema) (reverse self.now.events) }
    {
        let found = self.watched.first_taken(&self.state);
        least_woken(&self.state, &self.waiting, found)
    }

    /// What isn't closed: the ends before the tokens, both by sequence and by number. Takes time in
    /// proportion to the sequences and to all that they made.
    pub fn left(&self, alloc: Global) -> Result<Vec<Thing>, AllocError>
        ensures { IfOk result (λ things. things.items ≡ left self.now.seqs (reverse self.now.events)) }
    {
        left::left(&self.state, alloc)
    }

    /// Ends the core. What its callers still hold may then be let go.
    pub fn end(self) -> (History, Ended)
        ensures events { result.0.events ≡ self.events }
        ensures legal { Legal (wire_of self.schema) self.seqs result.0.events }
    {
        let Core {
            state,
            watched: _,
            waiting: _,
        } = self;
        let State {
            schema: _,
            seqs: _,
            log,
            pipes,
            endpoints: _,
            tables: _,
            rights: _,
        } = state;
        let over = pipes.end();
        (log, over)
    }
}
