//! Which ends a command may make ready.

ghost use Rattle.std.specs.Prelude.{◌≡◌};
ghost use Rattle.bind_model.specs.Machine.{peer};
ghost use Rattle.core_state.specs.Agreement.{Holds};
ghost use Rattle.event_tables.specs.AsCore.{past_by, state_of};
ghost use Rattle.event_steps.specs.steps.Near.{end_named};

use bind_model::Closing;
use event_tables::EventTables;
use handle_table::Thing;
use mj_base::EndId;
use plain_names::PlainCommand;

/// The end that a command is about: with it a take may become ready there or at its peer, or no longer be.
pub(crate) fn end_named(command: &PlainCommand) -> Option<EndId>
    ensures { result ≡ end_named command.now }
{
    match command {
        PlainCommand::Bind(thing, _, _) | PlainCommand::Raw(thing, _, _) => match thing {
            Thing::End(end) => Some(*end),
            Thing::Token(_) => None,
        },
        PlainCommand::Associate(end, _, _)
        | PlainCommand::Call(end, _, _, _, _)
        | PlainCommand::Take(end)
        | PlainCommand::Notify(end, _)
        | PlainCommand::Pause(end, _, _) => Some(*end),
        PlainCommand::Attach(id, _) => Some(id.end),
        PlainCommand::Answer(id, _, _, _) => Some(id.end),
        PlainCommand::Close(Closing::Pending(id)) => Some(id.end),
        PlainCommand::Close(Closing::Endpoint(end, _)) => Some(*end),
        _ => None,
    }
}

/// The other end of an end's pipe; of one that was not made, itself.
pub(crate) fn peer(tables: &EventTables, end: EndId) -> EndId
    requires { Holds (state_of tables.now) }
    ensures { result ≡ peer (past_by tables.now) end }
{
    match tables.pipes.peer(end) {
        Some(peer) => peer,
        None => end,
    }
}
