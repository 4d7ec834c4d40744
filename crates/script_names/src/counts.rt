//! How much goes with a command.

ghost use Rattle.std.specs.Prelude.{◌≡◌, length};
ghost use Rattle.script_names.specs.Carried.{halves_room, things_with};

use bind_model::{Command, ToClose};

/// How many handles go with a command.
pub fn count_handles(command: &Command) -> usize
    ensures { result ≡ length (things_with command.now) }
{
    match command {
        Command::Bind(_, _, _) | Command::Close(ToClose::Handle(_)) | Command::Flow(_, _) => 1,
        Command::Call(_, _, _, handles, _, _) | Command::Answer(_, _, handles, _, _) => {
            handles.as_slice().len()
        }
        Command::Raw(_, _, handles) => 1 + handles.as_slice().len(),
        Command::Pipe
        | Command::Join(_)
        | Command::Mint(_)
        | Command::Associate(_, _, _)
        | Command::Attach(_, _)
        | Command::Take(_)
        | Command::Close(ToClose::Pending(_) | ToClose::Responder(_) | ToClose::Endpoint(_, _))
        | Command::Notify(_, _)
        | Command::Pause(_, _, _)
        | Command::Data(_)
        | Command::Skip(_) => 0,
    }
}

/// For how many pendings there is to be room once a command is done: those that go with it, and the one
/// that an endpoint that is made hands out.
pub fn count_pendings(command: &Command) -> usize
    ensures { result ≡ halves_room command.now }
{
    match command {
        Command::Attach(_, _) | Command::Associate(_, _, _) | Command::Close(ToClose::Pending(_)) =>
            1,
        Command::Call(_, _, _, _, pendings, _) | Command::Answer(_, _, _, pendings, _) => {
            pendings.as_slice().len()
        }
        Command::Pipe
        | Command::Join(_)
        | Command::Mint(_)
        | Command::Bind(_, _, _)
        | Command::Raw(_, _, _)
        | Command::Take(_)
        | Command::Close(ToClose::Handle(_) | ToClose::Responder(_) | ToClose::Endpoint(_, _))
        | Command::Notify(_, _)
        | Command::Pause(_, _, _)
        | Command::Data(_)
        | Command::Flow(_, _)
        | Command::Skip(_) => 0,
    }
}
