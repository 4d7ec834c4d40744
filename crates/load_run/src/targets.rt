//! The interface of a load, and its messages.

ghost use Rattle.std.specs.Prelude.{◌≡◌};
ghost use Rattle.load_run.specs.Messages.{request_target, targets_in};
ghost use Rattle.load_run.specs.steps.Doing.{AreThere};

use crate::messages::Message;
use mj_schema::Schema;
use wire_encoder::target;
use wire_model::{MessageSide, Target};

/// The number of the interface, 0 where a schema has none of its name, and its messages that are there.
#[derive(Clone, Copy)]
pub(crate) struct Targets {
    pub interface: u32,
    pub say: Option<Target>,
    pub answer: Option<Target>,
    pub note: Option<Target>,
}

/// What a schema has of them.
pub fn targets_in(schema: &Schema) -> Targets
    ensures named { result ≡ targets_in schema.now }
    ensures there { AreThere schema.now result }
{
    Targets {
        interface: schema.find_interface("load.Echo").unwrap_or(0),
        say: target(schema, "load.Echo", "Say", MessageSide::Request),
        answer: target(schema, "load.Echo", "Say", MessageSide::Response),
        note: target(schema, "load.Echo", "Note", MessageSide::Request),
    }
}

/// What a request is for.
pub fn request_target(targets: Targets, message: Message) -> Option<Target>
    ensures { result ≡ request_target targets message }
{
    if message.is_say {
        targets.say
    } else {
        targets.note
    }
}
