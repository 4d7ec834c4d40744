//! What can't be dropped. Handles, pendings and responders are spent by commands; those that are left may be
//! let go once their core has ended.

use anyhow::{Error, anyhow};
use bind_model::{Command, Received, Refused, Reply};
use handle_table::{Ended, Handle, Handles};
use remote_receiver::{BoxedJob, CallRefused};
use std::alloc::{AllocFailed, Global};

/// What callers hold: the ends of a pipe that aren't bound yet, and what takes got.
pub struct Held {
    pub ends: Vec<Handle>,
    pub got: Vec<Received>,
}

impl Held {
    /// The ends of a new pipe.
    pub fn new(alloc: Global, ends: Handles) -> Held {
        Held {
            ends: ends.into_vec(),
            got: Vec::new(alloc),
        }
    }

    /// Lets all go, once all is over.
    pub fn retire(self, over: &Ended) {
        let Held { ends, mut got } = self;
        Handles::from_vec(ends).retire(over);
        while let Some(received) = got.pop() {
            received.retire(over);
        }
        got.destroy_empty();
    }
}

/// Why calls stopped, with what came back.
pub enum Stopped {
    /// Nothing came back.
    Error(Error),
    /// A command wasn't done.
    Undone(Command),
    /// A command was told something that it isn't for.
    Told(Reply),
    /// There was no memory to keep what a take got.
    Unkept(Received),
}

impl Stopped {
    /// Why, once all is over and what came back may be let go.
    pub fn into_error(self, over: &Ended) -> Error {
        match self {
            Stopped::Error(error) => error,
            Stopped::Undone(command) => {
                command.retire(over);
                anyhow!("a command isn't done")
            }
            Stopped::Told(reply) => {
                reply.retire(over);
                anyhow!("a command was told something else")
            }
            Stopped::Unkept(received) => {
                received.retire(over);
                anyhow!("out of memory")
            }
        }
    }
}

impl From<Error> for Stopped {
    fn from(error: Error) -> Stopped {
        Stopped::Error(error)
    }
}

impl From<Refused> for Stopped {
    fn from(refused: Refused) -> Stopped {
        match refused {
            Refused::Memory(command) | Refused::Spent(command) => Stopped::Undone(command),
        }
    }
}

impl From<CallRefused<BoxedJob>> for Stopped {
    fn from(refused: CallRefused<BoxedJob>) -> Stopped {
        match refused {
            CallRefused::No(_why, command, _job) => Stopped::Undone(command),
            CallRefused::Memory(command, _job) => Stopped::Undone(command),
            CallRefused::Spent(command, _job) => Stopped::Undone(command),
        }
    }
}

impl From<AllocFailed<Received>> for Stopped {
    fn from(failed: AllocFailed<Received>) -> Stopped {
        Stopped::Unkept(failed.value)
    }
}
