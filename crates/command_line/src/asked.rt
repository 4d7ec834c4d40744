//! What the words ask for, and why they ask for nothing.

ghost use Rattle.std.specs.Prelude.{◌≡◌, ◌≤◌};
ghost use Rattle.command_line.specs.declared.asked.WordsError.TheVariants.{Memory};

use std::alloc::AllocError;

/// Which message of a method is meant.
#[derive(Clone, Copy)]
pub enum Side {
    /// The one that the remote sends.
    Request,
    /// The one that answers it.
    Response,
}

/// What the words ask for: a run with threads, or what is done on one thread.
#[derive(Drop)]
pub enum Words<'a> {
    AtOnce(RunAtOnce<'a>),
    Alone(Command<'a>),
}

/// To run a script over Mojom files, with a thread for each sequence.
#[derive(Drop)]
pub struct RunAtOnce<'a> {
    pub script: &'a str,
    pub files: Vec<&'a str>,
}

/// How many messages a load has: 1,000,000 at most.
#[derive(Clone, Copy)]
pub struct MessageCount {
    pub count: u64,
    pub ghost few: { count ≤ 1000000 },
}

/// What is done on one thread.
#[derive(Drop)]
pub enum Command<'a> {
    /// To run a script over Mojom files, with the number that decides which sequence goes on.
    Run {
        script: &'a str,
        order: u64,
        files: Vec<&'a str>,
    },
    /// The canonical text of a Mojom file.
    Print {
        file: &'a str,
    },
    /// The tables of Mojom files, in the order given.
    Check {
        files: Vec<&'a str>,
    },
    /// The message of a method, in hexadecimal, that holds the value whose text is in the file `value`.
    Encode {
        method: &'a str,
        side: Side,
        value: &'a str,
        files: Vec<&'a str>,
    },
    /// The method, request id and value of an interface's message, which is in hexadecimal in the file
    /// `message` and has `handles` handles, from 0 to 64.
    Decode {
        interface: &'a str,
        side: Side,
        handles: u32,
        message: &'a str,
        files: Vec<&'a str>,
    },
    /// A run of so many messages, by numbers that are drawn behind this one.
    Load {
        seed: u64,
        messages: MessageCount,
    },
    /// What is said of a history's text by a script over Mojom files.
    Audit {
        script: &'a str,
        history: &'a str,
        files: Vec<&'a str>,
    },
    /// Whether the file `new` reads what the stable definitions of the file `old` write.
    Compat {
        old: &'a str,
        new: &'a str,
    },
}

/// Why the words ask for nothing.
#[derive(Drop)]
pub enum WordsError {
    /// They are no command, or ask for help: the text to show.
    WrongUse(String),
    /// Want of memory.
    Memory,
}

impl From<AllocError> for WordsError {
    ghost from_gives = { λ _ e. e ≡ Memory };

    fn from(_error: AllocError) -> WordsError {
        WordsError::Memory
    }
}
