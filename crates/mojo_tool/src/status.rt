//! How a call ends.

ghost use Rattle.std.specs.Prelude.{◌≡◌};
ghost use Rattle.mojo_tool.specs.Answers.{code_of};

/// How a call ended.
#[derive(Clone, Copy)]
pub enum Status {
    /// All was done and the whole text written.
    Done,
    /// A file is refused, or a newer one doesn't read an older one; a line on standard error says which and why.
    Refused,
    /// The words are no command, or ask for help.
    WrongUse,
    /// A file could not be read.
    ReadFault,
    /// The text could not be written.
    WriteFault,
    /// Want of memory.
    NoMemory,
}

impl Status {
    /// The exit status of the program, 0 to 5.
    pub fn code(self) -> u8
        ensures { result ≡ code_of self }
    {
        match self {
            Status::Done => 0,
            Status::Refused => 1,
            Status::WrongUse => 2,
            Status::ReadFault => 3,
            Status::WriteFault => 4,
            Status::NoMemory => 5,
        }
    }
}
