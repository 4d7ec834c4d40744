//! Why a text is no script.

use thiserror::Error;

/// Why a line is refused.
#[derive(Clone, Copy, Debug)]
pub enum LineRefusal {
    /// It has none of the forms, or a number that is out of its range.
    BadLine,
    /// It sets a name that a join or a line of its sequence has set already, or lets a method be
    /// answered that its sequence answers already.
    DoubleName,
    /// It names an interface, a method or a response that the schema lacks, or a name that no join and
    /// no line of its sequence before it sets.
    UnknownName,
    /// Its value is none of the method's parameters, or isn't one that can be sent; or an automatic
    /// reply's is to carry handles or endpoints.
    BadValue,
    /// It is line 65,537.
    TooManyLines,
}

/// Why a text is no script.
#[derive(Clone, Copy, Debug, Error)]
pub enum ScriptError {
    /// The line of this number, from 1, is the first that is refused.
    #[error("a line of the script is refused")]
    Refused { line: u32, why: LineRefusal },
    /// Memory ran out, which may befall any text.
    #[error("out of memory")]
    Memory,
}
