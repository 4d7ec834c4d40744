//! The forms of a script's lines, with names, interfaces, methods and values as words.

use bind_model::Notice;
use handle_table::TokenSort;
use wire_encoder::EndpointSide;

/// What is to be moved at a token of a data pipe, with bytes as a word in hexadecimal.
#[derive(Clone, Copy)]
pub enum Moved<'a> {
    /// These bytes in: all, where that is said, else as many as there is room for.
    Put(&'a [u8], bool),
    /// So many bytes out: all, where that is said, else as many as are held.
    Get(u32, bool),
    BeginPut,
    EndPut(&'a [u8]),
    BeginGet,
    EndGet(u32),
}

/// What a sequence is told to do.
#[derive(Clone, Copy)]
pub enum Said<'w, 'a> {
    Pipe(&'a [u8], &'a [u8]),
    Mint(TokenSort, &'a [u8]),
    Bind(&'a [u8], EndpointSide, &'a [u8]),
    /// The name of an end, a side of an interface, and the name of the pending other half.
    Associate(&'a [u8], EndpointSide, &'a [u8], &'a [u8]),
    Attach(&'a [u8], u32),
    /// The name of an end, an id there, a method, a value, names of tokens, and a moment.
    Call(&'a [u8], u32, &'a [u8], &'a [u8], &'w [&'a [u8]], Option<i64>),
    Take(&'a [u8], &'w [&'a [u8]]),
    /// The name of a responder, a method, a value, names of tokens, and a moment.
    Answer(&'a [u8], &'a [u8], &'a [u8], &'w [&'a [u8]], Option<i64>),
    /// The name of an end, bytes in hexadecimal and names of tokens.
    Raw(&'a [u8], &'a [u8], &'w [&'a [u8]]),
    CloseToken(&'a [u8]),
    CloseEndpoint(&'a [u8], u32),
    /// The name of an end, and a control that is written from it.
    Notify(&'a [u8], Notice),
    /// The name of an end, that of the end that it waits for, and the number of a flush there.
    Pause(&'a [u8], &'a [u8], u32),
    /// How many bytes a data pipe holds at most, and names for the tokens of its producer and its consumer.
    Data(u32, &'a [u8], &'a [u8]),
    /// The name of a token of a data pipe, and what is moved there.
    Flow(&'a [u8], Moved<'a>),
}

/// A line behind the first: of the setup, or of a sequence.
#[derive(Clone, Copy)]
pub enum Form<'w, 'a> {
    /// Of two sequences, and names for the ends.
    Join(u32, u32, &'a [u8], &'a [u8]),
    /// Of a sequence, a method and a value.
    Auto(u32, &'a [u8], &'a [u8]),
    Of(u32, Said<'w, 'a>),
}
