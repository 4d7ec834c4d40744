//! The classes of tokens by name: one for each keyword and symbol, for numbers, for strings, for each
//! identifier that is a sort of handles, and for the other identifiers.

/// An identifier that is no sort of handles.
pub const IDENTIFIER: u8 = 0;

/// A number.
pub const NUMBER: u8 = 1;

/// A string.
pub const STRING: u8 = 2;

/// `module`
pub const MODULE: u8 = 3;

/// `import`
pub const IMPORT: u8 = 4;

/// `struct`
pub const STRUCT: u8 = 5;

/// `union`
pub const UNION: u8 = 6;

/// `enum`
pub const ENUM: u8 = 7;

/// `interface`
pub const INTERFACE: u8 = 8;

/// `const`
pub const CONST: u8 = 9;

/// `true`
pub const TRUE: u8 = 10;

/// `false`
pub const FALSE: u8 = 11;

/// `array`
pub const ARRAY: u8 = 12;

/// `map`
pub const MAP: u8 = 13;

/// `handle`
pub const HANDLE: u8 = 14;

/// `pending_remote`
pub const PENDING_REMOTE: u8 = 15;

/// `pending_receiver`
pub const PENDING_RECEIVER: u8 = 16;

/// `pending_associated_remote`
pub const PENDING_ASSOCIATED_REMOTE: u8 = 17;

/// `pending_associated_receiver`
pub const PENDING_ASSOCIATED_RECEIVER: u8 = 18;

/// `;`
pub const SEMICOLON: u8 = 19;

/// `,`
pub const COMMA: u8 = 20;

/// `.`
pub const DOT: u8 = 21;

/// `(`
pub const OPEN_PAREN: u8 = 22;

/// `)`
pub const CLOSE_PAREN: u8 = 23;

/// `[`
pub const OPEN_BRACKET: u8 = 24;

/// `]`
pub const CLOSE_BRACKET: u8 = 25;

/// `{`
pub const OPEN_BRACE: u8 = 26;

/// `}`
pub const CLOSE_BRACE: u8 = 27;

/// `<`
pub const LESS: u8 = 28;

/// `>`
pub const GREATER: u8 = 29;

/// `=`
pub const EQUALS: u8 = 30;

/// `=>`
pub const ARROW: u8 = 31;

/// `?`
pub const QUESTION: u8 = 32;

/// `@`
pub const AT: u8 = 33;

/// `+`
pub const PLUS: u8 = 34;

/// `-`
pub const MINUS: u8 = 35;

/// `message_pipe`
pub const MESSAGE_PIPE: u8 = 36;

/// `data_pipe_consumer`
pub const DATA_PIPE_CONSUMER: u8 = 37;

/// `data_pipe_producer`
pub const DATA_PIPE_PRODUCER: u8 = 38;

/// `shared_buffer`
pub const SHARED_BUFFER: u8 = 39;

/// `platform`
pub const PLATFORM: u8 = 40;
