//! The lexer of Mojom: the tokens of a file, or where and why it has none.
#![tactic(auto)]

mod bytes;
mod comments;
mod error;
mod lexer;
mod numbers;
mod pieces;
mod strings;
mod words;

pub use error::LexError;
pub use lexer::{in_order, lex, one_reading};
