//! The classes of tokens, by which the grammar tells them apart.

ghost use Rattle.std.specs.Prelude.{◌≡◌};
ghost use Rattle.mojom_ast.specs.Classes.{keyword_class, symbol_class, identifier_class, class};

use crate::classes;
use crate::token::{Keyword, Sort, Symbol, Token};
use mj_base::Text;

impl Keyword {
    /// The class of the keyword.
    pub fn class(self) -> u8
        ensures { result ≡ keyword_class self }
    {
        match self {
            Keyword::Module => classes::MODULE,
            Keyword::Import => classes::IMPORT,
            Keyword::Struct => classes::STRUCT,
            Keyword::Union => classes::UNION,
            Keyword::Enum => classes::ENUM,
            Keyword::Interface => classes::INTERFACE,
            Keyword::Const => classes::CONST,
            Keyword::True => classes::TRUE,
            Keyword::False => classes::FALSE,
            Keyword::Array => classes::ARRAY,
            Keyword::Map => classes::MAP,
            Keyword::Handle => classes::HANDLE,
            Keyword::PendingRemote => classes::PENDING_REMOTE,
            Keyword::PendingReceiver => classes::PENDING_RECEIVER,
            Keyword::PendingAssociatedRemote => classes::PENDING_ASSOCIATED_REMOTE,
            Keyword::PendingAssociatedReceiver => classes::PENDING_ASSOCIATED_RECEIVER,
        }
    }
}

impl Symbol {
    /// The class of the symbol.
    pub fn class(self) -> u8
        ensures { result ≡ symbol_class self }
    {
        match self {
            Symbol::Semicolon => classes::SEMICOLON,
            Symbol::Comma => classes::COMMA,
            Symbol::Dot => classes::DOT,
            Symbol::OpenParen => classes::OPEN_PAREN,
            Symbol::CloseParen => classes::CLOSE_PAREN,
            Symbol::OpenBracket => classes::OPEN_BRACKET,
            Symbol::CloseBracket => classes::CLOSE_BRACKET,
            Symbol::OpenBrace => classes::OPEN_BRACE,
            Symbol::CloseBrace => classes::CLOSE_BRACE,
            Symbol::Less => classes::LESS,
            Symbol::Greater => classes::GREATER,
            Symbol::Equals => classes::EQUALS,
            Symbol::Arrow => classes::ARROW,
            Symbol::Question => classes::QUESTION,
            Symbol::At => classes::AT,
            Symbol::Plus => classes::PLUS,
            Symbol::Minus => classes::MINUS,
        }
    }
}

/// The class of an identifier: one of its own for each sort of handles, and one for all others.
#[tactic(auto, unfolding(crate::specs::Classes::identifier_class))]
fn identifier_class(text: &Text) -> u8
    ensures { result ≡ identifier_class text.now }
{
    let word = text.as_str();
    if word == "message_pipe" {
        classes::MESSAGE_PIPE
    } else if word == "data_pipe_consumer" {
        classes::DATA_PIPE_CONSUMER
    } else if word == "data_pipe_producer" {
        classes::DATA_PIPE_PRODUCER
    } else if word == "shared_buffer" {
        classes::SHARED_BUFFER
    } else if word == "platform" {
        classes::PLATFORM
    } else {
        classes::IDENTIFIER
    }
}

impl Token {
    /// The class of the token.
    pub fn class(&self) -> u8
        ensures { result ≡ class self.now }
    {
        match &self.sort {
            Sort::Identifier(text) => identifier_class(text),
            Sort::Number(_) => classes::NUMBER,
            Sort::String(_) => classes::STRING,
            Sort::Keyword(keyword) => keyword.class(),
            Sort::Symbol(symbol) => symbol.class(),
        }
    }
}
