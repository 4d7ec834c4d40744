//! Tokens: what the lexical rules of the Mojom language part a file into.

use mj_base::{Items, Span, Text};

/// A word that is no identifier.
#[derive(Clone, Copy)]
pub enum Keyword {
    Module,
    Import,
    Struct,
    Union,
    Enum,
    Interface,
    Const,
    True,
    False,
    Array,
    Map,
    Handle,
    PendingRemote,
    PendingReceiver,
    PendingAssociatedRemote,
    PendingAssociatedReceiver,
}

/// A sign of one character, or `=>`.
#[derive(Clone, Copy)]
pub enum Symbol {
    /// `;`
    Semicolon,
    /// `,`
    Comma,
    /// `.`
    Dot,
    /// `(`
    OpenParen,
    /// `)`
    CloseParen,
    /// `[`
    OpenBracket,
    /// `]`
    CloseBracket,
    /// `{`
    OpenBrace,
    /// `}`
    CloseBrace,
    /// `<`
    Less,
    /// `>`
    Greater,
    /// `=`
    Equals,
    /// `=>`
    Arrow,
    /// `?`
    Question,
    /// `@`
    At,
    /// `+`
    Plus,
    /// `-`
    Minus,
}

/// What a token is.
#[derive(Drop)]
pub enum Sort {
    /// A letter or `_`, and then letters, digits and `_`, that is no keyword.
    Identifier(Text),
    Keyword(Keyword),
    /// A decimal or hexadecimal number, by its value.
    Number(u64),
    /// A string, by the bytes that it stands for: its escapes are resolved. They are UTF-8.
    String(Items<u8>),
    Symbol(Symbol),
}

/// A token, and the bytes of the file that it is.
#[derive(Drop)]
pub struct Token {
    pub sort: Sort,
    pub span: Span,
}
