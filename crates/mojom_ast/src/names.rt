//! Identifiers, numbers, strings, names and values, as they are written.

use mj_base::{Items, Span, Text};

/// An identifier, and where it stands.
#[derive(Drop)]
pub struct Identifier {
    pub text: Text,
    pub span: Span,
}

/// A number without a sign, and where it stands.
#[derive(Clone, Copy)]
pub struct Number {
    pub value: u64,
    pub span: Span,
}

/// A string, by the bytes that it stands for, and where it stands.
#[derive(Drop)]
pub struct StringLiteral {
    pub bytes: Items<u8>,
    pub span: Span,
}

/// A name: its identifiers, at least one, with dots between them.
#[derive(Drop)]
pub struct Name {
    pub parts: Items<Identifier>,
}

/// A value. The place of a number is that of its first token, which may be its sign.
#[derive(Drop)]
pub enum Value {
    String(StringLiteral),
    Bool {
        value: bool,
        span: Span,
    },
    Number {
        negative: bool,
        magnitude: u64,
        span: Span,
    },
    Name(Name),
}
