//! Words and symbols.

ghost use Rattle.std.specs.Prelude.{◌≡◌, true, map};
ghost use Rattle.mojom_lexer.specs.Words.{is_word, keyword_of, keyword_in, single_symbol};

use mojom_ast::{Keyword, Symbol};

/// The word as a text: its bytes are ASCII.
pub fn as_text(word: &[u8]) -> &str
    requires { is_word word.now ≡ true }
    ensures { result.now ≡ word.now }
{
    match str::from_utf8(word) {
        Ok(text) => text,
        Err(_) => unreachable!(),
    }
}

/// The keyword that the word is.
#[tactic(auto, unfolding(crate::specs::Words::keyword_of))]
pub fn keyword(word: &str) -> Option<Keyword>
    ensures { result ≡ keyword_of word.now }
{
    let keywords = [
        ("module", Keyword::Module),
        ("import", Keyword::Import),
        ("struct", Keyword::Struct),
        ("union", Keyword::Union),
        ("enum", Keyword::Enum),
        ("interface", Keyword::Interface),
        ("const", Keyword::Const),
        ("true", Keyword::True),
        ("false", Keyword::False),
        ("array", Keyword::Array),
        ("map", Keyword::Map),
        ("handle", Keyword::Handle),
        ("pending_remote", Keyword::PendingRemote),
        ("pending_receiver", Keyword::PendingReceiver),
        (
            "pending_associated_remote",
            Keyword::PendingAssociatedRemote,
        ),
        (
            "pending_associated_receiver",
            Keyword::PendingAssociatedReceiver,
        ),
    ];
    look_up(&keywords, word)
}

/// What the table has for the word.
fn look_up(table: &[(&str, Keyword)], word: &str) -> Option<Keyword>
    ensures { result ≡ keyword_in (map (λ entry. (entry.0.now, entry.1)) table.now) word.now }
{
    for (text, keyword) in table {
        if word == *text {
            return Some(*keyword);
        }
    }
    None
}

/// The symbol that the character is.
#[tactic(auto, unfolding(crate::specs::Words::single_symbol))]
pub fn symbol(byte: u8) -> Option<Symbol>
    ensures { result ≡ single_symbol byte }
{
    match byte {
        b';' => Some(Symbol::Semicolon),
        b',' => Some(Symbol::Comma),
        b'.' => Some(Symbol::Dot),
        b'(' => Some(Symbol::OpenParen),
        b')' => Some(Symbol::CloseParen),
        b'[' => Some(Symbol::OpenBracket),
        b']' => Some(Symbol::CloseBracket),
        b'{' => Some(Symbol::OpenBrace),
        b'}' => Some(Symbol::CloseBrace),
        b'<' => Some(Symbol::Less),
        b'>' => Some(Symbol::Greater),
        b'=' => Some(Symbol::Equals),
        b'?' => Some(Symbol::Question),
        b'@' => Some(Symbol::At),
        b'+' => Some(Symbol::Plus),
        b'-' => Some(Symbol::Minus),
        _ => None,
    }
}
