//! Comments.

ghost use Rattle.std.specs.Prelude.{◌≡◌};
ghost use Rattle.mojom_lexer.specs.steps.Scans.{before_close};

/// How many bytes stand before the next `*/`, where there is one.
pub fn before_close(bytes: &[u8]) -> Option<usize>
    ensures { result ≡ before_close bytes.now }
{
    for len in 0..bytes.len() {
        if bytes[len..].starts_with(b"*/") {
            return Some(len);
        }
    }
    None
}
