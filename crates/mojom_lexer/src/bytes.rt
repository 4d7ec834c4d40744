//! What bytes may be, and how many of one sort stand at the front.

ghost use Rattle.std.specs.Prelude.{◌≡◌, ℕ, Bool};
ghost use Rattle.mojom_lexer.specs.Bytes.{is_blank, is_digit, is_hex_digit, is_letter, goes_on, stays_on_line};
ghost use Rattle.mojom_lexer.specs.steps.Scans.{run_len};

/// Whether the byte parts tokens: a space, a tab, CR or LF.
pub fn is_blank(byte: u8) -> bool
    ensures { result ≡ is_blank byte }
{
    byte == b' ' || byte == b'\t' || byte == b'\r' || byte == b'\n'
}

/// Whether the byte is a decimal digit.
pub fn is_digit(byte: u8) -> bool
    ensures { result ≡ is_digit byte }
{
    b'0' <= byte && byte <= b'9'
}

/// Whether the byte is a hexadecimal digit.
pub fn is_hex_digit(byte: u8) -> bool
    ensures { result ≡ is_hex_digit byte }
{
    is_digit(byte) || (b'a' <= byte && byte <= b'f') || (b'A' <= byte && byte <= b'F')
}

/// Whether the byte may begin a word.
pub fn is_letter(byte: u8) -> bool
    ensures { result ≡ is_letter byte }
{
    (b'a' <= byte && byte <= b'z') || (b'A' <= byte && byte <= b'Z') || byte == b'_'
}

/// Whether the byte may stand in a word.
pub fn goes_on(byte: u8) -> bool
    ensures { result ≡ goes_on byte }
{
    is_letter(byte) || is_digit(byte)
}

/// Whether the byte doesn't end a line.
pub fn stays_on_line(byte: u8) -> bool
    ensures { result ≡ stays_on_line byte }
{
    byte != b'\n'
}

/// How many bytes at the front pass the test.
pub fn run_len<F: Fn(u8) -> bool>(bytes: &[u8], passes: F) -> usize
    ghost test: { ℕ → Bool }
    requires callable { F.IsAlwaysCallable passes }
    requires computes { (byte : ℕ) (answer : Bool) → F.post passes byte answer → answer ≡ test byte }
    ensures { result ≡ run_len test bytes.now }
{
    for (len, byte) in bytes.iter().enumerate() {
        if !passes(*byte) {
            return len;
        }
    }
    bytes.len()
}
