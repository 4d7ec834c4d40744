//! One byte.

ghost use Rattle.std.specs.Prelude.{◌≡◌, ◌==◌};
ghost use Rattle.byte_rules.specs.Lang.{byte, front_is};
ghost use Rattle.byte_rules.specs.Reading.{Gives};

use crate::stop::Stop;

/// Whether the next byte is this one.
pub fn is_next(bytes: &[u8], byte: u8) -> bool
    ensures { result ≡ front_is (λ b. b == byte) bytes.now }
{
    match bytes {
        [first, ..] => *first == byte,
        [] => false,
    }
}

/// The bytes after the next one, which is this one.
pub fn expect(bytes: &[u8], wanted: u8) -> Result<&[u8], Stop>
    ensures { Gives (λ rest. (wanted, rest.now)) result ((byte wanted).read bytes.now) }
{
    match bytes {
        [first, rest @ ..] => {
            if *first == wanted {
                Ok(rest)
            } else {
                Err(Stop::Left(bytes.len()))
            }
        }
        [] => Err(Stop::Left(0)),
    }
}
