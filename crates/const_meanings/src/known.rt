//! What values are.

ghost use Rattle.std.specs.Prelude.{◌≡◌};
ghost use Rattle.std.specs.Option.{option_map};
ghost use Rattle.const_meanings.specs.Known.{known_view, signed, number_of, known_with};

use crate::literal::Literal;

/// What a value is: the bytes of a string, a bool, a number, or that of a constant of `float` or
/// `double`.
#[derive(Clone, Copy)]
pub enum KnownView<'a> {
    Text(&'a [u8]),
    Bool(bool),
    Number(i128),
    Float,
}

/// The number of a sign and a magnitude.
pub fn signed(negative: bool, magnitude: u64) -> i128
    ensures { result ≡ signed negative magnitude }
{
    let number = magnitude as i128;
    if negative { -number } else { number }
}

/// The number of a sign and a magnitude, and so much more.
fn number_of(negative: bool, magnitude: u64, more: u64) -> i128
    ensures { result ≡ number_of negative magnitude more }
{
    signed(negative, magnitude) + more as i128
}

/// What so much more than a literal is; none exactly of more than what is no number.
pub fn known_with<'a>(literal: &'a Literal, more: u64) -> Option<KnownView<'a>>
    ensures { option_map known_view result ≡ known_with literal.now more }
{
    match literal {
        Literal::Number {
            negative,
            magnitude,
        } => Some(KnownView::Number(number_of(*negative, *magnitude, more))),
        Literal::Text(bytes) if more == 0 => Some(KnownView::Text(bytes.as_slice())),
        Literal::Bool(value) if more == 0 => Some(KnownView::Bool(*value)),
        Literal::Float if more == 0 => Some(KnownView::Float),
        _ => None,
    }
}
