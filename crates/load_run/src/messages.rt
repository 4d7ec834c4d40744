//! The messages of a load, by the numbers that are drawn for them.

ghost use Rattle.std.specs.Prelude.{◌≡◌};
ghost use Rattle.load_run.specs.Messages.{message_of};
ghost use Rattle.script_run.specs.Order.{next_draw};

/// A message: its number, whether it goes over the second pair, whether it is a `Say` and not a `Note`, and
/// how many letters or bytes it has.
#[derive(Clone, Copy)]
pub(crate) struct Message {
    pub number: u64,
    pub is_second: bool,
    pub is_say: bool,
    pub size: u64,
}

/// The number that is drawn after another.
pub fn next_draw(draw: u64) -> u64
    ensures { result ≡ next_draw draw }
{
    draw.wrapping_mul(6_364_136_223_846_793_005)
        .wrapping_add(1_442_695_040_888_963_407)
}

/// The message of a number, where this number is drawn for it.
pub fn message_of(number: u64, draw: u64) -> Message
    ensures { result ≡ message_of number draw }
{
    let upper = draw >> 32;
    let is_say = upper / 2 % 2 == 0;
    let size = if is_say {
        upper / 4 % 32
    } else {
        upper / 4 % 64
    };
    Message {
        number,
        is_second: upper % 2 == 1,
        is_say,
        size,
    }
}
