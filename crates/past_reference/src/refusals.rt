//! Tests of commands, of which the first that fails refuses, and the words for refusals.

use bind_model::Why;

/// A test: why it fails, where it doesn't hold.
pub fn unless(holds: bool, why: Why) -> Option<Why> {
    if holds { None } else { Some(why) }
}

/// The first test that fails.
pub fn first_of(tests: &[Option<Why>]) -> Option<Why> {
    for test in tests {
        if test.is_some() {
            return *test;
        }
    }
    None
}

/// The word for a refusal.
pub fn refusal(why: Why) -> &'static str {
    match why {
        Why::NoName => "no no-name",
        Why::NotPipe => "no not-pipe",
        Why::Disconnected => "no disconnected",
        Why::Unbound(_) => "no unbound",
        Why::Elsewhere(_) => "no elsewhere",
        Why::WrongSide => "no wrong-side",
        Why::WrongMethod => "no wrong-method",
        Why::WrongTokens => "no wrong-tokens",
        Why::WrongPipe(_) => "no wrong-pipe",
        Why::SelfSend => "no self-send",
        Why::TooLong => "no too-long",
        Why::TooManyHandles => "no too-many-handles",
        Why::Full => "no full",
        Why::Empty => "no empty",
        Why::PeerClosed => "no peer-closed",
        Why::Paused(_) => "no paused",
        Why::SelfPause => "no self-pause",
        Why::BadSize(_) => "no bad-size",
        Why::NotData => "no not-data",
        Why::Busy(_) => "no busy",
        Why::Idle => "no idle",
        Why::Short(_) => "no short",
    }
}
