//! The last event.

ghost use Rattle.std.specs.Prelude.{◌≡◌, reverse};
ghost use Rattle.std.specs.Option.{option_copied};
ghost use Rattle.bind_core.specs.Causes.{newest};

use bind_model::{Event, History};

/// The last event of a history.
pub fn last_event(log: &History) -> Option<&Event>
    ensures { option_copied result ≡ newest (reverse log.now.events) }
{
    log.as_slice().last()
}
