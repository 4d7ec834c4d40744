//! Waits that are met, and then forgotten.

ghost use Rattle.core_state.specs.Forgets.{StaysTrue};

use crate::taking::is_met;
use end_notices::NoticeTable;
use message_pipe::ThingPipes;
use mj_base::EndId;

/// Forgets the first wait of an end where it is met: whether it was.
fn forget_one(notices: &mut NoticeTable, pipes: &ThingPipes, end: EndId) -> bool
    ensures { StaysTrue pipes.now notices.old notices.new }
{
    let Some(wait) = notices.first_wait(end) else {
        return false;
    };
    if !is_met(pipes, notices, wait) {
        return false;
    }
    notices.forget(end);
    true
}

/// Forgets what an end waits for and is met, up to the first that isn't, so that each is looked at once: at
/// most so many.
fn forget_met(notices: &mut NoticeTable, pipes: &ThingPipes, end: EndId)
    ensures { StaysTrue pipes.now notices.old notices.new }
{
    for _ in 0..notices.count_waits(end) {
        if !forget_one(notices, pipes, end) {
            return;
        }
    }
}

/// Forgets what an end, where there is one, waits for and is met.
pub fn forget_at(notices: &mut NoticeTable, pipes: &ThingPipes, end: Option<EndId>)
    ensures { StaysTrue pipes.now notices.old notices.new }
{
    match end {
        Some(end) => forget_met(notices, pipes, end),
        None => {}
    }
}

/// Forgets what these ends wait for and is met.
pub fn forget_all(notices: &mut NoticeTable, pipes: &ThingPipes, ends: &[EndId])
    ensures { StaysTrue pipes.now notices.old notices.new }
{
    for end in ends {
        forget_met(notices, pipes, *end);
    }
}
