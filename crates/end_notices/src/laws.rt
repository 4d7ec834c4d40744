//! What an end's notices say that agree with the events.

ghost use Rattle.std.specs.Prelude.{List};
ghost use Rattle.mj_base.specs.declared.ids.EndId.{EndId as end_id};
ghost use Rattle.bind_model.specs.declared.event.Event.{Event};
ghost use Rattle.end_notices.specs.Agreement.{Agrees, Says};
ghost use Rattle.end_notices.specs.Seen.{Seen};

/// Notices that agree with the events say at which endpoints a version is awaited, which number the next
/// flush gets, which flushes were consumed, and whom the end waits for. This is a law and does nothing.
pub fn agreeing_notices_say()
    ensures { (past : List Event) (x : end_id) (seen : Seen) → Agrees past x seen → Says past x seen }
{}
