//! What one pass has seen, all others see.

ghost use Rattle.std.specs.Prelude.{ℕ, ◌≡◌, ◌<◌, Some, length, slice_get};
ghost use Rattle.bind_hub.specs.Hubs.{schema_in, seqs_in};
ghost use Rattle.bind_hub.specs.Passes.{IsPassOf};
ghost use Rattle.threaded_run.specs.steps.Passes.{Shown};

use bind_hub::{Hub, Pass};

/// Each of the others has then seen all that this one has.
#[tactic(auto, using(crate::proofs::Showing::shown_first, crate::proofs::Showing::shown_other, crate::proofs::Showing::shown_one))]
fn tell(hub: &Hub, one: &mut Pass, others: &mut [Pass])
    requires one { IsPassOf hub.now.turn.board.shared.table_id (schema_in hub.now) (seqs_in hub.now)
        one.old.number one.old.place.table_id one.old.place.me.0 }
    requires others { (k : ℕ) (p : _) → slice_get others.old k ≡ Some p
        → IsPassOf hub.now.turn.board.shared.table_id (schema_in hub.now) (seqs_in hub.now) p.number p.place.table_id p.place.me.0 }
    ensures one { Shown hub.now.turn.board.shared.table_id (schema_in hub.now) (seqs_in hub.now) one.old.number one.old.place.me.0
        one.old.place.me.0.seen one.new.number one.new.place.table_id one.new.place.me.0 }
    ensures len { length others.new ≡ length others.old }
    ensures others { (k : ℕ) (p : _) → slice_get others.old k ≡ Some p → (q : _) × (slice_get others.new k ≡ Some q)
        × Shown hub.now.turn.board.shared.table_id (schema_in hub.now) (seqs_in hub.now) p.number p.place.me.0 one.old.place.me.0.seen
        q.number q.place.table_id q.place.me.0 }
{
    for other in others {
        hub.meet(one, other);
    }
}

/// All passes have then seen what the one of this number has.
pub fn share(hub: &Hub, passes: &mut [Pass], s: usize)
    requires within { s < length passes.old }
    requires passes { (k : ℕ) (p : _) → slice_get passes.old k ≡ Some p
        → IsPassOf hub.now.turn.board.shared.table_id (schema_in hub.now) (seqs_in hub.now) p.number p.place.table_id p.place.me.0 }
    ensures len { length passes.new ≡ length passes.old }
    ensures each { (k : ℕ) (p one : _) → slice_get passes.old s ≡ Some one → slice_get passes.old k ≡ Some p
        → (q : _) × (slice_get passes.new k ≡ Some q)
        × Shown hub.now.turn.board.shared.table_id (schema_in hub.now) (seqs_in hub.now) p.number p.place.me.0 one.place.me.0.seen
        q.number q.place.table_id q.place.me.0 }
{
    let (low, rest) = passes.split_at_mut(s);
    let Some((one, high)) = rest.split_first_mut() else {
        unreachable!()
    };
    tell(hub, one, low);
    tell(hub, one, high);
}
