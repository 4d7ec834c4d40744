//! What all sequences have between their joins and their lines, and behind these: a pass each, a desk at rest, and what it holds.

ghost use Rattle.std.specs.Prelude.{◌≡◌, ◌<◌, ◌++◌, [], ◌∷◌, IfNone, IfSome, length, vec_capacity};

use bind_hub::Pass;
use remote_receiver::Rest;
use script_names::Rooms;
use script_run::Plain;

/// The passes, the desks at rest and the rooms of all sequences, each in the order of the sequences.
pub struct Crew {
    pub passes: Vec<Pass>,
    pub rests: Vec<Rest<Plain>>,
    pub rooms: Vec<Rooms>,
}

/// What one of them has.
pub struct Place {
    pub pass: Pass,
    pub rest: Rest<Plain>,
    pub room: Rooms,
}

impl Crew {
    /// Takes what the last sequence has.
    pub fn take_last(&mut self) -> Option<Place>
        requires counts { (length self.old.rests.items ≡ length self.old.passes.items) × (length self.old.rooms.items ≡ length self.old.passes.items) }
        ensures some { IfSome result (λ place. (self.old.passes.items ≡ self.new.passes.items ++ place.pass ∷ [])
            × (self.old.rests.items ≡ self.new.rests.items ++ place.rest ∷ [])
            × (self.old.rooms.items ≡ self.new.rooms.items ++ place.room ∷ [])) }
        ensures none { IfNone result ((self.old.passes.items ≡ []) × (self.new.passes.items ≡ []) × (self.new.rests.items ≡ [])
            × (self.new.rooms.items ≡ [])) }
        ensures capacity { (vec_capacity self.new.passes ≡ vec_capacity self.old.passes) × (vec_capacity self.new.rests ≡ vec_capacity self.old.rests)
            × (vec_capacity self.new.rooms ≡ vec_capacity self.old.rooms) }
    {
        let pass = self.passes.pop()?;
        let Some(rest) = self.rests.pop() else {
            unreachable!()
        };
        let Some(room) = self.rooms.pop() else {
            unreachable!()
        };
        Some(Place { pass, rest, room })
    }

    /// Puts behind the others what a sequence has. There is room for it.
    pub fn put_back(&mut self, place: Place)
        requires passes { length self.old.passes.items < vec_capacity self.old.passes }
        requires rests { length self.old.rests.items < vec_capacity self.old.rests }
        requires rooms { length self.old.rooms.items < vec_capacity self.old.rooms }
        ensures passes { self.new.passes.items ≡ self.old.passes.items ++ place.pass ∷ [] }
        ensures rests { self.new.rests.items ≡ self.old.rests.items ++ place.rest ∷ [] }
        ensures rooms { self.new.rooms.items ≡ self.old.rooms.items ++ place.room ∷ [] }
        ensures capacity { (vec_capacity self.new.passes ≡ vec_capacity self.old.passes) × (vec_capacity self.new.rests ≡ vec_capacity self.old.rests)
            × (vec_capacity self.new.rooms ≡ vec_capacity self.old.rooms) }
    {
        let Place { pass, rest, room } = place;
        self.passes.push_reserved(pass);
        self.rests.push_reserved(rest);
        self.rooms.push_reserved(room);
    }
}
