//! That a job runs exactly where there is a response to its request, and that what a desk notes of its jobs
//! is what the events of its sequence say of callbacks.
#![tactic(auto)]

ghost use Rattle.std.specs.Prelude.{ℕ, ◌≡◌, ◌≤◌, List, length, map};
ghost use Rattle.mj_base.specs.declared.ids.SeqId.{SeqId};
ghost use Rattle.mj_base.specs.declared.limits.TheConstants.{MAX_EVENTS};
ghost use Rattle.mj_schema.specs.declared.schema.Schema.{Schema};
ghost use Rattle.bind_model.specs.declared.event.Event.{Event};
ghost use Rattle.bind_model.specs.Replies.{Legal};
ghost use Rattle.bind_model.specs.WireOf.{wire_of};
ghost use Rattle.bind_model.specs.Seen.{own_of};
ghost use Rattle.remote_receiver.specs.declared.note.Note.{Note};
ghost use Rattle.remote_receiver.specs.Notes.{AreNotes};
ghost use Rattle.remote_receiver.specs.Stepped.{Step};
ghost use Rattle.callback_laws.specs.Callbacks.{callbacks_in};
ghost use Rattle.callback_laws.specs.Ran.{event_of, AreEvents, RanOnResponses};
ghost use Rattle.callback_laws.specs.Shown.{shown, GivesJobs};

use remote_receiver::Promise;

/// Where a desk's steps are events of its sequence, in a legal history with at most as many events as a core
/// keeps, each job that was given with a call that was sent ran exactly where a later take of the desk got
/// a response to its request: what shows that an endpoint is over is followed by none. This is a law and
/// does nothing.
pub fn runs_on_responses<C: Promise>()
    ensures { (schema : Schema) (seqs : ℕ) (me : SeqId) (history : List Event) (steps : List (Step C)) (notes : List Note)
        → AreEvents schema seqs me history steps → AreNotes C.promises steps notes → RanOnResponses C.promises steps notes }
{}

/// Where a desk's steps are all events of its sequence, in such a history, and each call came with a job
/// exactly where its method has a response, the desk's notes are the callbacks that these events say: one
/// for each call that was sent with a response to come, in order, which ran exactly where a later take got
/// the response to its request. This is a law and does nothing.
pub fn callbacks_of_a_desk<C: Promise>()
    ensures { (schema : Schema) (seqs : ℕ) (me : SeqId) (history : List Event) (steps : List (Step C)) (notes : List Note)
        → Legal (wire_of schema) seqs history → length history ≤ MAX_EVENTS → own_of me history ≡ map (event_of me) steps
        → GivesJobs (wire_of schema) steps → AreNotes C.promises steps notes → map (shown me) notes ≡ callbacks_in (own_of me history) }
{}
