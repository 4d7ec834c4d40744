//! Whose value a take gets, and whose flush.
#![tactic(auto)]

ghost use Rattle.std.specs.Prelude.{ℕ, ◌≤◌, List, length};
ghost use Rattle.mj_base.specs.declared.limits.TheConstants.{MAX_EVENTS};
ghost use Rattle.mj_schema.specs.declared.schema.Schema.{Schema};
ghost use Rattle.bind_model.specs.declared.event.Event.{Event};
ghost use Rattle.bind_model.specs.WireOf.{wire_of};
ghost use Rattle.bind_model.specs.Replies.{legal};
ghost use Rattle.bind_model.specs.Flushes.{AllBehind};
ghost use Rattle.reply_laws.specs.Own.{AllOwn};
ghost use Rattle.reply_laws.specs.Once.{AllFirst};

use wire_encoder::laws::passed_is_encodable;

/// What a take gets was sent by its peer, on a pipe on which nothing was written raw: a request by a call
/// from the endpoint of that id, under that number, and a response by an answer of the responder that an
/// earlier take there handed out with the request of that id and number. Where what was sent fits its
/// method, as what is prepared does, and the endpoint here is of its interface, the value that is got and
/// its moment are those that were sent. The history has at most as many events as a core keeps. This is a law and
/// does nothing: it calls the law that it rests on.
pub fn all_own()
    ensures { (schema : Schema) (seqs : ℕ) (past : List Event) → legal (wire_of schema) seqs past → length past ≤ MAX_EVENTS → AllOwn schema past }
{
    passed_is_encodable();
}

/// Such a response comes from the one answer to its request: where nothing was written raw on its pipe, an
/// answer that is sent is the first to the request of that end, id and number. This is a law and does
/// nothing: it calls the law that it rests on.
pub fn all_first()
    ensures { (schema : Schema) (seqs : ℕ) (past : List Event) → legal (wire_of schema) seqs past → length past ≤ MAX_EVENTS → AllFirst past }
{
    passed_is_encodable();
}

/// Where nothing was written raw to an end, a flush that is consumed there was written by its peer, under that
/// number and behind as many messages as were consumed there before: so all that was written before it was
/// consumed. The history has at most as many events as a core keeps. This is a law and does nothing.
#[tactic(auto, using(crate::proofs::Behind::all_behind))]
pub fn all_behind()
    ensures { (schema : Schema) (seqs : ℕ) (past : List Event) → legal (wire_of schema) seqs past → length past ≤ MAX_EVENTS → AllBehind (wire_of schema) past }
{}
