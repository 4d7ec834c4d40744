//! What holds of the events of scripts: these functions do nothing.

ghost use Rattle.std.specs.Prelude.{ℕ, ◌≤◌, ◌<◌, ◌++◌, List, Option, length};
ghost use Rattle.mj_base.specs.declared.ids.SeqId.{SeqId};
ghost use Rattle.mj_base.specs.declared.limits.TheConstants.{MAX_EVENTS, MAX_FILE_BYTES};
ghost use Rattle.mj_schema.specs.declared.schema.Schema.{Schema};
ghost use Rattle.bind_model.specs.declared.event.Event.{Event};
ghost use Rattle.bind_model.specs.Replies.{Legal, legal};
ghost use Rattle.bind_model.specs.Seen.{own_of};
ghost use Rattle.bind_model.specs.WireOf.{wire_of};
ghost use Rattle.call_script.specs.declared.script.Script.{Script};
ghost use Rattle.call_script.specs.Sound.{IsScript};
ghost use Rattle.script_run.specs.OfScript.{AsksNext, GoesOn, OfScript, next_join, next_of, next_take};

/// A law: a script that was read from 1,048,576 bytes at most has fewer than 16,777,216 events, however
/// far it has come: after some of its joins, then after some lines of each sequence, in whatever turns,
/// and then after some takes.
#[tactic(auto, using(crate::proofs::FewEvents::few_events))]
pub fn few_events()
    ensures { (schema : Schema) (script : Script) → IsScript schema script → (after_joins middle : List Event) → script.bytes ≤ MAX_FILE_BYTES
        → (taken : List Event) → legal (wire_of schema) script.seqs (taken ++ (middle ++ after_joins)) → GoesOn (next_join script) after_joins
        → ((s : SeqId) → s.0 < script.seqs → AsksNext (next_of (wire_of schema) script after_joins s) (own_of s middle))
        → GoesOn (next_take (wire_of schema) script.autos (middle ++ after_joins)) taken
        → length (taken ++ (middle ++ after_joins)) < MAX_EVENTS }
{}

/// A law: so the history of such a script has fewer events. It is one that a core keeps.
pub fn ran_few()
    ensures { (schema : Schema) (script : Script) → IsScript schema script → script.bytes ≤ MAX_FILE_BYTES → (order : Option ℕ) (history : List Event)
        → Legal (wire_of schema) script.seqs history → OfScript schema script order history → length history < MAX_EVENTS }
{}
