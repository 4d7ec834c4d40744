//! Laws of the histories of a script: it has one at most of one list of turns, and one at most in an order.
#![tactic(auto)]

ghost use Rattle.std.specs.Prelude.{◌≡◌, ◌++◌, ℕ, List, Option, Some, map};
ghost use Rattle.mj_base.specs.declared.ids.SeqId.{SeqId};
ghost use Rattle.mj_schema.specs.declared.schema.Schema.{Schema};
ghost use Rattle.bind_model.specs.Replies.{Legal};
ghost use Rattle.bind_model.specs.WireOf.{wire_of};
ghost use Rattle.bind_model.specs.declared.event.Event.{Event};
ghost use Rattle.call_script.specs.declared.script.Script.{Script};
ghost use Rattle.script_run.specs.OfScript.{OfScript};

/// Of one script and one list of turns there is one history at most: where two legal histories are the script's, in
/// an order or in whatever turns, and the sequences of the events of the one are those of the other's, and maybe of
/// more behind them, the two are the same. This is a law and does nothing.
pub fn one_history()
    ensures { (schema : Schema) (script : Script) (order : Option ℕ) (history other : List Event) (more : List SeqId)
        → Legal (wire_of schema) script.seqs history → Legal (wire_of schema) script.seqs other
        → OfScript schema script order history → OfScript schema script order other
        → map (λ (e : Event). e.seq) other ≡ map (λ (e : Event). e.seq) history ++ more → other ≡ history }
{}

/// In one order a script has one history at most: two that are legal, and the script's in that order, are the same.
/// This is a law and does nothing.
pub fn one_run()
    ensures { (schema : Schema) (script : Script) (order : ℕ) (history other : List Event)
        → Legal (wire_of schema) script.seqs history → Legal (wire_of schema) script.seqs other
        → OfScript schema script (Some order) history → OfScript schema script (Some order) other → other ≡ history }
{}
