//! That what a script's run makes can be printed, that its text says its history and no other, and that
//! what it sends fits, over a schema whose names and numbers a text can say, as those of files are.
#![tactic(auto)]

ghost use Rattle.std.specs.Prelude.{◌≤◌, List, ℕ, Ok, Option, length, reverse};
ghost use Rattle.mj_base.specs.declared.limits.TheConstants.{MAX_EVENTS};
ghost use Rattle.mj_schema.specs.declared.schema.Schema.{Schema};
ghost use Rattle.bind_model.specs.Replies.{Legal};
ghost use Rattle.bind_model.specs.WireOf.{wire_of};
ghost use Rattle.bind_model.specs.declared.event.Event.{Event};
ghost use Rattle.line_parts.specs.Schemas.{IsPrintableSchema};
ghost use Rattle.call_script.specs.Script.{IsScriptOf};
ghost use Rattle.call_script.specs.declared.script.Script.{Script};
ghost use Rattle.history_reader.specs.Printable.{IsPrintable};
ghost use Rattle.history_reader.specs.Texts.{Tells};
ghost use Rattle.history_reader.specs.Whole.{history as history_rule};
ghost use Rattle.printed_histories.specs.Runs.{run_said, run_text};
ghost use Rattle.printed_runs.specs.Fitting.{AllFit};
ghost use Rattle.script_run.specs.OfScript.{InSomeOrder, OfScript};

use wire_encoder::laws::passed_is_encodable;

/// What a script's run over such a schema makes, what became of its callbacks and what it leaves have
/// names, values and numbers that a text can say. This is a law and does nothing: it calls the law that it
/// rests on.
pub fn runs_can_be_printed()
    ensures { (schema : Schema) (bytes : List ℕ) (script : Script) (order : Option ℕ) (history : List Event)
        → IsPrintableSchema schema → IsScriptOf schema bytes script → Legal (wire_of schema) script.seqs history
        → OfScript schema script order history → length history ≤ MAX_EVENTS → IsPrintable schema (run_said script.seqs history) }
{
    passed_is_encodable();
}

/// So it is with a legal history that is the script's in whatever order its sequences do their lines. This is a
/// law and does nothing: it calls the law that it rests on.
pub fn runs_in_any_order_can_be_printed()
    ensures { (schema : Schema) (bytes : List ℕ) (script : Script) (history : List Event)
        → IsPrintableSchema schema → IsScriptOf schema bytes script → Legal (wire_of schema) script.seqs history
        → InSomeOrder schema script history → length history ≤ MAX_EVENTS → IsPrintable schema (run_said script.seqs history) }
{
    passed_is_encodable();
}

/// So the text of a run, in turns or side by side, says its history, what became of its callbacks and what it
/// leaves, but for the interfaces of responders' endpoints, and says nothing else. This is a law and does nothing: it calls the
/// law that it rests on.
pub fn runs_are_read_back()
    ensures { (schema : Schema) (bytes : List ℕ) (script : Script) (order : Option ℕ) (history : List Event)
        → IsPrintableSchema schema → IsScriptOf schema bytes script → Legal (wire_of schema) script.seqs history
        → OfScript schema script order history → length history ≤ MAX_EVENTS
        → Tells (history_rule schema) (run_text schema script.seqs history) (Ok (run_said script.seqs history)) }
{
    passed_is_encodable();
}

/// What the calls and answers of such a run are to send was prepared, and so fits its method: its parameters
/// pass all checks, in few bytes, the method's ordinal is a number of 32 bits, and its moment one of 64. This is
/// a law and does nothing: it calls the law that it rests on.
pub fn runs_send_what_fits()
    ensures { (schema : Schema) (bytes : List ℕ) (script : Script) (order : Option ℕ) (history : List Event)
        → IsPrintableSchema schema → IsScriptOf schema bytes script
        → OfScript schema script order history → AllFit schema (reverse history) }
{
    passed_is_encodable();
}
