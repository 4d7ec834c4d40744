//! That a history can be printed where what its sequences ask can: what they are told has numbers of their
//! widths, bytes, and values that are the schema's. Its text says it and no other history.
#![tactic(auto)]

ghost use Rattle.std.specs.Prelude.{◌<◌, ◌≤◌, ◌^◌, List, ℕ, Ok, length, reverse};
ghost use Rattle.mj_base.specs.declared.limits.TheConstants.{MAX_EVENTS};
ghost use Rattle.mj_schema.specs.declared.schema.Schema.{Schema};
ghost use Rattle.bind_model.specs.Replies.{Legal};
ghost use Rattle.bind_model.specs.WireOf.{wire_of};
ghost use Rattle.bind_model.specs.declared.event.Event.{Event};
ghost use Rattle.line_parts.specs.Schemas.{IsPrintableSchema};
ghost use Rattle.history_reader.specs.Printable.{IsPrintable};
ghost use Rattle.history_reader.specs.Texts.{Tells};
ghost use Rattle.history_reader.specs.Whole.{history as history_rule};
ghost use Rattle.printed_histories.specs.Asked.{AllAskPrintable};
ghost use Rattle.printed_histories.specs.Runs.{run_said, run_text};

/// Where all that the sequences of a legal history ask can be said in a text, over a schema that can be printed,
/// the history, what became of its callbacks and what it leaves can be: what they are told has numbers, bytes
/// and values that a text can say. This is a law and does nothing.
pub fn histories_can_be_printed()
    ensures { (schema : Schema) (seqs : ℕ) (history : List Event) → IsPrintableSchema schema → seqs < 2 ^ 32
        → Legal (wire_of schema) seqs history → length history ≤ MAX_EVENTS → AllAskPrintable schema (reverse history)
        → IsPrintable schema (run_said seqs history) }
{}

/// The text of a history that can be printed, of what became of its callbacks and of what it leaves says them,
/// but for the interfaces of responders' endpoints, and says nothing else. This is a law and does nothing.
pub fn texts_say_their_histories()
    ensures { (schema : Schema) (seqs : ℕ) (history : List Event) → IsPrintable schema (run_said seqs history)
        → Tells (history_rule schema) (run_text schema seqs history) (Ok (run_said seqs history)) }
{}
