//! What holds of the texts of histories whoever reads or writes them.

ghost use Rattle.std.specs.Prelude.{◌≡◌, ◌≤◌, ℕ, false, List, Result, Some};
ghost use Rattle.mj_schema.specs.KindTrees.{StructKind};
ghost use Rattle.mj_schema.specs.declared.schema.Schema.{Schema};
ghost use Rattle.wire_model.specs.Depth.{IsOfKind};
ghost use Rattle.wire_model.specs.Trees.{Tree};
ghost use Rattle.wire_model.specs.declared.target.MessageSide.{MessageSide};
ghost use Rattle.wire_model.specs.declared.target.Target.{Target};
ghost use Rattle.handle_table.specs.declared.thing.Thing.{Thing};
ghost use Rattle.bind_model.specs.declared.event.Event.{Event};
ghost use Rattle.byte_rules.specs.Judged.{Spells};
ghost use Rattle.value_text.specs.Brackets.{MAX_BRACKETS, brackets};
ghost use Rattle.value_text.specs.declared.text_error.TextError.{TextError};
ghost use Rattle.history_text.specs.declared.notes.Note.{Note};
ghost use Rattle.history_text.specs.History.{history_text};
ghost use Rattle.history_text.specs.Names.{method_text};
ghost use Rattle.line_parts.specs.Names.{names_of, messages_of, meaning};
ghost use Rattle.history_reader.specs.Printable.{IsMessage, IsPrintable, printed_text};
ghost use Rattle.history_reader.specs.Said.{said};
ghost use Rattle.history_reader.specs.Texts.{Tells, ReadsBack};
ghost use Rattle.history_reader.specs.Whole.{history};
ghost use Rattle.history_reader.specs.declared.printed.Printed.{Printed};

/// A law: two texts that say the same are the same. It does nothing.
#[tactic(auto, using(crate::proofs::RoundTrip::same_text))]
pub fn one_text()
    ensures { (schema : Schema) (printed : Printed) (one other : List ℕ) → Spells (history schema) printed one
        → Spells (history schema) printed other → one ≡ other }
{}

/// A law: what bytes say is something that a text can say, and the bytes are its text. It does nothing.
#[tactic(auto, using(crate::proofs::RoundTrip::own_text))]
pub fn what_is_read_has_that_text()
    ensures { (schema : Schema) (printed : Printed) (bytes : List ℕ) → Spells (history schema) printed bytes
        → IsPrintable schema printed × (bytes ≡ printed_text schema printed) }
{}

/// A law: two histories with one text are the same, but for the interfaces of responders' endpoints,
/// of which the text says nothing. It does nothing.
#[tactic(auto, using(crate::proofs::RoundTrip::same_history))]
pub fn one_history()
    ensures { (schema : Schema) (events others : List Event) (notes more : List Note) (left rest : List Thing)
        → IsPrintable schema (said events notes left) → IsPrintable schema (said others more rest)
        → history_text schema events notes left ≡ history_text schema others more rest → said events notes left ≡ said others more rest }
{}

/// A law: what is written for a history is read back as that history, its interfaces of responders'
/// endpoints as 0. It does nothing.
#[tactic(auto, using(crate::proofs::RoundTrip::reads_back))]
pub fn texts_are_read_back()
    ensures { (schema : Schema) (events : List Event) (notes : List Note) (left : List Thing) (read : Result Printed TextError)
        → IsPrintable schema (said events notes left) → Tells (history schema) (history_text schema events notes left) read
        → ReadsBack (said events notes left) read }
{}

/// A law: a message is one that a text can say where its method's word means it and its parameters
/// are a value of their struct with at most 512 brackets open at once. It does nothing.
#[tactic(auto, using(crate::proofs::RoundTrip::message_fits))]
pub fn fitting_messages_are_said()
    ensures { (schema : Schema) (side : MessageSide) (target : Target) (t : Tree) (number : ℕ)
        → meaning (messages_of (names_of schema) side) (method_text schema target.interface target.method)
        ≡ Some (record { target = target; parameters = number })
        → IsOfKind schema (StructKind number false) t → brackets t ≤ MAX_BRACKETS → IsMessage schema side target t }
{}
