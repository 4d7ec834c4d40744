//! What holds of texts whoever reads or writes them.

ghost use Rattle.std.specs.Prelude.{◌≡◌, ◌≤◌, ℕ, List, Result};
ghost use Rattle.mj_schema.specs.KindTrees.{KindTree};
ghost use Rattle.mj_schema.specs.declared.schema.Schema.{Schema};
ghost use Rattle.wire_model.specs.Depth.{IsOfKind};
ghost use Rattle.wire_model.specs.Trees.{Tree};
ghost use Rattle.wire_model.specs.declared.value.Value.{Value};
ghost use Rattle.byte_rules.specs.Judged.{Spells};
ghost use Rattle.value_text.specs.Brackets.{MAX_BRACKETS, brackets};
ghost use Rattle.value_text.specs.Rules.{value};
ghost use Rattle.value_text.specs.Spelling.{spell};
ghost use Rattle.value_text.specs.Texts.{Tells, ReadsBack};
ghost use Rattle.value_text.specs.declared.text_error.TextError.{TextError};

/// A law: two texts of one value of a kind are the same. It does nothing.
#[tactic(auto, using(crate::proofs::OneText::same_text))]
pub fn one_text()
    ensures { (schema : Schema) (k : KindTree) (t : Tree) (one other : List ℕ) → Spells (value schema MAX_BRACKETS k) t one
        → Spells (value schema MAX_BRACKETS k) t other → one ≡ other }
{}

/// A law: what is written for a value of its kind, with at most 512 brackets open at once, is read
/// back as that value. It does nothing.
#[tactic(auto, using(crate::proofs::RoundTrip::reads_back))]
pub fn texts_are_read_back()
    ensures { (schema : Schema) (k : KindTree) (t : Tree) (read : Result Value TextError) → IsOfKind schema k t → brackets t ≤ MAX_BRACKETS
        → Tells (value schema MAX_BRACKETS k) (spell schema k t) read → ReadsBack t read }
{}
