//! What holds of audits: these functions do nothing.

ghost use Rattle.std.specs.Prelude.{◌≡◌, ◌≤◌, ◌⊎◌, ℕ, List, Option, length, Err, Ok, Result};
ghost use Rattle.mj_base.specs.declared.limits.TheConstants.{MAX_FILE_BYTES};
ghost use Rattle.mj_schema.specs.declared.schema.Schema.{Schema};
ghost use Rattle.bind_model.specs.Replies.{Legal};
ghost use Rattle.bind_model.specs.WireOf.{wire_of};
ghost use Rattle.bind_model.specs.declared.event.Event.{Event};
ghost use Rattle.call_script.specs.Same.{SameScript};
ghost use Rattle.call_script.specs.Sound.{IsScript};
ghost use Rattle.call_script.specs.declared.script.Script.{Script};
ghost use Rattle.printed_histories.specs.Runs.{run_text};
ghost use Rattle.script_run.specs.OfScript.{OfScript};
ghost use Rattle.history_audit.specs.Audited.{ArePrintable, Audits, IsSound};
ghost use Rattle.history_audit.specs.declared.auditing.AuditFinding.{AuditFinding};
ghost use Rattle.history_audit.specs.declared.auditing.AuditError.{AuditError};
ghost use Rattle.history_audit.specs.declared.auditing.AuditError.TheVariants.{BadText};

/// A law: no two of the four answers fit one text, where all that the script's runs say can be printed.
pub fn one_answer_fits()
    ensures { (schema : Schema) (script : Script) → IsScript schema script → ArePrintable schema script → (bytes : List ℕ) (one other : AuditFinding)
        → Audits schema script bytes (Ok one) → Audits schema script bytes (Ok other) → one ≡ other }
{}

/// A law: a text is bad at one byte, and no other answer fits then.
pub fn bad_texts_are_nothing_else()
    ensures bad { (schema : Schema) (script : Script) → IsScript schema script → ArePrintable schema script → (bytes : List ℕ) (one other : ℕ)
        → Audits schema script bytes (Err (BadText one)) → Audits schema script bytes (Err (BadText other)) → one ≡ other }
    ensures alone { (schema : Schema) (script : Script) → IsScript schema script → ArePrintable schema script → (bytes : List ℕ) (at : ℕ)
        → (audit : AuditFinding) → Audits schema script bytes (Err (BadText at)) → Audits schema script bytes (Ok audit) → ⊥ }
{}

/// A law: one of the answers fits each text, by a script that was read.
pub fn some_answer_fits()
    ensures { (schema : Schema) (script : Script) → IsScript schema script → script.bytes ≤ MAX_FILE_BYTES → ArePrintable schema script → (bytes : List ℕ)
        → ((audit : AuditFinding) × Audits schema script bytes (Ok audit)) ⊎ ((at : ℕ) × Audits schema script bytes (Err (BadText at))) }
{}

/// A law: whatever answer fits a text by a script fits it by one that is the same.
pub fn same_scripts_fit()
    ensures { (schema : Schema) (one other : Script) (bytes : List ℕ) (result : Result AuditFinding AuditError)
        → SameScript one other → SameScript other one → Audits schema one bytes result → Audits schema other bytes result }
{}

/// A law: the text of a run is sound, whatever the order in which its sequences did their lines, in turns or side by side.
pub fn runs_are_sound()
    ensures { (schema : Schema) (script : Script) (order : Option ℕ) (history : List Event) → Legal (wire_of schema) script.seqs history
        → OfScript schema script order history → IsSound schema script (run_text schema script.seqs history) (length history) }
{}
