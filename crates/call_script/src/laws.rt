//! What holds of scripts whoever reads them: these functions do nothing.

ghost use Rattle.std.specs.Prelude.{◌≡◌, ◌<◌, ◌^◌, ℕ, List, true};
ghost use Rattle.mj_schema.specs.declared.schema.Schema.{Schema};
ghost use Rattle.call_script.specs.declared.script.Script.{Script};
ghost use Rattle.call_script.specs.declared.script_error.LineRefusal.{LineRefusal};
ghost use Rattle.script_words.specs.Letters.{is_name, own_word};
ghost use Rattle.call_script.specs.Same.{SameScript};
ghost use Rattle.call_script.specs.Script.{IsScriptOf, IsFirstRefusal};

/// A law: what is a script has no refusal.
pub fn scripts_are_not_refused()
    ensures { (schema : Schema) (bytes : List ℕ) (script : Script) (line : ℕ) (why : LineRefusal)
        → IsScriptOf schema bytes script → IsFirstRefusal schema bytes line why → ⊥ }
{}

/// A law: there is one first refusal, of one line and for one reason.
pub fn one_refusal()
    ensures { (schema : Schema) (bytes : List ℕ) (line line' : ℕ) (why why' : LineRefusal)
        → IsFirstRefusal schema bytes line why → IsFirstRefusal schema bytes line' why' → (line ≡ line') × (why ≡ why') }
{}

/// A law: bytes are at most one script of a schema, wherever its values lie in memory.
pub fn one_script()
    ensures { (schema : Schema) (bytes : List ℕ) (one other : Script)
        → IsScriptOf schema bytes one → IsScriptOf schema bytes other → SameScript one other }
{}

/// A law: a name of a sequence's own is none of a join's, and none of another sequence's.
pub fn own_names_are_apart()
    ensures joins { (seq : ℕ) (name other : List ℕ) → is_name other ≡ true → own_word seq name ≡ other → ⊥ }
    ensures sequences { (seq seq' : ℕ) (name name' : List ℕ) → seq < 2 ^ 64 → seq' < 2 ^ 64
        → own_word seq name ≡ own_word seq' name' → (seq ≡ seq') × (name ≡ name') }
{}
