//! Laws that lead from files to a schema: there is an answer to them, and the tables of files of which
//! nothing is refused are whole.
#![tactic(auto)]

ghost use Rattle.std.specs.Prelude.{◌≡◌, ℕ, List};
ghost use Rattle.mojom_files.specs.declared.named_file.NamedFile.{NamedFile};
ghost use Rattle.module_resolver.specs.declared.file_names.Names.{Names};
ghost use Rattle.const_eval.specs.declared.consts.Consts.{Consts};
ghost use Rattle.mj_schema.specs.declared.rows.DraftStruct.{DraftStruct};
ghost use Rattle.mj_schema.specs.declared.rows.StructRow.{StructRow};
ghost use Rattle.mj_schema.specs.Layout as layout;
ghost use Rattle.mj_schema.specs.Layout.{IsLaidOut};
ghost use Rattle.draft_rows.specs.Drafts.{draft_of};
ghost use Rattle.schema_laws.specs.Passed.{IsPassed};
ghost use Rattle.schema_laws.specs.Refused.{HasAnswer};
ghost use Rattle.schema_laws.specs.Whole.{CanBeLaidOut, IsWhole};
ghost use Rattle.schema_laws.specs.Kept.{HasAll, all_definitions};

/// Files pass all stages, or one of the stages refuses them: this is a law and does nothing.
pub fn some_answer()
    ensures { (files : List NamedFile) → HasAnswer files }
{}

/// Where no stage refuses anything of files, their tables are well formed, and each of their structs
/// can be laid out: this is a law and does nothing.
pub fn whole_draft()
    ensures { (files : List NamedFile) (order : List ℕ) (names : Names) (consts : Consts) → IsPassed files order names consts
        → IsWhole (draft_of names.files consts files order) }
{}

/// Where no stage refuses anything of files, their tables have all fields, parameters and constants:
/// this is a law and does nothing.
pub fn nothing_lost()
    ensures { (files : List NamedFile) (order : List ℕ) (names : Names) (consts : Consts) → IsPassed files order names consts
        → HasAll (all_definitions files order) (draft_of names.files consts files order) }
{}

/// A struct that can be laid out has a layout: this is a law and does nothing.
pub fn some_layout()
    ensures { (draft : DraftStruct) → CanBeLaidOut draft → (row : StructRow) × IsLaidOut row × (layout.draft_of row ≡ draft) }
{}
