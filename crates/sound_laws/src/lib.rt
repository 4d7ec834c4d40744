//! Laws that lead from files to what a schema keeps by its type: of files of which no stage refuses
//! anything.
#![tactic(auto)]

ghost use Rattle.std.specs.Prelude.{ℕ, List};
ghost use Rattle.std.specs.List.{AllByRecursion};
ghost use Rattle.mojom_files.specs.declared.named_file.NamedFile.{NamedFile};
ghost use Rattle.module_resolver.specs.declared.file_names.Names.{Names};
ghost use Rattle.const_eval.specs.declared.consts.Consts.{Consts};
ghost use Rattle.schema_laws.specs.Passed.{IsPassed};
ghost use Rattle.draft_rows.specs.Drafts.{draft_of};
ghost use Rattle.sound_laws.specs.Sound.{IsSound, HasTexts};
ghost use Rattle.sound_laws.specs.Strings.{FileText};

/// Where no stage refuses anything of files, each literal in their tables is of its kind, the names of
/// the members of a definition differ, fields of later versions can be absent, no list has more than
/// 4,096 members, and the order of definitions has each row once: this is a law and does nothing.
pub fn sound_draft()
    ensures { (files : List NamedFile) (order : List ℕ) (names : Names) (consts : Consts) → IsPassed files order names consts
        → IsSound (draft_of names.files consts files order) }
{}

/// Where no stage refuses anything of files, and the strings in them are UTF-8, so are the texts in their
/// tables: this is a law and does nothing.
pub fn sound_texts()
    ensures { (files : List NamedFile) (order : List ℕ) (names : Names) (consts : Consts) → IsPassed files order names consts
        → AllByRecursion FileText files → HasTexts (draft_of names.files consts files order) }
{}
