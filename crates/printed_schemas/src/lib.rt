//! That the schema of files can be printed: the names of its interfaces and methods are words that mean
//! just them, and its numbers have 32 bits.
#![tactic(auto)]

ghost use Rattle.std.specs.Prelude.{◌≡◌, List, ℕ};
ghost use Rattle.mj_schema.specs.declared.schema.Schema.{Schema};
ghost use Rattle.mojom_files.specs.declared.named_file.NamedFile.{NamedFile};
ghost use Rattle.module_resolver.specs.declared.file_names.Names.{Names};
ghost use Rattle.const_eval.specs.declared.consts.Consts.{Consts};
ghost use Rattle.draft_rows.specs.Drafts.{draft_of};
ghost use Rattle.schema_laws.specs.Passed.{IsPassed};
ghost use Rattle.line_parts.specs.Schemas.{IsPrintableSchema};
ghost use Rattle.printed_schemas.specs.Spelled.{AreSpelled};

/// Where tokens spell the trees of files and no stage refuses anything of them, a schema with the interfaces
/// of their tables can be printed: each interface has a word that means it, each method one that means its
/// messages, and ordinals and versions are numbers of 32 bits. This is a law and does nothing.
pub fn schemas_can_be_printed()
    ensures { (files : List NamedFile) (order : List ℕ) (names : Names) (consts : Consts) (schema : Schema)
        → AreSpelled files → IsPassed files order names consts → schema.interfaces ≡ (draft_of names.files consts files order).interfaces
        → IsPrintableSchema schema }
{}
