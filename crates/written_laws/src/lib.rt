//! Laws that tie the tables of files to what is written in them: of files of which no stage refuses anything,
//! by the trees of the files alone.
#![tactic(auto)]

ghost use Rattle.std.specs.Prelude.{ℕ, List};
ghost use Rattle.mojom_files.specs.declared.named_file.NamedFile.{NamedFile};
ghost use Rattle.module_resolver.specs.declared.file_names.Names.{Names};
ghost use Rattle.const_eval.specs.declared.consts.Consts.{Consts};
ghost use Rattle.schema_laws.specs.Passed.{IsPassed};
ghost use Rattle.written_laws.specs.Entries.{OfEach};
ghost use Rattle.written_laws.specs.Rows.{all_placed, AreAsWritten};
ghost use Rattle.draft_rows.specs.RowCounts.{rows_of};
ghost use Rattle.draft_rows.specs.Drafts.{draft_of};
ghost use Rattle.written_laws.specs.Enums.{AreEnums};
ghost use Rattle.written_laws.specs.Methods.{AllHaveStructs};
ghost use Rattle.written_laws.specs.RowNames.{HaveOwnRows};
ghost use Rattle.written_laws.specs.Ordinals.{HasOrdinals};
ghost use Rattle.written_laws.specs.Lists.{HasNames};
ghost use Rattle.written_laws.specs.Literals.{AreConstants};
ghost use Rattle.written_laws.specs.Listed.{AreListed};

/// Where no stage refuses anything of files, the ordinals of each struct of n fields and of each list of n
/// parameters are 0 to n - 1, each once, and no tag and no ordinal of a method stands twice: this is a law
/// and does nothing.
pub fn ordinals_are_whole()
    ensures { (files : List NamedFile) (order : List ℕ) (names : Names) (consts : Consts) → IsPassed files order names consts
        → OfEach files HasOrdinals }
{}

/// Where no stage refuses anything of files, their structs, unions and interfaces have the rows that are
/// written: each field at its ordinal, and each ordinal, tag, version and length the very number that is
/// written or meant, or the one after that of the member before. A kind is the one that its name gives, and
/// may be null exactly where `?` stands; each field of a later version is plain or may be null. A union is
/// extensible, a struct, a union or an interface stable, and a method has a response, where it is written so;
/// the version of an interface is the greatest that is written before its methods and their parameters. There is a default exactly where one is
/// written, and it is the very value that is written or meant: that of a bool, an integer or a text fits,
/// that of an enum is one of its enumerators, and a bool, an integer or an enum that may be null has none.
/// This is a law and does nothing.
pub fn numbers_are_as_written()
    ensures { (files : List NamedFile) (order : List ℕ) (names : Names) (consts : Consts) → IsPassed files order names consts
        → AreAsWritten (rows_of files order) names.files consts (all_placed files order) (draft_of names.files consts files order) }
{}

/// Where no stage refuses anything of files, their enums have the rows that are written: each number is
/// the very one that is written or meant, or the one after that of the enumerator before, and the first
/// is else 0; the default is the first enumerator with `[Default]`, and an enum is extensible and stable where
/// it is written so: this is a law and does nothing.
pub fn enumerators_are_as_written()
    ensures { (files : List NamedFile) (order : List ℕ) (names : Names) (consts : Consts) → IsPassed files order names consts
        → AreEnums names.files consts (all_placed files order) (draft_of names.files consts files order) }
{}

/// Where no stage refuses anything of files, their constants have the rows that are written: each value is
/// the very one that is written or meant, and fits its kind: a bool, a number of so many bits, or a text.
/// This is a law and does nothing.
pub fn literals_fit()
    ensures { (files : List NamedFile) (order : List ℕ) (names : Names) (consts : Consts) → IsPassed files order names consts
        → AreConstants (rows_of files order) names.files consts (all_placed files order) (draft_of names.files consts files order) }
{}

/// The numbers that the methods of files have in their tables are those of their structs: the one of its
/// parameters, and the one of its response, where it has one. This is a law and does nothing.
pub fn methods_have_structs()
    ensures { (files : List NamedFile) (order : List ℕ) (names : Names) (consts : Consts)
        → AllHaveStructs (draft_of names.files consts files order) }
{}

/// Each struct, union, enum and interface of files has its row, by its full name, at the number by which
/// kinds name it: this is a law and does nothing.
pub fn definitions_have_rows()
    ensures { (files : List NamedFile) (order : List ℕ) (names : Names) (consts : Consts)
        → HaveOwnRows files (rows_of files order) (draft_of names.files consts files order) }
{}

/// Where no stage refuses anything of files, no list of theirs (of fields, parameters, enumerators or
/// methods) has more than 4,096 members, and no name stands twice in it: this is a law and does nothing.
pub fn names_differ()
    ensures { (files : List NamedFile) (order : List ℕ) (names : Names) (consts : Consts) → IsPassed files order names consts
        → OfEach files HasNames }
{}

/// Where no stage refuses anything of files, their listing has each row of each table once, those of a
/// table by their numbers: this is a law and does nothing.
pub fn listed_once()
    ensures { (files : List NamedFile) (order : List ℕ) (names : Names) (consts : Consts) → IsPassed files order names consts
        → AreListed (draft_of names.files consts files order) }
{}
