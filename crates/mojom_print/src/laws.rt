//! What holds of every printed text. Each law is proved of all trees at once, so its function does
//! nothing.

ghost use Rattle.std.specs.Prelude.{◌≡◌, ℕ, List, Ok};
ghost use Rattle.mojom_ast.specs.declared.token.Token.{Token};
ghost use Rattle.mojom_ast.specs.declared.file.File.{File};
ghost use Rattle.mojom_ast.specs.Parsed.{SpellsWithin};
ghost use Rattle.mojom_lexer.specs.Lexed.{AreTokens};
ghost use Rattle.mojom_parser.specs.Parsed.{IsAnswer};
ghost use Rattle.mojom_print.specs.FileText.{file_text};
ghost use Rattle.mojom_print.specs.Unplaced.{unplaced};
ghost use Rattle.mojom_print.specs.Again.{SpelledAgain, TakenAgain};

/// The text of each tree that the tokens of a file spell has tokens, and they spell the tree again,
/// but for the places that it keeps; its types nest no deeper.
#[tactic(auto, using(crate::proofs::Reprints::spelled_again))]
pub fn spelled_again()
    ensures { (bytes : List ℕ) (tokens : List Token) (tree : File) (n : ℕ) → AreTokens bytes tokens → SpellsWithin n tree tokens
        → SpelledAgain n tree }
{}

/// Trees that differ in places alone have one text: what a printed text spells again is printed as
/// that very text.
#[tactic(auto, using(crate::proofs::Placeless::same_text))]
pub fn same_text()
    ensures { (tree other : File) → unplaced other ≡ unplaced tree → file_text other ≡ file_text tree }
{}

/// The text of each tree that a file has is taken: it has tokens, a tree is the answer to them, no
/// type of it inside 32 others, and that tree is the same but for places and has the same text.
#[tactic(auto, using(crate::proofs::Taken::taken_again))]
pub fn taken_again()
    ensures { (bytes : List ℕ) (tokens : List Token) (tree : File) → AreTokens bytes tokens → IsAnswer tokens (Ok tree)
        → TakenAgain tree }
{}
