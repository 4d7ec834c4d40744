//! The laws of the grammar: what reading by it says of the tokens, and what it finds.
#![tactic(auto)]

ghost use Rattle.std.specs.Prelude.{◌≡◌, List};
ghost use Rattle.mojom_ast.specs.declared.token.Token.{Token};
ghost use Rattle.mojom_ast.specs.declared.file.File.{File};
ghost use Rattle.mojom_ast.specs.Parsed.{Spells};

/// A law: a list of tokens spells at most one tree, however deep its types nest.
pub fn one_tree()
    ensures { (tokens : List Token) (one other : File) → Spells one tokens → Spells other tokens → one ≡ other }
{}
