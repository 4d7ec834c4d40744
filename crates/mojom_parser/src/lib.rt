//! The parser of Mojom files: from tokens to the tree that they spell.
#![tactic(auto)]

ghost use Rattle.std.specs.Prelude.{◌↔◌, List, Ok};
ghost use Rattle.mj_base.specs.declared.limits.TheConstants.{MAX_NESTED_TYPES};
ghost use Rattle.mojom_ast.specs.declared.file.File.{File};
ghost use Rattle.mojom_ast.specs.declared.token.Token.{Token};
ghost use Rattle.mojom_ast.specs.Parsed.{SpellsWithin};
ghost use Rattle.mojom_parser.specs.Parsed.{IsAnswer, OneAnswer};

mod attributes;
mod constants;
mod error;
mod file;
mod interfaces;
mod lists;
mod parser;
mod structs;
mod tokens;
mod types;
mod values;

pub use error::ParseError;
pub use parser::parse;

/// A law: each list of tokens has one answer and no other, the tree that it spells or a refusal.
pub fn one_answer()
    ensures { (tokens : List Token) → OneAnswer tokens }
{}

/// A law: a tree is the answer to tokens exactly where they are a file of it with at most 32 types
/// round one another.
#[tactic(auto, using(crate::proofs::Bounds::bounded_nesting))]
pub fn bounded_nesting()
    ensures { (tokens : List Token) (tree : File) → SpellsWithin MAX_NESTED_TYPES tree tokens ↔ IsAnswer tokens (Ok tree) }
{}
