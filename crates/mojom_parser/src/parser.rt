//! A file, all of its tokens.

ghost use Rattle.std.specs.Prelude.{◌≡◌, ℕ, ◌+◌, ◌-◌, ◌<◌, ◌≤◌, length, take, IfOk, IfErr};
ghost use Rattle.mojom_ast.specs.declared.file.File.{File};
ghost use Rattle.mojom_ast.specs.Parsed.{Spells, Begins, EndsTooDeep};
ghost use Rattle.grammar_laws.specs.steps.Factored.{factored};
ghost use Rattle.mojom_parser.specs.Parsed.{Answers, AnswersAt, AnswersDeep, Blames};
ghost use Rattle.mojom_parser.specs.steps.Verdict.{verdict, Agrees};

use crate::error::{ParseError, ReadError};
use crate::file::file;
use mj_base::limits::MAX_NESTED_TYPES;
use mojom_ast::{Fault, File, Token};
use std::alloc::Global;

/// The number of the token that stands where so many are left.
fn place(tokens: &[Token], left: usize) -> u64
    requires { left ≤ length tokens.now }
    ensures { result ≡ length tokens.now - left }
{
    (tokens.len() - left) as u64
}

/// What the reading of a file says of all the tokens.
fn judge(alloc: Global, tokens: &[Token]) -> Result<File, ParseError>
    ensures { Agrees result (verdict (length tokens.now) ((factored MAX_NESTED_TYPES).read tokens.now)) }
{
    match file(alloc, tokens) {
        Ok((tree, rest)) => {
            if rest.is_empty() {
                Ok(tree)
            } else {
                Err(ParseError::Unexpected(place(tokens, rest.len())))
            }
        }
        Err(ReadError::Fault(Fault::Unexpected(left))) => {
            Err(ParseError::Unexpected(place(tokens, left)))
        }
        Err(ReadError::Fault(Fault::TooNested(left))) => Err(ParseError::TooNested(place(
            tokens, left,
        ))),
        Err(ReadError::Memory) => Err(ParseError::Memory),
    }
}

/// The file that the tokens spell, or the first place where they stop to be one.
///
/// # Errors
///
/// `Unexpected` at the first token with which no beginning of a file goes on, or at the end, as
/// the number of the tokens, where the tokens are the beginning of a file and no file. `TooNested`
/// at the first token of a type that stands inside 32 others, where that comes first. `Memory`
/// where memory runs out.
pub fn parse(alloc: Global, tokens: &[Token]) -> Result<File, ParseError>
    // What is read is spelled.
    ensures ok { IfOk result (λ f. Spells f tokens.now) }
    // What is spelled is read, unless memory runs out or types nest too deep; so nothing else is spelled.
    ensures only { (tree : File) → Spells tree tokens.now → Answers tree result }
    // A refusal has its cause.
    ensures fault { IfErr result (λ e. Blames e tokens.now) }
    // Where no beginning goes on, that is the refusal, unless types nest too deep before.
    ensures exact { (at : ℕ) → at < length tokens.now → Begins (take at tokens.now) → (Begins (take (at + 1) tokens.now) → ⊥) → AnswersAt at result }
    // A beginning that is no file is refused at its end, unless types nest too deep.
    ensures end { Begins tokens.now → ((tree : File) → Spells tree tokens.now → ⊥) → AnswersAt (length tokens.now) result }
    // Types that nest too deep are refused, there.
    ensures deep { (at : ℕ) → at < length tokens.now → EndsTooDeep (take (at + 1) tokens.now) → AnswersDeep at result }
{
    judge(alloc, tokens)
}
