//! Lists of things in which none stands twice.

ghost use Rattle.std.specs.Prelude.{◌≡◌, ◌↔◌, IfOk, IsTrue};
ghost use Rattle.std.specs.List.{IsDistinct};
ghost use Rattle.handle_table.specs.Things.{is_distinct};
ghost use Rattle.core_state.specs.steps.Tokens.{tokens_of};
ghost use Rattle.bind_model.specs.Ready.{ends_of};

use handle_table::{Thing, TokenId};
use mj_base::EndId;
use std::alloc::{AllocError, Global};

/// The ends and the tokens among things, each in their order.
fn part(alloc: Global, things: &[Thing]) -> Result<(Vec<EndId>, Vec<TokenId>), AllocError>
    ensures ends { IfOk result (λ parts. parts.0.items ≡ ends_of things.now) }
    ensures tokens { IfOk result (λ parts. parts.1.items ≡ tokens_of things.now) }
{
    let mut ends = Vec::new(alloc);
    let mut tokens = Vec::new(alloc);
    for thing in things {
        match *thing {
            Thing::End(end) => ends.push(end)?,
            Thing::Token(token) => tokens.push(token)?,
        }
    }
    Ok((ends, tokens))
}

/// Whether no item stands twice: in order, equal ones stand side by side.
pub fn all_differ<T: Ord + Copy>(mut items: Vec<T>) -> bool
    ensures { IsTrue result ↔ IsDistinct T.eq items.items }
{
    items.sort_unstable();
    items.is_sorted_by(|before, item| before < item)
}

/// Whether no thing stands twice. It takes time for sorting them, since a caller may send thousands.
pub fn is_distinct(alloc: Global, things: &[Thing]) -> Result<bool, AllocError>
    ensures { IfOk result (λ distinct. distinct ≡ is_distinct things.now) }
{
    let (ends, tokens) = part(alloc, things)?;
    Ok(all_differ(ends) && all_differ(tokens))
}
