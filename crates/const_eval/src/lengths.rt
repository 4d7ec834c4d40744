//! The lengths of arrays.

ghost use Rattle.std.specs.Prelude.{◌≡◌};
ghost use Rattle.mojom_ast.specs.TypeTrees.{base_view};
ghost use Rattle.mojom_files.specs.Refusals.{best_of};
ghost use Rattle.const_eval.specs.Refused.{refused_length, refused_lengths};

use crate::kinds::check_uint32;
use mojom_ast::{BaseNode, Number, Type};
use mojom_files::Refusal;

/// Tests a length, where there is one.
fn check_length(best: &mut Option<Refusal>, file: u32, count: Option<Number>)
    ensures { best.new ≡ best_of best.old (refused_length file count) }
{
    if let Some(count) = count {
        check_uint32(best, file, count.span.start, count.value as u128);
    }
}

/// Tests the lengths in a type without `?`, at any depth.
#[cycle(lengths)]
fn check_base(best: &mut Option<Refusal>, file: u32, base: &BaseNode)
    ensures { best.new ≡ best_of best.old (refused_lengths file (base_view base.now)) }
{
    match base {
        BaseNode::Array { of, count } => {
            check_length(best, file, *count);
            check_base(best, file, &of.base);
        }
        BaseNode::Map { key, value } => {
            check_base(best, file, &key.base);
            check_base(best, file, &value.base);
        }
        BaseNode::Name(_) | BaseNode::Handle(_) | BaseNode::Pending { .. } => {}
    }
}

/// Tests the lengths in a type, at any depth.
pub fn check_lengths(best: &mut Option<Refusal>, file: u32, kind: &Type)
    ensures { best.new ≡ best_of best.old (refused_lengths file kind.now.base) }
{
    check_base(best, file, &kind.node().base);
}
