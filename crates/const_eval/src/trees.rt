//! What is read of trees.

ghost use Rattle.std.specs.Prelude.{◌≡◌};
ghost use Rattle.mojom_ast.specs.TypeTrees.{base_view};
ghost use Rattle.mojom_files.specs.Definitions.{enumerators_of};
ghost use Rattle.const_eval.specs.Kinds.{basic_of_parts, basic_of_base};

use mojom_ast::{BaseNode, Enumerator, Identifier};
use mojom_files::{Basic, DefinitionView, ItemView};

/// The enumerators of a definition: none of what is no enum.
pub fn enumerators_of<'a>(definition: &DefinitionView<'a>) -> &'a [Enumerator]
    ensures { result.now ≡ enumerators_of definition.now.item }
{
    match definition.item() {
        ItemView::Enum(item) => item.enumerators.as_slice(),
        _ => &[],
    }
}

/// The basic kind of a name; none exactly where it is the name of none.
fn basic_of_parts(parts: &[Identifier]) -> Option<Basic>
    ensures { result ≡ basic_of_parts parts.now }
{
    match parts {
        [part] => Basic::of_name(part.text.as_str()),
        _ => None,
    }
}

/// The basic kind of a type without `?`; none exactly where it is none.
pub fn basic_of_base(base: &BaseNode) -> Option<Basic>
    ensures { result ≡ basic_of_base (base_view base.now) }
{
    match base {
        BaseNode::Name(name) => basic_of_parts(name.parts.as_slice()),
        _ => None,
    }
}
