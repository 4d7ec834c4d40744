//! Names: identifiers with dots between them.

ghost use Rattle.std.specs.Prelude.{◌≡◌, IfOk};
ghost use Rattle.mojom_files.specs.Names.{dotted};

use mj_base::Text;
use mojom_ast::Identifier;
use std::alloc::{AllocError, Global};

/// The text of a name: its identifiers with dots between them.
pub fn dotted(alloc: Global, parts: &[Identifier]) -> Result<Text, AllocError>
    ensures { IfOk result (λ name. name ≡ dotted parts.now) }
{
    let [first, rest @ ..] = parts else {
        return Ok(Text::from_string(String::new(alloc)));
    };
    let mut name = String::from_str(alloc, first.text.as_str())?;
    for part in rest {
        name.push_str(".")?;
        name.push_str(part.text.as_str())?;
    }
    Ok(Text::from_string(name))
}
