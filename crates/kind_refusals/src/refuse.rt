//! Refusals of identifiers, and the first of them.

ghost use Rattle.std.specs.Prelude.{◌≡◌, OnOk};
ghost use Rattle.mojom_files.specs.Causes.{named};
ghost use Rattle.mojom_files.specs.Refusals.{best_of, where_true};
ghost use Rattle.kind_scope.specs.Scopes.{refused};
ghost use Rattle.kind_scope.specs.Views.{scope_view};

use kind_scope::ScopeView;
use mj_base::Text;
use mojom_ast::Identifier;
use mojom_files::{Cause, NamedCause, Refusal, keep};
use std::alloc::{AllocError, Global};

/// Notes the refusal of an identifier where the test says so, and keeps the one that comes first.
pub fn refuse(
    alloc: Global,
    best: &mut Option<Refusal>,
    test: bool,
    scope: &ScopeView<'_>,
    name: &Identifier,
    cause: NamedCause,
) -> Result<(), AllocError>
    ensures { OnOk result (best.new ≡ best_of best.old (where_true test (refused (scope_view scope.now) name.now (named cause name.now.text)))) }
{
    if test {
        let text = Text::from_str(alloc, name.text.as_str())?;
        let next = Refusal {
            file: scope.place.file(),
            at: name.span.start,
            cause: Cause::named(cause, text),
        };
        keep(best, next);
    }
    Ok(())
}
