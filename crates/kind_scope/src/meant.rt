//! What a type's name means.

use module_resolver::Target;
use mojom_files::Basic;

/// What a type's name means: a basic kind, or what is found under it.
#[derive(Clone, Copy)]
pub enum Meant {
    Basic(Basic),
    Target(Target),
}
