//! Attributes that stand before a definition or a member.

ghost use Rattle.std.specs.Prelude.{◌≡◌};
ghost use Rattle.kind_scope.specs.Attributes.{has_attribute, is_default};

use mojom_ast::{Attribute, Enumerator};

/// Whether an attribute of this name stands among these, whatever its value.
pub fn has_attribute(name: &str, attributes: &[Attribute]) -> bool
    ensures { result ≡ has_attribute name.now attributes.now }
{
    for attribute in attributes {
        if attribute.name.text.as_str() == name {
            return true;
        }
    }
    false
}

/// Whether an enumerator is the default.
pub fn is_default(enumerator: &Enumerator) -> bool
    ensures { result ≡ is_default enumerator.now }
{
    has_attribute("Default", enumerator.attributes.as_slice())
}
