//! Full names as texts.

ghost use Rattle.std.specs.Prelude.{◌≡◌, ◌++◌, IfOk, OnOk};
ghost use Rattle.mj_base.specs.Names.{within, named_in};

use crate::shared_text::SharedText;
use crate::text::Text;
use std::alloc::{AllocError, Global};

/// The full name of what stands in another thing: the two names with a dot between them.
pub fn within(alloc: Global, outer: &str, inner: &str) -> Result<Text, AllocError>
    ensures { IfOk result (λ name. name ≡ within outer.now inner.now) }
{
    Ok(Text::from_string(format!(in alloc; "{outer}.{inner}")?))
}

/// The full name of what may stand in another thing.
pub(crate) fn named_in(
    alloc: Global,
    outer: &Option<SharedText>,
    name: &str,
) -> Result<Text, AllocError>
    ensures { IfOk result (λ full. full ≡ named_in outer.now name.now) }
{
    match outer {
        Some(outer) => within(alloc, outer.as_str(), name),
        None => Text::from_str(alloc, name),
    }
}

/// Adds a text at the end.
fn push_text(out: &mut Vec<u8>, text: &str) -> Result<(), AllocError>
    ensures { OnOk result (out.new.items ≡ out.old.items ++ text.now) }
{
    out.extend_from_slice(text.as_bytes())
}

/// Adds the full name of what stands in another thing.
fn push_within(out: &mut Vec<u8>, outer: &str, inner: &str) -> Result<(), AllocError>
    ensures { OnOk result (out.new.items ≡ out.old.items ++ within outer.now inner.now) }
{
    push_text(out, outer)?;
    push_text(out, ".")?;
    push_text(out, inner)
}

/// Adds the full name of what may stand in another thing.
pub(crate) fn push_named_in(
    out: &mut Vec<u8>,
    outer: &Option<SharedText>,
    name: &str,
) -> Result<(), AllocError>
    ensures { OnOk result (out.new.items ≡ out.old.items ++ named_in outer.now name.now) }
{
    match outer {
        Some(outer) => push_within(out, outer.as_str(), name),
        None => push_text(out, name),
    }
}

/// Adds the full name of what stands in a thing that may stand in another.
pub(crate) fn push_nested(
    out: &mut Vec<u8>,
    around: &Option<SharedText>,
    outer: &str,
    inner: &str,
) -> Result<(), AllocError>
    ensures { OnOk result (out.new.items ≡ out.old.items ++ within (named_in around.now outer.now) inner.now) }
{
    push_named_in(out, around, outer)?;
    push_text(out, ".")?;
    push_text(out, inner)
}
