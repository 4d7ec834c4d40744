//! Attributes.

ghost use Rattle.std.specs.Prelude.{◌≡◌, ◌++◌, codes, OnOk};
ghost use Rattle.std.specs.List.{join_by};
ghost use Rattle.mojom_print.specs.Attributes.{attribute_text, bracketed_text, attribute_line, attributes_before};

use crate::words::{push_indent, push_text, push_value};
use mojom_ast::Attribute;
use std::alloc::AllocError;

/// Writes an attribute.
fn push_attribute(out: &mut Vec<u8>, attribute: &Attribute) -> Result<(), AllocError>
    ensures { OnOk result (out.new.items ≡ out.old.items ++ attribute_text attribute.now) }
{
    push_text(out, attribute.name.text.as_str())?;
    if let Some(value) = &attribute.value {
        push_text(out, "=")?;
        push_value(out, value)?;
    }
    Ok(())
}

/// Writes attributes, with commas between them.
fn push_attributes(out: &mut Vec<u8>, attributes: &[Attribute]) -> Result<(), AllocError>
    ensures { OnOk result (out.new.items ≡ out.old.items ++ join_by attribute_text (codes ", ") attributes.now) }
{
    if let [first, rest @ ..] = attributes {
        push_attribute(out, first)?;
        for attribute in rest {
            push_text(out, ", ")?;
            push_attribute(out, attribute)?;
        }
    }
    Ok(())
}

/// Writes attributes in brackets.
#[tactic(auto, unfolding(crate::specs::Attributes::bracketed_text))]
fn push_bracketed(out: &mut Vec<u8>, attributes: &[Attribute]) -> Result<(), AllocError>
    ensures { OnOk result (out.new.items ≡ out.old.items ++ bracketed_text attributes.now) }
{
    push_text(out, "[")?;
    push_attributes(out, attributes)?;
    push_text(out, "]")
}

/// Writes attributes on a line of their own; none have no line.
pub fn push_attribute_line(
    out: &mut Vec<u8>,
    depth: usize,
    attributes: &[Attribute],
) -> Result<(), AllocError>
    ensures { OnOk result (out.new.items ≡ out.old.items ++ attribute_line depth attributes.now) }
{
    if attributes.is_empty() {
        return Ok(());
    }
    push_indent(out, depth)?;
    push_bracketed(out, attributes)?;
    push_text(out, "\n")
}

/// Writes attributes before a parameter, and then a blank.
pub fn push_attributes_before(out: &mut Vec<u8>, attributes: &[Attribute]) -> Result<(), AllocError>
    ensures { OnOk result (out.new.items ≡ out.old.items ++ attributes_before attributes.now) }
{
    if attributes.is_empty() {
        return Ok(());
    }
    push_bracketed(out, attributes)?;
    push_text(out, " ")
}
