//! Interfaces.

ghost use Rattle.std.specs.Prelude.{◌≡◌, ◌++◌, codes, OnOk};
ghost use Rattle.std.specs.List.{flat_map, join_by};
ghost use Rattle.mojom_print.specs.Interfaces.{parameter_text, parameters_text, response_text, method_text, interface_member_text, interface_text};

use crate::attributes::{push_attribute_line, push_attributes_before};
use crate::definitions::{push_const, push_enum};
use crate::types::push_declared;
use crate::words::{push_ordinal, push_text};
use mj_base::Items;
use mojom_ast::{Interface, InterfaceItem, InterfaceMember, Method, Parameter};
use std::alloc::AllocError;

/// Writes a parameter.
#[tactic(auto, unfolding(crate::specs::Interfaces::parameter_text))]
fn push_parameter(out: &mut Vec<u8>, parameter: &Parameter) -> Result<(), AllocError>
    ensures { OnOk result (out.new.items ≡ out.old.items ++ parameter_text parameter.now) }
{
    push_attributes_before(out, parameter.attributes.as_slice())?;
    push_declared(out, &parameter.kind, &parameter.name)?;
    push_ordinal(out, parameter.ordinal)
}

/// Writes parameters, with commas between them.
fn push_parameter_list(out: &mut Vec<u8>, parameters: &[Parameter]) -> Result<(), AllocError>
    ensures { OnOk result (out.new.items ≡ out.old.items ++ join_by parameter_text (codes ", ") parameters.now) }
{
    if let [first, rest @ ..] = parameters {
        push_parameter(out, first)?;
        for parameter in rest {
            push_text(out, ", ")?;
            push_parameter(out, parameter)?;
        }
    }
    Ok(())
}

/// Writes parameters in parentheses.
#[tactic(auto, unfolding(crate::specs::Interfaces::parameters_text))]
fn push_parameters(out: &mut Vec<u8>, parameters: &[Parameter]) -> Result<(), AllocError>
    ensures { OnOk result (out.new.items ≡ out.old.items ++ parameters_text parameters.now) }
{
    push_text(out, "(")?;
    push_parameter_list(out, parameters)?;
    push_text(out, ")")
}

/// Writes the parameters of a response, where there is one.
fn push_response(out: &mut Vec<u8>, response: &Option<Items<Parameter>>) -> Result<(), AllocError>
    ensures { OnOk result (out.new.items ≡ out.old.items ++ response_text response.now) }
{
    if let Some(parameters) = response {
        push_text(out, " => ")?;
        push_parameters(out, parameters.as_slice())?;
    }
    Ok(())
}

/// Writes a method.
#[tactic(auto, unfolding(crate::specs::Interfaces::method_text))]
fn push_method(out: &mut Vec<u8>, method: &Method) -> Result<(), AllocError>
    ensures { OnOk result (out.new.items ≡ out.old.items ++ method_text method.now) }
{
    push_text(out, "  ")?;
    push_text(out, method.name.text.as_str())?;
    push_ordinal(out, method.ordinal)?;
    push_parameters(out, method.request.as_slice())?;
    push_response(out, &method.response)?;
    push_text(out, ";\n")
}

/// Writes a member of an interface, behind its attributes.
fn push_interface_member(out: &mut Vec<u8>, member: &InterfaceMember) -> Result<(), AllocError>
    ensures { OnOk result (out.new.items ≡ out.old.items ++ interface_member_text member.now) }
{
    push_attribute_line(out, 1, member.attributes.as_slice())?;
    match &member.item {
        InterfaceItem::Const(item) => push_const(out, 1, item),
        InterfaceItem::Enum(item) => push_enum(out, 1, item),
        InterfaceItem::Method(method) => push_method(out, method),
    }
}

/// Writes the members of an interface.
fn push_interface_members(out: &mut Vec<u8>, members: &[InterfaceMember]) -> Result<(), AllocError>
    ensures { OnOk result (out.new.items ≡ out.old.items ++ flat_map interface_member_text members.now) }
{
    for member in members {
        push_interface_member(out, member)?;
    }
    Ok(())
}

/// Writes an interface.
#[tactic(auto, unfolding(crate::specs::Interfaces::interface_text))]
pub fn push_interface(out: &mut Vec<u8>, item: &Interface) -> Result<(), AllocError>
    ensures { OnOk result (out.new.items ≡ out.old.items ++ interface_text item.now) }
{
    push_text(out, "interface ")?;
    push_text(out, item.name.text.as_str())?;
    push_text(out, " {\n")?;
    push_interface_members(out, item.members.as_slice())?;
    push_text(out, "};\n")
}
