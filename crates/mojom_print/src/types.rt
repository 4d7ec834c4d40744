//! Types.

ghost use Rattle.std.specs.Prelude.{◌≡◌, ◌++◌, OnOk};
ghost use Rattle.mojom_ast.specs.TypeTrees.{base_view, type_view};
ghost use Rattle.mojom_print.specs.Types.{count_text, handle_sort_text, sort_given_text, pending_sort_text, base_text, type_text, declared_text};

use crate::words::{push_name, push_number, push_text};
use mojom_ast::{BaseNode, HandleSort, Identifier, Number, PendingSort, Type, TypeNode};
use std::alloc::AllocError;

/// Writes a type.
fn push_type(out: &mut Vec<u8>, kind: &Type) -> Result<(), AllocError>
    ensures { OnOk result (out.new.items ≡ out.old.items ++ type_text kind.now) }
{
    push_node(out, kind.node())
}

/// Writes a type and a name.
pub fn push_declared(out: &mut Vec<u8>, kind: &Type, name: &Identifier) -> Result<(), AllocError>
    ensures { OnOk result (out.new.items ≡ out.old.items ++ declared_text kind.now name.now) }
{
    push_type(out, kind)?;
    push_text(out, " ")?;
    push_text(out, name.text.as_str())
}

/// Writes a type.
#[cycle(nodes)]
fn push_node(out: &mut Vec<u8>, node: &TypeNode) -> Result<(), AllocError>
    ensures { OnOk result (out.new.items ≡ out.old.items ++ type_text (type_view node.now)) }
{
    push_base(out, &node.base)?;
    if node.nullable {
        push_text(out, "?")?;
    }
    Ok(())
}

/// Writes a type without its `?`.
#[cycle(nodes)]
fn push_base(out: &mut Vec<u8>, base: &BaseNode) -> Result<(), AllocError>
    ensures { OnOk result (out.new.items ≡ out.old.items ++ base_text (base_view base.now)) }
{
    match base {
        BaseNode::Name(name) => push_name(out, name),
        BaseNode::Array { of, count } => {
            push_text(out, "array<")?;
            push_node(out, of)?;
            push_count(out, *count)?;
            push_text(out, ">")
        }
        BaseNode::Map { key, value } => {
            push_text(out, "map<")?;
            push_node(out, key)?;
            push_text(out, ", ")?;
            push_node(out, value)?;
            push_text(out, ">")
        }
        BaseNode::Handle(sort) => {
            push_text(out, "handle")?;
            push_sort_given(out, *sort)
        }
        BaseNode::Pending { sort, interface } => {
            push_text(out, pending_sort_text(*sort))?;
            push_text(out, "<")?;
            push_name(out, interface)?;
            push_text(out, ">")
        }
    }
}

/// Writes the length of an array, where it has one.
fn push_count(out: &mut Vec<u8>, count: Option<Number>) -> Result<(), AllocError>
    ensures { OnOk result (out.new.items ≡ out.old.items ++ count_text count) }
{
    if let Some(number) = count {
        push_text(out, ", ")?;
        push_number(out, number.value)?;
    }
    Ok(())
}

/// Writes the sort of a handle, where it has one.
fn push_sort_given(out: &mut Vec<u8>, sort: Option<HandleSort>) -> Result<(), AllocError>
    ensures { OnOk result (out.new.items ≡ out.old.items ++ sort_given_text sort) }
{
    if let Some(sort) = sort {
        push_text(out, "<")?;
        push_text(out, handle_sort_text(sort))?;
        push_text(out, ">")?;
    }
    Ok(())
}

/// The word for what a handle stands for.
fn handle_sort_text(sort: HandleSort) -> &'static str
    ensures { result.now ≡ handle_sort_text sort }
{
    match sort {
        HandleSort::MessagePipe => "message_pipe",
        HandleSort::DataPipeConsumer => "data_pipe_consumer",
        HandleSort::DataPipeProducer => "data_pipe_producer",
        HandleSort::SharedBuffer => "shared_buffer",
        HandleSort::Platform => "platform",
    }
}

/// The word for an end of an interface.
fn pending_sort_text(sort: PendingSort) -> &'static str
    ensures { result.now ≡ pending_sort_text sort }
{
    match sort {
        PendingSort::Remote => "pending_remote",
        PendingSort::Receiver => "pending_receiver",
        PendingSort::AssociatedRemote => "pending_associated_remote",
        PendingSort::AssociatedReceiver => "pending_associated_receiver",
    }
}
