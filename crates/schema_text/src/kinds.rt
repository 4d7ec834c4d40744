//! Kinds as types with full names.

ghost use Rattle.std.specs.Prelude.{◌≡◌, ◌++◌, codes, OnOk};
ghost use Rattle.mj_schema.specs.KindTrees.{kind_view};
ghost use Rattle.mojom_print.specs.Types.{nullable_text};
ghost use Rattle.schema_text.specs.KindTexts.{struct_name, union_name, enum_name, interface_name};
ghost use Rattle.schema_text.specs.KindTexts.{integer_text, handle_text, length_text, pending_text, end_text, kind_text};

use mj_schema::{HandleSort, Kind, KindNode, Schema, Width};
use mojom_print::{push_number, push_text};
use std::alloc::AllocError;

/// Writes a blank and a kind.
pub fn push_kind_word(out: &mut Vec<u8>, schema: &Schema, kind: &Kind) -> Result<(), AllocError>
    ensures { OnOk result (out.new.items ≡ out.old.items ++ (codes " " ++ kind_text schema.now kind.now)) }
{
    push_text(out, " ")?;
    push_node(out, schema, kind.node())
}

/// Writes a kind.
fn push_node(out: &mut Vec<u8>, schema: &Schema, node: &KindNode) -> Result<(), AllocError>
    ensures { OnOk result (out.new.items ≡ out.old.items ++ kind_text schema.now (kind_view node.now)) }
{
    match node {
        KindNode::Bool { nullable } => push_nullable(out, "bool", *nullable),
        KindNode::Int {
            width,
            signed,
            nullable,
        } => {
            push_integer(out, *width, *signed)?;
            push_mark(out, *nullable)
        }
        KindNode::Enum { number, nullable } => push_enum(out, schema, *number, *nullable),
        KindNode::Text { nullable } => push_nullable(out, "string", *nullable),
        KindNode::Handle { sort, nullable } => push_nullable(out, handle_text(*sort), *nullable),
        KindNode::Array {
            of,
            count,
            nullable,
        } => {
            push_text(out, "array<")?;
            push_node(out, schema, of)?;
            push_length(out, *count)?;
            push_nullable(out, ">", *nullable)
        }
        KindNode::Map {
            key,
            value,
            nullable,
        } => {
            push_text(out, "map<")?;
            push_node(out, schema, key)?;
            push_text(out, ", ")?;
            push_node(out, schema, value)?;
            push_nullable(out, ">", *nullable)
        }
        KindNode::Struct { number, nullable } => push_struct(out, schema, *number, *nullable),
        KindNode::Union { number, nullable } => push_union(out, schema, *number, *nullable),
        _ => push_end(out, schema, node),
    }
}

/// Writes an end of an interface; of each other kind nothing.
fn push_end(out: &mut Vec<u8>, schema: &Schema, node: &KindNode) -> Result<(), AllocError>
    ensures { OnOk result (out.new.items ≡ out.old.items ++ end_text schema.now (kind_view node.now)) }
{
    match node {
        KindNode::Remote {
            interface,
            nullable,
        } => push_pending(out, schema, "pending_remote", *interface, *nullable),
        KindNode::Receiver {
            interface,
            nullable,
        } => push_pending(out, schema, "pending_receiver", *interface, *nullable),
        KindNode::AssociatedRemote {
            interface,
            nullable,
        } => push_pending(
            out,
            schema,
            "pending_associated_remote",
            *interface,
            *nullable,
        ),
        KindNode::AssociatedReceiver {
            interface,
            nullable,
        } => push_pending(
            out,
            schema,
            "pending_associated_receiver",
            *interface,
            *nullable,
        ),
        _ => Ok(()),
    }
}

/// Writes a text, and `?` where it may be null.
fn push_nullable(out: &mut Vec<u8>, text: &str, nullable: bool) -> Result<(), AllocError>
    ensures { OnOk result (out.new.items ≡ out.old.items ++ (text.now ++ nullable_text nullable)) }
{
    push_text(out, text)?;
    push_mark(out, nullable)
}

/// Writes `?` where something may be null.
fn push_mark(out: &mut Vec<u8>, nullable: bool) -> Result<(), AllocError>
    ensures { OnOk result (out.new.items ≡ out.old.items ++ nullable_text nullable) }
{
    if nullable {
        push_text(out, "?")?;
    }
    Ok(())
}

/// Writes an end of this interface, by the word for the end.
#[tactic(auto, unfolding(crate::specs::KindTexts::pending_text))]
fn push_pending(
    out: &mut Vec<u8>,
    schema: &Schema,
    word: &str,
    interface: u32,
    nullable: bool,
) -> Result<(), AllocError>
    ensures { OnOk result (out.new.items ≡ out.old.items ++ pending_text schema.now word.now interface nullable) }
{
    push_text(out, word)?;
    push_text(out, "<")?;
    push_interface_name(out, schema, interface)?;
    push_nullable(out, ">", nullable)
}

/// Writes an integer of a width.
fn push_integer(out: &mut Vec<u8>, width: Width, signed: bool) -> Result<(), AllocError>
    ensures { OnOk result (out.new.items ≡ out.old.items ++ integer_text width signed) }
{
    push_text(out, if signed { "int" } else { "uint" })?;
    push_number(out, u64::from(width.bits()))
}

/// Writes the length of an array, where it has one.
fn push_length(out: &mut Vec<u8>, count: Option<u32>) -> Result<(), AllocError>
    ensures { OnOk result (out.new.items ≡ out.old.items ++ length_text count) }
{
    if let Some(count) = count {
        push_text(out, ", ")?;
        push_number(out, u64::from(count))?;
    }
    Ok(())
}

/// A handle, by what it stands for.
fn handle_text(sort: HandleSort) -> &'static str
    ensures { result.now ≡ handle_text sort }
{
    match sort {
        HandleSort::Any => "handle",
        HandleSort::MessagePipe => "handle<message_pipe>",
        HandleSort::DataPipeConsumer => "handle<data_pipe_consumer>",
        HandleSort::DataPipeProducer => "handle<data_pipe_producer>",
        HandleSort::SharedBuffer => "handle<shared_buffer>",
        HandleSort::Platform => "handle<platform>",
    }
}

/// Writes the full name of the struct of this number; nothing where there is none.
fn push_struct_name(out: &mut Vec<u8>, schema: &Schema, number: u32) -> Result<(), AllocError>
    ensures { OnOk result (out.new.items ≡ out.old.items ++ struct_name schema.now number) }
{
    match schema.structs.as_slice().get(number as usize) {
        Some(row) => row.name.push_to(out),
        None => Ok(()),
    }
}

/// Writes the full name of the union of this number.
fn push_union_name(out: &mut Vec<u8>, schema: &Schema, number: u32) -> Result<(), AllocError>
    ensures { OnOk result (out.new.items ≡ out.old.items ++ union_name schema.now number) }
{
    match schema.unions.as_slice().get(number as usize) {
        Some(row) => row.name.push_to(out),
        None => Ok(()),
    }
}

/// Writes the full name of the enum of this number.
fn push_enum_name(out: &mut Vec<u8>, schema: &Schema, number: u32) -> Result<(), AllocError>
    ensures { OnOk result (out.new.items ≡ out.old.items ++ enum_name schema.now number) }
{
    match schema.enums.as_slice().get(number as usize) {
        Some(row) => row.name.push_to(out),
        None => Ok(()),
    }
}

/// Writes the full name of the interface of this number.
fn push_interface_name(out: &mut Vec<u8>, schema: &Schema, number: u32) -> Result<(), AllocError>
    ensures { OnOk result (out.new.items ≡ out.old.items ++ interface_name schema.now number) }
{
    match schema.interfaces.as_slice().get(number as usize) {
        Some(row) => row.name.push_to(out),
        None => Ok(()),
    }
}

/// Writes a struct by its number, and `?` where it may be null.
fn push_struct(
    out: &mut Vec<u8>,
    schema: &Schema,
    number: u32,
    nullable: bool,
) -> Result<(), AllocError>
    ensures { OnOk result (out.new.items ≡ out.old.items ++ (struct_name schema.now number ++ nullable_text nullable)) }
{
    push_struct_name(out, schema, number)?;
    push_mark(out, nullable)
}

/// Writes a union by its number, and `?` where it may be null.
fn push_union(
    out: &mut Vec<u8>,
    schema: &Schema,
    number: u32,
    nullable: bool,
) -> Result<(), AllocError>
    ensures { OnOk result (out.new.items ≡ out.old.items ++ (union_name schema.now number ++ nullable_text nullable)) }
{
    push_union_name(out, schema, number)?;
    push_mark(out, nullable)
}

/// Writes an enum by its number, and `?` where it may be null.
fn push_enum(
    out: &mut Vec<u8>,
    schema: &Schema,
    number: u32,
    nullable: bool,
) -> Result<(), AllocError>
    ensures { OnOk result (out.new.items ≡ out.old.items ++ (enum_name schema.now number ++ nullable_text nullable)) }
{
    push_enum_name(out, schema, number)?;
    push_mark(out, nullable)
}
