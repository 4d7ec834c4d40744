//! Whole files.

ghost use Rattle.std.specs.Prelude.{◌≡◌, ◌++◌, IfOk, OnOk};
ghost use Rattle.std.specs.List.{flat_map};
ghost use Rattle.mojom_print.specs.FileText.{module_text, import_text, definition_text, file_text};

use crate::attributes::push_attribute_line;
use crate::definitions::{push_const, push_enum, push_struct, push_union};
use crate::interfaces::push_interface;
use crate::words::{push_name, push_string, push_text};
use mojom_ast::{Definition, DefinitionItem, File, Import, ModuleStatement};
use std::alloc::{AllocError, Global};

/// The canonical text of the file, in bytes.
#[tactic(auto, unfolding(crate::specs::FileText::file_text))]
pub fn spell(alloc: Global, file: &File) -> Result<Vec<u8>, AllocError>
    ensures { IfOk result (λ text. text.items ≡ file_text file.now) }
{
    let mut out = Vec::new(alloc);
    push_module(&mut out, &file.module_statement)?;
    push_imports(&mut out, file.imports.as_slice())?;
    push_definitions(&mut out, file.definitions.as_slice())?;
    Ok(out)
}

/// Writes the module statement, where there is one.
fn push_module(out: &mut Vec<u8>, statement: &Option<ModuleStatement>) -> Result<(), AllocError>
    ensures { OnOk result (out.new.items ≡ out.old.items ++ module_text statement.now) }
{
    if let Some(statement) = statement {
        push_attribute_line(out, 0, statement.attributes.as_slice())?;
        push_text(out, "module ")?;
        push_name(out, &statement.name)?;
        push_text(out, ";\n")?;
    }
    Ok(())
}

/// Writes an import.
#[tactic(auto, unfolding(crate::specs::FileText::import_text))]
fn push_import(out: &mut Vec<u8>, import: &Import) -> Result<(), AllocError>
    ensures { OnOk result (out.new.items ≡ out.old.items ++ import_text import.now) }
{
    push_attribute_line(out, 0, import.attributes.as_slice())?;
    push_text(out, "import ")?;
    push_string(out, import.path.bytes.as_slice())?;
    push_text(out, ";\n")
}

/// Writes the imports.
fn push_imports(out: &mut Vec<u8>, imports: &[Import]) -> Result<(), AllocError>
    ensures { OnOk result (out.new.items ≡ out.old.items ++ flat_map import_text imports.now) }
{
    for import in imports {
        push_import(out, import)?;
    }
    Ok(())
}

/// Writes a definition, behind its attributes.
fn push_definition(out: &mut Vec<u8>, definition: &Definition) -> Result<(), AllocError>
    ensures { OnOk result (out.new.items ≡ out.old.items ++ definition_text definition.now) }
{
    push_attribute_line(out, 0, definition.attributes.as_slice())?;
    match &definition.item {
        DefinitionItem::Struct(item) => push_struct(out, item),
        DefinitionItem::Union(item) => push_union(out, item),
        DefinitionItem::Enum(item) => push_enum(out, 0, item),
        DefinitionItem::Interface(item) => push_interface(out, item),
        DefinitionItem::Const(item) => push_const(out, 0, item),
    }
}

/// Writes the definitions.
fn push_definitions(out: &mut Vec<u8>, definitions: &[Definition]) -> Result<(), AllocError>
    ensures { OnOk result (out.new.items ≡ out.old.items ++ flat_map definition_text definitions.now) }
{
    for definition in definitions {
        push_definition(out, definition)?;
    }
    Ok(())
}
