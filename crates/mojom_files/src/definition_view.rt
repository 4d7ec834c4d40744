//! The definitions of a file, in the order of the file.

ghost use Rattle.std.specs.Prelude.{◌≡◌, ◌++◌, IfOk, OnOk};
ghost use Rattle.std.specs.List.{flat_map};
ghost use Rattle.mj_base.specs.Names.{named_in};
ghost use Rattle.mojom_files.specs.Definitions.{module_of, identifier_of, in_struct, in_interface, with_nested, definitions_of, nested};
ghost use Rattle.mojom_files.specs.Views.{item_view};

use crate::names::dotted;
use mj_base::{FullName, NameParts, SharedText, Text, shared};
use mojom_ast::{
    Attribute, Const, Definition, DefinitionItem, Enum, File, Identifier, Interface, InterfaceItem,
    InterfaceMember, ModuleStatement, Struct, StructItem, StructMember, Union,
};
use std::alloc::{AllocError, Global};
use std::marker::Model;

/// What a definition is, where its tree has it.
#[derive(Clone, Copy)]
pub enum ItemView<'a> {
    Struct(&'a Struct),
    Union(&'a Union),
    Enum(&'a Enum),
    Interface(&'a Interface),
    Const(&'a Const),
}

/// A definition of a file: what a tree has of it is lent from there, and the text of the module's name is
/// shared by all. Full names are made where they are asked for, so that no more than the parts is kept.
#[derive(Drop)]
pub struct DefinitionView<'a> {
    module_name: Option<SharedText>,
    outer: Option<SharedText>,
    name: &'a Identifier,
    attributes: &'a [Attribute],
    item: ItemView<'a>,
}

impl<'a> Model for DefinitionView<'a> {
    ghost use Rattle.std.specs.Coded.{codes};
    ghost use Rattle.mojom_ast.specs.contracts.types.Type as kinds;
    ghost use Rattle.mojom_files.specs.Definitions.{Defined};
    ghost use Rattle.mojom_files.specs.Views.{item_view, defined_by};

    ghost Value = { Defined };

    ghost coded = { Prim.hlevel (codes, kinds.the_row.coded) };

    ghost view = { λ d. defined_by d.module_name d.outer d.name.now d.attributes.now (item_view d.item) };
}

impl<'a> DefinitionView<'a> {
    ghost use Rattle.std.specs.Prelude.{◌≡◌, IfOk};
    ghost use Rattle.mj_base.specs.Names.{around, full_name};
    ghost use Rattle.mojom_files.specs.Views.{item_view};

    /// The parts of the full name.
    pub fn parts(&self) -> NameParts<'_>
        ensures full { self.now.full ≡ full_name result.module_name.now result.outer.now result.name.now }
        ensures enclosing { self.now.enclosing ≡ around result.module_name.now result.outer.now }
    {
        NameParts {
            module_name: &self.module_name,
            outer: &self.outer,
            name: self.name.text.as_str(),
        }
    }

    /// The full name, as one text.
    pub fn full(&self, alloc: Global) -> Result<Text, AllocError>
        ensures { IfOk result (λ full. full ≡ self.now.full) }
    {
        self.parts().full(alloc)
    }

    /// The full name, kept by its parts.
    pub fn kept(&self, alloc: Global) -> Result<FullName, AllocError>
        ensures { IfOk result (λ kept. kept ≡ self.now.full) }
    {
        self.parts().kept(alloc)
    }

    /// The full name of the definition around it, as one text, where there is one.
    pub fn enclosing(&self, alloc: Global) -> Result<Option<Text>, AllocError>
        ensures { IfOk result (λ enclosing. enclosing ≡ self.now.enclosing) }
    {
        self.parts().enclosing(alloc)
    }

    /// The identifier.
    pub fn name(&self) -> &'a Identifier
        ensures { result.now ≡ self.now.name }
    {
        self.name
    }

    /// The attributes before it.
    pub fn attributes(&self) -> &'a [Attribute]
        ensures { result.now ≡ self.now.attributes }
    {
        self.attributes
    }

    /// What it is.
    pub fn item(&self) -> ItemView<'a>
        ensures { item_view result ≡ self.now.item }
    {
        self.item
    }
}

/// What a definition is, lent from its tree.
fn lent(item: &DefinitionItem) -> ItemView<'_>
    ensures { item_view result ≡ item.now }
{
    match item {
        DefinitionItem::Struct(item) => ItemView::Struct(item),
        DefinitionItem::Union(item) => ItemView::Union(item),
        DefinitionItem::Enum(item) => ItemView::Enum(item),
        DefinitionItem::Interface(item) => ItemView::Interface(item),
        DefinitionItem::Const(item) => ItemView::Const(item),
    }
}

/// The identifier of a definition.
fn identifier<'a>(item: ItemView<'a>) -> &'a Identifier
    ensures { result.now ≡ identifier_of (item_view item.entry) }
{
    match item {
        ItemView::Struct(item) => &item.name,
        ItemView::Union(item) => &item.name,
        ItemView::Enum(item) => &item.name,
        ItemView::Interface(item) => &item.name,
        ItemView::Const(item) => &item.name,
    }
}

/// The text of the module's name.
fn name_of_module(
    alloc: Global,
    statement: &Option<ModuleStatement>,
) -> Result<Option<SharedText>, AllocError>
    ensures { IfOk result (λ name. name ≡ module_of statement.now) }
{
    match statement {
        Some(statement) => {
            let name = dotted(alloc, statement.name.parts.as_slice())?;
            Ok(Some(SharedText::new(alloc, name)?))
        }
        None => Ok(None),
    }
}

/// A definition that is nested in the one of this own name.
fn nested<'a>(
    module_name: &Option<SharedText>,
    outer: &SharedText,
    attributes: &'a [Attribute],
    item: ItemView<'a>,
) -> Result<DefinitionView<'a>, AllocError>
    ensures { IfOk result (λ made. made ≡ nested (named_in module_name.now outer.now) attributes.now (item_view item.entry)) }
{
    Ok(DefinitionView {
        module_name: shared(module_name)?,
        outer: Some(outer.share()?),
        name: identifier(item),
        attributes,
        item,
    })
}

/// Adds what is nested in a struct of this own name.
fn add_in_struct<'a>(
    found: &mut Vec<DefinitionView<'a>>,
    module_name: &Option<SharedText>,
    outer: &SharedText,
    members: &'a [StructMember],
) -> Result<(), AllocError>
    ensures { OnOk result (found.new.items ≡ found.old.items ++ flat_map (in_struct (named_in module_name.now outer.now)) members.now) }
{
    for member in members {
        let attributes = member.attributes.as_slice();
        match &member.item {
            StructItem::Const(item) => {
                found.push(nested(module_name, outer, attributes, ItemView::Const(item))?)?;
            }
            StructItem::Enum(item) => {
                found.push(nested(module_name, outer, attributes, ItemView::Enum(item))?)?;
            }
            StructItem::Field(_) => {}
        }
    }
    Ok(())
}

/// Adds what is nested in an interface of this own name.
fn add_in_interface<'a>(
    found: &mut Vec<DefinitionView<'a>>,
    module_name: &Option<SharedText>,
    outer: &SharedText,
    members: &'a [InterfaceMember],
) -> Result<(), AllocError>
    ensures { OnOk result (found.new.items ≡ found.old.items ++ flat_map (in_interface (named_in module_name.now outer.now)) members.now) }
{
    for member in members {
        let attributes = member.attributes.as_slice();
        match &member.item {
            InterfaceItem::Const(item) => {
                found.push(nested(module_name, outer, attributes, ItemView::Const(item))?)?;
            }
            InterfaceItem::Enum(item) => {
                found.push(nested(module_name, outer, attributes, ItemView::Enum(item))?)?;
            }
            InterfaceItem::Method(_) => {}
        }
    }
    Ok(())
}

/// Adds a definition, and what is nested in it.
fn add_with_nested<'a>(
    alloc: Global,
    found: &mut Vec<DefinitionView<'a>>,
    module_name: &Option<SharedText>,
    definition: &'a Definition,
) -> Result<(), AllocError>
    ensures { OnOk result (found.new.items ≡ found.old.items ++ with_nested module_name.now definition.now) }
{
    let item = lent(&definition.item);
    let name = identifier(item);
    found.push(DefinitionView {
        module_name: shared(module_name)?,
        outer: None,
        name,
        attributes: definition.attributes.as_slice(),
        item,
    })?;
    match item {
        ItemView::Struct(item) => {
            let outer = SharedText::from_str(alloc, name.text.as_str())?;
            add_in_struct(found, module_name, &outer, item.members.as_slice())
        }
        ItemView::Interface(item) => {
            let outer = SharedText::from_str(alloc, name.text.as_str())?;
            add_in_interface(found, module_name, &outer, item.members.as_slice())
        }
        ItemView::Union(_) | ItemView::Enum(_) | ItemView::Const(_) => Ok(()),
    }
}

/// The definitions of a file, in the order of the file: each before what is nested in it.
pub fn definitions<'a>(alloc: Global, file: &'a File) -> Result<Vec<DefinitionView<'a>>, AllocError>
    ensures { IfOk result (λ found. found.items ≡ definitions_of file.now) }
{
    let module_name = name_of_module(alloc, &file.module_statement)?;
    let mut found = Vec::new(alloc);
    for definition in file.definitions.as_slice() {
        add_with_nested(alloc, &mut found, &module_name, definition)?;
    }
    Ok(found)
}
