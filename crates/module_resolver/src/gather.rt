//! The names of files, from their trees.

ghost use Rattle.std.specs.Prelude.{◌≡◌, ◌++◌, IfOk, OnOk, map, filter};
ghost use Rattle.std.specs.List.{flat_map};
ghost use Rattle.mj_base.specs.Names.{within};
ghost use Rattle.mojom_files.specs.Definitions.{definitions_of, enumerator_names};
ghost use Rattle.mojom_files.specs.Views.{item_view};
ghost use Rattle.module_resolver.specs.NamesOf.{sort_of_item, module_fronts, sees, sees_number, names_in, names_of};
ghost use Rattle.module_resolver.specs.Enums.{names_in_enum};
ghost use Rattle.module_resolver.specs.steps.Seen.{ArePaths};

use crate::enumerator_names::{EnumNames, EnumeratorNames};
use crate::file_names::{FileNames, Names};
use crate::fronts::Fronts;
use crate::indexed_files::IndexedFiles;
use crate::seen::Seen;
use crate::target::DefinitionSort;
use indexmap::IndexSet;
use mj_base::{FullName, Items, Text};
use mojom_ast::{Enumerator, File, Import, ModuleStatement};
use mojom_files::{DefinitionView, ItemView, NamedFile, definitions};
use std::alloc::{AllocError, Global};

/// The full names of definitions, each by its parts.
fn full_names(alloc: Global, views: &[DefinitionView<'_>]) -> Result<Items<FullName>, AllocError>
    ensures { IfOk result (λ names. names ≡ map (λ d. d.full) views.now) }
{
    let mut names = Vec::new(alloc);
    for view in views {
        names.push(view.kept(alloc)?)?;
    }
    Ok(Items::from_vec(names))
}

/// What a definition is.
fn sort_of_item(item: ItemView<'_>) -> DefinitionSort
    ensures { result ≡ sort_of_item (item_view item.entry) }
{
    match item {
        ItemView::Struct(_) => DefinitionSort::Struct,
        ItemView::Union(_) => DefinitionSort::Union,
        ItemView::Enum(_) => DefinitionSort::Enum,
        ItemView::Interface(_) => DefinitionSort::Interface,
        ItemView::Const(_) => DefinitionSort::Const,
    }
}

/// What definitions are.
fn sorts(alloc: Global, views: &[DefinitionView<'_>]) -> Result<Items<DefinitionSort>, AllocError>
    ensures { IfOk result (λ sorts. sorts ≡ map (λ d. sort_of_item d.item) views.now) }
{
    let mut sorts = Vec::new(alloc);
    for view in views {
        sorts.push(sort_of_item(view.item()))?;
    }
    Ok(Items::from_vec(sorts))
}

/// The own names of enumerators.
fn own_names(alloc: Global, enumerators: &[Enumerator]) -> Result<Items<Text>, AllocError>
    ensures { IfOk result (λ names. names ≡ map (λ e. e.name.text) enumerators.now) }
{
    let mut names = Vec::new(alloc);
    for enumerator in enumerators {
        names.push(Text::from_str(alloc, enumerator.name.text.as_str())?)?;
    }
    Ok(Items::from_vec(names))
}

/// Adds the enumerators of an enum.
fn add_enum(
    alloc: Global,
    enums: &mut Vec<EnumNames>,
    view: &DefinitionView<'_>,
    enumerators: &[Enumerator],
) -> Result<(), AllocError>
    ensures { OnOk result (flat_map names_in_enum enums.new.items
        ≡ flat_map names_in_enum enums.old.items ++ map (λ e. within view.now.full e.name.text) enumerators.now) }
{
    let names = own_names(alloc, enumerators)?;
    let outer = view.kept(alloc)?;
    enums.push(EnumNames { outer, names })?;
    Ok(())
}

/// Adds the enumerators of a definition.
fn add_of_definition(
    alloc: Global,
    enums: &mut Vec<EnumNames>,
    view: &DefinitionView<'_>,
) -> Result<(), AllocError>
    ensures { OnOk result (flat_map names_in_enum enums.new.items ≡ flat_map names_in_enum enums.old.items ++ enumerator_names view.now) }
{
    match view.item() {
        ItemView::Enum(item) => add_enum(alloc, enums, view, item.enumerators.as_slice()),
        ItemView::Struct(_) | ItemView::Union(_) | ItemView::Interface(_) | ItemView::Const(_) => {
            Ok(())
        }
    }
}

/// The full names of the enumerators of definitions.
fn enumerator_names(
    alloc: Global,
    views: &[DefinitionView<'_>],
) -> Result<EnumeratorNames, AllocError>
    ensures { IfOk result (λ names. names ≡ flat_map enumerator_names views.now) }
{
    let mut enums = Vec::new(alloc);
    for view in views {
        add_of_definition(alloc, &mut enums, view)?;
    }
    Ok(EnumeratorNames::from_vec(enums))
}

/// The names of the files that are imported.
fn paths_of<'a>(alloc: Global, imports: &'a [Import]) -> Result<IndexSet<&'a [u8]>, AllocError>
    ensures { IfOk result (λ paths. ArePaths imports.now paths) }
{
    let mut paths = IndexSet::new(alloc);
    for one in imports {
        paths.insert(one.path.bytes.as_slice())?;
    }
    Ok(paths)
}

/// Whether a file sees another: itself, or one that it imports.
fn sees(file: &NamedFile, paths: &IndexSet<&[u8]>, other: &NamedFile) -> bool
    requires { ArePaths file.now.tree.imports paths.now }
    ensures { result ≡ sees file.now other.now }
{
    let name = other.name.as_str();
    name == file.name.as_str() || paths.contains(name.as_bytes())
}

/// Whether a file sees the one of this number.
fn sees_number(files: &[NamedFile], file: &NamedFile, paths: &IndexSet<&[u8]>, number: u32) -> bool
    requires { ArePaths file.now.tree.imports paths.now }
    ensures { result ≡ sees_number files.now file.now number }
{
    match files.get(number as usize) {
        Some(other) => sees(file, paths, other),
        None => false,
    }
}

/// The numbers of the files that a file sees, in resolved order.
fn seen(
    alloc: Global,
    files: &[NamedFile],
    order: &[u32],
    file: &NamedFile,
) -> Result<Items<u32>, AllocError>
    ensures { IfOk result (λ seen. seen ≡ filter (sees_number files.now file.now) order.now) }
{
    let paths = paths_of(alloc, file.tree.imports.as_slice())?;
    let mut seen = Vec::new(alloc);
    for number in order {
        if sees_number(files, file, &paths, *number) {
            seen.push(*number)?;
        }
    }
    Ok(Items::from_vec(seen))
}

/// The name of a file's module and each shorter front of it, the longest first.
fn module_fronts(alloc: Global, statement: &Option<ModuleStatement>) -> Result<Fronts, AllocError>
    ensures { IfOk result (λ fronts. fronts ≡ module_fronts statement.now) }
{
    match statement {
        Some(statement) => Fronts::new(alloc, statement.name.parts.as_slice()),
        None => Ok(Fronts::none(alloc)),
    }
}

/// What a file defines: the full names, what each of them is, and the enumerators.
fn defined(
    alloc: Global,
    file: &File,
) -> Result<(Items<FullName>, Items<DefinitionSort>, EnumeratorNames), AllocError>
    ensures names { IfOk result (λ x. x.0 ≡ map (λ d. d.full) (definitions_of file.now)) }
    ensures sorts { IfOk result (λ x. x.1 ≡ map (λ d. sort_of_item d.item) (definitions_of file.now)) }
    ensures enumerators { IfOk result (λ x. x.2 ≡ flat_map enumerator_names (definitions_of file.now)) }
{
    let found = definitions(alloc, file)?;
    let views = found.as_slice();
    Ok((
        full_names(alloc, views)?,
        sorts(alloc, views)?,
        enumerator_names(alloc, views)?,
    ))
}

/// The names of a file.
fn names_in(
    alloc: Global,
    files: &[NamedFile],
    order: &[u32],
    file: &NamedFile,
) -> Result<FileNames, AllocError>
    ensures { IfOk result (λ names. names ≡ names_in files.now order.now file.now) }
{
    let numbers = seen(alloc, files, order, file)?;
    let known = Seen::new(alloc, numbers)?;
    let fronts = module_fronts(alloc, &file.tree.module_statement)?;
    let (names, kinds, enumerators) = defined(alloc, &file.tree)?;
    Ok(FileNames {
        definitions: names,
        sorts: kinds,
        enumerators,
        seen: known,
        fronts,
    })
}

/// The names of all files, where this is their resolved order.
pub fn names_of(alloc: Global, files: &[NamedFile], order: &[u32]) -> Result<Names, AllocError>
    ensures { IfOk result (λ names. names ≡ names_of files.now order.now) }
{
    let mut all = Vec::new(alloc);
    for file in files {
        all.push(names_in(alloc, files, order, file)?)?;
    }
    Ok(Names {
        files: IndexedFiles::new(alloc, files, Items::from_vec(all), order)?,
    })
}
