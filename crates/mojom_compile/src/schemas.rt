//! Files to their schema.

ghost use Rattle.std.specs.Prelude.{◌≡◌, ◌<◌, ◌^◌, List, length, IfOk, IfErr};
ghost use Rattle.import_order.specs.Order.{IsOrdered};
ghost use Rattle.name_refusals.specs.Resolved.{AreNames};
ghost use Rattle.mojom_compile.specs.declared.source.Source.{Source};
ghost use Rattle.mojom_compile.specs.Schemas.{IsTreeOf, AreTreesOf, AreTablesOf, IsSchemaOfFiles, IsOfGiven, IsWhy, OneSchemaOfFiles};
ghost use Rattle.mojom_compile.specs.steps.Stages.{IsOfStages, IsUnreadFile};

use crate::compiler::read;
use crate::error::CompileError;
use crate::schema_error::SchemaError;
use crate::source::Source;
use crate::tables::schema_of;
use const_eval::evaluate;
use kind_check::{Draft, check_kinds};
use mj_base::Text;
use mj_schema::Schema;
use module_resolver::{Names, order};
use mojom_files::NamedFile;
use name_refusals::resolve;
use std::alloc::Global;

/// The tree of a file, which has this number.
fn read_one(alloc: Global, number: u32, source: &Source) -> Result<NamedFile, SchemaError>
    ensures tree { IfOk result (IsTreeOf source.now) }
    ensures unread { IfErr result (IsUnreadFile number source.now) }
{
    match read(alloc, source.bytes.as_slice()) {
        Ok(tree) => {
            let name = Text::from_str(alloc, source.name.as_str())?;
            Ok(NamedFile { name, tree })
        }
        Err(CompileError::Refused(refusal)) => Err(SchemaError::Unread {
            file: number,
            refusal,
        }),
        Err(CompileError::Memory) => Err(SchemaError::Memory),
    }
}

/// The trees of files, or the first file that has none.
fn read_all(alloc: Global, sources: &[Source]) -> Result<Vec<NamedFile>, SchemaError>
    requires { length sources.now < 2 ^ 32 }
    ensures trees { IfOk result (λ files. AreTreesOf sources.now files.items) }
    ensures count { IfOk result (λ files. length files.items ≡ length sources.now) }
    ensures refused { IfErr result (IsWhy sources.now) }
{
    let mut files = Vec::new(alloc);
    for (number, source) in sources.iter().enumerate() {
        files.push(read_one(alloc, number as u32, source)?)?;
    }
    Ok(files)
}

/// The tables of files that have this order and these names; or the first refusal of their constants, and
/// then of their kinds.
fn tables_of_named(
    alloc: Global,
    files: &[NamedFile],
    order: &[u32],
    names: &Names,
) -> Result<Draft, SchemaError>
    requires ordered { IsOrdered files.now order.now }
    requires named { AreNames files.now order.now names.now }
    ensures tables { IfOk result (AreTablesOf files.now) }
    ensures refused { IfErr result (IsOfStages files.now) }
{
    let consts = evaluate(alloc, files, order, names)?;
    let draft = check_kinds(alloc, files, order, names, &consts)?;
    Ok(draft)
}

/// The tables of files that have this order; or the first refusal of their names, and then of the rest.
fn tables_of_ordered(
    alloc: Global,
    files: &[NamedFile],
    order: &[u32],
) -> Result<Draft, SchemaError>
    requires { IsOrdered files.now order.now }
    ensures tables { IfOk result (AreTablesOf files.now) }
    ensures refused { IfErr result (IsOfStages files.now) }
{
    let names = resolve(alloc, files, order)?;
    tables_of_named(alloc, files, order, &names)
}

/// The tables of files by their trees; or the first refusal: of their order, then of their names, their
/// constants, and their kinds.
fn tables_of(alloc: Global, files: &[NamedFile]) -> Result<Draft, SchemaError>
    requires { length files.now < 2 ^ 32 }
    ensures tables { IfOk result (AreTablesOf files.now) }
    ensures refused { IfErr result (IsOfStages files.now) }
{
    let order = order(alloc, files)?;
    tables_of_ordered(alloc, files, order.as_slice())
}

/// The schema of files, or their first refusal.
fn schema_of_files(alloc: Global, sources: &[Source]) -> Result<Schema, SchemaError>
    ensures schema { IfOk result (IsSchemaOfFiles sources.now) }
    ensures refused { IfErr result (IsWhy sources.now) }
{
    if u32::try_from(sources.len()).is_err() {
        return Err(SchemaError::Memory);
    }
    let files = read_all(alloc, sources)?;
    let tables = tables_of(alloc, files.as_slice())?;
    Ok(schema_of(alloc, tables)?)
}

/// The schema of files, which are given with their names, or their first refusal: a file without a
/// tree comes first, in the order given; then the order of files, names, constants and kinds, each
/// stage over all files before the next. The file that is refused is one of those given.
#[tactic(auto, using(crate::proofs::Given::answer_given))]
pub fn compile(alloc: Global, sources: &[Source]) -> Result<Schema, SchemaError>
    ensures schema { IfOk result (IsSchemaOfFiles sources.now) }
    ensures refused { IfErr result (IsWhy sources.now) }
    ensures given { IfErr result (IsOfGiven sources.now) }
{
    schema_of_files(alloc, sources)
}

/// Files have one schema or one refusal, and never both: this is a law and does nothing.
pub fn one_schema()
    ensures { (sources : List Source) → OneSchemaOfFiles sources }
{}
