//! Files.

ghost use Rattle.std.specs.Prelude.{◌≡◌};
ghost use Rattle.mj_base.specs.declared.limits.TheConstants.{MAX_NESTED_TYPES};
ghost use Rattle.mojom_ast.specs.Lang.{front_in};
ghost use Rattle.mojom_ast.specs.Grammar.{definition_item, definition, module_name, import_path};
ghost use Rattle.grammar_laws.specs.steps.Factored.{statement_starts, file_starts, definition_line, import_line, module_line, statement, factored};
ghost use Rattle.mojom_parser.specs.steps.Reading.{Gives, with_imports, definitions_with, lines, file_with, file_without};
ghost use Rattle.mojom_parser.specs.steps.NotNull.{definition_not_null};

use crate::attributes::attributes;
use crate::constants::{const_of, enum_of};
use crate::error::ReadError;
use crate::interfaces::interface_of;
use crate::lists::{Listed, at_most};
use crate::structs::{struct_of, union_of};
use crate::tokens::{is_keyword, is_symbol, keyword, string, symbol};
use crate::values::name;
use mj_base::Items;
use mj_base::limits::MAX_NESTED_TYPES;
use mojom_ast::{
    Attribute, Definition, DefinitionItem, File, Import, Keyword, ModuleStatement, Name,
    StringLiteral, Symbol, Token,
};
use std::alloc::Global;

/// What a definition is, behind its attributes.
#[tactic(auto, using(crate::proofs::Starts::items), unfolding(mojom_ast::specs::Grammar::definition_item))]
fn definition_item(alloc: Global, tokens: &[Token]) -> Result<(DefinitionItem, &[Token]), ReadError>
    ensures { Gives (λ x. (x.0, x.1.now)) result ((definition_item MAX_NESTED_TYPES).read tokens.now) }
{
    if is_keyword(tokens, Keyword::Struct) {
        let (item, rest) = struct_of(alloc, tokens)?;
        return Ok((DefinitionItem::Struct(item), rest));
    }
    if is_keyword(tokens, Keyword::Union) {
        let (item, rest) = union_of(alloc, tokens)?;
        return Ok((DefinitionItem::Union(item), rest));
    }
    if is_keyword(tokens, Keyword::Enum) {
        let (item, rest) = enum_of(alloc, tokens)?;
        return Ok((DefinitionItem::Enum(item), rest));
    }
    if is_keyword(tokens, Keyword::Interface) {
        let (item, rest) = interface_of(alloc, tokens)?;
        return Ok((DefinitionItem::Interface(item), rest));
    }
    let (item, rest) = const_of(alloc, tokens)?;
    Ok((DefinitionItem::Const(item), rest))
}

/// Whether the next token begins a definition behind its attributes.
#[tactic(auto, using(crate::proofs::Starts::item_begins))]
fn begins_item(tokens: &[Token]) -> bool
    ensures { result ≡ front_in (definition_item MAX_NESTED_TYPES).starts tokens.now }
{
    is_keyword(tokens, Keyword::Struct)
        || is_keyword(tokens, Keyword::Union)
        || is_keyword(tokens, Keyword::Enum)
        || is_keyword(tokens, Keyword::Interface)
        || is_keyword(tokens, Keyword::Const)
}

impl Listed for Definition {
    ghost rule = { definition MAX_NESTED_TYPES };

    ghost not_null = { definition_not_null };

    #[tactic(auto, using(crate::proofs::Starts::definition_begins))]
    fn begins(tokens: &[Token]) -> bool {
        is_symbol(tokens, Symbol::OpenBracket) || begins_item(tokens)
    }

    #[tactic(auto, unfolding(mojom_ast::specs::Grammar::definition))]
    fn read(alloc: Global, tokens: &[Token]) -> Result<(Definition, &[Token]), ReadError> {
        let (attributes, rest) = attributes(alloc, tokens)?;
        let (item, rest) = definition_item(alloc, rest)?;
        Ok((Definition { attributes, item }, rest))
    }
}

/// Whether the next token begins a definition or an import, or the attributes before one.
#[tactic(auto, using(crate::proofs::Starts::statement_begins))]
fn begins_statement(tokens: &[Token]) -> bool
    ensures { result ≡ front_in statement_starts tokens.now }
{
    Definition::begins(tokens) || is_keyword(tokens, Keyword::Import)
}

/// The definition that has these attributes, and at most `limit` after it.
fn definitions(
    alloc: Global,
    limit: usize,
    attributes: Items<Attribute>,
    tokens: &[Token],
) -> Result<(Vec<Definition>, &[Token]), ReadError>
    ensures { Gives (λ x. (x.0.items, x.1.now)) result ((definitions_with attributes limit).read tokens.now) }
{
    let (item, rest) = definition_item(alloc, tokens)?;
    let mut definitions = Vec::new(alloc);
    definitions.push(Definition { attributes, item })?;
    at_most(alloc, limit, definitions, rest)
}

/// `import`, a path and `;`.
#[tactic(auto, unfolding(mojom_ast::specs::Grammar::import_path))]
fn import_path(alloc: Global, tokens: &[Token]) -> Result<(StringLiteral, &[Token]), ReadError>
    ensures { Gives (λ x. (x.0, x.1.now)) result (import_path.read tokens.now) }
{
    let (_, rest) = keyword(tokens, Keyword::Import)?;
    let (path, rest) = string(alloc, rest)?;
    let (_, rest) = symbol(rest, Symbol::Semicolon)?;
    Ok((path, rest))
}

/// `module`, a name and `;`.
#[tactic(auto, unfolding(mojom_ast::specs::Grammar::module_name))]
fn module_name(alloc: Global, tokens: &[Token]) -> Result<(Name, &[Token]), ReadError>
    ensures { Gives (λ x. (x.0, x.1.now)) result (module_name.read tokens.now) }
{
    let (_, rest) = keyword(tokens, Keyword::Module)?;
    let (name, rest) = name(alloc, rest)?;
    let (_, rest) = symbol(rest, Symbol::Semicolon)?;
    Ok((name, rest))
}

/// At most `limit` imports behind those that there are, and then at most `limit` + 1 definitions.
fn statements(
    alloc: Global,
    limit: usize,
    imports: Vec<Import>,
    tokens: &[Token],
) -> Result<(Vec<Import>, Vec<Definition>, &[Token]), ReadError>
    ensures { Gives (λ x. ((x.0.items, x.1.items), x.2.now)) result (with_imports imports.items ((lines limit).read tokens.now)) }
{
    let mut imports = imports;
    let mut rest = tokens;
    for _ in 0..limit {
        if !begins_statement(rest) {
            return Ok((imports, Vec::new(alloc), rest));
        }
        let (attributes, after) = attributes(alloc, rest)?;
        if begins_item(after) {
            let (definitions, end) = definitions(alloc, limit, attributes, after)?;
            return Ok((imports, definitions, end));
        }
        let (path, next) = import_path(alloc, after)?;
        imports.push(Import { attributes, path })?;
        rest = next;
    }
    Ok((imports, Vec::new(alloc), rest))
}

/// A file whose first attributes belong to its module statement.
fn with_module(
    alloc: Global,
    limit: usize,
    attributes: Items<Attribute>,
    tokens: &[Token],
) -> Result<(File, &[Token]), ReadError>
    ensures { Gives (λ x. (x.0, x.1.now)) result ((file_with attributes (module_line (lines limit))).read tokens.now) }
{
    let (name, rest) = module_name(alloc, tokens)?;
    let (imports, definitions, rest) = statements(alloc, limit, Vec::new(alloc), rest)?;
    Ok((
        File {
            module_statement: Some(ModuleStatement { attributes, name }),
            imports: Items::from_vec(imports),
            definitions: Items::from_vec(definitions),
        },
        rest,
    ))
}

/// A file whose first attributes belong to a definition.
fn only_definitions(
    alloc: Global,
    limit: usize,
    attributes: Items<Attribute>,
    tokens: &[Token],
) -> Result<(File, &[Token]), ReadError>
    ensures { Gives (λ x. (x.0, x.1.now)) result ((file_without attributes (definition_line limit MAX_NESTED_TYPES)).read tokens.now) }
{
    let (definitions, rest) = definitions(alloc, limit, attributes, tokens)?;
    Ok((
        File {
            module_statement: None,
            imports: Items::new(alloc),
            definitions: Items::from_vec(definitions),
        },
        rest,
    ))
}

/// A file whose first attributes belong to an import.
fn from_import(
    alloc: Global,
    limit: usize,
    attributes: Items<Attribute>,
    tokens: &[Token],
) -> Result<(File, &[Token]), ReadError>
    ensures { Gives (λ x. (x.0, x.1.now)) result ((file_without attributes (import_line (lines limit))).read tokens.now) }
{
    let (path, rest) = import_path(alloc, tokens)?;
    let mut imports = Vec::new(alloc);
    imports.push(Import { attributes, path })?;
    let (imports, definitions, rest) = statements(alloc, limit, imports, rest)?;
    Ok((
        File {
            module_statement: None,
            imports: Items::from_vec(imports),
            definitions: Items::from_vec(definitions),
        },
        rest,
    ))
}

/// A file without a module statement, whose first attributes belong to its first import or
/// definition.
#[tactic(auto, using(crate::proofs::Starts::item_not_null))]
fn without_module(
    alloc: Global,
    limit: usize,
    attributes: Items<Attribute>,
    tokens: &[Token],
) -> Result<(File, &[Token]), ReadError>
    ensures { Gives (λ x. (x.0, x.1.now)) result ((file_without attributes (statement (lines limit) limit MAX_NESTED_TYPES)).read tokens.now) }
{
    if begins_item(tokens) {
        return only_definitions(alloc, limit, attributes, tokens);
    }
    from_import(alloc, limit, attributes, tokens)
}

/// Whether the next token begins a file that isn't empty.
#[tactic(auto, using(crate::proofs::Starts::file_begins))]
fn begins_file(tokens: &[Token]) -> bool
    ensures { result ≡ front_in file_starts tokens.now }
{
    begins_statement(tokens) || is_keyword(tokens, Keyword::Module)
}

/// A file, and the tokens after it.
pub fn file(alloc: Global, tokens: &[Token]) -> Result<(File, &[Token]), ReadError>
    ensures { Gives (λ x. (x.0, x.1.now)) result ((factored MAX_NESTED_TYPES).read tokens.now) }
{
    if !begins_file(tokens) {
        return Ok((
            File {
                module_statement: None,
                imports: Items::new(alloc),
                definitions: Items::new(alloc),
            },
            tokens,
        ));
    }
    let (attributes, rest) = attributes(alloc, tokens)?;
    if is_keyword(rest, Keyword::Module) {
        return with_module(alloc, tokens.len(), attributes, rest);
    }
    without_module(alloc, tokens.len(), attributes, rest)
}
