//! The kinds of types.

ghost use Rattle.std.specs.Prelude.{◌≡◌, IfOk};
ghost use Rattle.std.specs.Option.{option_map};
ghost use Rattle.mojom_ast.specs.TypeTrees.{base_view};
ghost use Rattle.mj_schema.specs.KindTrees.{IntKind, kind_view};
ghost use Rattle.draft_rows.specs.Kinds.{basic_kind, row_kind, rows_before_target, meant_kind, interface_at, target_interface, interface_number, handle_sort};
ghost use Rattle.draft_rows.specs.Kinds.{pending_kind, count_of, kind_of_base, kind_of};
ghost use Rattle.kind_scope.specs.Views.{scope_view};

use crate::counts::Counts;
use crate::row_table::RowTable;
use kind_scope::{Meant, ScopeView, held, meant_in};
use mj_schema::{HandleSort, Kind, KindNode, Width};
use module_resolver::{DefinitionSort, Target};
use mojom_ast::{BaseNode, Identifier, Number, PendingSort, Type};
use mojom_files::{Basic, dotted};
use std::alloc::{AllocError, Global};

/// An integer of this width.
fn int(width: Width, signed: bool, nullable: bool) -> Option<KindNode>
    ensures { option_map kind_view result ≡ Some (IntKind width signed nullable) }
{
    Some(KindNode::Int {
        width,
        signed,
        nullable,
    })
}

/// The kind of a basic name; none exactly of float and double.
fn basic_kind(nullable: bool, basic: Basic) -> Option<KindNode>
    ensures { option_map kind_view result ≡ basic_kind nullable basic }
{
    match basic {
        Basic::Bool => Some(KindNode::Bool { nullable }),
        Basic::Int8 => int(Width::Bits8, true, nullable),
        Basic::Int16 => int(Width::Bits16, true, nullable),
        Basic::Int32 => int(Width::Bits32, true, nullable),
        Basic::Int64 => int(Width::Bits64, true, nullable),
        Basic::Uint8 => int(Width::Bits8, false, nullable),
        Basic::Uint16 => int(Width::Bits16, false, nullable),
        Basic::Uint32 => int(Width::Bits32, false, nullable),
        Basic::Uint64 => int(Width::Bits64, false, nullable),
        Basic::Text => Some(KindNode::Text { nullable }),
        Basic::Float | Basic::Double => None,
    }
}

/// The kind of a name that means a definition of this sort, before which so many rows stand.
fn row_kind(nullable: bool, sort: DefinitionSort, counts: Counts) -> Option<KindNode>
    ensures { option_map kind_view result ≡ row_kind nullable sort counts }
{
    match sort {
        DefinitionSort::Struct => Some(KindNode::Struct {
            number: counts.structs,
            nullable,
        }),
        DefinitionSort::Union => Some(KindNode::Union {
            number: counts.unions,
            nullable,
        }),
        DefinitionSort::Enum => Some(KindNode::Enum {
            number: counts.enums,
            nullable,
        }),
        DefinitionSort::Interface | DefinitionSort::Const => None,
    }
}

/// How many rows stand before a definition that a name means.
fn rows_before_target(rows: &RowTable, target: Target) -> Option<Counts>
    ensures { result ≡ rows_before_target rows.now target }
{
    match target {
        Target::Definition { file, number } => rows.before(file, number),
        Target::Enumerator { .. } => None,
    }
}

/// The kind of what a type's name means.
fn meant_kind(
    rows: &RowTable,
    scope: &ScopeView<'_>,
    nullable: bool,
    meant: Meant,
) -> Option<KindNode>
    ensures { option_map kind_view result ≡ meant_kind rows.now (scope_view scope.now) nullable meant }
{
    match meant {
        Meant::Basic(basic) => basic_kind(nullable, basic),
        Meant::Target(target) => {
            let sort = scope.place.sort_of(target)?;
            let counts = rows_before_target(rows, target)?;
            row_kind(nullable, sort, counts)
        }
    }
}

/// The number of an interface before which so many rows stand; none exactly of what is none.
fn interface_at(sort: DefinitionSort, counts: Counts) -> Option<u32>
    ensures { result ≡ interface_at sort counts }
{
    match sort {
        DefinitionSort::Interface => Some(counts.interfaces),
        _ => None,
    }
}

/// The number of the interface that is meant.
fn target_interface(rows: &RowTable, scope: &ScopeView<'_>, target: Target) -> Option<u32>
    ensures { result ≡ target_interface rows.now (scope_view scope.now) target }
{
    let sort = scope.place.sort_of(target)?;
    let counts = rows_before_target(rows, target)?;
    interface_at(sort, counts)
}

/// The number of the interface that a name means.
fn interface_number(
    alloc: Global,
    rows: &RowTable,
    scope: &ScopeView<'_>,
    parts: &[Identifier],
) -> Result<Option<u32>, AllocError>
    ensures { IfOk result (λ number. number ≡ interface_number rows.now (scope_view scope.now) parts.now) }
{
    let name = dotted(alloc, parts)?;
    match scope.place.look_up(name.as_str()) {
        Some(target) => Ok(target_interface(rows, scope, target)),
        None => Ok(None),
    }
}

/// What a handle stands for.
fn handle_sort(sort: Option<mojom_ast::HandleSort>) -> HandleSort
    ensures { result ≡ handle_sort sort }
{
    match sort {
        None => HandleSort::Any,
        Some(mojom_ast::HandleSort::MessagePipe) => HandleSort::MessagePipe,
        Some(mojom_ast::HandleSort::DataPipeConsumer) => HandleSort::DataPipeConsumer,
        Some(mojom_ast::HandleSort::DataPipeProducer) => HandleSort::DataPipeProducer,
        Some(mojom_ast::HandleSort::SharedBuffer) => HandleSort::SharedBuffer,
        Some(mojom_ast::HandleSort::Platform) => HandleSort::Platform,
    }
}

/// The kind of an end of the interface of this number.
fn pending_kind(sort: PendingSort, nullable: bool, interface: u32) -> KindNode
    ensures { kind_view result ≡ pending_kind sort nullable interface }
{
    match sort {
        PendingSort::Remote => KindNode::Remote {
            interface,
            nullable,
        },
        PendingSort::Receiver => KindNode::Receiver {
            interface,
            nullable,
        },
        PendingSort::AssociatedRemote => KindNode::AssociatedRemote {
            interface,
            nullable,
        },
        PendingSort::AssociatedReceiver => KindNode::AssociatedReceiver {
            interface,
            nullable,
        },
    }
}

/// A length that is written, as one of 32 bits.
fn count_of(count: Option<Number>) -> Option<u32>
    ensures { result ≡ count_of count }
{
    match count {
        Some(number) => Some(held(number.value)),
        None => None,
    }
}

/// The kind of a type without its `?`, which stands where it is nullable.
#[cycle(kinds)]
fn kind_of_base(
    alloc: Global,
    rows: &RowTable,
    scope: &ScopeView<'_>,
    base: &BaseNode,
    nullable: bool,
) -> Result<Option<KindNode>, AllocError>
    ensures { IfOk result (λ kind. option_map kind_view kind ≡ kind_of_base rows.now (scope_view scope.now) (base_view base.now) nullable) }
{
    match base {
        BaseNode::Name(name) => match meant_in(alloc, scope, name.parts.as_slice())? {
            Some(meant) => Ok(meant_kind(rows, scope, nullable, meant)),
            None => Ok(None),
        },
        BaseNode::Array { of, count } => {
            let Some(inner) = kind_of_base(alloc, rows, scope, &of.base, of.nullable)? else {
                return Ok(None);
            };
            Ok(Some(KindNode::Array {
                of: Box::new(alloc, inner)?,
                count: count_of(*count),
                nullable,
            }))
        }
        BaseNode::Map { key, value } => {
            let Some(key) = kind_of_base(alloc, rows, scope, &key.base, key.nullable)? else {
                return Ok(None);
            };
            let Some(value) = kind_of_base(alloc, rows, scope, &value.base, value.nullable)? else {
                return Ok(None);
            };
            Ok(Some(KindNode::Map {
                key: Box::new(alloc, key)?,
                value: Box::new(alloc, value)?,
                nullable,
            }))
        }
        BaseNode::Handle(sort) => Ok(Some(KindNode::Handle {
            sort: handle_sort(*sort),
            nullable,
        })),
        BaseNode::Pending { sort, interface } => {
            match interface_number(alloc, rows, scope, interface.parts.as_slice())? {
                Some(number) => Ok(Some(pending_kind(*sort, nullable, number))),
                None => Ok(None),
            }
        }
    }
}

/// The kind of a type; none at a float, and where a name means no kind.
pub fn kind_of(
    alloc: Global,
    rows: &RowTable,
    scope: &ScopeView<'_>,
    kind: &Type,
) -> Result<Option<Kind>, AllocError>
    ensures { IfOk result (λ made. made ≡ kind_of rows.now (scope_view scope.now) kind.now) }
{
    let node = kind.node();
    match kind_of_base(alloc, rows, scope, &node.base, node.nullable)? {
        Some(made) => Ok(Some(Kind::new(made))),
        None => Ok(None),
    }
}
