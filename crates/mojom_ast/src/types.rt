//! Types, as they are written.

ghost use Rattle.std.specs.Prelude.{◌≡◌};
ghost use Rattle.mojom_ast.specs.TypeTrees.{type_view};

use crate::names::{Name, Number};
use std::marker::Model;

/// A type. Contracts see the tree alone, wherever its parts lie in memory.
#[derive(Drop)]
pub struct Type {
    node: TypeNode,
}

impl Model for Type {
    ghost use Rattle.std.specs.Coded.{codes};
    ghost use Rattle.mojom_ast.specs.TypeTrees.{TypeTree, type_view};
    ghost use Rattle.mojom_ast.specs.steps.TypeCodes.{type_code};

    ghost Value = { TypeTree };

    ghost coded = { type_code (Prim.hlevel codes) };

    ghost view = { λ t. type_view t.node };
}

impl Type {
    /// The type of these parts. Takes no memory.
    pub fn new(node: TypeNode) -> Type
        ensures { result ≡ type_view node }
    {
        Type { node }
    }

    /// The parts of the type.
    pub fn node(&self) -> &TypeNode
        ensures { type_view result.now ≡ self.now }
    {
        &self.node
    }
}

/// A type: what stands before `?`, and whether `?` stands.
#[derive(Drop)]
#[cycle(type_tree)]
pub struct TypeNode {
    pub base: BaseNode,
    pub nullable: bool,
}

/// A type without `?`.
#[derive(Drop)]
#[cycle(type_tree)]
pub enum BaseNode {
    Name(Name),
    Array {
        of: Box<TypeNode>,
        count: Option<Number>,
    },
    Map {
        key: Box<TypeNode>,
        value: Box<TypeNode>,
    },
    Handle(Option<HandleSort>),
    Pending {
        sort: PendingSort,
        interface: Name,
    },
}

/// What a handle is for.
#[derive(Clone, Copy)]
pub enum HandleSort {
    MessagePipe,
    DataPipeConsumer,
    DataPipeProducer,
    SharedBuffer,
    Platform,
}

/// An end of an interface that is handed over.
#[derive(Clone, Copy)]
pub enum PendingSort {
    Remote,
    Receiver,
    AssociatedRemote,
    AssociatedReceiver,
}
