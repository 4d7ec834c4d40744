//! Kinds that fit, and the rows that they name.

ghost use Rattle.std.specs.Prelude.{◌≡◌, ◌++◌, ℕ, List, [], ◌∷◌, Option, OnOk};
ghost use Rattle.mj_schema.specs.KindTrees as kinds;
ghost use Rattle.mj_schema.specs.KindTrees.{kind_view};
ghost use Rattle.compat_model.specs.Kinds.{is_kept, is_same, count_fits, sort_number, are_namesakes, kinds_fit, named_in};
ghost use Rattle.breaking_changes.specs.steps.Flat.{flat_fits};

use compat_model::Pair;
use mj_schema::{HandleSort, KindNode, Width};
use std::alloc::AllocError;

/// Whether what holds of the older holds of the newer.
pub(crate) fn is_kept(old: bool, new: bool) -> bool
    ensures { result ≡ is_kept old new }
{
    !old || new
}

/// Whether both hold or neither does.
pub(crate) fn is_same(old: bool, new: bool) -> bool
    ensures { result ≡ is_same old new }
{
    if old { new } else { !new }
}

/// Whether a fixed count is equal, or dropped.
fn count_fits(old: Option<u32>, new: Option<u32>) -> bool
    ensures { result ≡ count_fits old new }
{
    match (old, new) {
        (_, None) => true,
        (None, Some(_)) => false,
        (Some(n), Some(m)) => n == m,
    }
}

/// A handle sort by its number.
fn sort_number(sort: HandleSort) -> u32
    ensures { result ≡ sort_number sort }
{
    match sort {
        HandleSort::Any => 0,
        HandleSort::MessagePipe => 1,
        HandleSort::DataPipeConsumer => 2,
        HandleSort::DataPipeProducer => 3,
        HandleSort::SharedBuffer => 4,
        HandleSort::Platform => 5,
    }
}

/// Whether the newer interface is the one of the older one's full name, where `namesakes` has the
/// number of that one for each interface of the older schema.
fn are_namesakes(namesakes: &[Option<u32>], old: u32, new: u32) -> bool
    ensures { result ≡ are_namesakes namesakes.now old new }
{
    match namesakes.get(old as usize).copied().unwrap_or(None) {
        Some(number) => number == new,
        None => false,
    }
}

/// Whether a bool is fit by this kind.
fn bools_fit(nullable: bool, b: &KindNode) -> bool
    ensures { (namesakes : List (Option ℕ)) → result ≡ kinds_fit namesakes (kinds.BoolKind nullable) (kind_view b.now) }
{
    match b {
        KindNode::Bool { nullable: m } => is_same(nullable, *m),
        _ => false,
    }
}

/// Whether an integer is fit by this kind.
fn ints_fit(width: Width, signed: bool, nullable: bool, b: &KindNode) -> bool
    ensures { (namesakes : List (Option ℕ)) → result ≡ kinds_fit namesakes (kinds.IntKind width signed nullable) (kind_view b.now) }
{
    match b {
        KindNode::Int {
            width: x,
            signed: t,
            nullable: m,
        } => width.bits() == x.bits() && (is_same(signed, *t) && is_same(nullable, *m)),
        _ => false,
    }
}

/// Whether an enum is fit by this kind.
fn enums_fit(nullable: bool, b: &KindNode) -> bool
    ensures { (namesakes : List (Option ℕ)) (number : ℕ) → result ≡ kinds_fit namesakes (kinds.EnumKind number nullable) (kind_view b.now) }
{
    match b {
        KindNode::Enum { nullable: m, .. } => is_same(nullable, *m),
        _ => false,
    }
}

/// Whether a string is fit by this kind.
fn texts_fit(nullable: bool, b: &KindNode) -> bool
    ensures { (namesakes : List (Option ℕ)) → result ≡ kinds_fit namesakes (kinds.TextKind nullable) (kind_view b.now) }
{
    match b {
        KindNode::Text { nullable: m } => is_kept(nullable, *m),
        _ => false,
    }
}

/// Whether a handle is fit by this kind.
fn handles_fit(sort: HandleSort, nullable: bool, b: &KindNode) -> bool
    ensures { (namesakes : List (Option ℕ)) → result ≡ kinds_fit namesakes (kinds.HandleKind sort nullable) (kind_view b.now) }
{
    match b {
        KindNode::Handle {
            sort: t,
            nullable: m,
        } => sort_number(sort) == sort_number(*t) && is_kept(nullable, *m),
        _ => false,
    }
}

/// Whether a struct is fit by this kind.
fn structs_fit(nullable: bool, b: &KindNode) -> bool
    ensures { (namesakes : List (Option ℕ)) (number : ℕ) → result ≡ kinds_fit namesakes (kinds.StructKind number nullable) (kind_view b.now) }
{
    match b {
        KindNode::Struct { nullable: m, .. } => is_kept(nullable, *m),
        _ => false,
    }
}

/// Whether a union is fit by this kind.
fn unions_fit(nullable: bool, b: &KindNode) -> bool
    ensures { (namesakes : List (Option ℕ)) (number : ℕ) → result ≡ kinds_fit namesakes (kinds.UnionKind number nullable) (kind_view b.now) }
{
    match b {
        KindNode::Union { nullable: m, .. } => is_kept(nullable, *m),
        _ => false,
    }
}

/// Whether a remote is fit by this kind.
fn remotes_fit(namesakes: &[Option<u32>], interface: u32, nullable: bool, b: &KindNode) -> bool
    ensures { result ≡ kinds_fit namesakes.now (kinds.RemoteKind interface nullable) (kind_view b.now) }
{
    match b {
        KindNode::Remote {
            interface: j,
            nullable: m,
        } => is_kept(nullable, *m) && are_namesakes(namesakes, interface, *j),
        _ => false,
    }
}

/// Whether a receiver is fit by this kind.
fn receivers_fit(namesakes: &[Option<u32>], interface: u32, nullable: bool, b: &KindNode) -> bool
    ensures { result ≡ kinds_fit namesakes.now (kinds.ReceiverKind interface nullable) (kind_view b.now) }
{
    match b {
        KindNode::Receiver {
            interface: j,
            nullable: m,
        } => is_kept(nullable, *m) && are_namesakes(namesakes, interface, *j),
        _ => false,
    }
}

/// Whether an associated remote is fit by this kind.
fn associated_remotes_fit(
    namesakes: &[Option<u32>],
    interface: u32,
    nullable: bool,
    b: &KindNode,
) -> bool
    ensures { result ≡ kinds_fit namesakes.now (kinds.AssociatedRemoteKind interface nullable) (kind_view b.now) }
{
    match b {
        KindNode::AssociatedRemote {
            interface: j,
            nullable: m,
        } => is_kept(nullable, *m) && are_namesakes(namesakes, interface, *j),
        _ => false,
    }
}

/// Whether an associated receiver is fit by this kind.
fn associated_receivers_fit(
    namesakes: &[Option<u32>],
    interface: u32,
    nullable: bool,
    b: &KindNode,
) -> bool
    ensures { result ≡ kinds_fit namesakes.now (kinds.AssociatedReceiverKind interface nullable) (kind_view b.now) }
{
    match b {
        KindNode::AssociatedReceiver {
            interface: j,
            nullable: m,
        } => is_kept(nullable, *m) && are_namesakes(namesakes, interface, *j),
        _ => false,
    }
}

/// Whether two kinds fit, the older of which holds no others.
fn flat_fits(namesakes: &[Option<u32>], a: &KindNode, b: &KindNode) -> bool
    ensures { result ≡ flat_fits namesakes.now (kind_view a.now) (kind_view b.now) }
{
    match a {
        KindNode::Bool { nullable: n } => bools_fit(*n, b),
        KindNode::Int {
            width: w,
            signed: s,
            nullable: n,
        } => ints_fit(*w, *s, *n, b),
        KindNode::Enum { nullable: n, .. } => enums_fit(*n, b),
        KindNode::Text { nullable: n } => texts_fit(*n, b),
        KindNode::Handle { sort, nullable } => handles_fit(*sort, *nullable, b),
        KindNode::Struct { nullable: n, .. } => structs_fit(*n, b),
        KindNode::Union { nullable: n, .. } => unions_fit(*n, b),
        KindNode::Remote {
            interface: i,
            nullable: n,
        } => remotes_fit(namesakes, *i, *n, b),
        KindNode::Receiver {
            interface: i,
            nullable: n,
        } => receivers_fit(namesakes, *i, *n, b),
        KindNode::AssociatedRemote {
            interface: i,
            nullable: n,
        } => associated_remotes_fit(namesakes, *i, *n, b),
        KindNode::AssociatedReceiver {
            interface: i,
            nullable: n,
        } => associated_receivers_fit(namesakes, *i, *n, b),
        KindNode::Array { .. } | KindNode::Map { .. } => false,
    }
}

/// Whether two kinds fit.
pub(crate) fn kinds_fit(namesakes: &[Option<u32>], a: &KindNode, b: &KindNode) -> bool
    ensures { result ≡ kinds_fit namesakes.now (kind_view a.now) (kind_view b.now) }
{
    match a {
        KindNode::Array {
            of: k,
            count: c,
            nullable: n,
        } => match b {
            KindNode::Array {
                of: l,
                count: d,
                nullable: m,
            } => is_kept(*n, *m) && (count_fits(*c, *d) && kinds_fit(namesakes, k, l)),
            _ => false,
        },
        KindNode::Map {
            key: k,
            value: v,
            nullable: n,
        } => match b {
            KindNode::Map {
                key: l,
                value: u,
                nullable: m,
            } => is_kept(*n, *m) && (kinds_fit(namesakes, k, l) && kinds_fit(namesakes, v, u)),
            _ => false,
        },
        _ => flat_fits(namesakes, a, b),
    }
}

/// Adds the rows that two kinds name where they stand opposite each other.
pub(crate) fn push_named(out: &mut Vec<Pair>, a: &KindNode, b: &KindNode) -> Result<(), AllocError>
    ensures { OnOk result (out.new.items ≡ out.old.items ++ named_in (kind_view a.now) (kind_view b.now)) }
{
    match (a, b) {
        (KindNode::Enum { number: i, .. }, KindNode::Enum { number: j, .. }) => {
            push(out, Pair::Enums(*i, *j))
        }
        (KindNode::Array { of: k, .. }, KindNode::Array { of: l, .. }) => push_named(out, k, l),
        (
            KindNode::Map {
                key: k,
                value: v,
                ..
            },
            KindNode::Map {
                key: l,
                value: u,
                ..
            },
        ) => {
            push_named(out, k, l)?;
            push_named(out, v, u)
        }
        (KindNode::Struct { number: i, .. }, KindNode::Struct { number: j, .. }) => {
            push(out, Pair::Structs(*i, *j))
        }
        (KindNode::Union { number: i, .. }, KindNode::Union { number: j, .. }) => {
            push(out, Pair::Unions(*i, *j))
        }
        _ => Ok(()),
    }
}

/// Adds a pair.
pub(crate) fn push(out: &mut Vec<Pair>, pair: Pair) -> Result<(), AllocError>
    ensures { OnOk result (out.new.items ≡ out.old.items ++ (pair ∷ [])) }
{
    out.push(pair)?;
    Ok(())
}
