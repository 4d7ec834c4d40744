//! The look-up of a name.

ghost use Rattle.std.specs.Prelude.{◌≡◌, ◌<◌, ◌≤◌, ◌+◌, ◌^◌, ℕ, [], length, get_or, Some, None, IfSome, option_and_then};
ghost use Rattle.std.specs.Option.{option_or, unwrap_or};
ghost use Rattle.mojom_files.specs.Refusals.{first_of};
ghost use Rattle.import_order.specs.Imports.{has};
ghost use Rattle.module_resolver.specs.LookUp.{candidates};
ghost use Rattle.module_resolver.specs.NameDots.{dots_in, IsBetween};
ghost use Rattle.module_resolver.specs.Seats.{owner, HaveDots, node_of, held, AreNodes};
ghost use Rattle.module_resolver.specs.steps.Held.{owner_below};

use crate::dots::dots_in;
use crate::file_names::FileNames;
use crate::fronts::Fronts;
use crate::lengths::limit_of;
use crate::name_index::NameIndex;
use crate::prefixes::behind_dot;
use crate::target::Target;
use mj_base::Text;

/// The node of a full name, looked for from the node of another on where the name begins with that one.
fn node_from(index: &NameIndex, around: &str, node: u32, name: &str) -> Option<u32>
    requires { node_of index.now 0 around.now ≡ Some node }
    ensures { result ≡ node_of index.now 0 name.now }
{
    match behind_dot(around, name) {
        Some(rest) => index.below(node, rest),
        None => index.below(0, name),
    }
}

/// The node of a full name, in a file where these are the nodes of the fronts of its module: the name of
/// the module is not walked through again.
fn node_in(index: &NameIndex, fronts: &Fronts, nodes: &[u32], name: &str) -> Option<u32>
    requires { AreNodes index.now fronts.now nodes.now }
    ensures { result ≡ node_of index.now 0 name.now }
{
    if fronts.len() == 0 {
        return index.below(0, name);
    }
    node_from(index, fronts.at(0), nodes[0], name)
}

/// The node of the full name around something, where there is one, in a file where these are the nodes of the
/// fronts of its module.
pub(crate) fn node_around(
    index: &NameIndex,
    fronts: &Fronts,
    nodes: &[u32],
    enclosing: &Option<Text>,
) -> Option<u32>
    requires { AreNodes index.now fronts.now nodes.now }
    ensures { result ≡ option_and_then (node_of index.now 0) enclosing.now }
{
    match enclosing {
        Some(outer) => node_in(index, fronts, nodes, outer.as_str()),
        None => None,
    }
}

/// What has a name below a node in the files that are seen; nothing where there is no node.
fn meant_within(
    index: &NameIndex,
    here: &FileNames,
    node: Option<u32>,
    name: &str,
) -> Option<Target>
    ensures { result ≡ option_and_then (λ n. owner_below index.now (has here.now.seen) n name.now) node }
{
    match node {
        Some(node) => index.meant(&here.seen, node, name),
        None => None,
    }
}

/// The number of the first front, from this number on, in which a name of so many dots may have as many as
/// a full name; none where it has so many in none.
fn next_front(dots: &[usize], fronts: &Fronts, number: usize, name: usize) -> Option<usize>
    ensures next { IfSome result (λ next. (number ≤ next) × (next < length fronts.now) × (next + 1 < 2 ^ 64)) }
    ensures skipped { (k : ℕ) → number ≤ k → k < unwrap_or result (length fronts.now)
        → IsBetween dots.now (dots_in (get_or fronts.now k []) + name + 1) }
{
    if fronts.len() <= number {
        return None;
    }
    let limit = limit_of(dots, fronts.dots_at(number), name)?;
    let next = fronts.first_within(number, limit);
    if next < fronts.len() {
        Some(next)
    } else {
        None
    }
}

/// What a name means in a module, where these are the nodes of its fronts, and else by itself.
fn meant_in_fronts(
    index: &NameIndex,
    dots: &[usize],
    nodes: &[u32],
    here: &FileNames,
    name: &str,
) -> Option<Target>
    requires dots { HaveDots dots.now (held index.now) }
    requires nodes { AreNodes index.now here.now.fronts nodes.now }
    ensures { result ≡ first_of (owner (held index.now) (has here.now.seen)) (candidates None here.now.fronts name.now) }
{
    let seen = &here.seen;
    let count = dots_in(name);
    let mut number = 0;
    while let Some(next) = next_front(dots, &here.fronts, number, count) {
        let found = index.meant(seen, nodes[next], name);
        if found.is_some() {
            return found;
        }
        number = next + 1;
    }
    index.meant(seen, 0, name)
}

/// What a name means in a file, where these are the nodes of the fronts of its module, and this is that of the
/// full name around the name.
pub(crate) fn look_up_from(
    index: &NameIndex,
    dots: &[usize],
    nodes: &[u32],
    here: &FileNames,
    node: Option<u32>,
    name: &str,
) -> Option<Target>
    requires dots { HaveDots dots.now (held index.now) }
    requires nodes { AreNodes index.now here.now.fronts nodes.now }
    ensures { result ≡ option_or (option_and_then (λ n. owner_below index.now (has here.now.seen) n name.now) node)
        (first_of (owner (held index.now) (has here.now.seen)) (candidates None here.now.fronts name.now)) }
{
    let found = meant_within(index, here, node, name);
    if found.is_some() {
        return found;
    }
    meant_in_fronts(index, dots, nodes, here, name)
}
