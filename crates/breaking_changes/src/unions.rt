//! What a newer union changes of an older one.

ghost use Rattle.std.specs.Prelude.{◌≡◌, ◌++◌, map, IfOk, OnOk};
ghost use Rattle.std.specs.List.{flat_map};
ghost use Rattle.mj_schema.specs.declared.rows.UnionFieldRow.{UnionFieldRow as field_row};
ghost use Rattle.compat_model.specs.Changes.{tag_gone, tag_changed, union_change};
ghost use Rattle.compat_model.specs.Members.{first_found, tags_of};
ghost use Rattle.compat_model.specs.Pairs.{tag_pairs, union_pairs};

use crate::fields::unless;
use crate::kinds::{is_kept, kinds_fit, push_named};
use crate::rising::rising;
use compat_model::{Change, Pair};
use mj_schema::{UnionFieldRow, UnionRow};
use schema_rows::kind_under;
use std::alloc::{AllocError, Global};

/// The tags of fields, as the file has them.
fn tags_in(alloc: Global, fields: &[UnionFieldRow]) -> Result<Vec<u32>, AllocError>
    ensures { IfOk result (λ made. made.items ≡ map (λ (field : field_row). field.tag) fields.now) }
{
    let mut made = Vec::new(alloc);
    for field in fields {
        made.push(field.tag)?;
    }
    Ok(made)
}

/// The tags of fields as they rise.
fn tags_of(alloc: Global, fields: &[UnionFieldRow]) -> Result<Vec<u32>, AllocError>
    ensures { IfOk result (λ made. made.items ≡ tags_of fields.now) }
{
    let tags = tags_in(alloc, fields)?;
    let made = rising(alloc, tags.as_slice())?;
    Ok(made)
}

/// Whether the newer union lacks a tag.
fn tag_gone(newer: &UnionRow, tag: u32) -> Option<Change>
    ensures { result ≡ tag_gone newer.now.fields tag }
{
    match kind_under(newer, tag) {
        Some(_) => None,
        None => Some(Change::TagGone(tag)),
    }
}

/// Whether what the two unions hold under a tag doesn't fit.
fn tag_changed(
    namesakes: &[Option<u32>],
    older: &UnionRow,
    newer: &UnionRow,
    tag: u32,
) -> Option<Change>
    ensures { result ≡ tag_changed namesakes.now older.now.fields newer.now.fields tag }
{
    let a = kind_under(older, tag)?;
    let b = kind_under(newer, tag)?;
    unless(
        kinds_fit(namesakes, a.node(), b.node()),
        Change::KindChanged(tag),
    )
}

/// The first tag that the newer union lacks.
fn first_gone(newer: &UnionRow, tags: &[u32]) -> Option<Change>
    ensures { result ≡ first_found (tag_gone newer.now.fields) tags.now }
{
    for tag in tags {
        if let Some(change) = tag_gone(newer, *tag) {
            return Some(change);
        }
    }
    None
}

/// The first tag under which what the two unions hold doesn't fit.
fn first_changed(
    namesakes: &[Option<u32>],
    older: &UnionRow,
    newer: &UnionRow,
    tags: &[u32],
) -> Option<Change>
    ensures { result ≡ first_found (tag_changed namesakes.now older.now.fields newer.now.fields) tags.now }
{
    for tag in tags {
        if let Some(change) = tag_changed(namesakes, older, newer, *tag) {
            return Some(change);
        }
    }
    None
}

/// What breaks two unions.
pub(crate) fn union_change(
    alloc: Global,
    namesakes: &[Option<u32>],
    a: &UnionRow,
    b: &UnionRow,
) -> Result<Option<Change>, AllocError>
    ensures { IfOk result (λ change. change ≡ union_change namesakes.now a.now b.now) }
{
    let tags = tags_of(alloc, a.fields.as_slice())?;
    let closed = unless(is_kept(a.extensible, b.extensible), Change::ExtensibleGone);
    let gone = first_gone(b, tags.as_slice());
    let changed = first_changed(namesakes, a, b, tags.as_slice());
    Ok(closed.or(gone).or(changed))
}

/// Adds the pairs that follow from a tag.
fn push_tag(
    out: &mut Vec<Pair>,
    older: &UnionRow,
    newer: &UnionRow,
    tag: u32,
) -> Result<(), AllocError>
    ensures { OnOk result (out.new.items ≡ out.old.items ++ tag_pairs older.now.fields newer.now.fields tag) }
{
    let Some(a) = kind_under(older, tag) else {
        return Ok(());
    };
    let Some(b) = kind_under(newer, tag) else {
        return Ok(());
    };
    push_named(out, a.node(), b.node())
}

/// Adds the pairs that follow from tags.
fn push_each(
    out: &mut Vec<Pair>,
    older: &UnionRow,
    newer: &UnionRow,
    tags: &[u32],
) -> Result<(), AllocError>
    ensures { OnOk result (out.new.items ≡ out.old.items ++ flat_map (tag_pairs older.now.fields newer.now.fields) tags.now) }
{
    for tag in tags {
        push_tag(out, older, newer, *tag)?;
    }
    Ok(())
}

/// Adds the pairs that follow from two unions.
pub(crate) fn push_tags(
    alloc: Global,
    out: &mut Vec<Pair>,
    a: &UnionRow,
    b: &UnionRow,
) -> Result<(), AllocError>
    ensures { OnOk result (out.new.items ≡ out.old.items ++ union_pairs a.now b.now) }
{
    let tags = tags_of(alloc, a.fields.as_slice())?;
    push_each(out, a, b, tags.as_slice())
}
