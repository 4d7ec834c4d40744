//! The names that the lines of a script set, by their numbers.

ghost use Rattle.std.specs.Prelude.{◌≡◌, IfOk, IfSome, IfNone, MatchOption, ◌∷◌, [], map, true};
ghost use Rattle.std.specs.String.{string_bytes};
ghost use Rattle.script_words.specs.Letters.{own_word, is_name, are_names, is_method_word};
ghost use Rattle.call_script.specs.steps.Names.{IsTable, Adds, AddsOwn, Spares, HasAt, HasNone, FindsAt, FindsNone};

use crate::script::NameId;
use indexmap::IndexMap;
use std::alloc::{AllocError, Global};

/// Names by their numbers, from 0.
#[derive(Drop)]
pub(crate) struct NameTable {
    pub numbers: IndexMap<String, usize>,
}

/// A table of no names.
pub(crate) fn no_names(alloc: Global) -> NameTable
    ensures { IsTable result [] }
{
    NameTable {
        numbers: IndexMap::new(alloc),
    }
}

/// Adds a name; false where it stands there already.
fn add(alloc: Global, table: &mut NameTable, name: &str) -> Result<bool, AllocError>
    ensures { IfOk result (λ added. Adds table.old table.new (name.now ∷ []) added) }
{
    if let Some(_number) = table.numbers.get(name) {
        return Ok(false);
    }
    let number = table.numbers.len();
    table
        .numbers
        .insert(String::from_str(alloc, name)?, number)?;
    Ok(true)
}

/// The text of a name.
fn text_of(name: &[u8]) -> &str
    requires { is_name name.now ≡ true }
    ensures { result.now ≡ name.now }
{
    match str::from_utf8(name) {
        Ok(text) => text,
        Err(_) => unreachable!(),
    }
}

/// The word of what is a sequence's own, as `0:x`.
fn own_word(alloc: Global, seq: u32, word: &str) -> Result<String, AllocError>
    ensures { IfOk result (λ text. string_bytes text ≡ own_word seq word.now) }
{
    format!(in alloc; "{seq}:{word}")
}

/// Adds names, in order; false where one of them stands there already.
pub(crate) fn add_all(
    alloc: Global,
    table: &mut NameTable,
    names: &[&[u8]],
) -> Result<bool, AllocError>
    requires { are_names (map (λ name. name.now) names.now) ≡ true }
    ensures { IfOk result (λ added. Adds table.old table.new (map (λ name. name.now) names.now) added) }
{
    for name in names {
        if !add(alloc, table, text_of(name))? {
            return Ok(false);
        }
    }
    Ok(true)
}

/// Whether none of these stands there as it is written.
fn are_free(table: &NameTable, names: &[&[u8]]) -> bool
    requires { are_names (map (λ name. name.now) names.now) ≡ true }
    ensures { Spares table.now (map (λ name. name.now) names.now) result }
{
    for name in names {
        if let Some(_number) = table.numbers.get(text_of(name)) {
            return false;
        }
    }
    true
}

/// Adds names with a sequence before them, in order; false where one of them stands there already.
fn add_with(
    alloc: Global,
    table: &mut NameTable,
    seq: u32,
    names: &[&[u8]],
) -> Result<bool, AllocError>
    requires { are_names (map (λ name. name.now) names.now) ≡ true }
    ensures { IfOk result (λ added. Adds table.old table.new (map (own_word seq) (map (λ name. name.now) names.now)) added) }
{
    for name in names {
        let own = own_word(alloc, seq, text_of(name))?;
        if !add(alloc, table, own.as_str())? {
            return Ok(false);
        }
    }
    Ok(true)
}

/// Adds names of a sequence's own, in order; false where a join or the sequence has set one of them.
pub(crate) fn add_own(
    alloc: Global,
    table: &mut NameTable,
    seq: u32,
    names: &[&[u8]],
) -> Result<bool, AllocError>
    requires { are_names (map (λ name. name.now) names.now) ≡ true }
    ensures { IfOk result (λ added. AddsOwn table.old table.new seq (map (λ name. name.now) names.now) added) }
{
    if !are_free(table, names) {
        return Ok(false);
    }
    add_with(alloc, table, seq, names)
}

/// Adds the word of a method with a sequence before it; false where it stands there already.
pub(crate) fn add_method(
    alloc: Global,
    table: &mut NameTable,
    seq: u32,
    method: &[u8],
) -> Result<bool, AllocError>
    requires { is_method_word method.now ≡ true }
    ensures { IfOk result (λ added. Adds table.old table.new (own_word seq method.now ∷ []) added) }
{
    match str::from_utf8(method) {
        Ok(text) => {
            let own = own_word(alloc, seq, text)?;
            add(alloc, table, own.as_str())
        }
        Err(_) => unreachable!(),
    }
}

/// The number of a text among the first so many; none where it isn't there.
fn find(table: &NameTable, count: usize, text: &str) -> Option<NameId>
    ensures found { IfSome result (HasAt table.now count text.now) }
    ensures none { IfNone result (HasNone table.now count text.now) }
{
    let Some(number) = table.numbers.get(text) else {
        return None;
    };
    if *number < count {
        Some(NameId(*number))
    } else {
        None
    }
}

/// The names that a line of a sequence may mean: the first so many of a table, behind which its own are
/// set.
#[derive(Clone, Copy)]
pub(crate) struct Scope<'t> {
    pub table: &'t NameTable,
    pub count: usize,
    pub seq: u32,
}

/// The number of what a name means, a join's or else the sequence's own; none where it isn't there.
pub(crate) fn find_name(
    alloc: Global,
    scope: &Scope,
    name: &[u8],
) -> Result<Option<NameId>, AllocError>
    requires { is_name name.now ≡ true }
    ensures { IfOk result (λ found. MatchOption found (FindsNone scope.now name.now) (FindsAt scope.now name.now)) }
{
    let text = text_of(name);
    if let Some(id) = find(scope.table, scope.count, text) {
        return Ok(Some(id));
    }
    let own = own_word(alloc, scope.seq, text)?;
    Ok(find(scope.table, scope.count, own.as_str()))
}
