//! Where keys and headers put what they define.

ghost use Rattle.std.specs.Prelude.{◌≡◌, Some, string_bytes};
ghost use Rattle.toml.specs.Tables.{dotted};
ghost use Rattle.toml_spans.specs.EntryViews.{branches_of, origin_of, piece_of, tree_of};
ghost use Rattle.toml_spans.specs.Entry as trees;
ghost use Rattle.toml_spans.specs.KeyViews.{part_of, parts_of, path_of};
ghost use Rattle.toml_spans.specs.Refusal.{Gives};
ghost use Rattle.toml_spans.specs.Table as spec;
ghost use Rattle.toml_spans.specs.TableViews.{definition_of, Grows};

use crate::entry::{Entry, Members, Origin, Piece};
use crate::key::{KeyParts, Part};
use crate::refusal::Refusal;
use std::alloc::Global;
use std::collections::BTreeMap;
use std::mem;

/// What stands with a key on a line: a value, the brackets of a table's header, or the double
/// brackets of that of an element.
#[derive(Drop)]
pub(crate) enum Definition {
    Pair(Entry),
    Table,
    Element,
}

/// Follows a path, then dots as a dotted key does, and defines the last part there. A path makes
/// the tables that are missing, by a header on its way or by a dotted key.
#[cycle(along)]
pub(crate) fn along(
    alloc: Global,
    members: &mut Members,
    by: Origin,
    path: &[Part],
    dots: &[Part],
    last: Part,
    what: Definition,
) -> Result<(), Refusal>
    ensures { Grows members.old members.new result (spec.along (origin_of by) (path_of path.now)
        (spec.along dotted (path_of dots.now)
        (spec.at_part (part_of last) (definition_of what)))) }
{
    let [part, rest @ ..] = path else {
        return along_dots(alloc, members, dots, last, what);
    };
    match members.get_mut(part.text.as_str()) {
        Some(slot) => {
            let entry = take(slot);
            *slot = through(alloc, entry, by, rest, dots, last, what)?;
            Ok(())
        }
        None => {
            let mut inner = BTreeMap::new(alloc);
            along(alloc, &mut inner, by, rest, dots, last, what)?;
            let table = Entry::Table(part.piece, by, inner);
            insert(members, part.text.clone()?, table)
        }
    }
}

// Follows dots, if there are any, and defines the last part there.
#[cycle(along)]
fn along_dots(
    alloc: Global,
    members: &mut Members,
    dots: &[Part],
    last: Part,
    what: Definition,
) -> Result<(), Refusal>
    ensures { Grows members.old members.new result (spec.along dotted (path_of dots.now)
        (spec.at_part (part_of last) (definition_of what))) }
{
    if dots.is_empty() {
        at_part(alloc, members, last, what)
    } else {
        along(alloc, members, Origin::Dotted, dots, &[], last, what)
    }
}

// A key goes through a table, or into the last element of an array of tables.
#[cycle(along)]
fn through(
    alloc: Global,
    entry: Entry,
    by: Origin,
    path: &[Part],
    dots: &[Part],
    last: Part,
    what: Definition,
) -> Result<Entry, Refusal>
    ensures { Gives tree_of result (spec.through (origin_of by)
        (spec.along (origin_of by) (path_of path.now) (spec.along dotted (path_of dots.now)
        (spec.at_part (part_of last) (definition_of what)))) (tree_of entry)) }
{
    match entry {
        Entry::Table(key, origin, mut inner) => {
            let origin = passed(by, origin)?;
            along(alloc, &mut inner, by, path, dots, last, what)?;
            Ok(Entry::Table(key, origin, inner))
        }
        Entry::Tables(key, done, element, mut inner) => {
            passed(by, Origin::Header)?;
            along(alloc, &mut inner, by, path, dots, last, what)?;
            Ok(Entry::Tables(key, done, element, inner))
        }
        _ => Err(Refusal::NoDocument),
    }
}

// What a table counts as made by once a key passed it. A dotted key goes through none that a header
// defined.
fn passed(by: Origin, origin: Origin) -> Result<Origin, Refusal>
    ensures { Gives origin_of result (spec.passed (origin_of by) (origin_of origin)) }
{
    match (by, origin) {
        (Origin::Dotted, Origin::Header) => Err(Refusal::NoDocument),
        (Origin::Dotted, _) => Ok(Origin::Dotted),
        _ => Ok(origin),
    }
}

/// A pair of an inline table.
pub(crate) fn put(
    alloc: Global,
    members: &mut Members,
    key: KeyParts,
    value: Entry,
) -> Result<(), Refusal>
    ensures { Grows members.old members.new result (spec.put (parts_of key) (tree_of value)) }
{
    let KeyParts { path, last } = key;
    along_dots(alloc, members, &path, last, Definition::Pair(value))
}

// Defines the last part of a key.
fn at_part(
    alloc: Global,
    members: &mut Members,
    last: Part,
    what: Definition,
) -> Result<(), Refusal>
    ensures { Grows members.old members.new result
        (spec.at_part (part_of last) (definition_of what)) }
{
    let Part { text, piece } = last;
    match members.get_mut(text.as_str()) {
        Some(slot) => {
            let entry = take(slot);
            *slot = redefined(alloc, piece, what, entry)?;
            Ok(())
        }
        None => insert(members, text, new_entry(alloc, piece, what)),
    }
}

// A key is defined once. But a header may name a table that other headers only passed through, and
// one in double brackets adds an element to an array of tables.
fn redefined(alloc: Global, key: Piece, what: Definition, entry: Entry) -> Result<Entry, Refusal>
    ensures { Gives tree_of result
        (spec.redefined (piece_of key) (definition_of what) (tree_of entry)) }
{
    match (what, entry) {
        (Definition::Table, Entry::Table(first, Origin::Implicit, members)) => {
            Ok(Entry::Table(first, Origin::Header, members))
        }
        (Definition::Element, Entry::Tables(first, mut done, last, members)) => {
            done.push(Entry::Table(last, Origin::Header, members))?;
            Ok(Entry::Tables(first, done, key, BTreeMap::new(alloc)))
        }
        _ => Err(Refusal::NoDocument),
    }
}

// What a part of a key holds that wasn't there.
fn new_entry(alloc: Global, key: Piece, what: Definition) -> Entry
    ensures { tree_of result ≡ spec.new_tree (piece_of key) (definition_of what) }
{
    match what {
        Definition::Pair(value) => value.behind(key),
        Definition::Table => Entry::Table(key, Origin::Header, BTreeMap::new(alloc)),
        Definition::Element => { Entry::Tables(key, Vec::new(alloc), key, BTreeMap::new(alloc)) }
    }
}

// Moves the entry out, to be changed and put back.
fn take(entry: &mut Entry) -> Entry
    ensures { result ≡ entry.old }
{
    mem::replace(entry, Entry::Scalar(None, Piece { from: 0, to: 0 }))
}

// An entry at a key that wasn't there.
fn insert(members: &mut Members, key: String, entry: Entry) -> Result<(), Refusal>
    ensures { Grows members.old members.new result
        (λ bs. Some (trees.insert_branch (string_bytes key) (tree_of entry) bs)) }
{
    members.insert(key, entry)?;
    Ok(())
}
