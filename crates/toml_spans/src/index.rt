//! Where the keys and the values of a document stand.

ghost use Rattle.std.specs.Prelude.{◌≡◌, ℕ, IfOk, List, MatchOption, None, map, option_and_then, option_map};
ghost use Rattle.toml.specs.Tables.{header};
ghost use Rattle.toml.specs.Parse.{parse_document};
ghost use Rattle.toml_spans.specs.Entry as trees;
ghost use Rattle.toml_spans.specs.EntryViews.{branches_of, piece_of, tree_of, trees_from};
ghost use Rattle.toml_spans.specs.Index.{IfIndexed, IsIndexOf, IsSpanOf, OfDocument, ranges_in};
ghost use Rattle.toml_spans.specs.IndexViews.{pieces_from};
ghost use Rattle.toml_spans.specs.Place.{IsSpan};
ghost use Rattle.toml_spans.specs.Ranges.{AreApartOrNested, AreWritten, ElementsStand, EmptyArraysEnd, HaveEntries, HaveKeys, KeysComeFirst, KeysRead, LieWithinValues, MembersStand, StandInTurn, ValuesRead};
ghost use Rattle.toml_spans.specs.Step.{step_of};

use crate::document::walk_over;
use crate::entry::{Entry, Members, Piece};
use crate::place::{Places, Span};
use crate::refusal::Refusal;
use crate::step::Step;
use std::alloc::{AllocError, Global};
use std::ops::Range;

/// Where the keys and the values of a document stand.
#[derive(Debug, Drop)]
pub struct Index {
    root: Members,
    places: Places,
}

/// The pieces of what a path leads to: that of its key and that of its value, where it has one.
#[derive(Clone, Copy)]
struct Pieces {
    key: Option<Piece>,
    value: Option<Piece>,
}

impl Index {
    /// The index of a text. `None` where it is no TOML document.
    pub fn of(alloc: Global, contents: &str) -> Result<Option<Index>, AllocError>
        ensures of_text { IfOk result (λ index. MatchOption index
            (parse_document contents.now ≡ None) (IsIndexOf contents.now)) }
        ensures entries { IfIndexed result (λ ranges. OfDocument contents.now
            (λ members. HaveEntries members ranges)) }
        ensures keys { IfIndexed result HaveKeys }
        ensures keys_read { IfIndexed result (KeysRead contents.now) }
        ensures values { IfIndexed result (AreWritten contents.now) }
        ensures values_read { IfIndexed result (λ ranges. OfDocument contents.now
            (λ members. ValuesRead contents.now members ranges)) }
        ensures keys_first { IfIndexed result KeysComeFirst }
        ensures within_values { IfIndexed result LieWithinValues }
        ensures elements { IfIndexed result (ElementsStand contents.now) }
        ensures empty_arrays { IfIndexed result (EmptyArraysEnd contents.now) }
        ensures members { IfIndexed result (MembersStand contents.now) }
        ensures in_turn { IfIndexed result StandInTurn }
        ensures nested { IfIndexed result AreApartOrNested }
    {
        match walk_over(alloc, contents) {
            Ok(root) => {
                let places = Places::of(alloc, contents)?;
                Ok(Some(Index { root, places }))
            }
            Err(Refusal::NoDocument) => Ok(None),
            Err(Refusal::Memory) => Err(AllocError),
        }
    }

    /// Where the key stands that is a path's last step, as it is written. For an element that
    /// double brackets made, that is the last part of its own header. `None` where the path leads
    /// to no value, or to one that has no key.
    pub fn key(&self, path: &[Step]) -> Option<Span>
        ensures { (text : List ℕ) → IsIndexOf text self.now
            → IsSpanOf text ((ranges_in self.now).of_key (map step_of path.now)) result }
    {
        match pieces_at(&self.root, path) {
            Some(pieces) => self.places.span(pieces.key),
            None => None,
        }
    }

    /// Where the value stands that a path leads to. `None` where it leads to none, or to one that
    /// isn't written as a value: a table or an array that headers or dotted keys made.
    pub fn value(&self, path: &[Step]) -> Option<Span>
        ensures { (text : List ℕ) → IsIndexOf text self.now
            → IsSpanOf text ((ranges_in self.now).of_value (map step_of path.now)) result }
    {
        match pieces_at(&self.root, path) {
            Some(pieces) => self.places.span(pieces.value),
            None => None,
        }
    }

    /// Which bytes of the text are the value that a path leads to, as it is written. `None` where
    /// [`Index::value`] has none.
    pub fn value_bytes(&self, path: &[Step]) -> Option<Range<usize>>
        ensures { option_map (λ bytes. (bytes.start, bytes.end)) result
            ≡ (ranges_in self.now).of_value (map step_of path.now) }
    {
        let piece = pieces_at(&self.root, path)?.value?;
        Some(self.places.bytes(piece))
    }

    /// The places of so many bytes of the text.
    pub fn span(&self, bytes: Range<usize>) -> Span
        ensures { (text : List ℕ) → IsIndexOf text self.now
            → IsSpan text bytes.start bytes.end result }
    {
        Span {
            begin: self.places.at(bytes.start),
            end: self.places.at(bytes.end),
        }
    }
}

// The pieces of what a path leads to.
fn pieces_at(members: &Members, path: &[Step]) -> Option<Pieces>
    ensures { option_map pieces_from result
        ≡ option_map trees.pieces_of
        (trees.tree_at (branches_of members.now) (map step_of path.now)) }
{
    match path {
        [Step::Key(key), rest @ ..] => pieces_at_key(members, key.as_str(), rest),
        _ => None,
    }
}

// The pieces of what steps lead to from the value at a key.
#[cycle(pieces_below)]
fn pieces_at_key(members: &Members, key: &str, rest: &[Step]) -> Option<Pieces>
    ensures { option_map pieces_from result ≡ option_map trees.pieces_of
        (option_and_then (trees.tree_below (map step_of rest.now))
        (trees.get_branch key.now (branches_of members.now))) }
{
    match members.get(key) {
        Some(entry) => pieces_below(entry, rest),
        None => None,
    }
}

// The pieces of what steps lead to from an entry.
#[cycle(pieces_below)]
fn pieces_below(entry: &Entry, steps: &[Step]) -> Option<Pieces>
    ensures { option_map pieces_from result ≡ option_map trees.pieces_of
        (trees.tree_below (map step_of steps.now) (tree_of entry.now)) }
{
    let [step, rest @ ..] = steps else {
        return Some(pieces_of(entry));
    };
    match (entry, step) {
        (Entry::Inline(_, _, members), Step::Key(key)) => pieces_at_key(
            members,
            key.as_str(),
            rest,
        ),
        (Entry::Table(_, _, members), Step::Key(key)) => pieces_at_key(members, key.as_str(), rest),
        (Entry::Array(_, _, elements), Step::Index(index)) => pieces_at_index(
            elements, *index, rest,
        ),
        (Entry::Tables(_, done, last, members), Step::Index(index)) => {
            if *index == done.len() {
                pieces_of_table(*last, members, rest)
            } else {
                pieces_at_index(done, *index, rest)
            }
        }
        _ => None,
    }
}

// The pieces of what steps lead to from the element at an index.
#[cycle(pieces_below)]
fn pieces_at_index(elements: &[Entry], index: usize, rest: &[Step]) -> Option<Pieces>
    ensures { option_map pieces_from result ≡ option_map trees.pieces_of
        (option_and_then (trees.tree_below (map step_of rest.now))
        (trees.get_tree index (trees_from (map tree_of elements.now)))) }
{
    if index < elements.len() {
        pieces_below(&elements[index], rest)
    } else {
        None
    }
}

// The pieces of what steps lead to from a table that a header made.
#[cycle(pieces_below)]
fn pieces_of_table(key: Piece, members: &Members, steps: &[Step]) -> Option<Pieces>
    ensures { option_map pieces_from result ≡ option_map trees.pieces_of
        (trees.tree_below (map step_of steps.now)
        (trees.table (piece_of key) header (branches_of members.now))) }
{
    match steps {
        [] => Some(Pieces {
            key: Some(key),
            value: None,
        }),
        [Step::Key(name), rest @ ..] => pieces_at_key(members, name.as_str(), rest),
        _ => None,
    }
}

fn pieces_of(entry: &Entry) -> Pieces
    ensures { pieces_from result ≡ trees.pieces_of (tree_of entry.now) }
{
    match entry {
        Entry::Scalar(key, value) => Pieces {
            key: *key,
            value: Some(*value),
        },
        Entry::Array(key, value, _) => Pieces {
            key: *key,
            value: Some(*value),
        },
        Entry::Inline(key, value, _) => Pieces {
            key: *key,
            value: Some(*value),
        },
        Entry::Table(key, _, _) => Pieces {
            key: Some(*key),
            value: None,
        },
        Entry::Tables(key, _, _, _) => Pieces {
            key: Some(*key),
            value: None,
        },
    }
}
