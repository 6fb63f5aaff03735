//! What stands at the keys and the indexes of a document, and where.

ghost use Rattle.std.specs.Prelude.{◌≡◌};
ghost use Rattle.toml_spans.specs.Entry.{after_key, piece};
ghost use Rattle.toml_spans.specs.EntryViews.{piece_of, tree_of};

use std::collections::BTreeMap;

/// A piece of a text: how many bytes stand from its beginning on, and how many after its end.
#[derive(Clone, Copy, Debug, PartialEq, Eq)]
pub(crate) struct Piece {
    pub(crate) from: usize,
    pub(crate) to: usize,
}

impl Piece {
    /// What was read from the front of a text, which left this rest.
    pub(crate) fn between(text: &str, rest: &str) -> Piece
        ensures { piece_of result ≡ piece text.now rest.now }
    {
        Piece {
            from: text.len(),
            to: rest.len(),
        }
    }
}

/// What made a table: a header that passed through it, a dotted key, or its own header.
#[derive(Clone, Copy, Debug, PartialEq, Eq)]
pub(crate) enum Origin {
    Implicit,
    Dotted,
    Header,
}

/// What stands at a key or at an index. What is written as a value has the piece of its key, where
/// it has one, and its own; what headers and dotted keys make has the piece of the key that made
/// it.
#[derive(Debug, Drop)]
pub(crate) enum Entry {
    Scalar(Option<Piece>, Piece),
    Array(Option<Piece>, Piece, Vec<Entry>),
    Inline(Option<Piece>, Piece, Members),
    Table(Piece, Origin, Members),
    /// An array of tables, with its last element apart, since only that one can grow.
    Tables(Piece, Vec<Entry>, Piece, Members),
}

/// What stands at the keys of a table.
pub(crate) type Members = BTreeMap<String, Entry>;

impl Entry {
    /// A value that was read, after this key.
    pub(crate) fn behind(self, key: Piece) -> Entry
        ensures { tree_of result ≡ after_key (piece_of key) (tree_of self) }
    {
        match self {
            Entry::Scalar(_, value) => Entry::Scalar(Some(key), value),
            Entry::Array(_, value, elements) => Entry::Array(Some(key), value, elements),
            Entry::Inline(_, value, members) => Entry::Inline(Some(key), value, members),
            Entry::Table(_, origin, members) => Entry::Table(key, origin, members),
            Entry::Tables(_, done, last, members) => Entry::Tables(key, done, last, members),
        }
    }
}
