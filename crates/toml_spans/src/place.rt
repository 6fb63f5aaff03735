//! Places of a text: lines and columns.

ghost use Rattle.std.specs.Prelude.{◌≡◌, ◌<◌, ◌^◌, ℕ, count_by, IfOk, length, List, nat_lt};
ghost use Rattle.std.specs.List.Sorted.{IsNonDecreasingBy};
ghost use Rattle.toml_spans.specs.Offsets.{AreOffsets, begins_character};

use crate::entry::Piece;
use std::alloc::{AllocError, Global};
use std::ops::Range;

/// A place of a text: a line and a column, both from 1. A line ends with its line feed, and a
/// column counts characters (Unicode scalar values).
#[derive(Clone, Copy, Debug, PartialEq, Eq, PartialOrd, Ord)]
pub struct Place {
    pub line: usize,
    pub column: usize,
}

/// Where something stands in a text: the place where it begins, and the one right after it.
#[derive(Clone, Copy, Debug, PartialEq, Eq)]
pub struct Span {
    pub begin: Place,
    pub end: Place,
}

/// The places of a text, each found in logarithmic time: how long the text is, where its lines
/// begin, and where bytes stand that begin no character, in ascending order.
#[derive(Debug, Drop)]
pub(crate) struct Places {
    length: usize,
    line_begins: Vec<usize>,
    continuations: Vec<usize>,
    ghost fits: { length < 2 ^ 63 },
    ghost of_some_text: { ∥ AreOffsets length line_begins.items continuations.items ∥₁ },
}

impl Places {
    ghost use Rattle.std.specs.Prelude.{◌-◌, length, option_map, take};
    ghost use Rattle.toml_spans.specs.EntryViews.{piece_of};
    ghost use Rattle.toml_spans.specs.Index.{IsSpanOf};
    ghost use Rattle.toml_spans.specs.Ranges.{range_of};
    ghost use Rattle.std.specs.Str.{IsAscii};
    ghost use Rattle.toml_spans.specs.Place.{ArePlacesOf, IsPlace};

    /// The places of this text.
    pub(crate) fn of(alloc: Global, text: &str) -> Result<Places, AllocError>
        ensures { IfOk result (ArePlacesOf text.now) }
    {
        if text.is_ascii() {
            Places::of_ascii(alloc, text)
        } else {
            Places::of_any(alloc, text)
        }
    }

    // The places of a text in which each byte begins a character.
    fn of_ascii(alloc: Global, text: &str) -> Result<Places, AllocError>
        requires { IsAscii text.now }
        ensures { IfOk result (ArePlacesOf text.now) }
    {
        let mut line_begins = Vec::new(alloc);
        line_begins.push(0)?;
        for (offset, byte) in text.as_bytes().iter().enumerate() {
            if *byte == b'\n' {
                line_begins.push(offset + 1)?;
            }
        }
        Ok(Places {
            length: text.len(),
            line_begins,
            continuations: Vec::new(alloc),
        })
    }

    // The places of any text.
    fn of_any(alloc: Global, text: &str) -> Result<Places, AllocError>
        ensures { IfOk result (ArePlacesOf text.now) }
    {
        let mut line_begins = Vec::new(alloc);
        let mut continuations = Vec::new(alloc);
        line_begins.push(0)?;
        for (offset, byte) in text.as_bytes().iter().enumerate() {
            if *byte == b'\n' {
                line_begins.push(offset + 1)?;
            } else if !begins_character(*byte) {
                continuations.push(offset)?;
            }
        }
        Ok(Places {
            length: text.len(),
            line_begins,
            continuations,
        })
    }

    /// The place of the byte at this offset; after the end of the text, that of the end.
    pub(crate) fn at(&self, offset: usize) -> Place
        ensures { (text : List ℕ) → ArePlacesOf text self.now → IsPlace (take offset text) result }
    {
        let offset = offset.min(self.length);
        let lines = count_before(&self.line_begins, offset + 1);
        let begin = self.line_begins[lines - 1];
        let all = count_before(&self.continuations, offset);
        let before = count_before(&self.continuations, begin);
        Place {
            line: lines,
            column: offset - begin - (all - before) + 1,
        }
    }

    /// The place after which so many bytes come.
    pub(crate) fn before(&self, bytes: usize) -> Place
        ensures { (text : List ℕ) → ArePlacesOf text self.now
            → IsPlace (take (length text - bytes) text) result }
    {
        self.at(self.length.saturating_sub(bytes))
    }

    /// The bytes of a piece, counted from the beginning.
    pub(crate) fn bytes(&self, piece: Piece) -> Range<usize>
        ensures { (result.start, result.end) ≡ range_of self.now.length (piece_of piece) }
    {
        let begin = self.length.saturating_sub(piece.from);
        let end = self.length.saturating_sub(piece.to);
        begin..end
    }

    /// The places of a piece.
    pub(crate) fn span(&self, piece: Option<Piece>) -> Option<Span>
        ensures { (text : List ℕ) → ArePlacesOf text self.now → IsSpanOf text
            (option_map (λ p. range_of (length text) (piece_of p)) piece) result }
    {
        match piece {
            Some(piece) => Some(Span {
                begin: self.before(piece.from),
                end: self.before(piece.to),
            }),
            None => None,
        }
    }
}

// Whether the byte begins a character.
fn begins_character(byte: u8) -> bool
    ensures { result ≡ begins_character byte }
{
    byte < 128 || byte >= 192
}

// How many of these offsets, which ascend, stand before this one.
fn count_before(offsets: &[usize], offset: usize) -> usize
    requires { IsNonDecreasingBy (λ (it : ℕ). it) offsets.now }
    ensures { result ≡ count_by (λ it. nat_lt it offset) offsets.now }
{
    offsets.partition_point(|it| *it < offset)
}
