//! Values, with where all that stands in them stands.

ghost use Rattle.std.specs.Prelude.{◌≡◌, ℕ, ◌<◌, ◌≤◌, IfOk, length, None};
ghost use Rattle.toml.specs.Parse as grammar;
ghost use Rattle.toml_spans.specs.Entry as trees;
ghost use Rattle.toml_spans.specs.EntryViews.{branches_of, tree_of, trees_of};
ghost use Rattle.toml_spans.specs.KeyViews.{parts_of};
ghost use Rattle.toml_spans.specs.Refusal.{Gives, Reads, Shortens};
ghost use Rattle.toml_spans.specs.Value as spec;

use crate::entry::{Entry, Members, Piece};
use crate::key::{KeyParts, parts};
use crate::refusal::Refusal;
use crate::table::put;
use std::alloc::Global;
use std::collections::BTreeMap;
use toml_parser::text::{first, skip, skip_blank, skip_ws};
use toml_parser::{quoted, starts_string, unquoted};

/// A key and its value, with arrays and inline tables at most this deep.
#[cycle(value)]
pub(crate) fn pair(
    alloc: Global,
    text: &str,
    depth: usize,
) -> Result<((KeyParts, Entry), &str), Refusal>
    ensures value { Reads (λ pair. (parts_of pair.0, tree_of pair.1)) result
        (spec.pair_tree (spec.value_tree depth) text.now) }
    ensures shorter { Shortens text.now result }
{
    let (key, at_value) = key_equals(alloc, text)?;
    let (value, rest) = value(alloc, at_value, depth)?;
    Ok(((key, value), rest))
}

// A value from the front of a text, with arrays and inline tables at most this deep.
#[cycle(value)]
fn value(alloc: Global, text: &str, depth: usize) -> Result<(Entry, &str), Refusal>
    ensures value { Reads tree_of result (spec.value_tree depth text.now) }
    ensures shorter { Shortens text.now result }
{
    let byte = first(text);
    if byte != b'[' && byte != b'{' {
        return scalar(alloc, text);
    }
    if depth == 0 {
        return Err(Refusal::NoDocument);
    }
    if byte == b'[' {
        let (elements, rest) = elements(alloc, skip(text, 1), depth - 1)?;
        let piece = Piece::between(text, rest);
        Ok((Entry::Array(None, piece, elements), rest))
    } else {
        let (members, rest) = members(alloc, skip(text, 1), depth - 1)?;
        let piece = Piece::between(text, rest);
        Ok((Entry::Inline(None, piece, members), rest))
    }
}

// A string, a number, a boolean or a date-time.
fn scalar(alloc: Global, text: &str) -> Result<(Entry, &str), Refusal>
    ensures value { Reads tree_of result
        (spec.placed (λ v d. trees.scalar None v) text.now (grammar.atom text.now)) }
    ensures shorter { Shortens text.now result }
{
    if starts_string(text) {
        let (_, rest) = quoted(alloc, text)?;
        let piece = Piece::between(text, rest);
        Ok((Entry::Scalar(None, piece), rest))
    } else {
        let (_, rest) = unquoted(alloc, text)?;
        let piece = Piece::between(text, rest);
        Ok((Entry::Scalar(None, piece), rest))
    }
}

// The elements of an array, from after its bracket.
#[cycle(value)]
fn elements(alloc: Global, text: &str, depth: usize) -> Result<(Vec<Entry>, &str), Refusal>
    ensures value { (n : ℕ) → length text.now < n
        → Reads trees_of result
        (spec.element_trees (spec.value_tree depth) n trees.no_trees text.now) }
    ensures shorter { Shortens text.now result }
{
    let mut found = Vec::new(alloc);
    let mut rest = text;
    'elements: loop {
        let start = skip_blank(rest, true);
        if first(start) == b']' {
            return Ok((found, skip(start, 1)));
        }
        let (element, after) = value(alloc, start, depth)?;
        found.push(element)?;
        rest = past_element(after, b']')?;
    }
}

// The members of an inline table, from after its brace.
#[cycle(value)]
fn members(alloc: Global, text: &str, depth: usize) -> Result<(Members, &str), Refusal>
    ensures value { (n : ℕ) → length text.now < n → Reads branches_of result
        (spec.member_trees (spec.value_tree depth) n trees.no_branches text.now) }
    ensures shorter { Shortens text.now result }
{
    let mut found = BTreeMap::new(alloc);
    let mut rest = text;
    'members: loop {
        let start = skip_blank(rest, true);
        if first(start) == b'}' {
            return Ok((found, skip(start, 1)));
        }
        let ((key, member), after) = pair(alloc, start, depth)?;
        put(alloc, &mut found, key, member)?;
        rest = past_element(after, b'}')?;
    }
}

// What follows an element and its comma, or begins with the closing bracket.
#[tactic(auto, unfolding(toml::specs::Parse::after_element))]
fn past_element(text: &str, closing: u8) -> Result<&str, Refusal>
    ensures value { Gives (λ rest. rest.now) result (grammar.after_element closing text.now) }
    ensures within { IfOk result (λ rest. length rest.now ≤ length text.now) }
{
    let rest = skip_blank(text, true);
    if first(rest) == b',' {
        Ok(skip(rest, 1))
    } else if first(rest) == closing {
        Ok(rest)
    } else {
        Err(Refusal::NoDocument)
    }
}

// A key, `=` and the white space after it.
#[tactic(auto, unfolding(crate::specs::Value::parts_equals))]
fn key_equals(alloc: Global, text: &str) -> Result<(KeyParts, &str), Refusal>
    ensures value { Reads parts_of result (spec.parts_equals text.now) }
    ensures shorter { Shortens text.now result }
{
    let (key, rest) = parts(alloc, text)?;
    if first(rest) != b'=' {
        return Err(Refusal::NoDocument);
    }
    Ok((key, skip_ws(skip(rest, 1))))
}
