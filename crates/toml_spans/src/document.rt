//! The statements of a document, one after the other, and what stands where after them.

ghost use Rattle.std.specs.Prelude.{◌≡◌, ◌≤◌, IfErr, IfOk, None, length};
ghost use Rattle.toml.specs.Parse as grammar;
ghost use Rattle.toml.specs.Tables.{implicit};
ghost use Rattle.toml_spans.specs.Document as spec;
ghost use Rattle.toml_spans.specs.Document.{IsWalked};
ghost use Rattle.toml_spans.specs.DocumentViews.{Defines, statement_of, walk_from};
ghost use Rattle.toml_spans.specs.EntryViews.{branches_of, tree_of};
ghost use Rattle.toml_spans.specs.KeyViews.{part_of, parts_of, path_of};
ghost use Rattle.toml_spans.specs.Refusal.{Gives, Reads, Shortens};
ghost use Rattle.toml_spans.specs.Table as tables;
ghost use Rattle.toml_spans.specs.TableViews.{definition_of, Grows};

use crate::entry::{Entry, Members, Origin};
use crate::key::{KeyParts, Part, parts};
use crate::refusal::Refusal;
use crate::table::{Definition, along};
use crate::value::pair;
use std::alloc::{AllocError, Global};
use std::collections::BTreeMap;
use toml_parser::RECURSION_LIMIT;
use toml_parser::text::{byte_at, first, skip, skip_blank, skip_ws};

/// What stands where after all statements of a text.
pub(crate) fn walk_over(alloc: Global, text: &str) -> Result<Members, Refusal>
    ensures walked { IfOk result (λ root. IsWalked text.now (branches_of root)) }
    ensures refused { IfErr result
        (λ refusal. refusal ≡ Refusal.NoDocument → grammar.parse_document text.now ≡ None) }
{
    let mut root = BTreeMap::new(alloc);
    let mut section = Vec::new(alloc);
    let mut rest = skip_bom(text);
    'statements: loop {
        let start = skip_blank(rest, true);
        if start.is_empty() {
            return Ok(root);
        }
        let ((key, what), after) = statement_line(alloc, start)?;
        define(alloc, &mut root, &mut section, key, what)?;
        rest = after;
    }
}

// The text without a byte order mark at its beginning.
#[tactic(auto, unfolding(toml::specs::Parse::skip_bom))]
fn skip_bom(text: &str) -> &str
    ensures rest { result.now ≡ grammar.skip_bom text.now }
    ensures within { length result.now ≤ length text.now }
{
    if first(text) == 0xEF && byte_at(text, 1) == 0xBB && byte_at(text, 2) == 0xBF {
        &text[3..]
    } else {
        text
    }
}

// A pair goes into the table of the last header, and a header starts from the root.
fn define(
    alloc: Global,
    root: &mut Members,
    section: &mut Vec<Part>,
    key: KeyParts,
    what: Definition,
) -> Result<(), Refusal>
    ensures { Defines root.old section.old (key, what) root.new section.new result }
{
    match what {
        Definition::Pair(value) => define_pair(alloc, root, section, key, value),
        _ => {
            *section = define_header(alloc, root, key, what)?;
            Ok(())
        }
    }
}

// Adds a pair to the table of a section.
fn define_pair(
    alloc: Global,
    root: &mut Members,
    section: &Vec<Part>,
    key: KeyParts,
    value: Entry,
) -> Result<(), Refusal>
    ensures { Grows root.old root.new result
        (tables.along implicit (path_of section.now.items)
        (tables.put (parts_of key) (tree_of value))) }
{
    let KeyParts { path, last } = key;
    along(
        alloc,
        root,
        Origin::Implicit,
        section,
        &path,
        last,
        Definition::Pair(value),
    )
}

// Adds the table of a header, whose key is the section that follows.
#[tactic(auto, unfolding(crate::specs::Table::along))]
fn define_header(
    alloc: Global,
    root: &mut Members,
    key: KeyParts,
    what: Definition,
) -> Result<Vec<Part>, Refusal>
    ensures { Gives (λ section. walk_from root.new section.items) result
        (spec.walk_to (branches_of root.old) (parts_of key) (definition_of what)) }
{
    let KeyParts { mut path, last } = key;
    let copy = copy_of(&last)?;
    along(alloc, root, Origin::Implicit, &path, &[], copy, what)?;
    path.push(last)?;
    Ok(path)
}

fn copy_of(part: &Part) -> Result<Part, AllocError>
    ensures { IfOk result (λ copy. part_of copy ≡ part_of part.now) }
{
    Ok(Part {
        text: part.text.clone()?,
        piece: part.piece,
    })
}

// A statement that has its line to itself.
#[tactic(auto, unfolding(crate::specs::Document::statement_line))]
fn statement_line(alloc: Global, text: &str) -> Result<((KeyParts, Definition), &str), Refusal>
    ensures value { Reads statement_of result (spec.statement_line text.now) }
    ensures shorter { Shortens text.now result }
{
    let (statement, rest) = statement(alloc, text)?;
    let end = skip_ws(rest);
    if end.is_empty() || matches!(first(end), b'#' | b'\n' | b'\r') {
        Ok((statement, rest))
    } else {
        Err(Refusal::NoDocument)
    }
}

// A header or a pair.
#[tactic(auto, unfolding(crate::specs::Document::statement))]
fn statement(alloc: Global, text: &str) -> Result<((KeyParts, Definition), &str), Refusal>
    ensures value { Reads statement_of result (spec.statement text.now) }
    ensures shorter { Shortens text.now result }
{
    if first(text) == b'[' && byte_at(text, 1) == b'[' {
        let (key, rest) = header_key(alloc, skip(text, 2))?;
        if first(rest) != b']' {
            return Err(Refusal::NoDocument);
        }
        Ok(((key, Definition::Element), skip(rest, 1)))
    } else if first(text) == b'[' {
        let (key, rest) = header_key(alloc, skip(text, 1))?;
        Ok(((key, Definition::Table), rest))
    } else {
        let ((key, value), rest) = pair(alloc, text, RECURSION_LIMIT)?;
        Ok(((key, Definition::Pair(value)), rest))
    }
}

// The key of a header and its first closing bracket.
#[tactic(auto, unfolding(crate::specs::Document::header_parts))]
fn header_key(alloc: Global, text: &str) -> Result<(KeyParts, &str), Refusal>
    ensures value { Reads parts_of result (spec.header_parts text.now) }
    ensures shorter { Shortens text.now result }
{
    let (key, rest) = parts(alloc, skip_ws(text))?;
    if first(rest) != b']' {
        return Err(Refusal::NoDocument);
    }
    Ok((key, skip(rest, 1)))
}
