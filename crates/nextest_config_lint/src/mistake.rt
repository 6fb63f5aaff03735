//! What is wrong in a text that is no document, where that is known beyond what `toml` says.

ghost use Rattle.std.specs.Prelude.{◌≡◌, ◌∷◌, ◌++◌, ◌≤◌, ◌+◌, [], IfOk, IfSome, length, map, OnOk, option_map};
ghost use Rattle.std.specs.Option.{option_or};
ghost use Rattle.toml_parser.specs.Lexical.{line_feed};
ghost use Rattle.toml_parser.specs.Reading.{key_view};
ghost use Rattle.toml_spans.specs.Line.{line_after};
ghost use Rattle.toml_spans.specs.Step.{step_of};
ghost use Rattle.nextest_config_lint.specs.Found.{mistaken_of};
ghost use Rattle.nextest_config_lint.specs.Mistake.{IsKeySpan, IsMistake, IsMistakeIn, IsOfWord, IsRepeated, IsRepeatedIn, before_part, has_no_equals, header_at, inside, is_double, is_unquoted, key_steps, last_header, line_in, section_behind, section_of, section_view, statement_key, swapped};

use crate::finding::Mistake;
use nextest_config_values::nearest_word::nearest;
use std::alloc::{AllocError, Global};
use toml_parser::text::{byte_at, first, skip, skip_ws};
use toml_parser::{Key, ParseError, dotted_key};
use toml_spans::{Index, Span, Step, line_after};

// Where the key of a statement is sought: a part of the text that goes on up to the statement, and
// the steps of its table there.
#[derive(Drop)]
struct Section<'t> {
    part: &'t str,
    table: Vec<Step>,
}

/// The mistake in a text, where one is known, by its front and what is refused behind it.
///
/// What is refused is told by its bytes, since `toml` tells no kind of error: it marks a whole
/// value that it doesn't read (a word of a number's characters) and a whole statement whose key is
/// taken, and of anything else a place. So a value begins with a letter and has no `=`; a statement
/// has one, or begins with a bracket. The one thing that passes for a value is a key of more than
/// 80 parts. The key of a header is sought in all of the text before it, that of a pair from the
/// last line on that begins with a bracket: a table is written in one place, but for what other
/// headers put there.
pub(crate) fn mistake(
    alloc: Global,
    front: &[u8],
    refused: &[u8],
) -> Result<Option<Mistake>, AllocError>
    ensures { IfOk result
        (λ mistake. IsMistake front.now refused.now (option_map mistaken_of mistake)) }
{
    let Ok(front) = str::from_utf8(front) else {
        return Ok(None);
    };
    let Ok(refused) = str::from_utf8(refused) else {
        return Ok(None);
    };
    mistake_in(alloc, front, refused)
}

// The mistake in a text whose front and what is refused behind it are UTF-8.
fn mistake_in(alloc: Global, front: &str, refused: &str) -> Result<Option<Mistake>, AllocError>
    ensures { IfOk result
        (λ mistake. IsMistakeIn front.now refused.now (option_map mistaken_of mistake)) }
{
    if is_unquoted(refused) {
        Ok(Some(of_word(alloc, refused)?))
    } else {
        repeated(alloc, front, refused)
    }
}

// Whether what is refused is a value that begins with a letter.
fn is_unquoted(refused: &str) -> bool
    ensures { result ≡ is_unquoted refused.now }
{
    first(refused).is_ascii_alphabetic() && has_no_equals(refused)
}

fn has_no_equals(text: &str) -> bool
    ensures { result ≡ has_no_equals text.now }
{
    text.bytes().all(|byte| byte != b'=')
}

// The mistake in a value without quotes.
fn of_word(alloc: Global, word: &str) -> Result<Mistake, AllocError>
    ensures { IfOk result (λ mistake. IsOfWord word.now (mistaken_of mistake)) }
{
    let near = nearest(alloc, word, &["false", "true"])?;
    match near.or(swapped(word)) {
        Some(near) => Ok(Mistake::Misspelt(String::from_str(alloc, near)?)),
        None => Ok(Mistake::Unquoted),
    }
}

// A boolean of which two letters have changed places.
fn swapped(word: &str) -> Option<&'static str>
    ensures { option_map (λ boolean. boolean.now) result ≡ swapped word.now }
{
    if (word == "aflse") | (word == "flase") | (word == "fasle") | (word == "fales") {
        return Some("false");
    }
    if (word == "rtue") | (word == "ture") | (word == "treu") {
        return Some("true");
    }
    None
}

// Whether the key of a statement stands before it already.
fn repeated(alloc: Global, front: &str, statement: &str) -> Result<Option<Mistake>, AllocError>
    ensures { IfOk result
        (λ mistake. IsRepeated front.now statement.now (option_map mistaken_of mistake)) }
{
    let Some(key) = statement_key(alloc, statement)? else {
        return Ok(None);
    };
    let Some(section) = section_of(alloc, front, statement)? else {
        return Ok(None);
    };
    repeated_in(alloc, front, section, key)
}

// The key of a statement.
fn statement_key(alloc: Global, statement: &str) -> Result<Option<Key>, AllocError>
    ensures { IfOk result (λ key. option_map key_view key ≡ statement_key statement.now) }
{
    match dotted_key(alloc, skip_ws(inside(statement))) {
        Ok((key, _)) => Ok(Some(key)),
        Err(ParseError::OutOfMemory) => Err(AllocError),
        Err(_) => Ok(None),
    }
}

// What stands behind the brackets of a header.
fn inside(statement: &str) -> &str
    ensures { result.now ≡ inside statement.now }
{
    if is_double(statement) {
        skip(statement, 2)
    } else if first(statement) == b'[' {
        skip(statement, 1)
    } else {
        statement
    }
}

fn is_double(header: &str) -> bool
    ensures { result ≡ is_double header.now }
{
    first(header) == b'[' && byte_at(header, 1) == b'['
}

// Where the key of a statement is sought.
fn section_of<'t>(
    alloc: Global,
    front: &'t str,
    statement: &str,
) -> Result<Option<Section<'t>>, AllocError>
    ensures section { IfOk result
        (λ section. option_map section_view section ≡ section_of front.now statement.now) }
    ensures within { IfOk result
        (λ section. IfSome section (λ section. length section.part.now ≤ length front.now)) }
{
    if first(statement) == b'[' {
        return Ok(Some(whole(alloc, front)));
    }
    match last_header(front) {
        Some(part) => behind(alloc, part),
        None => Ok(Some(whole(alloc, front))),
    }
}

// All of a text.
fn whole(alloc: Global, front: &str) -> Section<'_>
    ensures { section_view result ≡ (front.now, []) }
{
    Section {
        part: front,
        table: Vec::new(alloc),
    }
}

// The table of the header that a part of a text begins with.
fn behind(alloc: Global, part: &str) -> Result<Option<Section<'_>>, AllocError>
    ensures section { IfOk result
        (λ section. option_map section_view section ≡ section_behind part.now) }
    ensures same { IfOk result (λ section. IfSome section
        (λ section. section.part.now ≡ part.now)) }
{
    let header = skip_ws(part);
    let Some(key) = statement_key(alloc, header)? else {
        return Ok(None);
    };
    let mut table = Vec::new(alloc);
    add_steps(&mut table, key)?;
    if is_double(header) {
        table.push(Step::Index(0))?;
    }
    Ok(Some(Section { part, table }))
}

// Adds the steps of a key to a path.
fn add_steps(path: &mut Vec<Step>, key: Key) -> Result<(), AllocError>
    ensures { OnOk result
        (map step_of path.new.items ≡ map step_of path.old.items ++ key_steps (key_view key)) }
{
    let Key {
        path: mut names,
        last,
    } = key;
    names.push(last)?;
    for name in names {
        path.push(Step::Key(name))?;
    }
    Ok(())
}

// The text from the last line on that begins with a bracket.
fn last_header(front: &str) -> Option<&str>
    ensures header { option_map (λ part. part.now) result ≡ last_header (line_feed ∷ front.now) }
    ensures within { IfSome result (λ part. length part.now ≤ length front.now) }
{
    let mut header = header_or(front, None);
    let mut rest = front;
    'lines: loop {
        let Some((_, after)) = rest.split_once('\n') else {
            return header;
        };
        header = header_or(after, header);
        rest = after;
    }
}

// A text that begins with a header, or another one.
fn header_or<'t>(text: &'t str, other: Option<&'t str>) -> Option<&'t str>
    ensures { option_map (λ part. part.now) result
        ≡ option_or (header_at text.now) (option_map (λ part. part.now) other.entry) }
{
    if first(skip_ws(text)) == b'[' {
        Some(text)
    } else {
        other
    }
}

// Whether the key stands in its section already.
fn repeated_in(
    alloc: Global,
    front: &str,
    section: Section<'_>,
    key: Key,
) -> Result<Option<Mistake>, AllocError>
    requires { length section.part.now ≤ length front.now }
    ensures { IfOk result (λ mistake. IsRepeatedIn front.now (section_view section.entry)
        (key_view key)
        (option_map mistaken_of mistake)) }
{
    let Section {
        part,
        table: mut path,
    } = section;
    let name = key.last.clone()?;
    add_steps(&mut path, key)?;
    match key_in(alloc, part, path.as_slice())? {
        Some(span) => {
            let line = line_in(front, part, span);
            Ok(Some(Mistake::Repeated { key: name, line }))
        }
        None => Ok(None),
    }
}

// The line of a place in a part of the text that goes on up to the end of this front.
fn line_in(front: &str, part: &str, span: Span) -> usize
    requires part { length part.now ≤ length front.now }
    requires line { span.begin.line ≤ length part.now + 1 }
    ensures { result ≡ line_in (line_after (before_part front.now part.now)) span }
{
    let before = front.len() - part.len();
    line_after(&front.as_bytes()[..before]) - 1 + span.begin.line
}

// Where the key of a path stands in a text, if that is a document.
fn key_in(alloc: Global, part: &str, path: &[Step]) -> Result<Option<Span>, AllocError>
    ensures at { IfOk result (IsKeySpan part.now (map step_of path.now)) }
    ensures line { IfOk result
        (λ span. IfSome span (λ span. span.begin.line ≤ length part.now + 1)) }
{
    match Index::of(alloc, part)? {
        Some(index) => Ok(index.key(path)),
        None => Ok(None),
    }
}
