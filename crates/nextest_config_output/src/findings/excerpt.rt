//! The line of a file where a finding begins, with marks under what is found.

ghost use Rattle.std.specs.Prelude.{◌≡◌, ◌++◌, chars, drop, IfOk, IsTrue, map, OnOk, string_bytes, take};
ghost use Rattle.std.specs.List.{list_all};
ghost use Rattle.nextest_config_values.specs.Literal.Shown.{is_printable};
ghost use Rattle.nextest_config_output.specs.Findings.Excerpt.{begins_past_cut, blank_count, cut_text, excerpt, excerpt_of, held, line_numbered, mark_count, shown_line};

mod shown;

use nextest_config_values::literal::is_printable;
use shown::{ShownCharacters, columns};
use std::alloc::{AllocError, Global};
use std::fmt::Write;
use toml_spans::Span;

// So many characters of a line are shown; one more tells that it is cut.
const MOST_SHOWN: usize = 200;

// Pushes the line of these where a range begins, with marks.
pub(crate) fn push_excerpt(
    alloc: Global,
    text: &mut String,
    span: Span,
    lines: &[&str],
) -> Result<(), AllocError>
    ensures { OnOk result (string_bytes text.new
        ≡ string_bytes text.old ++ excerpt span (map (λ line. line.now) lines.now)) }
{
    let line = line_numbered(lines, span.begin.line);
    let characters = first_characters(alloc, line)?;
    if is_plain(line) {
        return push_marked(alloc, text, span, characters.as_slice(), line);
    }
    let shown = shown_line(alloc, characters.as_slice())?;
    push_marked(alloc, text, span, characters.as_slice(), shown.as_str())
}

// Whether a line is shown as it is: all of it is printable ASCII, and it isn't cut.
#[tactic(auto, using(crate::proofs::PlainLines::plain_line))]
fn is_plain(line: &str) -> bool
    ensures { IsTrue result → shown_line (take 201 (chars line.now)) ≡ line.now }
{
    line.len() <= MOST_SHOWN && are_printable(line)
}

// Whether all bytes of a line are those of printable characters of ASCII.
fn are_printable(line: &str) -> bool
    ensures { result ≡ list_all is_printable line.now }
{
    line.bytes().all(|byte| is_printable(byte))
}

// The line with this number, from 1; the empty line where there is none.
fn line_numbered<'a>(lines: &[&'a str], number: usize) -> &'a str
    ensures { result.now ≡ line_numbered number (map (λ line. line.now) lines.now) }
{
    match lines.get(number.saturating_sub(1)) {
        Some(line) => line,
        None => "",
    }
}

// The characters of a line that are shown, and the one after them.
fn first_characters(alloc: Global, line: &str) -> Result<Vec<char>, AllocError>
    ensures { IfOk result (λ characters. characters.items ≡ take 201 (chars line.now)) }
{
    line.chars().take(MOST_SHOWN + 1).collect(alloc)
}

// What is shown of a line with these characters.
fn shown_line(alloc: Global, characters: &[char]) -> Result<String, AllocError>
    ensures { IfOk result (λ shown. string_bytes shown ≡ shown_line characters.now) }
{
    let shown = ShownCharacters(front(characters, MOST_SHOWN));
    let cut = cut_text(characters);
    format!(in alloc; "{shown}{cut}")
}

// Pushes a line with these characters, of which this is shown, with marks.
fn push_marked(
    alloc: Global,
    text: &mut String,
    span: Span,
    characters: &[char],
    shown: &str,
) -> Result<(), AllocError>
    requires { shown.now ≡ shown_line characters.now }
    ensures { OnOk result
        (string_bytes text.new ≡ string_bytes text.old ++ excerpt_of span characters.now) }
{
    let number = span.begin.line.to_string(alloc)?;
    let margin = " ".repeat(alloc, number.len())?;
    let blanks = " ".repeat(alloc, blank_count(span, characters))?;
    let marks = "^".repeat(alloc, mark_count(span, characters))?;
    writeln!(
        text,
        "{margin} |\n{number} | {shown}\n{margin} | {blanks}{marks}"
    )
}

// Two dots where the line is cut.
fn cut_text(characters: &[char]) -> &'static str
    ensures { result.now ≡ cut_text characters.now }
{
    if characters.len() > MOST_SHOWN {
        " .."
    } else {
        ""
    }
}

// How many blanks stand before the marks.
fn blank_count(span: Span, characters: &[char]) -> usize
    ensures { result ≡ blank_count span characters.now }
{
    let shown = front(characters, MOST_SHOWN);
    if begins_past_cut(span, characters) {
        columns(shown) + 1
    } else {
        columns(front(shown, span.begin.column.saturating_sub(1)))
    }
}

// How many marks there are.
fn mark_count(span: Span, characters: &[char]) -> usize
    ensures { result ≡ mark_count span characters.now }
{
    if begins_past_cut(span, characters) {
        2
    } else {
        columns(held(span, front(characters, MOST_SHOWN))).max(1)
    }
}

// Whether the range begins where the line is cut, or behind that.
fn begins_past_cut(span: Span, characters: &[char]) -> bool
    ensures { result ≡ begins_past_cut span characters.now }
{
    characters.len() > MOST_SHOWN && span.begin.column > MOST_SHOWN
}

// Of the characters of the line where a range begins, those that it holds.
fn held(span: Span, characters: &[char]) -> &[char]
    ensures { result.now ≡ held span characters.now }
{
    let from = span.begin.column.saturating_sub(1);
    if span.begin.line == span.end.line {
        behind(front(characters, span.end.column.saturating_sub(1)), from)
    } else {
        behind(characters, from)
    }
}

// So many of the characters, from the first.
fn front(characters: &[char], count: usize) -> &[char]
    ensures { result.now ≡ take count characters.now }
{
    &characters[..count.min(characters.len())]
}

// The characters behind so many.
fn behind(characters: &[char], count: usize) -> &[char]
    ensures { result.now ≡ drop count characters.now }
{
    &characters[count.min(characters.len())..]
}
