//! Where a fault of a text stands in the file: where a string is written plain, at the bytes of the
//! text that it tells.

ghost use Rattle.std.specs.Prelude.{◌≡◌, ◌<◌, map, option_map};
ghost use Rattle.toml.specs.View.{table_view};
ghost use Rattle.toml_spans.specs.Index.{IsSpanOf, ranges_in};
ghost use Rattle.toml_spans.specs.Step.{step_of};
ghost use Rattle.nextest_config_filters.specs.Fault.{fault_of};
ghost use Rattle.nextest_config_lint.specs.TextRange.{is_plain, IsIndexed, lies_in, line_end_of, opening_of, plain_range, quotes_of, text_in};

use crate::faults::text_along;
use nextest_config_filters::TextFault;
use nextest_config_values::read::value_at;
use toml::Table;
use toml_spans::{Index, Span, Step};

/// A document with its text and its index.
#[derive(Clone, Copy)]
pub(crate) struct IndexedDocument<'f> {
    pub text: &'f str,
    pub document: &'f Table,
    pub index: &'f Index,
}

/// Where a fault of the text stands that a path leads to, if its string is written plain.
pub(crate) fn plain_span(
    file: IndexedDocument<'_>,
    path: &[Step],
    fault: &TextFault,
) -> Option<Span>
    requires { IsIndexed file }
    ensures { IsSpanOf file.entry.text.now (plain_range file.entry.text.now
        (ranges_in file.entry.index.now)
        (map step_of path.now) (fault_of fault.now)) result }
{
    let text = text_in(file.document, path)?;
    let value = file.index.value_bytes(path)?;
    let written = file.text.as_bytes().get(value.start..value.end)?;
    if !is_plain(written, text.as_bytes()) || !lies_in(text, fault) {
        return None;
    }
    let begin = value.start + opening_of(written);
    Some(file.index.span(begin + fault.begin..begin + fault.end))
}

// Whether a fault lies in a text.
fn lies_in(text: &str, fault: &TextFault) -> bool
    ensures { result ≡ lies_in text.now (fault_of fault.now) }
{
    fault.begin <= fault.end && fault.end <= text.len()
}

// The text that a path leads to.
fn text_in<'d>(document: &'d Table, path: &[Step]) -> Option<&'d str>
    ensures { option_map (λ text. text.now) result
        ≡ text_in (table_view document.now) (map step_of path.now) }
{
    match path {
        [Step::Key(key), rest @ ..] => match value_at(document, key.as_str()) {
            Some(value) => text_along(value, rest),
            None => None,
        },
        _ => None,
    }
}

// Whether a string is written plain: without escapes.
fn is_plain(written: &[u8], text: &[u8]) -> bool
    ensures { result ≡ is_plain written.now text.now }
{
    let opening = opening_of(written);
    if text.is_empty() || written.len() != opening + text.len() + quotes_of(written) {
        return false;
    }
    &written[opening..opening + text.len()] == text
}

// How many bytes stand before the text of a string: its quotes, and a line end behind three of
// them.
fn opening_of(written: &[u8]) -> usize
    ensures value { result ≡ opening_of written.now }
    ensures few { result < 6 }
{
    match written {
        [a, b, c, rest @ ..] if a == b && a == c => 3 + line_end_of(rest),
        _ => 1,
    }
}

// How many quotes open a string, and close it.
fn quotes_of(written: &[u8]) -> usize
    ensures value { result ≡ quotes_of written.now }
    ensures few { result < 4 }
{
    match written {
        [a, b, c, ..] if a == b && a == c => 3,
        _ => 1,
    }
}

// How many bytes the line end takes that a string begins with, where it has one.
fn line_end_of(rest: &[u8]) -> usize
    ensures value { result ≡ line_end_of rest.now }
    ensures few { result < 3 }
{
    match rest {
        [b'\n', _, ..] => 1,
        [b'\r', b'\n', ..] => 2,
        _ => 0,
    }
}
