//! Texts as they are shown to people.

ghost use Rattle.std.specs.Prelude.{◌≡◌, IfOk, Some, string_bytes};
ghost use Rattle.std.specs.Fmt.{WritesOnOk};
ghost use Rattle.std.specs.List.{list_all};
ghost use Rattle.nextest_config_values.specs.Literal.Shown.{character_in, is_plain, is_printable, is_unprintable, shown_character, shown_in, shown_lines, shown_text};

use std::alloc::{AllocError, Global};
use std::fmt;
use toml_spans::write_visible;

/// A text in a line: what ends a line, other control characters, and what no one sees or what turns
/// the direction of texts around, print by their escapes.
#[derive(Clone, Copy, Debug, PartialEq, Eq)]
pub struct Shown<'a>(pub &'a str);

impl fmt::Display for Shown<'_> {
    ghost output = { λ text. Some (shown_text text.0.now) };

    fn fmt<W: fmt::Write>(&self, f: &mut fmt::Formatter<W>) -> fmt::Result {
        write_text(f, LineFeeds::Escaped, self.0)
    }
}

/// A text of lines, printed as `Shown` prints it, but that its line feeds stay.
#[derive(Clone, Copy, Debug, PartialEq, Eq)]
pub struct ShownLines<'a>(pub &'a str);

impl fmt::Display for ShownLines<'_> {
    ghost output = { λ text. Some (shown_lines text.0.now) };

    fn fmt<W: fmt::Write>(&self, f: &mut fmt::Formatter<W>) -> fmt::Result {
        write_text(f, LineFeeds::Kept, self.0)
    }
}

/// A text of lines as it is shown: the same text, where nothing of it is escaped.
pub fn shown_lines(alloc: Global, text: String) -> Result<String, AllocError>
    ensures { IfOk result (λ shown. string_bytes shown ≡ shown_lines (string_bytes text)) }
{
    if are_plain(text.as_str()) {
        return Ok(text);
    }
    ShownLines(text.as_str()).to_string(alloc)
}

// Whether all bytes of a text are plain.
fn are_plain(text: &str) -> bool
    ensures { result ≡ list_all is_plain text.now }
{
    text.bytes().all(|byte| is_plain(byte))
}

// Whether a byte needs no escape in a text of lines.
fn is_plain(byte: u8) -> bool
    ensures { result ≡ is_plain byte }
{
    byte == b'\n' || is_printable(byte)
}

/// Whether a byte is that of a printable character of ASCII.
pub fn is_printable(byte: u8) -> bool
    ensures { result ≡ is_printable byte }
{
    matches!(byte, b' '..=b'~')
}

// What stands for the line feeds of a text.
#[derive(Clone, Copy, Debug, PartialEq, Eq)]
pub(crate) enum LineFeeds {
    Escaped,
    Kept,
}

fn write_text<W: fmt::Write>(
    f: &mut fmt::Formatter<W>,
    line_feeds: LineFeeds,
    text: &str,
) -> fmt::Result
    ensures { WritesOnOk W.write_str_gives f.old result (shown_in line_feeds text.now) f.new }
{
    for c in text.chars() {
        write_character(f, line_feeds, c)?;
    }
    Ok(())
}

fn write_character<W: fmt::Write>(
    f: &mut fmt::Formatter<W>,
    line_feeds: LineFeeds,
    c: char,
) -> fmt::Result
    ensures { WritesOnOk W.write_str_gives f.old result (character_in line_feeds c) f.new }
{
    match (line_feeds, c) {
        (LineFeeds::Kept, '\n') => f.write_str("\n"),
        (_, c) => write_shown(f, c),
    }
}

/// Writes a character as it is shown in a line: by its escape, or as it is.
pub fn write_shown<W: fmt::Write>(f: &mut fmt::Formatter<W>, c: char) -> fmt::Result
    ensures { WritesOnOk W.write_str_gives f.old result (shown_character c) f.new }
{
    write_visible(f, is_unprintable(c), c)
}

/// Whether a character is never shown as it is.
pub fn is_unprintable(c: char) -> bool
    ensures { result ≡ is_unprintable c }
{
    match c {
        '\u{200b}' | '\u{200e}'..='\u{200f}' => true,
        '\u{2028}'..='\u{202e}' | '\u{2066}'..='\u{2069}' => true,
        c => c.is_control(),
    }
}
