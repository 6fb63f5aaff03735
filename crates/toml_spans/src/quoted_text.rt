//! Texts between double quotes, with control characters escaped.

ghost use Rattle.std.specs.Prelude.{◌≡◌, IfOk, Some, option_map, string_bytes};
ghost use Rattle.std.specs.Fmt.{WritesOnOk, WritesStyledOnOk};
ghost use Rattle.toml_spans.specs.QuotedText.{by_code, letter_escape, quoted_character, quoted_text, visible_character};

use std::alloc::{AllocError, Global};
use std::fmt;

/// A text that prints between double quotes, with `"`, `\` and control characters escaped.
#[derive(Clone, Copy, Debug, PartialEq, Eq)]
pub struct QuotedText<'a>(pub &'a str);

impl fmt::Display for QuotedText<'_> {
    ghost output = { λ quoted. Some (quoted_text quoted.0.now) };

    ghost styled_output = { λ quoted _. Some (quoted_text quoted.0.now) };

    fn fmt<W: fmt::Write>(&self, f: &mut fmt::Formatter<W>) -> fmt::Result {
        write_quoted(f, self.0)
    }
}

/// The text, as `QuotedText` prints it.
pub fn write_quoted<W: fmt::Write>(f: &mut fmt::Formatter<W>, text: &str) -> fmt::Result
    ensures writes { WritesOnOk W.write_str_gives f.old result (quoted_text text.now) f.new }
    ensures styled { WritesStyledOnOk W.write_str_gives f.old result (quoted_text text.now) f.new }
{
    f.write_str("\"")?;
    for c in text.chars() {
        write_escaped(f, c)?;
    }
    f.write_str("\"")
}

fn write_escaped<W: fmt::Write>(f: &mut fmt::Formatter<W>, c: char) -> fmt::Result
    ensures writes { WritesOnOk W.write_str_gives f.old result (quoted_character c) f.new }
    ensures styled { WritesStyledOnOk W.write_str_gives f.old result (quoted_character c) f.new }
{
    match c {
        '"' => f.write_str("\\\""),
        '\\' => f.write_str("\\\\"),
        c => write_visible(f, c.is_control(), c),
    }
}

/// Writes a character: by its letter, by its code where it is `hidden`, else as it is.
pub fn write_visible<W: fmt::Write>(f: &mut fmt::Formatter<W>, hidden: bool, c: char) -> fmt::Result
    ensures writes { WritesOnOk W.write_str_gives f.old result (visible_character hidden c) f.new }
    ensures styled { WritesStyledOnOk W.write_str_gives f.old result
        (visible_character hidden c) f.new }
{
    if let Some(escape) = letter_escape(c) {
        f.write_str(escape)
    } else if hidden {
        write_by_code(f, c)
    } else {
        f.write_char(c)
    }
}

/// The escape by a letter of a line feed, a carriage return or a tab; of another character, `None`.
pub fn letter_escape(c: char) -> Option<&'static str>
    ensures { option_map (λ text. text.now) result ≡ letter_escape c }
{
    match c {
        '\n' => Some("\\n"),
        '\r' => Some("\\r"),
        '\t' => Some("\\t"),
        _ => None,
    }
}

// Writes a character by its code, as Rust has it: `\0` or `\u{7f}`.
fn write_by_code<W: fmt::Write>(f: &mut fmt::Formatter<W>, c: char) -> fmt::Result
    ensures writes { WritesOnOk W.write_str_gives f.old result (by_code c) f.new }
    ensures styled { WritesStyledOnOk W.write_str_gives f.old result (by_code c) f.new }
{
    if c == '\0' {
        return f.write_str("\\0");
    }
    for mark in c.escape_unicode() {
        f.write_char(mark)?;
    }
    Ok(())
}

/// The text between double quotes, as `QuotedText` prints it.
pub fn quoted(alloc: Global, text: &str) -> Result<String, AllocError>
    ensures { IfOk result (λ s. string_bytes s ≡ quoted_text text.now) }
{
    QuotedText(text).to_string(alloc)
}
