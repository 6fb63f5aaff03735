//! What is shown of characters, and the columns that it takes.

ghost use Rattle.std.specs.Prelude.{◌≡◌, ◌*◌, ◌≤◌, encode_utf8, flat_map, IsTrue, length, Some};
ghost use Rattle.std.specs.Char.Escape.{escape_unicode};
ghost use Rattle.std.specs.Fmt.{WritesOnOk};
ghost use Rattle.nextest_config_values.specs.Literal.Shown.{is_unprintable};
ghost use Rattle.nextest_config_output.specs.Findings.Excerpt.Shown.{character_shown, columns, columns_of};

use nextest_config_values::literal::{is_unprintable, write_shown};
use std::fmt;
use unicode_width::UnicodeWidthChar;

/// Characters that print as they are shown.
#[derive(Clone, Copy)]
pub(crate) struct ShownCharacters<'a>(pub &'a [char]);

impl fmt::Display for ShownCharacters<'_> {
    ghost output = { λ shown. Some (flat_map character_shown shown.0.now) };

    fn fmt<W: fmt::Write>(&self, f: &mut fmt::Formatter<W>) -> fmt::Result {
        write_characters(f, self.0)
    }
}

fn write_characters<W: fmt::Write>(f: &mut fmt::Formatter<W>, characters: &[char]) -> fmt::Result
    ensures { WritesOnOk W.write_str_gives f.old result
        (flat_map character_shown characters.now) f.new }
{
    for c in characters {
        write_character(f, *c)?;
    }
    Ok(())
}

fn write_character<W: fmt::Write>(f: &mut fmt::Formatter<W>, c: char) -> fmt::Result
    ensures { WritesOnOk W.write_str_gives f.old result (character_shown c) f.new }
{
    match c {
        '\t' => f.write_str("    "),
        c => write_shown(f, c),
    }
}

/// The columns that at most 200 characters take, by the widths of `unicode_width`.
pub(crate) fn columns(characters: &[char]) -> usize
    requires { length characters.now ≤ 200 }
    ensures sum { result ≡ columns characters.now }
    ensures bound { result ≤ 8 * length characters.now }
{
    let mut sum = 0;
    for c in characters {
        sum += columns_of(*c);
    }
    sum
}

// The columns that a character takes.
fn columns_of(c: char) -> usize
    ensures value { result ≡ columns_of c }
    ensures bound { result ≤ 8 }
{
    if is_unprintable(c) {
        return escape_columns(c);
    }
    c.width().unwrap_or(0)
}

// The columns that a character takes which isn't shown as it is.
fn escape_columns(c: char) -> usize
    requires { IsTrue (is_unprintable c) }
    ensures value { result ≡ length (character_shown c) }
    ensures bound { result ≤ 8 }
{
    match c {
        '\t' => 4,
        '\n' | '\r' | '\0' => 2,
        c => code_columns(c),
    }
}

// The columns that a character takes which is shown by its code.
fn code_columns(c: char) -> usize
    requires { IsTrue (is_unprintable c) }
    ensures value { result ≡ length (flat_map encode_utf8 (escape_unicode c)) }
    ensures bound { result ≤ 8 }
{
    match c {
        '\0'..'\u{10}' => 5,
        '\u{10}'..'\u{100}' => 6,
        _ => 8,
    }
}
