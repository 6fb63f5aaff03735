//! Basic strings of TOML, on one line.

ghost use Rattle.std.specs.Prelude.{◌≡◌, ◌<◌, true};
ghost use Rattle.std.specs.Fmt.{WritesOnOk, digit_glyph};
ghost use Rattle.nextest_config_values.specs.Literal.Text.{basic_character, basic_text, code_text, unquoted_character};

use crate::literal::shown::is_unprintable;
use std::fmt;
use toml_spans::letter_escape;

// Writes a text as a basic string.
pub(crate) fn write_basic<W: fmt::Write>(f: &mut fmt::Formatter<W>, text: &str) -> fmt::Result
    ensures { WritesOnOk W.write_str_gives f.old result (basic_text text.now) f.new }
{
    f.write_str("\"")?;
    for c in text.chars() {
        write_character(f, c)?;
    }
    f.write_str("\"")
}

// A character of a basic string.
fn write_character<W: fmt::Write>(f: &mut fmt::Formatter<W>, c: char) -> fmt::Result
    ensures { WritesOnOk W.write_str_gives f.old result (basic_character c) f.new }
{
    match c {
        '"' => f.write_str("\\\""),
        '\\' => f.write_str("\\\\"),
        c => write_unquoted(f, c),
    }
}

// A character that is neither a quote nor a backslash.
fn write_unquoted<W: fmt::Write>(f: &mut fmt::Formatter<W>, c: char) -> fmt::Result
    ensures { WritesOnOk W.write_str_gives f.old result (unquoted_character c) f.new }
{
    match letter_escape(c) {
        Some(escape) => f.write_str(escape),
        None if is_unprintable(c) => write_code(f, c),
        None => f.write_char(c),
    }
}

// A character by its code.
fn write_code<W: fmt::Write>(f: &mut fmt::Formatter<W>, c: char) -> fmt::Result
    requires { c < 65_536 }
    ensures { WritesOnOk W.write_str_gives f.old result (code_text c) f.new }
{
    let code = u32::from(c);
    f.write_str("\\u")?;
    f.write_char(hexadecimal(code / 4096))?;
    f.write_char(hexadecimal(code / 256 % 16))?;
    f.write_char(hexadecimal(code / 16 % 16))?;
    f.write_char(hexadecimal(code % 16))
}

// A hexadecimal digit, in upper case.
fn hexadecimal(digit: u32) -> char
    requires { digit < 16 }
    ensures value { result ≡ digit_glyph true digit }
    ensures ascii { result < 128 }
{
    let code = if digit < 10 {
        u32::from('0') + digit
    } else {
        u32::from('A') - 10 + digit
    };
    char::from(code as u8)
}
