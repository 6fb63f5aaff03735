//! Texts that stand within a line.

ghost use Rattle.std.specs.Prelude.{◌≡◌, Some};
ghost use Rattle.std.specs.Fmt.{WritesOnOk};
ghost use Rattle.std.specs.List.{list_all};
ghost use Rattle.nextest_config_output.specs.Findings.Escapes.{escaped_character, escaped_text, is_marked, is_plain};

use nextest_config_values::literal::{is_printable, write_shown};
use std::fmt;

/// What is escaped in a text.
#[derive(Clone, Copy, Debug, PartialEq, Eq)]
pub enum Escapes {
    /// What is never shown in a line.
    InLine,
    /// What is never shown in a line, and what GitHub's workflow commands can't have in a message:
    /// `%`, by its hexadecimal code.
    Message,
    /// What is escaped in a message, and what GitHub's workflow commands can't have in a property:
    /// `:` and `,`, by their hexadecimal codes.
    Property,
}

/// A text that prints with what is escaped.
#[derive(Clone, Copy, Debug, PartialEq, Eq)]
pub struct Escaped<'a>(pub Escapes, pub &'a str);

impl fmt::Display for Escaped<'_> {
    ghost output = { λ text. Some (escaped_text text.0 text.1.now) };

    fn fmt<W: fmt::Write>(&self, f: &mut fmt::Formatter<W>) -> fmt::Result {
        write_text(f, self.0, self.1)
    }
}

fn write_text<W: fmt::Write>(f: &mut fmt::Formatter<W>, escapes: Escapes, text: &str) -> fmt::Result
    ensures { WritesOnOk W.write_str_gives f.old result (escaped_text escapes text.now) f.new }
{
    if are_plain(escapes, text) {
        return f.write_str(text);
    }
    for c in text.chars() {
        write_escaped(f, escapes, c)?;
    }
    Ok(())
}

// Whether all bytes of a text are plain: then nothing in it is escaped.
fn are_plain(escapes: Escapes, text: &str) -> bool
    ensures { result ≡ list_all (is_plain escapes) text.now }
{
    text.bytes().all(|byte| is_plain(escapes, byte))
}

// Whether a byte is that of a character that nothing else stands for.
fn is_plain(escapes: Escapes, byte: u8) -> bool
    ensures { result ≡ is_plain escapes byte }
{
    is_printable(byte) && !is_marked(escapes, byte)
}

// Whether a byte is that of a printable character that a workflow command escapes.
fn is_marked(escapes: Escapes, byte: u8) -> bool
    ensures { result ≡ is_marked escapes byte }
{
    match escapes {
        Escapes::InLine => false,
        Escapes::Message => byte == b'%',
        Escapes::Property => byte == b'%' || byte == b':' || byte == b',',
    }
}

fn write_escaped<W: fmt::Write>(f: &mut fmt::Formatter<W>, escapes: Escapes, c: char) -> fmt::Result
    ensures { WritesOnOk W.write_str_gives f.old result (escaped_character escapes c) f.new }
{
    match (escapes, c) {
        (Escapes::Message | Escapes::Property, '%') => f.write_str("%25"),
        (Escapes::Property, ':') => f.write_str("%3A"),
        (Escapes::Property, ',') => f.write_str("%2C"),
        (_, c) => write_shown(f, c),
    }
}
