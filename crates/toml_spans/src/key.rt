//! Keys, part by part, with where each part stands (TOML 1.1, "Keys").

ghost use Rattle.std.specs.Prelude.{◌≡◌, ◌≤◌, false, length, string_bytes, true};
ghost use Rattle.std.specs.List.{prefix_len};
ghost use Rattle.toml_parser.specs.Lexical as class;
ghost use Rattle.toml_parser.specs.Strings as grammar;
ghost use Rattle.toml_spans.specs.Key as spec;
ghost use Rattle.toml_spans.specs.KeyViews.{parts_of};
ghost use Rattle.toml_spans.specs.Refusal.{Reads, Shortens};

use crate::entry::Piece;
use crate::refusal::Refusal;
use std::alloc::Global;
use toml_parser::bytes::is_bare;
use toml_parser::text::{byte_at, first, skip, skip_ws};
use toml_parser::{RECURSION_LIMIT, quoted, starts_string};

/// A part of a key: how it reads, and where it stands.
#[derive(Drop)]
pub(crate) struct Part {
    pub(crate) text: String,
    pub(crate) piece: Piece,
}

/// A key that may have dots: the parts before the last, and the last.
#[derive(Drop)]
pub(crate) struct KeyParts {
    pub(crate) path: Vec<Part>,
    pub(crate) last: Part,
}

/// A key from the front of a text, and what follows the white space after it.
pub(crate) fn parts(alloc: Global, text: &str) -> Result<(KeyParts, &str), Refusal>
    ensures value { Reads parts_of result (spec.parts text.now) }
    ensures shorter { Shortens text.now result }
{
    let mut path = Vec::new(alloc);
    let mut rest = text;
    'parts: for _part in 0..RECURSION_LIMIT {
        let (key, behind) = simple_key(alloc, rest)?;
        let piece = Piece::between(rest, behind);
        let last = Part { text: key, piece };
        let after = skip_ws(behind);
        if first(after) != b'.' {
            return Ok((KeyParts { path, last }, after));
        }
        path.push(last)?;
        rest = skip_ws(skip(after, 1));
    }
    Err(Refusal::NoDocument)
}

// A part of a key: bare, or a string of one line.
#[tactic(auto, unfolding(toml_parser::specs::Strings::simple_key))]
fn simple_key(alloc: Global, text: &str) -> Result<(String, &str), Refusal>
    ensures value { Reads string_bytes result (grammar.simple_key text.now) }
    ensures shorter { Shortens text.now result }
{
    if starts_string(text) {
        one_line(alloc, text)
    } else {
        bare(alloc, text)
    }
}

// A string of one line. Two quotes are an empty one, whatever follows.
fn one_line(alloc: Global, text: &str) -> Result<(String, &str), Refusal>
    requires { grammar.starts_string text.now ≡ true }
    ensures value { Reads string_bytes result (grammar.one_line text.now) }
    ensures shorter { Shortens text.now result }
{
    if byte_at(text, 1) == first(text) {
        return Ok((String::new(alloc), skip(text, 2)));
    }
    let (key, rest) = quoted(alloc, text)?;
    Ok((key, rest))
}

fn bare(alloc: Global, text: &str) -> Result<(String, &str), Refusal>
    requires { grammar.starts_string text.now ≡ false }
    ensures value { Reads string_bytes result (grammar.simple_key text.now) }
    ensures shorter { Shortens text.now result }
{
    let length = bare_length(text.as_bytes());
    if length == 0 {
        return Err(Refusal::NoDocument);
    }
    let (key, rest) = text.split_at(length);
    Ok((String::from_str(alloc, key)?, rest))
}

// How many bytes at the front are those of a bare key.
fn bare_length(bytes: &[u8]) -> usize
    ensures length { result ≡ prefix_len class.is_bare bytes.now }
    ensures within { result ≤ length bytes.now }
{
    bytes.iter().take_while(|byte| is_bare(**byte)).count()
}
