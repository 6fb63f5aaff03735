//! Backslashes in the text of an argument.

ghost use Rattle.std.specs.Prelude.{◌≡◌, chars};
ghost use Rattle.nextest_config_filters.specs.Escape.{is_character_code, is_code, is_pattern_escape, is_unknown_escape};

use crate::front::{Run, begins, behind_run, split_first};

/// Whether a backslash before this character, and then this text, is no escape.
pub(crate) fn is_unknown_escape(c: char, following: &str) -> bool
    ensures { result ≡ is_unknown_escape c (chars following.now) }
{
    if c == 'u' {
        !is_character_code(following)
    } else {
        is_pattern_escape(c)
    }
}

// Whether a backslash before this character writes nothing but in a regular expression.
fn is_pattern_escape(c: char) -> bool
    ensures { result ≡ is_pattern_escape c }
{
    match c {
        'b' | 'f' | 'n' | 'r' | 't' => false,
        '.' | '+' | '$' | '^' | '|' => true,
        c => c.is_ascii_alphanumeric(),
    }
}

// Whether what stands behind `\u` goes on as in `\u{..}`.
fn is_character_code(text: &str) -> bool
    ensures { result ≡ is_character_code (chars text.now) }
{
    match split_first(text) {
        Some((first, following)) => first == '{' && is_code(following),
        None => false,
    }
}

// Whether the text begins with a hexadecimal digit or `_`, more of them, and then `}`.
fn is_code(text: &str) -> bool
    ensures { result ≡ is_code (chars text.now) }
{
    match split_first(text) {
        Some((first, following)) => {
            Run::Code.has(first) && begins(behind_run(following, Run::Code), '}')
        }
        None => false,
    }
}
