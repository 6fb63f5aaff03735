//! Keys, as TOML writes them.

ghost use Rattle.std.specs.Prelude.{Some};
ghost use Rattle.std.specs.Fmt.{WritesOnOk};
ghost use Rattle.nextest_config_values.specs.Literal.Key.{key_text};

use crate::literal::text::write_basic;
use std::fmt;
use toml_spans::is_bare_key;

/// A key as TOML writes it (TOML 1.1, "Keys"): bare where it may be, else as a basic string.
#[derive(Clone, Copy, Debug, PartialEq, Eq)]
pub struct KeyText<'a>(pub &'a str);

impl fmt::Display for KeyText<'_> {
    ghost output = { λ key. Some (key_text key.0.now) };

    fn fmt<W: fmt::Write>(&self, f: &mut fmt::Formatter<W>) -> fmt::Result {
        write_key(f, self.0)
    }
}

// Writes a key.
pub(crate) fn write_key<W: fmt::Write>(f: &mut fmt::Formatter<W>, key: &str) -> fmt::Result
    ensures { WritesOnOk W.write_str_gives f.old result (key_text key.now) f.new }
{
    if is_bare_key(key) {
        f.write_str(key)
    } else {
        write_basic(f, key)
    }
}
