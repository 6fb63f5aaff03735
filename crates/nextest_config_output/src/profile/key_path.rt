//! Paths of keys, as they print.

ghost use Rattle.std.specs.Prelude.{◌++◌, codes, flat_map, Some};
ghost use Rattle.std.specs.Fmt.{WritesOnOk};
ghost use Rattle.nextest_config_values.specs.Literal.Key.{key_text};
ghost use Rattle.nextest_config_output.specs.Profile.KeyPath.{key_path};

use nextest_config_values::literal::KeyText;
use std::fmt;

/// The path of a key below a profile, with its parts parted by dots.
#[derive(Clone, Copy)]
pub(crate) struct KeyPath<'a, 'b>(pub &'a [&'b str]);

impl fmt::Display for KeyPath<'_, '_> {
    ghost output = { λ path. Some (key_path path.0.now) };

    fn fmt<W: fmt::Write>(&self, f: &mut fmt::Formatter<W>) -> fmt::Result {
        match self.0 {
            [] => Ok(()),
            [first, rest @ ..] => {
                write!(f, "{}", KeyText(first))?;
                write_parts(f, rest)
            }
        }
    }
}

// Writes the parts that come after the first one.
fn write_parts<W: fmt::Write>(f: &mut fmt::Formatter<W>, parts: &[&str]) -> fmt::Result
    ensures { WritesOnOk W.write_str_gives f.old result
        (flat_map (λ part. codes "." ++ key_text part.now) parts.now) f.new }
{
    for part in parts {
        write!(f, ".{}", KeyText(part))?;
    }
    Ok(())
}
