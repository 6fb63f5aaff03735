//! Paths of values in a document.

ghost use Rattle.std.specs.Prelude.{◌≡◌, Some, map};
ghost use Rattle.std.specs.Fmt.{WritesOnOk};
ghost use Rattle.toml_spans.specs.Step.{is_bare_key, key_text, printed_path, step_of, step_text};

use crate::quoted_text::QuotedText;
use std::fmt;
use toml_parser::bytes::is_bare;

/// A step of the path to a value: a key of a table, or an index of an array, from 0.
#[derive(Debug, PartialEq, Eq, Drop)]
pub enum Step {
    Key(String),
    Index(usize),
}

/// A path as it prints: keys parted by dots, those that aren't bare (TOML 1.1, "Keys") between
/// quotes, and indexes between brackets.
#[derive(Clone, Copy, Debug)]
pub struct PathText<'a>(pub &'a [Step]);

impl fmt::Display for PathText<'_> {
    ghost output = { λ path. Some (printed_path (map step_of path.0.now)) };

    fn fmt<W: fmt::Write>(&self, f: &mut fmt::Formatter<W>) -> fmt::Result {
        let mut behind = false;
        for step in self.0 {
            write_step(f, step, behind)?;
            behind = true;
        }
        Ok(())
    }
}

// A step, which comes after another one or not.
fn write_step<W: fmt::Write>(f: &mut fmt::Formatter<W>, step: &Step, behind: bool) -> fmt::Result
    ensures { WritesOnOk W.write_str_gives f.old result (step_text behind (step_of step.now))
        f.new }
{
    match step {
        Step::Key(key) => {
            if behind {
                f.write_str(".")?;
            }
            write_key(f, key.as_str())
        }
        Step::Index(index) => write!(f, "[{index}]"),
    }
}

/// A key by itself, as it prints in a path.
#[derive(Clone, Copy, Debug, PartialEq, Eq)]
pub struct NameText<'a>(pub &'a str);

impl fmt::Display for NameText<'_> {
    ghost output = { λ name. Some (key_text name.0.now) };

    fn fmt<W: fmt::Write>(&self, f: &mut fmt::Formatter<W>) -> fmt::Result {
        write_key(f, self.0)
    }
}

// A key, between quotes unless it is bare.
fn write_key<W: fmt::Write>(f: &mut fmt::Formatter<W>, key: &str) -> fmt::Result
    ensures { WritesOnOk W.write_str_gives f.old result (key_text key.now) f.new }
{
    if is_bare_key(key) {
        f.write_str(key)
    } else {
        write!(f, "{}", QuotedText(key))
    }
}

/// Whether the key needs no quotes (TOML 1.1, "Keys").
pub fn is_bare_key(key: &str) -> bool
    ensures { result ≡ is_bare_key key.now }
{
    !key.is_empty() && key.bytes().all(|byte| is_bare(byte))
}
