//! Values that rows write, and what they are parted by.

use crate::answers::{copied, cut, done};
use crate::failure::Failure;
use crate::runner::Runner;
use nextest_config_values::identifier::{ConfigIdentifier, ToolName};
use nextest_config_values::read::FromToml;
use nextest_config_values::tool_config::ToolConfigFile;
use nextest_config_values::track_default::TrackDefault;
use semver::Version;
use toml::Value;

/// A type whose values rows write.
pub trait FromRow: Sized + Drop {
    /// The value that the text writes.
    fn from_row(rt: &Runner, text: &str) -> Result<Self, Failure>;
}

/// The first word, and what stands after it.
pub fn word(text: &str) -> (&str, &str) {
    text.split_once(' ').unwrap_or((text, ""))
}

/// The two values that a text writes on the sides of the first of these marks.
pub fn both<A: FromRow, B: FromRow>(
    rt: &Runner,
    text: &str,
    mark: &str,
) -> Result<(A, B), Failure> {
    let (left, right) = cut(text, mark)?;
    Ok((A::from_row(rt, left)?, B::from_row(rt, right)?))
}

/// What is made of a value, which is then let go.
pub fn part<W: Drop, T, F: FnOnce(&W) -> T>(whole: W, make: F) -> T
    requires { F.IsAlwaysCallable make }
{
    make(&whole)
}

impl FromRow for String {
    fn from_row(rt: &Runner, text: &str) -> Result<Self, Failure> {
        copied(rt, text)
    }
}

impl FromRow for Version {
    fn from_row(rt: &Runner, text: &str) -> Result<Self, Failure> {
        done(rt, Version::parse(rt.alloc(), text))
    }
}

impl FromRow for usize {
    fn from_row(rt: &Runner, text: &str) -> Result<Self, Failure> {
        done(rt, text.parse())
    }
}

impl FromRow for i8 {
    fn from_row(rt: &Runner, text: &str) -> Result<Self, Failure> {
        done(rt, text.parse())
    }
}

impl FromRow for ConfigIdentifier {
    fn from_row(rt: &Runner, text: &str) -> Result<Self, Failure> {
        done(rt, ConfigIdentifier::new(rt.alloc(), text))
    }
}

impl FromRow for ToolName {
    fn from_row(rt: &Runner, text: &str) -> Result<Self, Failure> {
        done(rt, ToolName::new(rt.alloc(), text))
    }
}

impl FromRow for ToolConfigFile {
    fn from_row(rt: &Runner, text: &str) -> Result<Self, Failure> {
        done(rt, ToolConfigFile::from_str(rt.alloc(), text))
    }
}

/// Writes a TOML value.
impl FromRow for Value {
    fn from_row(rt: &Runner, text: &str) -> Result<Self, Failure> {
        done(rt, Value::from_str(rt.alloc(), text))
    }
}

/// Writes the TOML value that it is read from.
impl FromRow for TrackDefault<String> {
    fn from_row(rt: &Runner, text: &str) -> Result<Self, Failure> {
        let value = Value::from_row(rt, text)?;
        done(rt, FromToml::read(rt.alloc(), &value, "p"))
    }
}
