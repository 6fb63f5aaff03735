//! Lines of settings: a first column, and where it comes from.

ghost use Rattle.std.specs.Prelude.{◌≡◌, ℕ, IfOk, List, option_map, Some, string_bytes};
ghost use Rattle.nextest_config_values.specs.Literal.Key.{key_text};
ghost use Rattle.nextest_config_profiles.specs.Reach.{words_of};
ghost use Rattle.nextest_config_output.specs.Profile.KeyPath.{key_path};
ghost use Rattle.nextest_config_output.specs.Profile.SourcedLine.{fault_column, first_column, hidden_line, Line, line_of, mark_of_key, mark_of_unset, other_line, remark_text, row_line, state_source, unset_mark};

use crate::findings::{Escaped, Escapes};
use crate::profile::key_path::KeyPath;
use crate::profile::source::{ValueSource, ValueSources};
use crate::profile::time::TimeText;
use nextest_config_profiles::report::{Hidden, KeyState, OtherKey, Remark, Row};
use nextest_config_values::literal::KeyText;
use std::alloc::{AllocError, Global};
use std::fmt;

/// What is reported of an empty text that takes away what nextest sets itself.
pub(crate) const NO_VALUE: &str = "no value: the empty text takes the default away";

/// The source of a value that the reader of the table gives.
pub(crate) const TABLE_DEFAULT: &str = "default of the table";

/// A line: its first column, and where it comes from.
#[derive(Drop)]
pub(crate) struct SourcedLine {
    pub first: String,
    pub source: Option<String>,
}

/// What has a line.
pub(crate) trait ToLine {
    ghost reported: { List ℕ → Self → Line };

    /// The line, for the profile with this name.
    fn to_line(&self, alloc: Global, name: &str) -> Result<SourcedLine, AllocError>
        ensures { IfOk result (λ line. line_of line ≡ reported name.now self.now) };
}

/// The line of a key of a setting.
impl ToLine for Row<'_> {
    ghost reported = { row_line };

    fn to_line(&self, alloc: Global, name: &str) -> Result<SourcedLine, AllocError> {
        let key = KeyPath(self.keys.as_slice()).to_string(alloc)?;
        let mut first = first_column(alloc, key.as_str(), &self.state)?;
        first.push_str(unset_mark(self.keys.as_slice(), &self.state))?;
        let source = state_source(alloc, name, &self.state)?;
        Ok(SourcedLine { first, source })
    }
}

/// The line of a value that doesn't count.
impl ToLine for Hidden<'_> {
    ghost reported = { hidden_line };

    fn to_line(&self, alloc: Global, name: &str) -> Result<SourcedLine, AllocError> {
        let key = KeyPath(self.keys.as_slice());
        let first = format!(in alloc; "# hidden: {key} = {}", self.literal.text)?;
        let source = Some(ValueSource(name, self.source).to_string(alloc)?);
        Ok(SourcedLine { first, source })
    }
}

/// The line of a key that no setting reads.
impl ToLine for OtherKey<'_> {
    ghost reported = { other_line };

    fn to_line(&self, alloc: Global, name: &str) -> Result<SourcedLine, AllocError> {
        let first = format!(in alloc; "{} = {}", KeyText(self.key), self.literal.text)?;
        let source = Some(ValueSource(name, self.source).to_string(alloc)?);
        Ok(SourcedLine { first, source })
    }
}

// What is reported of a key; a comment, where it isn't what a file could have in its place.
fn first_column(alloc: Global, key: &str, state: &KeyState<'_>) -> Result<String, AllocError>
    ensures { IfOk result (λ text. string_bytes text ≡ first_column key.now state.now) }
{
    match state {
        KeyState::Value { literal, .. }
        | KeyState::NotJudged { literal, .. }
        | KeyState::Default(literal) => { format!(in alloc; "{key} = {}", literal.text) }
        KeyState::Implied(literal) => format!(in alloc; "# {key} = {}", literal.text),
        KeyState::Unset => format!(in alloc; "# {key} isn't set"),
        KeyState::NoValue(_) => format!(in alloc; "# {key} = {NO_VALUE}"),
        KeyState::Fault { message, .. } => fault_column(alloc, key, message.as_str()),
    }
}

// What is reported of a key whose value its reader refuses, as a comment.
fn fault_column(alloc: Global, key: &str, message: &str) -> Result<String, AllocError>
    ensures { IfOk result (λ text. string_bytes text ≡ fault_column key.now message.now) }
{
    let message = Escaped(Escapes::InLine, message);
    format!(in alloc; "# {key} = {message}")
}

// Where what a key has comes from, for the profile with this name.
fn state_source(
    alloc: Global,
    name: &str,
    state: &KeyState<'_>,
) -> Result<Option<String>, AllocError>
    ensures { IfOk result (λ text. option_map string_bytes text ≡ state_source name.now state.now) }
{
    match state {
        KeyState::Value { source, remark, .. } => {
            let source = ValueSource(name, *source);
            let text = format!(in alloc; "{source}{}", RemarkText(*remark))?;
            Ok(Some(text))
        }
        KeyState::NotJudged { source, .. } => {
            let source = ValueSource(name, *source);
            let text = format!(in alloc; "{source} (not judged)")?;
            Ok(Some(text))
        }
        KeyState::Default(_) | KeyState::Implied(_) => Ok(Some(String::from_str(
            alloc,
            TABLE_DEFAULT,
        )?)),
        KeyState::Unset => Ok(None),
        KeyState::NoValue(source) => Ok(Some(ValueSource(name, *source).to_string(alloc)?)),
        KeyState::Fault { sources, .. } => {
            let sources = ValueSources(name, sources.as_slice());
            Ok(Some(sources.to_string(alloc)?))
        }
    }
}

// What stands behind the source of a value.
#[derive(Clone, Copy)]
struct RemarkText(Remark);

impl fmt::Display for RemarkText {
    ghost output = { λ text. Some (remark_text text.0) };

    fn fmt<W: fmt::Write>(&self, f: &mut fmt::Formatter<W>) -> fmt::Result {
        match self.0 {
            Remark::Nothing => Ok(()),
            Remark::NoLimit => f.write_str(" (no limit)"),
            Remark::TerminatedAfter(time) => write!(f, " (terminated after {})", TimeText(time)),
        }
    }
}

// What stands behind a key that nothing gives.
fn unset_mark(keys: &[&str], state: &KeyState<'_>) -> &'static str
    ensures { result.now ≡ unset_mark (words_of keys.now) state.now }
{
    match state {
        KeyState::Unset => mark_of_unset(keys),
        _ => "",
    }
}

// What stands behind these keys, where nothing gives them.
fn mark_of_unset(keys: &[&str]) -> &'static str
    ensures { result.now ≡ mark_of_unset (words_of keys.now) }
{
    match keys {
        [key] => mark_of_key(key),
        [_, rest @ ..] => mark_of_unset(rest),
        [] => "",
    }
}

fn mark_of_key(key: &str) -> &'static str
    ensures { result.now ≡ mark_of_key key.now }
{
    if key == "terminate-after" {
        " (a slow test goes on)"
    } else {
        ""
    }
}
