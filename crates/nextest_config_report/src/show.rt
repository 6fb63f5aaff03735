//! What a list asks, for people and for programs.

ghost use Rattle.std.specs.Prelude.{◌≡◌, ◌++◌, IfOk, map, OnOk, string_bytes};
ghost use Rattle.serde_json.specs.Data.{string};
ghost use Rattle.serde_json.specs.View.{view};
ghost use Rattle.nextest_config.specs.NextestVersion.{arrays_left, configuration_of, errors_left, kept_of};
ghost use Rattle.nextest_config.specs.NextestVersion.ExperimentalConfig.{unknown_from};
ghost use Rattle.nextest_config_report.specs.Names.{texts_of};
ghost use Rattle.nextest_config_report.specs.Show.{array_of, feature_data, format_reads_back, format_word, formats, kept_data, place_data, profiles_line, role_line, show_data, show_json, show_lines, show_text, unknown_data};

use crate::lines::push_features;
use crate::names::push_names;
use crate::source::{SourceStyle, source_text};
use nextest_config::nextest_version::{
    ArraySources, ConfigExperimental, ConfigSource, NextestVersionReq, SourceErrors,
    VersionOnlyConfig,
};
use nextest_config_values::read::Word;
use serde_json::{Value, json};
use std::alloc::{AllocError, Global};
use std::collections::BTreeSet;
use std::fmt::Write;

/// How it is shown what a list asks.
#[derive(Clone, Copy, Debug, PartialEq, Eq)]
pub enum ShowFormat {
    /// Lines for people.
    Human,
    /// For programs, an object of JSON on a line of its own: `required` and `recommended`, each
    /// with its `version` and `source` or null, `known`, `unknown` by their sources,
    /// `deprecated_arrays`, and `profiles`.
    Json,
}

impl Word for ShowFormat {
    ghost all = { formats };

    ghost word = { format_word };

    ghost reads_back = { format_reads_back };

    fn all() -> &'static [Self] {
        &[ShowFormat::Human, ShowFormat::Json]
    }

    fn words() -> &'static [&'static str] {
        &["human", "json"]
    }

    fn position(self) -> usize {
        self as usize
    }
}

/// What a list asks: the versions, each with the source that asks it, and the features; and the
/// names of its profiles, which are these.
pub fn show_text(
    alloc: Global,
    format: ShowFormat,
    config: &VersionOnlyConfig,
    profiles: &[&str],
) -> Result<String, AllocError>
    ensures { IfOk result (λ text. string_bytes text
        ≡ show_text format (configuration_of config.now) (texts_of profiles.now)) }
{
    match format {
        ShowFormat::Human => show_lines(alloc, config, profiles),
        ShowFormat::Json => show_json(alloc, config, profiles),
    }
}

// The lines that people read.
fn show_lines(
    alloc: Global,
    config: &VersionOnlyConfig,
    profiles: &[&str],
) -> Result<String, AllocError>
    ensures { IfOk result (λ text. string_bytes text
        ≡ show_lines (configuration_of config.now) (texts_of profiles.now)) }
{
    let kept = config.nextest_version();
    let mut text = String::new(alloc);
    push_role(alloc, &mut text, "required", &kept.required)?;
    push_role(alloc, &mut text, "recommended", &kept.recommended)?;
    push_features(alloc, &mut text, SourceStyle::InLine, config.experimental())?;
    push_profiles(&mut text, profiles)?;
    Ok(text)
}

// Pushes the line of the names of profiles.
fn push_profiles(text: &mut String, profiles: &[&str]) -> Result<(), AllocError>
    ensures { OnOk result (string_bytes text.new
        ≡ string_bytes text.old ++ profiles_line (texts_of profiles.now)) }
{
    text.push_str("profiles: ")?;
    push_names(text, profiles)?;
    text.push_str("\n")
}

// Pushes the line of the version that is kept in a role.
fn push_role(
    alloc: Global,
    text: &mut String,
    role: &str,
    kept: &NextestVersionReq,
) -> Result<(), AllocError>
    ensures { OnOk result (string_bytes text.new ≡ string_bytes text.old
        ++ role_line role.now (kept_of kept.now)) }
{
    match kept {
        NextestVersionReq::Version { version, source } => {
            let source = source_text(alloc, SourceStyle::InLine, source)?;
            writeln!(text, "{role}: {version} by {source}")
        }
        NextestVersionReq::None => writeln!(text, "{role}: none"),
    }
}

// The object that programs read, on a line of its own.
fn show_json(
    alloc: Global,
    config: &VersionOnlyConfig,
    profiles: &[&str],
) -> Result<String, AllocError>
    ensures { IfOk result (λ text. string_bytes text
        ≡ show_json (configuration_of config.now) (texts_of profiles.now)) }
{
    let value = show_value(alloc, config, profiles)?;
    let mut text = value.to_string(alloc)?;
    text.push_str("\n")?;
    Ok(text)
}

// What a list asks, as an object.
fn show_value(
    alloc: Global,
    config: &VersionOnlyConfig,
    profiles: &[&str],
) -> Result<Value, AllocError>
    ensures { IfOk result (λ value. view value
        ≡ show_data (configuration_of config.now) (texts_of profiles.now)) }
{
    let kept = config.nextest_version();
    let experimental = config.experimental();
    json!(in alloc; {
        "required": kept_value(alloc, &kept.required)?,
        "recommended": kept_value(alloc, &kept.recommended)?,
        "known": known_value(alloc, experimental.known())?,
        "unknown": unknown_value(alloc, experimental.source_errors())?,
        "deprecated_arrays": arrays_value(alloc, experimental.array_sources())?,
        "profiles": profiles_value(alloc, profiles)?,
    })
}

// The version that is kept in a role, with its source; null where there is none.
fn kept_value(alloc: Global, kept: &NextestVersionReq) -> Result<Value, AllocError>
    ensures { IfOk result (λ value. view value ≡ kept_data (kept_of kept.now)) }
{
    match kept {
        NextestVersionReq::Version { version, source } => json!(in alloc; {
            "version": version.to_string(alloc)?,
            "source": source.to_string(alloc)?,
        }),
        NextestVersionReq::None => Ok(Value::Null),
    }
}

// The words of the features.
fn known_value(alloc: Global, known: &BTreeSet<ConfigExperimental>) -> Result<Value, AllocError>
    ensures { IfOk result (λ value. view value ≡ array_of feature_data known.now.keys) }
{
    let mut words = Vec::new(alloc);
    for feature in known {
        let word = Value::try_from_str(alloc, feature.as_word())?;
        words.push(word)?;
    }
    Ok(Value::Array(words))
}

// The sources that have unknown feature names, each with these names.
fn unknown_value(alloc: Global, errors: SourceErrors<'_>) -> Result<Value, AllocError>
    ensures { IfOk result (λ value. view value ≡ array_of unknown_data (errors_left errors.entry)) }
{
    let mut entries = Vec::new(alloc);
    for (source, names) in errors {
        entries.push(entry_value(alloc, source, names)?)?;
    }
    Ok(Value::Array(entries))
}

// A source that has these unknown feature names.
fn entry_value(
    alloc: Global,
    source: &ConfigSource,
    names: &BTreeSet<String>,
) -> Result<Value, AllocError>
    ensures { IfOk result (λ value. view value ≡ unknown_data (unknown_from source.now names.now)) }
{
    json!(in alloc; {
        "source": source.to_string(alloc)?,
        "features": names_value(alloc, names)?,
    })
}

// The unknown feature names of a source.
fn names_value(alloc: Global, names: &BTreeSet<String>) -> Result<Value, AllocError>
    ensures { IfOk result (λ value. view value
        ≡ array_of string (map string_bytes names.now.keys)) }
{
    let mut values = Vec::new(alloc);
    for name in names {
        values.push(Value::try_from_str(alloc, name.as_str())?)?;
    }
    Ok(Value::Array(values))
}

// The sources that name their features in an array.
fn arrays_value(alloc: Global, arrays: ArraySources<'_>) -> Result<Value, AllocError>
    ensures { IfOk result (λ value. view value ≡ array_of place_data (arrays_left arrays.entry)) }
{
    let mut sources = Vec::new(alloc);
    for source in arrays {
        let source = source.to_string(alloc)?;
        sources.push(Value::from(source))?;
    }
    Ok(Value::Array(sources))
}

// The names of profiles, as they are.
fn profiles_value(alloc: Global, profiles: &[&str]) -> Result<Value, AllocError>
    ensures { IfOk result (λ value. view value ≡ array_of string (texts_of profiles.now)) }
{
    let mut names = Vec::new(alloc);
    for name in profiles {
        names.push(Value::try_from_str(alloc, name)?)?;
    }
    Ok(Value::Array(names))
}
