//! The lines of a report on a list that reads.

ghost use Rattle.std.specs.Prelude.{◌≡◌, ◌++◌, IfOk, OnOk, flat_map, string_bytes};
ghost use Rattle.semver.specs.Identifiers.{parts_of};
ghost use Rattle.nextest_config.specs.NextestVersion.{place_of, arrays_left, errors_left, experimental_of, verdict_of};
ghost use Rattle.nextest_config_report.specs.Lines.{array_line, features_text, known_text, read_text, shortfall_text, unknown_line, verdict_text};

use crate::source::{SourceStyle, source_text};
use nextest_config::nextest_version::{
    ArraySources, ConfigExperimental, ExperimentalConfig, NextestVersionEval, SourceErrors,
    UnmetVersion, VersionRole,
};
use nextest_config_values::read::QuotedTexts;
use semver::Version;
use std::alloc::{AllocError, Global};
use std::collections::BTreeSet;
use std::fmt::Write;

/// The lines of a list that reads: that of the verdict on the current version, and those of the
/// features.
pub fn report_text(
    alloc: Global,
    style: SourceStyle,
    eval: &NextestVersionEval,
    current: &Version,
    experimental: &ExperimentalConfig,
) -> Result<String, AllocError>
    ensures { IfOk result (λ text. string_bytes text ≡ read_text style (parts_of current.now)
        (verdict_of eval.now) (experimental_of experimental.now)) }
{
    let mut text = verdict_line(alloc, style, eval, current)?;
    text.push_str("\n")?;
    push_features(alloc, &mut text, style, experimental)?;
    Ok(text)
}

// The line of a verdict on the current version, without its end.
fn verdict_line(
    alloc: Global,
    style: SourceStyle,
    eval: &NextestVersionEval,
    current: &Version,
) -> Result<String, AllocError>
    ensures { IfOk result (λ text. string_bytes text
        ≡ verdict_text style (parts_of current.now) (verdict_of eval.now)) }
{
    let Some(unmet) = eval.unmet_version() else {
        return format!(in alloc; "satisfied: {current}");
    };
    match (unmet.role, unmet.overridden) {
        (VersionRole::Required, false) => unmet_line(alloc, style, &unmet, "error", "required"),
        (VersionRole::Required, true) => {
            unmet_line(alloc, style, &unmet, "error (overridden)", "required")
        }
        (VersionRole::Recommended, false) => unmet_line(
            alloc,
            style,
            &unmet,
            "warning",
            "recommended",
        ),
        (VersionRole::Recommended, true) => {
            unmet_line(alloc, style, &unmet, "warning (overridden)", "recommended")
        }
    }
}

// The line of a verdict that isn't satisfied, with the words of the verdict and of the role.
fn unmet_line(
    alloc: Global,
    style: SourceStyle,
    unmet: &UnmetVersion<'_>,
    says: &str,
    asks: &str,
) -> Result<String, AllocError>
    ensures { IfOk result (λ text. string_bytes text
        ≡ shortfall_text style says.now (parts_of unmet.now.version.now) asks.now
        (place_of unmet.now.source.now) (parts_of unmet.now.current.now)) }
{
    let UnmetVersion {
        version,
        source,
        current,
        ..
    } = unmet;
    let source = source_text(alloc, style, source)?;
    format!(in alloc; "{says}: {version} {asks} by {source}, current {current}")
}

/// Pushes the lines of the features: the words of the known ones, or that there is none, then a
/// line for each source that has unknown feature names, and then one for each that names its
/// features in an array. Where memory is refused, some of it may have been pushed.
pub fn push_features(
    alloc: Global,
    text: &mut String,
    style: SourceStyle,
    experimental: &ExperimentalConfig,
) -> Result<(), AllocError>
    ensures { OnOk result (string_bytes text.new
        ≡ string_bytes text.old ++ features_text style (experimental_of experimental.now)) }
{
    text.push_str("known: ")?;
    push_known(text, experimental.known())?;
    text.push_str("\n")?;
    push_unknown(alloc, text, style, experimental.source_errors())?;
    push_arrays(alloc, text, style, experimental.array_sources())
}

// Pushes the words of the features, or that there is none.
fn push_known(text: &mut String, known: &BTreeSet<ConfigExperimental>) -> Result<(), AllocError>
    ensures { OnOk result (string_bytes text.new
        ≡ string_bytes text.old ++ known_text known.now.keys) }
{
    if known.is_empty() {
        return text.push_str("none");
    }
    let mut separator = "";
    for feature in known {
        text.push_str(separator)?;
        text.push_str(feature.as_word())?;
        separator = ", ";
    }
    Ok(())
}

// Pushes a line for each source that has unknown feature names.
fn push_unknown(
    alloc: Global,
    text: &mut String,
    style: SourceStyle,
    errors: SourceErrors<'_>,
) -> Result<(), AllocError>
    ensures { OnOk result (string_bytes text.new
        ≡ string_bytes text.old ++ flat_map (unknown_line style) (errors_left errors.entry)) }
{
    for (source, names) in errors {
        let source = source_text(alloc, style, source)?;
        writeln!(text, "unknown in {source}: {}", QuotedTexts(names))?;
    }
    Ok(())
}

// Pushes a line for each source that names its features in an array.
fn push_arrays(
    alloc: Global,
    text: &mut String,
    style: SourceStyle,
    arrays: ArraySources<'_>,
) -> Result<(), AllocError>
    ensures { OnOk result (string_bytes text.new
        ≡ string_bytes text.old ++ flat_map (array_line style) (arrays_left arrays.entry)) }
{
    for source in arrays {
        let source = source_text(alloc, style, source)?;
        writeln!(text, "deprecated array form in {source}")?;
    }
    Ok(())
}
