//! The verdict on the current version, as the formats tell it.

ghost use Rattle.std.specs.Prelude.{◌≡◌, IfOk, string_bytes};
ghost use Rattle.semver.specs.Identifiers.{parts_of};
ghost use Rattle.nextest_config.specs.NextestVersion.{experimental_of, verdict_of, place_of};
ghost use Rattle.nextest_config_command.specs.Asked.{SomeAsks};
ghost use Rattle.nextest_config_command.specs.Found.{all_files, files_of};
ghost use Rattle.nextest_config_command.specs.Verdict.{IsAskedFor, IsShortfallReported, IsVerdictFinding, IsVerdictReported, overridden_text, role_text, shortfall_message, shortfall_of, shortfall_severity};

use crate::asked::asked_version;
use crate::parsed_file::ParsedFiles;
use crate::request::CheckTask;
use nextest_config::nextest_version::{
    ExperimentalConfig, NextestVersionEval, UnmetVersion, VersionRole,
};
use nextest_config_lint::{FindingSeverity, PathText};
use nextest_config_output::findings::{Diagnostic, Format, push_finding};
use nextest_config_report::lines::report_text;
use nextest_config_report::source::SourceStyle;
use std::alloc::{AllocError, Global};

/// The verdict on the current version of a check: with the features, as lines for people, or alone,
/// as a finding where the version is asked.
pub(crate) fn verdict_text(
    alloc: Global,
    check: &CheckTask,
    files: &ParsedFiles<'_>,
    eval: &NextestVersionEval,
    experimental: &ExperimentalConfig,
) -> Result<String, AllocError>
    requires { IsAskedFor (all_files (files_of files.now)) (verdict_of eval.now) }
    ensures { IfOk result (λ text. IsVerdictReported check.now.lint.format
        (all_files (files_of files.now)) (parts_of check.now.current) (verdict_of eval.now)
        (experimental_of experimental.now) (string_bytes text)) }
{
    match check.lint.format {
        Format::Human | Format::Full => {
            report_text(
                alloc,
                SourceStyle::InLine,
                eval,
                &check.current,
                experimental,
            )
        }
        Format::Github | Format::Json => finding_text(alloc, check.lint.format, files, eval),
    }
}

// The verdict as a finding; one that is satisfied is none.
fn finding_text(
    alloc: Global,
    format: Format,
    files: &ParsedFiles<'_>,
    eval: &NextestVersionEval,
) -> Result<String, AllocError>
    requires { IsAskedFor (all_files (files_of files.now)) (verdict_of eval.now) }
    ensures { IfOk result (λ text. IsVerdictFinding format (all_files (files_of files.now))
        (verdict_of eval.now) (string_bytes text)) }
{
    match eval.unmet_version() {
        Some(unmet) => unmet_text(alloc, format, files, &unmet),
        None => Ok(String::new(alloc)),
    }
}

// The unmet version as a finding, where a file asks for it.
fn unmet_text(
    alloc: Global,
    format: Format,
    files: &ParsedFiles<'_>,
    unmet: &UnmetVersion<'_>,
) -> Result<String, AllocError>
    requires { SomeAsks (all_files (files_of files.now)) unmet.now.role
        (place_of unmet.now.source.now) }
    ensures { IfOk result (λ text. IsShortfallReported format (all_files (files_of files.now))
        unmet.now.role (shortfall_of unmet.now) (string_bytes text)) }
{
    let asked = asked_version(alloc, files, unmet.role, unmet.source)?;
    let key = PathText(asked.path.as_slice()).to_string(alloc)?;
    let message = unmet_message(alloc, unmet)?;
    let diagnostic = Diagnostic {
        file: unmet.source.path.as_str(),
        span: asked.span,
        severity: unmet_severity(unmet.role, unmet.overridden),
        code: "nextest-version",
        key: key.as_str(),
        message: message.as_str(),
    };
    let mut text = String::new(alloc);
    push_finding(alloc, &mut text, format, &diagnostic, &[])?;
    Ok(text)
}

// What is said of the unmet version.
fn unmet_message(alloc: Global, unmet: &UnmetVersion<'_>) -> Result<String, AllocError>
    ensures { IfOk result (λ text.
        string_bytes text ≡ shortfall_message unmet.now.role (shortfall_of unmet.now)) }
{
    let UnmetVersion {
        role,
        version,
        current,
        source,
        overridden,
    } = unmet;
    let overridden = overridden_word(*overridden);
    let role = role_word(*role);
    format!(in alloc; "{overridden}{version} {role} by {source}, current {current}")
}

fn overridden_word(overridden: bool) -> &'static str
    ensures { result.now ≡ overridden_text overridden }
{
    if overridden { "(overridden) " } else { "" }
}

fn role_word(role: VersionRole) -> &'static str
    ensures { result.now ≡ role_text role }
{
    match role {
        VersionRole::Required => "required",
        VersionRole::Recommended => "recommended",
    }
}

// How grave an unmet version is. One that is overridden is no error.
fn unmet_severity(role: VersionRole, overridden: bool) -> FindingSeverity
    ensures { result ≡ shortfall_severity role overridden }
{
    match (role, overridden) {
        (VersionRole::Required, false) => FindingSeverity::Error,
        (VersionRole::Required, true) | (VersionRole::Recommended, _) => FindingSeverity::Warning,
    }
}
