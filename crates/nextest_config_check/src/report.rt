//! The report on an input.

ghost use Rattle.std.specs.Prelude.{◌≡◌, IfOk, map};
ghost use Rattle.semver.specs.Identifiers.{parts_of};
ghost use Rattle.nextest_config.specs.NextestVersion.{given_of, configuration_of, experimental_of, verdict, verdict_of};
ghost use Rattle.nextest_config_check.specs.Report.{IsReportFor, IsReportForSources, IsReportOf, exit_status_of, outcome_of, status_of};

use crate::layout::{self, LayoutFault};
use nextest_config::nextest_version::{
    Edition, ExperimentalConfig, ListRefusal, NextestVersionEval, SourceText, UnmetVersion,
    VersionOnlyConfig, VersionRole,
};
use nextest_config_report::exit_status::ExitStatus;
use nextest_config_report::lines::report_text;
use nextest_config_report::source::SourceStyle;
use semver::Version;
use std::alloc::{AllocError, Global};
use std::str;

/// How a check came out.
#[derive(Clone, Copy, Debug, PartialEq, Eq)]
pub enum Outcome {
    /// The current version is enough, or at most a warning or an overridden error is due.
    Passed,
    /// The current version isn't enough for a required one.
    Failed,
    /// The input, or a source in it, is refused.
    Refused,
}

impl Outcome {
    /// The number that the program ends with, where a check came out so.
    pub fn status(self) -> u8
        ensures { result ≡ status_of self }
    {
        self.exit_status().code()
    }

    // How the program ends, where a check came out so.
    fn exit_status(self) -> ExitStatus
        ensures { result ≡ exit_status_of self }
    {
        match self {
            Outcome::Passed => ExitStatus::Success,
            Outcome::Failed => ExitStatus::Failure,
            Outcome::Refused => ExitStatus::Refused,
        }
    }
}

/// A report, each line ended by a line feed.
#[derive(Drop)]
pub(crate) struct Report {
    pub text: String,
    pub outcome: Outcome,
}

/// The report on an input for a current version.
pub(crate) fn report_on(
    alloc: Global,
    input: &[u8],
    current: &Version,
    override_version_check: bool,
    edition: Edition,
) -> Result<Report, AllocError>
    ensures { IfOk result
        (IsReportFor input.now (parts_of current.now) override_version_check edition) }
{
    let Ok(input) = str::from_utf8(input) else {
        return Ok(refused(String::from_str(alloc, "refused: input isn't UTF-8\n")?));
    };
    match layout::sources(alloc, input) {
        Ok(sources) => {
            report_on_sources(alloc, &sources, current, override_version_check, edition)
        }
        Err(LayoutFault::Line(number)) => Ok(refused(format!(in alloc;
            "refused: line {number} isn't a source line\n"
        )?)),
        Err(LayoutFault::Memory) => Err(AllocError),
    }
}

// The report that refuses the input with this text.
fn refused(text: String) -> Report
    ensures { result ≡ record { text = text; outcome = Outcome.Refused } }
{
    Report {
        text,
        outcome: Outcome::Refused,
    }
}

// The report on an input that holds these sources.
fn report_on_sources(
    alloc: Global,
    sources: &[SourceText],
    current: &Version,
    override_version_check: bool,
    edition: Edition,
) -> Result<Report, AllocError>
    ensures { IfOk result (IsReportForSources (map given_of sources.now) (parts_of current.now)
        override_version_check edition) }
{
    match VersionOnlyConfig::from_list_with(alloc, edition, sources) {
        Ok(config) => report_on_read(alloc, &config, current, override_version_check),
        Err(ListRefusal::Refused { position, error }) => Ok(refused(format!(in alloc;
            "refused at {position}: {error}\n"
        )?)),
        Err(ListRefusal::Memory) => Err(AllocError),
    }
}

// The report on a list that reads, for which this configuration stands.
fn report_on_read(
    alloc: Global,
    config: &VersionOnlyConfig,
    current: &Version,
    override_version_check: bool,
) -> Result<Report, AllocError>
    ensures { let configuration = configuration_of config.now in
        IfOk result (IsReportOf (parts_of current.now)
        (verdict configuration.roles (parts_of current.now) override_version_check)
        configuration.experimental) }
{
    let kept = config.nextest_version();
    let eval = kept.eval(alloc, current, override_version_check)?;
    report_on_eval(alloc, &eval, current, config.experimental())
}

// The report of a verdict on the current version, with these features.
fn report_on_eval(
    alloc: Global,
    eval: &NextestVersionEval,
    current: &Version,
    experimental: &ExperimentalConfig,
) -> Result<Report, AllocError>
    ensures { IfOk result (IsReportOf (parts_of current.now) (verdict_of eval.now)
        (experimental_of experimental.now)) }
{
    let text = report_text(alloc, SourceStyle::AsWritten, eval, current, experimental)?;
    let outcome = verdict_outcome(eval);
    Ok(Report { text, outcome })
}

// How a check with this verdict comes out.
fn verdict_outcome(eval: &NextestVersionEval) -> Outcome
    ensures { result ≡ outcome_of (verdict_of eval.now) }
{
    match eval.unmet_version() {
        Some(
            UnmetVersion {
                role: VersionRole::Required,
                overridden: false,
                ..
            },
        ) => Outcome::Failed,
        _ => Outcome::Passed,
    }
}
