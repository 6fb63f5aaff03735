//! JUnit reports, reports of skipped tests, and what a report says of a flaky test.

use crate::answers::{copied, cut, done, made, made_or_error, shown, text, unknown, written};
use crate::failure::Failure;
use crate::runner::Runner;
use crate::told::{Told, answered, tell};
use crate::values::{FromRow, word};
use nextest_config_elements::junit::{
    DefaultJunitImpl, JunitConfig, JunitImpl, JunitSettings, MissingSetting,
};
use nextest_config_elements::report_skip_policy::{MismatchReason, ReportSkipPolicy};
use nextest_config_elements::retry_policy::FlakyResult;
use nextest_config_values::helpers::join_path;
use nextest_config_values::read::{FromToml, Word};
use std::alloc::AllocError;
use toml::Value;

/// What is read of a report, and the report of the settings.
pub fn reports(rt: &Runner, call: &str, input: &str) -> Result<String, Failure> {
    let (name, rest) = word(call);
    match name {
        "join" => text(rt, join_path(rt.call(), rest, input)),
        "default" => written(rt, default_of(rt, input)?),
        "printed" => made_or_error(rt, default_of(rt, input)?),
        _ => tell(rt, call, DefaultJunitImpl::from_row(rt, input)?),
    }
}

// What the default profile says by this value.
fn default_of(
    rt: &Runner,
    text: &str,
) -> Result<Result<DefaultJunitImpl, MissingSetting>, Failure> {
    let junit = JunitImpl::from_row(rt, text)?;
    rt.begin();
    Ok(DefaultJunitImpl::for_default_profile(junit))
}

/// Writes the setting's TOML value.
impl FromRow for JunitImpl {
    fn from_row(rt: &Runner, text: &str) -> Result<Self, Failure> {
        let value = Value::from_row(rt, text)?;
        done(rt, JunitImpl::read(rt.alloc(), &value, "junit"))
    }
}

/// Writes the default profile's TOML value.
impl FromRow for DefaultJunitImpl {
    fn from_row(rt: &Runner, text: &str) -> Result<Self, Failure> {
        let junit = JunitImpl::from_row(rt, text)?;
        done(rt, DefaultJunitImpl::for_default_profile(junit))
    }
}

// The report of copied settings, below the folder that a call names last.
impl Told for DefaultJunitImpl {
    fn told(&self, rt: &Runner, call: &str) -> Result<String, Failure> {
        let settings = JunitSettings {
            path: self.path.as_deref(),
            report_name: self.report_name.as_str(),
            store_success_output: self.store_success_output,
            store_failure_output: self.store_failure_output,
            report_skipped: self.report_skipped,
            flaky_fail_status: self.flaky_fail_status,
        };
        let settings = done(rt, settings.clone())?;
        let (call, folder) = word(call);
        if call == "report" {
            let report = JunitConfig::new(rt.call(), folder, settings);
            answered(rt, call, report)
        } else {
            let report = JunitConfig::new(rt.alloc(), folder, settings);
            tell(rt, call, done(rt, report)?)
        }
    }
}

impl Told for AllocError {
    fn told(&self, rt: &Runner, _call: &str) -> Result<String, Failure> {
        shown(rt, self)
    }
}

impl<T: Told> Told for Option<T> {
    fn told(&self, rt: &Runner, call: &str) -> Result<String, Failure> {
        match self {
            Some(value) => value.told(rt, call),
            None => none(rt),
        }
    }
}

fn none(rt: &Runner) -> Result<String, Failure> {
    rt.end();
    copied(rt, "none")
}

impl Told for JunitConfig<'_> {
    fn told(&self, rt: &Runner, call: &str) -> Result<String, Failure> {
        match call {
            "report" => parts(rt, self),
            "copied-report" => copied_report(rt, self.clone(rt.call())),
            _ => unknown(rt, call),
        }
    }
}

fn copied_report(rt: &Runner, copy: Result<JunitConfig, AllocError>) -> Result<String, Failure> {
    match copy {
        Ok(copy) => parts(rt, &copy),
        Err(error) => shown(rt, &error),
    }
}

// What a report lends, at the end of a call.
fn parts(rt: &Runner, report: &JunitConfig) -> Result<String, Failure> {
    let path = report.path();
    let name = report.report_name();
    let success = report.store_success_output();
    let failure = report.store_failure_output();
    let skipped = report.report_skipped();
    let status = report.flaky_fail_status();
    rt.end();
    let line = format!(in rt.alloc(); "{path} {name} {success} {failure} {skipped:?} {status:?}");
    done(rt, line)
}

/// Which skipped tests are reported, and what is said of flaky ones.
pub fn skipped(rt: &Runner, call: &str, input: &str) -> Result<String, Failure> {
    match word(call) {
        ("reported", policy) => reported(rt, policy, input),
        ("flaky", policy) => flaky(rt, policy, input),
        ("reasons", _) => reasons(rt),
        _ => reason(rt, call, MismatchReason::from_row(rt, input)?),
    }
}

impl FromRow for MismatchReason {
    fn from_row(rt: &Runner, text: &str) -> Result<Self, Failure> {
        match text {
            "Ignored" => Ok(MismatchReason::Ignored),
            "DefaultFilter" => Ok(MismatchReason::DefaultFilter),
            "NotBenchmark" => Ok(MismatchReason::NotBenchmark),
            _ => unknown(rt, text),
        }
    }
}

// The value of a word, as a source's text is read.
fn of_word<T: Word>(rt: &Runner, word: &str) -> Result<T, Failure> {
    let value = done(rt, Value::string(rt.alloc(), word))?;
    done(rt, T::read(rt.alloc(), &value, "word"))
}

fn reported(rt: &Runner, policy: &str, reason: &str) -> Result<String, Failure> {
    let policy: ReportSkipPolicy = of_word(rt, policy)?;
    let reason = MismatchReason::from_row(rt, reason)?;
    rt.begin();
    written(rt, policy.should_report(reason))
}

fn reasons(rt: &Runner) -> Result<String, Failure> {
    rt.begin();
    written(rt, MismatchReason::ALL_VARIANTS)
}

fn reason(rt: &Runner, call: &str, reason: MismatchReason) -> Result<String, Failure> {
    rt.begin();
    match call {
        "is ignore mismatch" => written(rt, reason.is_ignore_mismatch()),
        "is substantive skip" => written(rt, reason.is_substantive_skip()),
        _ => unknown(rt, call),
    }
}

fn flaky(rt: &Runner, policy: &str, attempts: &str) -> Result<String, Failure> {
    let policy: FlakyResult = of_word(rt, policy)?;
    let (attempt, total) = cut(attempts, "/")?;
    let attempt = done(rt, attempt.parse())?;
    let total = done(rt, total.parse())?;
    made(rt, policy.fail_message(rt.call(), attempt, total))
}
