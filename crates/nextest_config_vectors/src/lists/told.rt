//! What calls tell of what sources ask, and of what a current version is told.

use crate::answers::{copied, done, push, shown, written};
use crate::failure::Failure;
use crate::lists::features::{joined, words};
use crate::runner::Runner;
use crate::told::{Told, tell};
use crate::values::{FromRow, word};
use nextest_config::board::BoardRefusal;
use nextest_config::nextest_version::{
    ConfigParseError, ConfigSource, ExperimentalConfig, ListRefusal, NextestVersionConfig,
    NextestVersionDeserialize, NextestVersionEval, NextestVersionReq, Severity, UnmetVersion,
    VersionOnlyConfig, VersionRole,
};
use semver::Version;
use std::collections::BTreeSet;

// A change that was made.
impl Told for () {
    fn told(&self, rt: &Runner, _call: &str) -> Result<String, Failure> {
        copied(rt, "done")
    }
}

impl Told for NextestVersionDeserialize {
    fn told(&self, rt: &Runner, _call: &str) -> Result<String, Failure> {
        let required = version(rt, self.required.as_ref())?;
        let recommended = version(rt, self.recommended.as_ref())?;
        done(rt, format!(in rt.alloc(); "{required} {recommended}"))
    }
}

fn version(rt: &Runner, version: Option<&Version>) -> Result<String, Failure> {
    match version {
        Some(version) => done(rt, version.to_string(rt.alloc())),
        None => copied(rt, "none"),
    }
}

impl Told for ListRefusal {
    fn told(&self, rt: &Runner, call: &str) -> Result<String, Failure> {
        match self {
            ListRefusal::Refused { position: _, error } if call == "error" => error.told(rt, call),
            _ => shown(rt, self),
        }
    }
}

impl Told for ConfigParseError {
    fn told(&self, rt: &Runner, call: &str) -> Result<String, Failure> {
        match self.source() {
            Some(source) if call == "error" => {
                done(rt, format!(in rt.alloc(); "{:?}, {source}", self.kind()))
            }
            _ => shown(rt, self),
        }
    }
}

impl Told for BoardRefusal {
    fn told(&self, rt: &Runner, _call: &str) -> Result<String, Failure> {
        shown(rt, self)
    }
}

impl Told for VersionOnlyConfig {
    fn told(&self, rt: &Runner, call: &str) -> Result<String, Failure> {
        match call {
            "all" => all(rt, self),
            "features" | "arrays" => self.experimental().told(rt, call),
            _ => self.nextest_version().told(rt, call),
        }
    }
}

fn all(rt: &Runner, config: &VersionOnlyConfig) -> Result<String, Failure> {
    let mut line = versions(rt, config.nextest_version())?;
    push(&mut line, "; ")?;
    push(&mut line, config.experimental().told(rt, "all")?.as_str())?;
    Ok(line)
}

// The known features; each source with its unknown ones, and each that names its features in an
// array, unless the call asks for one of them alone.
impl Told for ExperimentalConfig {
    fn told(&self, rt: &Runner, call: &str) -> Result<String, Failure> {
        let mut line = copied(rt, "known")?;
        push(&mut line, words(rt, self.known())?.as_str())?;
        match call {
            "features" => push_unknown(rt, &mut line, self)?,
            "arrays" => push_arrays(rt, &mut line, self, "")?,
            _ => {
                push_unknown(rt, &mut line, self)?;
                push_arrays(rt, &mut line, self, "array ")?;
            }
        }
        Ok(line)
    }
}

fn push_unknown(
    rt: &Runner,
    line: &mut String,
    experimental: &ExperimentalConfig,
) -> Result<(), Failure> {
    for (source, names) in experimental.source_errors() {
        push_names(rt, line, source, names)?;
    }
    Ok(())
}

fn push_names(
    rt: &Runner,
    line: &mut String,
    source: &ConfigSource,
    names: &BTreeSet<String>,
) -> Result<(), Failure> {
    let names = joined(rt, names)?;
    done(rt, write!(line, "; {source}:{names}"))?;
    Ok(())
}

fn push_arrays(
    rt: &Runner,
    line: &mut String,
    experimental: &ExperimentalConfig,
    mark: &str,
) -> Result<(), Failure> {
    for source in experimental.array_sources() {
        done(rt, write!(line, "; {mark}{source}"))?;
    }
    Ok(())
}

// The versions that are kept, or what they tell a current version.
impl Told for NextestVersionConfig {
    fn told(&self, rt: &Runner, call: &str) -> Result<String, Failure> {
        match call {
            "all" | "versions" => versions(rt, self),
            _ => tell(rt, call, verdict(rt, self, call)?),
        }
    }
}

fn verdict(
    rt: &Runner,
    config: &NextestVersionConfig,
    call: &str,
) -> Result<NextestVersionEval, Failure> {
    let (current, flag) = word(call);
    let current = Version::from_row(rt, current)?;
    done(rt, config.eval(rt.alloc(), &current, flag == "--override"))
}

fn versions(rt: &Runner, config: &NextestVersionConfig) -> Result<String, Failure> {
    let required = config.required.told(rt, "")?;
    let recommended = config.recommended.told(rt, "")?;
    done(rt, format!(in rt.alloc(); "{required}, {recommended}"))
}

impl Told for NextestVersionReq {
    fn told(&self, rt: &Runner, _call: &str) -> Result<String, Failure> {
        match (self.version(), self) {
            (Some(version), NextestVersionReq::Version { version: _, source }) => {
                done(rt, format!(in rt.alloc(); "{version} from {source}"))
            }
            (None, NextestVersionReq::None) => copied(rt, "none"),
            _ => copied(rt, "a version on one side alone"),
        }
    }
}

// A verdict, with its role and severity.
impl Told for NextestVersionEval {
    fn told(&self, rt: &Runner, _call: &str) -> Result<String, Failure> {
        let severity = self.severity();
        let Some(unmet) = self.unmet_version() else {
            return written(rt, severity);
        };
        let mark = if unmet.overridden { "overridden " } else { "" };
        let grave = match (unmet.role, severity) {
            (VersionRole::Required, Severity::Error) => "Error",
            (VersionRole::Recommended, Severity::Warn) => "Warn",
            _ => "a severity of another role",
        };
        told_unmet(rt, mark, grave, &unmet)
    }
}

fn told_unmet(
    rt: &Runner,
    mark: &str,
    grave: &str,
    unmet: &UnmetVersion,
) -> Result<String, Failure> {
    let (version, source, current) = (unmet.version, unmet.source, unmet.current);
    done(
        rt,
        format!(in rt.alloc(); "{mark}{grave}: {version}, {source}, {current}"),
    )
}
