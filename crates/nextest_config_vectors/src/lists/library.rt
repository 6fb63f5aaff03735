//! What a user of the libraries writes, as the docs of the library show it.

use crate::answers::shown;
use crate::failure::Failure;
use crate::runner::Runner;
use crate::values::part;
use anyhow::{Error, Result};
use nextest_config::nextest_version::{
    ConfigSource, ConfigSourceKind, NextestVersionEval, SourceText, VersionOnlyConfig,
};
use nextest_config_elements::max_fail::TerminateMode;
use nextest_config_values::identifier::ToolName;
use nextest_config_values::read::FromToml;
use semver::Version;
use std::alloc::{AllocError, Global};
use toml::Value;

// A file of a tool or of a repository.
fn source(alloc: Global, kind: ConfigSourceKind, path: &str, contents: &str) -> Result<SourceText> {
    let path = String::from_str(alloc, path)?;
    let contents = Some(String::from_str(alloc, contents)?);
    Ok(SourceText {
        source: ConfigSource { kind, path },
        contents,
    })
}

// A tool's file and a repository's.
fn sources(alloc: Global) -> Result<Vec<SourceText>> {
    let tool = ConfigSourceKind::Tool(ToolName::new(alloc, "my-tool")?);
    let repository = ConfigSourceKind::DiscoveredRepository;
    let required = "nextest-version = '0.9.50'";
    let recommended = "nextest-version = { recommended = '0.9.60' }";
    let mut sources = Vec::new(alloc);
    sources.push(source(alloc, tool, "/etc/my-tool.toml", required)?)?;
    sources.push(source(alloc, repository, ".config/nextest.toml", recommended)?)?;
    Ok(sources)
}

// What they tell a current version.
fn check(alloc: Global, sources: &[SourceText], current: &Version) -> Result<NextestVersionEval> {
    let config = VersionOnlyConfig::from_list(alloc, sources)?;
    Ok(config.nextest_version().eval(alloc, current, false)?)
}

fn describe(alloc: Global, verdict: &NextestVersionEval) -> Result<String, AllocError> {
    match verdict {
        NextestVersionEval::Satisfied => String::from_str(alloc, "satisfied"),
        NextestVersionEval::Error {
            required,
            source,
            ..
        }
        | NextestVersionEval::ErrorOverride {
            required,
            source,
            ..
        } => format!(in alloc; "{required} is required by {source}"),
        NextestVersionEval::Warn {
            recommended,
            source,
            ..
        }
        | NextestVersionEval::WarnOverride {
            recommended,
            source,
            ..
        } => format!(in alloc; "{recommended} is recommended by {source}"),
    }
}

// What a TOML value says of running tests once the fail limit is reached.
fn terminate(alloc: Global, value: &Value) -> Result<String, AllocError> {
    match TerminateMode::read(alloc, value, "profile.ci.fail-fast.terminate") {
        Ok(mode) => mode.to_string(alloc),
        Err(fault) => fault.to_string(alloc),
    }
}

// What the sources tell a current version, or what a value says, as a line.
fn line(alloc: Global, call: &str, input: &str) -> Result<String> {
    if call == "verdict" {
        told(alloc, input)
    } else {
        terminated(alloc, input)
    }
}

fn told(alloc: Global, current: &str) -> Result<String> {
    let sources = sources(alloc)?;
    let current = Version::parse(alloc, current)?;
    let verdict = check(alloc, &sources, &current)?;
    part(verdict, |verdict| describe(alloc, verdict)).map_err(Error::from)
}

fn terminated(alloc: Global, input: &str) -> Result<String> {
    let value = Value::string(alloc, input)?;
    terminate(alloc, &value).map_err(Error::from)
}

/// The line that is made of the answers of the libraries.
pub fn library(rt: &Runner, call: &str, input: &str) -> Result<String, Failure> {
    let line = line(rt.call(), call, input);
    rt.end();
    match line {
        Ok(line) => Ok(line),
        Err(error) => shown(rt, &error),
    }
}
