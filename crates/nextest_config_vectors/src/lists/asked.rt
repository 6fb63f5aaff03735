//! What sources ask together, and what a current version is told.

use crate::answers::{done, unknown, written};
use crate::failure::Failure;
use crate::lists::joins::{as_it_was, changed};
use crate::lists::sources::listed;
use crate::runner::Runner;
use crate::told::answered;
use crate::values::{FromRow, both, word};
use nextest_config::nextest_version::{
    ConfigParseError, ConfigSource, Edition, ListRefusal, NextestVersionConfig,
    NextestVersionDeserialize, RepositoryText, SourceText, ToolText, VersionOnlyConfig,
};
use nextest_config_values::read::FromToml;
use semver::Version;
use toml::Value;

/// What a list of sources asks, or why it is refused.
pub fn lists(rt: &Runner, call: &str, input: &str) -> Result<String, Failure> {
    let sources: Vec<SourceText> = listed(rt, input)?;
    let (reader, call) = reader_of(call);
    let answer = read_list(rt, reader, &sources)?;
    rt.end();
    answered(rt, call, answer)
}

// The reader that a call names in front of a colon, if it does, and what stands after it.
fn reader_of(call: &str) -> (&str, &str) {
    call.split_once(": ").unwrap_or(("", call))
}

// The edition that a reader names last.
fn edition_of(reader: &str) -> Edition {
    if reader.ends_with("TableOnly") {
        Edition::TableOnly
    } else {
        Edition::ArrayAllowed
    }
}

fn read_list(
    rt: &Runner,
    reader: &str,
    sources: &[SourceText],
) -> Result<Result<VersionOnlyConfig, ListRefusal>, Failure> {
    if reader.is_empty() {
        Ok(VersionOnlyConfig::from_list(rt.call(), sources))
    } else {
        Ok(VersionOnlyConfig::from_list_with(rt.call(), edition_of(reader), sources))
    }
}

/// What a list of sources tells a current version.
pub fn verdicts(rt: &Runner, call: &str, input: &str) -> Result<String, Failure> {
    let config = VersionOnlyConfig::from_row(rt, input)?;
    eval(rt, config.nextest_version(), call)
}

fn eval(rt: &Runner, config: &NextestVersionConfig, call: &str) -> Result<String, Failure> {
    let (current, flag) = word(call);
    let current = Version::from_row(rt, current)?;
    let answer = config.eval(rt.call(), &current, flag == "--override");
    rt.end();
    answered(rt, "", answer)
}

/// What the files of tools and a repository ask, or why they are refused.
pub fn files(rt: &Runner, call: &str, input: &str) -> Result<String, Failure> {
    let (tools, repository) = input.rsplit_once(" && ").unwrap_or(("", input));
    let tools: Vec<ToolText> = listed(rt, tools)?;
    let repository = RepositoryText::from_row(rt, repository)?;
    let (reader, call) = reader_of(call);
    let answer = read_files(rt, reader, &repository, &tools)?;
    rt.end();
    answered(rt, call, answer)
}

// Reads the files, under an edition if one is named.
fn read_files(
    rt: &Runner,
    reader: &str,
    repository: &RepositoryText,
    tools: &[ToolText],
) -> Result<Result<VersionOnlyConfig, ConfigParseError>, Failure> {
    let edition = edition_of(reader);
    if reader.is_empty() {
        Ok(VersionOnlyConfig::from_sources(rt.call(), repository, tools))
    } else {
        Ok(VersionOnlyConfig::from_sources_with(rt.call(), edition, repository, tools))
    }
}

/// What the reader of versions answers, at the path that is the call.
pub fn versions(rt: &Runner, at: &str, input: &str) -> Result<String, Failure> {
    let value = Value::from_row(rt, input)?;
    let answer = NextestVersionDeserialize::read(rt.call(), &value, at);
    rt.end();
    answered(rt, at, answer)
}

/// What versions that are taken in one by one ask. The call is the last one.
pub fn asks(rt: &Runner, call: &str, input: &str) -> Result<String, Failure> {
    let (earlier, last) = input.rsplit_once(" && ").unwrap_or(("", input));
    let mut config = asked(rt, earlier)?;
    let before = written(rt, &config)?;
    let answer = take_in_last(rt, call, &mut config, last)?;
    let now = written(rt, &config)?;
    as_it_was(rt, answer, before.as_str(), now.as_str())
}

fn asked(rt: &Runner, input: &str) -> Result<NextestVersionConfig, Failure> {
    let mut config = NextestVersionConfig::default();
    for ask in input.split(" && ") {
        if !ask.is_empty() {
            take_in(rt, &mut config, ask)?;
        }
    }
    Ok(config)
}

fn take_in(rt: &Runner, config: &mut NextestVersionConfig, ask: &str) -> Result<(), Failure> {
    let (source, versions) = ask_of(rt, ask)?;
    done(rt, config.accumulate(rt.alloc(), versions, &source))?;
    Ok(())
}

fn take_in_last(
    rt: &Runner,
    call: &str,
    config: &mut NextestVersionConfig,
    ask: &str,
) -> Result<String, Failure> {
    let (source, versions) = ask_of(rt, ask)?;
    let taken = config.accumulate(rt.call(), versions, &source);
    changed(rt, call, taken, config)
}

// A source, and the versions that it asks.
fn ask_of(rt: &Runner, text: &str) -> Result<(ConfigSource, NextestVersionDeserialize), Failure> {
    both(rt, text, " => ")
}
