//! Values that rows write: configurations, verdicts and refusals of sources.

use crate::answers::{cut, done, unknown};
use crate::failure::Failure;
use crate::lists::sources::listed;
use crate::runner::Runner;
use crate::values::{FromRow, both, part, word};
use nextest_config::board::BoardRefusal;
use nextest_config::nextest_version::{
    ConfigParseError, ExperimentalConfig, ListRefusal, NextestVersionEval, SourceText,
    VersionOnlyConfig,
};
use semver::Version;
use std::alloc::AllocError;

/// Writes a list of sources.
impl FromRow for VersionOnlyConfig {
    fn from_row(rt: &Runner, text: &str) -> Result<Self, Failure> {
        done(rt, config_of(rt, text)?)
    }
}

// What is read from a list of sources.
fn config_of(rt: &Runner, text: &str) -> Result<Result<VersionOnlyConfig, ListRefusal>, Failure> {
    let sources: Vec<SourceText> = listed(rt, text)?;
    Ok(VersionOnlyConfig::from_list(rt.alloc(), &sources))
}

/// Writes a list of sources.
impl FromRow for ExperimentalConfig {
    fn from_row(rt: &Runner, text: &str) -> Result<Self, Failure> {
        let alloc = rt.alloc();
        let copy = part(VersionOnlyConfig::from_row(rt, text)?, |config| {
            config.experimental().clone(alloc)
        });
        done(rt, copy)
    }
}

/// Writes `CURRENT: LIST`, or `CURRENT --override: LIST`: what the list of sources tells a version.
impl FromRow for NextestVersionEval {
    fn from_row(rt: &Runner, text: &str) -> Result<Self, Failure> {
        let (current, list) = cut(text, ": ")?;
        let (current, flag) = word(current);
        let current = Version::from_row(rt, current)?;
        let alloc = rt.alloc();
        let verdict = part(VersionOnlyConfig::from_row(rt, list)?, |config| {
            config
                .nextest_version()
                .eval(alloc, &current, flag == "--override")
        });
        done(rt, verdict)
    }
}

/// Writes a list of sources that is refused, or `Memory`.
impl FromRow for ConfigParseError {
    fn from_row(rt: &Runner, text: &str) -> Result<Self, Failure> {
        if text == "Memory" {
            return Ok(ConfigParseError::from(AllocError));
        }
        match config_of(rt, text)? {
            Err(ListRefusal::Refused { position: _, error }) => Ok(error),
            _ => unknown(rt, text),
        }
    }
}

/// Writes a position and the error there, or `Memory`.
impl FromRow for ListRefusal {
    fn from_row(rt: &Runner, text: &str) -> Result<Self, Failure> {
        if text == "Memory" {
            return Ok(ListRefusal::Memory);
        }
        let (position, error) = both(rt, text, " ")?;
        Ok(ListRefusal::Refused { position, error })
    }
}

/// Writes a number of slots, an error, or `Memory`.
impl FromRow for BoardRefusal {
    fn from_row(rt: &Runner, text: &str) -> Result<Self, Failure> {
        let (name, rest) = word(text);
        match name {
            "NoSuchSlot" => Ok(BoardRefusal::NoSuchSlot {
                slots: usize::from_row(rt, rest)?,
            }),
            "Refused" => Ok(BoardRefusal::Refused(ConfigParseError::from_row(rt, rest)?)),
            "Memory" => Ok(BoardRefusal::Memory),
            _ => unknown(rt, name),
        }
    }
}
