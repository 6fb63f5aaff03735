//! Values that rows write: sources, versions and what is kept of them.

use crate::answers::{copied, cut, done, unknown};
use crate::failure::Failure;
use crate::runner::Runner;
use crate::values::{FromRow, both, word};
use nextest_config::nextest_version::{
    ConfigExperimental, ConfigSource, ConfigSourceKind, ExperimentalDeserialize,
    NextestVersionConfig, NextestVersionDeserialize, NextestVersionReq, RepositoryText, SourceText,
    ToolText,
};
use nextest_config_values::identifier::ToolName;
use nextest_config_values::read::FromToml;
use nextest_config_values::tool_config::ToolConfigFile;
use semver::Version;
use toml::Value;

/// Writes `tool NAME`, `explicit` or `repository`.
impl FromRow for ConfigSourceKind {
    fn from_row(rt: &Runner, text: &str) -> Result<Self, Failure> {
        match word(text) {
            ("tool", name) => Ok(ConfigSourceKind::Tool(ToolName::from_row(rt, name)?)),
            ("explicit", _) => Ok(ConfigSourceKind::ExplicitRepository),
            ("repository", _) => Ok(ConfigSourceKind::DiscoveredRepository),
            _ => unknown(rt, text),
        }
    }
}

/// Writes `KIND: PATH`.
impl FromRow for ConfigSource {
    fn from_row(rt: &Runner, text: &str) -> Result<Self, Failure> {
        let (kind, path) = both(rt, text, ": ")?;
        Ok(ConfigSource { kind, path })
    }
}

// What stands in front of an arrow, and the contents after it where there is one.
fn parts<'t>(rt: &Runner, text: &'t str) -> Result<(&'t str, Option<String>), Failure> {
    match text.split_once(" => ") {
        Some((source, contents)) => Ok((source, Some(copied(rt, contents)?))),
        None => Ok((text, None)),
    }
}

/// Writes `SOURCE => CONTENTS`, or the source alone.
impl FromRow for SourceText {
    fn from_row(rt: &Runner, text: &str) -> Result<Self, Failure> {
        let (source, contents) = parts(rt, text)?;
        Ok(SourceText {
            source: ConfigSource::from_row(rt, source)?,
            contents,
        })
    }
}

/// Writes a tool's source and its contents.
impl FromRow for ToolText {
    fn from_row(rt: &Runner, text: &str) -> Result<Self, Failure> {
        let (source, contents) = parts(rt, text)?;
        let (tool, config_file) = both(rt, word(source).1, ": ")?;
        Ok(ToolText {
            file: ToolConfigFile { tool, config_file },
            contents,
        })
    }
}

/// Writes a repository's source and its contents.
impl FromRow for RepositoryText {
    fn from_row(rt: &Runner, text: &str) -> Result<Self, Failure> {
        let (source, contents) = parts(rt, text)?;
        let (kind, path) = cut(source, ": ")?;
        Ok(RepositoryText {
            explicit: kind == "explicit",
            path: copied(rt, path)?,
            contents,
        })
    }
}

/// What a text lists, with ` && ` after each but the last.
pub fn listed<T: FromRow + Drop>(rt: &Runner, text: &str) -> Result<Vec<T>, Failure> {
    let mut values = Vec::new(rt.alloc());
    for part in text.split(" && ") {
        if !part.is_empty() {
            done(rt, values.push(T::from_row(rt, part)?))?;
        }
    }
    Ok(values)
}

/// Writes a value, or `none`.
impl FromRow for Option<Version> {
    fn from_row(rt: &Runner, text: &str) -> Result<Self, Failure> {
        if text == "none" {
            Ok(None)
        } else {
            Ok(Some(Version::from_row(rt, text)?))
        }
    }
}

/// Writes the required and the recommended version.
impl FromRow for NextestVersionDeserialize {
    fn from_row(rt: &Runner, text: &str) -> Result<Self, Failure> {
        let (required, recommended) = both(rt, text, " ")?;
        Ok(NextestVersionDeserialize {
            required,
            recommended,
        })
    }
}

/// Writes `VERSION SOURCE`, or `none`.
impl FromRow for NextestVersionReq {
    fn from_row(rt: &Runner, text: &str) -> Result<Self, Failure> {
        if text == "none" {
            return Ok(NextestVersionReq::None);
        }
        let (version, source) = both(rt, text, " ")?;
        Ok(NextestVersionReq::Version { version, source })
    }
}

/// Writes what is kept in the two roles.
impl FromRow for NextestVersionConfig {
    fn from_row(rt: &Runner, text: &str) -> Result<Self, Failure> {
        let (required, recommended) = both(rt, text, " & ")?;
        Ok(NextestVersionConfig {
            required,
            recommended,
        })
    }
}

/// Writes the setting's TOML value.
impl FromRow for ExperimentalDeserialize {
    fn from_row(rt: &Runner, text: &str) -> Result<Self, Failure> {
        let value = Value::from_row(rt, text)?;
        done(
            rt,
            ExperimentalDeserialize::read(rt.alloc(), &value, "experimental"),
        )
    }
}

/// Writes the feature's word.
impl FromRow for ConfigExperimental {
    fn from_row(rt: &Runner, text: &str) -> Result<Self, Failure> {
        done(rt, ConfigExperimental::from_str(text))
    }
}
