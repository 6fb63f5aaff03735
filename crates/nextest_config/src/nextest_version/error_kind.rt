//! What is wrong with a source.

ghost use Rattle.std.specs.Prelude.{◌≡◌, Some};

use nextest_config_values::read::{QuotedTexts, ReadFault};
use std::alloc::AllocError;
use std::collections::BTreeSet;
use std::error::Error;
use std::fmt;

/// What is wrong with a configuration source.
#[derive(Debug, PartialEq, Eq, Drop)]
pub enum ConfigParseErrorKind {
    /// Its contents are no TOML document.
    TomlParseError,
    /// A setting in it is refused.
    VersionOnlyDeserializeError(ReadFault),
    /// It is a tool's file, which may name no experimental feature, and names these.
    ExperimentalFeaturesInToolConfig { features: BTreeSet<String> },
    /// Nothing is said of it, since a request for memory was refused.
    Memory,
}

impl ConfigParseErrorKind {
    ghost use Rattle.nextest_config.specs.NextestVersion.ErrorKind.{is_memory};

    /// Whether a request for memory was refused.
    pub fn is_memory(&self) -> bool
        ensures { result ≡ is_memory self.now }
    {
        match self {
            ConfigParseErrorKind::Memory => true,
            ConfigParseErrorKind::TomlParseError
            | ConfigParseErrorKind::VersionOnlyDeserializeError(_)
            | ConfigParseErrorKind::ExperimentalFeaturesInToolConfig { .. } => false,
        }
    }
}

impl From<AllocError> for ConfigParseErrorKind {
    ghost use Rattle.nextest_config.specs.declared.nextest_version.error_kind.ConfigParseErrorKind.TheVariants.{Memory};

    ghost from_gives = { λ _ kind. kind ≡ Memory };

    fn from(_error: AllocError) -> Self {
        ConfigParseErrorKind::Memory
    }
}

impl From<ReadFault> for ConfigParseErrorKind {
    ghost use Rattle.nextest_config.specs.NextestVersion.ErrorKind.{IsSettingKind};

    ghost from_gives = { IsSettingKind };

    fn from(fault: ReadFault) -> Self {
        if fault.is_memory() {
            ConfigParseErrorKind::Memory
        } else {
            ConfigParseErrorKind::VersionOnlyDeserializeError(fault)
        }
    }
}

impl Error for ConfigParseErrorKind {}

impl fmt::Display for ConfigParseErrorKind {
    ghost use Rattle.nextest_config.specs.NextestVersion.ErrorKind.{error_kind_text};

    ghost output = { λ kind. Some (error_kind_text kind) };

    fn fmt<W: fmt::Write>(&self, f: &mut fmt::Formatter<W>) -> fmt::Result {
        match self {
            ConfigParseErrorKind::TomlParseError => f.write_str("not a TOML document"),
            ConfigParseErrorKind::VersionOnlyDeserializeError(fault) => write!(f, "{fault}"),
            ConfigParseErrorKind::ExperimentalFeaturesInToolConfig { features } => write!(
                f,
                "experimental features in a tool configuration: {}",
                QuotedTexts(features)
            ),
            ConfigParseErrorKind::Memory => f.write_str("out of memory"),
        }
    }
}
