//! The part of the configuration that is read before any other: which nextest version it needs, and
//! which experimental features it names.

mod borrowed_source;
mod document;
mod edition;
mod error;
mod error_kind;
mod experimental;
mod experimental_config;
mod experimental_deserialize;
mod file;
mod kept_versions;
mod nextest_version_deserialize;
mod source;
mod verdict;
mod version_only;
mod version_only_deserialize;
mod version_text;

pub use document::SourceDocument;
pub use edition::Edition;
pub use error::{ConfigParseError, ListRefusal};
pub use error_kind::ConfigParseErrorKind;
pub use experimental::{ConfigExperimental, KnownFeatures};
pub use experimental_config::{ArraySources, ExperimentalConfig, SourceErrors};
pub use experimental_deserialize::ExperimentalDeserialize;
pub use kept_versions::{NextestVersionConfig, NextestVersionReq};
pub use nextest_version_deserialize::NextestVersionDeserialize;
pub use source::{ConfigSource, ConfigSourceKind, RepositoryText, SourceText, ToolText};
pub use verdict::{NextestVersionEval, Severity, UnmetVersion, VersionRole};
pub use version_only::VersionOnlyConfig;
pub use version_only_deserialize::VersionOnlyDeserialize;
