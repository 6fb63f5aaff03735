//! What one source asks.

ghost use Rattle.std.specs.Prelude.{◌≡◌, [], IfOk, IfErr, OnOk, option_map, string_bytes};
ghost use Rattle.toml.specs.View.{table_view};
ghost use Rattle.nextest_config_values.specs.Read.{RefusesAt};
ghost use Rattle.nextest_config.specs.NextestVersion.{ask_of, AsksFeatures, BreaksToolRule, feature_setting_of, features_asked, features_of, IsWrong, IsWrongTable, nothing, ObeysToolRule, RefusesSource, TableAsks, TextAsks};

use super::edition::Edition;
use super::error_kind::ConfigParseErrorKind;
use super::experimental_deserialize::ExperimentalDeserialize;
use super::nextest_version_deserialize::NextestVersionDeserialize;
use super::source::ConfigSourceKind;
use nextest_config_values::read::{ReadFault, field_or, value_at};
use std::alloc::Global;
use toml::Table;

const VERSION_KEY: &str = "nextest-version";

const EXPERIMENTAL_KEY: &str = "experimental";

/// What one source asks.
#[derive(Debug, PartialEq, Eq, Drop)]
pub struct VersionOnlyDeserialize {
    pub nextest_version: NextestVersionDeserialize,
    pub experimental: ExperimentalDeserialize,
}

impl VersionOnlyDeserialize {
    /// The ask of a source that asks nothing.
    pub fn nothing(alloc: Global) -> Self
        ensures { ask_of result ≡ nothing }
    {
        VersionOnlyDeserialize {
            nextest_version: NextestVersionDeserialize::nothing(),
            experimental: ExperimentalDeserialize::new(alloc),
        }
    }

    /// What the contents of a source of this kind ask under the edition.
    pub fn read(
        alloc: Global,
        edition: Edition,
        kind: &ConfigSourceKind,
        contents: &Option<String>,
    ) -> Result<Self, ConfigParseErrorKind>
        ensures read { IfOk result (λ d.
            TextAsks edition kind.now (option_map string_bytes contents.now) (ask_of d)) }
        ensures refused { IfErr result (RefusesSource
            (IsWrong edition kind.now (option_map string_bytes contents.now))) }
    {
        let Some(text) = contents else {
            return Ok(VersionOnlyDeserialize::nothing(alloc));
        };
        match toml::table_from_str(alloc, text.as_str()) {
            Ok(table) => VersionOnlyDeserialize::of_table(alloc, edition, kind, &table),
            Err(error) => {
                if error.is_memory() {
                    Err(ConfigParseErrorKind::Memory)
                } else {
                    Err(ConfigParseErrorKind::TomlParseError)
                }
            }
        }
    }

    /// What the document of a source of this kind asks under the edition, as `toml` read it.
    pub fn of_table(
        alloc: Global,
        edition: Edition,
        kind: &ConfigSourceKind,
        table: &Table,
    ) -> Result<Self, ConfigParseErrorKind>
        ensures read { IfOk result (λ d. TableAsks edition kind.now (table_view table.now)
            (ask_of d)) }
        ensures refused { IfErr result (RefusesSource
            (IsWrongTable edition kind.now (table_view table.now))) }
    {
        let default = NextestVersionDeserialize::nothing();
        let nextest_version = field_or(alloc, table, VERSION_KEY, "", default)?;
        let experimental = read_experimental(alloc, edition, table)?;
        check_tool(alloc, kind, &experimental)?;
        Ok(VersionOnlyDeserialize {
            nextest_version,
            experimental,
        })
    }
}

// The features that a document names, in a form that the edition takes.
fn read_experimental(
    alloc: Global,
    edition: Edition,
    document: &Table,
) -> Result<ExperimentalDeserialize, ReadFault>
    ensures meant { IfOk result
        (λ d. AsksFeatures edition (table_view document.now) (feature_setting_of d)) }
    ensures refused { IfErr result
        (RefusesAt (features_asked edition) (table_view document.now) []) }
{
    let Some(value) = value_at(document, EXPERIMENTAL_KEY) else {
        return Ok(ExperimentalDeserialize::new(alloc));
    };
    match ExperimentalDeserialize::read_under(alloc, edition, value) {
        Ok(experimental) => Ok(experimental),
        Err(fault) => Err(fault.below_key(alloc, EXPERIMENTAL_KEY).at(alloc, "")),
    }
}

// Refuses the features that a tool's source names.
fn check_tool(
    alloc: Global,
    kind: &ConfigSourceKind,
    experimental: &ExperimentalDeserialize,
) -> Result<(), ConfigParseErrorKind>
    ensures kept { OnOk result (ObeysToolRule kind.now (features_of experimental.now)) }
    ensures refused { IfErr result (RefusesSource
        (BreaksToolRule kind.now (features_of experimental.now))) }
{
    match kind {
        ConfigSourceKind::Tool(_) => {
            if experimental.is_empty() {
                return Ok(());
            }
            let features = experimental.feature_names(alloc)?;
            Err(ConfigParseErrorKind::ExperimentalFeaturesInToolConfig { features })
        }
        ConfigSourceKind::ExplicitRepository | ConfigSourceKind::DiscoveredRepository => Ok(()),
    }
}
