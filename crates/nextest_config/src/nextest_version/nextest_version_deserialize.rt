//! The versions that one source asks for.

ghost use Rattle.std.specs.Prelude.{◌≡◌, IfOk, IfErr, option_map};
ghost use Rattle.semver.specs.Identifiers.{parts_of};
ghost use Rattle.toml.specs.View.{table_view};
ghost use Rattle.nextest_config_values.specs.Read.{no_data, optional, RefusesBy};
ghost use Rattle.nextest_config.specs.NextestVersion.{in_order, no_versions, version_reading, version_table, Versions, versions_of, versions_reading};

use super::version_text::{VersionText, read_version};
use nextest_config_values::read::{FaultKind, FromToml, Rule, ValueFault, optional};
use semver::Version;
use std::alloc::{AllocError, Global};
use std::cmp::Ordering;
use toml::{Table, Value};

const EXPECTED: &str =
    "a table ({ required = \"0.9.20\", recommended = \"0.9.30\" }) or a string (\"0.9.50\")";

const REQUIRED_KEY: &str = "required";

const RECOMMENDED_KEY: &str = "recommended";

/// The versions that one source asks for.
#[derive(Debug, PartialEq, Eq, Drop)]
pub struct NextestVersionDeserialize {
    /// Minimum version that the source requires (`None`: it requires none).
    pub required: Option<Version>,
    /// Minimum version that the source recommends (`None`: it recommends none).
    pub recommended: Option<Version>,
}

impl NextestVersionDeserialize {
    /// The keys that are read of a table.
    pub const KEYS: &'static [&'static str] = &[REQUIRED_KEY, RECOMMENDED_KEY];

    /// The ask for no version.
    pub(crate) fn nothing() -> Self
        ensures { versions_of result ≡ no_versions }
    {
        NextestVersionDeserialize {
            required: None,
            recommended: None,
        }
    }

    pub fn clone(&self, _alloc: Global) -> Result<Self, AllocError>
        ensures { IfOk result (λ d. versions_of d ≡ versions_of self.now) }
    {
        let required = self.required.clone()?;
        let recommended = self.recommended.clone()?;
        Ok(NextestVersionDeserialize {
            required,
            recommended,
        })
    }

    // What a table asks.
    fn read_table(alloc: Global, table: &Table) -> Result<Self, ValueFault>
        ensures meant { IfOk result
            (λ d. version_table.means (table_view table.now) (versions_of d)) }
        ensures refused { IfErr result (RefusesBy version_table (table_view table.now)) }
    {
        let required = read_role(alloc, table, REQUIRED_KEY)?;
        let recommended = read_role(alloc, table, RECOMMENDED_KEY)?;
        NextestVersionDeserialize::in_order(alloc, required, recommended)
    }

    // The ask for both versions, unless the required one is above the recommended one.
    fn in_order(
        alloc: Global,
        required: Option<Version>,
        recommended: Option<Version>,
    ) -> Result<Self, ValueFault>
        ensures meant { IfOk result (λ d.
            (in_order (option_map parts_of required) (option_map parts_of recommended)).means
            no_data (versions_of d)) }
        ensures refused { IfErr result (RefusesBy
            (in_order (option_map parts_of required) (option_map parts_of recommended))
            no_data) }
    {
        match (required, recommended) {
            (Some(required), Some(recommended)) => {
                if recommended.cmp_precedence(&required) == Ordering::Less {
                    let rule = Rule::RequiredAboveRecommended {
                        required,
                        recommended,
                    };
                    return Err(ValueFault::new(alloc, FaultKind::Custom(rule)));
                }
                Ok(NextestVersionDeserialize {
                    required: Some(required),
                    recommended: Some(recommended),
                })
            }
            (required, recommended) => Ok(NextestVersionDeserialize {
                required,
                recommended,
            }),
        }
    }
}

impl FromToml for NextestVersionDeserialize {
    ghost Seen = { Versions };

    ghost seen = { versions_of };

    ghost reading = { versions_reading };

    fn read_value(alloc: Global, value: &Value) -> Result<Self, ValueFault> {
        if let Some(text) = value.as_str() {
            let required = read_version(alloc, text)?;
            return Ok(NextestVersionDeserialize {
                required: Some(required),
                recommended: None,
            });
        }
        match value.as_table() {
            Some(table) => NextestVersionDeserialize::read_table(alloc, table),
            None => Err(ValueFault::invalid_type(alloc, value, EXPECTED)),
        }
    }
}

// The version at a key of a table; none where the key is missing.
fn read_role(alloc: Global, table: &Table, key: &str) -> Result<Option<Version>, ValueFault>
    ensures meant { IfOk result (λ found. (optional key.now version_reading).means
        (table_view table.now) (option_map parts_of found)) }
    ensures refused { IfErr result
        (RefusesBy (optional key.now version_reading) (table_view table.now)) }
{
    let found: Option<VersionText> = optional(alloc, table, key)?;
    match found {
        Some(text) => Ok(Some(text.version)),
        None => Ok(None),
    }
}
