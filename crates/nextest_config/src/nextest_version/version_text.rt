//! Version texts.

ghost use Rattle.std.specs.Prelude.{◌≡◌, IfOk, IfErr, IsErr, Ok, MatchOption};
ghost use Rattle.std.specs.List.{AllByRecursion};
ghost use Rattle.semver.specs.Identifiers.{parts_of};
ghost use Rattle.semver.specs.Parse.{Parts, version_parts};
ghost use Rattle.nextest_config_values.specs.Read.{broken_rule, RefusesBy};
ghost use Rattle.nextest_config.specs.NextestVersion.{BreaksVersion, HasVersion, IsPlain, IsVersionFault, version_reading, version_text};

use nextest_config_values::read::{FaultKind, FromToml, Rule, ValueFault};
use semver::Version;
use std::alloc::{AllocError, Global};
use toml::Value;

/// A version, as a setting writes it.
#[derive(Drop)]
pub(crate) struct VersionText {
    pub version: Version,
}

impl FromToml for VersionText {
    ghost Seen = { Parts };

    ghost seen = { λ text. parts_of text.version };

    ghost reading = { version_reading };

    fn read_value(alloc: Global, value: &Value) -> Result<Self, ValueFault> {
        match value.as_str() {
            Some(text) => {
                let version = read_version(alloc, text)?;
                Ok(VersionText { version })
            }
            None => Err(ValueFault::invalid_type(alloc, value, "a string")),
        }
    }
}

/// The version of a text, or the rule that the text breaks.
pub(crate) fn read_version(alloc: Global, text: &str) -> Result<Version, ValueFault>
    ensures meant { IfOk result (λ v. HasVersion text.now (parts_of v)) }
    ensures refused { IfErr result (RefusesBy version_text text.now) }
{
    match parse_version(alloc, text) {
        Ok(version) => Ok(version),
        Err(kind) => Err(ValueFault::new(alloc, kind)),
    }
}

// The version of a text, `x.y.z` or `x.y`.
fn parse_version(alloc: Global, text: &str) -> Result<Version, FaultKind>
    ensures version { IfOk result (λ v. HasVersion text.now (parts_of v)) }
    ensures fault { IfErr result (BreaksVersion text.now) }
{
    if let Some(rule) = first_mark(text) {
        return Err(FaultKind::Custom(rule));
    }
    if let Some(version) = parse_semver(alloc, text)? {
        return Ok(version);
    }
    let three = format!(in alloc; "{text}.0")?;
    if let Some(version) = parse_semver(alloc, three.as_str())? {
        return Ok(version);
    }
    let text = String::from_str(alloc, text)?;
    Err(FaultKind::Custom(Rule::NotVersion { text }))
}

// The rule that the first hyphen or plus sign breaks.
#[tactic(auto, using(crate::specs::NextestVersion::VersionTextLaws::mark_at))]
fn first_mark(text: &str) -> Option<Rule>
    ensures { MatchOption result (AllByRecursion IsPlain text.now)
        (λ rule. IsVersionFault text.now (broken_rule rule)) }
{
    for byte in text.as_bytes() {
        match *byte {
            b'-' => return Some(Rule::PreRelease),
            b'+' => return Some(Rule::BuildMetadata),
            _ => {}
        }
    }
    None
}

// The version that SemVer's own grammar gives the text, if any.
fn parse_semver(alloc: Global, text: &str) -> Result<Option<Version>, AllocError>
    ensures { IfOk result (λ found. MatchOption found (IsErr (version_parts text.now))
        (λ v. version_parts text.now ≡ Ok (parts_of v))) }
{
    match Version::parse(alloc, text) {
        Ok(version) => Ok(Some(version)),
        Err(error) => {
            if error == semver::Error::from(AllocError) {
                Err(AllocError)
            } else {
                Ok(None)
            }
        }
    }
}
