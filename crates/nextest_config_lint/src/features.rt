//! What is found of the experimental features that a value names.

ghost use Rattle.std.specs.Prelude.{◌≡◌, ◌↔◌, ◌++◌, [], ◌∷◌, IfOk, IsTrue, OnOk, Some, map, string_bytes};
ghost use Rattle.toml.specs.Data.{array, as_str};
ghost use Rattle.toml.specs.View.{array_view, view};
ghost use Rattle.nextest_config_values.specs.Read.{comma_list};
ghost use Rattle.toml_spans.specs.Step.{PathStep, step_of};
ghost use Rattle.nextest_config.specs.NextestVersion.{feature_setting_of, features_of};
ghost use Rattle.nextest_config_lint.specs.Features.{AreToolsFound, array_found, feature_text, features_text, IsFirstAt, IsNameFound, IsStepTo};
ghost use Rattle.nextest_config_lint.specs.Found.{AddsOne, AreFoundIn, Reports, ReportsSome};
ghost use Rattle.nextest_config_lint.specs.Settings.{setting_view};
ghost use Rattle.nextest_config_lint.specs.Values.{names_features, ReportsOutcome};

use crate::finding::{Finding, FindingKind};
use crate::hints::nearest_hint;
use crate::settings::Setting;
use crate::values::ValueFindings;
use nextest_config::nextest_version::{
    ConfigExperimental, ConfigSourceKind, ExperimentalDeserialize,
};
use std::alloc::{AllocError, Global};
use std::collections::BTreeSet;
use toml::Value;
use toml::value::Array;
use toml_spans::Step;

// The words of the features.
const FEATURES: &[&str] = &["setup-scripts", "wrapper-scripts", "benchmarks"];

/// What is found of the features that a value names, in a file of this kind.
pub(crate) fn find_of_features(
    alloc: Global,
    source: &ConfigSourceKind,
    setting: &Setting,
    value: &Value,
    named: ExperimentalDeserialize,
) -> Result<ValueFindings, AllocError>
    ensures { IfOk result (ReportsOutcome source.now (setting_view setting.now)
        (names_features (view value.now) (feature_setting_of named))) }
{
    let mut findings = ValueFindings::new(alloc);
    match source {
        ConfigSourceKind::Tool(_) => {
            findings.features = tool_features(alloc, setting, &named)?;
        }
        ConfigSourceKind::ExplicitRepository | ConfigSourceKind::DiscoveredRepository => {
            findings.features = unknown_features(alloc, setting, value, &named.unknown)?;
            findings.notes = array_note(alloc, setting, &named)?;
        }
    }
    Ok(findings)
}

// A tool's file names no feature.
fn tool_features(
    alloc: Global,
    setting: &Setting,
    named: &ExperimentalDeserialize,
) -> Result<Vec<Finding>, AllocError>
    ensures { IfOk result
        (ReportsSome (AreToolsFound (setting_view setting.now).path (features_of named.now))) }
{
    let mut findings = Vec::new(alloc);
    if named.is_empty() {
        return Ok(findings);
    }
    let features = named.feature_names(alloc)?;
    let path = setting.steps(alloc)?;
    let kind = FindingKind::ToolFeatures { features };
    findings.push(Finding { path, kind })?;
    Ok(findings)
}

// Each name is no feature's.
fn unknown_features(
    alloc: Global,
    setting: &Setting,
    value: &Value,
    unknown: &BTreeSet<String>,
) -> Result<Vec<Finding>, AllocError>
    ensures { IfOk result (ReportsSome (AreFoundIn
        (IsNameFound (setting_view setting.now).path (view value.now))
        (map string_bytes unknown.now.keys))) }
{
    let mut findings = Vec::new(alloc);
    for name in unknown {
        add_feature(alloc, setting, value, name.as_str(), &mut findings)?;
    }
    Ok(findings)
}

// Adds the finding of an unknown feature name.
fn add_feature(
    alloc: Global,
    setting: &Setting,
    value: &Value,
    name: &str,
    findings: &mut Vec<Finding>,
) -> Result<(), AllocError>
    ensures { OnOk result (AddsOne (IsNameFound (setting_view setting.now).path (view value.now))
        name.now findings.old.items findings.new.items) }
{
    let hint = nearest_hint(alloc, name, FEATURES)?;
    let path = path_to(alloc, setting, value, name)?;
    let name = String::from_str(alloc, name)?;
    let kind = FindingKind::UnknownFeature { name, hint };
    findings.push(Finding { path, kind })?;
    Ok(())
}

// The path to a name.
fn path_to(
    alloc: Global,
    setting: &Setting,
    value: &Value,
    name: &str,
) -> Result<Vec<Step>, AllocError>
    ensures { IfOk result (λ path. (step : PathStep) × IsStepTo (view value.now) name.now step
        × (map step_of path.items ≡ (setting_view setting.now).path ++ (step ∷ []))) }
{
    let step = step_to(alloc, value, name)?;
    let mut path = setting.steps(alloc)?;
    path.push(step)?;
    Ok(path)
}

// The step to a name: to the first element of an array that is the name, or to the key of a table.
fn step_to(alloc: Global, value: &Value, name: &str) -> Result<Step, AllocError>
    ensures { IfOk result (λ step. IsStepTo (view value.now) name.now (step_of step)) }
{
    match first_at(value, name) {
        Some(index) => Ok(Step::Index(index)),
        None => Ok(Step::Key(String::from_str(alloc, name)?)),
    }
}

// The index of the first element that is the name.
fn first_at(value: &Value, name: &str) -> Option<usize>
    ensures { IsFirstAt (view value.now) name.now result }
{
    match value.as_array() {
        Some(items) => first_in(items, name),
        None => None,
    }
}

// The index of the first element of an array that is the name.
fn first_in(items: &Array, name: &str) -> Option<usize>
    ensures { IsFirstAt (array (array_view items.now)) name.now result }
{
    for (index, item) in items.iter().enumerate() {
        if is_text(item, name) {
            return Some(index);
        }
    }
    None
}

// Whether the value is this text.
fn is_text(value: &Value, text: &str) -> bool
    ensures { IsTrue result ↔ (as_str (view value.now) ≡ Some text.now) }
{
    match value.as_str() {
        Some(found) => found == text,
        None => false,
    }
}

// An array of features is deprecated.
fn array_note(
    alloc: Global,
    setting: &Setting,
    named: &ExperimentalDeserialize,
) -> Result<Vec<Finding>, AllocError>
    ensures { IfOk result (λ notes. Reports notes.items
        (array_found (setting_view setting.now).path (feature_setting_of named.now))) }
{
    let mut notes = Vec::new(alloc);
    if !named.array {
        return Ok(notes);
    }
    let path = setting.steps(alloc)?;
    let table = table_of(alloc, &named.known)?;
    let kind = FindingKind::DeprecatedArray { table };
    notes.push(Finding { path, kind })?;
    Ok(notes)
}

// The table that enables features.
fn table_of(alloc: Global, features: &BTreeSet<ConfigExperimental>) -> Result<String, AllocError>
    ensures { IfOk result (λ table. string_bytes table ≡ features_text features.now.keys) }
{
    if features.is_empty() {
        return String::from_str(alloc, "{ }");
    }
    let mut table = String::from_str(alloc, "{ ")?;
    push_features(&mut table, features)?;
    table.push_str(" }")?;
    Ok(table)
}

// Pushes features, each as a table enables it.
fn push_features(
    text: &mut String,
    features: &BTreeSet<ConfigExperimental>,
) -> Result<(), AllocError>
    ensures { OnOk result (string_bytes text.new
        ≡ string_bytes text.old ++ comma_list (map feature_text features.now.keys)) }
{
    let mut separator = "";
    for feature in features {
        text.push_str(separator)?;
        text.push_str(feature.as_word())?;
        text.push_str(" = true")?;
        separator = ", ";
    }
    Ok(())
}
