//! What is found of overrides, and of what profiles say of scripts.

ghost use Rattle.std.specs.Prelude.{◌↔◌, IsTrue};
ghost use Rattle.toml.specs.View.{view};
ghost use Rattle.nextest_config_lint.specs.Found.{override_of_all, script_of_all, IsReportedIf, ReportsIfAny, HoldsInView};
ghost use Rattle.nextest_config_lint.specs.References.Overrides.{HasKey, IsDefaultFilterReported, IsOfAll, IsOverrideReported};

use crate::finding::FindingKind;
use nextest_config_values::read::value_at;
use toml::Value;

/// The key of an override for its default filter.
pub(super) const DEFAULT_FILTER_KEY: &str = "default-filter";

/// What is found of an override.
pub(super) fn of_override(value: &Value) -> Option<FindingKind>
    ensures reported { HoldsInView (IsOverrideReported (view value.now)) result }
    ensures reports { ReportsIfAny result }
{
    match of_default_filter(value) {
        Some(reported) => Some(reported),
        None => of_no_default_filter(value),
    }
}

// What is found of the default filter of an override.
fn of_default_filter(value: &Value) -> Option<FindingKind>
    ensures reported { HoldsInView (IsDefaultFilterReported (view value.now)) result }
    ensures reports { ReportsIfAny result }
{
    if !has_key(value, DEFAULT_FILTER_KEY) {
        return None;
    }
    if has_key(value, "filter") {
        return Some(FindingKind::DefaultFilterBeside);
    }
    if has_key(value, "platform") {
        return None;
    }
    Some(FindingKind::DefaultFilterAlone)
}

// What is found of an override, but for its default filter.
fn of_no_default_filter(value: &Value) -> Option<FindingKind>
    ensures reported { HoldsInView (IsReportedIf (IsOfAll (view value.now)) override_of_all)
        result }
    ensures reports { ReportsIfAny result }
{
    if is_of_all(value) {
        Some(FindingKind::OverrideOfAll)
    } else {
        None
    }
}

/// What is found of what a profile says of scripts.
pub(super) fn of_script_rule(value: &Value) -> Option<FindingKind>
    ensures reported { HoldsInView (IsReportedIf (IsOfAll (view value.now)) script_of_all) result }
    ensures reports { ReportsIfAny result }
{
    if is_of_all(value) {
        Some(FindingKind::ScriptOfAll)
    } else {
        None
    }
}

// Whether a table doesn't say which tests it is for.
fn is_of_all(value: &Value) -> bool
    ensures { IsTrue result ↔ IsOfAll (view value.now) }
{
    match value.as_table() {
        Some(table) => {
            value_at(table, "filter").is_none() & value_at(table, "platform").is_none()
        }
        None => false,
    }
}

// Whether a value is a table that has this key.
fn has_key(value: &Value, key: &str) -> bool
    ensures { IsTrue result ↔ HasKey (view value.now) key.now }
{
    match value.as_table() {
        Some(table) => value_at(table, key).is_some(),
        None => false,
    }
}
