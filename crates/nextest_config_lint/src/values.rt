//! What is found of all that is judged in a document.

ghost use Rattle.std.specs.Prelude.{◌≡◌, ◌++◌, [], ◌∷◌, IfOk, IsSome, MatchResult, OnOk};
ghost use Rattle.toml.specs.View.{view};
ghost use Rattle.nextest_config_values.specs.Read.{fault_of};
ghost use Rattle.nextest_config_lint.specs.Settings.{features_at, setting_view};
ghost use Rattle.nextest_config_lint.specs.Values.{IsEmpty, ReportsFault, ReportsText, ReportsValue};

use crate::faults::find_of_fault;
use crate::features::find_of_features;
use crate::finding::Finding;
use crate::rules::check_rules;
use crate::settings::{Setting, Subject};
use crate::shapes::check_shape;
use crate::texts::find_in_text;
use nextest_config::nextest_version::{ConfigSourceKind, Edition, ExperimentalDeserialize};
use nextest_config_values::read::ValueFault;
use std::alloc::{AllocError, Global};
use toml::Value;

/// What is found of values, by kind.
#[derive(Drop)]
pub(crate) struct ValueFindings {
    /// What their readers refuse.
    pub faults: Vec<Finding>,
    /// The features that they name, in a tool's file, or the unknown ones.
    pub features: Vec<Finding>,
    /// What isn't judged of them, or is to change one day.
    pub notes: Vec<Finding>,
}

impl ValueFindings {
    /// No findings of any kind.
    pub(crate) fn new(alloc: Global) -> ValueFindings
        ensures faults { result.faults.items ≡ [] }
        ensures features { result.features.items ≡ [] }
        ensures notes { result.notes.items ≡ [] }
    {
        ValueFindings {
            faults: Vec::new(alloc),
            features: Vec::new(alloc),
            notes: Vec::new(alloc),
        }
    }

    /// The findings of a value that has this fault.
    pub(crate) fn of_fault(alloc: Global, fault: Finding) -> Result<ValueFindings, AllocError>
        ensures faults { IfOk result (λ found. found.faults.items ≡ fault ∷ []) }
        ensures features { IfOk result (λ found. found.features.items ≡ []) }
        ensures notes { IfOk result (λ found. found.notes.items ≡ []) }
    {
        let mut findings = ValueFindings::new(alloc);
        findings.faults.push(fault)?;
        Ok(findings)
    }

    /// The findings of a value on which there is this note.
    pub(crate) fn of_note(alloc: Global, note: Finding) -> Result<ValueFindings, AllocError>
        ensures faults { IfOk result (λ found. found.faults.items ≡ []) }
        ensures features { IfOk result (λ found. found.features.items ≡ []) }
        ensures notes { IfOk result (λ found. found.notes.items ≡ note ∷ []) }
    {
        let mut findings = ValueFindings::new(alloc);
        findings.notes.push(note)?;
        Ok(findings)
    }

    /// Adds the findings of another value, each kind after the ones that there are.
    pub(crate) fn add(&mut self, more: ValueFindings) -> Result<(), AllocError>
        ensures faults { OnOk result
            (self.new.faults.items ≡ self.old.faults.items ++ more.faults.items) }
        ensures features { OnOk result
            (self.new.features.items ≡ self.old.features.items ++ more.features.items) }
        ensures notes { OnOk result
            (self.new.notes.items ≡ self.old.notes.items ++ more.notes.items) }
    {
        let ValueFindings {
            mut faults,
            mut features,
            mut notes,
        } = more;
        self.faults.append(&mut faults)?;
        self.features.append(&mut features)?;
        self.notes.append(&mut notes)?;
        Ok(())
    }
}

/// What is found of what is judged at a path.
pub(crate) fn find_in_value(
    alloc: Global,
    source: &ConfigSourceKind,
    edition: Edition,
    setting: &Setting,
) -> Result<ValueFindings, AllocError>
    ensures { IfOk result (ReportsValue edition source.now (setting_view setting.now)) }
{
    match setting.subject {
        Subject::Value { shape, value, .. } => {
            find_by(alloc, setting, check_shape(alloc, edition, shape, value))
        }
        Subject::AbsentKey(name) => {
            find_of_fault(alloc, setting, ValueFault::missing_field(alloc, name))
        }
        Subject::RefusedKey { name, expected, .. } => {
            find_of_fault(
                alloc,
                setting,
                ValueFault::unknown_field(alloc, name, expected),
            )
        }
        Subject::Between(rules, value) => {
            find_by(alloc, setting, check_rules(alloc, rules, value))
        }
        Subject::Features(value) => find_features(alloc, source, edition, setting, value),
    }
}

// What is found of what is judged, by the fault that it has, or else by the syntax of its text.
fn find_by(
    alloc: Global,
    setting: &Setting,
    checked: Result<(), ValueFault>,
) -> Result<ValueFindings, AllocError>
    ensures { MatchResult checked (λ _. IfOk result (ReportsText (setting_view setting.now)))
        (λ fault. IfOk result (ReportsFault (setting_view setting.now) (fault_of fault))) }
{
    match checked {
        Ok(()) => find_in_text(alloc, setting),
        Err(fault) => find_of_fault(alloc, setting, fault),
    }
}

// What is found of the features that a value names; where it doesn't read, that is reported where
// it is wrong.
fn find_features(
    alloc: Global,
    source: &ConfigSourceKind,
    edition: Edition,
    setting: &Setting,
    value: &Value,
) -> Result<ValueFindings, AllocError>
    requires { (setting_view setting.now).subject ≡ features_at (view value.now) }
    ensures { IfOk result (ReportsValue edition source.now (setting_view setting.now)) }
{
    match ExperimentalDeserialize::read_under(alloc, edition, value) {
        Ok(named) => find_of_features(alloc, source, setting, value, named),
        Err(fault) => none_of(alloc, fault),
    }
}

// Nothing is found of a fault, unless memory was refused.
fn none_of(alloc: Global, fault: ValueFault) -> Result<ValueFindings, AllocError>
    ensures { IfOk result (λ found. IsEmpty found × IsSome (fault_of fault)) }
{
    if fault.is_memory() {
        return Err(AllocError);
    }
    Ok(ValueFindings::new(alloc))
}
