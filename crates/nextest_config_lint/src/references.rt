//! What is found of names that refer to others, and of rules between keys.

ghost use Rattle.std.specs.Prelude.{◌≡◌, ◌++◌, ◌∷◌, [], IfOk, List, OnOk, Some, cond, map, option_map};
ghost use Rattle.toml.specs.Data.{Members};
ghost use Rattle.toml.specs.View.{view};
ghost use Rattle.toml_spans.specs.Step.{key, step_of};
ghost use Rattle.nextest_config_lint.specs.Defined.{ListFile};
ghost use Rattle.nextest_config_lint.specs.Found.{AddsOne, FoundKind, kind_view, ReportsIfAny};
ghost use Rattle.nextest_config_lint.specs.References.JudgedFile.{IsJudgedIn, judged_in, HoldsInFile};
ghost use Rattle.nextest_config_lint.specs.References.{IsReferenceFound, IsReferenceReported, IsRuleReported, IsSubjectReported, IsValueReported, last_key, profile_of, steps_to};
ghost use Rattle.nextest_config_lint.specs.References.Overrides.{default_filter_key};
ghost use Rattle.nextest_config_lint.specs.Settings.{mark_step, setting_view};

mod definitions;
pub(crate) mod judged_file;
mod names;
mod overrides;
mod profiles;

use crate::finding::{Finding, FindingKind};
use crate::references::definitions::{of_definition, of_scripts};
use crate::references::judged_file::JudgedFile;
use crate::references::names::{of_group_text, of_text};
use crate::references::overrides::{DEFAULT_FILTER_KEY, of_override, of_script_rule};
use crate::references::profiles::{of_parent, of_profile};
use crate::settings::{Mark, Setting, Subject, steps_of};
use nextest_config_elements::field::{Referent, Shape, TableRule};
use nextest_config_elements::named::NamedKind;
use std::alloc::{AllocError, Global};
use toml::Value;
use toml_spans::Step;

/// What is found of something that is judged, if anything is.
type Reported = Result<Option<FindingKind>, AllocError>;

/// Adds what is found of what is judged, if anything is.
pub(crate) fn add_reference(
    alloc: Global,
    file: &JudgedFile,
    setting: &Setting,
    findings: &mut Vec<Finding>,
) -> Result<(), AllocError>
    ensures { OnOk result ((files : List ListFile) (members : Members)
        → IsJudgedIn files members file.now
        → AddsOne (IsReferenceFound (judged_in files members file.now)) (setting_view setting.now)
        findings.old.items findings.new.items) }
{
    match find_of(alloc, file, setting)? {
        Some(kind) => {
            let path = path_to(alloc, setting, &kind)?;
            findings.push(Finding { path, kind })?;
            Ok(())
        }
        None => Ok(()),
    }
}

// The path to where this is reported of what is judged.
fn path_to(alloc: Global, setting: &Setting, kind: &FindingKind) -> Result<Vec<Step>, AllocError>
    ensures { IfOk result (λ path. (reported : FoundKind) → kind_view kind.now ≡ Some reported
        → map step_of path.items ≡ (setting_view setting.now).path ++ steps_to reported) }
{
    let mut path = steps_of(alloc, setting.path)?;
    if is_of_default_filter(kind) {
        path.push(Step::Key(String::from_str(alloc, DEFAULT_FILTER_KEY)?))?;
    }
    Ok(path)
}

// Whether this is reported of the default filter of an override.
fn is_of_default_filter(kind: &FindingKind) -> bool
    ensures { (reported : FoundKind) → kind_view kind.now ≡ Some reported
        → steps_to reported ≡ cond result (key default_filter_key ∷ []) [] }
{
    match kind {
        FindingKind::DefaultFilterBeside | FindingKind::DefaultFilterAlone => true,
        _ => false,
    }
}

// What is found of what is judged, if it is a value.
fn find_of(alloc: Global, file: &JudgedFile, setting: &Setting) -> Reported
    ensures reported { IfOk result (HoldsInFile file.now
        (λ at. IsSubjectReported at (setting_view setting.now).path
        (setting_view setting.now).subject)) }
    ensures reports { IfOk result ReportsIfAny }
{
    match setting.subject {
        Subject::Value { shape, value, .. } => find_at(alloc, file, setting.path, shape, value),
        _ => Ok(None),
    }
}

// What is found of a value of a shape at a path.
fn find_at(alloc: Global, file: &JudgedFile, path: &[Mark], shape: Shape, value: &Value) -> Reported
    ensures reported { IfOk result (HoldsInFile file.now
        (λ at. IsValueReported at (map mark_step path.now) shape (view value.now))) }
    ensures reports { IfOk result ReportsIfAny }
{
    match shape {
        Shape::RuledTable(rule) => of_ruled(alloc, file, path, rule, value),
        Shape::Reference(referent) | Shape::References(referent) => match value.as_str() {
            Some(text) => of_reference(alloc, file, path, referent, text),
            None => Ok(None),
        },
        _ => Ok(None),
    }
}

// What is found of a table at a path for which there is a rule.
fn of_ruled(
    alloc: Global,
    file: &JudgedFile,
    path: &[Mark],
    rule: TableRule,
    value: &Value,
) -> Reported
    ensures reported { IfOk result (HoldsInFile file.now
        (λ at. IsRuleReported at (map mark_step path.now) rule (view value.now))) }
    ensures reports { IfOk result ReportsIfAny }
{
    match rule {
        TableRule::Profile => match last_key(path) {
            Some(name) => Ok(of_profile(name)),
            None => Ok(None),
        },
        TableRule::Override => Ok(of_override(value)),
        TableRule::ScriptRule => Ok(of_script_rule(value)),
        TableRule::Definition(kind) => match last_key(path) {
            Some(name) => of_definition(alloc, file, kind, name),
            None => Ok(None),
        },
        TableRule::Scripts(script) => Ok(of_scripts(file, script, value)),
    }
}

// What is found of a text at a path that names something.
fn of_reference(
    alloc: Global,
    file: &JudgedFile,
    path: &[Mark],
    referent: Referent,
    text: &str,
) -> Reported
    ensures reported { IfOk result (HoldsInFile file.now
        (λ at. IsReferenceReported at (map mark_step path.now) referent text.now)) }
    ensures reports { IfOk result ReportsIfAny }
{
    match referent {
        Referent::Parent => match profile_of(path) {
            Some(name) => of_parent(alloc, file.defined, file.position, name, text),
            None => Ok(None),
        },
        Referent::Definition(NamedKind::Group) => of_group_text(alloc, file.defined, text),
        Referent::Definition(NamedKind::Script(script)) => {
            of_text(alloc, file.defined, NamedKind::Script(script), text)
        }
    }
}

// The key that a path ends with.
fn last_key<'a>(path: &[Mark<'a>]) -> Option<&'a str>
    ensures { option_map (λ name. name.now) result ≡ last_key (map mark_step path.now) }
{
    match path.last()? {
        Mark::Key(name) => Some(name),
        Mark::Index(_) => None,
    }
}

// The profile in which a value at a path stands.
fn profile_of<'a>(path: &[Mark<'a>]) -> Option<&'a str>
    ensures { option_map (λ name. name.now) result ≡ profile_of (map mark_step path.now) }
{
    match path {
        [_, Mark::Key(name), ..] => Some(name),
        _ => None,
    }
}
