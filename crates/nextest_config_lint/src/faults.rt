//! What is found of a fault of a value.

ghost use Rattle.std.specs.Prelude.{◌≡◌, ◌++◌, ◌↔◌, IfOk, IfSome, IsTrue, map, option_map, Some};
ghost use Rattle.toml.specs.View.{view};
ghost use Rattle.nextest_config_values.specs.Read.Fault.{Fault};
ghost use Rattle.nextest_config_values.specs.Read.{cause_of, fault_of, reason_at, reason_of};
ghost use Rattle.toml_spans.specs.Line.{found_below, step_from};
ghost use Rattle.toml_spans.specs.Step.{printed_path, step_of};
ghost use Rattle.nextest_config_lint.specs.Faults.{IsFoundOf, IsUnjudged, text_along};
ghost use Rattle.nextest_config_lint.specs.Found.{Found, found_at, found_of, unjudged};
ghost use Rattle.nextest_config_lint.specs.Settings.{setting_view, subject_view};
ghost use Rattle.nextest_config_lint.specs.Subjects.{IsLeftOpen};
ghost use Rattle.nextest_config_lint.specs.Values.{ReportsFault};

use crate::finding::{Finding, FindingKind};
use crate::hints::hint_of;
use crate::settings::{Setting, Subject};
use crate::severity::severity_of;
use crate::values::ValueFindings;
use nextest_config_values::duration::may_be_duration;
use nextest_config_values::read::{FaultCause, FaultKind, ValueFault};
use std::alloc::{AllocError, Global};
use toml::Value;
use toml_spans::{PathText, Step};

/// What is found of a fault of what is judged: what is wrong, or that it isn't judged here.
pub(crate) fn find_of_fault(
    alloc: Global,
    setting: &Setting,
    fault: ValueFault,
) -> Result<ValueFindings, AllocError>
    ensures { IfOk result (ReportsFault (setting_view setting.now) (fault_of fault)) }
{
    if fault.is_memory() {
        return Err(AllocError);
    }
    if is_left_open(alloc, setting.subject, &fault)? {
        let finding = unjudged_at(alloc, setting, fault)?;
        let found = ValueFindings::of_note(alloc, finding)?;
        return Ok(found);
    }
    let finding = refused_at(alloc, setting, fault)?;
    let found = ValueFindings::of_fault(alloc, finding)?;
    Ok(found)
}

// The note on a duration that isn't judged.
fn unjudged_at(alloc: Global, setting: &Setting, fault: ValueFault) -> Result<Finding, AllocError>
    ensures { IfOk result (λ finding. IfSome (fault_of fault) (λ seen. found_of finding
        ≡ Some (found_at ((setting_view setting.now).path ++ seen.steps) unjudged))) }
{
    let ValueFault {
        mut steps,
        cause: _,
    } = fault;
    let mut path = setting.steps(alloc)?;
    path.append(&mut steps)?;
    let kind = FindingKind::UnjudgedDuration;
    Ok(Finding { path, kind })
}

// The finding of a value that is refused.
fn refused_at(alloc: Global, setting: &Setting, fault: ValueFault) -> Result<Finding, AllocError>
    ensures { IfOk result (λ finding. IfSome (fault_of fault) (λ seen. (found : Found)
        × IsFoundOf (setting_view setting.now) seen found × (found_of finding ≡ Some found))) }
{
    let severity = severity_of(setting, &fault);
    let hint = hint_of(alloc, setting, &fault)?;
    let ValueFault { mut steps, cause } = fault;
    let mut path = setting.steps(alloc)?;
    path.append(&mut steps)?;
    let kind = FindingKind::Fault {
        fault: kind_at(alloc, path.as_slice(), cause)?,
        severity,
        hint,
    };
    Ok(Finding { path, kind })
}

// The cause, as it is reported at the path. A path is written only for what names one.
fn kind_at(alloc: Global, path: &[Step], cause: FaultCause) -> Result<FaultKind, AllocError>
    ensures { IfOk result (λ kind. IfSome (cause_of cause) (λ seen.
        reason_of kind ≡ Some (reason_at (printed_path (map step_of path.now)) seen))) }
{
    match cause {
        FaultCause::Kind(kind) => Ok(kind),
        cause => written_kind(alloc, path, cause),
    }
}

// The cause, as it is reported at the path, which is written.
fn written_kind(alloc: Global, path: &[Step], cause: FaultCause) -> Result<FaultKind, AllocError>
    ensures { IfOk result (λ kind. IfSome (cause_of cause) (λ seen.
        reason_of kind ≡ Some (reason_at (printed_path (map step_of path.now)) seen))) }
{
    let at = PathText(path).to_string(alloc)?;
    let kind = cause.kind_at(alloc, at.as_str());
    if kind.is_memory() {
        return Err(AllocError);
    }
    Ok(kind)
}

// Whether what is wrong is a duration of a form that isn't judged here.
fn is_left_open(alloc: Global, subject: Subject, fault: &ValueFault) -> Result<bool, AllocError>
    ensures { IfOk result (λ answer. IfSome (fault_of fault.now) (λ seen.
        IsTrue answer ↔ IsLeftOpen (subject_view subject.entry) seen)) }
{
    match subject {
        Subject::Value { value, .. } => is_unjudged(alloc, value, fault),
        _ => Ok(false),
    }
}

/// Whether what is wrong with a value is a text that isn't taken for a duration, and may be one for
/// nextest.
pub fn is_unjudged(alloc: Global, value: &Value, fault: &ValueFault) -> Result<bool, AllocError>
    ensures { IfOk result (λ answer. IfSome (fault_of fault.now) (λ seen.
        IsTrue answer ↔ IsUnjudged (view value.now) seen)) }
{
    match &fault.cause {
        FaultCause::NoDuration { .. } => match text_along(value, fault.steps.as_slice()) {
            Some(text) => may_be_duration(alloc, text),
            None => Ok(false),
        },
        FaultCause::Missing { .. } | FaultCause::Kind(_) => Ok(false),
    }
}

/// The text that steps lead to from a value.
pub(crate) fn text_along<'v>(value: &'v Value, steps: &[Step]) -> Option<&'v str>
    ensures { option_map (λ text. text.now) result
        ≡ text_along (view value.now) (map step_of steps.now) }
{
    match value_along(value, steps) {
        Some(inner) => inner.as_str(),
        None => None,
    }
}

// The value that steps lead to from a value.
fn value_along<'v>(value: &'v Value, steps: &[Step]) -> Option<&'v Value>
    ensures { option_map (λ inner. view inner.now) result
        ≡ found_below (map step_of steps.now) (view value.now) }
{
    match steps {
        [] => Some(value),
        [first, rest @ ..] => match step_from(value, first) {
            Some(inner) => value_along(inner, rest),
            None => None,
        },
    }
}

// One step on from a value.
fn step_from<'v>(value: &'v Value, step: &Step) -> Option<&'v Value>
    ensures { option_map (λ inner. view inner.now) result
        ≡ step_from (view value.now) (step_of step.now) }
{
    match step {
        Step::Key(key) => value.get(key.as_str()),
        Step::Index(index) => value.get(*index),
    }
}
