//! What is wrong with a text that has a syntax of its own: a filter, or a platform.

ghost use Rattle.std.specs.Prelude.{◌≡◌, IfOk, MatchOption};
ghost use Rattle.nextest_config_filters.specs.Fault.{Fault as TextFaultOf, fault_of};
ghost use Rattle.nextest_config_lint.specs.Found.{found_at, found_of, wrong_text};
ghost use Rattle.nextest_config_lint.specs.Settings.{setting_view, subject_view};
ghost use Rattle.nextest_config_lint.specs.Texts.{HasNoTextFault, IsFaultIn, IsTextFault};
ghost use Rattle.nextest_config_lint.specs.Values.{ReportsText};

use crate::finding::{Finding, FindingKind};
use crate::settings::{Setting, Subject};
use crate::values::ValueFindings;
use nextest_config_elements::field::Shape;
use nextest_config_filters::{FilterPlace, TextFault, filter_fault, platform_fault};
use std::alloc::{AllocError, Global};

/// What is found of what is judged, where it is a text.
pub(crate) fn find_in_text(alloc: Global, setting: &Setting) -> Result<ValueFindings, AllocError>
    ensures { IfOk result (ReportsText (setting_view setting.now)) }
{
    match text_fault(alloc, setting.subject)? {
        Some(fault) => {
            let path = setting.steps(alloc)?;
            let kind = FindingKind::Text(fault);
            let found = ValueFindings::of_fault(alloc, Finding { path, kind })?;
            Ok(found)
        }
        None => Ok(ValueFindings::new(alloc)),
    }
}

// What is wrong with what is judged, where it is a text.
fn text_fault(alloc: Global, subject: Subject) -> Result<Option<TextFault>, AllocError>
    ensures { IfOk result (λ found. MatchOption found (HasNoTextFault (subject_view subject.entry))
        (λ own. IsTextFault (subject_view subject.entry) (fault_of own))) }
{
    match subject {
        Subject::Value { shape, value, .. } => match value.as_str() {
            Some(text) => fault_in(alloc, shape, text),
            None => Ok(None),
        },
        _ => Ok(None),
    }
}

// What is wrong with a text of a shape.
fn fault_in(alloc: Global, shape: Shape, text: &str) -> Result<Option<TextFault>, AllocError>
    ensures { IfOk result (λ found.
        MatchOption found ((fault : TextFaultOf) → ¬ IsFaultIn shape text.now fault)
        (λ own. IsFaultIn shape text.now (fault_of own))) }
{
    match shape {
        Shape::Filter => filter_fault(alloc, text, FilterPlace::Filter),
        Shape::DefaultFilter => filter_fault(alloc, text, FilterPlace::DefaultFilter),
        Shape::Platform | Shape::PlatformText => platform_fault(alloc, text),
        _ => Ok(None),
    }
}
