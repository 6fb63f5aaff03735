//! How grave a fault is: nextest may take what its readers refuse.

ghost use Rattle.std.specs.Prelude.{◌≡◌, ◌↔◌, IfSome, IsTrue};
ghost use Rattle.nextest_config_values.specs.Read.{cause_of, fault_of};
ghost use Rattle.nextest_config_lint.specs.Settings.{setting_view, subject_view};
ghost use Rattle.nextest_config_lint.specs.Severity.{IsConverted, IsConvertible, IsSeverity, IsWrongType, plain_severity};

use crate::conversion::may_become;
use crate::finding::FindingSeverity;
use crate::settings::{Setting, Subject};
use nextest_config_elements::field::FaultSeverity;
use nextest_config_values::read::{FaultCause, FaultKind, ValueFault};

/// How grave a fault is: a warning where nextest may take the value all the same.
pub(crate) fn severity_of(setting: &Setting, fault: &ValueFault) -> FindingSeverity
    ensures { IfSome (fault_of fault.now)
        (λ seen. IsSeverity (setting_view setting.now) seen result) }
{
    if is_converted(setting, fault) {
        return FindingSeverity::Warning;
    }
    plain_severity(setting.severity)
}

// How grave a fault is where nextest doesn't convert the value.
fn plain_severity(severity: FaultSeverity) -> FindingSeverity
    ensures { result ≡ plain_severity severity }
{
    match severity {
        FaultSeverity::Error | FaultSeverity::ErrorUnlessConverted => FindingSeverity::Error,
        FaultSeverity::Warning => FindingSeverity::Warning,
    }
}

// Whether the value is of a wrong kind, and nextest may make one of the wanted kind of it.
fn is_converted(setting: &Setting, fault: &ValueFault) -> bool
    ensures { IfSome (fault_of fault.now)
        (λ seen. IsTrue result ↔ IsConverted (setting_view setting.now) seen) }
{
    if setting.severity != FaultSeverity::ErrorUnlessConverted {
        return false;
    }
    is_wrong_type(&fault.cause) && is_convertible(setting.subject)
}

// Whether the value is of a kind that isn't taken.
fn is_wrong_type(cause: &FaultCause) -> bool
    ensures { IfSome (cause_of cause.now) (λ seen. IsTrue result ↔ IsWrongType seen) }
{
    match cause {
        FaultCause::Kind(FaultKind::InvalidType { .. }) => true,
        FaultCause::Kind(FaultKind::InvalidValue { .. })
        | FaultCause::Kind(FaultKind::UnknownVariant { .. })
        | FaultCause::Kind(FaultKind::UnknownField { .. })
        | FaultCause::Kind(FaultKind::MissingField { .. })
        | FaultCause::Kind(FaultKind::Custom(_))
        | FaultCause::Kind(FaultKind::Identifier(_))
        | FaultCause::Kind(FaultKind::ToolName(_))
        | FaultCause::Kind(FaultKind::Memory)
        | FaultCause::NoDuration { .. }
        | FaultCause::Missing { .. } => false,
    }
}

// Whether nextest may make the wanted kind of a value.
fn is_convertible(subject: Subject) -> bool
    ensures { IsTrue result ↔ IsConvertible (subject_view subject.entry) }
{
    match subject {
        Subject::Value { shape, value, .. } => may_become(shape, value),
        _ => false,
    }
}
