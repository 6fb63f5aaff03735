//! The codes of findings.

ghost use Rattle.std.specs.Prelude.{◌≡◌};
ghost use Rattle.nextest_config_values.specs.Read.{broken_rule};
ghost use Rattle.nextest_config_lint.specs.Code.{code_reads_back, code_word, codes_in_order, fault_code, name_code, rule_code, text_code, undefined_code};

use nextest_config_elements::named::NamedKind;
use nextest_config_filters::TextFaultCode;
use nextest_config_values::read::{FaultKind, Rule, Word};

/// What kind of finding it is, for those that look for one. A code never changes its meaning.
#[derive(Clone, Copy, Debug, PartialEq, Eq)]
pub enum FindingCode {
    /// The file isn't UTF-8.
    NotUtf8,
    /// The file isn't a TOML document.
    NotToml,
    /// A value is of a kind that the setting doesn't take.
    InvalidType,
    /// A value is of the right kind and outside of what the setting takes.
    InvalidValue,
    /// A text is none of the setting's words.
    UnknownVariant,
    /// A table has a key that the setting refuses.
    UnknownField,
    /// A table lacks a key.
    MissingField,
    /// A version has a pre-release.
    PreRelease,
    /// A version has build metadata.
    BuildMetadata,
    /// A text is no version.
    NotVersion,
    /// A required version is above the recommended one.
    RequiredAboveRecommended,
    /// There is jitter where there is no delay.
    JitterWithoutDelay,
    /// Exponential backoff has no retry.
    CountZero,
    /// Exponential backoff has no delay.
    DelayZero,
    /// Exponential backoff has a maximum delay of zero.
    MaxDelayZero,
    /// Exponential backoff has a maximum delay below the first one.
    MaxDelayBelowDelay,
    /// A priority is outside of -100 to 100.
    Priority,
    /// Features stand in an array, where only a table is taken.
    ArrayForm,
    /// The file of a tool names experimental features.
    ToolFeatures,
    /// No experimental feature has a name.
    UnknownFeature,
    /// A table has a key that isn't known there.
    UnknownKey,
    /// No file defines a test group.
    UndefinedGroup,
    /// No file defines a profile.
    UndefinedProfile,
    /// The profile `default` inherits.
    DefaultInherits,
    /// A profile inherits from itself.
    InheritsItself,
    /// An override says nothing of the tests that it is for.
    OverrideOfAll,
    /// The name of a profile is reserved.
    ReservedProfile,
    /// A text is no name of a test group here.
    GroupName,
    /// No file defines a script.
    UndefinedScript,
    /// A text is no name of a script here.
    ScriptName,
    /// Scripts need an experimental feature that no file enables.
    FeatureNotEnabled,
    /// What an override says beside its default filter is too much or too little.
    OverrideDefaultFilter,
    /// A text is no filter.
    FilterSyntax,
    /// No predicate of filters has a name.
    UnknownPredicate,
    /// A default filter asks for the default filter.
    BannedPredicate,
    /// The argument of a predicate isn't one that it takes.
    FilterArgument,
    /// A text is no platform.
    PlatformSyntax,
    /// A platform is a word that is the name of no target.
    PlatformWord,
    /// A text is no duration here, and may be one for nextest.
    UnjudgedDuration,
    /// Features stand in an array, which is deprecated.
    DeprecatedArray,
}

/// The code of what is wrong with a text.
pub(crate) fn code_of_text(code: TextFaultCode) -> FindingCode
    ensures { result ≡ text_code code }
{
    match code {
        TextFaultCode::FilterSyntax => FindingCode::FilterSyntax,
        TextFaultCode::UnknownPredicate => FindingCode::UnknownPredicate,
        TextFaultCode::BannedPredicate => FindingCode::BannedPredicate,
        TextFaultCode::FilterArgument => FindingCode::FilterArgument,
        TextFaultCode::PlatformSyntax => FindingCode::PlatformSyntax,
        TextFaultCode::PlatformWord => FindingCode::PlatformWord,
    }
}

/// The code of an undefined name of a kind.
pub(crate) fn code_of_undefined(kind: NamedKind) -> FindingCode
    ensures { result ≡ undefined_code kind }
{
    match kind {
        NamedKind::Group => FindingCode::UndefinedGroup,
        NamedKind::Script(_) => FindingCode::UndefinedScript,
    }
}

/// The code of a text that is no name of a kind here.
pub(crate) fn code_of_name(kind: NamedKind) -> FindingCode
    ensures { result ≡ name_code kind }
{
    match kind {
        NamedKind::Group => FindingCode::GroupName,
        NamedKind::Script(_) => FindingCode::ScriptName,
    }
}

/// The code of a refusal.
pub(crate) fn code_of_fault(fault: &FaultKind) -> FindingCode
    ensures { result ≡ fault_code fault.now }
{
    match fault {
        FaultKind::InvalidType { .. } => FindingCode::InvalidType,
        FaultKind::UnknownVariant { .. } => FindingCode::UnknownVariant,
        FaultKind::UnknownField { .. } => FindingCode::UnknownField,
        FaultKind::MissingField { .. } => FindingCode::MissingField,
        FaultKind::Custom(rule) => code_of_rule(rule),
        FaultKind::InvalidValue { .. }
        | FaultKind::Identifier(_)
        | FaultKind::ToolName(_)
        | FaultKind::Memory => FindingCode::InvalidValue,
    }
}

// The code of a rule that is broken.
fn code_of_rule(rule: &Rule) -> FindingCode
    ensures { result ≡ rule_code (broken_rule rule.now) }
{
    match rule {
        Rule::ArrayForm => FindingCode::ArrayForm,
        Rule::PreRelease => FindingCode::PreRelease,
        Rule::BuildMetadata => FindingCode::BuildMetadata,
        Rule::NotVersion { .. } => FindingCode::NotVersion,
        Rule::RequiredAboveRecommended { .. } => FindingCode::RequiredAboveRecommended,
        Rule::JitterWithoutDelay => FindingCode::JitterWithoutDelay,
        Rule::CountZero => FindingCode::CountZero,
        Rule::DelayZero => FindingCode::DelayZero,
        Rule::MaxDelayZero => FindingCode::MaxDelayZero,
        Rule::MaxDelayBelowDelay => FindingCode::MaxDelayBelowDelay,
        Rule::Priority { .. } => FindingCode::Priority,
    }
}

impl Word for FindingCode {
    ghost all = { codes_in_order };

    ghost word = { code_word };

    ghost reads_back = { code_reads_back };

    fn all() -> &'static [Self] {
        &[
            FindingCode::NotUtf8,
            FindingCode::NotToml,
            FindingCode::InvalidType,
            FindingCode::InvalidValue,
            FindingCode::UnknownVariant,
            FindingCode::UnknownField,
            FindingCode::MissingField,
            FindingCode::PreRelease,
            FindingCode::BuildMetadata,
            FindingCode::NotVersion,
            FindingCode::RequiredAboveRecommended,
            FindingCode::JitterWithoutDelay,
            FindingCode::CountZero,
            FindingCode::DelayZero,
            FindingCode::MaxDelayZero,
            FindingCode::MaxDelayBelowDelay,
            FindingCode::Priority,
            FindingCode::ArrayForm,
            FindingCode::ToolFeatures,
            FindingCode::UnknownFeature,
            FindingCode::UnknownKey,
            FindingCode::UndefinedGroup,
            FindingCode::UndefinedProfile,
            FindingCode::DefaultInherits,
            FindingCode::InheritsItself,
            FindingCode::OverrideOfAll,
            FindingCode::ReservedProfile,
            FindingCode::GroupName,
            FindingCode::UndefinedScript,
            FindingCode::ScriptName,
            FindingCode::FeatureNotEnabled,
            FindingCode::OverrideDefaultFilter,
            FindingCode::FilterSyntax,
            FindingCode::UnknownPredicate,
            FindingCode::BannedPredicate,
            FindingCode::FilterArgument,
            FindingCode::PlatformSyntax,
            FindingCode::PlatformWord,
            FindingCode::UnjudgedDuration,
            FindingCode::DeprecatedArray,
        ]
    }

    fn words() -> &'static [&'static str] {
        &[
            "not-utf8",
            "not-toml",
            "invalid-type",
            "invalid-value",
            "unknown-variant",
            "unknown-field",
            "missing-field",
            "pre-release",
            "build-metadata",
            "not-version",
            "required-above-recommended",
            "jitter-without-delay",
            "count-zero",
            "delay-zero",
            "max-delay-zero",
            "max-delay-below-delay",
            "priority",
            "array-form",
            "tool-features",
            "unknown-feature",
            "unknown-key",
            "undefined-group",
            "undefined-profile",
            "default-inherits",
            "inherits-itself",
            "override-of-all",
            "reserved-profile",
            "group-name",
            "undefined-script",
            "script-name",
            "feature-not-enabled",
            "override-default-filter",
            "filter-syntax",
            "unknown-predicate",
            "banned-predicate",
            "filter-argument",
            "platform-syntax",
            "platform-word",
            "unjudged-duration",
            "deprecated-array",
        ]
    }

    fn position(self) -> usize {
        self as usize
    }
}
