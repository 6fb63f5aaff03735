//! Why a TOML value was refused, and where.

ghost use Rattle.std.specs.Prelude.{◌≡◌, ◌++◌, is_none, option_map, Some, string_bytes};
ghost use Rattle.std.specs.Fmt.{WritesOnOk, WritesStyledOnOk};
ghost use Rattle.nextest_config_values.specs.Identifier.Error.{identifier_fault, tool_name_fault};
ghost use Rattle.nextest_config_values.specs.Read.{broken_rule, identifier, IsNameKind, kind_text, mismatch_text, path_text, reason_of, rule_text, styled_kind_text, styled_rule_text, TellsMemory, read_fault_view, tool_name, unknown_text, words_of};
ghost use Rattle.nextest_config_values.specs.declared.read.fault.FaultKind.TheVariants.{Memory};

use super::text::write_words;
use crate::identifier::{InvalidIdentifier, InvalidToolName};
use semver::Version;
use std::alloc::{AllocError, Global};
use std::error::Error;
use std::fmt::{self, Display};
use toml_spans::QuotedText;

/// A refused TOML value: the path of its key, empty for the value that was handed in, and the
/// reason.
#[derive(Debug, PartialEq, Eq, Drop)]
pub struct ReadFault {
    pub path: String,
    pub kind: FaultKind,
}

/// The reason why a TOML value was refused. Words and keys that are expected are these; what else
/// is expected is written as it is printed.
#[derive(Debug, PartialEq, Eq, Drop)]
pub enum FaultKind {
    /// The value is of a kind that the setting doesn't take.
    InvalidType {
        found: String,
        expected: &'static str,
    },
    /// The value is of the right kind and outside of what the setting takes.
    InvalidValue {
        found: String,
        expected: &'static str,
    },
    /// The text is none of the setting's words.
    UnknownVariant {
        found: String,
        expected: &'static [&'static str],
    },
    /// The table has a key that the setting doesn't know.
    UnknownField {
        found: String,
        expected: &'static [&'static str],
    },
    /// The table lacks a key; `key` is its path.
    MissingField {
        key: String,
    },
    /// The value breaks a rule of the setting's own.
    Custom(Rule),
    /// The text is no identifier.
    Identifier(InvalidIdentifier),
    /// The text is no tool name.
    ToolName(InvalidToolName),
    /// A request for memory was refused, and so nothing is said of the value.
    Memory,
}

/// A rule that a value of the right kind broke.
#[derive(Debug, PartialEq, Eq, Drop)]
pub enum Rule {
    /// A version text with a pre-release (SemVer 2.0.0, item 9).
    PreRelease,
    /// A version text with build metadata (SemVer 2.0.0, item 10).
    BuildMetadata,
    /// A text that is no version, as it is written.
    NotVersion {
        text: String,
    },
    /// A required version above the recommended one.
    RequiredAboveRecommended {
        required: Version,
        recommended: Version,
    },
    /// An array of features, where only a table is taken.
    ArrayForm,
    /// Jitter where there is no delay.
    JitterWithoutDelay,
    /// No retry, with exponential backoff.
    CountZero,
    /// No delay, with exponential backoff.
    DelayZero,
    /// A maximum delay of zero, with exponential backoff.
    MaxDelayZero,
    /// A maximum delay below the first one, with exponential backoff.
    MaxDelayBelowDelay,
    /// A priority outside of -100 to 100.
    Priority {
        priority: i8,
    },
}

impl ReadFault {
    /// Whether a request for memory was refused.
    pub fn is_memory(&self) -> bool
        ensures { result ≡ is_none (read_fault_view self.now) }
    {
        self.kind.is_memory()
    }

    /// The fault of a value whose reading was refused memory: nothing is said of it.
    pub(crate) fn memory(alloc: Global) -> ReadFault
        ensures { TellsMemory result }
    {
        ReadFault {
            path: String::new(alloc),
            kind: FaultKind::Memory,
        }
    }
}

impl FaultKind {
    /// Whether a request for memory was refused, that of a name included.
    pub fn is_memory(&self) -> bool
        ensures { result ≡ is_none (reason_of self.now) }
    {
        match self {
            FaultKind::Memory
            | FaultKind::Identifier(InvalidIdentifier::Memory)
            | FaultKind::ToolName(InvalidToolName::Memory) => true,
            FaultKind::InvalidType { .. }
            | FaultKind::InvalidValue { .. }
            | FaultKind::UnknownVariant { .. }
            | FaultKind::UnknownField { .. }
            | FaultKind::MissingField { .. }
            | FaultKind::Custom(_)
            | FaultKind::Identifier(_)
            | FaultKind::ToolName(_) => false,
        }
    }
}

impl From<AllocError> for FaultKind {
    ghost from_gives = { λ _ kind. kind ≡ Memory };

    fn from(_error: AllocError) -> FaultKind {
        FaultKind::Memory
    }
}

impl From<InvalidIdentifier> for FaultKind {
    ghost from_gives = { λ error kind. IsNameKind identifier (identifier_fault error) kind };

    fn from(error: InvalidIdentifier) -> FaultKind {
        match error {
            InvalidIdentifier::Memory => FaultKind::Memory,
            error => FaultKind::Identifier(error),
        }
    }
}

impl From<InvalidToolName> for FaultKind {
    ghost from_gives = { λ error kind. IsNameKind tool_name (tool_name_fault error) kind };

    fn from(error: InvalidToolName) -> FaultKind {
        match error {
            InvalidToolName::Memory => FaultKind::Memory,
            error => FaultKind::ToolName(error),
        }
    }
}

impl Error for ReadFault {}

impl Error for FaultKind {}

impl fmt::Display for ReadFault {
    ghost output = { λ fault. Some (path_text (string_bytes fault.path) ++ kind_text fault.kind) };

    ghost styled_output = { λ fault _. option_map (λ text. path_text (string_bytes fault.path) ++ text)
        (styled_kind_text fault.kind) };

    fn fmt<W: fmt::Write>(&self, f: &mut fmt::Formatter<W>) -> fmt::Result {
        if !self.path.is_empty() {
            f.write_str(self.path.as_str())?;
            f.write_str(": ")?;
        }
        self.kind.fmt(f)
    }
}

impl fmt::Display for FaultKind {
    ghost output = { λ kind. Some (kind_text kind) };

    ghost styled_output = { λ kind _. styled_kind_text kind };

    fn fmt<W: fmt::Write>(&self, f: &mut fmt::Formatter<W>) -> fmt::Result {
        match self {
            FaultKind::InvalidType { found, expected } => {
                write_mismatch(f, "invalid type: ", found.as_str(), expected)
            }
            FaultKind::InvalidValue { found, expected } => {
                write_mismatch(f, "invalid value: ", found.as_str(), expected)
            }
            FaultKind::UnknownVariant { found, expected } => {
                write_unknown(f, "unknown variant `", found.as_str(), expected)
            }
            FaultKind::UnknownField { found, expected } => {
                write_unknown(f, "unknown field `", found.as_str(), expected)
            }
            FaultKind::MissingField { key } => {
                f.write_str("missing configuration field \"")?;
                f.write_str(key.as_str())?;
                f.write_str("\"")
            }
            FaultKind::Custom(rule) => rule.fmt(f),
            FaultKind::Identifier(error) => error.fmt(f),
            FaultKind::ToolName(error) => error.fmt(f),
            FaultKind::Memory => f.write_str("out of memory"),
        }
    }
}

// What was found, after this text, and what was expected.
fn write_mismatch<W: fmt::Write>(
    f: &mut fmt::Formatter<W>,
    reason: &str,
    found: &str,
    expected: &str,
) -> fmt::Result
    ensures writes { WritesOnOk W.write_str_gives f.old result
        (reason.now ++ mismatch_text found.now expected.now) f.new }
    ensures styled { WritesStyledOnOk W.write_str_gives f.old result
        (reason.now ++ mismatch_text found.now expected.now) f.new }
{
    f.write_str(reason)?;
    f.write_str(found)?;
    f.write_str(", expected ")?;
    f.write_str(expected)
}

// An unknown name after this text, and the known ones.
fn write_unknown<W: fmt::Write>(
    f: &mut fmt::Formatter<W>,
    reason: &str,
    found: &str,
    expected: &[&str],
) -> fmt::Result
    ensures writes { WritesOnOk W.write_str_gives f.old result
        (reason.now ++ unknown_text found.now (words_of expected.now)) f.new }
    ensures styled { WritesStyledOnOk W.write_str_gives f.old result
        (reason.now ++ unknown_text found.now (words_of expected.now)) f.new }
{
    f.write_str(reason)?;
    f.write_str(found)?;
    f.write_str("`, expected ")?;
    write_words(f, expected)
}

impl fmt::Display for Rule {
    ghost output = { λ rule. Some (rule_text (broken_rule rule)) };

    ghost styled_output = { λ rule _. styled_rule_text (broken_rule rule) };

    fn fmt<W: fmt::Write>(&self, f: &mut fmt::Formatter<W>) -> fmt::Result {
        match self {
            Rule::PreRelease => {
                f.write_str("pre-release identifiers are not supported in nextest-version")
            }
            Rule::BuildMetadata => {
                f.write_str("build metadata is not supported in nextest-version")
            }
            Rule::NotVersion { text } => {
                f.write_str("invalid version ")?;
                QuotedText(text.as_str()).fmt(f)
            }
            Rule::RequiredAboveRecommended {
                required,
                recommended,
            } => write!(
                f,
                "required version ({required}) must not be greater than recommended version ({recommended})"
            ),
            Rule::ArrayForm => {
                f.write_str("the array form of `experimental` isn't supported, use a table")
            }
            Rule::JitterWithoutDelay => {
                f.write_str("`jitter` cannot be true if `delay` isn't specified or is zero")
            }
            Rule::CountZero => f.write_str("`count` cannot be zero with exponential backoff"),
            Rule::DelayZero => f.write_str("`delay` cannot be zero with exponential backoff"),
            Rule::MaxDelayZero => {
                f.write_str("`max-delay` cannot be zero with exponential backoff")
            }
            Rule::MaxDelayBelowDelay => {
                f.write_str("`max-delay` cannot be less than delay with exponential backoff")
            }
            Rule::Priority { priority } => {
                write!(f, "priority {priority} must be between -100 and 100")
            }
        }
    }
}
