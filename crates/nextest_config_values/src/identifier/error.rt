//! Why a text was refused as an identifier or as a tool name.

ghost use Rattle.std.specs.Prelude.{◌≡◌, ◌++◌, Some};
ghost use Rattle.std.specs.Fmt.{WritesOnOk, WritesStyledOnOk};
ghost use Rattle.nextest_config_values.specs.Identifier.{identifier_fault, identifier_fault_text, tool_name_fault, tool_name_fault_text};
ghost use Rattle.toml_spans.specs.QuotedText.{quoted_text};
ghost use Rattle.nextest_config_values.specs.Read.{text_or_memory};

use crate::helpers::InvalidIdentifierKind;
use crate::read::QuotedText;
use std::alloc::AllocError;
use std::error::Error;
use std::fmt::{self, Display};

/// Why a text is no identifier. The text that is named is in Normalization Form C.
#[derive(Debug, PartialEq, Eq, Drop)]
pub enum InvalidIdentifier {
    /// The text is empty.
    Empty,
    /// The text isn't marked as a tool identifier, and isn't of the form of UAX 31.
    InvalidXid(String),
    /// The text begins with `@tool:`, and there is no colon after that.
    ToolIdentifierInvalidFormat(String),
    /// One of the two components of a tool identifier is empty.
    ToolComponentEmpty(String),
    /// One of the two components of a tool identifier isn't of the form of UAX 31.
    ToolIdentifierInvalidXid(String),
    /// A request for memory was refused, and so nothing is said of the text.
    Memory,
}

/// Why a text is no tool name. The text that is named is in Normalization Form C.
#[derive(Debug, PartialEq, Eq, Drop)]
pub enum InvalidToolName {
    /// The text is empty.
    Empty,
    /// The text begins with `@tool`, which is reserved for tool identifiers.
    StartsWithToolPrefix(String),
    /// The text isn't of the form of UAX 31.
    InvalidXid(String),
    /// A request for memory was refused, and so nothing is said of the text.
    Memory,
}

/// What is wrong with the characters of an identifier.
#[derive(Clone, Copy, Debug, PartialEq, Eq)]
pub enum IdentifierFlaw {
    /// The whole text, which isn't marked as a tool identifier.
    Whole(InvalidIdentifierKind),
    /// A text that is marked as a tool identifier and has one component.
    OneComponent,
    /// One of the two components of a tool identifier.
    Component(InvalidIdentifierKind),
}

/// What is wrong with the characters of a tool name.
#[derive(Clone, Copy, Debug, PartialEq, Eq)]
pub enum ToolNameFlaw {
    Empty,
    StartsWithToolPrefix,
    InvalidXid,
}

impl fmt::Display for InvalidIdentifier {
    ghost output = { λ error. Some (text_or_memory identifier_fault_text (identifier_fault error)) };

    ghost styled_output = { λ error _. Some (text_or_memory identifier_fault_text (identifier_fault error)) };

    fn fmt<W: fmt::Write>(&self, f: &mut fmt::Formatter<W>) -> fmt::Result {
        match self {
            InvalidIdentifier::Empty => f.write_str("identifier is empty"),
            InvalidIdentifier::InvalidXid(text) => write_named(
                f,
                "invalid identifier ",
                text.as_str(),
            ),
            InvalidIdentifier::ToolIdentifierInvalidFormat(text) => {
                write_named(
                    f,
                    "tool identifier isn't @tool:name:identifier: ",
                    text.as_str(),
                )
            }
            InvalidIdentifier::ToolComponentEmpty(text) => {
                write_named(f, "tool identifier has an empty component: ", text.as_str())
            }
            InvalidIdentifier::ToolIdentifierInvalidXid(text) => {
                write_named(f, "invalid tool identifier ", text.as_str())
            }
            InvalidIdentifier::Memory => f.write_str("out of memory"),
        }
    }
}

// The reason, and the refused text between quotes.
fn write_named<W: fmt::Write>(f: &mut fmt::Formatter<W>, reason: &str, text: &str) -> fmt::Result
    ensures writes { WritesOnOk W.write_str_gives f.old result
        (reason.now ++ quoted_text text.now) f.new }
    ensures styled { WritesStyledOnOk W.write_str_gives f.old result
        (reason.now ++ quoted_text text.now) f.new }
{
    f.write_str(reason)?;
    QuotedText(text).fmt(f)
}

impl fmt::Display for InvalidToolName {
    ghost output = { λ error. Some (text_or_memory tool_name_fault_text (tool_name_fault error)) };

    ghost styled_output = { λ error _. Some (text_or_memory tool_name_fault_text (tool_name_fault error)) };

    fn fmt<W: fmt::Write>(&self, f: &mut fmt::Formatter<W>) -> fmt::Result {
        match self {
            InvalidToolName::Empty => f.write_str("tool name is empty"),
            InvalidToolName::StartsWithToolPrefix(text) => {
                write_named(f, "tool name begins with @tool: ", text.as_str())
            }
            InvalidToolName::InvalidXid(text) => write_named(
                f,
                "invalid tool name ",
                text.as_str(),
            ),
            InvalidToolName::Memory => f.write_str("out of memory"),
        }
    }
}

impl Error for InvalidIdentifier {}

impl Error for InvalidToolName {}

impl From<AllocError> for InvalidIdentifier {
    ghost use Rattle.nextest_config_values.specs.declared.identifier.error.InvalidIdentifier.TheVariants.{Memory};

    ghost from_gives = { λ _ error. error ≡ Memory };

    fn from(_error: AllocError) -> InvalidIdentifier {
        InvalidIdentifier::Memory
    }
}

impl From<AllocError> for InvalidToolName {
    ghost use Rattle.nextest_config_values.specs.declared.identifier.error.InvalidToolName.TheVariants.{Memory};

    ghost from_gives = { λ _ error. error ≡ Memory };

    fn from(_error: AllocError) -> InvalidToolName {
        InvalidToolName::Memory
    }
}
