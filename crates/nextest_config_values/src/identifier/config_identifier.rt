//! The names of profiles, test groups and scripts.

ghost use Rattle.std.specs.Prelude.{◌≡◌, ◌↔◌, ◌++◌, ℕ, List, IfErr, IfOk, IsOk, IsTrue, MatchOption, OnOk, Some, chars, true};
ghost use Rattle.std.proofs.Common.{rules};
ghost use Rattle.nextest_config_values.specs.Helpers.Identifiers.{IsPlainIdentifier};
ghost use Rattle.nextest_config_values.specs.Identifier.{AreComponents, AreFlawed, identifier_fault, identifier_grammar, IsIdentifierFlaw, IsIdentifierForm, IsMarked, tool_mark};

use super::error::{IdentifierFlaw, InvalidIdentifier};
use super::name::{Name, NameForm};
use crate::helpers::{InvalidIdentifierKind, is_valid_identifier_unicode};

// What a tool identifier begins with.
const TOOL_MARK: &str = "@tool:";

/// An identifier: a character of XID_Start, then characters of XID_Continue and `-` (UAX 31); or a
/// tool identifier, `@tool:NAME:IDENTIFIER` with two of these. It is kept in Normalization Form C.
pub type ConfigIdentifier = Name<IdentifierForm>;

/// The form of identifiers.
#[derive(Drop)]
pub struct IdentifierForm;

impl NameForm for IdentifierForm {
    type Flaw = IdentifierFlaw;

    type Refusal = InvalidIdentifier;

    const TYPE_NAME: &'static str = "ConfigIdentifier";

    ghost grammar = { identifier_grammar };

    ghost fault = { identifier_fault };

    ghost memory_is_no_fault = { Prim.search rules };

    ghost is_told = { λ _ _ given. given };

    fn judge(text: &str) -> Result<(), IdentifierFlaw> {
        match text.strip_prefix(TOOL_MARK) {
            Some(components) => judge_components(components),
            None => match is_valid_identifier_unicode(text) {
                Ok(()) => Ok(()),
                Err(kind) => Err(IdentifierFlaw::Whole(kind)),
            },
        }
    }

    fn refusal(flaw: IdentifierFlaw, text: String) -> InvalidIdentifier {
        match flaw {
            IdentifierFlaw::Whole(InvalidIdentifierKind::Empty) => InvalidIdentifier::Empty,
            IdentifierFlaw::Whole(InvalidIdentifierKind::InvalidXid) => {
                InvalidIdentifier::InvalidXid(text)
            }
            IdentifierFlaw::OneComponent => InvalidIdentifier::ToolIdentifierInvalidFormat(text),
            IdentifierFlaw::Component(InvalidIdentifierKind::Empty) => {
                InvalidIdentifier::ToolComponentEmpty(text)
            }
            IdentifierFlaw::Component(InvalidIdentifierKind::InvalidXid) => {
                InvalidIdentifier::ToolIdentifierInvalidXid(text)
            }
        }
    }
}

impl ConfigIdentifier {
    /// Whether this is a tool identifier.
    #[tactic(auto, using(crate::proofs::Components::plain_unmarked))]
    pub fn is_tool_identifier(&self) -> bool
        ensures { IsTrue result ↔ IsMarked self.now }
    {
        self.tool_components().is_some()
    }

    /// The tool's name and the identifier after it, if this is a tool identifier.
    #[tactic(auto, using(crate::proofs::Texts::strip_text, crate::proofs::Components::unmarked_plain))]
    pub fn tool_components(&self) -> Option<(&str, &str)>
        ensures { MatchOption result (IsPlainIdentifier (chars self.now))
            (λ parts. AreComponents self.now parts.0.now parts.1.now) }
    {
        match self.as_str().strip_prefix(TOOL_MARK) {
            Some(components) => components.split_once(':'),
            None => None,
        }
    }
}

// Judges what comes after the mark of a tool identifier.
fn judge_components(components: &str) -> Result<(), IdentifierFlaw>
    ensures accepted { OnOk result (IsIdentifierForm (tool_mark ++ chars components.now)) }
    ensures refused { IfErr result (IsIdentifierFlaw (tool_mark ++ chars components.now)) }
{
    let Some((tool, name)) = components.split_once(':') else {
        return Err(IdentifierFlaw::OneComponent);
    };
    match judge_pair(tool, name) {
        Ok(()) => Ok(()),
        Err(kind) => Err(IdentifierFlaw::Component(kind)),
    }
}

// Judges the two components in turn.
fn judge_pair(tool: &str, name: &str) -> Result<(), InvalidIdentifierKind>
    ensures accepted { OnOk result (IsPlainIdentifier (chars tool.now)
        × IsPlainIdentifier (chars name.now)) }
    ensures refused { IfErr result (AreFlawed (chars tool.now) (chars name.now)) }
{
    is_valid_identifier_unicode(tool)?;
    is_valid_identifier_unicode(name)
}
