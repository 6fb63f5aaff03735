//! The names of tools.

ghost use Rattle.std.proofs.Common.{rules};
ghost use Rattle.nextest_config_values.specs.Identifier.{tool_name_fault, tool_name_grammar};

use super::error::{InvalidToolName, ToolNameFlaw};
use super::name::{Name, NameForm};
use crate::helpers::{InvalidIdentifierKind, is_valid_identifier_unicode};

// What no tool name begins with, since tool identifiers do.
const TOOL_PREFIX: &str = "@tool";

/// The name of a tool: a character of XID_Start, then characters of XID_Continue and `-` (UAX 31).
/// It is kept in Normalization Form C.
pub type ToolName = Name<ToolForm>;

/// The form of tool names.
#[derive(Drop)]
pub struct ToolForm;

impl NameForm for ToolForm {
    type Flaw = ToolNameFlaw;

    type Refusal = InvalidToolName;

    const TYPE_NAME: &'static str = "ToolName";

    ghost grammar = { tool_name_grammar };

    ghost fault = { tool_name_fault };

    ghost memory_is_no_fault = { Prim.search rules };

    ghost is_told = { λ _ _ given. given };

    // The prefix comes first, since it says more than that `@` is no character of XID_Start.
    fn judge(text: &str) -> Result<(), ToolNameFlaw> {
        if text.starts_with(TOOL_PREFIX) {
            return Err(ToolNameFlaw::StartsWithToolPrefix);
        }
        match is_valid_identifier_unicode(text) {
            Ok(()) => Ok(()),
            Err(InvalidIdentifierKind::Empty) => Err(ToolNameFlaw::Empty),
            Err(InvalidIdentifierKind::InvalidXid) => Err(ToolNameFlaw::InvalidXid),
        }
    }

    fn refusal(flaw: ToolNameFlaw, text: String) -> InvalidToolName {
        match flaw {
            ToolNameFlaw::Empty => InvalidToolName::Empty,
            ToolNameFlaw::StartsWithToolPrefix => InvalidToolName::StartsWithToolPrefix(text),
            ToolNameFlaw::InvalidXid => InvalidToolName::InvalidXid(text),
        }
    }
}
