//! Identifiers without a tool, as they are written.

ghost use Rattle.std.specs.Prelude.{◌↔◌, IfErr, IsTrue, OnOk, chars};
ghost use Rattle.std.specs.List.{AllByRecursion};
ghost use Rattle.nextest_config_values.specs.Helpers.Identifiers.{GoesOn, IsPlainFlaw, IsPlainIdentifier};

use unicode_ident::{is_xid_continue, is_xid_start};

/// What is wrong with a text that is no identifier.
#[derive(Clone, Copy, Debug, PartialEq, Eq)]
pub enum InvalidIdentifierKind {
    /// The text is empty.
    Empty,
    /// It doesn't begin with a character of XID_Start, or goes on with one that is neither of
    /// XID_Continue nor `-` (UAX 31).
    InvalidXid,
}

/// Judges the text as it is, without normalization: an identifier is a character of XID_Start, then
/// characters of XID_Continue and `-` (UAX 31).
#[tactic(auto, using(std::proofs::lemmas::Str::chars_past_char))]
pub fn is_valid_identifier_unicode(s: &str) -> Result<(), InvalidIdentifierKind>
    ensures accepted { OnOk result (IsPlainIdentifier (chars s.now)) }
    ensures refused { IfErr result (IsPlainFlaw (chars s.now)) }
{
    let mut characters = s.chars();
    let Some(first) = characters.next() else {
        return Err(InvalidIdentifierKind::Empty);
    };
    if is_xid_start(first) && may_follow(characters.as_str()) {
        Ok(())
    } else {
        Err(InvalidIdentifierKind::InvalidXid)
    }
}

// Whether the text may come after the first character of an identifier.
fn may_follow(rest: &str) -> bool
    ensures { IsTrue result ↔ AllByRecursion GoesOn (chars rest.now) }
{
    rest.chars().all(|c| c == '-' || is_xid_continue(c))
}
