//! What is wrong with a platform, and how it prints.

ghost use Rattle.std.specs.Prelude.{◌≡◌, ◌++◌};
ghost use Rattle.std.specs.Fmt.{WritesOnOk};
ghost use Rattle.toml_spans.specs.QuotedText.{quoted_text};
ghost use Rattle.nextest_config_filters.specs.Platform.Flaw.{code_of_platform, platform_text, unexpected_text};

use crate::fault::TextFaultCode;
use std::fmt::{self, Formatter, Write};
use toml_spans::QuotedText;

/// What is wrong with a platform.
#[derive(Clone, Copy, Debug, PartialEq, Eq)]
pub enum PlatformFlaw {
    /// No target is called `unix` or `windows`.
    FamilyName,
    /// No target is called so, but an operating system is.
    SystemName,
    /// It is neither `cfg(..)` nor the name of a target.
    NoName,
    /// What stands there may not, or it ends where it may not.
    Unexpected,
    /// A parenthesis isn't closed.
    NotClosed,
    /// Nothing is open that a parenthesis closes.
    NotOpen,
    /// A value has no second quotation mark.
    ValueNotClosed,
    /// A `not` has so many members.
    NotMembers(usize),
    /// `cfg(..)` has no member.
    NoMember,
    /// `cfg(..)` has several keys outside of groups.
    ManyMembers,
    /// A key has a value and takes none.
    UnwantedValue,
    /// A key has no value and needs one.
    NoValue,
    /// No key is called so, but one nearly.
    UnknownKey,
    /// The value of a key is no number.
    NoNumber,
}

impl PlatformFlaw {
    pub(crate) fn code(self) -> TextFaultCode
        ensures { result ≡ code_of_platform self }
    {
        match self {
            PlatformFlaw::FamilyName | PlatformFlaw::SystemName => TextFaultCode::PlatformWord,
            _ => TextFaultCode::PlatformSyntax,
        }
    }
}

pub(crate) fn write_platform_flaw<W: Write>(
    f: &mut Formatter<W>,
    flaw: PlatformFlaw,
    found: &str,
) -> fmt::Result
    ensures { WritesOnOk W.write_str_gives f.old result (platform_text flaw found.now) f.new }
{
    match flaw {
        PlatformFlaw::FamilyName => write!(f, "no target is called {}", QuotedText(found)),
        PlatformFlaw::SystemName => write!(
            f,
            "no target is called {}, did you mean cfg(target_os = {})",
            QuotedText(found),
            QuotedText(found)
        ),
        PlatformFlaw::NoName => f.write_str("expected \"cfg(..)\" or the name of a target"),
        PlatformFlaw::Unexpected => write_unexpected(f, found),
        PlatformFlaw::NotClosed => f.write_str("this \"(\" isn't closed"),
        PlatformFlaw::NotOpen => f.write_str("nothing is open that this \")\" closes"),
        PlatformFlaw::ValueNotClosed => f.write_str("this \"\\\"\" isn't closed"),
        PlatformFlaw::NotMembers(count) => { write!(f, "\"not\" takes one member, not {count}") }
        PlatformFlaw::NoMember => f.write_str("\"cfg()\" needs a member"),
        PlatformFlaw::ManyMembers => f.write_str(
            "\"cfg(..)\" takes one member, did you mean \"all(.., ..)\" or \"any(.., ..)\"",
        ),
        PlatformFlaw::UnwantedValue => write!(f, "{} takes no value", QuotedText(found)),
        PlatformFlaw::NoValue => {
            write_key(f, found, " needs a value, as in \"", " = \\\"..\\\"\"")
        }
        PlatformFlaw::UnknownKey => write!(f, "unknown key {}", QuotedText(found)),
        PlatformFlaw::NoNumber => {
            write_key(f, found, " is a number, as in \"", " = \\\"64\\\"\"")
        }
    }
}

// What is found and not expected, or that it is the end.
fn write_unexpected<W: Write>(f: &mut Formatter<W>, found: &str) -> fmt::Result
    ensures { WritesOnOk W.write_str_gives f.old result (unexpected_text found.now) f.new }
{
    if found.is_empty() {
        f.write_str("unexpected end")
    } else {
        write!(f, "unexpected {}", QuotedText(found))
    }
}

// The key, what is wrong with its value, and how it stands with one.
fn write_key<W: Write>(f: &mut Formatter<W>, key: &str, wrong: &str, value: &str) -> fmt::Result
    ensures { WritesOnOk W.write_str_gives f.old result
        (quoted_text key.now ++ (wrong.now ++ (key.now ++ value.now))) f.new }
{
    write!(f, "{}{wrong}{key}{value}", QuotedText(key))
}
