//! What is wrong with a text, and how it prints.

ghost use Rattle.std.specs.Prelude.{◌≡◌, ◌++◌, Some, option_map, string_bytes};
ghost use Rattle.std.specs.Fmt.{WritesOnOk};
ghost use Rattle.toml_spans.specs.QuotedText.{quoted_text};
ghost use Rattle.nextest_config_filters.specs.Fault.{code_of, code_of_expected, code_of_flaw, expected_text, fault_text, flaw_text, found_text, hint_text, kind_of, worded_fault_of};
ghost use Rattle.nextest_config_filters.specs.Filter.Predicate.{name_of};

use crate::filter::Predicate;
use crate::platform::{PlatformFlaw, write_platform_flaw};
use nextest_config_values::read::Word;
use std::fmt::{self, Formatter, Write};
use toml_spans::{QuotedText, write_quoted};

/// A fault of a text, at a range of its bytes.
#[derive(Debug, PartialEq, Eq, Drop)]
pub struct TextFault {
    pub begin: usize,
    pub end: usize,
    pub kind: TextFaultKind,
}

/// What is wrong with a text.
#[derive(Debug, PartialEq, Eq, Drop)]
pub enum TextFaultKind {
    /// Of a filter.
    Filter {
        flaw: FilterFlaw,
        /// What is found there, empty at the end of the text.
        found: String,
        /// What may be meant.
        hint: Option<String>,
    },
    /// Of a platform.
    Platform {
        flaw: PlatformFlaw,
        /// What is found there, empty at the end and where the flaw says all.
        found: String,
        /// What may be meant, where the flaw doesn't say it.
        hint: Option<String>,
    },
}

/// What kind of fault it is.
#[derive(Clone, Copy, Debug, PartialEq, Eq)]
pub enum TextFaultCode {
    FilterSyntax,
    /// No predicate of filters has the name.
    UnknownPredicate,
    /// A default filter asks for itself.
    BannedPredicate,
    FilterArgument,
    PlatformSyntax,
    /// A word that is the name of no target.
    PlatformWord,
}

/// What is wrong with a filter.
#[derive(Clone, Copy, Debug, PartialEq, Eq)]
pub enum FilterFlaw {
    /// It has nothing but spaces.
    Empty,
    /// Something else stands where this is expected.
    Unexpected(Expected),
    /// A parenthesis isn't closed.
    NotClosed,
    /// Nothing is open that a parenthesis closes.
    NotOpen,
    /// No predicate has this name.
    UnknownPredicate,
    /// A default filter asks for `default`.
    AsksForItself,
    /// The predicate takes no argument.
    UnwantedArgument(Predicate),
    /// The predicate needs an argument.
    NoArgument(Predicate),
    /// A comma stands in the one argument of the predicate.
    SecondArgument(Predicate),
    /// A backslash escapes nothing, unless in a regular expression.
    UnknownEscape,
    /// Behind `\u` stands no code between braces.
    UnknownCode,
    /// A regular expression has no second `/`.
    RegexNotClosed,
    /// What stands between two `/` is no regular expression; what is found are the words for that.
    InvalidRegex,
}

/// What is expected in a filter.
#[derive(Clone, Copy, Debug, PartialEq, Eq)]
pub enum Expected {
    Expression,
    /// A predicate has no argument, and no predicate has its name.
    PredicateAndArgument,
    /// The parenthesis behind the name of the predicate.
    Opening(Predicate),
    /// An operator, or the end.
    Operator,
    /// One of the two words that the predicate `platform` takes.
    HostOrTarget,
    /// The parenthesis behind a regular expression.
    ClosingOfRegex,
}

impl TextFault {
    /// What kind of fault it is.
    pub fn code(&self) -> TextFaultCode
        ensures { result ≡ code_of (kind_of self.now.kind) }
    {
        match &self.kind {
            TextFaultKind::Filter { flaw, .. } => flaw.code(),
            TextFaultKind::Platform { flaw, .. } => flaw.code(),
        }
    }
}

impl FilterFlaw {
    fn code(self) -> TextFaultCode
        ensures { result ≡ code_of_flaw self }
    {
        match self {
            FilterFlaw::Empty | FilterFlaw::NotClosed | FilterFlaw::NotOpen => {
                TextFaultCode::FilterSyntax
            }
            FilterFlaw::Unexpected(expected) => expected.code(),
            FilterFlaw::UnknownPredicate => TextFaultCode::UnknownPredicate,
            FilterFlaw::AsksForItself => TextFaultCode::BannedPredicate,
            FilterFlaw::UnwantedArgument(_)
            | FilterFlaw::NoArgument(_)
            | FilterFlaw::SecondArgument(_)
            | FilterFlaw::UnknownEscape
            | FilterFlaw::UnknownCode
            | FilterFlaw::RegexNotClosed
            | FilterFlaw::InvalidRegex => TextFaultCode::FilterArgument,
        }
    }
}

impl Expected {
    fn code(self) -> TextFaultCode
        ensures { result ≡ code_of_expected self }
    {
        match self {
            Expected::HostOrTarget | Expected::ClosingOfRegex => TextFaultCode::FilterArgument,
            _ => TextFaultCode::FilterSyntax,
        }
    }
}

impl fmt::Display for TextFault {
    ghost output = { λ fault. Some (fault_text (worded_fault_of fault)) };

    fn fmt<W: Write>(&self, f: &mut Formatter<W>) -> fmt::Result {
        match &self.kind {
            TextFaultKind::Filter { flaw, found, hint } => {
                write_flaw(f, *flaw, found.as_str())?;
                write_hint(f, hint)
            }
            TextFaultKind::Platform { flaw, found, hint } => {
                write_platform_flaw(f, *flaw, found.as_str())?;
                write_hint(f, hint)
            }
        }
    }
}

fn write_flaw<W: Write>(f: &mut Formatter<W>, flaw: FilterFlaw, found: &str) -> fmt::Result
    ensures { WritesOnOk W.write_str_gives f.old result (flaw_text flaw found.now) f.new }
{
    match flaw {
        FilterFlaw::Empty => f.write_str("a filter expression is empty"),
        FilterFlaw::Unexpected(expected) => write_unexpected(f, expected, found),
        FilterFlaw::NotClosed => f.write_str("this \"(\" isn't closed"),
        FilterFlaw::NotOpen => f.write_str("nothing is open that this \")\" closes"),
        FilterFlaw::UnknownPredicate => write!(f, "unknown predicate {}", QuotedText(found)),
        FilterFlaw::AsksForItself => {
            f.write_str("a default-filter can't ask for \"default\", which is itself")
        }
        FilterFlaw::UnwantedArgument(predicate) => {
            write_named(f, predicate, " takes no argument")
        }
        FilterFlaw::NoArgument(predicate) => write_named(f, predicate, " needs an argument"),
        FilterFlaw::SecondArgument(predicate) => write_named(
            f,
            predicate,
            " takes one argument, a comma in it is written \\,",
        ),
        FilterFlaw::UnknownEscape => {
            write!(
                f,
                "unknown escape `{found}`, a regular expression is written /../"
            )
        }
        FilterFlaw::UnknownCode => f.write_str("unknown escape `\\u`, expected `\\u{..}`"),
        FilterFlaw::RegexNotClosed => {
            f.write_str("this \"/\" begins a regular expression that isn't closed")
        }
        FilterFlaw::InvalidRegex => write!(f, "not a regular expression: {found}"),
    }
}

fn write_unexpected<W: Write>(f: &mut Formatter<W>, expected: Expected, found: &str) -> fmt::Result
    ensures { WritesOnOk W.write_str_gives f.old result
        (flaw_text (FilterFlaw.Unexpected expected) found.now) f.new }
{
    f.write_str("expected ")?;
    write_expected(f, expected)?;
    f.write_str(", found ")?;
    write_found(f, found)
}

fn write_expected<W: Write>(f: &mut Formatter<W>, expected: Expected) -> fmt::Result
    ensures { WritesOnOk W.write_str_gives f.old result (expected_text expected) f.new }
{
    match expected {
        Expected::Expression => f.write_str("an expression"),
        Expected::PredicateAndArgument => f.write_str("a predicate with its argument"),
        Expected::Opening(predicate) => {
            write!(f, "\"(\" behind {}", QuotedText(predicate.as_word()))
        }
        Expected::Operator => f.write_str("an operator or the end"),
        Expected::HostOrTarget => f.write_str("\"host\" or \"target\""),
        Expected::ClosingOfRegex => f.write_str("\")\" behind the regular expression"),
    }
}

// What is found, or that it is the end.
fn write_found<W: Write>(f: &mut Formatter<W>, found: &str) -> fmt::Result
    ensures { WritesOnOk W.write_str_gives f.old result (found_text found.now) f.new }
{
    if found.is_empty() {
        f.write_str("the end")
    } else {
        write_quoted(f, found)
    }
}

// The name of the predicate, and what is wrong with its argument.
fn write_named<W: Write>(f: &mut Formatter<W>, predicate: Predicate, wrong: &str) -> fmt::Result
    ensures { WritesOnOk W.write_str_gives f.old result
        (quoted_text (name_of predicate) ++ wrong.now) f.new }
{
    write_quoted(f, predicate.as_word())?;
    f.write_str(wrong)
}

fn write_hint<W: Write>(f: &mut Formatter<W>, hint: &Option<String>) -> fmt::Result
    ensures { WritesOnOk W.write_str_gives f.old result
        (hint_text (option_map string_bytes hint.now)) f.new }
{
    match hint {
        Some(hint) => {
            f.write_str(", did you mean ")?;
            write_quoted(f, hint.as_str())
        }
        None => Ok(()),
    }
}
