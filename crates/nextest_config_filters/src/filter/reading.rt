//! What may be read at a place: how it goes on, or a fault.

ghost use Rattle.std.specs.Prelude.{◌≡◌, chars};
ghost use Rattle.nextest_config_filters.specs.Filter.Reading.{fault_at, fault_view, not_closed, not_open, reading_of, unexpected};

use crate::fault::{Expected, FilterFlaw};
use crate::front::split_standing;

/// What has to stand at a place.
#[derive(Clone, Copy, Debug, PartialEq, Eq)]
pub(crate) enum Expects {
    /// An expression.
    Operand,
    /// An operator or the end.
    Operator,
}

/// A fault before its hint.
#[derive(Clone, Copy, Debug)]
pub(crate) struct FaultAt<'a> {
    /// The characters at fault.
    pub what: &'a str,
    /// What stands behind them.
    pub behind: &'a str,
    pub flaw: FilterFlaw,
    /// What is found, where another text is expected.
    pub found: &'a str,
    /// In which words a regular expression is refused.
    pub words: &'a str,
}

/// How a reading ends.
#[derive(Clone, Copy, Debug)]
pub(crate) enum Reading<'a> {
    /// This is expected next, of what stands behind.
    GoesOn(Expects, &'a str),
    /// A parenthesis opens, and this stands behind it.
    Opens(&'a str),
    /// A parenthesis closes, and this stands behind it.
    Closes(&'a str),
    Ends,
    /// It isn't judged from here on.
    Unjudged,
    Reports(FaultAt<'a>),
}

/// A fault of these characters, which are what is found.
pub(crate) fn fault_at<'a>(what: &'a str, behind: &'a str, flaw: FilterFlaw) -> FaultAt<'a>
    ensures { fault_view result ≡ fault_at (chars what.now) (chars behind.now) flaw }
{
    FaultAt {
        what,
        behind,
        flaw,
        found: what,
        words: "",
    }
}

/// Something else is expected than what stands at the front of a text.
pub(crate) fn unexpected(expected: Expected, text: &str) -> Reading<'_>
    ensures { reading_of result ≡ unexpected expected (chars text.now) }
{
    let (standing, rest) = split_standing(text);
    Reading::Reports(fault_at(standing, rest, FilterFlaw::Unexpected(expected)))
}

/// The parenthesis before this text isn't closed.
#[tactic(auto, using(crate::proofs::Characters::ascii_chars))]
pub(crate) fn not_closed(opened: &str) -> FaultAt<'_>
    ensures { fault_view result ≡ not_closed (chars opened.now) }
{
    fault_at("(", opened, FilterFlaw::NotClosed)
}

/// Nothing is open that the parenthesis before this text closes.
#[tactic(auto, using(crate::proofs::Characters::ascii_chars))]
pub(crate) fn not_open(rest: &str) -> FaultAt<'_>
    ensures { fault_view result ≡ not_open (chars rest.now) }
{
    fault_at(")", rest, FilterFlaw::NotOpen)
}
