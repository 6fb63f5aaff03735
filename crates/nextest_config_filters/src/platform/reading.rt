//! What may be read at a place of a platform: how it goes on, or a fault.

ghost use Rattle.std.specs.Prelude.{◌≡◌, chars};
ghost use Rattle.nextest_config_filters.specs.Front.{IsRest};
ghost use Rattle.nextest_config_filters.specs.Platform.Reading.{fault_between, fault_of_level, fault_up_to, fault_view, not_closed, not_open};

use super::flaw::PlatformFlaw;
use crate::front::{split_before, without_first};
use crate::text::size;

/// What stands before a place.
#[derive(Clone, Copy, Debug, PartialEq, Eq)]
pub(crate) enum After {
    /// The parenthesis of `cfg(..)` itself.
    Nothing,
    /// That of a group.
    Opening,
    Comma,
    /// A key with its value, or a group.
    Member,
}

/// `cfg(..)` itself, or a group that is open in it.
#[derive(Clone, Copy, Debug, Default, PartialEq, Eq)]
pub(crate) struct Level {
    /// Whether it is a `not`.
    pub is_not: bool,
    /// How many bytes are left from its name on.
    pub from: usize,
    /// How many are left from its parenthesis on, and how many behind that.
    pub opening: usize,
    pub opened: usize,
    /// How many members it has so far.
    pub members: usize,
}

/// A fault before its hint.
#[derive(Clone, Copy, Debug)]
pub(crate) struct FaultAt<'a> {
    /// How many bytes of the text are left from where the fault begins on.
    pub from: usize,
    /// How many are left behind it.
    pub behind: usize,
    pub flaw: PlatformFlaw,
    /// What is found.
    pub found: &'a str,
}

/// How a reading ends.
#[derive(Clone, Copy, Debug)]
pub(crate) enum Reading<'a> {
    /// A comma stands before this.
    Separates(&'a str),
    /// A member stands before this.
    Member(&'a str),
    /// A group opens, and this stands behind its parenthesis.
    Opens(Level, &'a str),
    /// A parenthesis closes at the front of this.
    Closes(&'a str),
    /// The last parenthesis stands before this.
    Ends(&'a str),
    /// It isn't judged from here on.
    Unjudged,
    Reports(FaultAt<'a>),
}

/// A fault of what stands at the front of a text, up to this rest.
pub(crate) fn fault_up_to<'a>(text: &'a str, rest: &str, flaw: PlatformFlaw) -> FaultAt<'a>
    requires { IsRest (chars text.now) (chars rest.now) }
    ensures { fault_view result ≡ fault_up_to (chars text.now) (chars rest.now) flaw }
{
    let (found, _) = split_before(text, rest);
    FaultAt {
        from: size(text),
        behind: size(rest),
        flaw,
        found,
    }
}

/// A fault between two places, as many bytes before the end, at which nothing is found.
#[tactic(auto, using(crate::proofs::Characters::ascii_chars))]
pub(crate) fn fault_between<'a>(from: usize, behind: usize, flaw: PlatformFlaw) -> FaultAt<'a>
    ensures { fault_view result ≡ fault_between from behind flaw }
{
    FaultAt {
        from,
        behind,
        flaw,
        found: "",
    }
}

/// The parenthesis of a level isn't closed.
pub(crate) fn not_closed<'a>(level: Level) -> FaultAt<'a>
    ensures { fault_view result ≡ not_closed level }
{
    fault_between(level.opening, level.opened, PlatformFlaw::NotClosed)
}

/// Nothing is open that the parenthesis at the front of a text closes.
pub(crate) fn not_open(text: &str) -> FaultAt<'_>
    ensures { fault_view result ≡ not_open (chars text.now) }
{
    fault_up_to(text, without_first(text), PlatformFlaw::NotOpen)
}

/// Something is wrong with all that a level has, up to this rest.
pub(crate) fn fault_of_level<'a>(level: Level, rest: &str, flaw: PlatformFlaw) -> FaultAt<'a>
    ensures { fault_view result ≡ fault_of_level level (chars rest.now) flaw }
{
    fault_between(level.from, size(rest), flaw)
}
