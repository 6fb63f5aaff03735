//! Durations as texts, in the manner of humantime.

ghost use Rattle.std.specs.Prelude.{◌≡◌, ◌+◌, ◌++◌, ◌<◌, ◌^◌, ℕ, Bool, false, not, chars, length, IfErr, IfOk};
ghost use Rattle.std.specs.Duration.{as_nanos};
ghost use Rattle.std.specs.Fn.{AlwaysReturns};
ghost use Rattle.nextest_config_values.specs.Duration.{duration_reading, IsCutAfter, IsDuration, IsDurationFault, IsFaultAt, IsReadItem, length_in, rows, unit_length};

mod unjudged;

use crate::read::{FromToml, ValueFault};
use std::alloc::Global;
use std::time::Duration;
use thiserror::Error;
use toml::Value;
pub use unjudged::may_be_duration;

// The units that are one letter, each with its length in nanoseconds. Letter case counts.
const LETTERS: [(&str, u64); 7] = [
    ("s", 1_000_000_000),
    ("m", 60_000_000_000),
    ("h", 3_600_000_000_000),
    ("d", 86_400_000_000_000),
    ("w", 604_800_000_000_000),
    ("M", 2_630_016_000_000_000),
    ("y", 31_557_600_000_000_000),
];

// The longer words of the units by their first letters.
const NANOSECONDS: [(&str, u64); 3] = [("nanos", 1), ("nsec", 1), ("ns", 1)];

const MICROSECONDS: [(&str, u64); 3] = [("usec", 1_000), ("us", 1_000), ("µs", 1_000)];

const MILLISECONDS_MINUTES_MONTHS: [(&str, u64); 9] = [
    ("millis", 1_000_000),
    ("msec", 1_000_000),
    ("ms", 1_000_000),
    ("minutes", 60_000_000_000),
    ("minute", 60_000_000_000),
    ("mins", 60_000_000_000),
    ("min", 60_000_000_000),
    ("months", 2_630_016_000_000_000),
    ("month", 2_630_016_000_000_000),
];

const SECONDS: [(&str, u64); 4] = [
    ("seconds", 1_000_000_000),
    ("second", 1_000_000_000),
    ("secs", 1_000_000_000),
    ("sec", 1_000_000_000),
];

const HOURS: [(&str, u64); 4] = [
    ("hours", 3_600_000_000_000),
    ("hour", 3_600_000_000_000),
    ("hrs", 3_600_000_000_000),
    ("hr", 3_600_000_000_000),
];

const DAYS: [(&str, u64); 2] = [("days", 86_400_000_000_000), ("day", 86_400_000_000_000)];

const WEEKS: [(&str, u64); 4] = [
    ("weeks", 604_800_000_000_000),
    ("week", 604_800_000_000_000),
    ("wks", 604_800_000_000_000),
    ("wk", 604_800_000_000_000),
];

const YEARS: [(&str, u64); 4] = [
    ("years", 31_557_600_000_000_000),
    ("year", 31_557_600_000_000_000),
    ("yrs", 31_557_600_000_000_000),
    ("yr", 31_557_600_000_000_000),
];

/// Why a text is no duration. Offsets are in bytes, from 0.
#[derive(Clone, Copy, Debug, PartialEq, Eq, Error)]
pub enum DurationFault {
    /// There is nothing but white space.
    #[error("a duration is empty")]
    Empty,
    /// Something other than a number stands where one has to begin.
    #[error("a number is expected at byte {at}")]
    NumberExpected { at: usize },
    /// The number that begins here is above 2^64 - 1.
    #[error("the number at byte {at} is too large")]
    NumberTooLarge { at: usize },
    /// A number has no unit, which would begin here.
    #[error("a unit is missing at byte {at}")]
    UnitMissing { at: usize },
    /// The word that begins here is no unit.
    #[error("the unit at byte {at} is unknown")]
    UnitUnknown { at: usize },
    /// The sum is above 2^64 - 1 seconds and 999999999 nanoseconds.
    #[error("a duration is too long")]
    SumTooLarge,
}

/// Reads a duration: whole numbers, each with a unit, as in `1h 30m`. White space may stand before,
/// between and after them.
pub fn parse_duration(s: &str) -> Result<Duration, DurationFault>
    ensures accepted { IfOk result (λ duration. IsDuration s.now (as_nanos duration)) }
    ensures refused { IfErr result (IsDurationFault s.now) }
{
    let mut rest = s.trim_start();
    if rest.is_empty() {
        return Err(DurationFault::Empty);
    }
    let mut nanoseconds: u128 = 0;
    while !rest.is_empty() {
        let (item, after) = read_item(rest, s.len() - rest.len())?;
        nanoseconds = nanoseconds.saturating_add(item);
        rest = after.trim_start();
    }
    if nanoseconds > Duration::MAX.as_nanos() {
        return Err(DurationFault::SumTooLarge);
    }
    Ok(Duration::from_nanos_u128(nanoseconds))
}

// The nanoseconds of a number with its unit, and the text after it. The text begins at the offset
// `at`.
fn read_item(text: &str, at: usize) -> Result<(u128, &str), DurationFault>
    requires { at + length text.now < 2 ^ 64 }
    ensures read { IfOk result (λ x. IsReadItem (chars text.now) x.0 (chars x.1.now)) }
    ensures shorter { IfOk result (λ x. length x.1.now < length text.now) }
    ensures refused { IfErr result (IsFaultAt at (chars text.now)) }
{
    let (digits, after) = split_run(text, |c: char| !c.is_ascii_digit());
    if digits.is_empty() {
        return Err(DurationFault::NumberExpected { at });
    }
    let Ok(number) = digits.parse::<u64>() else {
        return Err(DurationFault::NumberTooLarge { at });
    };
    let after = after.trim_start();
    let at = at + (text.len() - after.len());
    let (word, rest) = split_run(after, |c: char| c.is_whitespace() || c.is_ascii_digit());
    if word.is_empty() {
        return Err(DurationFault::UnitMissing { at });
    }
    match unit_length(word) {
        Some(unit) => Ok((u128::from(number) * u128::from(unit), rest)),
        None => Err(DurationFault::UnitUnknown { at }),
    }
}

// The run at the beginning of the text up to the first character that ends it, and what comes
// after it.
fn split_run<F: FnMut(char) -> bool + Drop>(text: &str, ends: F) -> (&str, &str)
    requires { F.IsAlwaysCallable ends }
    ensures whole { text.now ≡ result.0.now ++ result.1.now }
    ensures run { (kind : ℕ → Bool)
        → AlwaysReturns F.FnMut (λ c answer. answer ≡ not (kind c.0)) ends
        → IsCutAfter kind text.now result.0.now result.1.now }
{
    let end = text.find(ends).unwrap_or(text.len());
    text.split_at(end)
}

// The length in nanoseconds of the unit with this word.
fn unit_length(word: &str) -> Option<u64>
    ensures { result ≡ unit_length (chars word.now) }
{
    if word.len() == 1 {
        return find_unit(&LETTERS, word);
    }
    let first = word.as_bytes().first()?;
    match *first {
        b'n' => find_unit(&NANOSECONDS, word),
        // `µ` begins with this byte.
        b'u' | 0xC2 => find_unit(&MICROSECONDS, word),
        b'm' => find_unit(&MILLISECONDS_MINUTES_MONTHS, word),
        b's' => find_unit(&SECONDS, word),
        b'h' => find_unit(&HOURS, word),
        b'd' => find_unit(&DAYS, word),
        b'w' => find_unit(&WEEKS, word),
        b'y' => find_unit(&YEARS, word),
        _ => None,
    }
}

// What stands beside the first of these names that is the word.
fn find_unit(units: &[(&str, u64)], word: &str) -> Option<u64>
    ensures { result ≡ length_in (rows units.now) word.now }
{
    for (name, length) in units {
        if name.as_bytes() == word.as_bytes() {
            return Some(*length);
        }
    }
    None
}

impl FromToml for Duration {
    ghost Seen = { ℕ };

    ghost seen = { as_nanos };

    ghost reading = { duration_reading };

    fn read_value(alloc: Global, value: &Value) -> Result<Self, ValueFault> {
        let Some(text) = value.as_str() else {
            return Err(ValueFault::invalid_type(alloc, value, "a duration"));
        };
        match parse_duration(text) {
            Ok(duration) => Ok(duration),
            Err(_) => Err(ValueFault::no_duration(alloc, value)),
        }
    }
}
