//! Times, as a duration that nextest reads.

ghost use Rattle.std.specs.Prelude.{◌≡◌, ◌++◌, codes, filter, flat_map, map, Some};
ghost use Rattle.std.specs.Duration.{as_nanos};
ghost use Rattle.std.specs.Fmt.{WritesOnOk};
ghost use Rattle.std.specs.List.{join_by};
ghost use Rattle.nextest_config_output.specs.Profile.Time.{goes_in, part_text, time_parts, time_text};

use std::fmt;
use std::time::Duration;

// The units, in nanoseconds.
const MICROSECOND: u128 = 1_000;

const MILLISECOND: u128 = 1_000_000;

const SECOND: u128 = 1_000_000_000;

const MINUTE: u128 = 60_000_000_000;

const HOUR: u128 = 3_600_000_000_000;

const DAY: u128 = 86_400_000_000_000;

const WEEK: u128 = 604_800_000_000_000;

/// A time, in the units that go in, from the greatest on.
#[derive(Clone, Copy)]
pub(crate) struct TimeText(pub Duration);

impl fmt::Display for TimeText {
    ghost output = { λ time. Some (time_text (as_nanos time.0)) };

    fn fmt<W: fmt::Write>(&self, f: &mut fmt::Formatter<W>) -> fmt::Result {
        let time = self.0.as_nanos();
        if time == 0 {
            return f.write_str("0s");
        }
        write_first(f, &parts_of(time))
    }
}

// How often each unit goes into so many nanoseconds, each into what the one before it leaves.
fn parts_of(time: u128) -> [(u128, &'static str); 8]
    ensures { map (λ part. (part.0, part.1.now)) result ≡ time_parts time }
{
    [
        (time / WEEK, "w"),
        (time % WEEK / DAY, "d"),
        (time % DAY / HOUR, "h"),
        (time % HOUR / MINUTE, "m"),
        (time % MINUTE / SECOND, "s"),
        (time % SECOND / MILLISECOND, "ms"),
        (time % MILLISECOND / MICROSECOND, "us"),
        (time % MICROSECOND, "ns"),
    ]
}

// Writes the parts of units that go in.
fn write_first<W: fmt::Write>(
    f: &mut fmt::Formatter<W>,
    parts: &[(u128, &'static str)],
) -> fmt::Result
    ensures { WritesOnOk W.write_str_gives f.old result (join_by part_text (codes " ")
        (filter goes_in (map (λ part. (part.0, part.1.now)) parts.now))) f.new }
{
    match parts {
        [] => Ok(()),
        [(0, _), rest @ ..] => write_first(f, rest),
        [(number, unit), rest @ ..] => {
            write!(f, "{number}{unit}")?;
            write_rest(f, rest)
        }
    }
}

// Writes the parts of units that go in, each behind a blank.
fn write_rest<W: fmt::Write>(
    f: &mut fmt::Formatter<W>,
    parts: &[(u128, &'static str)],
) -> fmt::Result
    ensures { WritesOnOk W.write_str_gives f.old result
        (flat_map (λ part. codes " " ++ part_text part)
        (filter goes_in (map (λ part. (part.0, part.1.now)) parts.now))) f.new }
{
    match parts {
        [] => Ok(()),
        [(0, _), rest @ ..] => write_rest(f, rest),
        [(number, unit), rest @ ..] => {
            write!(f, " {number}{unit}")?;
            write_rest(f, rest)
        }
    }
}
