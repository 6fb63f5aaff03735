//! The fail limit.

ghost use Rattle.std.specs.Prelude.{◌≡◌, ◌↔◌, ◌++◌, ℕ, [], ◌∷◌, IfErr, IfOk, IsTrue, MatchOption, Some};
ghost use Rattle.std.specs.Fmt.{WritesOnOk, WritesStyledOnOk};
ghost use Rattle.std.specs.Str.Parse.{AllDigits, IsNumeral, without_leading_sign};
ghost use Rattle.nextest_config_values.specs.Read.{text_or_memory};
ghost use Rattle.nextest_config_elements.specs.MaxFail.{bad_count, bad_mode, fail_fast_limit, IsBadCount, IsCountFault, IsCountLimit, IsCountText, IsLimitFault, IsLimitText, IsNoMode, IsNumberText, IsReached, limit_fault, limit_fault_text, limit_text, mode_word, RefusesLimit, styled_limit_text};
ghost use Rattle.nextest_config_elements.specs.declared.max_fail.MaxFail.{MaxFail};
ghost use Rattle.nextest_config_elements.specs.declared.max_fail.TerminateMode.{TerminateMode};

mod fail_fast;

pub use fail_fast::{MaxFailCount, deserialize_fail_fast};
use nextest_config_values::read::Word;
use std::alloc::{AllocError, Global};
use std::error::Error;
use std::fmt;

/// How many tests may fail before no more are started.
#[derive(Clone, Copy, Debug, PartialEq, Eq)]
pub enum MaxFail {
    /// The limit is reached with this many failures.
    Count {
        /// The maximum number of failures.
        max_fail: usize,
        /// What then happens to running tests.
        terminate: TerminateMode,
    },
    /// There is no limit: all tests are run.
    All,
}

/// What happens to running tests once the fail limit is reached.
#[derive(Clone, Copy, Debug, PartialEq, Eq)]
pub enum TerminateMode {
    /// They run to their end.
    Wait,
    /// They are terminated at once.
    Immediate,
}

impl Default for TerminateMode {
    ghost use Rattle.nextest_config_elements.specs.declared.max_fail.TerminateMode.TheVariants.{Wait};

    ghost is_default = { λ it. it ≡ Wait };

    fn default() -> Self {
        TerminateMode::Wait
    }
}

impl Word for TerminateMode {
    ghost use Rattle.nextest_config_elements.specs.declared.max_fail.TerminateMode.TheVariants.{Wait, Immediate};
    ghost use Rattle.nextest_config_elements.specs.MaxFail.FailFast.{mode_reads_back};
    ghost use Rattle.nextest_config_elements.specs.MaxFail.Limit.{mode_word};

    ghost all = { Wait ∷ Immediate ∷ [] };

    ghost word = { mode_word };

    ghost reads_back = { mode_reads_back };

    fn all() -> &'static [Self] {
        &[TerminateMode::Wait, TerminateMode::Immediate]
    }

    fn words() -> &'static [&'static str] {
        &["wait", "immediate"]
    }

    fn position(self) -> usize {
        self as usize
    }
}

impl fmt::Display for TerminateMode {
    ghost output = { λ mode. Some (mode_word mode) };

    ghost styled_output = { λ mode _. Some (mode_word mode) };

    fn fmt<W: fmt::Write>(&self, f: &mut fmt::Formatter<W>) -> fmt::Result {
        f.write_str(self.as_word())
    }
}

/// Why a text has no fail limit.
#[derive(Debug, PartialEq, Eq, Drop)]
pub enum MaxFailParseError {
    /// What stands after the first colon is no mode.
    Mode { text: String },
    /// What stands before the first colon, or the whole text, is no count.
    Count { text: String, reason: CountFault },
    /// The count is zero or negative.
    NotPositive,
    /// A request for memory was refused, and so nothing is said of the text.
    Memory,
}

/// Why a text is no number of an `isize`.
#[derive(Clone, Copy, Debug, PartialEq, Eq)]
pub enum CountFault {
    /// The text is empty.
    Empty,
    /// The text isn't an optional sign and one or more ASCII digits.
    InvalidDigit,
    /// The number is above `isize::MAX`.
    TooLarge,
    /// The number is below `isize::MIN`.
    TooSmall,
}

impl MaxFail {
    /// The limit that `fail-fast` sets as a boolean: the first failure, or none.
    pub fn from_fail_fast(fail_fast: bool) -> Self
        ensures { result ≡ fail_fast_limit fail_fast }
    {
        if fail_fast {
            MaxFail::Count {
                max_fail: 1,
                terminate: TerminateMode::Wait,
            }
        } else {
            MaxFail::All
        }
    }

    /// What happens to running tests, once so many failures reach the limit. `None`: they don't.
    pub fn is_exceeded(&self, failed: usize) -> Option<TerminateMode>
        ensures { MatchOption result ((mode : TerminateMode) → ¬ (IsReached self.now failed mode))
            (IsReached self.now failed) }
    {
        match self {
            MaxFail::Count {
                max_fail,
                terminate,
            } if failed >= *max_fail => Some(*terminate),
            MaxFail::Count { .. } | MaxFail::All => None,
        }
    }

    /// The limit of a text as `--max-fail` takes it: `all` in any ASCII letter case; or a count,
    /// and after it, if it isn't `wait`, a colon and a mode. The mode is judged before the count.
    pub fn from_str(alloc: Global, s: &str) -> Result<Self, MaxFailParseError>
        ensures accepted { IfOk result (IsLimitText s.now) }
        ensures refused { IfErr result (RefusesLimit (IsLimitFault s.now)) }
        ensures only { IfErr result (λ _. (limit : MaxFail) → ¬ (IsLimitText s.now limit)) }
    {
        if s.eq_ignore_ascii_case("all") {
            return Ok(MaxFail::All);
        }
        match s.split_once(':') {
            Some((count, mode)) => {
                let terminate = TerminateMode::from_str(alloc, mode)?;
                MaxFail::of_count(alloc, count, terminate)
            }
            None => MaxFail::of_count(alloc, s, TerminateMode::Wait),
        }
    }

    // The limit with this count.
    fn of_count(
        alloc: Global,
        count: &str,
        terminate: TerminateMode,
    ) -> Result<Self, MaxFailParseError>
        ensures accepted { IfOk result (IsCountLimit count.now terminate) }
        ensures refused { IfErr result (RefusesLimit (IsBadCount count.now)) }
        ensures only { IfErr result (λ _. (max_fail : ℕ) → ¬ (IsCountText count.now max_fail)) }
    {
        match parse_number(count) {
            Ok(number) => match usize::try_from(number) {
                Ok(max_fail) if max_fail > 0 => Ok(MaxFail::Count {
                    max_fail,
                    terminate,
                }),
                _ => Err(MaxFailParseError::NotPositive),
            },
            Err(reason) => Err(MaxFailParseError::bad_count(alloc, count, reason)),
        }
    }
}

impl TerminateMode {
    /// The mode with this word.
    pub fn from_str(alloc: Global, s: &str) -> Result<Self, MaxFailParseError>
        ensures accepted { IfOk result (λ mode. mode_word mode ≡ s.now) }
        ensures refused { IfErr result (RefusesLimit (λ fault. fault ≡ bad_mode s.now)) }
        ensures only { IfErr result (λ _. IsNoMode s.now) }
    {
        match s {
            "wait" => Ok(TerminateMode::Wait),
            "immediate" => Ok(TerminateMode::Immediate),
            _ => Err(MaxFailParseError::bad_mode(alloc, s)),
        }
    }
}

impl MaxFailParseError {
    // The refusal of this word.
    fn bad_mode(alloc: Global, text: &str) -> Self
        ensures { RefusesLimit (λ fault. fault ≡ bad_mode text.now) result }
    {
        match String::from_str(alloc, text) {
            Ok(text) => MaxFailParseError::Mode { text },
            Err(AllocError) => MaxFailParseError::Memory,
        }
    }

    // The refusal of this count.
    fn bad_count(alloc: Global, text: &str, reason: CountFault) -> Self
        ensures { RefusesLimit (λ fault. fault ≡ bad_count text.now reason) result }
    {
        match String::from_str(alloc, text) {
            Ok(text) => MaxFailParseError::Count { text, reason },
            Err(AllocError) => MaxFailParseError::Memory,
        }
    }
}

// The number that a text writes. Its digits are judged before its range.
fn parse_number(text: &str) -> Result<isize, CountFault>
    ensures accepted { IfOk result (IsNumberText text.now) }
    ensures refused { IfErr result (IsCountFault text.now) }
{
    if text.is_empty() {
        return Err(CountFault::Empty);
    }
    if !is_number(text) {
        return Err(CountFault::InvalidDigit);
    }
    match text.parse::<isize>() {
        Ok(number) => Ok(number),
        Err(_) if text.starts_with('-') => Err(CountFault::TooSmall),
        Err(_) => Err(CountFault::TooLarge),
    }
}

// Whether a text is an optional sign and one or more ASCII digits.
fn is_number(text: &str) -> bool
    ensures { IsTrue result ↔ IsNumeral 10 (without_leading_sign text.now) }
{
    let digits = after_sign(text);
    !digits.is_empty() && are_digits(digits)
}

// What stands after the sign of a text, if it has one.
fn after_sign(text: &str) -> &[u8]
    ensures { result.now ≡ without_leading_sign text.now }
{
    match text.as_bytes() {
        [b'+' | b'-', digits @ ..] => digits,
        digits => digits,
    }
}

// Whether all bytes are ASCII digits.
fn are_digits(bytes: &[u8]) -> bool
    ensures { IsTrue result ↔ AllDigits 10 bytes.now }
{
    bytes.iter().all(|byte| byte.is_ascii_digit())
}

impl fmt::Display for MaxFail {
    ghost output = { λ limit. Some (limit_text limit) };

    ghost styled_output = { λ limit _. styled_limit_text limit };

    fn fmt<W: fmt::Write>(&self, f: &mut fmt::Formatter<W>) -> fmt::Result {
        match self {
            MaxFail::All => f.write_str("all"),
            MaxFail::Count {
                max_fail,
                terminate: TerminateMode::Wait,
            } => write!(f, "{max_fail}"),
            MaxFail::Count {
                max_fail,
                terminate,
            } => write!(f, "{max_fail}:{terminate}"),
        }
    }
}

// A text between these.
fn write_named<W: fmt::Write>(
    f: &mut fmt::Formatter<W>,
    before: &str,
    text: &str,
    after: &str,
) -> fmt::Result
    ensures writes { WritesOnOk W.write_str_gives f.old result
        (before.now ++ (text.now ++ after.now)) f.new }
    ensures styled { WritesStyledOnOk W.write_str_gives f.old result
        (before.now ++ (text.now ++ after.now)) f.new }
{
    f.write_str(before)?;
    f.write_str(text)?;
    f.write_str(after)
}

impl Error for MaxFailParseError {}

impl fmt::Display for MaxFailParseError {
    ghost output = { λ error. Some (text_or_memory limit_fault_text (limit_fault error)) };

    ghost styled_output = { λ error _. Some (text_or_memory limit_fault_text (limit_fault error)) };

    fn fmt<W: fmt::Write>(&self, f: &mut fmt::Formatter<W>) -> fmt::Result {
        match self {
            MaxFailParseError::Mode { text } => write_named(
                f,
                "invalid terminate mode '",
                text.as_str(),
                "', expected 'wait' or 'immediate'",
            ),
            MaxFailParseError::Count {
                text: _,
                reason: CountFault::Empty,
            } => f.write_str("cannot parse integer from empty string parsing ''"),
            MaxFailParseError::Count {
                text,
                reason: CountFault::InvalidDigit,
            } => {
                let reason = "invalid digit found in string parsing '";
                write_named(f, reason, text.as_str(), "'")
            }
            MaxFailParseError::Count {
                text,
                reason: CountFault::TooLarge,
            } => {
                let reason = "number too large to fit in target type parsing '";
                write_named(f, reason, text.as_str(), "'")
            }
            MaxFailParseError::Count {
                text,
                reason: CountFault::TooSmall,
            } => {
                let reason = "number too small to fit in target type parsing '";
                write_named(f, reason, text.as_str(), "'")
            }
            MaxFailParseError::NotPositive => f.write_str("max-fail may not be <= 0"),
            MaxFailParseError::Memory => f.write_str("out of memory"),
        }
    }
}
