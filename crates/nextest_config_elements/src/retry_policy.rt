//! Retries.

ghost use Rattle.std.specs.Prelude.{◌≡◌, ◌↔◌, ◌∷◌, ℕ, IfOk, IfErr, IsOk, IsTrue, List, MatchOption, OnOk, option_map, string_bytes};
ghost use Rattle.std.specs.Duration.{as_nanos};
ghost use Rattle.toml.specs.View.{table_view, view};
ghost use Rattle.nextest_config_values.specs.Read.{broken_by, broken_rule, no_data, RefusesAs, RefusesAt, RefusesBy, RefusesOne, words_of};
ghost use Rattle.nextest_config_elements.specs.RetryPolicy.{backoff_key, backoff_reads_back, backoff_word, backoffs_in_order, count_of, exponential_rules, exponential_table, fail_message, fixed_table, flaky_result_reads_back, flaky_result_word, flaky_results, keys_beside, other_keys, retry_number, retry_policy_of, retry_policy_reading, retry_table, RetryPolicyRecord, table_with_backoff, without_delay};
ghost use Rattle.nextest_config_elements.specs.RetryRules.{backoff_in};
ghost use Rattle.nextest_config_elements.specs.UnknownKeys.{IsOneOf};

mod rules;

use crate::field::Absent::Taken;
use crate::field::{Field, Literal, Parts, Shape, field};
use crate::from_table::{FromTable, read_set};
use crate::profile_setting::{ProfileSetting, read_at};
use nextest_config_values::read::{
    FaultKind, ReadFault, Rule, ValueFault, Word, optional, or_default, required, value_at,
};
pub use rules::check_rules;
use std::alloc::{AllocError, Global};
use std::time::Duration;
use toml::{Table, Value};

const EXPECTED: &str = "a table ({ backoff = \"fixed\", count = 5 }) or a number (5)";

const BACKOFF_KEY: &str = "backoff";

const COUNT_KEY: &str = "count";

const DELAY_KEY: &str = "delay";

const JITTER_KEY: &str = "jitter";

const MAX_DELAY_KEY: &str = "max-delay";

const FIXED_WORD: &str = "fixed";

const EXPONENTIAL_WORD: &str = "exponential";

const BACKOFF_FIELD: Field = field!(BACKOFF_KEY: Shape::Backoff, RetriesBackoff,
    required: true, absent: Taken(Literal::Text("fixed")));

const COUNT_FIELD: Field = field!(COUNT_KEY: Shape::U32, RetriesCount, required: true);

const DELAY_FIELD: Field = field!(DELAY_KEY: Shape::Duration, RetriesDelay,
    absent: Taken(Literal::Text("0s")));

const JITTER_FIELD: Field = field!(JITTER_KEY: Shape::Boolean, RetriesJitter,
    absent: Taken(Literal::Boolean(false)));

const MAX_DELAY_FIELD: Field = field!(MAX_DELAY_KEY: Shape::Duration, RetriesMaxDelay);

/// The maximum number of retries of a failed test, and the time between tries.
#[derive(Clone, Copy, Debug, PartialEq, Eq)]
pub enum RetryPolicy {
    /// The same delay between all tries.
    Fixed {
        /// The maximum number of retries.
        count: u32,
        /// The time between tries.
        delay: Duration,
        /// Whether the delay is varied at random.
        jitter: bool,
    },
    /// A delay that grows exponentially from try to try.
    Exponential {
        /// The maximum number of retries.
        count: u32,
        /// The time before the first retry.
        delay: Duration,
        /// Whether the delay is varied at random.
        jitter: bool,
        /// The maximum delay. `None`: no maximum.
        max_delay: Option<Duration>,
    },
}

impl Default for RetryPolicy {
    ghost is_default = { λ policy. retry_policy_of policy ≡ without_delay 0 };

    fn default() -> RetryPolicy {
        RetryPolicy::new_without_delay(0)
    }
}

impl RetryPolicy {
    /// The fields of a table with a fixed backoff.
    pub const FIXED_FIELDS: &'static [Field] = &[
        BACKOFF_FIELD,
        COUNT_FIELD,
        DELAY_FIELD,
        JITTER_FIELD,
    ];

    /// The fields of a table with an exponential backoff.
    pub const EXPONENTIAL_FIELDS: &'static [Field] = &[
        BACKOFF_FIELD,
        COUNT_FIELD,
        Field {
            required: true,
            ..DELAY_FIELD
        },
        JITTER_FIELD,
        MAX_DELAY_FIELD,
    ];

    /// The fields of a table without a backoff, which may turn out to be of either kind.
    pub const OPEN_FIELDS: &'static [Field] = &[
        BACKOFF_FIELD,
        COUNT_FIELD,
        DELAY_FIELD,
        JITTER_FIELD,
        MAX_DELAY_FIELD,
    ];

    // The fields of a table, by its backoff.
    pub(crate) const PARTS: Parts = Parts::Retries {
        fixed: RetryPolicy::FIXED_FIELDS,
        exponential: RetryPolicy::EXPONENTIAL_FIELDS,
        open: RetryPolicy::OPEN_FIELDS,
    };

    /// So many retries, with no delay between them.
    pub fn new_without_delay(count: u32) -> Self
        ensures { retry_policy_of result ≡ without_delay count }
    {
        RetryPolicy::Fixed {
            count,
            delay: Duration::ZERO,
            jitter: false,
        }
    }

    /// The maximum number of retries.
    pub fn count(&self) -> u32
        ensures { result ≡ count_of (retry_policy_of self.now) }
    {
        match self {
            RetryPolicy::Fixed { count, .. } | RetryPolicy::Exponential { count, .. } => *count,
        }
    }
}

/// Reads the value of `retries`: a number of retries, or a table. A fault names its path, which
/// begins with `at`: the first in the order of the fields, then the first unknown key, then a
/// broken rule.
pub fn deserialize_retry_policy(
    alloc: Global,
    value: &Value,
    at: &str,
) -> Result<Option<RetryPolicy>, ReadFault>
    ensures meant { IfOk result (λ policy.
        retry_policy_reading.means (view value.now) (option_map retry_policy_of policy)) }
    ensures refused { IfErr result (RefusesAt retry_policy_reading (view value.now) at.now) }
{
    read_at(alloc, value, at)
}

impl ProfileSetting for RetryPolicy {
    ghost Seen = { RetryPolicyRecord };

    ghost seen = { retry_policy_of };

    ghost reading = { retry_policy_reading };

    fn read_setting(alloc: Global, value: &Value) -> Result<Option<Self>, ValueFault> {
        if let Some(number) = value.as_integer() {
            let policy = read_number(alloc, value, number)?;
            return Ok(Some(policy));
        }
        read_set(alloc, value, EXPECTED)
    }
}

// The policy that a value with this integer means.
fn read_number(alloc: Global, value: &Value, number: i64) -> Result<RetryPolicy, ValueFault>
    ensures meant { IfOk result (λ policy.
        (retry_number number).means (view value.now) (retry_policy_of policy)) }
    ensures refused { IfErr result (RefusesBy (retry_number number) (view value.now)) }
{
    if number < 0 {
        return Err(ValueFault::invalid_value(alloc, value, EXPECTED));
    }
    match u32::try_from(number) {
        Ok(count) => Ok(RetryPolicy::new_without_delay(count)),
        Err(_) => Err(ValueFault::invalid_value(alloc, value, "a u32")),
    }
}

impl FromTable for RetryPolicy {
    ghost Seen = { RetryPolicyRecord };

    ghost seen = { retry_policy_of };

    ghost reading = { retry_table };

    fn read_table(alloc: Global, table: &Table) -> Result<Self, ValueFault> {
        let backoff: Backoff = required(alloc, table, BACKOFF_KEY)?;
        backoff.read_table(alloc, table)
    }
}

// The policy that a table with a fixed backoff means.
fn read_fixed(alloc: Global, table: &Table) -> Result<RetryPolicy, ValueFault>
    ensures meant { IfOk result (λ policy.
        fixed_table.means (table_view table.now) (retry_policy_of policy)) }
    ensures refused { IfErr result (RefusesBy fixed_table (table_view table.now)) }
{
    let count = required(alloc, table, COUNT_KEY)?;
    let delay = or_default(alloc, table, DELAY_KEY, Duration::ZERO)?;
    let jitter = or_default(alloc, table, JITTER_KEY, false)?;
    Backoff::Fixed.check_keys(alloc, table)?;
    if jitter && delay.is_zero() {
        return Err(broken(alloc, Rule::JitterWithoutDelay));
    }
    Ok(RetryPolicy::Fixed {
        count,
        delay,
        jitter,
    })
}

// The policy that a table with an exponential backoff means.
fn read_exponential(alloc: Global, table: &Table) -> Result<RetryPolicy, ValueFault>
    ensures meant { IfOk result (λ policy.
        exponential_table.means (table_view table.now) (retry_policy_of policy)) }
    ensures refused { IfErr result (RefusesBy exponential_table (table_view table.now)) }
{
    let count = required(alloc, table, COUNT_KEY)?;
    let delay: Duration = required(alloc, table, DELAY_KEY)?;
    let jitter = or_default(alloc, table, JITTER_KEY, false)?;
    let max_delay: Option<Duration> = optional(alloc, table, MAX_DELAY_KEY)?;
    Backoff::Exponential.check_keys(alloc, table)?;
    match first_broken(count, delay, max_delay) {
        Some(rule) => Err(broken(alloc, rule)),
        None => Ok(RetryPolicy::Exponential {
            count,
            delay,
            jitter,
            max_delay,
        }),
    }
}

// The first rule that an exponential backoff breaks.
fn first_broken(count: u32, delay: Duration, max_delay: Option<Duration>) -> Option<Rule>
    ensures { MatchOption result
        ((exponential_rules count (as_nanos delay) (option_map as_nanos max_delay)).passes no_data)
        (λ rule. (exponential_rules count (as_nanos delay) (option_map as_nanos max_delay)).faults
        no_data (broken_by (broken_rule rule))) }
{
    if count == 0 {
        return Some(Rule::CountZero);
    }
    if delay.is_zero() {
        return Some(Rule::DelayZero);
    }
    let max_delay = max_delay?;
    if max_delay.is_zero() {
        return Some(Rule::MaxDelayZero);
    }
    if max_delay.as_nanos() < delay.as_nanos() {
        return Some(Rule::MaxDelayBelowDelay);
    }
    None
}

// The fault of a table that breaks a rule.
fn broken(alloc: Global, rule: Rule) -> ValueFault
    ensures { RefusesAs (broken_by (broken_rule rule)) result }
{
    ValueFault::new(alloc, FaultKind::Custom(rule))
}

/// How the delay between tries grows.
#[derive(Clone, Copy, Debug, PartialEq, Eq)]
pub enum Backoff {
    /// The delay doesn't grow.
    Fixed,
    /// The delay grows exponentially, from try to try.
    Exponential,
}

impl Backoff {
    /// The backoff that a table names, by its word at `backoff`.
    pub fn of_table(table: &Table) -> Option<Backoff>
        ensures { result ≡ backoff_in (table_view table.now) }
    {
        let value = value_at(table, BACKOFF_KEY)?;
        match value.as_str()? {
            FIXED_WORD => Some(Backoff::Fixed),
            EXPONENTIAL_WORD => Some(Backoff::Exponential),
            _ => None,
        }
    }

    // The policy that a table with this backoff means.
    fn read_table(self, alloc: Global, table: &Table) -> Result<RetryPolicy, ValueFault>
        ensures meant { IfOk result (λ policy.
            (table_with_backoff self).means (table_view table.now) (retry_policy_of policy)) }
        ensures refused { IfErr result
            (RefusesBy (table_with_backoff self) (table_view table.now)) }
    {
        match self {
            Backoff::Fixed => read_fixed(alloc, table),
            Backoff::Exponential => read_exponential(alloc, table),
        }
    }

    // Refuses the first key, in byte order, that doesn't belong to this backoff.
    fn check_keys(self, alloc: Global, table: &Table) -> Result<(), ValueFault>
        ensures kept { OnOk result ((other_keys self).passes (table_view table.now)) }
        ensures refused { IfErr result
            (RefusesOne ((other_keys self).faults (table_view table.now))) }
    {
        for key in table.keys() {
            if !self.has_key(key.as_str()) {
                return Err(ValueFault::unknown_field(alloc, key.as_str(), self.keys()));
            }
        }
        Ok(())
    }

    // Whether the key belongs to this backoff.
    fn has_key(self, key: &str) -> bool
        ensures { IsTrue result ↔ IsOneOf (backoff_key ∷ keys_beside self) key.now }
    {
        match key {
            BACKOFF_KEY | COUNT_KEY | DELAY_KEY | JITTER_KEY => true,
            MAX_DELAY_KEY => self == Backoff::Exponential,
            _ => false,
        }
    }

    /// The keys beside `backoff`.
    pub fn keys(self) -> &'static [&'static str]
        ensures { words_of result.now ≡ keys_beside self }
    {
        match self {
            Backoff::Fixed => &[COUNT_KEY, DELAY_KEY, JITTER_KEY],
            Backoff::Exponential => &[COUNT_KEY, DELAY_KEY, JITTER_KEY, MAX_DELAY_KEY],
        }
    }
}

impl Word for Backoff {
    ghost all = { backoffs_in_order };

    ghost word = { backoff_word };

    ghost reads_back = { backoff_reads_back };

    fn all() -> &'static [Self] {
        &[Backoff::Fixed, Backoff::Exponential]
    }

    fn words() -> &'static [&'static str] {
        &[FIXED_WORD, EXPONENTIAL_WORD]
    }

    fn position(self) -> usize {
        self as usize
    }
}

/// Whether a flaky test, one that passes on a later attempt, fails or passes.
#[derive(Clone, Copy, Debug, PartialEq, Eq)]
pub enum FlakyResult {
    Fail,
    Pass,
}

impl FlakyResult {
    ghost use Rattle.nextest_config_elements.specs.declared.retry_policy.FlakyResult.TheVariants.{Pass};

    /// What a report says of a flaky test that fails although it passed on this attempt. `None`:
    /// flaky tests pass.
    pub fn fail_message(
        self,
        alloc: Global,
        attempt: u32,
        total_attempts: u32,
    ) -> Result<Option<String>, AllocError>
        ensures value { IfOk result (λ message.
            option_map string_bytes message ≡ fail_message self attempt total_attempts) }
        ensures pass { self ≡ Pass → IsOk result }
    {
        match self {
            FlakyResult::Fail => {
                let message = format!(in alloc;
                    "test passed on attempt \
                    {attempt}/{total_attempts} but is configured to fail when flaky"
                )?;
                Ok(Some(message))
            }
            FlakyResult::Pass => Ok(None),
        }
    }
}

impl Default for FlakyResult {
    ghost use Rattle.nextest_config_elements.specs.declared.retry_policy.FlakyResult.TheVariants.{Pass};

    ghost is_default = { λ it. it ≡ Pass };

    fn default() -> Self {
        FlakyResult::Pass
    }
}

impl Word for FlakyResult {
    ghost all = { flaky_results };

    ghost word = { flaky_result_word };

    ghost reads_back = { flaky_result_reads_back };

    fn all() -> &'static [Self] {
        &[FlakyResult::Fail, FlakyResult::Pass]
    }

    fn words() -> &'static [&'static str] {
        &["fail", "pass"]
    }

    fn position(self) -> usize {
        self as usize
    }
}
