//! The timeout of slow tests.

ghost use Rattle.std.specs.Prelude.{◌≡◌, IfOk, IfErr, option_map};
ghost use Rattle.std.specs.Duration.{as_nanos};
ghost use Rattle.toml.specs.View.{view};
ghost use Rattle.nextest_config_values.specs.Read.{RefusesAt};
ghost use Rattle.nextest_config_elements.specs.Durations.{seconds};
ghost use Rattle.nextest_config_elements.specs.SlowTimeout.{default_grace_period, slow_timeout_of, slow_timeout_reading, slow_timeout_reads_back, slow_timeout_results, slow_timeout_table, slow_timeout_word, SlowTimeoutRecord, with_period};

use crate::field::Absent::Taken;
use crate::field::FaultSeverity::ErrorUnlessConverted;
use crate::field::{Field, Literal, Shape, field};
use crate::from_table::{FromTable, read_set};
use crate::profile_setting::{ProfileSetting, read_at};
use nextest_config_values::read::{
    FromToml, NonZeroCount, ReadFault, ValueFault, Word, optional, or_default, required,
};
use std::alloc::Global;
use std::time::Duration;
use toml::{Table, Value};

const EXPECTED: &str = "a table ({ period = \"60s\", terminate-after = 2 }) or a string (\"60s\")";

const PERIOD_KEY: &str = "period";

const TERMINATE_AFTER_KEY: &str = "terminate-after";

const GRACE_PERIOD_KEY: &str = "grace-period";

const ON_TIMEOUT_KEY: &str = "on-timeout";

/// The time after which a test is slow, and what is done then.
#[derive(Clone, Copy, Debug, PartialEq, Eq)]
pub struct SlowTimeout {
    /// The time after which a test is slow.
    pub period: Duration,
    /// The number of periods after which a slow test is terminated. `None`: never terminated.
    pub terminate_after: Option<NonZeroCount>,
    /// The time that a test has to end by itself once it is told to.
    pub grace_period: Duration,
    /// Whether a terminated test fails or passes.
    pub on_timeout: SlowTimeoutResult,
}

impl SlowTimeout {
    /// The fields of the table `slow-timeout`.
    pub const FIELDS: &'static [Field] = &[
        field!(PERIOD_KEY: Shape::Duration, SlowTimeoutPeriod, required: true),
        field!(TERMINATE_AFTER_KEY: Shape::Count, SlowTimeoutTerminateAfter,
            severity: ErrorUnlessConverted),
        field!(GRACE_PERIOD_KEY: Shape::Duration, SlowTimeoutGracePeriod,
            absent: Taken(Literal::Text("10s"))),
        field!(ON_TIMEOUT_KEY: Shape::SlowTimeoutResult, SlowTimeoutOnTimeout,
            absent: Taken(Literal::Text("fail"))),
    ];

    /// A timeout that no test meets: roughly 30 years.
    pub fn very_large() -> Self
        ensures { slow_timeout_of result ≡ with_period (seconds 946_080_000) }
    {
        SlowTimeout::with_period(Duration::from_secs(946_080_000))
    }

    // A timeout of this period that terminates nothing.
    fn with_period(period: Duration) -> Self
        ensures { slow_timeout_of result ≡ with_period (as_nanos period) }
    {
        SlowTimeout {
            period,
            terminate_after: None,
            grace_period: default_grace_period(),
            on_timeout: SlowTimeoutResult::Fail,
        }
    }
}

impl FromTable for SlowTimeout {
    ghost Seen = { SlowTimeoutRecord };

    ghost seen = { slow_timeout_of };

    ghost reading = { slow_timeout_table };

    fn read_table(alloc: Global, table: &Table) -> Result<Self, ValueFault> {
        let period: Duration = required(alloc, table, PERIOD_KEY)?;
        let terminate_after: Option<NonZeroCount> = optional(alloc, table, TERMINATE_AFTER_KEY)?;
        let grace_period = or_default(alloc, table, GRACE_PERIOD_KEY, default_grace_period())?;
        let on_timeout = or_default(alloc, table, ON_TIMEOUT_KEY, SlowTimeoutResult::default())?;
        Ok(SlowTimeout {
            period,
            terminate_after,
            grace_period,
            on_timeout,
        })
    }
}

/// Reads the value of `slow-timeout`: a duration text, the empty text for no timeout, or a table. A
/// fault names its path, which begins with `at`: the first in the order of the fields. Other keys
/// don't count.
pub fn deserialize_slow_timeout(
    alloc: Global,
    value: &Value,
    at: &str,
) -> Result<Option<SlowTimeout>, ReadFault>
    ensures meant { IfOk result (λ timeout.
        slow_timeout_reading.means (view value.now) (option_map slow_timeout_of timeout)) }
    ensures refused { IfErr result (RefusesAt slow_timeout_reading (view value.now) at.now) }
{
    read_at(alloc, value, at)
}

impl ProfileSetting for SlowTimeout {
    ghost Seen = { SlowTimeoutRecord };

    ghost seen = { slow_timeout_of };

    ghost reading = { slow_timeout_reading };

    fn read_setting(alloc: Global, value: &Value) -> Result<Option<Self>, ValueFault> {
        if let Some(text) = value.as_str() {
            if text.is_empty() {
                return Ok(None);
            }
            let period = Duration::read_value(alloc, value)?;
            return Ok(Some(SlowTimeout::with_period(period)));
        }
        read_set(alloc, value, EXPECTED)
    }
}

// The grace period where none is given.
fn default_grace_period() -> Duration
    ensures { as_nanos result ≡ default_grace_period }
{
    Duration::from_secs(10)
}

/// Whether a test that is terminated by its timeout fails or passes.
#[derive(Clone, Copy, Debug, PartialEq, Eq)]
pub enum SlowTimeoutResult {
    Fail,
    Pass,
}

impl Default for SlowTimeoutResult {
    ghost use Rattle.nextest_config_elements.specs.declared.slow_timeout.SlowTimeoutResult.TheVariants.{Fail};

    ghost is_default = { λ it. it ≡ Fail };

    fn default() -> Self {
        SlowTimeoutResult::Fail
    }
}

impl Word for SlowTimeoutResult {
    ghost all = { slow_timeout_results };

    ghost word = { slow_timeout_word };

    ghost reads_back = { slow_timeout_reads_back };

    fn all() -> &'static [Self] {
        &[SlowTimeoutResult::Fail, SlowTimeoutResult::Pass]
    }

    fn words() -> &'static [&'static str] {
        &["fail", "pass"]
    }

    fn position(self) -> usize {
        self as usize
    }
}
