//! The timeout of handles that a test leaks.

ghost use Rattle.std.specs.Prelude.{◌≡◌, IfOk, IfErr, option_map};
ghost use Rattle.toml.specs.View.{view};
ghost use Rattle.nextest_config_values.specs.Read.{RefusesAt};
ghost use Rattle.nextest_config_elements.specs.LeakTimeout.{default_leak_timeout, leak_timeout_of, leak_timeout_reading, leak_timeout_reads_back, leak_timeout_results, leak_timeout_table, leak_timeout_word, LeakTimeoutRecord};

use crate::field::Absent::Taken;
use crate::field::{Field, Literal, Shape, field};
use crate::from_table::{FromTable, read_set};
use crate::profile_setting::{ProfileSetting, read_at};
use nextest_config_values::read::{FromToml, ReadFault, ValueFault, Word, or_default, required};
use std::alloc::Global;
use std::time::Duration;
use toml::{Table, Value};

const EXPECTED: &str =
    "a table ({ period = \"500ms\", result = \"fail\" }) or a string (\"100ms\")";

const PERIOD_KEY: &str = "period";

const RESULT_KEY: &str = "result";

/// The time that a test's handles have to close once the test has ended, and what is done then.
#[derive(Clone, Copy, Debug, PartialEq, Eq)]
pub struct LeakTimeout {
    /// The time after which a test is leaky.
    pub period: Duration,
    /// Whether a leaky test fails or passes.
    pub result: LeakTimeoutResult,
}

impl LeakTimeout {
    /// The fields of the table `leak-timeout`.
    pub const FIELDS: &'static [Field] = &[
        field!(PERIOD_KEY: Shape::ShortDuration, LeakTimeoutPeriod, required: true),
        field!(RESULT_KEY: Shape::LeakTimeoutResult, LeakTimeoutResult,
            absent: Taken(Literal::Text("pass"))),
    ];
}

impl Default for LeakTimeout {
    ghost is_default = { λ timeout. leak_timeout_of timeout ≡ default_leak_timeout };

    fn default() -> Self {
        LeakTimeout {
            period: Duration::from_millis(100),
            result: LeakTimeoutResult::default(),
        }
    }
}

impl FromTable for LeakTimeout {
    ghost Seen = { LeakTimeoutRecord };

    ghost seen = { leak_timeout_of };

    ghost reading = { leak_timeout_table };

    fn read_table(alloc: Global, table: &Table) -> Result<Self, ValueFault> {
        let period: Duration = required(alloc, table, PERIOD_KEY)?;
        let result = or_default(alloc, table, RESULT_KEY, LeakTimeoutResult::default())?;
        Ok(LeakTimeout { period, result })
    }
}

/// Reads the value of `leak-timeout`: a duration text, or a table. A fault names its path, which
/// begins with `at`: the first in the order of the fields. Other keys don't count.
pub fn deserialize_leak_timeout(
    alloc: Global,
    value: &Value,
    at: &str,
) -> Result<Option<LeakTimeout>, ReadFault>
    ensures meant { IfOk result (λ timeout.
        leak_timeout_reading.means (view value.now) (option_map leak_timeout_of timeout)) }
    ensures refused { IfErr result (RefusesAt leak_timeout_reading (view value.now) at.now) }
{
    read_at(alloc, value, at)
}

impl ProfileSetting for LeakTimeout {
    ghost Seen = { LeakTimeoutRecord };

    ghost seen = { leak_timeout_of };

    ghost reading = { leak_timeout_reading };

    fn read_setting(alloc: Global, value: &Value) -> Result<Option<Self>, ValueFault> {
        match value.as_str() {
            Some(_) => {
                let period = Duration::read_value(alloc, value)?;
                let result = LeakTimeoutResult::default();
                Ok(Some(LeakTimeout { period, result }))
            }
            None => read_set(alloc, value, EXPECTED),
        }
    }
}

/// Whether a test that leaks its handles past the timeout fails or passes.
#[derive(Clone, Copy, Debug, PartialEq, Eq)]
pub enum LeakTimeoutResult {
    /// It fails.
    Fail,
    /// It passes, and is marked as leaky.
    Pass,
}

impl Default for LeakTimeoutResult {
    ghost use Rattle.nextest_config_elements.specs.declared.leak_timeout.LeakTimeoutResult.TheVariants.{Pass};

    ghost is_default = { λ it. it ≡ Pass };

    fn default() -> Self {
        LeakTimeoutResult::Pass
    }
}

impl Word for LeakTimeoutResult {
    ghost all = { leak_timeout_results };

    ghost word = { leak_timeout_word };

    ghost reads_back = { leak_timeout_reads_back };

    fn all() -> &'static [Self] {
        &[LeakTimeoutResult::Fail, LeakTimeoutResult::Pass]
    }

    fn words() -> &'static [&'static str] {
        &["fail", "pass"]
    }

    fn position(self) -> usize {
        self as usize
    }
}
