//! The setting `fail-fast`.

ghost use Rattle.std.specs.Prelude.{◌≡◌, IfErr, IfOk};
ghost use Rattle.toml.specs.View.{view};
ghost use Rattle.nextest_config_values.specs.Read.{RefusesAt};
ghost use Rattle.nextest_config_elements.specs.MaxFail.{fail_fast_reading, fail_fast_table, IsExpected, limit_of, max_fail_reading};

use super::{MaxFail, TerminateMode};
use crate::field::Absent::Taken;
use crate::field::{Field, Literal, Shape, field};
use crate::from_table::{FromTable, read_set};
use crate::profile_setting::{ProfileSetting, read_at};
use nextest_config_values::read::{FromToml, ReadFault, ValueFault, or_default, required};
use std::alloc::Global;
use toml::{Table, Value};

const EXPECTED: &str = "a boolean or { max-fail = ... }";

const MAX_FAIL_KEY: &str = "max-fail";

const TERMINATE_KEY: &str = "terminate";

const MAX_FAIL_EXPECTED: &str = "a positive integer or the string \"all\"";

/// Reads the setting `fail-fast`: a boolean, or a table with `max-fail` and, if it isn't `wait`,
/// `terminate`. A fault names its path, which begins with `at`.
pub fn deserialize_fail_fast(
    alloc: Global,
    value: &Value,
    at: &str,
) -> Result<Option<MaxFail>, ReadFault>
    ensures meant { IfOk result (fail_fast_reading.means (view value.now)) }
    ensures refused { IfErr result (RefusesAt fail_fast_reading (view value.now) at.now) }
{
    read_at(alloc, value, at)
}

impl ProfileSetting for MaxFail {
    ghost Seen = { Self };

    ghost seen = { λ limit. limit };

    ghost reading = { fail_fast_reading };

    fn read_setting(alloc: Global, value: &Value) -> Result<Option<Self>, ValueFault> {
        if let Some(fail_fast) = value.as_bool() {
            return Ok(Some(MaxFail::from_fail_fast(fail_fast)));
        }
        read_set(alloc, value, EXPECTED)
    }
}

impl MaxFail {
    /// The fields of the table `fail-fast`.
    pub const FIELDS: &'static [Field] = &[
        field!(MAX_FAIL_KEY: Shape::MaxFail, FailFastMaxFail, required: true),
        field!(TERMINATE_KEY: Shape::TerminateMode, FailFastTerminate,
            absent: Taken(Literal::Text("wait"))),
    ];
}

impl FromTable for MaxFail {
    ghost Seen = { Self };

    ghost seen = { λ limit. limit };

    ghost reading = { fail_fast_table };

    fn read_table(alloc: Global, table: &Table) -> Result<Self, ValueFault> {
        let count: MaxFailCount = required(alloc, table, MAX_FAIL_KEY)?;
        let terminate = or_default(alloc, table, TERMINATE_KEY, TerminateMode::Wait)?;
        Ok(count.with(terminate))
    }
}

/// The value of `max-fail`: how many failures a run may have.
#[derive(Clone, Copy)]
pub enum MaxFailCount {
    /// This many.
    Count(usize),
    /// As many as there are.
    All,
}

impl MaxFailCount {
    // The limit of this count and this mode.
    fn with(self, terminate: TerminateMode) -> MaxFail
        ensures { result ≡ limit_of self terminate }
    {
        match self {
            MaxFailCount::Count(max_fail) => MaxFail::Count {
                max_fail,
                terminate,
            },
            MaxFailCount::All => MaxFail::All,
        }
    }
}

impl FromToml for MaxFailCount {
    ghost Seen = { Self };

    ghost seen = { λ count. count };

    ghost reading = { max_fail_reading };

    fn read_value(alloc: Global, value: &Value) -> Result<Self, ValueFault> {
        if let Some(number) = value.as_integer() {
            return match usize::try_from(number) {
                Ok(count) if count > 0 => Ok(MaxFailCount::Count(count)),
                _ => Err(ValueFault::invalid_value(alloc, value, MAX_FAIL_EXPECTED)),
            };
        }
        match value.as_str() {
            Some("all") => Ok(MaxFailCount::All),
            Some(text) => Err(ValueFault::invalid_value(alloc, value, expected_for(text))),
            None => Err(ValueFault::invalid_type(alloc, value, MAX_FAIL_EXPECTED)),
        }
    }
}

// What is expected in place of a text that isn't `all`. Where the text is a number, this tells how
// to write one.
fn expected_for(text: &str) -> &'static str
    ensures { IsExpected text.now result.now }
{
    match text.parse::<i64>() {
        Ok(number) if number > 0 => {
            "the string \"all\" (numbers must be specified without quotes)"
        }
        Ok(_) => "the string \"all\" (numbers must be positive and without quotes)",
        Err(_) => "the string \"all\" or a positive integer",
    }
}
