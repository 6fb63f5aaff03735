//! What is remarked of values.

ghost use Rattle.std.specs.Prelude.{◌≡◌, IfOk, None, option_map, Some};
ghost use Rattle.std.specs.Duration.{as_nanos};
ghost use Rattle.toml.specs.Data.{as_integer, as_str};
ghost use Rattle.toml.specs.View.{view};
ghost use Rattle.nextest_config_profiles.specs.Report.Remark.{IsEnding, IsPeriodFound, IsPeriodOf, IsPeriodText, IsRemark, is_number_of_periods, is_terminate_after};
ghost use Rattle.nextest_config_profiles.specs.Report.Rows.{at_of};

use crate::LayerValue;
use crate::report::keys::with_key;
use crate::report::last::last_at;
use crate::report::no_limit::is_no_limit;
use crate::report::parts::Remark;
use crate::report::rows::GivenSetting;
use nextest_config_elements::field::Shape;
use nextest_config_elements::slow_timeout::SlowTimeout;
use nextest_config_values::duration::parse_duration;
use std::alloc::{AllocError, Global};
use std::time::Duration;
use toml::Value;

/// What is remarked of the value of a setting, or of a member of its table.
pub(crate) fn remark_of(
    alloc: Global,
    given: GivenSetting<'_, '_>,
    member: Option<&str>,
    value: &Value,
) -> Result<Remark, AllocError>
    ensures { IfOk result (IsRemark (at_of given.entry) (option_map (λ key. key.now) member.entry)
        (view value.now)) }
{
    if is_no_limit(given.setting.field.shape, member, value) {
        return Ok(Remark::NoLimit);
    }
    if is_number_of_periods(given.setting.field.shape, member) {
        let period = period_of(alloc, given)?;
        return Ok(ending(period, value));
    }
    Ok(Remark::Nothing)
}

// Whether a member says after how many periods a slow test is terminated.
fn is_number_of_periods(shape: Shape, member: Option<&str>) -> bool
    ensures { result ≡ is_number_of_periods shape (option_map (λ key. key.now) member.entry) }
{
    matches!(shape, Shape::SlowTimeout) & is_terminate_after(member)
}

fn is_terminate_after(member: Option<&str>) -> bool
    ensures { result ≡ is_terminate_after (option_map (λ key. key.now) member.entry) }
{
    match member {
        Some(key) => key == "terminate-after",
        None => false,
    }
}

// The period of the table of a setting, if it is a duration that a test may reach.
fn period_of(alloc: Global, given: GivenSetting<'_, '_>) -> Result<Option<Duration>, AllocError>
    ensures { IfOk result (λ period.
        IsPeriodOf (at_of given.entry) (option_map as_nanos period)) }
{
    let keys = with_key(alloc, given.setting.keys, "period")?;
    let found = last_at(alloc, given.effective, given.profile, keys.as_slice())?;
    Ok(period_found(found))
}

fn period_found(found: Option<LayerValue<'_>>) -> Option<Duration>
    ensures { IsPeriodFound found.entry (option_map as_nanos result) }
{
    match found {
        Some(found) => period_in(found.value),
        None => None,
    }
}

fn period_in(value: &Value) -> Option<Duration>
    ensures { IsPeriodText (as_str (view value.now)) (option_map as_nanos result) }
{
    match value.as_str() {
        Some(text) => period_text(text),
        None => None,
    }
}

// The duration that a text writes, if it is below what counts as no limit.
fn period_text(text: &str) -> Option<Duration>
    ensures { IsPeriodText (Some text.now) (option_map as_nanos result) }
{
    match parse_duration(text) {
        Ok(period) => {
            if period.as_nanos() < SlowTimeout::very_large().period.as_nanos() {
                Some(period)
            } else {
                None
            }
        }
        Err(_) => None,
    }
}

// What is remarked of a number of periods: after how long a slow test is terminated.
fn ending(period: Option<Duration>, number: &Value) -> Remark
    ensures { IsEnding (option_map as_nanos period) (as_integer (view number.now)) result }
{
    match period {
        Some(period) => match number.as_integer() {
            Some(number) => ending_after(period, number),
            None => Remark::Nothing,
        },
        None => Remark::Nothing,
    }
}

// What is remarked of so many periods.
fn ending_after(period: Duration, number: i64) -> Remark
    ensures { IsEnding (Some (as_nanos period)) (Some number) result }
{
    let Ok(number) = u128::try_from(number) else {
        return Remark::Nothing;
    };
    let nanoseconds = period.as_nanos().saturating_mul(number);
    if nanoseconds > Duration::MAX.as_nanos() {
        return Remark::Nothing;
    }
    Remark::TerminatedAfter(Duration::from_nanos_u128(nanoseconds))
}
