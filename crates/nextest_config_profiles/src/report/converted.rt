//! Slow timeouts without what nextest may convert.

ghost use Rattle.std.specs.Prelude.{◌≡◌, ◌↔◌, IfOk, IsTrue, option_map};
ghost use Rattle.toml.specs.Data.{table};
ghost use Rattle.toml.specs.View.{table_view, view};
ghost use Rattle.nextest_config_elements.specs.SlowTimeout.{terminate_after_key};
ghost use Rattle.nextest_config_profiles.specs.Reach.{words_of};
ghost use Rattle.nextest_config_profiles.specs.Report.Converted.{HasConverted, IsRestRead, IsUnconverted, without};

use crate::effective::read_value;
use crate::report::given::{Given, given_of};
use crate::report::keys::with_key;
use nextest_config_elements::profile_setting::ProfileSetting;
use nextest_config_lint::is_converted_at;
use nextest_config_values::read::value_at;
use std::alloc::{AllocError, Global};
use toml::{Table, Value};

const TERMINATE_AFTER: &str = "terminate-after";

/// The value at these keys of a profile without a `terminate-after` that nextest may convert, if it
/// has one.
pub(crate) fn unconverted(
    alloc: Global,
    keys: &[&str],
    value: Value,
) -> Result<Option<Value>, AllocError>
    ensures { IfOk result (λ rest.
        IsUnconverted (words_of keys.now) (view value) (option_map view rest)) }
{
    match value {
        Value::Table(members) => unconverted_members(alloc, keys, members),
        _ => Ok(None),
    }
}

// A table at these keys without a `terminate-after` that nextest may convert, if it has one.
fn unconverted_members(
    alloc: Global,
    keys: &[&str],
    members: Table,
) -> Result<Option<Value>, AllocError>
    ensures { IfOk result (λ rest.
        IsUnconverted (words_of keys.now) (table (table_view members)) (option_map view rest)) }
{
    if has_converted(alloc, keys, &members)? {
        return Ok(Some(without(members)));
    }
    Ok(None)
}

// Whether a table at these keys has a `terminate-after` that nextest may convert.
fn has_converted(alloc: Global, keys: &[&str], members: &Table) -> Result<bool, AllocError>
    ensures { IfOk result (λ has.
        IsTrue has ↔ HasConverted (words_of keys.now) (table_view members.now)) }
{
    let Some(value) = value_at(members, TERMINATE_AFTER) else {
        return Ok(false);
    };
    let path = with_key(alloc, keys, TERMINATE_AFTER)?;
    Ok(is_converted_at(path.as_slice(), value))
}

// A table without its `terminate-after`.
fn without(mut members: Table) -> Value
    ensures { view result ≡ table (without terminate_after_key (table_view members)) }
{
    drop(members.remove(TERMINATE_AFTER));
    Value::Table(members)
}

/// What this profile gives where the rest of its value is read.
pub(crate) fn read_rest<'p, T: ProfileSetting>(
    alloc: Global,
    profile: &'p str,
    rest: &Value,
) -> Result<Given<'p>, AllocError>
    ensures { IfOk result (IsRestRead T.reading profile.now (view rest.now)) }
{
    match read_value::<T>(alloc, profile, rest)? {
        Some(given) => Ok(given_of(given)),
        None => Ok(Given::Value { profile }),
    }
}
