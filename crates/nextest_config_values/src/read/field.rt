//! The fields of a table.

ghost use Rattle.std.specs.Prelude.{◌≡◌, IfOk, IfErr, option_map};
ghost use Rattle.toml.specs.Data.{get_member, Members};
ghost use Rattle.toml.specs.View.{table_view, view};
ghost use Rattle.nextest_config_values.specs.Read.{at_key, optional, or_default, RefusesAt, RefusesBy, required};

use super::fault::ReadFault;
use super::from_toml::FromToml;
use super::value_fault::ValueFault;
use std::alloc::Global;
use toml::{Table, Value};

/// The value at a key of the table at the path `at`; `None` where the key is missing.
pub fn optional_field<T: FromToml>(
    alloc: Global,
    table: &Table,
    key: &str,
    at: &str,
) -> Result<Option<T>, ReadFault>
    ensures meant { IfOk result (λ x.
        (optional key.now T.reading).means (table_view table.now) (option_map T.seen x)) }
    ensures refused { IfErr result
        (RefusesAt (optional key.now T.reading) (table_view table.now) at.now) }
{
    optional(alloc, table, key).map_err(|fault| fault.at(alloc, at))
}

/// The value at a key of the table at the path `at`. A missing key is a fault at that path.
pub fn required_field<T: FromToml>(
    alloc: Global,
    table: &Table,
    key: &str,
    at: &str,
) -> Result<T, ReadFault>
    ensures meant { IfOk result (λ x.
        (required key.now T.reading).means (table_view table.now) (T.seen x)) }
    ensures refused { IfErr result
        (RefusesAt (required key.now T.reading) (table_view table.now) at.now) }
{
    required(alloc, table, key).map_err(|fault| fault.at(alloc, at))
}

/// The value at a key of the table at the path `at`, or `default` where the key is missing.
pub fn field_or<T: FromToml + Drop>(
    alloc: Global,
    table: &Table,
    key: &str,
    at: &str,
    default: T,
) -> Result<T, ReadFault>
    ensures meant { IfOk result (λ x.
        (or_default key.now (T.seen default) T.reading).means (table_view table.now) (T.seen x)) }
    ensures refused { IfErr result
        (RefusesAt (or_default key.now (T.seen default) T.reading) (table_view table.now) at.now) }
{
    or_default(alloc, table, key, default).map_err(|fault| fault.at(alloc, at))
}

/// The value at a key of a table; `None` where the key is missing.
pub fn optional<T: FromToml>(
    alloc: Global,
    table: &Table,
    key: &str,
) -> Result<Option<T>, ValueFault>
    ensures meant { IfOk result (λ x.
        (optional key.now T.reading).means (table_view table.now) (option_map T.seen x)) }
    ensures refused { IfErr result
        (RefusesBy (optional key.now T.reading) (table_view table.now)) }
{
    match value_at(table, key) {
        Some(value) => {
            let x = read_at_key(alloc, value, key)?;
            Ok(Some(x))
        }
        None => Ok(None),
    }
}

/// The value at a key of a table. A missing key is a fault of the table.
pub fn required<T: FromToml>(alloc: Global, table: &Table, key: &str) -> Result<T, ValueFault>
    ensures meant { IfOk result (λ x.
        (required key.now T.reading).means (table_view table.now) (T.seen x)) }
    ensures refused { IfErr result
        (RefusesBy (required key.now T.reading) (table_view table.now)) }
{
    match value_at(table, key) {
        Some(value) => read_at_key(alloc, value, key),
        None => Err(ValueFault::missing_field(alloc, key)),
    }
}

/// The value at a key of a table, or `default` where the key is missing.
pub fn or_default<T: FromToml + Drop>(
    alloc: Global,
    table: &Table,
    key: &str,
    default: T,
) -> Result<T, ValueFault>
    ensures meant { IfOk result (λ x.
        (or_default key.now (T.seen default) T.reading).means (table_view table.now) (T.seen x)) }
    ensures refused { IfErr result
        (RefusesBy (or_default key.now (T.seen default) T.reading) (table_view table.now)) }
{
    match value_at(table, key) {
        Some(value) => read_at_key(alloc, value, key),
        None => Ok(default),
    }
}

/// The value at a key of a table.
#[tactic(auto, using(toml::proofs::Views::table_get))]
pub fn value_at<'v>(table: &'v Table, key: &str) -> Option<&'v Value>
    ensures { option_map (λ value. view value.now) result
        ≡ get_member key.now (table_view table.now) }
{
    table.get(key)
}

// Reads the value of a key: its fault is one of the table.
fn read_at_key<T: FromToml>(alloc: Global, value: &Value, key: &str) -> Result<T, ValueFault>
    ensures meant { IfOk result (λ x. T.reading.means (view value.now) (T.seen x)) }
    ensures refused { IfErr result (λ fault. (members : Members)
        → RefusesBy (at_key key.now T.reading (view value.now)) members fault) }
{
    match T::read_value(alloc, value) {
        Ok(x) => Ok(x),
        Err(fault) => Err(fault.below_key(alloc, key)),
    }
}
