//! The fields of tables.

use crate::answers::{copied, cut, done, made, unknown};
use crate::failure::Failure;
use crate::runner::Runner;
use crate::values::FromRow;
use nextest_config_values::read::{field_or, optional_field, required_field};
use nextest_config_values::track_default::TrackDefault;
use toml::{Table, Value};

/// What stands in a table at a key.
pub fn fields(rt: &Runner, call: &str, input: &str) -> Result<String, Failure> {
    let value = Value::from_row(rt, input)?;
    let table = done(rt, value.as_table().ok_or("a row has no table"))?;
    let (call, at) = cut(call, " at ")?;
    let key = call.rsplit_once(' ');
    let (call, key) = key.ok_or(Failure::Unreadable("a row has no key"))?;
    field(rt, call, table, key, at)
}

fn field(rt: &Runner, call: &str, table: &Table, key: &str, at: &str) -> Result<String, Failure> {
    match call {
        "u32" => made(rt, required_field::<u32>(rt.call(), table, key, at)),
        "tracked u32" => {
            made(
                rt,
                required_field::<TrackDefault<u32>>(rt.call(), table, key, at),
            )
        }
        "optional u32" => made(rt, optional_field::<u32>(rt.call(), table, key, at)),
        "or 7" => made(rt, field_or::<u32>(rt.call(), table, key, at, 7)),
        "String" => made(rt, required_field::<String>(rt.call(), table, key, at)),
        "optional String" => made(rt, optional_field::<String>(rt.call(), table, key, at)),
        "or default" => {
            let default = copied(rt, "default")?;
            made(rt, field_or(rt.call(), table, key, at, default))
        }
        _ => unknown(rt, call),
    }
}
