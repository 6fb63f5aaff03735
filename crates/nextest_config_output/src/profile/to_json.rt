//! What has a value of JSON.

ghost use Rattle.std.specs.Prelude.{◌≡◌, ◌++◌, IfOk, map, OnOk};
ghost use Rattle.serde_json.specs.Data.{Data, put};
ghost use Rattle.serde_json.specs.View.{members_view, view};
ghost use Rattle.nextest_config_report.specs.Show.{array_of};
ghost use Rattle.nextest_config_output.specs.Profile.ToJson.{with_member};

use serde_json::{Map, Value};
use std::alloc::{AllocError, Global};

/// What programs read as a value of JSON.
pub(crate) trait ToJson {
    ghost json: { Self → Data };

    /// The value.
    fn to_json(&self, alloc: Global) -> Result<Value, AllocError>
        ensures { IfOk result (λ value. view value ≡ json self.now) };
}

/// An array of the values of these.
pub(crate) fn array_value<T: ToJson>(alloc: Global, items: &[T]) -> Result<Value, AllocError>
    ensures { IfOk result (λ value. view value ≡ array_of T.json items.now) }
{
    let mut values = Vec::new(alloc);
    push_values(alloc, &mut values, items)?;
    Ok(Value::Array(values))
}

/// Pushes the value of each.
pub(crate) fn push_values<T: ToJson>(
    alloc: Global,
    values: &mut Vec<Value>,
    items: &[T],
) -> Result<(), AllocError>
    ensures { OnOk result
        (map view values.new.items ≡ map view values.old.items ++ map T.json items.now) }
{
    for item in items {
        values.push(item.to_json(alloc)?)?;
    }
    Ok(())
}

/// An object with one more member.
pub(crate) fn with_member(
    alloc: Global,
    object: Value,
    key: &str,
    value: Value,
) -> Result<Value, AllocError>
    ensures { IfOk result (λ it. view it ≡ with_member key.now (view value) (view object)) }
{
    match object {
        Value::Object(mut members) => {
            put(alloc, &mut members, key, value)?;
            Ok(Value::Object(members))
        }
        other => Ok(other),
    }
}

/// Puts a value at a key.
pub(crate) fn put(
    alloc: Global,
    members: &mut Map<String, Value>,
    key: &str,
    value: Value,
) -> Result<(), AllocError>
    ensures { OnOk result (members_view members.new.entries
        ≡ put key.now (view value) (members_view members.old.entries)) }
{
    let key = String::from_str(alloc, key)?;
    drop(members.insert(key, value)?);
    Ok(())
}
