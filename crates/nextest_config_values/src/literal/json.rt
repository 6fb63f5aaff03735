//! What stands for values of TOML in JSON.

ghost use Rattle.std.specs.Prelude.{◌≡◌, IfOk};
ghost use Rattle.serde_json.specs.View.{items_view as json_items_view, members_view as json_members_view, view as json_view};
ghost use Rattle.toml.specs.View.{array_view, table_view, view};
ghost use Rattle.nextest_config_values.specs.Literal.Json.{float_data, json_data, json_items, json_members, nonfinite_text};

use serde_json::{Map, Number, Value as Json};
use std::alloc::{AllocError, Global};
use toml::{Table, Value};

/// What stands for a value in JSON (RFC 8259): an object for a table, and the text of TOML for a
/// date-time and for a float that JSON can't write.
#[cycle(json)]
pub fn json_value(alloc: Global, value: &Value) -> Result<Json, AllocError>
    ensures { IfOk result (λ json. json_view json ≡ json_data (view value.now)) }
{
    match value {
        Value::String(text) => Json::try_from_str(alloc, text.as_str()),
        Value::Integer(number) => Ok(Json::from(*number)),
        Value::Float(number) => float_in_json(alloc, *number),
        Value::Boolean(truth) => Ok(Json::Bool(*truth)),
        Value::Datetime(moment) => Ok(Json::from(moment.to_string(alloc)?)),
        Value::Array(items) => Ok(Json::Array(items_in_json(alloc, items)?)),
        Value::Table(members) => Ok(Json::Object(members_in_json(alloc, members)?)),
    }
}

// What stands for the items of an array, in their order.
#[cycle(json)]
fn items_in_json(alloc: Global, items: &Vec<Value>) -> Result<Vec<Json>, AllocError>
    ensures { IfOk result (λ values. json_items_view values.items
        ≡ json_items (array_view items.now)) }
{
    let mut values = Vec::new(alloc);
    for item in items {
        values.push(json_value(alloc, item)?)?;
    }
    Ok(values)
}

// What stands for the members of a table, by their keys.
#[cycle(json)]
fn members_in_json(alloc: Global, members: &Table) -> Result<Map<String, Json>, AllocError>
    ensures { IfOk result (λ object. json_members_view object.entries
        ≡ json_members (table_view members.now)) }
{
    let mut object = Map::new(alloc);
    for (key, value) in members {
        let name = key.clone()?;
        drop(object.insert(name, json_value(alloc, value)?)?);
    }
    Ok(object)
}

// A number, or the text of a float for which JSON has none.
fn float_in_json(alloc: Global, number: f64) -> Result<Json, AllocError>
    ensures { IfOk result (λ json. json_view json ≡ float_data number) }
{
    match Number::from_f64(number) {
        Some(number) => Ok(Json::from(number)),
        None => Json::try_from_str(alloc, nonfinite(number)),
    }
}

// A float that isn't finite, as TOML writes it.
fn nonfinite(number: f64) -> &'static str
    ensures { result.now ≡ nonfinite_text number }
{
    if number.is_nan() {
        "nan"
    } else if number.is_sign_negative() {
        "-inf"
    } else {
        "inf"
    }
}
