//! Schemas of values in which nothing stands that a schema speaks of, and how schemas are joined.

ghost use Rattle.std.specs.Prelude.{◌≡◌, ◌++◌, ◌∷◌, [], IfOk, map, OnOk, option_map, option_to_list};
ghost use Rattle.serde_json.specs.Data.{string};
ghost use Rattle.serde_json.specs.View.{members_view, view};
ghost use Rattle.nextest_config_values.specs.Read.{words_of};
ghost use Rattle.nextest_config_schema.specs.Values.{any_of, anything, array_schema, at_least, between, closed_table, enum_of, having, matching, names_schema, nonzero, of_type, one_of, profiles_schema, scalar, some_text, with_required};

use serde_json::{Map, Value, json, put};
use std::alloc::{AllocError, Global};

/// The schema that any value meets.
pub(crate) fn anything(alloc: Global) -> Value
    ensures { view result ≡ anything }
{
    Value::Object(Map::new(alloc))
}

/// The schema of values of a type.
pub(crate) fn of_type(alloc: Global, name: &str) -> Result<Value, AllocError>
    ensures { IfOk result (λ schema. view schema ≡ of_type name.now) }
{
    json!(in alloc; { "type": name })
}

/// The schema of texts, booleans and numbers.
pub(crate) fn scalar(alloc: Global) -> Result<Value, AllocError>
    ensures { IfOk result (λ schema. view schema ≡ scalar) }
{
    json!(in alloc; { "type": ["boolean", "number", "string"] })
}

/// The schema of texts that a regular expression matches.
pub(crate) fn matching(alloc: Global, pattern: &str) -> Result<Value, AllocError>
    ensures { IfOk result (λ schema. view schema ≡ matching pattern.now) }
{
    json!(in alloc; { "type": "string", "pattern": pattern })
}

/// The schema of texts that aren't empty.
pub(crate) fn some_text(alloc: Global) -> Result<Value, AllocError>
    ensures { IfOk result (λ schema. view schema ≡ some_text) }
{
    json!(in alloc; { "type": "string", "minLength": 1 })
}

/// The schema of integers from this one on.
pub(crate) fn at_least(alloc: Global, least: i64) -> Result<Value, AllocError>
    ensures { IfOk result (λ schema. view schema ≡ at_least least) }
{
    json!(in alloc; { "type": "integer", "minimum": least })
}

/// The schema of integers from the one to the other.
pub(crate) fn between(alloc: Global, least: i64, greatest: i64) -> Result<Value, AllocError>
    ensures { IfOk result (λ schema. view schema ≡ between least greatest) }
{
    json!(in alloc; { "type": "integer", "minimum": least, "maximum": greatest })
}

/// The schema of integers other than 0.
pub(crate) fn nonzero(alloc: Global) -> Result<Value, AllocError>
    ensures { IfOk result (λ schema. view schema ≡ nonzero) }
{
    json!(in alloc; { "type": "integer", "not": { "const": 0 } })
}

/// The schema of these words.
pub(crate) fn one_of(alloc: Global, words: &[&str]) -> Result<Value, AllocError>
    ensures { IfOk result (λ schema. view schema ≡ one_of (words_of words.now)) }
{
    let mut values = Vec::new(alloc);
    push_words(alloc, words, &mut values)?;
    enum_of(alloc, values)
}

/// The schema of these values.
pub(crate) fn enum_of(alloc: Global, values: Vec<Value>) -> Result<Value, AllocError>
    ensures { IfOk result (λ schema. view schema ≡ enum_of (map view values.items)) }
{
    json!(in alloc; { "enum": values })
}

/// Adds words as texts.
pub(crate) fn push_words(
    alloc: Global,
    words: &[&str],
    values: &mut Vec<Value>,
) -> Result<(), AllocError>
    ensures { OnOk result (map view values.new.items ≡ map view values.old.items
        ++ map string (words_of words.now)) }
{
    for word in words {
        values.push(Value::try_from_str(alloc, word)?)?;
    }
    Ok(())
}

/// The schema of arrays, each element of which meets a schema; of those alone that have elements,
/// where an array may not be empty.
pub(crate) fn array_schema(
    alloc: Global,
    may_be_empty: bool,
    items: Value,
) -> Result<Value, AllocError>
    ensures { IfOk result (λ schema. view schema ≡ array_schema may_be_empty (view items)) }
{
    if may_be_empty {
        json!(in alloc; { "type": "array", "items": items })
    } else {
        json!(in alloc; { "type": "array", "items": items, "minItems": 1 })
    }
}

/// The schema of tables with these properties and no others.
pub(crate) fn closed_table(
    alloc: Global,
    properties: Map<String, Value>,
) -> Result<Value, AllocError>
    ensures { IfOk result (λ schema. view schema
        ≡ closed_table (members_view properties.entries)) }
{
    json!(in alloc; {
        "type": "object",
        "properties": properties,
        "additionalProperties": false,
    })
}

/// The schema of tables that need these keys, if there are some.
pub(crate) fn with_required(
    alloc: Global,
    keys: Vec<Value>,
    schema: Value,
) -> Result<Value, AllocError>
    ensures { IfOk result (λ longer. view longer
        ≡ with_required (map view keys.items) (view schema)) }
{
    if keys.is_empty() {
        Ok(schema)
    } else {
        having(alloc, "required", Value::Array(keys), schema)
    }
}

/// The schema of tables whose keys are names, with that of their values.
pub(crate) fn names_schema(alloc: Global, others: Value) -> Result<Value, AllocError>
    ensures { IfOk result (λ schema. view schema ≡ names_schema (view others)) }
{
    json!(in alloc; { "type": "object", "additionalProperties": others })
}

/// The schema of tables of profiles, with that of `default` and that of the others.
pub(crate) fn profiles_schema(
    alloc: Global,
    default: Value,
    others: Value,
) -> Result<Value, AllocError>
    ensures { IfOk result (λ schema. view schema
        ≡ profiles_schema (view default) (view others)) }
{
    json!(in alloc; {
        "type": "object",
        "properties": { "default": default },
        "additionalProperties": others,
    })
}

/// The schema of values that meet one of some schemas, at least.
pub(crate) fn any_of(alloc: Global, mut schemas: Vec<Value>) -> Result<Value, AllocError>
    ensures { IfOk result (λ schema. view schema ≡ any_of (map view schemas.items)) }
{
    if schemas.len() > 1 {
        return json!(in alloc; { "anyOf": schemas });
    }
    match schemas.pop() {
        Some(schema) => Ok(schema),
        None => Ok(anything(alloc)),
    }
}

/// A schema, with a member more.
pub(crate) fn having(
    alloc: Global,
    key: &str,
    value: Value,
    schema: Value,
) -> Result<Value, AllocError>
    ensures { IfOk result (λ longer. view longer ≡ having key.now (view value) (view schema)) }
{
    match schema {
        Value::Object(mut members) => {
            put(&mut members, alloc, key, value)?;
            Ok(Value::Object(members))
        }
        other => Ok(other),
    }
}

/// A schema, with a member more that is a text.
pub(crate) fn saying(
    alloc: Global,
    key: &str,
    text: &str,
    schema: Value,
) -> Result<Value, AllocError>
    ensures { IfOk result (λ longer. view longer ≡ having key.now (string text.now) (view schema)) }
{
    let value = Value::try_from_str(alloc, text)?;
    let longer = having(alloc, key, value, schema)?;
    Ok(longer)
}

/// One schema.
pub(crate) fn one(alloc: Global, schema: Value) -> Result<Vec<Value>, AllocError>
    ensures { IfOk result (λ schemas. map view schemas.items ≡ view schema ∷ []) }
{
    let mut schemas = Vec::new(alloc);
    schemas.push(schema)?;
    Ok(schemas)
}

/// Two schemas.
pub(crate) fn two(alloc: Global, first: Value, second: Value) -> Result<Vec<Value>, AllocError>
    ensures { IfOk result (λ schemas. map view schemas.items ≡ view first ∷ view second ∷ []) }
{
    let mut schemas = one(alloc, first)?;
    schemas.push(second)?;
    Ok(schemas)
}

/// Adds a schema, if there is one.
pub(crate) fn push_some(schemas: &mut Vec<Value>, schema: Option<Value>) -> Result<(), AllocError>
    ensures { OnOk result (map view schemas.new.items ≡ map view schemas.old.items
        ++ option_to_list (option_map view schema)) }
{
    if let Some(schema) = schema {
        schemas.push(schema)?;
    }
    Ok(())
}
