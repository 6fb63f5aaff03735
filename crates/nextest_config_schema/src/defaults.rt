//! What stands for a key that is absent.

ghost use Rattle.std.specs.Prelude.{◌≡◌, IfOk, option_map};
ghost use Rattle.serde_json.specs.View.{view};
ghost use Rattle.nextest_config_values.specs.Literal.Json.{json_data};
ghost use Rattle.nextest_config_elements.specs.Fields.{literal_of, rule_of};
ghost use Rattle.nextest_config_elements.specs.declared.field.Field.{out-Field};
ghost use Rattle.nextest_config_schema.specs.Defaults.{default_data, inherited_data, with_default};

use crate::schema_place::SchemaPlace;
use crate::values::having;
use nextest_config_elements::field::{Absent, Field, Literal};
use serde_json::Value;
use std::alloc::{AllocError, Global};

/// The schema of a field's value, with what stands for it at a place where it is absent.
pub(crate) fn with_default(
    alloc: Global,
    place: SchemaPlace,
    field: &Field,
    schema: Value,
) -> Result<Value, AllocError>
    ensures { IfOk result (λ longer. view longer
        ≡ with_default (default_data place (rule_of (out-Field field.now))) (view schema)) }
{
    match default_value(alloc, place, field)? {
        Some(value) => having(alloc, "default", value, schema),
        None => Ok(schema),
    }
}

// What stands for a field's value at a place where it is absent, if that is a value.
fn default_value(
    alloc: Global,
    place: SchemaPlace,
    field: &Field,
) -> Result<Option<Value>, AllocError>
    ensures { IfOk result (λ value. option_map view value
        ≡ default_data place (rule_of (out-Field field.now))) }
{
    if field.required {
        return Ok(None);
    }
    match field.absent {
        Absent::Taken(literal) => literal_value(alloc, literal),
        Absent::Inherited(literal) => inherited_value(alloc, place, literal),
        Absent::OfProfile => Ok(None),
    }
}

// What a place inherits from nextest itself: elsewhere another profile may say otherwise.
fn inherited_value(
    alloc: Global,
    place: SchemaPlace,
    literal: Literal,
) -> Result<Option<Value>, AllocError>
    ensures { IfOk result (λ value. option_map view value
        ≡ inherited_data place (literal_of literal)) }
{
    match place {
        SchemaPlace::DefaultProfile => literal_value(alloc, literal),
        _ => Ok(None),
    }
}

// A value as JSON has it, if there is one.
fn literal_value(alloc: Global, literal: Literal) -> Result<Option<Value>, AllocError>
    ensures { IfOk result (λ value. option_map view value
        ≡ option_map json_data (literal_of literal)) }
{
    let value = match literal {
        Literal::Nothing => return Ok(None),
        Literal::Boolean(truth) => Value::from(truth),
        Literal::Integer(number) => Value::from(number),
        Literal::Text(text) => Value::try_from_str(alloc, text)?,
        Literal::EmptyArray => Value::from(Vec::new(alloc)),
    };
    Ok(Some(value))
}
