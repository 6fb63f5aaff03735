//! The schemas of tables, by the table of keys.

ghost use Rattle.std.specs.Prelude.{◌≡◌, ◌++◌, IfOk, map, OnOk};
ghost use Rattle.serde_json.specs.Data.{no_members, string};
ghost use Rattle.serde_json.specs.View.{members_view, view};
ghost use Rattle.nextest_config_elements.specs.Fields.{field_words, fields_view, parts_of, rule_of};
ghost use Rattle.nextest_config_elements.specs.declared.field.Field.{out-Field};
ghost use Rattle.nextest_config_schema.specs.Fields.{AddsProperties, AreKinds, if_wanted, IsArray, IsNames, IsProperty, IsSchema, IsTable, wanted_keys};

use crate::defaults::with_default;
use crate::kinds::{may_be_empty, schema_with};
use crate::schema_place::SchemaPlace;
use crate::values::{
    array_schema, closed_table, enum_of, names_schema, one, profiles_schema, saying, two,
    with_required,
};
use nextest_config_elements::field::{Field, Parts, Shape};
use nextest_config_elements::retry_policy::Backoff;
use serde_json::{Map, Value, put};
use std::alloc::{AllocError, Global};

/// The schema of a table with these fields, at a place.
#[cycle(schema)]
pub(crate) fn table(
    alloc: Global,
    place: SchemaPlace,
    fields: &[Field],
) -> Result<Value, AllocError>
    ensures { IfOk result (λ schema. IsTable place (fields_view fields.now) (view schema)) }
{
    let schema = closed_table(alloc, properties(alloc, place, fields)?)?;
    with_required(alloc, wanted_keys(alloc, place, fields)?, schema)
}

// The schemas of the values of fields, by their keys.
#[cycle(schema)]
fn properties(
    alloc: Global,
    place: SchemaPlace,
    fields: &[Field],
) -> Result<Map<String, Value>, AllocError>
    ensures { IfOk result (λ properties. AddsProperties (fields_view fields.now) place
        no_members (members_view properties.entries)) }
{
    let mut properties = Map::new(alloc);
    for field in fields {
        let schema = property(alloc, place, field)?;
        put(&mut properties, alloc, field.key, schema)?;
    }
    Ok(properties)
}

// The schema of the value of a field, with what the field is for, and what stands for the value
// where it is absent.
#[cycle(schema)]
fn property(alloc: Global, place: SchemaPlace, field: &Field) -> Result<Value, AllocError>
    ensures { let known = out-Field field.now in
        IfOk result (λ schema. IsProperty place (rule_of known) (parts_of known.parts)
        (view schema)) }
{
    let place = place.below(field.key);
    let schema = schema_of(alloc, place, field.shape, &field.parts)?;
    let schema = with_default(alloc, place, field, schema)?;
    let schema = saying(alloc, "description", field.purpose.said().sentence, schema)?;
    Ok(schema)
}

// The schema of a value of a shape, with what stands in it.
#[cycle(schema)]
fn schema_of(
    alloc: Global,
    place: SchemaPlace,
    shape: Shape,
    parts: &Parts,
) -> Result<Value, AllocError>
    ensures { IfOk result (λ schema. IsSchema place shape (parts_of parts.now) (view schema)) }
{
    let kinds = kinds_by_parts(alloc, place, shape, parts)?;
    let schema = schema_with(alloc, place, shape, kinds)?;
    Ok(schema)
}

// The schemas of tables and arrays by what stands in them, where they are of a shape.
#[cycle(schema)]
fn kinds_by_parts(
    alloc: Global,
    place: SchemaPlace,
    shape: Shape,
    parts: &Parts,
) -> Result<Vec<Value>, AllocError>
    ensures { IfOk result (λ kinds. AreKinds (parts_of parts.now) place shape
        (map view kinds.items)) }
{
    match parts {
        Parts::Nothing => Ok(Vec::new(alloc)),
        Parts::Fields(fields) | Parts::Versions(fields) => {
            one(alloc, table(alloc, place, fields)?)
        }
        Parts::Features(fields) => {
            let names = enum_of(alloc, keys(alloc, fields)?)?;
            let names = array_schema(alloc, true, names)?;
            two(alloc, table(alloc, place, fields)?, names)
        }
        Parts::Retries {
            fixed,
            exponential,
            ..
        } => {
            let fixed = table(alloc, SchemaPlace::Retries(Backoff::Fixed), fixed)?;
            let place = SchemaPlace::Retries(Backoff::Exponential);
            let exponential = table(alloc, place, exponential)?;
            two(alloc, fixed, exponential)
        }
        Parts::Names(each, parts) => one(alloc, names(alloc, place, *each, parts)?),
        Parts::Elements(each, parts) => one(alloc, array(alloc, shape, *each, parts)?),
        Parts::ElementsOrFields(each, fields) => {
            let items = schema_with(alloc, SchemaPlace::Elsewhere, *each, Vec::new(alloc))?;
            let array = array_schema(alloc, may_be_empty(shape), items)?;
            two(alloc, array, table(alloc, place, fields)?)
        }
    }
}

// The schema of an array of a shape, with what its elements have to be.
#[cycle(schema)]
fn array(alloc: Global, shape: Shape, each: Shape, parts: &Parts) -> Result<Value, AllocError>
    ensures { IfOk result (λ schema. IsArray shape each (parts_of parts.now) (view schema)) }
{
    let items = schema_of(alloc, SchemaPlace::Elsewhere, each, parts)?;
    array_schema(alloc, may_be_empty(shape), items)
}

// The schema of a table whose keys are names. Of profiles `default` has its own.
#[cycle(schema)]
fn names(alloc: Global, place: SchemaPlace, each: Shape, parts: &Parts) -> Result<Value, AllocError>
    ensures { IfOk result (λ schema. IsNames place each (parts_of parts.now) (view schema)) }
{
    let others = schema_of(alloc, SchemaPlace::Elsewhere, each, parts)?;
    match place {
        SchemaPlace::Profiles => {
            let default = schema_of(alloc, SchemaPlace::DefaultProfile, each, parts)?;
            profiles_schema(alloc, default, others)
        }
        _ => names_schema(alloc, others),
    }
}

// The keys that a table with these fields has to have, at a place.
fn wanted_keys(
    alloc: Global,
    place: SchemaPlace,
    fields: &[Field],
) -> Result<Vec<Value>, AllocError>
    ensures { IfOk result (λ keys. map view keys.items
        ≡ map string (wanted_keys place (fields_view fields.now))) }
{
    let mut keys = Vec::new(alloc);
    for field in fields {
        push_if_wanted(alloc, place, field, &mut keys)?;
    }
    Ok(keys)
}

// Adds the key of a field, if a table at a place has to have it.
fn push_if_wanted(
    alloc: Global,
    place: SchemaPlace,
    field: &Field,
    keys: &mut Vec<Value>,
) -> Result<(), AllocError>
    ensures { OnOk result (map view keys.new.items ≡ map view keys.old.items
        ++ map string (if_wanted place (rule_of (out-Field field.now)))) }
{
    if place.wants(field) {
        keys.push(Value::try_from_str(alloc, field.key)?)?;
    }
    Ok(())
}

// The keys of fields.
fn keys(alloc: Global, fields: &[Field]) -> Result<Vec<Value>, AllocError>
    ensures { IfOk result (λ keys. map view keys.items
        ≡ map string (field_words (fields_view fields.now))) }
{
    let mut keys = Vec::new(alloc);
    for field in fields {
        keys.push(Value::try_from_str(alloc, field.key)?)?;
    }
    Ok(keys)
}
