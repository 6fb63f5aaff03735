//! A profile as programs read it.

ghost use Rattle.std.specs.Prelude.{◌≡◌, ◌++◌, flat_map, IfOk, map, OnOk, string_bytes};
ghost use Rattle.serde_json.specs.Data.{object};
ghost use Rattle.serde_json.specs.View.{view};
ghost use Rattle.nextest_config_output.specs.Profile.AsJson.{chain_data, IsJsonLine, literal_or_null, override_data, pairs_data, report_data, row_objects, settings_data};

use crate::profile::chain::name_of;
use crate::profile::location::{location_if, location_of, number_value, text_value};
use crate::profile::to_json::{ToJson, array_value, push_values, put};
use nextest_config_profiles::report::{
    ChainProfile, Literal, Override, OverrideSetting, ProfileReport, Row,
};
use nextest_config_values::literal::json_value;
use serde_json::{Map, Value, json};
use std::alloc::{AllocError, Global};

/// The object of a profile that programs read, on a line of its own (RFC 8259).
pub(crate) fn json_text(alloc: Global, report: &ProfileReport<'_>) -> Result<String, AllocError>
    ensures { IfOk result (λ text. IsJsonLine (report_data report.now) (string_bytes text)) }
{
    let value = report_value(alloc, report)?;
    json_line(alloc, &value)
}

// A value on a line of its own.
fn json_line(alloc: Global, value: &Value) -> Result<String, AllocError>
    ensures { IfOk result (λ text. IsJsonLine (view value.now) (string_bytes text)) }
{
    let mut text = value.to_string(alloc)?;
    text.push_str("\n")?;
    Ok(text)
}

// What is reported of a profile, as an object.
fn report_value(alloc: Global, report: &ProfileReport<'_>) -> Result<Value, AllocError>
    ensures { IfOk result (λ value. view value ≡ report_data report.now) }
{
    let chain = report.chain.as_slice();
    json!(in alloc; {
        "profile": Value::try_from_str(alloc, name_of(chain))?,
        "chain": array_value(alloc, chain)?,
        "settings": settings_value(alloc, report.settings.as_slice())?,
        "others": array_value(alloc, report.others.as_slice())?,
        "overrides": array_value(alloc, report.overrides.as_slice())?,
    })
}

// A profile of a chain, and where it inherits.
impl ToJson for ChainProfile<'_> {
    ghost json = { chain_data };

    fn to_json(&self, alloc: Global) -> Result<Value, AllocError> {
        let location = location_if(self.inherits);
        json!(in alloc; {
            "profile": Value::try_from_str(alloc, self.name)?,
            "path": text_value(alloc, location.path)?,
            "line": number_value(location.line),
            "column": number_value(location.column),
        })
    }
}

// What is reported of settings.
fn settings_value(alloc: Global, settings: &[Vec<Row<'_>>]) -> Result<Value, AllocError>
    ensures { IfOk result (λ value. view value ≡ settings_data settings.now) }
{
    let mut values = Vec::new(alloc);
    for rows in settings {
        push_rows(alloc, &mut values, rows.as_slice())?;
    }
    Ok(Value::Array(values))
}

// Pushes what is reported of the keys of a setting.
fn push_rows(alloc: Global, values: &mut Vec<Value>, rows: &[Row<'_>]) -> Result<(), AllocError>
    ensures { OnOk result (map view values.new.items
        ≡ map view values.old.items ++ flat_map row_objects rows.now) }
{
    for row in rows {
        push_row(alloc, values, row)?;
    }
    Ok(())
}

// Pushes what is reported of a key, and behind it what it hides.
fn push_row(alloc: Global, values: &mut Vec<Value>, row: &Row<'_>) -> Result<(), AllocError>
    ensures { OnOk result
        (map view values.new.items ≡ map view values.old.items ++ row_objects row.now) }
{
    values.push(row.to_json(alloc)?)?;
    push_values(alloc, values, row.hidden.as_slice())
}

// What is reported of an override.
impl ToJson for Override<'_> {
    ghost json = { override_data };

    fn to_json(&self, alloc: Global) -> Result<Value, AllocError> {
        let location = location_of(self.source);
        json!(in alloc; {
            "profile": text_value(alloc, location.profile)?,
            "path": text_value(alloc, location.path)?,
            "line": number_value(location.line),
            "column": number_value(location.column),
            "filter": value_or_null(alloc, &self.filter)?,
            "platform": value_or_null(alloc, &self.platform)?,
            "settings": pairs_value(alloc, self.settings.as_slice())?,
        })
    }
}

// A value, or null.
fn value_or_null(alloc: Global, literal: &Option<Literal>) -> Result<Value, AllocError>
    ensures { IfOk result (λ value. view value ≡ literal_or_null literal.now) }
{
    match literal {
        Some(literal) => json_value(alloc, &literal.value),
        None => Ok(Value::Null),
    }
}

// The keys that an override sets, each with its value.
fn pairs_value(alloc: Global, settings: &[OverrideSetting]) -> Result<Value, AllocError>
    ensures { IfOk result (λ value. view value ≡ object (pairs_data settings.now)) }
{
    let mut pairs = Map::new(alloc);
    for setting in settings {
        let value = json_value(alloc, &setting.literal.value)?;
        put(alloc, &mut pairs, setting.key, value)?;
    }
    Ok(Value::Object(pairs))
}
