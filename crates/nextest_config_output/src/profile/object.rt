//! Objects of JSON of what is reported of keys.

ghost use Rattle.std.specs.Prelude.{◌≡◌, IfOk};
ghost use Rattle.serde_json.specs.View.{view};
ghost use Rattle.nextest_config_output.specs.Profile.KeyPath.{key_path};
ghost use Rattle.nextest_config_output.specs.Profile.Object.{first_location, hidden_data, key_data, message_data, other_data, row_data, source_data, state_data, state_location, state_word, value_message, value_state, with_rest, with_time};
ghost use Rattle.nextest_config_output.specs.Profile.Location.{seen_location};

use crate::profile::key_path::KeyPath;
use crate::profile::location::{Location, location_of, number_value, text_value};
use crate::profile::source::OWN_DEFAULT;
use crate::profile::sourced_line::{NO_VALUE, TABLE_DEFAULT};
use crate::profile::time::TimeText;
use crate::profile::to_json::{ToJson, array_value, with_member};
use nextest_config_profiles::report::{
    FaultSource, Hidden, KeyState, OtherKey, Remark, Row, Source,
};
use nextest_config_values::literal::{KeyText, json_value};
use serde_json::{Value, json};
use std::alloc::{AllocError, Global};

/// The object of what is reported of a key of a setting.
impl ToJson for Row<'_> {
    ghost json = { row_data };

    fn to_json(&self, alloc: Global) -> Result<Value, AllocError> {
        let value = state_value(alloc, &self.state)?;
        let message = message_value(alloc, &self.state)?;
        let location = state_location(&self.state);
        let state = state_word(&self.state);
        let object = key_value(
            alloc,
            self.keys.as_slice(),
            value,
            &location,
            state,
            message,
        )?;
        with_rest(alloc, object, &self.state)
    }
}

// The object of a key, with what is reported besides of some.
fn with_rest(alloc: Global, object: Value, state: &KeyState<'_>) -> Result<Value, AllocError>
    ensures { IfOk result (λ all. view all ≡ with_rest state.now (view object)) }
{
    match state {
        KeyState::Fault { sources, .. } => {
            let sources = array_value(alloc, sources.as_slice())?;
            with_member(alloc, object, "sources", sources)
        }
        KeyState::Value { remark, .. } => with_time(alloc, object, *remark),
        _ => Ok(object),
    }
}

// The object of a key, with the time that is remarked of its value.
fn with_time(alloc: Global, object: Value, remark: Remark) -> Result<Value, AllocError>
    ensures { IfOk result (λ all. view all ≡ with_time remark (view object)) }
{
    match remark {
        Remark::TerminatedAfter(time) => {
            let time = TimeText(time).to_string(alloc)?;
            with_member(alloc, object, "terminated_after", Value::from(time))
        }
        Remark::Nothing | Remark::NoLimit => Ok(object),
    }
}

/// The object of a value that doesn't count.
impl ToJson for Hidden<'_> {
    ghost json = { hidden_data };

    fn to_json(&self, alloc: Global) -> Result<Value, AllocError> {
        let value = json_value(alloc, &self.literal.value)?;
        let location = location_of(self.source);
        let keys = self.keys.as_slice();
        key_value(alloc, keys, value, &location, "hidden", Value::Null)
    }
}

// The object of a key.
fn key_value(
    alloc: Global,
    keys: &[&str],
    value: Value,
    place: &Location<'_>,
    state: &str,
    message: Value,
) -> Result<Value, AllocError>
    ensures { IfOk result (λ object. view object ≡ key_data (key_path keys.now) (view value)
        (seen_location place.now) state.now (view message)) }
{
    json!(in alloc; {
        "key": KeyPath(keys).to_string(alloc)?,
        "value": value,
        "profile": text_value(alloc, place.profile)?,
        "path": text_value(alloc, place.path)?,
        "line": number_value(place.line),
        "column": number_value(place.column),
        "state": Value::try_from_str(alloc, state)?,
        "message": message,
    })
}

/// Where a part of a value stands.
impl ToJson for FaultSource<'_> {
    ghost json = { source_data };

    fn to_json(&self, alloc: Global) -> Result<Value, AllocError> {
        let location = location_of(self.source);
        json!(in alloc; {
            "key": KeyPath(self.keys.as_slice()).to_string(alloc)?,
            "path": text_value(alloc, location.path)?,
            "line": number_value(location.line),
            "column": number_value(location.column),
        })
    }
}

/// The object of what the profile has at a key that no setting reads.
impl ToJson for OtherKey<'_> {
    ghost json = { other_data };

    fn to_json(&self, alloc: Global) -> Result<Value, AllocError> {
        let location = location_of(self.source);
        json!(in alloc; {
            "key": KeyText(self.key).to_string(alloc)?,
            "value": json_value(alloc, &self.literal.value)?,
            "profile": text_value(alloc, location.profile)?,
            "path": text_value(alloc, location.path)?,
            "line": number_value(location.line),
            "column": number_value(location.column),
        })
    }
}

// The value that a key has, or null.
fn state_value(alloc: Global, state: &KeyState<'_>) -> Result<Value, AllocError>
    ensures { IfOk result (λ value. view value ≡ state_data state.now) }
{
    match state {
        KeyState::Value { literal, .. }
        | KeyState::NotJudged { literal, .. }
        | KeyState::Default(literal)
        | KeyState::Implied(literal) => json_value(alloc, &literal.value),
        KeyState::Unset | KeyState::NoValue(_) | KeyState::Fault { .. } => Ok(Value::Null),
    }
}

// Where what a key has stands; of a value that is refused, where the first of its parts stands.
fn state_location<'a>(state: &KeyState<'a>) -> Location<'a>
    ensures { seen_location result ≡ state_location state.now }
{
    match state {
        KeyState::Value { source, .. }
        | KeyState::NotJudged { source, .. }
        | KeyState::NoValue(source) => { location_of(*source) }
        KeyState::Default(_) | KeyState::Implied(_) | KeyState::Unset => Location::nowhere(),
        KeyState::Fault { sources, .. } => first_location(sources.as_slice()),
    }
}

// Where the first of the parts of a value stands.
fn first_location<'a>(sources: &[FaultSource<'a>]) -> Location<'a>
    ensures { seen_location result ≡ first_location sources.now }
{
    match sources {
        [] => Location::nowhere(),
        [first, ..] => location_of(first.source),
    }
}

// The word of what a key has.
fn state_word(state: &KeyState<'_>) -> &'static str
    ensures { result.now ≡ state_word state.now }
{
    match state {
        KeyState::Value { source, .. } => value_state(source),
        KeyState::Default(_) | KeyState::Implied(_) => "default",
        KeyState::Unset => "unset",
        KeyState::NotJudged { .. } => "not-judged",
        KeyState::NoValue(_) | KeyState::Fault { .. } => "fault",
    }
}

// The word of a value from this source.
fn value_state(source: &Source<'_>) -> &'static str
    ensures { result.now ≡ value_state source.now }
{
    match source.file {
        Some(_) => "value",
        None => "default",
    }
}

// What is said of what a key has, or null.
fn message_value(alloc: Global, state: &KeyState<'_>) -> Result<Value, AllocError>
    ensures { IfOk result (λ message. view message ≡ message_data state.now) }
{
    match state {
        KeyState::Value { source, .. } => value_message(alloc, source),
        KeyState::Default(_) | KeyState::Implied(_) => Value::try_from_str(alloc, TABLE_DEFAULT),
        KeyState::NoValue(_) => Value::try_from_str(alloc, NO_VALUE),
        KeyState::Fault { message, .. } => Value::try_from_str(alloc, message.as_str()),
        KeyState::Unset | KeyState::NotJudged { .. } => Ok(Value::Null),
    }
}

// What is said of a value from this source, or null.
fn value_message(alloc: Global, source: &Source<'_>) -> Result<Value, AllocError>
    ensures { IfOk result (λ message. view message ≡ value_message source.now) }
{
    match source.file {
        Some(_) => Ok(Value::Null),
        None => Value::try_from_str(alloc, OWN_DEFAULT),
    }
}
