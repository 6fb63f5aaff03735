//! Values beside one another, and beside their copies.

use crate::answers::{copied, done, shown, unknown, written};
use crate::failure::Failure;
use crate::runner::Runner;
use crate::values::FromRow;
use nextest_config::board::BoardRefusal;
use nextest_config::nextest_version::{
    ConfigParseError, ConfigSource, ConfigSourceKind, ExperimentalConfig, ExperimentalDeserialize,
    ListRefusal, NextestVersionConfig, NextestVersionDeserialize, NextestVersionEval,
    NextestVersionReq, VersionOnlyConfig,
};
use nextest_config_elements::junit::{DefaultJunitImpl, JunitImpl};
use nextest_config_values::identifier::{ConfigIdentifier, ToolName};
use nextest_config_values::tool_config::ToolConfigFile;
use nextest_config_values::track_default::TrackDefault;
use std::alloc::{AllocError, Global};
use std::fmt::Debug;

/// Whether the values of a row, which hold versions or sets, all differ, or two are the same.
pub fn equality(rt: &Runner, call: &str, input: &str) -> Result<String, Failure> {
    match call {
        "BoardRefusal" => likeness::<BoardRefusal>(rt, input),
        "ConfigParseError" => likeness::<ConfigParseError>(rt, input),
        "ExperimentalConfig" => likeness::<ExperimentalConfig>(rt, input),
        "ExperimentalDeserialize" => likeness::<ExperimentalDeserialize>(rt, input),
        "ListRefusal" => likeness::<ListRefusal>(rt, input),
        "NextestVersionConfig" => likeness::<NextestVersionConfig>(rt, input),
        "NextestVersionDeserialize" => likeness::<NextestVersionDeserialize>(rt, input),
        "NextestVersionEval" => likeness::<NextestVersionEval>(rt, input),
        "NextestVersionReq" => likeness::<NextestVersionReq>(rt, input),
        "VersionOnlyConfig" => likeness::<VersionOnlyConfig>(rt, input),
        _ => unknown(rt, call),
    }
}

fn likeness<T: FromRow + PartialEq + Debug>(rt: &Runner, input: &str) -> Result<String, Failure> {
    let mut values: Vec<T> = Vec::new(rt.alloc());
    for text in input.split(" ~ ") {
        done(rt, values.push(T::from_row(rt, text)?))?;
    }
    let mut same: usize = 0;
    for left in &values {
        for right in &values {
            if is_same(rt, left, right)? {
                same = same.saturating_add(1);
            }
        }
    }
    copied(
        rt,
        if same == values.len() {
            "differ"
        } else {
            "same"
        },
    )
}

// Whether two values are the same, which they are exactly where a source would write them alike.
fn is_same<T: PartialEq + Debug>(rt: &Runner, left: &T, right: &T) -> Result<bool, Failure> {
    rt.begin();
    let same = left == right;
    rt.end();
    if same == (written(rt, left)? == written(rt, right)?) {
        Ok(same)
    } else {
        Err(Failure::Unreadable("values are the same in one way alone"))
    }
}

// The copy of a value of a type.
macro_rules! copy_of {
    ($rt:ident, $input:ident, $type:ty) => {
        copy($rt, $input, |it: &$type, alloc| it.clone(alloc))
    };
}

/// Whether a copy of the row's value is the same.
pub fn copies(rt: &Runner, call: &str, input: &str) -> Result<String, Failure> {
    match call {
        "ConfigIdentifier" => copy_of!(rt, input, ConfigIdentifier),
        "ConfigSource" => copy_of!(rt, input, ConfigSource),
        "ConfigSourceKind" => copy_of!(rt, input, ConfigSourceKind),
        "DefaultJunitImpl" => copy_of!(rt, input, DefaultJunitImpl),
        "ExperimentalConfig" => copy_of!(rt, input, ExperimentalConfig),
        "ExperimentalDeserialize" => copy_of!(rt, input, ExperimentalDeserialize),
        "JunitImpl" => copy_of!(rt, input, JunitImpl),
        "NextestVersionConfig" => copy_of!(rt, input, NextestVersionConfig),
        "NextestVersionDeserialize" => copy_of!(rt, input, NextestVersionDeserialize),
        "NextestVersionEval" => copy_of!(rt, input, NextestVersionEval),
        "NextestVersionReq" => copy_of!(rt, input, NextestVersionReq),
        "ToolConfigFile" => copy_of!(rt, input, ToolConfigFile),
        "ToolName" => copy_of!(rt, input, ToolName),
        "TrackDefault" => copy(rt, input, |it: &TrackDefault<String>, _| it.clone()),
        "VersionOnlyConfig" => copy_of!(rt, input, VersionOnlyConfig),
        _ => unknown(rt, call),
    }
}

// Whether a copy is written as the value is.
fn copy<T: FromRow + Debug, F: FnOnce(&T, Global) -> Result<T, AllocError>>(
    rt: &Runner,
    input: &str,
    clone: F,
) -> Result<String, Failure>
    requires { F.IsAlwaysCallable clone }
{
    let value = T::from_row(rt, input)?;
    let copy = clone(&value, rt.call());
    rt.end();
    match copy {
        Ok(copy) => {
            let same = written(rt, copy)? == written(rt, value)?;
            copied(rt, if same { "same" } else { "differ" })
        }
        Err(error) => shown(rt, &error),
    }
}
