//! Experimental features.

use crate::answers::{done, push, unknown, written};
use crate::failure::Failure;
use crate::runner::Runner;
use crate::told::{Told, answered};
use crate::values::{FromRow, both};
use nextest_config::nextest_version::{ConfigExperimental, ExperimentalDeserialize};
use nextest_config_values::read::FromToml;
use std::collections::{BTreeMap, BTreeSet};
use toml::Value;

/// What is answered of features alone.
pub fn features(rt: &Runner, call: &str, input: &str) -> Result<String, Failure> {
    match call {
        "all" => all(rt),
        "word" => word_of(rt, input),
        "variables" => variables(rt, input),
        "setting" => setting(rt, input),
        _ => unknown(rt, call),
    }
}

fn all(rt: &Runner) -> Result<String, Failure> {
    rt.begin();
    let mut features = ConfigExperimental::known_features();
    let first = features.next();
    let second = features.next();
    let third = features.next();
    let features = [first, second, third, features.next()];
    rt.end();
    let mut line = String::new(rt.alloc());
    for feature in features.iter().flatten() {
        let variable = feature.env_var().unwrap_or("-");
        done(rt, write!(line, "{feature} {variable};"))?;
    }
    Ok(line)
}

fn word_of(rt: &Runner, input: &str) -> Result<String, Failure> {
    rt.begin();
    written(rt, ConfigExperimental::from_str(input))
}

fn variables(rt: &Runner, input: &str) -> Result<String, Failure> {
    let mut variables = BTreeMap::new(rt.alloc());
    for variable in input.split_whitespace() {
        let (name, value): (String, String) = both(rt, variable, "=")?;
        done(rt, variables.insert(name, value))?;
    }
    let enabled = ConfigExperimental::from_env(rt.call(), &variables);
    rt.end();
    answered(rt, "", enabled)
}

impl Told for BTreeSet<ConfigExperimental> {
    fn told(&self, rt: &Runner, _call: &str) -> Result<String, Failure> {
        words(rt, self)
    }
}

fn setting(rt: &Runner, text: &str) -> Result<String, Failure> {
    let value = Value::from_row(rt, text)?;
    let setting = ExperimentalDeserialize::read(rt.call(), &value, "experimental");
    rt.end();
    answered(rt, "", setting)
}

impl Told for ExperimentalDeserialize {
    fn told(&self, rt: &Runner, _call: &str) -> Result<String, Failure> {
        let known = words(rt, &self.known)?;
        let unknown = joined(rt, &self.unknown)?;
        let array = if self.array { "; array" } else { "" };
        done(
            rt,
            format!(in rt.alloc(); "known{known}; unknown{unknown}{array}"),
        )
    }
}

/// The words of features, each after a space.
pub fn words(rt: &Runner, known: &BTreeSet<ConfigExperimental>) -> Result<String, Failure> {
    let mut line = String::new(rt.alloc());
    for feature in known {
        push_word(rt, &mut line, feature.as_word())?;
    }
    Ok(line)
}

/// Names, each after a space.
pub fn joined(rt: &Runner, names: &BTreeSet<String>) -> Result<String, Failure> {
    let mut line = String::new(rt.alloc());
    for name in names {
        push_word(rt, &mut line, name.as_str())?;
    }
    Ok(line)
}

fn push_word(rt: &Runner, line: &mut String, word: &str) -> Result<(), Failure> {
    push(line, " ")?;
    push(line, word)?;
    Ok(())
}
