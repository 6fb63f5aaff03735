//! The texts of values, and durations as texts.

use crate::answers::{done, made_or_error, shown, text, unknown, written};
use crate::failure::Failure;
use crate::runner::Runner;
use crate::values::FromRow;
use nextest_config_values::duration::{DurationFault, parse_duration};
use nextest_config_values::read::{QuotedText, QuotedTexts, found_text, quoted};
use std::collections::BTreeSet;
use std::time::Duration;
use toml::Value;

/// Texts that are made of values.
pub fn texts(rt: &Runner, call: &str, input: &str) -> Result<String, Failure> {
    match call {
        "quoted" => quoted_text(rt, input),
        "quoted each" => quoted_texts(rt, input),
        "found" => found(rt, input),
        _ => unknown(rt, call),
    }
}

fn found(rt: &Runner, input: &str) -> Result<String, Failure> {
    let value = Value::from_row(rt, input)?;
    text(rt, found_text(rt.call(), &value))
}

fn quoted_texts(rt: &Runner, input: &str) -> Result<String, Failure> {
    let mut names = BTreeSet::new(rt.alloc());
    for name in input.split(' ') {
        if !name.is_empty() {
            done(rt, names.insert(String::from_row(rt, name)?))?;
        }
    }
    shown(rt, &QuotedTexts(&names))
}

// A text as it is quoted, which is as it prints.
fn quoted_text(rt: &Runner, input: &str) -> Result<String, Failure> {
    let printed = shown(rt, &QuotedText(input))?;
    let quoted = quoted(rt.call(), input);
    rt.end();
    if quoted.is_err() || quoted.as_ref() == Ok(&printed) {
        text(rt, quoted)
    } else {
        done(
            rt,
            format!(in rt.alloc(); "{quoted:?}, but printed as {printed}"),
        )
    }
}

/// The duration that a text writes, or why it writes none.
pub fn durations(rt: &Runner, call: &str, input: &str) -> Result<String, Failure> {
    match call {
        "parse" => written(rt, parsed(rt, input)?),
        "printed" => made_or_error(rt, parsed(rt, input)?),
        _ => unknown(rt, call),
    }
}

fn parsed(rt: &Runner, text: &str) -> Result<Result<Duration, DurationFault>, Failure> {
    rt.begin();
    Ok(parse_duration(text))
}
