//! The plain readers.

ghost use Rattle.std.specs.Prelude.{◌≡◌, ◌≢◌, ◌<◌, ◌↔◌, ℕ, pos, List, IsSome, IfErr, IfOk, IfSome, MatchOption, None, Some, string_bytes};
ghost use Rattle.toml.specs.Data.{as_integer, as_str};
ghost use Rattle.toml.specs.View.{view};
ghost use Rattle.nextest_config_values.specs.Read.{bool_reading, count_reading, IsCount, MeansNumber, RefusesAs, text_expected, text_reading, u32_reading, wrong_type};

use super::from_toml::FromToml;
use super::value_fault::ValueFault;
use std::alloc::{AllocError, Global};
use std::marker::Model;
use toml::Value;

impl FromToml for bool {
    ghost Seen = { Self };

    ghost seen = { λ truth. truth };

    ghost reading = { bool_reading };

    fn read_value(alloc: Global, value: &Value) -> Result<Self, ValueFault> {
        match value.as_bool() {
            Some(truth) => Ok(truth),
            None => Err(ValueFault::invalid_type(alloc, value, "a boolean")),
        }
    }
}

impl FromToml for u32 {
    ghost Seen = { Self };

    ghost seen = { λ number. number };

    ghost reading = { u32_reading };

    fn read_value(alloc: Global, value: &Value) -> Result<Self, ValueFault> {
        let number = held_integer(alloc, value, "u32")?;
        match u32::try_from(number) {
            Ok(number) => Ok(number),
            Err(_) => Err(ValueFault::invalid_value(alloc, value, "u32")),
        }
    }
}

impl FromToml for String {
    ghost Seen = { List ℕ };

    ghost seen = { string_bytes };

    ghost reading = { text_reading };

    fn read_value(alloc: Global, value: &Value) -> Result<Self, ValueFault> {
        let text = held_text(alloc, value)?;
        match String::from_str(alloc, text) {
            Ok(text) => Ok(text),
            Err(AllocError) => Err(ValueFault::memory(alloc)),
        }
    }
}

/// A count that isn't zero.
#[derive(Clone, Copy, Debug, PartialEq, Eq)]
pub struct NonZeroCount {
    count: usize,
}

impl Model for NonZeroCount {
    ghost Value = { ℕ };

    ghost view = { λ it. it.count };

    ghost invariant = { λ it. 0 < it.count };

    ghost inverse = { λ count. record { count = count } };
}

impl NonZeroCount {
    /// The count, unless it is zero.
    pub fn new(count: usize) -> Option<Self>
        ensures some { IsSome result ↔ (0 < count) }
        ensures value { IfSome result (λ it. it ≡ count) }
    {
        if count == 0 {
            None
        } else {
            Some(NonZeroCount { count })
        }
    }

    pub fn get(self) -> usize
        ensures value { result ≡ self }
        ensures positive { 0 < result }
    {
        self.count
    }
}

impl FromToml for NonZeroCount {
    ghost Seen = { Self };

    ghost seen = { λ count. count };

    ghost reading = { count_reading };

    fn read_value(alloc: Global, value: &Value) -> Result<Self, ValueFault> {
        let number = held_integer(alloc, value, "a nonzero usize")?;
        match count_of(number) {
            Some(count) => Ok(count),
            None => Err(ValueFault::invalid_value(alloc, value, "a nonzero usize")),
        }
    }
}

// The count that a TOML integer is, if any.
fn count_of(number: i64) -> Option<NonZeroCount>
    ensures { MatchOption result ((count : ℕ) → ¬ MeansNumber IsCount number count)
        (MeansNumber IsCount number) }
{
    match usize::try_from(number) {
        Ok(count) => NonZeroCount::new(count),
        Err(_) => None,
    }
}

/// The text that the value is.
pub(crate) fn held_text<'v>(alloc: Global, value: &'v Value) -> Result<&'v str, ValueFault>
    ensures held { IfOk result (λ text. as_str (view value.now) ≡ Some text.now) }
    ensures refused { IfErr result (λ fault. (as_str (view value.now) ≡ None)
        × RefusesAs (wrong_type (view value.now) text_expected) fault) }
{
    match value.as_str() {
        Some(text) => Ok(text),
        None => Err(ValueFault::invalid_type(alloc, value, "a string")),
    }
}

// The integer that the value is.
fn held_integer(alloc: Global, value: &Value, expected: &'static str) -> Result<i64, ValueFault>
    ensures held { IfOk result (λ number. as_integer (view value.now) ≡ Some number) }
    ensures refused { IfErr result (λ fault. (as_integer (view value.now) ≡ None)
        × RefusesAs (wrong_type (view value.now) expected.now) fault) }
{
    match value.as_integer() {
        Some(number) => Ok(number),
        None => Err(ValueFault::invalid_type(alloc, value, expected)),
    }
}
