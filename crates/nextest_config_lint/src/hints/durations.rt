//! Durations that are meant by numbers without a unit.

ghost use Rattle.std.specs.Prelude.{◌≡◌, ◌↔◌, IfOk, IsTrue, option_map, string_bytes};
ghost use Rattle.std.specs.Char.{is_ascii_digit};
ghost use Rattle.std.specs.List.{list_all};
ghost use Rattle.toml.specs.View.{view};
ghost use Rattle.nextest_config_lint.specs.Found.{Suggests};
ghost use Rattle.nextest_config_lint.specs.Hints.Durations.{digits_of, digits_of_number, digits_of_text, IsDurationHint, IsDurationText, IsEitherHint, IsLongText, IsSecondsHint, IsShortHint, seconds_text};

use crate::finding::Hint;
use nextest_config_values::duration::parse_duration;
use std::alloc::{AllocError, Global};
use toml::Value;

// From how many nanoseconds on a duration is long: a hundred seconds.
const LONG: u128 = 100_000_000_000;

/// The value with the unit of seconds, if that is a duration.
pub(crate) fn duration_hint(alloc: Global, value: &Value) -> Result<Option<Hint>, AllocError>
    ensures { IfOk result (Suggests (IsDurationHint (digits_of (view value.now)))) }
{
    match digits_of(alloc, value)? {
        Some(digits) => seconds_hint(alloc, digits.as_str()),
        None => Ok(None),
    }
}

/// Where durations are short as a rule: the value with the unit of seconds, and where that is long,
/// with that of milliseconds or of seconds.
pub(crate) fn short_duration_hint(alloc: Global, value: &Value) -> Result<Option<Hint>, AllocError>
    ensures { IfOk result (Suggests (IsShortHint (digits_of (view value.now)))) }
{
    match digits_of(alloc, value)? {
        Some(digits) => either_hint(alloc, digits.as_str()),
        None => Ok(None),
    }
}

fn either_hint(alloc: Global, digits: &str) -> Result<Option<Hint>, AllocError>
    ensures { IfOk result (Suggests (IsEitherHint digits.now)) }
{
    if are_long(alloc, digits)? {
        let text = format!(in alloc; "\"{digits}ms\" or \"{digits}s\"")?;
        return Ok(Some(Hint::Toml(text)));
    }
    seconds_hint(alloc, digits)
}

// Whether so many seconds are long.
fn are_long(alloc: Global, digits: &str) -> Result<bool, AllocError>
    ensures { IfOk result (λ long. IsTrue long ↔ IsLongText (seconds_text digits.now)) }
{
    let text = format!(in alloc; "{digits}s")?;
    Ok(is_long(text.as_str()))
}

fn is_long(text: &str) -> bool
    ensures { IsTrue result ↔ IsLongText text.now }
{
    match parse_duration(text) {
        Ok(duration) => duration.as_nanos() >= LONG,
        Err(_) => false,
    }
}

fn seconds_hint(alloc: Global, digits: &str) -> Result<Option<Hint>, AllocError>
    ensures { IfOk result (Suggests (IsSecondsHint digits.now)) }
{
    let text = format!(in alloc; "{digits}s")?;
    if is_duration(text.as_str()) {
        return Ok(Some(Hint::Word(text)));
    }
    Ok(None)
}

fn is_duration(text: &str) -> bool
    ensures { IsTrue result ↔ IsDurationText text.now }
{
    match parse_duration(text) {
        Ok(_) => true,
        Err(_) => false,
    }
}

// The digits of an integer that isn't negative, or of a text of digits.
fn digits_of(alloc: Global, value: &Value) -> Result<Option<String>, AllocError>
    ensures { IfOk result (λ text. option_map string_bytes text ≡ digits_of (view value.now)) }
{
    if let Some(number) = value.as_integer() {
        return digits_of_number(alloc, number);
    }
    match value.as_str() {
        Some(text) => digits_of_text(alloc, text),
        None => Ok(None),
    }
}

fn digits_of_number(alloc: Global, number: i64) -> Result<Option<String>, AllocError>
    ensures { IfOk result (λ text. option_map string_bytes text ≡ digits_of_number number) }
{
    match u64::try_from(number) {
        Ok(number) => {
            let text = format!(in alloc; "{number}")?;
            Ok(Some(text))
        }
        Err(_) => Ok(None),
    }
}

fn digits_of_text(alloc: Global, text: &str) -> Result<Option<String>, AllocError>
    ensures { IfOk result (λ digits. option_map string_bytes digits ≡ digits_of_text text.now) }
{
    if !are_digits(text) {
        return Ok(None);
    }
    let digits = String::from_str(alloc, text)?;
    Ok(Some(digits))
}

fn are_digits(text: &str) -> bool
    ensures { result ≡ list_all is_ascii_digit text.now }
{
    text.bytes().all(|byte| byte.is_ascii_digit())
}
