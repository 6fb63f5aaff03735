//! Hints: what may be meant by what is refused.

ghost use Rattle.std.specs.Prelude.{◌≡◌, IfOk, IfSome, option_map};
ghost use Rattle.toml.specs.Data.{as_integer, as_str, as_table};
ghost use Rattle.toml.specs.View.{view};
ghost use Rattle.nextest_config_values.specs.Read.{cause_of, fault_of, words_of};
ghost use Rattle.nextest_config_elements.specs.Fields.{field_words, fields_view};
ghost use Rattle.nextest_config_lint.specs.Found.{IsNearestSuggestion, suggestion_of, Suggests, the_word};
ghost use Rattle.nextest_config_lint.specs.Hints.{IsFaultHint, IsHintAt, IsLimitHint, IsValueHint, limit_of_count, suggested_tables, unknown_word_in};
ghost use Rattle.nextest_config_lint.specs.Settings.{setting_view};

mod durations;
mod written;

use crate::finding::Hint;
use crate::hints::durations::{duration_hint, short_duration_hint};
use crate::hints::written::written_hint;
use crate::settings::{Setting, Subject, keys_of};
use nextest_config_elements::field::{Field, Shape};
use nextest_config_values::nearest_word::nearest;
use nextest_config_values::read::{FaultCause, FaultKind, ValueFault};
use std::alloc::{AllocError, Global};
use toml::Value;
use toml_spans::PathText;

/// What may be meant by what is refused.
pub(crate) fn hint_of(
    alloc: Global,
    setting: &Setting,
    fault: &ValueFault,
) -> Result<Option<Hint>, AllocError>
    ensures { IfOk result (λ hint. IfSome (fault_of fault.now) (λ seen.
        IsFaultHint (setting_view setting.now) seen (option_map suggestion_of hint))) }
{
    match setting.subject {
        Subject::Value { shape, value, .. } => {
            hint_of_value(alloc, setting, shape, value, &fault.cause)
        }
        Subject::RefusedKey { name, known, .. } => hint_among(alloc, name, known),
        Subject::AbsentKey(_) | Subject::Between(_, _) | Subject::Features(_) => Ok(None),
    }
}

// What may be meant by a value that is refused.
fn hint_of_value(
    alloc: Global,
    setting: &Setting,
    shape: Shape,
    value: &Value,
    cause: &FaultCause,
) -> Result<Option<Hint>, AllocError>
    ensures { IfOk result (λ hint. IfSome (cause_of cause.now) (λ seen.
        IsValueHint (unknown_word_in seen) (setting_view setting.now).path shape
        (view value.now)
        (option_map suggestion_of hint))) }
{
    match unknown_word_in(cause) {
        Some((name, known)) => nearest_hint(alloc, name, known),
        None => hint_at(alloc, setting, shape, value),
    }
}

// The key that an unknown one may be meant for.
fn hint_among(alloc: Global, name: &str, known: &[Field]) -> Result<Option<Hint>, AllocError>
    ensures { IfOk result (Suggests (IsNearestSuggestion (field_words (fields_view known.now))
        name.now)) }
{
    let words = keys_of(alloc, known)?;
    nearest_hint(alloc, name, words.as_slice())
}

// The word that is refused as unknown, and the known ones.
fn unknown_word_in(cause: &FaultCause) -> Option<(&str, &'static [&'static str])>
    ensures { IfSome (cause_of cause.now) (λ seen.
        option_map (λ unknown. (unknown.0.now, words_of unknown.1.now)) result
        ≡ unknown_word_in seen) }
{
    match cause {
        FaultCause::Kind(FaultKind::UnknownVariant { found, expected }) => {
            Some((found.as_str(), expected))
        }
        _ => None,
    }
}

// What may be meant by a value in place of one of its shape.
fn hint_at(
    alloc: Global,
    setting: &Setting,
    shape: Shape,
    value: &Value,
) -> Result<Option<Hint>, AllocError>
    ensures { IfOk result (Suggests (IsHintAt (setting_view setting.now).path shape
        (view value.now))) }
{
    match shape {
        Shape::SlowTimeout | Shape::Duration => duration_hint(alloc, value),
        Shape::LeakTimeout | Shape::ShortDuration => short_duration_hint(alloc, value),
        Shape::FailFast => limit_hint(alloc, value),
        Shape::Array => tables_hint(alloc, setting, value),
        _ => written_hint(alloc, shape, value),
    }
}

// The table with a limit of so many failures, or the boolean that a text writes.
fn limit_hint(alloc: Global, value: &Value) -> Result<Option<Hint>, AllocError>
    ensures { IfOk result (Suggests (IsLimitHint (as_integer (view value.now))
        (as_str (view value.now)))) }
{
    match value.as_integer() {
        Some(number) => count_hint(alloc, number),
        None => written_hint(alloc, Shape::FailFast, value),
    }
}

fn count_hint(alloc: Global, number: i64) -> Result<Option<Hint>, AllocError>
    ensures { IfOk result (λ hint. option_map suggestion_of hint ≡ limit_of_count number) }
{
    if number < 1 {
        return Ok(None);
    }
    let text = format!(in alloc; "{{ max-fail = {number} }}")?;
    Ok(Some(Hint::Toml(text)))
}

// The header of an array of tables, for a table.
fn tables_hint(alloc: Global, setting: &Setting, value: &Value) -> Result<Option<Hint>, AllocError>
    ensures { IfOk result (λ hint. option_map suggestion_of hint
        ≡ suggested_tables (setting_view setting.now).path (as_table (view value.now))) }
{
    match value.as_table() {
        Some(_) => {
            let path = setting.steps(alloc)?;
            let text = format!(in alloc; "[[{}]]", PathText(path.as_slice()))?;
            Ok(Some(Hint::Toml(text)))
        }
        None => Ok(None),
    }
}

/// The word that a name may be meant for, of these words.
pub(crate) fn nearest_hint(
    alloc: Global,
    name: &str,
    words: &[&str],
) -> Result<Option<Hint>, AllocError>
    ensures { IfOk result (Suggests (IsNearestSuggestion (words_of words.now) name.now)) }
{
    let word = nearest(alloc, name, words)?;
    word_hint(alloc, word)
}

/// The hint of a word, where there is one.
pub(crate) fn word_hint(alloc: Global, word: Option<&str>) -> Result<Option<Hint>, AllocError>
    ensures { IfOk result (λ hint. option_map suggestion_of hint
        ≡ option_map the_word (option_map (λ word. word.now) word.entry)) }
{
    match word {
        Some(word) => Ok(Some(Hint::Word(String::from_str(alloc, word)?))),
        None => Ok(None),
    }
}
