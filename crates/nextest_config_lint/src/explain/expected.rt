//! What the value of a key has to be, as people are told.

ghost use Rattle.std.specs.Prelude.{◌≡◌, IfOk, IsSome, MatchResult, option_and_then, option_map, string_bytes};
ghost use Rattle.toml.specs.View.{view};
ghost use Rattle.nextest_config_values.specs.Read.{fault_of, words_of, words_text};
ghost use Rattle.nextest_config_lint.specs.Explain.Expected.{IsExpected, IsJudged, expected_kind, expected_text, listed_words};

use crate::shapes::check_shape;
use nextest_config::nextest_version::Edition;
use nextest_config_elements::field::Shape;
use nextest_config_values::read::{FaultCause, FaultKind, ValueFault};
use std::alloc::{AllocError, Global};
use toml::Value;
use toml::value::Datetime;

// What a refusal says before it lists words, where it found an empty text.
const BEFORE_WORDS: &str = "unknown variant ``, expected ";

/// What a shape takes, as it says itself where it refuses a value.
pub(crate) fn expected_text(alloc: Global, shape: Shape) -> Result<String, AllocError>
    ensures { IfOk result (λ text. IsExpected shape (string_bytes text)) }
{
    let no_word = Value::String(String::new(alloc));
    let of_text = refusal(alloc, shape, &no_word)?;
    let moment = Value::Datetime(Datetime {
        date: None,
        time: None,
        offset: None,
    });
    let of_date = refusal(alloc, shape, &moment)?;
    let text = text_of(alloc, words_in(&of_text), kind_in(&of_date))?;
    Ok(text)
}

// How a shape refuses a value, if it does.
fn refusal(alloc: Global, shape: Shape, value: &Value) -> Result<Option<ValueFault>, AllocError>
    ensures { IfOk result (λ refusal.
        IsJudged shape (view value.now) (option_and_then fault_of refusal)) }
{
    match check_shape(alloc, Edition::ArrayAllowed, shape, value) {
        Ok(()) => Ok(None),
        Err(fault) if fault.is_memory() => Err(AllocError),
        Err(fault) => Ok(Some(fault)),
    }
}

// The words that a refusal lists, if it lists any.
fn words_in(refusal: &Option<ValueFault>) -> Option<&'static [&'static str]>
    ensures { option_map (λ words. words_of words.now) result
        ≡ option_and_then (λ fault. listed_words fault.cause)
        (option_and_then fault_of refusal.now) }
{
    match &refusal.as_ref()?.cause {
        FaultCause::Kind(FaultKind::UnknownVariant { expected, .. }) => Some(*expected),
        _ => None,
    }
}

// What a refusal expects in place of a value of another kind.
fn kind_in(refusal: &Option<ValueFault>) -> Option<&'static str>
    ensures { option_map (λ expected. expected.now) result
        ≡ option_and_then (λ fault. expected_kind fault.cause)
        (option_and_then fault_of refusal.now) }
{
    match &refusal.as_ref()?.cause {
        FaultCause::Kind(FaultKind::InvalidType { expected, .. }) => Some(*expected),
        _ => None,
    }
}

fn text_of(
    alloc: Global,
    words: Option<&'static [&'static str]>,
    expected: Option<&str>,
) -> Result<String, AllocError>
    ensures { IfOk result (λ text. string_bytes text
        ≡ expected_text (option_map (λ words. words_of words.now) words.entry)
        (option_map (λ expected. expected.now) expected.entry)) }
{
    match words {
        Some(words) => listed(alloc, words),
        None => String::from_str(alloc, expected.unwrap_or("anything")),
    }
}

// Words as a refusal lists them.
fn listed(alloc: Global, words: &'static [&'static str]) -> Result<String, AllocError>
    ensures { IfOk result (λ text. string_bytes text ≡ words_text (words_of words.now)) }
{
    let refusal = FaultKind::UnknownVariant {
        found: String::new(alloc),
        expected: words,
    };
    let text = format!(in alloc; "{refusal}")?;
    match text.as_str().strip_prefix(BEFORE_WORDS) {
        Some(words) => String::from_str(alloc, words),
        None => unreachable!(),
    }
}
