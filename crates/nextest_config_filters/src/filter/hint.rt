//! What may be meant by what is found.

ghost use Rattle.std.specs.Prelude.{◌≡◌, IfOk, chars, option_map, string_bytes};
ghost use Rattle.nextest_config_filters.specs.Filter.Hint.{brackets, expression_hint, IsByNearest, IsHint, name_hint, operator_hint, other_name, predicate_hint};
ghost use Rattle.nextest_config_filters.specs.Filter.Predicate.{predicate_named, suggested};

use super::predicate::{Predicate, suggested};
use crate::fault::{Expected, FilterFlaw};
use crate::text::owned;
use nextest_config_values::nearest_word::{is_same, nearest};
use std::alloc::{AllocError, Global};

/// What may be meant by what is found, in a text.
pub(crate) fn hint_of(
    alloc: Global,
    text: &str,
    flaw: FilterFlaw,
    found: &str,
) -> Result<Option<String>, AllocError>
    ensures { IfOk result (λ hint. IsHint text.now flaw found.now (option_map string_bytes hint)) }
{
    match flaw {
        FilterFlaw::Unexpected(expected) => hint_of_other(alloc, text, expected, found),
        FilterFlaw::UnknownPredicate => name_hint(alloc, found),
        _ => Ok(None),
    }
}

// What may be meant in place of what is expected.
fn hint_of_other(
    alloc: Global,
    text: &str,
    expected: Expected,
    found: &str,
) -> Result<Option<String>, AllocError>
    ensures { IfOk result (λ hint. IsHint text.now (FilterFlaw.Unexpected expected) found.now
        (option_map string_bytes hint)) }
{
    match expected {
        Expected::Expression => owned(alloc, expression_hint(found)),
        Expected::Operator => owned(alloc, operator_hint(found)),
        Expected::PredicateAndArgument => predicate_hint(alloc, text, found),
        _ => Ok(None),
    }
}

// `not` in other letters.
fn expression_hint(found: &str) -> Option<&'static str>
    ensures { option_map (λ hint. hint.now) result ≡ expression_hint found.now }
{
    if is_same(found, "not") {
        Some("not")
    } else {
        None
    }
}

// The operator that is written otherwise.
fn operator_hint(found: &str) -> Option<&'static str>
    ensures { option_map (λ hint. hint.now) result ≡ operator_hint found.now }
{
    if found == "&&" {
        Some("&")
    } else if found == "||" {
        Some("|")
    } else if is_same(found, "and") {
        Some("and")
    } else if is_same(found, "or") {
        Some("or")
    } else {
        None
    }
}

// The nearest name with its argument, or else, where the text is the word but for spaces, the word
// as the argument of `test`.
fn predicate_hint(alloc: Global, text: &str, found: &str) -> Result<Option<String>, AllocError>
    ensures { IfOk result (λ hint.
        IsByNearest found.now (predicate_hint text.now found.now) (option_map string_bytes hint)) }
{
    match nearest(alloc, found, suggested())? {
        Some(name) => Ok(Some(format!(in alloc; "{name}{}", brackets(name))?)),
        None => word_hint(alloc, text, found),
    }
}

// Where the text is the word but for spaces, the word as the argument of `test`.
fn word_hint(alloc: Global, text: &str, found: &str) -> Result<Option<String>, AllocError>
    ensures { IfOk result (λ hint.
        option_map string_bytes hint ≡ predicate_hint text.now found.now None) }
{
    if text.trim() == found {
        Ok(Some(format!(in alloc; "test({found})")?))
    } else {
        Ok(None)
    }
}

// What the argument of a predicate looks like.
fn brackets(name: &str) -> &'static str
    ensures { result.now ≡ brackets (predicate_named (chars name.now)) }
{
    match Predicate::named(name) {
        Some(predicate) if predicate.takes_none() => "()",
        _ => "(..)",
    }
}

// The nearest name, or else what the word is called here.
fn name_hint(alloc: Global, found: &str) -> Result<Option<String>, AllocError>
    ensures { IfOk result (λ hint.
        IsByNearest found.now (name_hint found.now) (option_map string_bytes hint)) }
{
    let name = nearest(alloc, found, suggested())?;
    owned(alloc, name.or(other_name(found)))
}

// What other runners and languages call a predicate.
fn other_name(found: &str) -> Option<&'static str>
    ensures { option_map (λ name. name.now) result ≡ other_name found.now }
{
    match found {
        "pkg" | "crate" => Some("package"),
        "name" => Some("test"),
        "bin" => Some("binary"),
        "id" => Some("binary_id"),
        _ => None,
    }
}
