//! What may be meant by what is found in a platform.

ghost use Rattle.std.specs.Prelude.{◌≡◌, IfOk, chars, option_map, string_bytes};
ghost use Rattle.std.specs.Bool.{MatchBool};
ghost use Rattle.nextest_config_filters.specs.Platform.Hint.{in_cfg, is_like_cfg, IsHintFor, IsHintInCfg, IsPlatformHint, sign_hint};
ghost use Rattle.nextest_config_filters.specs.Platform.Outcome.{IsOutcome};
ghost use Rattle.nextest_config_filters.specs.Platform.Walk.{passes};

use super::flaw::PlatformFlaw;
use super::key::target_keys;
use super::outcome::{Outcome, judged};
use crate::front::{Run, begins, behind_spaces, split_run};
use crate::text::owned;
use nextest_config_values::nearest_word::{is_same, nearest};
use std::alloc::{AllocError, Global};

/// What may be meant by what is found.
pub(crate) fn hint_of(
    alloc: Global,
    flaw: PlatformFlaw,
    found: &str,
) -> Result<Option<String>, AllocError>
    ensures { IfOk result (λ hint. IsPlatformHint flaw found.now (option_map string_bytes hint)) }
{
    match flaw {
        PlatformFlaw::FamilyName => Ok(Some(in_cfg(alloc, found)?)),
        PlatformFlaw::NoName => hint_for(alloc, found),
        PlatformFlaw::Unexpected => owned(alloc, sign_hint(found)),
        PlatformFlaw::UnknownKey => owned(alloc, nearest(alloc, found, target_keys())?),
        _ => Ok(None),
    }
}

// The text in `cfg(..)`.
fn in_cfg(alloc: Global, text: &str) -> Result<String, AllocError>
    ensures { IfOk result (λ own. string_bytes own ≡ in_cfg text.now) }
{
    format!(in alloc; "cfg({text})")
}

// What may be meant by a text that stands for a target.
fn hint_for(alloc: Global, text: &str) -> Result<Option<String>, AllocError>
    ensures { IfOk result (λ hint.
        IsHintFor (is_like_cfg (chars text.now)) text.now (option_map string_bytes hint)) }
{
    if is_like_cfg(text) {
        owned(alloc, Some("cfg(..)"))
    } else {
        hint_in_cfg(alloc, text)
    }
}

// The text in `cfg(..)`, where that passes.
fn hint_in_cfg(alloc: Global, text: &str) -> Result<Option<String>, AllocError>
    ensures { IfOk result (λ hint. IsHintInCfg text.now (option_map string_bytes hint)) }
{
    let hint = in_cfg(alloc, text)?;
    if passes(alloc, hint.as_str())? {
        Ok(Some(hint))
    } else {
        Ok(None)
    }
}

// Whether a text passes.
fn passes(alloc: Global, text: &str) -> Result<bool, AllocError>
    ensures { IfOk result (λ is.
        MatchBool is (IsOutcome (chars text.now) passes) (¬ IsOutcome (chars text.now) passes)) }
{
    match judged(alloc, text)? {
        Outcome::Passes => Ok(true),
        Outcome::Unjudged => Ok(false),
        Outcome::Wrong(_) => Ok(false),
    }
}

// What is written in other characters.
fn sign_hint(found: &str) -> Option<&'static str>
    ensures { option_map (λ hint. hint.now) result ≡ sign_hint found.now }
{
    match found {
        "&" | "&&" => Some("all(.., ..)"),
        "|" | "||" => Some("any(.., ..)"),
        "!" => Some("not(..)"),
        "'" => Some("\""),
        _ => None,
    }
}

// Whether a text is `cfg` in any letters, and behind spaces a parenthesis.
#[tactic(auto, using(crate::proofs::Characters::utf8_of_chars))]
fn is_like_cfg(text: &str) -> bool
    ensures { result ≡ is_like_cfg (chars text.now) }
{
    let (word, rest) = split_run(text, Run::Key);
    is_same(word, "cfg") && begins(behind_spaces(rest), '(')
}
