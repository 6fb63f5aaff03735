//! The keys of `cfg(..)`, and the words that stand in place of it.

ghost use Rattle.std.specs.Prelude.{◌≡◌, None, Some, chars, map, option_map};
ghost use Rattle.std.specs.Char.{is_ascii_digit};
ghost use Rattle.std.specs.List.{list_all};
ghost use Rattle.nextest_config_values.specs.Read.{words_of};
ghost use Rattle.nextest_config_filters.specs.Platform.Key.{families, groups, is_number, is_unknown, is_wrong_width, key_flaw, needs_value, other_keys, systems, target_keys, unknown_flaw};
ghost use Rattle.nextest_config_filters.specs.Text.{is_one_of};

use super::flaw::PlatformFlaw;
use super::near::is_near_one_of;
use crate::front::{behind, split_first};
use crate::text::{is_one_of, is_same_text};

/// The families of targets, keys that take no value.
#[tactic(auto, using(crate::proofs::Characters::ascii_chars))]
pub(crate) fn families() -> &'static [&'static str]
    ensures { map chars (words_of result.now) ≡ families }
{
    &["unix", "windows"]
}

/// Operating systems that are taken for names of targets.
#[tactic(auto, using(crate::proofs::Characters::ascii_chars))]
pub(crate) fn systems() -> &'static [&'static str]
    ensures { map chars (words_of result.now) ≡ systems }
{
    &[
        "linux", "macos", "android", "ios", "freebsd", "netbsd", "openbsd",
    ]
}

/// The names of groups.
#[tactic(auto, using(crate::proofs::Characters::ascii_chars))]
pub(crate) fn groups() -> &'static [&'static str]
    ensures { map chars (words_of result.now) ≡ groups }
{
    &["all", "any", "not"]
}

/// The keys that are suggested, which need a value.
#[tactic(auto, using(crate::proofs::Characters::ascii_chars))]
pub(crate) fn target_keys() -> &'static [&'static str]
    ensures words { words_of result.now ≡ target_keys }
    ensures characters { map chars (words_of result.now) ≡ target_keys }
{
    &[
        "target_arch",
        "target_feature",
        "target_os",
        "target_family",
        "target_env",
        "target_abi",
        "target_endian",
        "target_pointer_width",
        "target_vendor",
        "target_has_atomic",
    ]
}

// Other keys that need a value.
#[tactic(auto, using(crate::proofs::Characters::ascii_chars))]
fn other_keys() -> &'static [&'static str]
    ensures { map chars (words_of result.now) ≡ other_keys }
{
    &["feature", "panic"]
}

/// What is wrong with a key with this value, or with none.
pub(crate) fn key_flaw(key: &str, value: Option<&str>) -> Option<PlatformFlaw>
    ensures { result
        ≡ key_flaw (chars key.now) (option_map (λ value. chars value.now) value.entry) }
{
    match value {
        Some(value) => value_flaw(key, value),
        None => no_value_flaw(key),
    }
}

// What is wrong with a key without a value.
fn no_value_flaw(key: &str) -> Option<PlatformFlaw>
    ensures { result ≡ key_flaw (chars key.now) None }
{
    if needs_value(key) {
        Some(PlatformFlaw::NoValue)
    } else {
        unknown_flaw(key)
    }
}

// What is wrong with a key with this value.
fn value_flaw(key: &str, value: &str) -> Option<PlatformFlaw>
    ensures { result ≡ key_flaw (chars key.now) (Some (chars value.now)) }
{
    if is_one_of(key, families()) {
        Some(PlatformFlaw::UnwantedValue)
    } else if is_wrong_width(key, value) {
        Some(PlatformFlaw::NoNumber)
    } else {
        unknown_flaw(key)
    }
}

// Whether the width of pointers is no number.
fn is_wrong_width(key: &str, value: &str) -> bool
    ensures { result ≡ is_wrong_width (chars key.now) (chars value.now) }
{
    is_same_text(key, "target_pointer_width") && !is_number(value)
}

fn unknown_flaw(key: &str) -> Option<PlatformFlaw>
    ensures { result ≡ unknown_flaw (chars key.now) }
{
    if is_unknown(key) {
        Some(PlatformFlaw::UnknownKey)
    } else {
        None
    }
}

// Whether no key is called so, but one of a target that two edits at most lead to.
#[tactic(auto, using(crate::proofs::Characters::ascii_chars))]
fn is_unknown(key: &str) -> bool
    ensures { result ≡ is_unknown (chars key.now) }
{
    behind(key, "target_").is_some()
        && !is_one_of(key, target_keys())
        && is_near_one_of(key, target_keys())
}

fn needs_value(key: &str) -> bool
    ensures { result ≡ needs_value (chars key.now) }
{
    is_one_of(key, target_keys()) || is_one_of(key, other_keys())
}

// Whether a value is of ASCII digits.
fn is_number(value: &str) -> bool
    ensures { result ≡ is_number (chars value.now) }
{
    match split_first(value) {
        Some((_, _)) => are_digits(value),
        None => false,
    }
}

fn are_digits(value: &str) -> bool
    ensures { result ≡ list_all is_ascii_digit (chars value.now) }
{
    value.chars().all(|c| c.is_ascii_digit())
}
