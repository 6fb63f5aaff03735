//! Durations that the grammar doesn't take, and a more generous one may.

ghost use Rattle.std.specs.Prelude.{◌≡◌, ◌↔◌, ◌++◌, ◌&&◌, ◌||◌, IfOk, IsTrue, chars, encode_utf8_all, not, position, string_bytes};
ghost use Rattle.std.specs.Char.{is_ascii_digit, is_whitespace};
ghost use Rattle.nextest_config_values.specs.Duration.{begins_with_digit, IsRun, MayBeDuration, space_then_digit, without_fractions, without_fractions_and_gaps, without_gaps};

use super::parse_duration;
use std::alloc::{AllocError, Global};

/// Whether the text is a bare `0`, or a duration once two things are left out of it: each dot
/// between two digits with the digits after it, and then the white space between two digits.
pub fn may_be_duration(alloc: Global, text: &str) -> Result<bool, AllocError>
    ensures { IfOk result (λ answer. IsTrue answer ↔ MayBeDuration text.now) }
{
    if text == "0" {
        return Ok(true);
    }
    let whole = without_fractions_and_gaps(alloc, text)?;
    Ok(parse_duration(whole.as_str()).is_ok())
}

fn without_fractions_and_gaps(alloc: Global, text: &str) -> Result<String, AllocError>
    ensures { IfOk result (λ kept. string_bytes kept ≡ without_fractions_and_gaps text.now) }
{
    let characters = characters(alloc, text)?;
    let whole = without_fractions(alloc, characters.as_slice())?;
    let joined = without_gaps(alloc, whole.as_slice())?;
    text_of(alloc, joined.as_slice())
}

#[tactic(auto, using(std::proofs::lemmas::Str::chars_from_encodes))]
fn characters(alloc: Global, text: &str) -> Result<Vec<char>, AllocError>
    ensures { IfOk result (λ characters. characters.items ≡ chars text.now) }
{
    text.chars().collect(alloc)
}

fn text_of(alloc: Global, characters: &[char]) -> Result<String, AllocError>
    ensures { IfOk result (λ text. string_bytes text ≡ encode_utf8_all characters.now) }
{
    characters.iter().copied().collect(alloc)
}

// The text without each dot between two digits and the digits after it.
fn without_fractions(alloc: Global, text: &[char]) -> Result<Vec<char>, AllocError>
    ensures { IfOk result (λ kept. kept.items ≡ without_fractions text.now) }
{
    let mut kept = Vec::new(alloc);
    let mut after_digit = false;
    let mut rest = text;
    while let [first, following @ ..] = rest {
        if after_digit && *first == '.' && begins_with_digit(following) {
            let (_, after) = split_digits(following);
            rest = after;
        } else {
            kept.push(*first)?;
            after_digit = first.is_ascii_digit();
            rest = following;
        }
    }
    Ok(kept)
}

// The text without the white space between two digits.
fn without_gaps(alloc: Global, text: &[char]) -> Result<Vec<char>, AllocError>
    ensures { IfOk result (λ kept. kept.items ≡ without_gaps text.now) }
{
    let mut kept = Vec::new(alloc);
    let mut after_digit = false;
    let mut in_gap = false;
    let mut rest = text;
    while let [first, following @ ..] = rest {
        in_gap = is_in_gap(after_digit, in_gap, *first, following);
        if !in_gap {
            kept.push(*first)?;
            after_digit = first.is_ascii_digit();
        }
        rest = following;
    }
    Ok(kept)
}

// Whether the character is white space between two digits. Within a gap it is known that a digit
// comes next, so that each gap is looked through once.
fn is_in_gap(after_digit: bool, in_gap: bool, first: char, following: &[char]) -> bool
    ensures { result
        ≡ (after_digit && (is_whitespace first && (in_gap || space_then_digit following.now))) }
{
    after_digit && first.is_whitespace() && (in_gap || space_then_digit(following))
}

fn begins_with_digit(text: &[char]) -> bool
    ensures { result ≡ begins_with_digit text.now }
{
    match text.first() {
        Some(first) => first.is_ascii_digit(),
        None => false,
    }
}

// The digits at the beginning of the text, and what comes after them.
fn split_digits(text: &[char]) -> (&[char], &[char])
    ensures whole { text.now ≡ result.0.now ++ result.1.now }
    ensures is_run { IsRun is_ascii_digit result.0.now result.1.now }
{
    text.split_at(first_after_digits(text).unwrap_or(text.len()))
}

// Whether a digit comes next, or white space and then a digit.
fn space_then_digit(text: &[char]) -> bool
    ensures { result ≡ space_then_digit text.now }
{
    let (_, after) = text.split_at(first_after_space(text).unwrap_or(text.len()));
    begins_with_digit(after)
}

// The place of the first character that is no digit.
fn first_after_digits(text: &[char]) -> Option<usize>
    ensures { result ≡ position (λ c. not (is_ascii_digit c)) text.now }
{
    text.iter().position(|c| !c.is_ascii_digit())
}

// The place of the first character that is no white space.
fn first_after_space(text: &[char]) -> Option<usize>
    ensures { result ≡ position (λ c. not (is_whitespace c)) text.now }
{
    text.iter().position(|c| !c.is_whitespace())
}
