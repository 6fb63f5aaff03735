//! The regular expressions of filters: where one stands, and whether it is one.

ghost use Rattle.std.specs.Prelude.{◌≡◌, ◌≢◌, ◌⊎◌, ◌++◌, ◌∷◌, IfOk, IsOk, MatchOption, None, OnOk, Some, chars, encode_utf8_all, false, option_map, string_bytes, true};
ghost use Rattle.regex_syntax.specs.declared.error.ErrorKind.TheVariants.{OutOfMemory};
ghost use Rattle.toml_spans.specs.Characters.{slash};
ghost use Rattle.nextest_config_filters.specs.Filter.Reading.{reading_of};
ghost use Rattle.nextest_config_filters.specs.Filter.Regex.{closed_regex, is_pattern, judged_at, regex_at, regex_in, regex_of, regex_view, unescaped};
ghost use Rattle.nextest_config_filters.specs.Front.{without_first as behind_first};
ghost use Rattle.nextest_config_filters.specs.Pieces.{regex_end as end_of};

use super::FilterPlace;
use super::expression::reading_at;
use super::predicate::Predicate;
use super::reading::{Expects, FaultAt, Reading, fault_at};
use crate::fault::FilterFlaw;
use crate::front::{
    Run, begins, behind_spaces, only_blanks, split_before, split_first, split_run, without_first,
};
use crate::pieces::{Piece, behind_pieces};
use regex_syntax::{Config, ErrorKind, parse};
use std::alloc::{AllocError, Global};

// A regular expression of a filter.
#[derive(Clone, Copy, Debug)]
struct Regex<'a> {
    // With both slashes.
    whole: &'a str,
    // What stands between them.
    text: &'a str,
    // What stands behind the second.
    behind: &'a str,
}

/// Reads what stands at the front of a text, where this is expected: before all else whether a
/// regular expression there is one.
#[tactic(auto, unfolding(crate::specs::Filter::Regex::judged_at))]
pub(crate) fn judged_at(
    alloc: Global,
    place: FilterPlace,
    expects: Expects,
    text: &str,
) -> Result<Reading<'_>, AllocError>
    ensures judged { IfOk result (λ reading.
        reading_of reading ≡ judged_at place expects (chars text.now)) }
    ensures no_memory { regex_at expects (chars text.now) ≡ None → IsOk result }
{
    let Some(regex) = regex_at(expects, text) else {
        return Ok(reading_at(place, expects, text));
    };
    match refused_words(alloc, regex.text)? {
        Some(words) => Ok(Reading::Reports(FaultAt {
            words,
            ..fault_at(regex.whole, regex.behind, FilterFlaw::InvalidRegex)
        })),
        None => Ok(reading_at(place, expects, text)),
    }
}

// In which words a text between slashes is refused.
fn refused_words(alloc: Global, text: &str) -> Result<Option<&'static str>, AllocError>
    ensures { IfOk result (λ words.
        MatchOption words (is_pattern (unescaped (chars text.now)) ≡ true)
        (λ _. is_pattern (unescaped (chars text.now)) ≡ false)) }
{
    let pattern = unescaped(alloc, text)?;
    match error_of(alloc, pattern.as_str()) {
        Some(kind) => Ok(Some(words_of(kind)?)),
        None => Ok(None),
    }
}

// The words for why a text is no pattern.
fn words_of(kind: ErrorKind) -> Result<&'static str, AllocError>
    ensures { IfOk result (λ _. kind ≢ OutOfMemory) }
{
    match kind {
        ErrorKind::OutOfMemory => Err(AllocError),
        _ => Ok(kind.message()),
    }
}

// Why a text is no pattern, or that memory ran out.
#[tactic(auto, using(crate::proofs::Patterns::accepts, crate::proofs::Patterns::refuses))]
fn error_of(alloc: Global, pattern: &str) -> Option<ErrorKind>
    ensures { MatchOption result (is_pattern (chars pattern.now) ≡ true)
        (λ kind. (kind ≡ OutOfMemory) ⊎ (is_pattern (chars pattern.now) ≡ false)) }
{
    match parse(alloc, pattern, &Config::default()) {
        Ok(_) => None,
        Err(error) => Some(error.kind),
    }
}

// A text without the backslash of each `\/`.
fn unescaped(alloc: Global, text: &str) -> Result<String, AllocError>
    ensures { IfOk result (λ pattern.
        string_bytes pattern ≡ encode_utf8_all (unescaped (chars text.now))) }
{
    let mut pattern = String::new(alloc);
    let mut rest = text;
    while let Some((c, following)) = split_first(rest) {
        push_unescaped(&mut pattern, c, following)?;
        rest = following;
    }
    Ok(pattern)
}

// Writes a character, unless it is a backslash before a slash.
fn push_unescaped(pattern: &mut String, c: char, following: &str) -> Result<(), AllocError>
    ensures { OnOk result (
        string_bytes pattern.new ++ encode_utf8_all (unescaped (chars following.now))
        ≡ string_bytes pattern.old ++ encode_utf8_all (unescaped (c ∷ chars following.now))) }
{
    if c == '\\' && begins(following, '/') {
        return Ok(());
    }
    pattern.push(c)
}

// The regular expression that is read at the front of a text, where this is expected.
#[tactic(auto, unfolding(crate::specs::Filter::Regex::regex_at))]
fn regex_at(expects: Expects, text: &str) -> Option<Regex<'_>>
    ensures { option_map regex_view result ≡ regex_at expects (chars text.now) }
{
    match expects {
        Expects::Operand => regex_of(behind_spaces(text)),
        Expects::Operator => None,
    }
}

// That of a predicate.
fn regex_of(text: &str) -> Option<Regex<'_>>
    ensures { option_map regex_view result ≡ regex_of (chars text.now) }
{
    let (word, rest) = split_run(text, Run::Word);
    let predicate = Predicate::named(word)?;
    let behind = behind_spaces(rest);
    if begins(behind, '(') && !predicate.takes_none() && predicate.takes_regex() {
        regex_in(without_first(behind))
    } else {
        None
    }
}

// That behind a parenthesis.
fn regex_in(opened: &str) -> Option<Regex<'_>>
    ensures { option_map regex_view result ≡ regex_in (chars opened.now) }
{
    let text = behind_spaces(opened);
    if only_blanks(opened) && begins(text, '/') {
        closed_regex(text)
    } else {
        None
    }
}

// That at the front of a text, which a slash begins.
fn closed_regex(text: &str) -> Option<Regex<'_>>
    requires { chars text.now ≡ slash ∷ behind_first (chars text.now) }
    ensures { option_map regex_view result
        ≡ closed_regex (behind_first (chars text.now)) (end_of (behind_first (chars text.now))) }
{
    let begun = without_first(text);
    let end = behind_pieces(begun, Piece::Regex);
    let Some(('/', behind)) = split_first(end) else {
        return None;
    };
    let (inner, _) = split_before(begun, end);
    let (whole, behind) = split_before(text, behind);
    Some(Regex {
        whole,
        text: inner,
        behind,
    })
}
