//! What is found in a text, from its first character that is no space on.

ghost use Rattle.std.specs.Prelude.{◌≡◌, Some, chars, codes, false, IfOk, IsOk};
ghost use Rattle.std.specs.List.{list_any};
ghost use Rattle.nextest_config_filters.specs.Front.{behind};
ghost use Rattle.nextest_config_filters.specs.Platform.Outcome.{in_no_name, is_closed, is_mark, IsCfgOutcome, IsOutcome, IsShallow, name_flaw, outside, StaysShallow};
ghost use Rattle.nextest_config_filters.specs.Platform.Steps.{outcome_view};
ghost use Rattle.nextest_config_filters.specs.Platform.Walk.{start};
ghost use Rattle.std.specs.Str.{drop_trailing_whitespace as without_spaces_behind};

use super::flaw::PlatformFlaw;
use super::key::{families, systems};
use super::reading::{FaultAt, not_closed};
use super::walk::{first_level, walk};
use crate::front::{behind, split_first, split_front, without_spaces_behind};
use crate::text::{is_one_of, size};
use std::alloc::{AllocError, Global};

/// What is found in a text.
#[derive(Clone, Copy, Debug)]
pub(crate) enum Outcome<'a> {
    Passes,
    /// It isn't judged from a place on.
    Unjudged,
    Wrong(FaultAt<'a>),
}

/// What is found in a text that begins with no space.
pub(crate) fn judged(alloc: Global, text: &str) -> Result<Outcome<'_>, AllocError>
    ensures found { IfOk result (λ outcome. IsOutcome (chars text.now) (outcome_view outcome)) }
    ensures no_memory { IsShallow (chars text.now) → IsOk result }
{
    match behind(text, "cfg(") {
        Some(opened) => {
            let outcome = judged_cfg(alloc, text, opened)?;
            Ok(outcome)
        }
        None => Ok(outside(text)),
    }
}

// What is found in `cfg(..)` at the front of a text, whose parenthesis stands before this.
fn judged_cfg<'a>(alloc: Global, text: &str, opened: &'a str) -> Result<Outcome<'a>, AllocError>
    requires { behind (codes "cfg(") (chars text.now) ≡ Some (chars opened.now) }
    ensures found { IfOk result (λ outcome.
        IsCfgOutcome (is_closed false (without_spaces_behind (chars text.now))) (chars text.now)
        (chars opened.now) (outcome_view outcome)) }
    ensures no_memory { StaysShallow (start (chars text.now) (chars opened.now)) → IsOk result }
{
    if is_closed(without_spaces_behind(text)) {
        let outcome = walk(alloc, text, opened)?;
        Ok(outcome)
    } else {
        Ok(Outcome::Wrong(not_closed(first_level(text, opened))))
    }
}

// Whether the last character is a parenthesis that closes.
fn is_closed(text: &str) -> bool
    ensures { result ≡ is_closed false (chars text.now) }
{
    let mut rest = text;
    let mut closed = false;
    while let Some((c, following)) = split_first(rest) {
        closed = c == ')';
        rest = following;
    }
    closed
}

// What is found outside of `cfg(..)`.
fn outside(text: &str) -> Outcome<'_>
    ensures { outcome_view result ≡ outside (chars text.now) }
{
    let name = without_spaces_behind(text);
    let (name, behind) = split_front(text, name);
    match name_flaw(name) {
        Some(flaw) => Outcome::Wrong(FaultAt {
            from: size(text),
            behind: size(behind),
            flaw,
            found: name,
        }),
        None => Outcome::Passes,
    }
}

// What is wrong with a word that stands for a target.
fn name_flaw(name: &str) -> Option<PlatformFlaw>
    ensures { result ≡ name_flaw (chars name.now) }
{
    if is_one_of(name, families()) {
        Some(PlatformFlaw::FamilyName)
    } else if is_one_of(name, systems()) {
        Some(PlatformFlaw::SystemName)
    } else if has_mark(name) {
        Some(PlatformFlaw::NoName)
    } else {
        None
    }
}

// Whether a character stands there that stands in no name of a target.
fn has_mark(name: &str) -> bool
    ensures { result ≡ list_any in_no_name (chars name.now) }
{
    name.chars().any(|c| in_no_name(c))
}

// Whether the character stands in no name of a target.
fn in_no_name(c: char) -> bool
    ensures { result ≡ in_no_name c }
{
    c.is_whitespace() || is_mark(c)
}

fn is_mark(c: char) -> bool
    ensures { result ≡ is_mark c }
{
    matches!(
        c,
        '(' | ')'
            | '='
            | '!'
            | ','
            | '&'
            | '|'
            | '<'
            | '>'
            | '"'
            | '\''
            | '`'
            | ';'
            | '{'
            | '}'
            | '['
            | ']'
    )
}
