//! Texts that few edits of a character lead from one to another.

ghost use Rattle.std.specs.Prelude.{◌≡◌, chars, map};
ghost use Rattle.std.specs.List.{list_any};
ghost use Rattle.nextest_config_values.specs.Read.{words_of};
ghost use Rattle.nextest_config_filters.specs.Platform.Near.{behind_same, is_within_one, is_within_two};

use crate::front::{split_first, without_first};
use crate::text::is_same_text;

/// Whether one of these words is at most two edits away.
pub(crate) fn is_near_one_of(text: &str, words: &[&str]) -> bool
    ensures { result ≡ list_any (is_within_two (chars text.now)) (map chars (words_of words.now)) }
{
    for &word in words {
        if is_within_two(text, word) {
            return true;
        }
    }
    false
}

// Whether at most two edits lead from one to the other.
fn is_within_two(one: &str, other: &str) -> bool
    ensures { result ≡ is_within_two (chars one.now) (chars other.now) }
{
    let (one, other) = behind_same(one, other);
    is_within_one(without_first(one), other)
        || is_within_one(one, without_first(other))
        || is_within_one(without_first(one), without_first(other))
}

// Whether at most one does.
fn is_within_one(one: &str, other: &str) -> bool
    ensures { result ≡ is_within_one (chars one.now) (chars other.now) }
{
    let (one, other) = behind_same(one, other);
    is_same_text(without_first(one), other)
        || is_same_text(one, without_first(other))
        || is_same_text(without_first(one), without_first(other))
}

// What stands in both behind the front that both have.
fn behind_same<'a, 'b>(one: &'a str, other: &'b str) -> (&'a str, &'b str)
    ensures { (chars result.0.now, chars result.1.now)
        ≡ behind_same (chars one.now) (chars other.now) }
{
    let mut left = one;
    let mut right = other;
    while let Some((c, behind)) = split_first(left) {
        match split_first(right) {
            Some((d, following)) if c == d => {
                left = behind;
                right = following;
            }
            _ => break,
        }
    }
    (left, right)
}
