//! What is read of `cfg(..)` at a place, by what stands before it.

ghost use Rattle.std.specs.Prelude.{◌≡◌, ◌∷◌, chars, option_map};
ghost use Rattle.toml_spans.specs.Characters.{double_quote};
ghost use Rattle.nextest_config_filters.specs.Front.{closing, in_key, run};
ghost use Rattle.nextest_config_filters.specs.Platform.Key.{key_flaw};
ghost use Rattle.nextest_config_filters.specs.Platform.Member.{behind_token, behind_value, is_end, is_follower, is_raw, read, read_closing, read_follower, read_group, read_judged, read_key, read_quoted, read_value, read_word, reading_at, takes_closing, takes_comma, takes_end, takes_member, unexpected, unexpected_value};
ghost use Rattle.nextest_config_filters.specs.Platform.Reading.{reading_of};

use super::flaw::PlatformFlaw;
use super::key::{groups, key_flaw};
use super::reading::{After, Level, Reading, fault_between, fault_up_to};
use crate::front::{
    Run, begins, begins_key, behind_run, behind_spaces, is_doubled, split_first, split_run,
    without_first,
};
use crate::text::{is_one_of, is_same_text, size};

impl After {
    fn takes_member(self) -> bool
        ensures { result ≡ takes_member self }
    {
        !matches!(self, After::Member)
    }

    fn takes_comma(self) -> bool
        ensures { result ≡ takes_comma self }
    {
        matches!(self, After::Comma | After::Member)
    }

    fn takes_closing(self) -> bool
        ensures { result ≡ takes_closing self }
    {
        !matches!(self, After::Nothing)
    }

    fn takes_end(self) -> bool
        ensures { result ≡ takes_end self }
    {
        !matches!(self, After::Opening)
    }
}

/// What is read at a place.
#[tactic(auto, unfolding(crate::specs::Platform::Member::reading_at))]
pub(crate) fn reading_at(after: After, text: &str) -> Reading<'_>
    ensures { reading_of result ≡ reading_at after (chars text.now) }
{
    read(after, behind_spaces(text))
}

// The same, behind spaces.
fn read(after: After, text: &str) -> Reading<'_>
    ensures { reading_of result ≡ read after (chars text.now) }
{
    match split_first(text) {
        Some((c, rest)) if is_raw(c, rest) => Reading::Unjudged,
        Some((c, _)) if begins_key(c) && after.takes_member() => read_word(text),
        Some((',', rest)) if after.takes_comma() => Reading::Separates(rest),
        Some((')', rest)) => read_closing(after, text, rest),
        _ => unexpected(text),
    }
}

// Whether this character and the text behind it begin with `r#`.
fn is_raw(c: char, rest: &str) -> bool
    ensures { result ≡ is_raw c (chars rest.now) }
{
    c == 'r' && begins(rest, '#')
}

// Whether this character, before this text, is the parenthesis at the end.
fn is_end(c: char, rest: &str) -> bool
    ensures { result ≡ is_end c (chars rest.now) }
{
    c == ')' && split_first(behind_spaces(rest)).is_none()
}

// A parenthesis that closes, at the front of a text.
fn read_closing<'a>(after: After, text: &'a str, rest: &'a str) -> Reading<'a>
    requires { chars text.now ≡ closing ∷ chars rest.now }
    ensures { reading_of result ≡ read_closing after (chars rest.now) }
{
    if is_end(')', rest) {
        if after.takes_end() {
            return Reading::Ends(rest);
        }
    } else if after.takes_closing() {
        return Reading::Closes(text);
    }
    unexpected(text)
}

// ---- members

// A key or a group.
fn read_word(text: &str) -> Reading<'_>
    ensures { reading_of result ≡ read_word (chars text.now) }
{
    let (word, rest) = split_run(text, Run::Key);
    if is_one_of(word, groups()) {
        read_group(text, word, behind_spaces(rest))
    } else {
        read_key(text, behind_spaces(rest))
    }
}

// What stands behind the name of a group at the front of a text.
#[tactic(auto, using(crate::proofs::Characters::ascii_chars))]
fn read_group<'a>(text: &'a str, name: &str, rest: &'a str) -> Reading<'a>
    requires { chars name.now ≡ run in_key (chars text.now) }
    ensures { reading_of result ≡ read_group (chars text.now) (chars rest.now) }
{
    match split_first(rest) {
        Some(('(', opened)) => {
            let level = Level {
                is_not: is_same_text(name, "not"),
                from: size(text),
                opening: size(rest),
                opened: size(opened),
                members: 0,
            };
            Reading::Opens(level, opened)
        }
        _ => unexpected(rest),
    }
}

// What stands behind a key at the front of a text.
fn read_key<'a>(text: &'a str, rest: &'a str) -> Reading<'a>
    ensures { reading_of result ≡ read_key (chars text.now) (chars rest.now) }
{
    match split_first(rest) {
        Some(('=', rest)) => read_value(text, behind_spaces(rest)),
        _ => read_follower(text, None, rest),
    }
}

// What stands in place of the value of a key.
fn read_value<'a>(text: &'a str, rest: &'a str) -> Reading<'a>
    ensures { reading_of result ≡ read_value (chars text.now) (chars rest.now) }
{
    match split_first(rest) {
        Some(('"', quoted)) => read_quoted(text, rest, quoted),
        _ => unexpected(rest),
    }
}

// What stands behind a quote in place of the value of a key.
fn read_quoted<'a>(text: &'a str, value: &'a str, quoted: &'a str) -> Reading<'a>
    requires { chars value.now ≡ double_quote ∷ chars quoted.now }
    ensures { reading_of result
        ≡ read_quoted (chars text.now) (behind_value (chars quoted.now)) (chars quoted.now) }
{
    let (inner, end) = split_run(quoted, Run::Value);
    match split_first(end) {
        Some((_, rest)) => read_follower(text, Some(inner), behind_spaces(rest)),
        None => unexpected(value),
    }
}

// What stands behind a key with its value, or with none.
fn read_follower<'a>(text: &'a str, value: Option<&str>, rest: &'a str) -> Reading<'a>
    ensures { reading_of result ≡ read_follower (chars text.now)
        (option_map (λ value. chars value.now) value.entry) (chars rest.now) }
{
    if is_follower(rest) {
        read_judged(text, value, rest)
    } else {
        unexpected(rest)
    }
}

// Whether a comma, a parenthesis that closes or nothing stands there.
fn is_follower(text: &str) -> bool
    ensures { result ≡ is_follower (chars text.now) }
{
    match split_first(text) {
        Some((c, _)) => c == ',' || c == ')',
        None => true,
    }
}

// What is wrong with a key with this value, or with none.
fn read_judged<'a>(text: &'a str, value: Option<&str>, rest: &'a str) -> Reading<'a>
    ensures { reading_of result ≡ read_judged
        (key_flaw (run in_key (chars text.now)) (option_map (λ value. chars value.now) value.entry))
        (chars text.now) (chars rest.now) }
{
    let (key, behind) = split_run(text, Run::Key);
    match key_flaw(key, value) {
        Some(flaw) => Reading::Reports(fault_up_to(text, behind, flaw)),
        None => Reading::Member(rest),
    }
}

// ---- what isn't expected

// Something else is expected than what stands at the front of a text.
fn unexpected(text: &str) -> Reading<'_>
    ensures { reading_of result ≡ unexpected (chars text.now) }
{
    match split_first(text) {
        Some((c, rest)) if is_raw(c, rest) => Reading::Unjudged,
        Some(('"', rest)) => unexpected_value(text, rest),
        Some((c, rest)) if !is_end(c, rest) => {
            Reading::Reports(fault_up_to(text, behind_token(c, rest), PlatformFlaw::Unexpected))
        }
        _ => {
            let place = size(text);
            Reading::Reports(fault_between(place, place, PlatformFlaw::Unexpected))
        }
    }
}

// A value at the front of a text, before this rest of it.
fn unexpected_value<'a>(text: &'a str, quoted: &'a str) -> Reading<'a>
    requires { chars text.now ≡ double_quote ∷ chars quoted.now }
    ensures { reading_of result
        ≡ unexpected_value (behind_value (chars quoted.now)) (chars text.now) }
{
    match split_first(behind_run(quoted, Run::Value)) {
        Some((_, rest)) => Reading::Reports(fault_up_to(text, rest, PlatformFlaw::Unexpected)),
        None => Reading::Reports(fault_up_to(text, quoted, PlatformFlaw::ValueNotClosed)),
    }
}

// What comes behind a key, `&&`, `||` or another character, before this rest.
fn behind_token(c: char, rest: &str) -> &str
    ensures { chars result.now ≡ behind_token c (chars rest.now) }
{
    if begins_key(c) {
        behind_run(rest, Run::Key)
    } else if is_doubled(c, rest) {
        without_first(rest)
    } else {
        rest
    }
}
