//! The argument of a predicate, from behind its parenthesis on.

ghost use Rattle.std.specs.Prelude.{◌≡◌, ◌==◌, ◌||◌, ◌∷◌, chars};
ghost use Rattle.std.specs.List.{list_any};
ghost use Rattle.toml_spans.specs.Characters.{backslash};
ghost use Rattle.nextest_config_filters.specs.Filter.Argument.{behind_regex, closed_text, escape_flaw, is_no_platform, is_other_word, is_platform_word, met_at_end, read_argument, read_begun, read_no_argument, read_nothing, read_regex, read_some_argument, read_text, second_argument, unknown_escape};
ghost use Rattle.nextest_config_filters.specs.Filter.Reading.{reading_of};
ghost use Rattle.nextest_config_filters.specs.Front.{IsFront};
ghost use Rattle.nextest_config_filters.specs.Pieces.{IsTextEnd};

use super::predicate::Predicate;
use super::reading::{Expects, Reading, fault_at, not_closed, unexpected};
use crate::fault::{Expected, FilterFlaw};
use crate::front::{
    Run, begins, behind_spaces, only_blanks, split_before, split_first, split_front, split_run,
    without_first, without_spaces_behind,
};
use crate::pieces::{Piece, TextEnd, behind_pieces, text_end};
use crate::text::is_same_text;

/// Reads an argument, and the parenthesis that closes it.
#[tactic(auto, unfolding(crate::specs::Filter::Argument::read_argument))]
pub(crate) fn read_argument(predicate: Predicate, opened: &str) -> Reading<'_>
    ensures { reading_of result ≡ read_argument predicate (chars opened.now) }
{
    if predicate.takes_none() {
        read_no_argument(predicate, opened)
    } else {
        read_some_argument(predicate, opened)
    }
}

// The first `)` ends what has to be no argument.
fn read_no_argument(predicate: Predicate, opened: &str) -> Reading<'_>
    ensures { reading_of result ≡ read_no_argument predicate (chars opened.now) }
{
    let text = behind_spaces(opened);
    let (argument, end) = split_run(text, Run::Unclosed);
    match split_first(end) {
        Some((_, rest)) => read_nothing(predicate, without_spaces_behind(argument), text, rest),
        None => Reading::Reports(not_closed(opened)),
    }
}

// What stands before the parenthesis that closes, at the front of a text: nothing, or one argument
// too many.
fn read_nothing<'a>(
    predicate: Predicate,
    argument: &str,
    text: &'a str,
    rest: &'a str,
) -> Reading<'a>
    requires { IsFront (chars argument.now) (chars text.now) }
    ensures { reading_of result
        ≡ read_nothing predicate (chars argument.now) (chars text.now) (chars rest.now) }
{
    if argument.is_empty() {
        return Reading::GoesOn(Expects::Operator, rest);
    }
    let (argument, behind) = split_front(text, argument);
    Reading::Reports(fault_at(argument, behind, FilterFlaw::UnwantedArgument(predicate)))
}

// Reads a text or a regular expression.
#[tactic(auto, using(crate::proofs::Characters::ascii_chars))]
fn read_some_argument(predicate: Predicate, opened: &str) -> Reading<'_>
    ensures { reading_of result ≡ read_some_argument predicate (chars opened.now) }
{
    if begins(opened, ')') {
        let rest = without_first(opened);
        return Reading::Reports(fault_at("()", rest, FilterFlaw::NoArgument(predicate)));
    }
    let text = behind_spaces(opened);
    if !only_blanks(opened) & (begins(text, '/') | begins(text, '#')) {
        return Reading::Unjudged;
    }
    read_begun(predicate, opened, text)
}

// An argument from its first character on.
fn read_begun<'a>(predicate: Predicate, opened: &'a str, text: &'a str) -> Reading<'a>
    ensures { reading_of result ≡ read_begun predicate (chars opened.now) (chars text.now) }
{
    if begins(text, '/') && predicate.takes_regex() {
        read_regex(opened, without_first(text))
    } else {
        read_text(predicate, opened, text)
    }
}

// Reads a text.
fn read_text<'a>(predicate: Predicate, opened: &'a str, text: &'a str) -> Reading<'a>
    ensures { reading_of result ≡ read_text predicate (chars opened.now) (chars text.now) }
{
    let end = text_end(text);
    match split_first(end.rest) {
        Some((c, rest)) => ended_text(predicate, text, &end, c, rest),
        None => Reading::Reports(not_closed(opened)),
    }
}

// What stands where a text ends, which is followed by this rest.
fn ended_text<'a>(
    predicate: Predicate,
    text: &'a str,
    end: &TextEnd<'a>,
    c: char,
    rest: &'a str,
) -> Reading<'a>
    requires end { IsTextEnd (chars text.now) end.now }
    requires first { chars end.now.rest.now ≡ c ∷ chars rest.now }
    ensures { reading_of result ≡ met_at_end predicate (chars text.now) c (chars rest.now) }
{
    match c {
        '\\' => unknown_escape(end.rest, rest),
        ')' => closed_text(predicate, text, end, rest),
        _ => second_argument(predicate, end, rest),
    }
}

// A backslash at the front of a text, before this rest, that escapes nothing.
fn unknown_escape<'a>(text: &'a str, rest: &'a str) -> Reading<'a>
    requires { chars text.now ≡ backslash ∷ chars rest.now }
    ensures { reading_of result ≡ unknown_escape (chars rest.now) }
{
    let Some((c, behind)) = split_first(rest) else {
        return Reading::Unjudged;
    };
    let (escape, behind) = split_before(text, behind);
    Reading::Reports(fault_at(escape, behind, escape_flaw(c)))
}

// What is wrong with a backslash before this character, where it escapes nothing.
fn escape_flaw(c: char) -> FilterFlaw
    ensures { result ≡ escape_flaw c }
{
    if c == 'u' {
        FilterFlaw::UnknownCode
    } else {
        FilterFlaw::UnknownEscape
    }
}

// A text that a parenthesis closes before this rest.
fn closed_text<'a>(
    predicate: Predicate,
    text: &'a str,
    end: &TextEnd<'a>,
    rest: &'a str,
) -> Reading<'a>
    requires { IsTextEnd (chars text.now) end.now }
    ensures { reading_of result ≡ closed_text predicate (chars text.now) (chars rest.now) }
{
    let (front, _) = split_before(text, end.rest);
    let argument = without_spaces_behind(front);
    if is_no_platform(predicate, argument) {
        let (argument, behind) = split_front(text, argument);
        let flaw = FilterFlaw::Unexpected(Expected::HostOrTarget);
        return Reading::Reports(fault_at(argument, behind, flaw));
    }
    if end.has_parenthesis {
        return Reading::Unjudged;
    }
    Reading::GoesOn(Expects::Operator, rest)
}

// A comma in a text, before this rest.
#[tactic(auto, using(crate::proofs::Characters::ascii_chars))]
fn second_argument<'a>(predicate: Predicate, end: &TextEnd<'a>, rest: &'a str) -> Reading<'a>
    ensures { reading_of result ≡ second_argument predicate
        (end.now.has_parenthesis || end.now.has_brace) (chars rest.now) }
{
    if end.has_parenthesis | end.has_brace {
        return Reading::Unjudged;
    }
    Reading::Reports(fault_at(",", rest, FilterFlaw::SecondArgument(predicate)))
}

// Whether the argument is none that the predicate `platform` takes.
fn is_no_platform(predicate: Predicate, argument: &str) -> bool
    ensures { result ≡ is_no_platform predicate (chars argument.now) }
{
    match predicate {
        Predicate::Platform => is_other_word(argument),
        _ => false,
    }
}

// Whether an argument begins with a letter, has no backslash, and is neither of two words.
fn is_other_word(argument: &str) -> bool
    ensures { result ≡ is_other_word (chars argument.now) }
{
    let Some((first, _)) = split_first(argument) else {
        return false;
    };
    first.is_ascii_alphabetic() && !has_backslash(argument) && !is_platform_word(argument)
}

fn has_backslash(argument: &str) -> bool
    ensures { result ≡ list_any (λ c. c == backslash) (chars argument.now) }
{
    argument.chars().any(|c| c == '\\')
}

#[tactic(auto, using(crate::proofs::Characters::ascii_chars))]
fn is_platform_word(argument: &str) -> bool
    ensures { result ≡ is_platform_word (chars argument.now) }
{
    is_same_text(argument, "host") || is_same_text(argument, "target")
}

// Reads a regular expression, from behind its first slash on.
#[tactic(auto, using(crate::proofs::Characters::ascii_chars))]
fn read_regex<'a>(opened: &'a str, text: &'a str) -> Reading<'a>
    ensures { reading_of result ≡ read_regex (chars opened.now) (chars text.now) }
{
    match split_first(behind_pieces(text, Piece::Regex)) {
        Some(('\\', _)) => Reading::Unjudged,
        Some((_, rest)) => behind_regex(opened, behind_spaces(rest)),
        None => Reading::Reports(fault_at("/", text, FilterFlaw::RegexNotClosed)),
    }
}

// What stands behind a regular expression.
fn behind_regex<'a>(opened: &'a str, text: &'a str) -> Reading<'a>
    ensures { reading_of result ≡ behind_regex (chars opened.now) (chars text.now) }
{
    match split_first(text) {
        Some((')', rest)) => Reading::GoesOn(Expects::Operator, rest),
        Some((_, _)) => unexpected(Expected::ClosingOfRegex, text),
        None => Reading::Reports(not_closed(opened)),
    }
}
