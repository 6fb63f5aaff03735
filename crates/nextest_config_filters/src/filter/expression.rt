//! What is read of a filter at a place, in a state.

ghost use Rattle.std.specs.Prelude.{◌≡◌, ◌∷◌, chars, codes};
ghost use Rattle.nextest_config_filters.specs.Filter.Expression.{asks_for_itself, is_operator_word, other_word, read_named, read_opened, read_operand, read_operator, read_operator_word, read_sign, read_unnamed, read_word, reading_at};
ghost use Rattle.std.specs.Str.{skip_leading_whitespace as behind_spaces};
ghost use Rattle.nextest_config_filters.specs.Filter.Predicate.{joined_behind};
ghost use Rattle.nextest_config_filters.specs.Filter.Reading.{reading_of};

use super::FilterPlace;
use super::argument::read_argument;
use super::predicate::{Predicate, joined_behind};
use super::reading::{Expects, FaultAt, Reading, fault_at, unexpected};
use crate::fault::{Expected, FilterFlaw};
use crate::front::{
    Run, begins, begins_word, behind_spaces, is_doubled, split_first, split_run, split_standing,
    without_first,
};
use crate::pieces::{Piece, behind_pieces};
use nextest_config_values::nearest_word::is_same;

/// Reads what stands at the front of a text, where this is expected.
#[tactic(auto, unfolding(crate::specs::Filter::Expression::reading_at))]
pub(crate) fn reading_at(place: FilterPlace, expects: Expects, text: &str) -> Reading<'_>
    ensures { reading_of result ≡ reading_at place expects (chars text.now) }
{
    let text = behind_spaces(text);
    match expects {
        Expects::Operand => read_operand(place, text),
        Expects::Operator => read_operator(text),
    }
}

// Where an expression has to begin, behind spaces.
fn read_operand(place: FilterPlace, text: &str) -> Reading<'_>
    ensures { reading_of result ≡ read_operand place (chars text.now) }
{
    match split_first(text) {
        Some((c, _)) if begins_word(c) => read_word(place, text),
        Some(('!', rest)) => Reading::GoesOn(Expects::Operand, rest),
        Some(('(', rest)) => Reading::Opens(rest),
        Some(('#', _)) => Reading::Unjudged,
        _ => unexpected(Expected::Expression, text),
    }
}

// A word in place of an expression.
fn read_word(place: FilterPlace, text: &str) -> Reading<'_>
    ensures { reading_of result ≡ read_word place (chars text.now) }
{
    let (word, rest) = split_run(text, Run::Word);
    match Predicate::named(word) {
        Some(predicate) => read_named(place, predicate, word, rest),
        None => read_unnamed(text, word, rest),
    }
}

// The name of a predicate, and what stands behind it.
fn read_named<'a>(
    place: FilterPlace,
    predicate: Predicate,
    name: &'a str,
    rest: &'a str,
) -> Reading<'a>
    ensures { reading_of result ≡ read_named place predicate (chars name.now) (chars rest.now)
        (behind_spaces (chars rest.now)) }
{
    let text = behind_spaces(rest);
    if begins(text, '(') {
        return read_opened(place, predicate, name, rest, without_first(text));
    }
    let (found, _) = split_standing(text);
    Reading::Reports(FaultAt {
        what: name,
        behind: rest,
        flaw: FilterFlaw::Unexpected(Expected::Opening(predicate)),
        found,
        words: "",
    })
}

// The name of a predicate, and behind its parenthesis the argument.
fn read_opened<'a>(
    place: FilterPlace,
    predicate: Predicate,
    name: &'a str,
    rest: &'a str,
    opened: &'a str,
) -> Reading<'a>
    ensures { reading_of result ≡ read_opened place predicate (chars name.now) (chars rest.now)
        (chars opened.now) }
{
    if asks_for_itself(place, predicate) {
        Reading::Reports(fault_at(name, rest, FilterFlaw::AsksForItself))
    } else {
        read_argument(predicate, opened)
    }
}

// Whether this is `default` in a default filter.
fn asks_for_itself(place: FilterPlace, predicate: Predicate) -> bool
    ensures { result ≡ asks_for_itself place predicate }
{
    matches!(
        (place, predicate),
        (FilterPlace::DefaultFilter, Predicate::Default)
    )
}

// A word in place of an expression that is no name, at the front of a text.
#[tactic(auto, using(crate::proofs::Characters::ascii_chars))]
fn read_unnamed<'a>(text: &'a str, word: &'a str, rest: &'a str) -> Reading<'a>
    ensures { reading_of result ≡ read_unnamed (joined_behind (codes "not") (chars text.now))
        (chars word.now) (chars rest.now) }
{
    match joined_behind(text, "not") {
        Some(following) => Reading::GoesOn(Expects::Operand, behind_pieces(following, Piece::Not)),
        None => other_word(word, rest),
    }
}

// A word in place of an expression that isn't joined of `not`.
fn other_word<'a>(word: &'a str, rest: &'a str) -> Reading<'a>
    ensures { reading_of result ≡ other_word (chars word.now) (chars rest.now) }
{
    let flaw = if is_operator_word(word) {
        FilterFlaw::Unexpected(Expected::Expression)
    } else if begins(behind_spaces(rest), '(') {
        FilterFlaw::UnknownPredicate
    } else {
        FilterFlaw::Unexpected(Expected::PredicateAndArgument)
    };
    Reading::Reports(fault_at(word, rest, flaw))
}

// Whether the word is `not`, `and` or `or` but for the case of letters.
#[tactic(auto, using(crate::proofs::Characters::utf8_of_chars))]
fn is_operator_word(word: &str) -> bool
    ensures { result ≡ is_operator_word (chars word.now) }
{
    is_same(word, "not") || is_same(word, "and") || is_same(word, "or")
}

// Where an operator has to stand, or the end, behind spaces.
fn read_operator(text: &str) -> Reading<'_>
    ensures { reading_of result ≡ read_operator (chars text.now) }
{
    match split_first(text) {
        Some((c, _)) if begins_word(c) => read_operator_word(text),
        Some((c, rest)) => read_sign(text, c, rest),
        None => Reading::Ends,
    }
}

// A character in place of an operator that begins no word, at the front of a text.
fn read_sign<'a>(text: &'a str, c: char, rest: &'a str) -> Reading<'a>
    requires { chars text.now ≡ c ∷ chars rest.now }
    ensures { reading_of result ≡ read_sign c (chars rest.now) }
{
    match c {
        '&' | '|' | '+' | '-' if !is_doubled(c, rest) => Reading::GoesOn(Expects::Operand, rest),
        ')' => Reading::Closes(rest),
        '#' => Reading::Unjudged,
        _ => unexpected(Expected::Operator, text),
    }
}

// A word in place of an operator.
#[tactic(auto, using(crate::proofs::Characters::ascii_chars))]
fn read_operator_word(text: &str) -> Reading<'_>
    ensures { reading_of result ≡ read_operator_word (chars text.now) }
{
    if let Some(rest) = joined_behind(text, "and") {
        return Reading::GoesOn(Expects::Operand, rest);
    }
    match joined_behind(text, "or") {
        Some(rest) => Reading::GoesOn(Expects::Operand, rest),
        None => unexpected(Expected::Operator, text),
    }
}
