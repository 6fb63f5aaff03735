//! What a text begins with: spaces, a word, a text, or whatever stands there.

ghost use Rattle.std.specs.Prelude.{◌≡◌, ◌++◌, ℕ, [], ◌∷◌, List, MatchOption, chars, drop, length};
ghost use Rattle.std.specs.Str.{drop_trailing_whitespace as without_spaces_behind, skip_leading_whitespace as behind_spaces};
ghost use Rattle.nextest_config_filters.specs.Front.{begins, begins_key, begins_with_space, begins_word, behind, behind_run, behind_standing, in_run, in_word, is_blank, is_doubled, IsFront, IsRest, only_blanks, run, standing, without_first};

use crate::pieces::{Piece, behind_pieces};

/// The first character of a text, and what stands behind it.
#[tactic(auto, using(std::proofs::lemmas::Str::chars_past_char))]
pub(crate) fn split_first(text: &str) -> Option<(char, &str)>
    ensures { MatchOption result (chars text.now ≡ []) (λ x. chars text.now ≡ x.0 ∷ chars x.1.now) }
{
    let mut characters = text.chars();
    let first = characters.next()?;
    Some((first, characters.as_str()))
}

/// Whether a text begins with this character.
pub(crate) fn begins(text: &str, c: char) -> bool
    ensures { result ≡ begins c (chars text.now) }
{
    match split_first(text) {
        Some((first, _)) => c == first,
        None => false,
    }
}

/// What stands behind a text at the front, where a text begins with that.
pub(crate) fn behind<'a>(text: &'a str, front: &str) -> Option<&'a str>
    ensures { MatchOption result (behind (chars front.now) (chars text.now) ≡ None)
        (λ rest. behind (chars front.now) (chars text.now) ≡ Some (chars rest.now)) }
{
    text.strip_prefix(front)
}

/// A text up to a rest of it, and that rest.
pub(crate) fn split_before<'a>(text: &'a str, rest: &str) -> (&'a str, &'a str)
    requires { IsRest (chars text.now) (chars rest.now) }
    ensures front { (front : List ℕ) → chars text.now ≡ front ++ chars rest.now
        → chars result.0.now ≡ front }
    ensures rest { chars result.1.now ≡ chars rest.now }
{
    text.split_at(text.len() - rest.len())
}

/// The front of a text that is as long as this one, and what stands behind it.
pub(crate) fn split_front<'a>(text: &'a str, front: &str) -> (&'a str, &'a str)
    requires { IsFront (chars front.now) (chars text.now) }
    ensures front { chars result.0.now ≡ chars front.now }
    ensures rest { chars result.1.now ≡ drop (length (chars front.now)) (chars text.now) }
{
    text.split_at(front.len())
}

/// A text without the spaces at its front.
pub(crate) fn behind_spaces(text: &str) -> &str
    ensures { chars result.now ≡ behind_spaces (chars text.now) }
{
    text.trim_start()
}

/// A text without the spaces at its end.
pub(crate) fn without_spaces_behind(text: &str) -> &str
    ensures { chars result.now ≡ without_spaces_behind (chars text.now) }
{
    text.trim_end()
}

/// A kind of characters that stand in a run.
#[derive(Clone, Copy, Debug, PartialEq, Eq)]
pub(crate) enum Run {
    /// Those of a word.
    Word,
    /// All but `)`.
    Unclosed,
    /// Those of a code between braces.
    Code,
    /// Those of a key of a platform.
    Key,
    /// All but `"`.
    Value,
}

impl Run {
    pub(crate) fn has(self, c: char) -> bool
        ensures { result ≡ in_run self c }
    {
        match self {
            Run::Word => in_word(c),
            Run::Unclosed => c != ')',
            Run::Code => c.is_ascii_hexdigit() || c == '_',
            Run::Key => begins_key(c) || c.is_ascii_digit(),
            Run::Value => c != '"',
        }
    }
}

/// The longest front of a kind of characters, and what stands behind it.
pub(crate) fn split_run(text: &str, kind: Run) -> (&str, &str)
    ensures run { chars result.0.now ≡ run (in_run kind) (chars text.now) }
    ensures rest { chars result.1.now ≡ behind_run (in_run kind) (chars text.now) }
{
    split_before(text, behind_run(text, kind))
}

/// What stands behind the longest front of a kind of characters.
pub(crate) fn behind_run(text: &str, kind: Run) -> &str
    ensures { chars result.now ≡ behind_run (in_run kind) (chars text.now) }
{
    behind_pieces(text, Piece::Of(kind))
}

/// Whether all spaces at the front are blanks.
pub(crate) fn only_blanks(text: &str) -> bool
    ensures { result ≡ only_blanks (chars text.now) }
{
    !begins_with_space(behind_pieces(text, Piece::Blank))
}

fn begins_with_space(text: &str) -> bool
    ensures { result ≡ begins_with_space (chars text.now) }
{
    match split_first(text) {
        Some((c, _)) => c.is_whitespace(),
        None => false,
    }
}

/// Whether nextest takes a character before this text for a space.
pub(crate) fn is_blank(c: char, following: &str) -> bool
    ensures { result ≡ is_blank c (chars following.now) }
{
    c == ' ' || c == '\n' || (c == '\r' && begins(following, '\n'))
}

/// Whether a word may begin with this character.
pub(crate) fn begins_word(c: char) -> bool
    ensures { result ≡ begins_word c }
{
    c.is_ascii_alphanumeric() || c == '_' || (!c.is_ascii() && !c.is_whitespace())
}

// Whether a word may go on with this character.
fn in_word(c: char) -> bool
    ensures { result ≡ in_word c }
{
    begins_word(c) || c == '-'
}

/// Whether a key of a platform may begin with this character.
pub(crate) fn begins_key(c: char) -> bool
    ensures { result ≡ begins_key c }
{
    c.is_ascii_alphabetic() || c == '_'
}

/// What stands at the front of a text, and what comes behind it: the word there, `&&`, `||`, or the
/// one character; nothing at the end.
pub(crate) fn split_standing(text: &str) -> (&str, &str)
    ensures standing { chars result.0.now ≡ standing (chars text.now) }
    ensures rest { chars result.1.now ≡ behind_standing (chars text.now) }
{
    split_before(text, behind_standing(text))
}

fn behind_standing(text: &str) -> &str
    ensures { chars result.now ≡ behind_standing (chars text.now) }
{
    match split_first(text) {
        Some((c, _)) if begins_word(c) => behind_run(text, Run::Word),
        Some((c, following)) if is_doubled(c, following) => without_first(following),
        Some((_, following)) => following,
        None => text,
    }
}

/// Whether this character and the text behind it begin with `&&` or `||`.
pub(crate) fn is_doubled(c: char, following: &str) -> bool
    ensures { result ≡ is_doubled c (chars following.now) }
{
    begins(following, c) && (c == '&' || c == '|')
}

/// All of a text but its first character.
pub(crate) fn without_first(text: &str) -> &str
    ensures { chars result.now ≡ without_first (chars text.now) }
{
    match split_first(text) {
        Some((_, following)) => following,
        None => text,
    }
}
