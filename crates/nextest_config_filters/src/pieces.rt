//! The pieces that texts and regular expressions are made of, up to where they end.

ghost use Rattle.std.specs.Prelude.{◌≡◌, ◌∷◌, MatchOption, chars};
ghost use Rattle.toml_spans.specs.Characters.{backslash};
ghost use Rattle.nextest_config_filters.specs.Filter.Predicate.{behind_nots};
ghost use Rattle.nextest_config_filters.specs.Front.{behind_blanks, behind_run, in_run};
ghost use Rattle.nextest_config_filters.specs.Pieces.{behind_pieces, IsBehindPiece, IsEnd, IsPiece, IsTextEnd, regex_end};

use crate::escape::is_unknown_escape;
use crate::front::{Run, begins, behind, is_blank, split_first};

/// What a text is gone through by.
#[derive(Clone, Copy, Debug, PartialEq, Eq)]
pub(crate) enum Piece {
    /// A character of a run.
    Of(Run),
    /// A space that nextest takes for one.
    Blank,
    /// The word `not`.
    Not,
    /// A character of a regular expression, or a backslash and the one behind it.
    Regex,
}

/// What stands behind all pieces of a kind at the front.
pub(crate) fn behind_pieces(text: &str, kind: Piece) -> &str
    ensures { chars result.now ≡ behind_pieces kind (chars text.now) }
{
    let mut rest = text;
    while let Some(following) = behind_piece(rest, kind) {
        rest = following;
    }
    rest
}

// What stands behind the next piece of a kind.
fn behind_piece(text: &str, kind: Piece) -> Option<&str>
    ensures { MatchOption result (behind_pieces kind (chars text.now) ≡ chars text.now)
        (λ rest. IsBehindPiece (behind_pieces kind) (chars text.now) (chars rest.now)) }
{
    match kind {
        Piece::Of(run) => behind_character(text, run),
        Piece::Blank => behind_blank(text),
        Piece::Not => behind_not(text),
        Piece::Regex => behind_regex_piece(text),
    }
}

fn behind_character(text: &str, kind: Run) -> Option<&str>
    ensures { MatchOption result (behind_run (in_run kind) (chars text.now) ≡ chars text.now)
        (λ rest. IsBehindPiece (behind_run (in_run kind)) (chars text.now) (chars rest.now)) }
{
    let (c, following) = split_first(text)?;
    if kind.has(c) { Some(following) } else { None }
}

fn behind_blank(text: &str) -> Option<&str>
    ensures { MatchOption result (behind_blanks (chars text.now) ≡ chars text.now)
        (λ rest. IsBehindPiece behind_blanks (chars text.now) (chars rest.now)) }
{
    let (c, following) = split_first(text)?;
    if is_blank(c, following) {
        Some(following)
    } else {
        None
    }
}

fn behind_not(text: &str) -> Option<&str>
    ensures { MatchOption result (behind_nots (chars text.now) ≡ chars text.now)
        (λ rest. IsBehindPiece behind_nots (chars text.now) (chars rest.now)) }
{
    behind(text, "not")
}

/// Where a text ends.
#[derive(Clone, Copy, Debug)]
pub(crate) struct TextEnd<'a> {
    /// What stands from there on.
    pub rest: &'a str,
    /// Whether a parenthesis opened before that, and not behind a backslash.
    pub has_parenthesis: bool,
    /// Whether a brace did.
    pub has_brace: bool,
}

/// Where a text ends: at a `)`, a `,`, or a backslash that escapes nothing.
pub(crate) fn text_end(text: &str) -> TextEnd<'_>
    ensures { IsTextEnd (chars text.now) result }
{
    let mut end = TextEnd {
        rest: text,
        has_parenthesis: false,
        has_brace: false,
    };
    while let Some((c, following)) = text_piece(end.rest) {
        end = TextEnd {
            rest: following,
            has_parenthesis: end.has_parenthesis | (c == '('),
            has_brace: end.has_brace | (c == '{'),
        };
    }
    end
}

// The first character of the next piece of a text, and what stands behind the piece: a backslash
// and the character behind it are one.
fn text_piece(text: &str) -> Option<(char, &str)>
    ensures { MatchOption result (IsEnd (chars text.now))
        (λ piece. IsPiece (chars text.now) piece.0 (chars piece.1.now)) }
{
    let (c, following) = split_first(text)?;
    match c {
        ')' | ',' => None,
        '\\' => Some((c, behind_escape(following)?)),
        _ => Some((c, following)),
    }
}

// What stands behind the character that a backslash escapes; nothing where it escapes nothing.
fn behind_escape(text: &str) -> Option<&str>
    ensures { MatchOption result (IsEnd (backslash ∷ chars text.now))
        (λ rest. IsPiece (backslash ∷ chars text.now) backslash (chars rest.now)) }
{
    match split_first(text) {
        Some((c, following)) if is_unknown_escape(c, following) => None,
        Some((_, following)) => Some(following),
        None => Some(text),
    }
}

// A regular expression ends at its second `/`, or at a pair of backslashes before a `/`.
fn behind_regex_piece(text: &str) -> Option<&str>
    ensures { MatchOption result (regex_end (chars text.now) ≡ chars text.now)
        (λ rest. IsBehindPiece regex_end (chars text.now) (chars rest.now)) }
{
    match split_first(text)? {
        ('/', _) => None,
        ('\\', following) => behind_pair(following),
        (_, following) => Some(following),
    }
}

// What stands behind the character behind a backslash; nothing where that is one, before a `/`.
fn behind_pair(text: &str) -> Option<&str>
    ensures { MatchOption result
        (regex_end (backslash ∷ chars text.now) ≡ backslash ∷ chars text.now)
        (λ rest. IsBehindPiece regex_end (backslash ∷ chars text.now) (chars rest.now)) }
{
    match split_first(text) {
        Some((c, following)) if c == '\\' && begins(following, '/') => None,
        Some((_, following)) => Some(following),
        None => Some(text),
    }
}
