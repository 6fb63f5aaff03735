//! The predicates of filters.

ghost use Rattle.std.specs.Prelude.{◌≡◌, MatchOption, chars};
ghost use Rattle.nextest_config_values.specs.Read.{value_of, words_of};
ghost use Rattle.nextest_config_filters.specs.Filter.Predicate.{all_predicates, is_joined, is_name_or_nothing, joined_behind, name_of, name_reads_back, predicate_named, suggested, takes_none, takes_regex};

use crate::front::{Run, behind, split_first, split_run};
use crate::pieces::{Piece, behind_pieces};
use nextest_config_values::read::Word;

/// A predicate of nextest's filters.
#[derive(Clone, Copy, Debug, PartialEq, Eq)]
pub enum Predicate {
    All,
    None,
    Default,
    Test,
    Package,
    Deps,
    Rdeps,
    Binary,
    BinaryId,
    Kind,
    Platform,
    Group,
}

impl Predicate {
    /// The predicate with this name.
    pub(crate) fn named(name: &str) -> Option<Predicate>
        ensures { result ≡ predicate_named (chars name.now) }
    {
        find_named(Predicate::all(), name)
    }

    /// Whether it takes a regular expression, too.
    pub(crate) fn takes_regex(self) -> bool
        ensures { result ≡ takes_regex self }
    {
        !matches!(self, Predicate::Platform)
    }

    /// Whether it takes no argument.
    pub(crate) fn takes_none(self) -> bool
        ensures { result ≡ takes_none self }
    {
        matches!(self, Predicate::All | Predicate::None | Predicate::Default)
    }
}

impl Word for Predicate {
    ghost all = { all_predicates };

    ghost word = { name_of };

    ghost reads_back = { name_reads_back };

    fn all() -> &'static [Self] {
        &[
            Predicate::All,
            Predicate::None,
            Predicate::Default,
            Predicate::Test,
            Predicate::Package,
            Predicate::Deps,
            Predicate::Rdeps,
            Predicate::Binary,
            Predicate::BinaryId,
            Predicate::Kind,
            Predicate::Platform,
            Predicate::Group,
        ]
    }

    fn words() -> &'static [&'static str] {
        &[
            "all",
            "none",
            "default",
            "test",
            "package",
            "deps",
            "rdeps",
            "binary",
            "binary_id",
            "kind",
            "platform",
            "group",
        ]
    }

    fn position(self) -> usize {
        self as usize
    }
}

// The first of these predicates that has this name.
fn find_named(all: &[Predicate], name: &str) -> Option<Predicate>
    ensures { result ≡ value_of name_of all.now name.now }
{
    for predicate in all {
        if predicate.as_word() == name {
            return Some(*predicate);
        }
    }
    None
}

/// The names that are suggested: all but the last, which a version of nextest may not have yet.
pub(crate) fn suggested() -> &'static [&'static str]
    ensures { words_of result.now ≡ suggested }
{
    let names = Predicate::words();
    &names[..names.len() - 1]
}

/// What stands behind a word that is joined to it at the front of a text.
pub(crate) fn joined_behind<'a>(text: &'a str, word: &str) -> Option<&'a str>
    ensures { MatchOption result (joined_behind (chars word.now) (chars text.now) ≡ None)
        (λ rest. joined_behind (chars word.now) (chars text.now) ≡ Some (chars rest.now)) }
{
    let rest = behind(text, word)?;
    if is_joined(rest) { Some(rest) } else { None }
}

// Whether what goes on behind a word may be read for itself: `not`s, and then a name or nothing.
fn is_joined(text: &str) -> bool
    ensures { result ≡ is_joined (chars text.now) }
{
    let (word, _) = split_run(behind_pieces(text, Piece::Not), Run::Word);
    is_name_or_nothing(word)
}

fn is_name_or_nothing(word: &str) -> bool
    ensures { result ≡ is_name_or_nothing (chars word.now) }
{
    match split_first(word) {
        Some((_, _)) => Predicate::named(word).is_some(),
        None => true,
    }
}
