//! Texts: how long they are, which are the same, and copies of them.

ghost use Rattle.std.specs.Prelude.{◌≡◌, IfOk, chars, map, nat_eq, option_map, string_bytes};
ghost use Rattle.std.specs.Cmp.Lexicographic.{pointwise};
ghost use Rattle.nextest_config_values.specs.Read.{words_of};
ghost use Rattle.nextest_config_filters.specs.Front.{bytes_of};
ghost use Rattle.nextest_config_filters.specs.Text.{is_one_of};

use std::alloc::{AllocError, Global};

/// How many bytes a text takes.
#[tactic(auto, using(crate::proofs::Characters::utf8_of_chars))]
pub(crate) fn size(text: &str) -> usize
    ensures { result ≡ bytes_of (chars text.now) }
{
    text.len()
}

/// The text as one of its own, where there is one.
pub(crate) fn owned(alloc: Global, text: Option<&str>) -> Result<Option<String>, AllocError>
    ensures { IfOk result (λ owned. option_map string_bytes owned
        ≡ option_map (λ text. text.now) text.entry) }
{
    match text {
        Some(text) => Ok(Some(String::from_str(alloc, text)?)),
        None => Ok(None),
    }
}

/// Whether two texts have the same characters.
pub(crate) fn is_same_text(one: &str, other: &str) -> bool
    ensures { result ≡ pointwise nat_eq (chars one.now) (chars other.now) }
{
    one == other
}

/// Whether a text is one of these words.
pub(crate) fn is_one_of(text: &str, words: &[&str]) -> bool
    ensures { result ≡ is_one_of (chars text.now) (map chars (words_of words.now)) }
{
    for &word in words {
        if is_same_text(text, word) {
            return true;
        }
    }
    false
}
